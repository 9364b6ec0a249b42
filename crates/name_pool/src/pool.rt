// Names by number.
ghost use Rattle.std.specs.Prelude.{◌≡◌, ◌≤◌, ◌<◌, ◌↔◌, [], ℕ, None, length, take, IfOk, IfSome, IsTrue, OnOk, OnErr};
ghost use Rattle.tree_model.specs.Rows.{name_at};
ghost use Rattle.name_pool.specs.Names.{with_name, name_of, HasNumber, AreDistinct};

use crate::parts::Parts;
use indexmap::IndexSet;
use std::alloc::{AllocError, Global};
use std::marker::Model;
use tree_model::{Name, NoMemory};

/// Names without two that are equal in all three parts, numbered from 0 in the order in which they came. A name keeps its
/// number as more come. Contracts see the list of the names.
#[derive(Debug, Drop)]
pub struct NamePool {
    names: IndexSet<Name>,
}

impl Model for NamePool {
    ghost use Rattle.std.specs.Prelude.{List};
    ghost use Rattle.tree_model.specs.declared.text.Name.{Name};
    ghost use Rattle.name_pool.specs.Names.{AreDistinct};

    ghost Value = { List Name };

    ghost view = { λ p. p.names.keys };

    ghost invariant = { λ p. AreDistinct p.names.keys };
}

impl NamePool {
    /// A pool without names. Takes no memory.
    pub fn new(alloc: Global) -> NamePool
        ensures { result ≡ [] }
    {
        NamePool {
            names: IndexSet::new(alloc),
        }
    }

    /// The number of a name, which is copied where it is new.
    pub fn intern(&mut self, name: &Name) -> Result<u64, NoMemory>
        ensures number { IfOk result (HasNumber self.new name.now) }
        ensures grown { OnOk result (self.new ≡ with_name self.old name.now) }
        ensures kept { OnErr result (self.new ≡ self.old) }
    {
        self.intern_parts(name.uri.as_str(), name.prefix.as_str(), name.local.as_str())
    }

    /// The number of the name of these parts, which takes memory only where the name is new.
    #[tactic(auto, using(crate::proofs::Numbers::found_number, crate::proofs::Numbers::stored_number), unfolding(crate::specs::Names::with_name))]
    pub fn intern_parts(&mut self, uri: &str, prefix: &str, local: &str) -> Result<u64, NoMemory>
        ensures number { IfOk result (HasNumber self.new (name_of uri.now prefix.now local.now)) }
        ensures grown { OnOk result (self.new ≡ with_name self.old (name_of uri.now prefix.now local.now)) }
        ensures kept { OnErr result (self.new ≡ self.old) }
    {
        let parts = Parts { uri, prefix, local };
        if let Some(found) = self.names.get_index_of(parts) {
            return Ok(found as u64);
        }
        let name = parts.name(*self.names.allocator())?;
        match self.names.insert_full(name) {
            Ok(added) => Ok(added.0 as u64),
            Err(_) => Err(AllocError),
        }
    }

    /// The number of a name.
    pub fn find(&self, name: &Name) -> Option<u64>
        ensures number { IfSome result (HasNumber self.now name.now) }
        ensures none { result ≡ None → (n : ℕ) → n < length self.now → name_at self.now n ≡ name.now → ⊥ }
    {
        let found = self.names.get_index_of(name)?;
        Some(found as u64)
    }

    /// The name with a number.
    pub fn name(&self, n: u64) -> &Name
        requires { n < length self.now }
        ensures { result.now ≡ name_at self.now n }
    {
        &self.names.as_slice()[n as usize]
    }

    /// The number of names. No two of them are equal.
    pub fn len(&self) -> u64
        ensures len { result ≡ length self.now }
        ensures distinct { AreDistinct self.now }
    {
        self.names.len() as u64
    }

    /// Whether there are no names.
    pub fn is_empty(&self) -> bool
        ensures { IsTrue result ↔ (self.now ≡ []) }
    {
        self.names.is_empty()
    }

    /// The number of names, to go back to.
    pub fn mark(&self) -> u64
        ensures { result ≡ length self.now }
    {
        self.len()
    }

    /// Keeps the names below a mark. Takes no memory.
    pub fn back_to(&mut self, mark: u64)
        requires { mark ≤ length self.old }
        ensures { self.new ≡ take mark self.old }
    {
        self.names.truncate(mark as usize);
    }
}

// The parts of a name that isn't made yet.
ghost use Rattle.std.specs.Prelude.{◌≡◌, ◌++◌, IfOk};
ghost use Rattle.std.specs.Hash as fed;
ghost use Rattle.std.proofs.Common.{ap};
ghost use Rattle.tree_model.specs.declared.text.Name.{Name};
ghost use Rattle.name_pool.specs.Names.{are_equal_names, same_names, name_of};

use indexmap::Equivalent;
use std::alloc::Global;
use tree_model::{Name, NoMemory, Text};

/// The parts of a name.
#[derive(Clone, Copy, PartialEq, Eq, Hash)]
pub struct Parts<'a> {
    pub uri: &'a str,
    pub prefix: &'a str,
    pub local: &'a str,
}

impl<'a> Equivalent<Name> for Parts<'a> {
    ghost equivalent = { λ q. are_equal_names (name_of q.uri.now q.prefix.now q.local.now) };

    ghost respects_hash = { λ q k h. ap (λ (n : Name). fed.str n.uri ++ (fed.str n.prefix ++ fed.str n.local)) (same_names (name_of q.uri.now q.prefix.now q.local.now) k h) };

    ghost respects_eq = { λ q x y h. ap (λ (n : Name). are_equal_names n y) (same_names (name_of q.uri.now q.prefix.now q.local.now) x h) };

    fn equivalent(&self, key: &Name) -> bool {
        self.uri == key.uri.as_str()
            && self.prefix == key.prefix.as_str()
            && self.local == key.local.as_str()
    }
}

impl Parts<'_> {
    /// The name of these parts.
    pub fn name(&self, alloc: Global) -> Result<Name, NoMemory>
        ensures { IfOk result (λ name. name ≡ name_of self.now.uri.now self.now.prefix.now self.now.local.now) }
    {
        Ok(Name {
            uri: Text::of(alloc, self.uri)?,
            prefix: Text::of(alloc, self.prefix)?,
            local: Text::of(alloc, self.local)?,
        })
    }
}

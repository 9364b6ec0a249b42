// The prefixes in scope.
ghost use Rattle.std.specs.Prelude.{◌≡◌, ◌-◌, ◌≤◌, [], ◌∷◌, drop, length, OnErr, OnOk};
ghost use Rattle.prefix_scopes.specs.Scoping.{number_of};
ghost use Rattle.prefix_scopes.specs.Few.{scope_of};

use crate::hashed::HashedScopes;
use std::alloc::{AllocError, Global};
use std::marker::Model;

// So many bindings are compared one by one.
const FEW: usize = 8;

// A prefix and its number.
#[derive(Clone, Copy)]
struct Bound<'a> {
    prefix: &'a [u8],
    number: usize,
}

/// The prefixes in scope, each with a number that the caller chose. Contracts see the list of bindings, the innermost first.
///
/// A search goes by a hash, so it takes no longer where more are in scope.
// The outermost bindings stand in a row, those inside them in a map.
#[derive(Drop)]
pub struct PrefixScopes<'a> {
    few: Vec<Bound<'a>>,
    many: HashedScopes<'a>,
}

impl<'a> Model for PrefixScopes<'a> {
    ghost use Rattle.std.specs.Prelude.{◌≡◌, ◌<◌, [], ◌++◌, List, length};
    ghost use Rattle.prefix_scopes.specs.declared.scopes.TheConstants.{FEW};
    ghost use Rattle.prefix_scopes.specs.Scoping.{Numbering};
    ghost use Rattle.prefix_scopes.specs.Few.{scope_of};

    ghost Value = { List Numbering };

    ghost view = { λ s. s.many ++ scope_of s.few.items };

    ghost invariant = { λ s. length s.few.items < FEW → s.many ≡ [] };
}

// The number of the last binding of a prefix.
fn last_number(bounds: &[Bound], prefix: &[u8]) -> Option<usize>
    ensures { result ≡ number_of prefix.now (scope_of bounds.now) }
{
    let mut left = bounds.len();
    while left > 0 {
        left -= 1;
        let bound = bounds[left];
        if bound.prefix == prefix {
            return Some(bound.number);
        }
    }
    None
}

impl<'a> PrefixScopes<'a> {
    /// No bindings. Takes no memory.
    pub fn new(alloc: Global) -> PrefixScopes<'a>
        ensures { result ≡ [] }
    {
        PrefixScopes {
            few: Vec::new(alloc),
            many: HashedScopes::new(alloc),
        }
    }

    /// A binding inside all others. Fails only where memory is wanting.
    pub fn bind(&mut self, prefix: &'a [u8], number: usize) -> Result<(), AllocError>
        ensures ok { OnOk result (self.new ≡ (prefix.now, number) ∷ self.old) }
        ensures err { OnErr result (self.new ≡ self.old) }
    {
        if self.few.len() < FEW {
            self.few.push(Bound { prefix, number })?;
            return Ok(());
        }
        self.many.bind(prefix, number)
    }

    /// The number of the innermost binding of a prefix.
    pub fn find(&self, prefix: &[u8]) -> Option<usize>
        ensures { result ≡ number_of prefix.now self.now }
    {
        if let Some(number) = self.many.find(prefix) {
            return Some(number);
        }
        last_number(&self.few, prefix)
    }

    /// How many bindings there are, hidden ones counted.
    pub fn len(&self) -> usize
        ensures { result ≡ length self.now }
    {
        self.few.len() + self.many.len()
    }

    /// Takes the innermost bindings off, down to so many. Takes no memory.
    pub fn back_to(&mut self, len: usize)
        requires { len ≤ length self.old }
        ensures { self.new ≡ drop (length self.old - len) self.old }
    {
        let few = len.min(self.few.len());
        self.many.back_to(len - few);
        self.few.truncate(few);
    }
}

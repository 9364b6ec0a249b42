// Many prefixes in scope: a map tells where the innermost binding of each prefix stands.
ghost use Rattle.std.specs.Prelude.{◌≡◌, ◌-◌, ◌<◌, ◌≤◌, ◌^◌, [], ◌∷◌, drop, length, OnErr, OnOk};
ghost use Rattle.prefix_scopes.specs.Scoping.{number_of};

use indexmap::IndexMap;
use std::alloc::{AllocError, Global};
use std::marker::Model;

// A prefix, its number, and the place of the binding of the same prefix that it hides.
#[derive(Clone, Copy)]
pub(crate) struct Binding<'a> {
    prefix: &'a [u8],
    number: usize,
    before: Option<usize>,
}

// The bindings, the innermost last, and the place of the innermost one of each prefix. A prefix whose last binding has gone
// stays in the map, with no place.
#[derive(Drop)]
pub(crate) struct HashedScopes<'a> {
    bindings: Vec<Binding<'a>>,
    innermost: IndexMap<&'a [u8], Option<usize>>,
}

impl<'a> Model for HashedScopes<'a> {
    ghost use Rattle.std.specs.Prelude.{List, reverse};
    ghost use Rattle.indexmap.specs.IndexMap.{get};
    ghost use Rattle.prefix_scopes.specs.Scoping.{Numbering};
    ghost use Rattle.prefix_scopes.specs.Places.{numberings_of, is_same_prefix, ArePlaced};

    ghost Value = { List Numbering };

    ghost view = { λ s. numberings_of (reverse s.bindings.items) };

    ghost invariant = { λ s. ArePlaced (get is_same_prefix s.innermost) (reverse s.bindings.items) };
}

impl<'a> HashedScopes<'a> {
    // No bindings. Takes no memory.
    pub(crate) fn new(alloc: Global) -> HashedScopes<'a>
        ensures { result ≡ [] }
    {
        HashedScopes {
            bindings: Vec::new(alloc),
            innermost: IndexMap::new(alloc),
        }
    }

    // A binding inside all others. Without memory all stays as it was.
    pub(crate) fn bind(&mut self, prefix: &'a [u8], number: usize) -> Result<(), AllocError>
        ensures ok { OnOk result (self.new ≡ (prefix.now, number) ∷ self.old) }
        ensures err { OnErr result (self.new ≡ self.old) }
    {
        let place = self.bindings.len();
        self.bindings.reserve(1)?;
        let before = self.innermost.insert(prefix, Some(place))?.flatten();
        self.bindings.push_reserved(Binding {
            prefix,
            number,
            before,
        });
        Ok(())
    }

    // The number of the innermost binding of a prefix. Hashes nothing where there are no bindings.
    pub(crate) fn find(&self, prefix: &[u8]) -> Option<usize>
        ensures { result ≡ number_of prefix.now self.now }
    {
        if self.bindings.is_empty() {
            return None;
        }
        let place = self.innermost.get(prefix).copied().flatten()?;
        Some(self.bindings[place].number)
    }

    pub(crate) fn len(&self) -> usize
        ensures len { result ≡ length self.now }
        ensures small { result < 2 ^ 63 }
    {
        self.bindings.len()
    }

    // Takes the innermost binding off, where there is one.
    pub(crate) fn pop(&mut self)
        ensures { self.new ≡ drop 1 self.old }
    {
        let Some(binding) = self.bindings.pop() else {
            return;
        };
        if let Some(place) = self.innermost.get_mut(binding.prefix) {
            *place = binding.before;
        }
    }

    // Takes the innermost bindings off, down to so many. Takes no memory.
    pub(crate) fn back_to(&mut self, len: usize)
        requires { len ≤ length self.old }
        ensures { self.new ≡ drop (length self.old - len) self.old }
    {
        while self.len() > len {
            self.pop();
        }
    }
}

// The declarations that are in force while a node is printed.
ghost use Rattle.std.specs.Prelude.{◌≡◌, ◌+◌, ◌==◌, [], ◌∷◌, length, OnOk};
ghost use Rattle.std.specs.List.{suffix_len};
ghost use Rattle.std.specs.Option.{option_copied};
ghost use Rattle.tree_model.specs.Printing as printing;
ghost use Rattle.tree_model.specs.XmlMeaning.{uri_of, first_scope};
ghost use Rattle.serializer.specs.Scopes.{pairs_of, scope_of, outside};
ghost use Rattle.serializer.specs.declared.bindings.Binding.{Binding};

use crate::declarations::Declaration;
use prefix_scopes::PrefixScopes;
use std::alloc::Global;
use std::marker::Model;
use tree_model::{Name, NoMemory};

const XML_URI: &str = "http://www.w3.org/XML/1998/namespace";

// The element at `place` bound a prefix to this URI.
#[derive(Clone, Copy)]
struct Binding<'a> {
    place: u32,
    uri: &'a [u8],
}

// The bindings of the elements that are open. Contracts see their list, the innermost first.
#[derive(Drop)]
pub(crate) struct Bindings<'a> {
    prefixes: PrefixScopes<'a>,
    bindings: Vec<Binding<'a>>,
}

impl<'a> Model for Bindings<'a> {
    ghost use Rattle.std.specs.Prelude.{List, reverse};
    ghost use Rattle.serializer.specs.Scopes.{InForce};
    ghost use Rattle.serializer.specs.Numbered.{in_force, AreNumbered};

    ghost Value = { List InForce };

    ghost view = { λ b. in_force b.prefixes (reverse b.bindings.items) };

    ghost invariant = { λ b. AreNumbered b.prefixes (reverse b.bindings.items) };
}

impl<'a> Bindings<'a> {
    // No bindings. Takes no memory.
    pub(crate) fn new(alloc: Global) -> Bindings<'a>
        ensures { result ≡ [] }
    {
        Bindings {
            prefixes: PrefixScopes::new(alloc),
            bindings: Vec::new(alloc),
        }
    }

    // What a prefix is bound to by an element that is open. Looks nothing up where none binds any.
    fn uri(&self, prefix: &[u8]) -> Option<&'a [u8]>
        ensures { option_copied result ≡ uri_of prefix.now (pairs_of self.now) }
    {
        if self.bindings.is_empty() {
            return None;
        }
        let number = self.prefixes.find(prefix)?;
        Some(self.bindings[number].uri)
    }

    // Whether the prefix of a name, also the empty one, stands for its URI.
    pub(crate) fn is_bound(&self, name: &Name) -> bool
        ensures { result ≡ printing.is_bound (scope_of self.now) name.now }
    {
        match self.uri(name.prefix.as_str().as_bytes()) {
            Some(uri) => uri == name.uri.as_str().as_bytes(),
            None => is_bound_at_first(name),
        }
    }

    // A binding inside all others, made by the element at `place`.
    pub(crate) fn push(&mut self, place: u32, declaration: Declaration<'a>) -> Result<(), NoMemory>
        ensures { OnOk result (self.new ≡ record { place = place; pair = (declaration.entry.prefix.now, declaration.entry.uri.now) } ∷ self.old) }
    {
        let Declaration { prefix, uri } = declaration;
        self.bindings.reserve(1)?;
        self.prefixes.bind(prefix, self.bindings.len())?;
        self.bindings.push_reserved(Binding { place, uri });
        Ok(())
    }

    // The bindings of the element at `place`, the innermost ones, go.
    pub(crate) fn leave(&mut self, place: u32)
        ensures { self.new ≡ outside place self.old }
    {
        let outer = length_outside(&self.bindings, place);
        if outer == self.bindings.len() {
            return;
        }
        self.prefixes.back_to(outer);
        self.bindings.truncate(outer);
    }
}

// Whether a name's prefix stands for its URI where nothing is declared.
fn is_bound_at_first(name: &Name) -> bool
    ensures { result ≡ printing.is_bound first_scope name.now }
{
    let prefix = name.prefix.as_str();
    if prefix.is_empty() {
        return name.uri.as_str().is_empty();
    }
    "xml" == prefix && XML_URI == name.uri.as_str()
}

// How many bindings stand before those of the element at `place`, which are the last ones.
fn length_outside(bindings: &[Binding<'_>], place: u32) -> usize
    ensures { result + suffix_len (λ (b : Binding). b.place == place) bindings.now ≡ length bindings.now }
{
    let own = bindings.iter().rev().take_while(|b| b.place == place);
    bindings.len() - own.count()
}

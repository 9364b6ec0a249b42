// The prefixes in scope.
ghost use Rattle.std.specs.Prelude.{◌≡◌, ℕ, ◌<◌, List, [], ◌∷◌, IfSome, OnOk};
ghost use Rattle.std.specs.Option.{option_map};
ghost use Rattle.tree_model.specs.XmlChars.{local_of};
ghost use Rattle.tree_model.specs.XmlMeaning as meaning;
ghost use Rattle.xml_rows.specs.Numbers.{uri_at};

use crate::declarations::is_xmlns;
use crate::names::split;
use prefix_scopes::PrefixScopes;
use std::alloc::Global;
use std::marker::Model;
use tree_model::NoMemory;

/// The prefixes in scope with the numbers of their URIs, and how many were in scope outside of each open element.
#[derive(Drop)]
pub struct Scopes<'a> {
    prefixes: PrefixScopes<'a>,
    outer: Vec<usize>,
}

impl<'a> Model for Scopes<'a> {
    ghost use Rattle.std.specs.Prelude.{length, reverse};
    ghost use Rattle.xml_rows.specs.Scoping.{Scoped, outer_of, AreNested};

    ghost Value = { Scoped };

    ghost view = { λ s. record { scope = s.prefixes; outer = outer_of s.prefixes (reverse s.outer.items) } };

    ghost invariant = { λ s. AreNested (length s.prefixes) (reverse s.outer.items) };
}

impl<'a> Scopes<'a> {
    ghost use Rattle.prefix_scopes.specs.Scoping.{number_of};
    ghost use Rattle.xml_rows.specs.Scoping.{scope_in, AreUris};
    ghost use Rattle.xml_rows.specs.Leaving.{inner_of, outer_less};

    /// No prefixes. Takes no memory.
    pub fn new(alloc: Global) -> Scopes<'a>
        ensures scope { result.scope ≡ [] }
        ensures outer { result.outer ≡ [] }
    {
        Scopes {
            prefixes: PrefixScopes::new(alloc),
            outer: Vec::new(alloc),
        }
    }

    /// A prefix before all others.
    pub fn bind(&mut self, prefix: &'a [u8], uri: usize) -> Result<(), NoMemory>
        ensures scope { OnOk result (self.new.scope ≡ (prefix.now, uri) ∷ self.old.scope) }
        ensures outer { OnOk result (self.new.outer ≡ self.old.outer) }
    {
        self.prefixes.bind(prefix, uri)?;
        Ok(())
    }

    /// The number of the URI of a prefix.
    pub fn find(&self, prefix: &[u8]) -> Option<usize>
        ensures { result ≡ number_of prefix.now self.now.scope }
    {
        self.prefixes.find(prefix)
    }

    /// What is bound from here on is so in the next element alone.
    pub fn enter(&mut self) -> Result<(), NoMemory>
        ensures scope { OnOk result (self.new.scope ≡ self.old.scope) }
        ensures outer { OnOk result (self.new.outer ≡ self.old.scope ∷ self.old.outer) }
    {
        self.outer.push(self.prefixes.len())?;
        Ok(())
    }

    /// The innermost element ends.
    pub fn leave(&mut self)
        ensures scope { self.new.scope ≡ inner_of self.old.scope self.old.outer }
        ensures outer { self.new.outer ≡ outer_less self.old.outer }
    {
        if let Some(len) = self.outer.pop() {
            self.prefixes.back_to(len);
        }
    }

    /// The number of the URI of an element's name.
    pub fn element_uri(&self, name: &[u8]) -> Option<usize>
        ensures uri { (uris : List (List ℕ)) → meaning.element_uri (scope_in uris self.now.scope) name.now ≡ option_map (uri_at uris) result }
        ensures within { (count : ℕ) → AreUris count self.now.scope → IfSome result (λ n. n < count) }
    {
        let Some((prefix, _)) = split(name) else {
            return self.find(&[]);
        };
        if is_xmlns(prefix) {
            return None;
        }
        self.find(prefix)
    }

    /// The number of the URI of an attribute's name, and the local part of the name.
    pub fn attribute_uri<'n>(&self, name: &'n [u8], no_uri: usize) -> (Option<usize>, &'n [u8])
        ensures uri { (uris : List (List ℕ)) → uri_at uris no_uri ≡ [] → meaning.attr_uri (scope_in uris self.now.scope) name.now ≡ option_map (uri_at uris) result.0 }
        ensures within { (count : ℕ) → AreUris count self.now.scope → no_uri < count → IfSome result.0 (λ n. n < count) }
        ensures local { result.1.now ≡ local_of name.now }
    {
        let Some((prefix, local)) = split(name) else {
            return (Some(no_uri), name);
        };
        (self.find(prefix), local)
    }
}

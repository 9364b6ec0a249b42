// URIs by number.
ghost use Rattle.std.specs.Prelude.{◌≡◌, ◌<◌, ◌==◌, ℕ, [], length, IfOk, OnOk};
ghost use Rattle.std.specs.Str.{bytes_eq};
ghost use Rattle.xml_rows.specs.Numbers.{Begins, uri_at};

use indexmap::IndexSet;
use std::alloc::Global;
use std::marker::Model;
use tree_model::NoMemory;

/// URIs in the order of their numbers. No two are equal.
#[derive(Drop)]
pub struct Uris {
    texts: IndexSet<String>,
    alloc: Global,
}

impl Model for Uris {
    ghost use Rattle.std.specs.Prelude.{ℕ, List, map};
    ghost use Rattle.std.specs.String.{string_bytes};

    ghost Value = { List (List ℕ) };

    ghost view = { λ u. map string_bytes u.texts.keys };
}

impl Uris {
    /// No URIs. Takes no memory.
    pub fn new(alloc: Global) -> Uris
        ensures { result ≡ [] }
    {
        Uris {
            texts: IndexSet::new(alloc),
            alloc,
        }
    }

    /// The number of a URI: a new one where it wasn't met before.
    pub fn number(&mut self, uri: &str) -> Result<usize, NoMemory>
        ensures within { IfOk result (λ n. n < length self.new) }
        ensures uri { IfOk result (λ n. uri_at self.new n ≡ uri.now) }
        ensures grown { Begins self.old self.new }
    {
        if let Some(number) = self.texts.get_index_of(uri) {
            return Ok(number);
        }
        let text = String::from_str(self.alloc, uri)?;
        let found = self.texts.insert_full(text)?;
        Ok(found.0)
    }

    /// The URI with a number.
    pub fn get(&self, number: usize) -> &str
        requires { number < length self.now }
        ensures { result.now ≡ uri_at self.now number }
    {
        self.texts.as_slice()[number].as_str()
    }

    /// How many URIs there are. No two of them are equal.
    pub fn len(&self) -> usize
        ensures len { result ≡ length self.now }
        ensures distinct { (a b : ℕ) → a < length self.now → b < length self.now → (a == b) ≡ bytes_eq (uri_at self.now a) (uri_at self.now b) }
    {
        self.texts.len()
    }

    /// Whether two numbers are those of one URI.
    pub fn is_same(&self, a: usize, b: usize) -> bool
        requires first { a < length self.now }
        requires second { b < length self.now }
        ensures { result ≡ bytes_eq (uri_at self.now a) (uri_at self.now b) }
    {
        let _distinct = self.len();
        a == b
    }
}

// Names by number.
ghost use Rattle.std.specs.Prelude.{IfSome, ◌≡◌, ◌<◌, ◌≤◌, ◌==◌, ℕ, [], length, true, IfOk, OnOk};
ghost use Rattle.std.specs.List.{prefix_len};
ghost use Rattle.std.specs.Option.{option_map};
ghost use Rattle.std.specs.Str.{IsUtf8, bytes_eq};
ghost use Rattle.tree_model.specs.Labels.{local_name};
ghost use Rattle.tree_model.specs.Rows.{name_at};
ghost use Rattle.tree_model.specs.XmlChars.{is_no_colon, is_xml_qname, is_xml_ncname, prefix_of, local_of};
ghost use Rattle.name_pool.specs.Names.{name_of};
ghost use Rattle.xml_rows.specs.Numbers.{Begins, uri_at, name_in, split_of, IsNumber};
ghost use Rattle.xml_rows.specs.Words.{two};

use crate::uris::Uris;
use indexmap::IndexMap;
use name_pool::NamePool;
use std::alloc::Global;
use std::marker::Model;
use std::str;
use tree_model::NoMemory;

// How many bytes stand before the colon of a name, or in a name without one.
fn prefix_len(name: &[u8]) -> usize
    ensures len { result ≡ prefix_len is_no_colon name.now }
    ensures within { result ≤ length name.now }
{
    let mut len = 0;
    while len < name.len() && name[len] != b':' {
        len += 1;
    }
    len
}

/// The parts of a name before and behind its colon, where it has one.
#[tactic(auto, using(crate::proofs::Splitting::split_some, crate::proofs::Splitting::split_none))]
pub fn split(name: &[u8]) -> Option<(&[u8], &[u8])>
    ensures { option_map two result ≡ split_of name.now }
{
    let (prefix, behind) = name.split_at(prefix_len(name));
    if behind.is_empty() {
        return None;
    }
    Some((prefix, behind.split_at(1).1))
}

fn parts(name: &[u8]) -> (&[u8], &[u8])
    ensures prefix { result.0.now ≡ prefix_of name.now }
    ensures local { result.1.now ≡ local_of name.now }
{
    match split(name) {
        Some(parts) => parts,
        None => (&[], name),
    }
}

/// The names and the URIs that were met.
#[derive(Drop)]
pub struct Names<'a> {
    pool: NamePool,
    uris: Uris,
    known: IndexMap<(usize, &'a [u8]), u64>,
    unnamed: u64,
    no_uri: usize,
}

impl<'a> Model for Names<'a> {
    ghost use Rattle.indexmap.specs.IndexMap.{get};
    ghost use Rattle.xml_rows.specs.Known.{is_same_key, AreNumbered};
    ghost use Rattle.name_pool.specs.Names.{name_of};
    ghost use Rattle.xml_rows.specs.Numbers.{Numbered};

    ghost Value = { Numbered };

    ghost view = { λ n. record { names = n.pool; uris = n.uris } };

    ghost invariant = { λ n. AreNumbered n.pool n.uris (get is_same_key n.known) n.unnamed n.no_uri };
}

fn text_of(name: &[u8]) -> &str
    requires { IsUtf8 name.now }
    ensures { result.now ≡ name.now }
{
    str::from_utf8(name).unwrap()
}

// The number of a name by its parts.
#[tactic(auto, using(crate::proofs::Growing::begins_with_name))]
fn intern(pool: &mut NamePool, uri: &str, prefix: &str, local: &str) -> Result<u64, NoMemory>
    ensures within { IfOk result (λ n. n < length pool.new) }
    ensures name { IfOk result (λ n. name_at pool.new n ≡ name_of uri.now prefix.now local.now) }
    ensures names { Begins pool.old pool.new }
{
    let number = pool.intern_parts(uri, prefix, local)?;
    Ok(number)
}

impl<'a> Names<'a> {
    /// The name and the URI without bytes alone.
    pub fn new(alloc: Global) -> Result<Names<'a>, NoMemory> {
        let mut pool = NamePool::new(alloc);
        let mut uris = Uris::new(alloc);
        let unnamed = intern(&mut pool, "", "", "")?;
        let no_uri = uris.number("")?;
        Ok(Names {
            pool,
            uris,
            known: IndexMap::new(alloc),
            unnamed,
            no_uri,
        })
    }

    /// The number of the name without bytes.
    pub fn unnamed(&self) -> u64
        ensures within { result < length self.now.names }
        ensures name { name_at self.now.names result ≡ local_name [] }
    {
        self.unnamed
    }

    /// The number of the URI without bytes.
    pub fn no_uri(&self) -> usize
        ensures within { result < length self.now.uris }
        ensures uri { uri_at self.now.uris result ≡ [] }
    {
        self.no_uri
    }

    /// The number of a URI.
    pub fn uri_number(&mut self, uri: &[u8]) -> Result<usize, NoMemory>
        requires { IsUtf8 uri.now }
        ensures within { IfOk result (λ n. n < length self.new.uris) }
        ensures uri { IfOk result (λ n. uri_at self.new.uris n ≡ uri.now) }
        ensures names { self.new.names ≡ self.old.names }
        ensures uris { Begins self.old.uris self.new.uris }
    {
        self.uris.number(text_of(uri))
    }

    /// How many URIs there are. No two of them are equal.
    pub fn uri_count(&self) -> usize
        ensures len { result ≡ length self.now.uris }
        ensures distinct { (a b : ℕ) → a < length self.now.uris → b < length self.now.uris → (a == b) ≡ bytes_eq (uri_at self.now.uris a) (uri_at self.now.uris b) }
    {
        self.uris.len()
    }

    /// Whether two numbers are those of one URI.
    pub fn is_same_uri(&self, a: usize, b: usize) -> bool
        requires first { a < length self.now.uris }
        requires second { b < length self.now.uris }
        ensures { result ≡ bytes_eq (uri_at self.now.uris a) (uri_at self.now.uris b) }
    {
        self.uris.is_same(a, b)
    }

    /// The number of a name in no namespace.
    pub fn local_number(&mut self, local: &[u8]) -> Result<u64, NoMemory>
        requires { IsUtf8 local.now }
        ensures within { IfOk result (λ n. n < length self.new.names) }
        ensures name { IfOk result (λ n. name_at self.new.names n ≡ local_name local.now) }
        ensures names { Begins self.old.names self.new.names }
        ensures uris { self.new.uris ≡ self.old.uris }
    {
        intern(&mut self.pool, "", "", text_of(local))
    }

    /// The names alone.
    pub fn into_pool(self) -> NamePool
        ensures { result ≡ self.entry.names }
    {
        let Names {
            pool,
            uris: _,
            known: _,
            unnamed: _,
            no_uri: _,
        } = self;
        pool
    }

    /// The number of a name as it is written, in the namespace of a URI.
    pub fn number(&mut self, uri: usize, name: &'a [u8]) -> Result<u64, NoMemory>
        requires uri { uri < length self.old.uris }
        requires written { is_xml_qname name.now ≡ true }
        ensures number { IfOk result (λ n. IsNumber self.new.names self.new.uris uri name.now n) }
        ensures names { Begins self.old.names self.new.names }
        ensures uris { self.new.uris ≡ self.old.uris }
    {
        if let Some(number) = self.known.get(&(uri, name)) {
            return Ok(*number);
        }
        let (prefix, local) = parts(name);
        let prefix = text_of(prefix);
        let local = text_of(local);
        let number = intern(&mut self.pool, self.uris.get(uri), prefix, local)?;
        self.known.insert((uri, name), number)?;
        Ok(number)
    }
}

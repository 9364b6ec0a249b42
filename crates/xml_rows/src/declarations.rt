// The declarations of a tag.
ghost use Rattle.std.specs.Prelude.{◌≡◌, ◌+◌, ◌++◌, ◌∷◌, [], ℕ, ◌<◌, ◌≤◌, List, length, map, true, codes, IfOk, IfSome, OnOk};
ghost use Rattle.std.specs.Option.{option_map};
ghost use Rattle.std.specs.Str.{bytes_eq, IsUtf8};
ghost use Rattle.tree_model.specs.Declarations.{declarations_value};
ghost use Rattle.tree_model.specs.Rows.{value_at};
ghost use Rattle.tree_model.specs.XmlMeaning as meaning;
ghost use Rattle.xml_rows.specs.Numbers.{Begins};
ghost use Rattle.xml_rows.specs.Scoping.{AreUris, scope_in};
ghost use Rattle.xml_rows.specs.Tagging.{declared_of, kept_binding, kept_value, pairs_of, ArePairs};
ghost use Rattle.xml_rows.specs.Words.{now};

use crate::names::{Names, split};
use crate::scope::Scopes;
use crate::tag::Pair;
use crate::values::Values;
use tree_model::{NoMemory, ValueRef};

pub const XML_URI: &[u8] = b"http://www.w3.org/XML/1998/namespace";

const XMLNS_URI: &[u8] = b"http://www.w3.org/2000/xmlns/";

/// Whether a name or a prefix is `xmlns`.
pub fn is_xmlns(name: &[u8]) -> bool
    ensures { result ≡ bytes_eq name.now (codes "xmlns") }
{
    name == b"xmlns".as_slice()
}

/// The prefix that an attribute of this name declares: the one without bytes in `xmlns`, and `p` in `xmlns:p`.
pub fn declared(name: &[u8]) -> Option<&[u8]>
    ensures { option_map now result ≡ declared_of name.now }
{
    match split(name) {
        Some((prefix, local)) => {
            if is_xmlns(prefix) {
                return Some(local);
            }
            None
        }
        None => {
            if is_xmlns(name) {
                return Some(&[]);
            }
            None
        }
    }
}

/// Whether an attribute of this name is a declaration.
pub fn is_declaration(name: &[u8]) -> bool
    ensures { result ≡ meaning.is_declaration name.now }
{
    declared(name).is_some()
}

fn is_xml(prefix: &[u8]) -> bool
    ensures { result ≡ bytes_eq prefix.now (codes "xml") }
{
    prefix == b"xml".as_slice()
}

/// Whether a prefix may not be bound to a URI.
#[tactic(auto, unfolding(tree_model::specs::XmlMeaning::is_bad_binding))]
fn is_bad_binding(prefix: &[u8], uri: &[u8]) -> bool
    ensures { result ≡ meaning.is_bad_binding prefix.now uri.now }
{
    let is_bad_xml = if is_xml(prefix) {
        uri != XML_URI
    } else {
        uri == XML_URI
    };
    is_xmlns(prefix) || uri == XMLNS_URI || is_bad_xml || (!prefix.is_empty() && uri.is_empty())
}

// Binds a prefix to the URI that a value is. Says whether it may not be bound to it.
fn bind<'a>(
    prefix: &'a [u8],
    uri: &[u8],
    names: &mut Names<'a>,
    scopes: &mut Scopes<'a>,
) -> Result<bool, NoMemory>
    requires text { IsUtf8 uri.now }
    requires uris { AreUris (length names.old.uris) scopes.old.scope }
    ensures bad { IfOk result (λ bad. bad ≡ meaning.is_bad_binding prefix.now uri.now) }
    ensures scope { OnOk result (scope_in names.new.uris scopes.new.scope ≡ (prefix.now, uri.now) ∷ scope_in names.old.uris scopes.old.scope) }
    ensures outer { OnOk result (scopes.new.outer ≡ scopes.old.outer) }
    ensures names { names.new.names ≡ names.old.names }
    ensures grown { Begins names.old.uris names.new.uris }
    ensures uris { OnOk result (AreUris (length names.new.uris) scopes.new.scope) }
{
    let number = names.uri_number(uri)?;
    scopes.bind(prefix, number)?;
    Ok(is_bad_binding(prefix, uri))
}

// What an element keeps of a declaration, behind the text of those before it.
fn keep(prefix: &[u8], uri: ValueRef, values: &mut Values) -> Result<(), NoMemory>
    requires within { uri.at + uri.len ≤ length values.old.settled }
    ensures settled { values.new.settled ≡ values.old.settled }
    ensures pending { OnOk result (values.new.pending ≡ values.old.pending ++ declarations_value (kept_binding prefix.now (value_at values.old.settled uri))) }
{
    if is_xml(prefix) {
        return Ok(());
    }
    values.add(prefix)?;
    values.add(&[0])?;
    values.add_copy(uri)?;
    values.add(&[0])
}

/// What the declarations of a tag are: whether one of them may not be, and how many attributes are none.
#[derive(Clone, Copy)]
pub struct Declarations {
    pub is_bad: bool,
    pub plain: usize,
}

/// Puts the declarations of a tag into scope, and gathers the text of those that its element keeps.
pub fn declare<'a>(
    pairs: &[Pair<'a>],
    values: &mut Values,
    names: &mut Names<'a>,
    scopes: &mut Scopes<'a>,
) -> Result<Declarations, NoMemory>
    requires none { values.old.pending ≡ [] }
    requires pairs { ArePairs values.old.settled pairs.now }
    requires uris { AreUris (length names.old.uris) scopes.old.scope }
    ensures bad { IfOk result (λ d. d.is_bad ≡ meaning.has_bad_binding (pairs_of values.old.settled pairs.now)) }
    ensures plain { IfOk result (λ d. d.plain ≡ length (meaning.plain_attrs (pairs_of values.old.settled pairs.now))) }
    ensures settled { OnOk result (values.new.settled ≡ values.old.settled) }
    ensures kept { OnOk result (values.new.pending ≡ kept_value values.old.settled pairs.now) }
    ensures scope { OnOk result (scope_in names.new.uris scopes.new.scope ≡ meaning.with_attrs (pairs_of values.old.settled pairs.now) (scope_in names.old.uris scopes.old.scope)) }
    ensures outer { OnOk result (scopes.new.outer ≡ scopes.old.outer) }
    ensures names { OnOk result (names.new.names ≡ names.old.names) }
    ensures grown { OnOk result (Begins names.old.uris names.new.uris) }
    ensures uris { OnOk result (AreUris (length names.new.uris) scopes.new.scope) }
{
    let mut is_bad = false;
    let mut plain = 0;
    for pair in pairs {
        let Some(prefix) = declared(pair.name) else {
            plain += 1;
            continue;
        };
        is_bad |= bind(prefix, values.get(pair.val), names, scopes)?;
        keep(prefix, pair.val, values)?;
    }
    Ok(Declarations { is_bad, plain })
}

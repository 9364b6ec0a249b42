// The declarations of an element: read from its value, and written.
ghost use Rattle.std.specs.Prelude.{◌≡◌, ◌+◌, ◌<◌, ◌++◌, [], ◌∷◌, ◌==◌, length, codes, position, IfSome, MatchOption, OnOk};
ghost use Rattle.std.specs.List.{flat_map};
ghost use Rattle.tree_model.specs.Declarations.{texts_from, declarations_of, declared_name};
ghost use Rattle.serializer.specs.Growth.{Grew};

use crate::escape::{Escape, push_byte, push_bytes, push_escaped};
use tree_model::NoMemory;

// A prefix, which is empty for the default, and its URI.
#[derive(Clone, Copy)]
pub(crate) struct Declaration<'a> {
    pub(crate) prefix: &'a [u8],
    pub(crate) uri: &'a [u8],
}

// Where the first byte 0 stands.
fn first_zero(bytes: &[u8]) -> Option<usize>
    ensures { result ≡ position (λ b. b == 0) bytes.now }
{
    bytes.iter().position(|byte| *byte == 0)
}

// What stands before the first byte 0, and what behind it.
fn split_at_zero(bytes: &[u8]) -> Option<(&[u8], &[u8])>
    ensures text { MatchOption result (texts_from [] bytes.now ≡ []) (λ parts. texts_from [] bytes.now ≡ parts.0.now ∷ texts_from [] parts.1.now) }
    ensures shorter { IfSome result (λ parts. length parts.1.now < length bytes.now) }
{
    let len = first_zero(bytes)?;
    let (text, behind) = bytes.split_at(len);
    Some((text, behind.split_at(1).1))
}

// The first declaration of an element's value, and the value behind it.
#[tactic(auto, unfolding(tree_model::specs::Declarations::declarations_of))]
pub(crate) fn next_declaration(value: &[u8]) -> Option<(Declaration<'_>, &[u8])>
    ensures first { MatchOption result (declarations_of value.now ≡ []) (λ found. declarations_of value.now ≡ (found.0.prefix.now, found.0.uri.now) ∷ declarations_of found.1.now) }
    ensures shorter { IfSome result (λ found. length found.1.now < length value.now) }
{
    let (prefix, behind) = split_at_zero(value)?;
    let (uri, rest) = split_at_zero(behind)?;
    Some((Declaration { prefix, uri }, rest))
}

// The name of the attribute that declares a prefix.
#[tactic(auto, using(crate::proofs::Growing::grew_twice))]
fn push_declared_name(out: &mut Vec<u8>, prefix: &[u8]) -> Result<(), NoMemory>
    ensures text { OnOk result (out.new.items ≡ out.old.items ++ declared_name prefix.now) }
    ensures kept { Grew out.old.items out.new.items }
{
    if prefix.is_empty() {
        return push_bytes(out, b"xmlns");
    }
    push_bytes(out, b"xmlns:")?;
    push_bytes(out, prefix)
}

// A declaration behind a space.
#[tactic(auto, using(crate::proofs::Growing::grew_twice))]
pub(crate) fn push_declaration<E: Escape>(
    out: &mut Vec<u8>,
    declaration: Declaration<'_>,
) -> Result<(), NoMemory>
    ensures text { OnOk result (out.new.items ≡ out.old.items ++ 32 ∷ (declared_name declaration.entry.prefix.now ++ (codes "=\"" ++ (flat_map E.escape declaration.entry.uri.now ++ codes "\"")))) }
    ensures kept { Grew out.old.items out.new.items }
{
    push_byte(out, b' ')?;
    push_declared_name(out, declaration.prefix)?;
    push_bytes(out, b"=\"")?;
    push_escaped::<E>(out, declaration.uri)?;
    push_byte(out, b'"')
}

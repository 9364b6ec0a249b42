// Bytes that stand as other bytes.
ghost use Rattle.std.specs.Prelude.{◌≡◌, ℕ, ◌≤◌, List, [], ◌∷◌, ◌++◌, length, take, drop, IsTrue, MatchOption, OnOk};
ghost use Rattle.std.specs.List.{flat_map};
ghost use Rattle.tree_model.specs.Printed as printed;
ghost use Rattle.tree_model.specs.Printing.{escape_data, escape_value};
ghost use Rattle.serializer.specs.Growth.{Grew};

use tree_model::NoMemory;

#[tactic(auto, using(crate::proofs::Growing::grew_by, crate::proofs::Growing::grew_none))]
pub(crate) fn push_bytes(out: &mut Vec<u8>, bytes: &[u8]) -> Result<(), NoMemory>
    ensures text { OnOk result (out.new.items ≡ out.old.items ++ bytes.now) }
    ensures kept { Grew out.old.items out.new.items }
{
    out.extend_from_slice(bytes)
}

#[tactic(auto, using(crate::proofs::Growing::grew_by, crate::proofs::Growing::grew_none))]
pub(crate) fn push_byte(out: &mut Vec<u8>, byte: u8) -> Result<(), NoMemory>
    ensures text { OnOk result (out.new.items ≡ out.old.items ++ byte ∷ []) }
    ensures kept { Grew out.old.items out.new.items }
{
    Ok(out.push(byte)?)
}

// Which bytes stand as others.
pub(crate) trait Escape {
    ghost escape: { ℕ → List ℕ };

    // What stands for a byte, unless it stands as it is.
    fn replacement(byte: u8) -> Option<&'static [u8]>
        ensures { MatchOption result (escape byte ≡ byte ∷ []) (λ text. escape byte ≡ text.now) };
}

// The content of a row.
pub(crate) struct RowContent;

impl Escape for RowContent {
    ghost escape = { printed.escape };

    #[inline]
    fn replacement(byte: u8) -> Option<&'static [u8]> {
        match byte {
            b'\\' => Some(b"\\\\"),
            b'\n' => Some(b"\\n"),
            b'\r' => Some(b"\\r"),
            b'\t' => Some(b"\\t"),
            _ => None,
        }
    }
}

// Character data of XML.
pub(crate) struct CharacterData;

impl Escape for CharacterData {
    ghost escape = { escape_data };

    #[inline]
    fn replacement(byte: u8) -> Option<&'static [u8]> {
        match byte {
            b'&' => Some(b"&amp;"),
            b'<' => Some(b"&lt;"),
            b'>' => Some(b"&gt;"),
            b'\r' => Some(b"&#13;"),
            _ => None,
        }
    }
}

// The value of an attribute in XML.
pub(crate) struct AttributeValue;

impl Escape for AttributeValue {
    ghost escape = { escape_value };

    #[inline]
    fn replacement(byte: u8) -> Option<&'static [u8]> {
        match byte {
            b'"' => Some(b"&quot;"),
            b'\t' => Some(b"&#9;"),
            b'\n' => Some(b"&#10;"),
            other => CharacterData::replacement(other),
        }
    }
}

// The length of a front that stands as it is: all before the first byte that doesn't.
#[tactic(auto, using(crate::proofs::Escaping::escaped_more))]
fn plain_len<E: Escape>(bytes: &[u8]) -> usize
    ensures plain { flat_map E.escape bytes.now ≡ take result bytes.now ++ flat_map E.escape (drop result bytes.now) }
    ensures within { result ≤ length bytes.now }
{
    for (len, byte) in bytes.iter().enumerate() {
        if E::replacement(*byte).is_some() {
            return len;
        }
    }
    bytes.len()
}

fn push_escape<E: Escape>(out: &mut Vec<u8>, byte: u8) -> Result<(), NoMemory>
    ensures text { OnOk result (out.new.items ≡ out.old.items ++ E.escape byte) }
    ensures kept { Grew out.old.items out.new.items }
{
    match E::replacement(byte) {
        Some(text) => push_bytes(out, text),
        None => push_byte(out, byte),
    }
}

#[tactic(auto, using(crate::proofs::Growing::grew_none, crate::proofs::Growing::grew_twice))]
pub(crate) fn push_escaped<E: Escape>(out: &mut Vec<u8>, bytes: &[u8]) -> Result<(), NoMemory>
    ensures text { OnOk result (out.new.items ≡ out.old.items ++ flat_map E.escape bytes.now) }
    ensures kept { Grew out.old.items out.new.items }
{
    let mut rest = bytes;
    while !rest.is_empty() {
        let (plain, behind) = rest.split_at(plain_len::<E>(rest));
        push_bytes(out, plain)?;
        let [first, more @ ..] = behind else {
            return Ok(());
        };
        push_escape::<E>(out, *first)?;
        rest = more;
    }
    Ok(())
}

// Small readers of the front of a text.
ghost use Rattle.std.specs.Prelude.{◌≡◌, ◌∷◌, []};
ghost use Rattle.std.specs.Option.{option_map};
ghost use Rattle.tree_model.specs.XmlChars as chars;
ghost use Rattle.tree_model.specs.XmlGood as good;
ghost use Rattle.xml_pieces.specs.Readers.{one, word_of};

use crate::chars::is_space;

/// What follows the byte at the front.
pub(crate) fn byte(bytes: &[u8], wanted: u8) -> Option<&[u8]>
    ensures { option_map (λ rest. (tt, rest.now)) result ≡ word_of (wanted ∷ []) bytes.now }
{
    match bytes {
        [first, rest @ ..] => { if *first == wanted { Some(rest) } else { None } }
        [] => None,
    }
}

fn is_quote(byte: u8) -> bool
    ensures { result ≡ good.is_quote byte }
{
    byte == b'"' || byte == b'\''
}

/// The quote at the front, and what follows it.
pub(crate) fn quote(bytes: &[u8]) -> Option<(u8, &[u8])>
    ensures { option_map (λ x. (x.0, x.1.now)) result ≡ one good.is_quote bytes.now }
{
    match bytes {
        [first, rest @ ..] => {
            let byte = *first;
            if is_quote(byte) {
                Some((byte, rest))
            } else {
                None
            }
        }
        [] => None,
    }
}

/// Whether white space stands at the front.
pub(crate) fn starts_space(bytes: &[u8]) -> bool
    ensures { result ≡ chars.first_is chars.is_space bytes.now }
{
    match bytes {
        [first, ..] => is_space(*first),
        [] => false,
    }
}

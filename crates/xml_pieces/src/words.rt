// Words in the text.
ghost use Rattle.std.specs.Prelude.{◌≡◌, ◌≤◌, ◌<◌, ◌∷◌, length};
ghost use Rattle.std.specs.Option.{option_map};
ghost use Rattle.tree_model.specs.XmlChars as chars;
ghost use Rattle.xml_pieces.specs.Readers.{word_of, until as until_word, until_len as until_word_len};
ghost use Rattle.xml_pieces.specs.View.{two};

/// What follows the word at the front.
#[tactic(auto, using(crate::proofs::Finding::word_yes, crate::proofs::Finding::word_none))]
pub(crate) fn word<'a>(bytes: &'a [u8], word: &[u8]) -> Option<&'a [u8]>
    ensures { option_map (λ rest. (tt, rest.now)) result ≡ word_of word.now bytes.now }
{
    bytes.strip_prefix(word)
}

// Whether the word stands at the front. Its first byte is told by itself.
fn begins_with(bytes: &[u8], first: u8, rest: &[u8]) -> bool
    ensures { result ≡ chars.begins_with (first ∷ rest.now) bytes.now }
{
    match bytes {
        [byte, after @ ..] => *byte == first && after.starts_with(rest),
        [] => false,
    }
}

// How many bytes stand before the word, or all.
#[tactic(auto, using(crate::proofs::Finding::until_step, crate::proofs::Finding::until_end))]
fn until_len(bytes: &[u8], first: u8, rest: &[u8]) -> usize
    ensures len { result ≡ until_word_len (first ∷ rest.now) bytes.now }
    ensures within { result ≤ length bytes.now }
{
    let mut len = 0;
    while len < bytes.len() && !begins_with(bytes.split_at(len).1, first, rest) {
        len += 1;
    }
    len
}

/// What stands before the word of a first byte and the rest, and what follows it.
#[tactic(auto, using(crate::proofs::Finding::until_yes, crate::proofs::Finding::until_none, crate::proofs::Finding::begins_long))]
pub(crate) fn until<'a>(bytes: &'a [u8], first: u8, rest: &[u8]) -> Option<(&'a [u8], &'a [u8])>
    ensures { option_map two result ≡ until_word (first ∷ rest.now) bytes.now }
{
    let (front, behind) = bytes.split_at(until_len(bytes, first, rest));
    if begins_with(behind, first, rest) {
        Some((front, behind.split_at(1 + rest.len()).1))
    } else {
        None
    }
}

/// Whether the word occurs.
#[tactic(auto, using(crate::proofs::Finding::has_word_is, crate::proofs::Finding::no_first))]
pub(crate) fn has_word(bytes: &[u8], first: u8, rest: &[u8]) -> bool
    ensures { result ≡ chars.has_word (first ∷ rest.now) bytes.now }
{
    bytes.contains(&first)
        && begins_with(bytes.split_at(until_len(bytes, first, rest)).1, first, rest)
}

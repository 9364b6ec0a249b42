// The words of a line.
ghost use Rattle.std.specs.Prelude.{◌≡◌, ◌≤◌, ◌==◌, length};
ghost use Rattle.std.specs.List.{prefix_len, position, list_any, list_all, zip};
ghost use Rattle.std.specs.Char.{to_ascii_lowercase};
ghost use Rattle.commands.specs.Commands as read;

use crate::blanks::{behind_blanks, is_blank};

fn blank_in(line: &[u8]) -> Option<usize>
    ensures { result ≡ position read.is_blank line.now }
{
    line.iter().position(|byte| is_blank(*byte))
}

#[tactic(auto, using(crate::proofs::Words::one_word))]
fn word_len(line: &[u8]) -> usize
    ensures value { result ≡ prefix_len read.is_no_blank line.now }
    ensures within { result ≤ length line.now }
{
    match blank_in(line) {
        Some(len) => len,
        None => line.len(),
    }
}

/// The first word, and what stands behind it and its blanks.
#[tactic(auto, using(crate::proofs::Boundaries::behind_word))]
pub fn split_word(line: &str) -> (&str, &str)
    ensures word { result.0.now ≡ read.first_word line.now }
    ensures behind { result.1.now ≡ read.behind_word line.now }
    ensures len { length result.1.now ≤ length line.now }
{
    let (word, behind) = line.split_at(word_len(line.as_bytes()));
    (word, behind_blanks(behind))
}

// Whether the letters are those of the bytes in lower case, as far as both go.
fn has_letters(bytes: &[u8], letters: &[u8]) -> bool
    ensures { result ≡ list_all (λ p. to_ascii_lowercase p.0 == p.1) (zip bytes.now letters.now) }
{
    bytes
        .iter()
        .zip(letters)
        .all(|(byte, letter)| byte.to_ascii_lowercase() == *letter)
}

/// Whether the text is a word, which is given in lowercase letters.
pub fn is_word(word: &str, text: &str) -> bool
    ensures { result ≡ read.is_word word.now text.now }
{
    text.len() == word.len() && has_letters(text.as_bytes(), word.as_bytes())
}

/// Whether the text is one of the words.
pub fn is_among(words: &[&str], text: &str) -> bool
    ensures { result ≡ list_any (λ word. read.is_word word.now text.now) words.now }
{
    words.iter().any(|word| is_word(word, text))
}

/// Whether no byte is a blank.
pub fn has_no_blank(text: &str) -> bool
    ensures { result ≡ list_all read.is_no_blank text.now }
{
    text.as_bytes().iter().all(|byte| !is_blank(*byte))
}

// The paths of documents.
ghost use Rattle.std.specs.Prelude.{◌≡◌, ◌-◌, ◌≤◌, ◌++◌, ◌==◌, Some, None, if◌then◌else◌, not, codes, length};
ghost use Rattle.std.specs.List.{list_all, suffix_len};
ghost use Rattle.tree_model.specs.Sound as sound;
ghost use Rattle.tree_model.specs.XmlChars.{has_word};
ghost use Rattle.commands.specs.Commands as read;

use std::marker::Model;

// The most bytes of a document's path.
const MAX_PATH: usize = 255;

/// The path of a document.
#[derive(Drop)]
pub struct DocumentPath<'a> {
    text: &'a str,
}

impl<'a> Model for DocumentPath<'a> {
    ghost use Rattle.std.specs.Prelude.{◌≡◌, true, ℕ, List};
    ghost use Rattle.tree_model.specs.Sound.{is_path};

    ghost Value = { List ℕ };

    ghost view = { λ p. p.text.now };

    ghost invariant = { λ p. is_path p.text.now ≡ true };
}

impl<'a> DocumentPath<'a> {
    /// The path that a word is, if it is one.
    pub fn read(word: &'a str) -> Option<DocumentPath<'a>>
        ensures { result ≡ (if sound.is_path word.now then Some word.now else None) }
    {
        if is_path(word) {
            Some(DocumentPath { text: word })
        } else {
            None
        }
    }

    /// The text of the path.
    pub fn text(&self) -> &'a str
        ensures { result.now ≡ self.now }
    {
        self.text
    }
}

fn is_path_byte(byte: u8) -> bool
    ensures { result ≡ sound.is_path_char byte }
{
    byte.is_ascii_alphanumeric() || byte == b'_' || byte == b'-' || byte == b'.' || byte == b'/'
}

fn has_path_bytes(bytes: &[u8]) -> bool
    ensures { result ≡ list_all sound.is_path_char bytes.now }
{
    bytes.iter().all(|byte| is_path_byte(*byte))
}

// Whether two `/` stand in a row, also with one that follows.
fn has_double_slash(bytes: &[u8]) -> bool
    ensures { result ≡ has_word (codes "//") (bytes.now ++ codes "/") }
{
    let mut was_slash = false;
    for byte in bytes {
        let is_slash = *byte == b'/';
        if was_slash && is_slash {
            return true;
        }
        was_slash = is_slash;
    }
    was_slash
}

/// Whether a word is the path of a document.
pub fn is_path(word: &str) -> bool
    ensures { result ≡ sound.is_path word.now }
{
    match word.as_bytes() {
        [] | [b'/', ..] => false,
        bytes => bytes.len() <= MAX_PATH && has_path_bytes(bytes) && !has_double_slash(bytes),
    }
}

// How many bytes stand up to the last `/` and with it.
fn len_to_slash(name: &[u8]) -> usize
    ensures value { result ≡ length name.now - suffix_len (λ c. not (c == 47)) name.now }
    ensures within { result ≤ length name.now }
{
    let mut start = name.len();
    while start > 0 && name[start - 1] != b'/' {
        start -= 1;
    }
    start
}

/// The part of a file's name after the last `/`.
#[tactic(auto, using(crate::proofs::Boundaries::behind_slash))]
pub fn last_part(name: &str) -> &str
    ensures { result.now ≡ read.last_part name.now }
{
    name.split_at(len_to_slash(name.as_bytes())).1
}

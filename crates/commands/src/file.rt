// The names of files.
ghost use Rattle.std.specs.Prelude.{◌≡◌, Some, None, true, if◌then◌else◌};
ghost use Rattle.tree_model.specs.Sound.{is_path};
ghost use Rattle.commands.specs.Commands as read;

use crate::path::{is_path, last_part};
use crate::word::has_no_blank;
use std::marker::Model;

// The most bytes of a file's name.
const MAX_FILE_NAME: usize = 4096;

/// The name of a file: a word of at most 4096 bytes.
#[derive(Drop)]
pub struct FileName<'a> {
    name: &'a str,
}

impl<'a> Model for FileName<'a> {
    ghost use Rattle.std.specs.Prelude.{◌≡◌, true, ℕ, List};
    ghost use Rattle.commands.specs.Commands.{is_file_name};

    ghost Value = { List ℕ };

    ghost view = { λ f. f.name.now };

    ghost invariant = { λ f. is_file_name f.name.now ≡ true };
}

impl<'a> FileName<'a> {
    /// The name that a text is, if it is one.
    pub fn read(text: &'a str) -> Option<FileName<'a>>
        ensures { result ≡ (if read.is_file_name text.now then Some text.now else None) }
    {
        if is_file_name(text) {
            Some(FileName { name: text })
        } else {
            None
        }
    }

    /// The name.
    pub fn name(&self) -> &'a str
        ensures name { result.now ≡ self.now }
        ensures good { read.is_file_name result.now ≡ true }
    {
        self.name
    }
}

/// The name of a file whose document gets its default path: the part behind the last `/`.
#[derive(Drop)]
pub struct DocumentFile<'a> {
    name: &'a str,
}

impl<'a> Model for DocumentFile<'a> {
    ghost use Rattle.std.specs.Prelude.{◌≡◌, true, ℕ, List};
    ghost use Rattle.commands.specs.Commands.{is_document_file};

    ghost Value = { List ℕ };

    ghost view = { λ f. f.name.now };

    ghost invariant = { λ f. is_document_file f.name.now ≡ true };
}

impl<'a> DocumentFile<'a> {
    /// The name that a text is, if it is one.
    pub fn read(text: &'a str) -> Option<DocumentFile<'a>>
        ensures { result ≡ (if read.is_document_file text.now then Some text.now else None) }
    {
        if is_file_name(text) && is_path(last_part(text)) {
            Some(DocumentFile { name: text })
        } else {
            None
        }
    }

    /// The name.
    pub fn name(&self) -> &'a str
        ensures name { result.now ≡ self.now }
        ensures good { read.is_document_file result.now ≡ true }
    {
        self.name
    }

    /// The default path.
    #[tactic(auto, using(crate::proofs::Words::document_path))]
    pub fn path(&self) -> &'a str
        ensures path { result.now ≡ read.last_part self.now }
        ensures good { is_path result.now ≡ true }
    {
        last_part(self.name)
    }
}

fn is_file_name(text: &str) -> bool
    ensures { result ≡ read.is_file_name text.now }
{
    !text.is_empty() && text.len() <= MAX_FILE_NAME && has_no_blank(text)
}

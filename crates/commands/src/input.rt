// What commands read documents from.
ghost use Rattle.std.specs.Prelude.{◌≡◌, ◌≤◌, ◌^◌, true, length};
ghost use Rattle.std.specs.Option.{option_map};
ghost use Rattle.commands.specs.Commands as read;
ghost use Rattle.commands.specs.CommandView.{input_of, input_of_document};

use crate::file::{DocumentFile, FileName};
use std::marker::Model;

/// The XML text that a command was given: it begins with `<` and has at most 2^24 bytes.
#[derive(Drop)]
pub struct XmlText<'a> {
    text: &'a str,
}

impl<'a> Model for XmlText<'a> {
    ghost use Rattle.std.specs.Prelude.{◌≡◌, true, ℕ, List, ◌≤◌, ◌^◌, length};
    ghost use Rattle.commands.specs.Commands.{begins_xml};

    ghost Value = { List ℕ };

    ghost view = { λ x. x.text.now };

    ghost invariant = { λ x. (begins_xml x.text.now ≡ true) × (length x.text.now ≤ 2 ^ 24) };
}

impl<'a> XmlText<'a> {
    fn new(text: &'a str) -> XmlText<'a>
        requires begins { read.begins_xml text.now ≡ true }
        requires len { length text.now ≤ 2 ^ 24 }
        ensures { result ≡ text.now }
    {
        XmlText { text }
    }

    /// The text.
    pub fn text(&self) -> &'a str
        ensures value { result.now ≡ self.now }
        ensures begins { read.begins_xml result.now ≡ true }
        ensures len { length result.now ≤ 2 ^ 24 }
    {
        self.text
    }
}

/// What a document is read from.
#[derive(Drop)]
pub enum Input<'a> {
    /// XML text.
    Text(XmlText<'a>),
    /// The file of a name.
    File(FileName<'a>),
}

/// What a document is read from that gets its default path.
#[derive(Drop)]
pub enum DocumentInput<'a> {
    /// XML text, whose default path is the database's name followed by `.xml`.
    Text(XmlText<'a>),
    /// The file of a name, whose part behind the last `/` is the default path.
    File(DocumentFile<'a>),
}

fn begins_xml(rest: &str) -> bool
    ensures { result ≡ read.begins_xml rest.now }
{
    matches!(rest.as_bytes(), [b'<', ..])
}

/// The input that the rest of a line is, if it is one.
pub fn read_input(rest: &str) -> Option<Input<'_>>
    requires { length rest.now ≤ 2 ^ 24 }
    ensures { option_map input_of result ≡ read.input rest.now }
{
    if begins_xml(rest) {
        return Some(Input::Text(XmlText::new(rest)));
    }
    match FileName::read(rest) {
        Some(file) => Some(Input::File(file)),
        None => None,
    }
}

/// The input that the rest of a line is, if it is one that gives its document a default path.
pub fn read_document_input(rest: &str) -> Option<DocumentInput<'_>>
    requires { length rest.now ≤ 2 ^ 24 }
    ensures { option_map input_of_document result ≡ read.document_input rest.now }
{
    if begins_xml(rest) {
        return Some(DocumentInput::Text(XmlText::new(rest)));
    }
    match DocumentFile::read(rest) {
        Some(file) => Some(DocumentInput::File(file)),
        None => None,
    }
}

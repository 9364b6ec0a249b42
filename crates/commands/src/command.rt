// Commands, as lines hold them.
ghost use Rattle.std.specs.Prelude.{◌≡◌, ◌≤◌, ◌^◌, length};
ghost use Rattle.commands.specs.Commands as read;
ghost use Rattle.commands.specs.CommandView.{ReadsCommand, form_of_read};

use crate::blanks::trimmed;
use crate::file::FileName;
use crate::input::{DocumentInput, Input, read_document_input, read_input};
use crate::number::{Number, read_number};
use crate::path::DocumentPath;
use crate::query::QueryText;
use crate::word::{is_among, is_word, split_word};
use tree_model::{Code, Refusal};

/// The bytes that a line may have without its LF.
pub const MAX_LINE: usize = 1 << 24;

/// A command with its words.
#[derive(Drop)]
pub enum Command<'a> {
    /// `TABLE`: the rows of the document of an input.
    Table(Input<'a>),
    /// `CREATE DB`: a new database with a name, as it was read, and one document or none.
    CreateDb {
        name: &'a str,
        document: Option<DocumentInput<'a>>,
    },
    /// `INFO STORAGE`: all rows of the open database, or those from the first pre up to and without the second.
    InfoStorage(Option<(Number, Number)>),
    /// `LIST`: a line for each database.
    List,
    /// `XQUERY`: the nodes that a query leads to.
    Query(QueryText<'a>),
    /// `EXPORT`: the document under a path is written to a file.
    Export {
        path: DocumentPath<'a>,
        file: FileName<'a>,
    },
    /// `EXIT`: the end of the session.
    Exit,
    /// A form that isn't built yet.
    NotBuilt,
}

// The words with which the forms that aren't built yet begin.
const LATER_WORDS: [&str; 9] = [
    "check", "open", "close", "add", "delete", "replace", "rename", "explain", "optimize",
];

// Whether the first two words of a line are those of a form that isn't built yet.
fn is_later_form(first: &str, second: &str) -> bool
    ensures { result ≡ read.is_later_form first.now second.now }
{
    is_among(&LATER_WORDS, first)
        || (is_word("create", first) && is_word("index", second))
        || (is_word("drop", first) && is_among(&["db", "index"], second))
        || (is_word("info", first) && is_among(&["db", "index"], second))
}

// The command TABLE with this input.
fn table_command(rest: &str) -> Option<Command<'_>>
    requires { length rest.now ≤ 2 ^ 24 }
    ensures { form_of_read result ≡ read.table_form rest.now }
{
    match read_input(rest) {
        Some(input) => Some(Command::Table(input)),
        None => None,
    }
}

// The command CREATE DB with this name and this input.
fn named_command<'a>(name: &'a str, rest: &'a str) -> Option<Command<'a>>
    requires { length rest.now ≤ 2 ^ 24 }
    ensures { form_of_read result ≡ read.named_form name.now rest.now }
{
    if rest.is_empty() {
        return Some(Command::CreateDb {
            name,
            document: None,
        });
    }
    match read_document_input(rest) {
        Some(input) => Some(Command::CreateDb {
            name,
            document: Some(input),
        }),
        None => None,
    }
}

// The command CREATE DB with these words behind it.
fn create_command(words: &str) -> Option<Command<'_>>
    requires { length words.now ≤ 2 ^ 24 }
    ensures { form_of_read result ≡ read.create_form words.now }
{
    if words.is_empty() {
        return None;
    }
    let (name, rest) = split_word(words);
    named_command(name, rest)
}

// The command INFO STORAGE with these words behind it.
fn storage_command(words: &str) -> Option<Command<'_>>
    ensures { form_of_read result ≡ read.storage_form words.now }
{
    if words.is_empty() {
        return Some(Command::InfoStorage(None));
    }
    let (from, to) = split_word(words);
    let from = read_number(from)?;
    let to = read_number(to)?;
    Some(Command::InfoStorage(Some((from, to))))
}

// The command XQUERY with this query.
fn query_command(words: &str) -> Option<Command<'_>>
    requires { length words.now ≤ 2 ^ 24 }
    ensures { form_of_read result ≡ read.query_form words.now }
{
    if words.is_empty() {
        return None;
    }
    Some(Command::Query(QueryText::new(words)))
}

// The command EXPORT with these words behind it.
fn export_command(words: &str) -> Option<Command<'_>>
    ensures { form_of_read result ≡ read.export_form words.now }
{
    let (path, file) = split_word(words);
    let Some(path) = DocumentPath::read(path) else {
        return None;
    };
    match FileName::read(file) {
        Some(file) => Some(Command::Export { path, file }),
        None => None,
    }
}

// The command that begins with these two words, with what stands behind them.
fn two_word_command<'a>(first: &str, second: &str, words: &'a str) -> Option<Command<'a>>
    requires { length words.now ≤ 2 ^ 24 }
    ensures { form_of_read result ≡ read.two_word_form first.now second.now words.now }
{
    if is_word("create", first) && is_word("db", second) {
        return create_command(words);
    }
    if is_word("info", first) && is_word("storage", second) {
        return storage_command(words);
    }
    is_later_form(first, second).then_some(Command::NotBuilt)
}

// The command of a line without blanks at its ends.
fn command_of(line: &str) -> Option<Command<'_>>
    requires { length line.now ≤ 2 ^ 24 }
    ensures { form_of_read result ≡ read.form_of line.now }
{
    let (first, behind) = split_word(line);
    if is_word("table", first) {
        return table_command(behind);
    }
    if is_word("list", first) {
        return Some(if behind.is_empty() {
            Command::List
        } else {
            Command::NotBuilt
        });
    }
    if is_word("exit", first) {
        return behind.is_empty().then_some(Command::Exit);
    }
    if is_word("xquery", first) {
        return query_command(behind);
    }
    if is_word("export", first) {
        return export_command(behind);
    }
    let (second, words) = split_word(behind);
    two_word_command(first, second, words)
}

/// The command of a line that has no LF and no carriage return at its end. `XKLM0001` beyond 2^24 bytes; else `XKCM0001`
/// where it isn't UTF-8 or has no form.
pub fn read_command(line: &[u8]) -> Result<Command<'_>, Refusal>
    ensures { ReadsCommand line.now result }
{
    if line.len() > MAX_LINE {
        return Err(Refusal::Code(Code::XKLM0001));
    }
    let Ok(line) = std::str::from_utf8(line) else {
        return Err(Refusal::Code(Code::XKCM0001));
    };
    match command_of(trimmed(line)) {
        Some(command) => Ok(command),
        None => Err(Refusal::Code(Code::XKCM0001)),
    }
}

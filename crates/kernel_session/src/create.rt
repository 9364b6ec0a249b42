// A new database: its name, and its document if it has one.
ghost use Rattle.std.specs.Prelude.{◌≡◌, ℕ, Bool, List, true, false, Ok, IfOk, IfErr};
ghost use Rattle.std.specs.List.{list_all};
ghost use Rattle.std.specs.Option.{option_map};
ghost use Rattle.tree_model.specs.Forest.{none};
ghost use Rattle.tree_model.specs.Labels.{numbered};
ghost use Rattle.tree_model.specs.Sound.{is_path, IsSound};
ghost use Rattle.tree_model.specs.States as states;
ghost use Rattle.doc_import.specs.Imported.{IsBuilt, built_forest};
ghost use Rattle.doc_store.specs.Stored.{base_of};
ghost use Rattle.commands.specs.Commands as read;
ghost use Rattle.commands.specs.CommandView.{input_of_document};
ghost use Rattle.kernel_session.specs.Databases.{IsRead, IsOne, IsNew, IsNoBase, IsWant};

use crate::content::read_new_document;
use commands::DocumentInput;
use doc_import::Built;
use doc_store::Database;
use frame_pool::Meter;
use outer_io::Files;
use std::alloc::{AllocError, Global};
use tree_model::{Refusal, Text};

// The most bytes of a database's name.
const MAX_NAME: usize = 64;

fn is_name_byte(byte: u8) -> bool
    ensures { result ≡ states.is_base_name_char byte }
{
    byte.is_ascii_alphanumeric() || byte == b'_' || byte == b'-'
}

fn has_name_bytes(bytes: &[u8]) -> bool
    ensures { result ≡ list_all states.is_base_name_char bytes.now }
{
    bytes.iter().all(|byte| is_name_byte(*byte))
}

/// Whether a database may have this name: 1 to 64 ASCII letters, digits, `_` or `-`.
pub fn is_base_name(name: &str) -> bool
    ensures { result ≡ states.is_base_name name.now }
{
    !name.is_empty() && name.len() <= MAX_NAME && has_name_bytes(name.as_bytes())
}

// The path of a document that is given as XML text.
fn default_path(alloc: Global, name: &str) -> Result<Text, AllocError>
    requires { states.is_base_name name.now ≡ true }
    ensures { IfOk result (λ path. path ≡ states.default_path name.now) }
{
    let path = format!(in alloc; "{name}.xml")?;
    Text::of(alloc, path.as_str())
}

// The path of the document of a new database of this name.
fn path_of(alloc: Global, name: &str, document: &DocumentInput<'_>) -> Result<Text, AllocError>
    requires { states.is_base_name name.now ≡ true }
    ensures path { IfOk result (λ path. path ≡ read.path_of_input name.now (input_of_document document.now)) }
    ensures good { IfOk result (λ path. is_path path ≡ true) }
{
    match document {
        DocumentInput::Text(_) => default_path(alloc, name),
        DocumentInput::File(file) => Text::of(alloc, file.path()),
    }
}

// An empty database.
fn empty_database(alloc: Global, name: &str) -> Result<Database, AllocError>
    ensures { IfOk result (λ d. (base_of d ≡ states.new_base name.now none) × (d.branched ≡ false)) }
{
    let name = Text::of(alloc, name)?;
    Database::new_at(alloc, &name, 0)
}

/// A database with one document under a path, whose nodes have the ids from 0 on. Want of memory is the one refusal: the
/// document has no more than 2^24 nodes, and no other stands beside it.
pub fn database_of(
    alloc: Global,
    name: &Text,
    path: &Text,
    built: &Built,
    meter: &mut Meter,
) -> Result<Database, AllocError>
    requires path { is_path path.now ≡ true }
    requires read { (xml : List ℕ) × (strip : Bool) × IsRead xml strip built.now }
    ensures one { IfOk result (IsOne name.now path.now built.now) }
    ensures meter { meter.new ≡ meter.old }
{
    let mut database = Database::new_at(alloc, name, 0)?;
    let mut branch = database.branch()?;
    match database.add_document(&mut branch, 0, path, built, meter) {
        Ok(()) => {
            database.commit(branch);
            Ok(database)
        }
        Err(_) => Err(AllocError),
    }
}

// A database of this name with the document that was read for it.
fn with_document(
    alloc: Global,
    name: &str,
    document: &DocumentInput<'_>,
    built: &Built,
    meter: &mut Meter,
) -> Result<Database, AllocError>
    requires name { states.is_base_name name.now ≡ true }
    requires read { (xml : List ℕ) × (strip : Bool) × IsRead xml strip built.now }
    ensures one { IfOk result (IsOne name.now (read.path_of_input name.now (input_of_document document.now)) built.now) }
    ensures meter { meter.new ≡ meter.old }
{
    let path = path_of(alloc, name, document)?;
    let name = Text::of(alloc, name)?;
    database_of(alloc, &name, &path, built, meter)
}

// What was made, or that memory was wanting.
fn made(database: Result<Database, AllocError>) -> Result<Database, Refusal>
    ensures ok { IfOk result (λ d. database ≡ Ok d) }
    ensures err { IfErr result IsWant }
{
    match database {
        Ok(database) => Ok(database),
        Err(_e) => Err(Refusal::NoMemory),
    }
}

/// A new database of a good name. What its input is refused for is refused.
pub fn new_database<F: Files>(
    alloc: Global,
    name: &str,
    document: &Option<DocumentInput<'_>>,
    strip: bool,
    files: &mut F,
    meter: &mut Meter,
) -> Result<Database, Refusal>
    requires { states.is_base_name name.now ≡ true }
    ensures ok { IfOk result (IsNew strip name.now (option_map input_of_document document.now) (F.seen files.old) (F.seen files.new)) }
    ensures err { IfErr result (IsNoBase strip (option_map input_of_document document.now) (F.seen files.old) (F.seen files.new)) }
    ensures meter { meter.new ≡ meter.old }
{
    let Some(document) = document else {
        return made(empty_database(alloc, name));
    };
    match read_new_document(alloc, document, strip, files) {
        Ok(built) => made(with_document(alloc, name, document, &built, meter)),
        Err(refusal) => Err(refusal),
    }
}

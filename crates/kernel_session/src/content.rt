// The documents that inputs give.
ghost use Rattle.std.specs.Prelude.{◌≡◌, ◌^◌, ◌≤◌, ℕ, Bool, List, Err, IfOk, IfErr};
ghost use Rattle.doc_import.specs.Imported.{IsImport};
ghost use Rattle.commands.specs.Commands.{file};
ghost use Rattle.commands.specs.CommandView.{input_of, input_of_document};
ghost use Rattle.kernel_session.specs.Databases.{IsRead, IsReadFault, IsDocument, IsNoDocument, IsFileRefusal};
ghost use Rattle.kernel_session.specs.Steps.{IsGiven};

use commands::{DocumentInput, Input};
use doc_import::{Built, ImportFault, import};
use outer_io::{FileRead, Files};
use std::alloc::Global;
use tree_model::{Code, Refusal};

// The most bytes of a file that is read.
const MAX_FILE: u64 = 1 << 26;

// The refusal for want of a document.
fn refusal_of(fault: ImportFault) -> Refusal
    ensures { (text : List ℕ) (strip : Bool) → IsImport text strip (Err fault) → IsReadFault text strip result }
{
    match fault {
        ImportFault::TooLong => Refusal::Code(Code::XKLM0002),
        ImportFault::NotUtf8 { at: _ } => Refusal::Code(Code::XKXM0001),
        ImportFault::Encoding { at: _ } => Refusal::Code(Code::XKXM0006),
        ImportFault::InternalSubset { at: _ } => Refusal::Code(Code::XKXM0003),
        ImportFault::Malformed => Refusal::Code(Code::XKXM0002),
        ImportFault::UnknownEntity { at: _ } => Refusal::Code(Code::XKXM0004),
        ImportFault::Namespace { at: _ } => Refusal::Code(Code::XKXM0005),
        ImportFault::TooManyRows => Refusal::Code(Code::XKLM0003),
        ImportFault::NoMemory => Refusal::NoMemory,
    }
}

// The document that XML text spells.
fn read_text(alloc: Global, xml: &[u8], strip: bool) -> Result<Built, Refusal>
    ensures read { IfOk result (IsRead xml.now strip) }
    ensures fault { IfErr result (IsReadFault xml.now strip) }
{
    match import(alloc, xml, strip) {
        Ok(built) => Ok(built),
        Err(fault) => Err(refusal_of(fault)),
    }
}

// The bytes of a file.
fn read_file<F: Files>(files: &mut F, name: &str) -> Result<Vec<u8>, Refusal>
    ensures given { IfOk result (λ bytes. IsGiven (file name.now) (F.seen files.old) (F.seen files.new) bytes.items) }
    ensures refused { IfErr result (IsFileRefusal name.now (F.seen files.old) (F.seen files.new)) }
{
    match files.read(name, MAX_FILE) {
        FileRead::Bytes(bytes) => Ok(bytes),
        FileRead::Missing => Err(Refusal::Code(Code::XKFI0001)),
        FileRead::TooLong => Err(Refusal::Code(Code::XKLM0002)),
        FileRead::Failed => Err(Refusal::Code(Code::XKFI0002)),
        FileRead::NoMemory => Err(Refusal::NoMemory),
    }
}

// The document of a file.
fn read_named<F: Files>(
    alloc: Global,
    name: &str,
    strip: bool,
    files: &mut F,
) -> Result<Built, Refusal>
    ensures document { IfOk result (IsDocument strip (file name.now) (F.seen files.old) (F.seen files.new)) }
    ensures none { IfErr result (IsNoDocument strip (file name.now) (F.seen files.old) (F.seen files.new)) }
{
    match read_file(files, name) {
        Ok(bytes) => read_text(alloc, &bytes, strip),
        Err(refusal) => Err(refusal),
    }
}

/// The document of an input, without a path.
pub fn read_document<F: Files>(
    alloc: Global,
    input: &Input<'_>,
    strip: bool,
    files: &mut F,
) -> Result<Built, Refusal>
    ensures document { IfOk result (IsDocument strip (input_of input.now) (F.seen files.old) (F.seen files.new)) }
    ensures none { IfErr result (IsNoDocument strip (input_of input.now) (F.seen files.old) (F.seen files.new)) }
{
    match input {
        Input::Text(xml) => read_text(alloc, xml.text().as_bytes(), strip),
        Input::File(file) => read_named(alloc, file.name(), strip, files),
    }
}

/// The document of a new database, without a path.
pub fn read_new_document<F: Files>(
    alloc: Global,
    document: &DocumentInput<'_>,
    strip: bool,
    files: &mut F,
) -> Result<Built, Refusal>
    ensures document { IfOk result (IsDocument strip (input_of_document document.now) (F.seen files.old) (F.seen files.new)) }
    ensures none { IfErr result (IsNoDocument strip (input_of_document document.now) (F.seen files.old) (F.seen files.new)) }
{
    match document {
        DocumentInput::Text(xml) => read_text(alloc, xml.text().as_bytes(), strip),
        DocumentInput::File(file) => read_named(alloc, file.name(), strip, files),
    }
}

// The whole text.
ghost use Rattle.std.specs.Prelude.{◌≡◌, ◌<◌, ◌^◌, ℕ, Bool, List, Option, Some, Err};
ghost use Rattle.tree_model.specs.XmlSource.{Decl};
ghost use Rattle.tree_model.specs.XmlReads.{ReadsXml, first_fault, IsText, HasNoOtherEncoding};
ghost use Rattle.xml_rows.specs.BuilderView as view;
ghost use Rattle.doc_import.specs.Found.{IsWhole};
ghost use Rattle.doc_import.specs.Heads as head;
ghost use Rattle.doc_import.specs.Imported.{IsImport};

use crate::fault::ImportFault;
use crate::head::behind_head;
use crate::reading::{Stop, read};
use node_table::Part;
use std::alloc::Global;
use std::str;
use xml_pieces::{are_chars, other_encoding};
use xml_rows::{Builder, Fault, Made};

/// The most bytes of one text.
const MAX_BYTES: usize = 1 << 26;

/// The most rows of one table.
const MAX_ROWS: usize = 1 << 24;

fn fault_of(fault: Fault) -> ImportFault
    ensures { (text : List ℕ) (strip : Bool) → ReadsXml text strip (first_fault (view.fault_of fault)) → IsImport text strip (Err result) }
{
    match fault {
        Fault::UnknownEntity(at) => ImportFault::UnknownEntity { at },
        Fault::Namespace(at) => ImportFault::Namespace { at },
    }
}

// The answer of a reading that came to the end of a document.
fn whole(text: &[u8], strip: bool, builder: Builder<'_>) -> Result<Part, ImportFault>
    requires few { builder.at < 2 ^ 31 }
    requires found { IsWhole strip text.now builder }
    ensures { IsImport text.now strip result }
{
    if let Some(fault) = builder.fault() {
        return Err(fault_of(fault));
    }
    if builder.len() > MAX_ROWS {
        return Err(ImportFault::TooManyRows);
    }
    let Made {
        names,
        values,
        rows,
    } = builder.finish();
    Ok(Part {
        names,
        heap: values,
        rows,
    })
}

// The answer to a text, by what stands behind its head.
fn document(alloc: Global, text: &[u8], body: &[u8], strip: bool) -> Result<Part, ImportFault>
    requires text { IsText text.now }
    requires encoding { HasNoOtherEncoding text.now }
    requires head { (d : Option Decl) × (head.behind_head text.now ≡ Some (d, body.now)) }
    ensures { IsImport text.now strip result }
{
    let at = text.len() - body.len();
    match read(alloc, body, at, strip) {
        Ok((control, builder)) => {
            if !control.is_whole() {
                return Err(ImportFault::Malformed);
            }
            if !are_chars(text) {
                return Err(ImportFault::Malformed);
            }
            whole(text, strip, builder)
        }
        Err(Stop::InternalSubset(at)) => {
            if are_chars(text.split_at(at).0) {
                Err(ImportFault::InternalSubset { at })
            } else {
                Err(ImportFault::Malformed)
            }
        }
        Err(Stop::Malformed) => Err(ImportFault::Malformed),
        Err(Stop::NoMemory) => Err(ImportFault::NoMemory),
    }
}

/// Reads the document that a text spells. With `strip` a text that is all white space is dropped.
pub fn import(alloc: Global, bytes: &[u8], strip: bool) -> Result<Part, ImportFault>
    ensures { IsImport bytes.now strip result }
{
    if bytes.len() > MAX_BYTES {
        return Err(ImportFault::TooLong);
    }
    if let Err(fault) = str::from_utf8(bytes) {
        return Err(ImportFault::NotUtf8 {
            at: fault.valid_up_to(),
        });
    }
    if let Some(at) = other_encoding(bytes) {
        return Err(ImportFault::Encoding { at });
    }
    document(alloc, bytes, behind_head(bytes), strip)
}

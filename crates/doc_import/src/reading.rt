// From piece to piece up to the end of a text.
ghost use Rattle.std.specs.Prelude.{◌≡◌, ◌+◌, ◌<◌, ◌≤◌, ◌^◌, [], length, IfOk, IfErr};
ghost use Rattle.std.specs.Str.{IsUtf8};
ghost use Rattle.doc_import.specs.Machine.{machine, start, Leads};
ghost use Rattle.doc_import.specs.declared.reading.Stop.TheVariants.{NoMemory};
ghost use Rattle.doc_import.specs.Stopping.{IsStop, IsStopped};

use crate::subset::subset_len;
use std::alloc::{AllocError, Global};
use xml_order::Control;
use xml_pieces::item_at;
use xml_rows::Builder;

/// Why a reading stopped.
#[derive(Clone, Copy)]
pub enum Stop {
    /// No document goes on so.
    Malformed,
    /// An internal subset begins at a place of the text.
    InternalSubset(usize),
    NoMemory,
}

impl From<AllocError> for Stop {
    ghost from_gives = { λ _ e. e ≡ NoMemory };

    fn from(_: AllocError) -> Self {
        Stop::NoMemory
    }
}

// Why no piece can be read at a place.
fn stop_at(control: &Control<'_>, rest: &[u8], at: usize) -> Stop
    requires few { at + length rest.now < 2 ^ 64 }
    ensures { IsStop control.now rest.now at result }
{
    if !control.is_before_doctype() {
        return Stop::Malformed;
    }
    match subset_len(rest) {
        Some(len) => Stop::InternalSubset(at + len),
        None => Stop::Malformed,
    }
}

/// Reads what stands behind the head of a text to its end, unless no document goes on with it.
pub fn read<'a>(
    alloc: Global,
    body: &'a [u8],
    at: usize,
    strip: bool,
) -> Result<(Control<'a>, Builder<'a>), Stop>
    requires few { at + length body.now ≤ 2 ^ 26 }
    requires text { IsUtf8 body.now }
    ensures at { IfOk result (λ r. r.1.at ≡ at + length body.now) }
    ensures led { IfOk result (λ r. Leads strip (start at) body.now (machine r.1 r.0) []) }
    ensures fault { IfErr result (IsStopped strip at body.now) }
{
    let mut control = Control::begin(alloc);
    let mut builder = Builder::begin(alloc, at)?;
    let mut rest = body;
    while !rest.is_empty() {
        let Some((piece, after)) = item_at(control.place(), rest) else {
            return Err(stop_at(&control, rest, at + (body.len() - rest.len())));
        };
        if !control.step(piece)? {
            return Err(Stop::Malformed);
        }
        builder = builder.take(piece, strip)?;
        rest = after;
    }
    Ok((control, builder))
}

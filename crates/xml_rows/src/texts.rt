// Rows that have a value: texts, comments and instructions.
ghost use Rattle.std.specs.Prelude.{◌≡◌, ◌+◌, ◌<◌, ◌≤◌, ◌^◌, [], ℕ, List, length, IfOk, OnOk};
ghost use Rattle.std.specs.Char.{encode_utf8};
ghost use Rattle.std.specs.Option.{is_some};
ghost use Rattle.tree_model.specs.Labels.{local_name};
ghost use Rattle.tree_model.specs.Rows.{name_at, lines_of, ArePlaced};
ghost use Rattle.tree_model.specs.XmlMeaning as meaning;
ghost use Rattle.tree_model.specs.declared.text.Name.{Name};
ghost use Rattle.xml_rows.specs.Texts.{flushed, pending_count, valued_label};
ghost use Rattle.xml_rows.specs.Work.{with_leaf, gathered_more};

use crate::characters::entity_char;
use crate::rows::Rows;
use crate::values::Values;
use tree_model::{Kind, NoMemory};
use xml_pieces::all_space;

// Whether a text is kept.
fn is_kept(text: &[u8], strip: bool) -> bool
    ensures { result ≡ meaning.is_kept_text strip text.now }
{
    !(text.is_empty() || (strip && all_space(text)))
}

/// More text, unless it stands outside the root.
pub fn gather(rows: &Rows, values: &mut Values, bytes: &[u8]) -> Result<(), NoMemory>
    ensures settled { OnOk result (values.new.settled ≡ values.old.settled) }
    ensures pending { OnOk result (values.new.pending ≡ gathered_more rows.now.open_at values.old.pending (meaning.line_ends bytes.now)) }
{
    if rows.is_open() {
        values.add_lines(bytes)?;
    }
    Ok(())
}

/// The character of a reference, unless it stands outside the root.
pub fn gather_char(rows: &Rows, values: &mut Values, code: char) -> Result<(), NoMemory>
    ensures settled { OnOk result (values.new.settled ≡ values.old.settled) }
    ensures pending { OnOk result (values.new.pending ≡ gathered_more rows.now.open_at values.old.pending (encode_utf8 code)) }
{
    if rows.is_open() {
        values.add_char(code)?;
    }
    Ok(())
}

/// The value of an entity, unless its reference stands outside the root. Says whether the entity is known.
pub fn gather_entity(rows: &Rows, values: &mut Values, name: &[u8]) -> Result<bool, NoMemory>
    ensures known { IfOk result (λ known. known ≡ is_some (meaning.entity_char name.now)) }
    ensures settled { OnOk result (values.new.settled ≡ values.old.settled) }
    ensures pending { OnOk result (values.new.pending ≡ gathered_more rows.now.open_at values.old.pending (meaning.entity_value name.now)) }
{
    if rows.is_open() {
        return values.add_entity(name);
    }
    Ok(entity_char(name).is_some())
}

/// The text that was gathered becomes a row, where it is kept.
pub fn flush(
    rows: &mut Rows,
    values: &mut Values,
    unnamed: u64,
    strip: bool,
) -> Result<(), NoMemory>
    requires few { length rows.old.rows < 2 ^ 32 }
    ensures lines { OnOk result ((names : List Name) → name_at names unnamed ≡ local_name [] → ArePlaced names values.old.settled rows.old.rows → lines_of names values.new.settled rows.new.rows
        ≡ flushed strip values.old.pending (lines_of names values.old.settled rows.old.rows) rows.old.open_at) }
    ensures placed { OnOk result ((names : List Name) → unnamed < length names → ArePlaced names values.old.settled rows.old.rows → ArePlaced names values.new.settled rows.new.rows) }
    ensures open_at { OnOk result (rows.new.open_at ≡ rows.old.open_at) }
    ensures len { OnOk result (length rows.new.rows ≤ length rows.old.rows + pending_count values.old.pending) }
    ensures pending { OnOk result (values.new.pending ≡ []) }
{
    if !is_kept(values.pending(), strip) {
        values.forget();
        return Ok(());
    }
    let val = values.settle();
    rows.add_leaf(Kind::Text, unnamed, val)?;
    Ok(())
}

/// A comment or an instruction.
pub fn add_valued(
    rows: &mut Rows,
    values: &mut Values,
    kind: Kind,
    name: u64,
    bytes: &[u8],
) -> Result<(), NoMemory>
    requires few { length rows.old.rows < 2 ^ 32 }
    requires none { values.old.pending ≡ [] }
    ensures lines { OnOk result ((names : List Name) → ArePlaced names values.old.settled rows.old.rows → lines_of names values.new.settled rows.new.rows
        ≡ with_leaf (valued_label kind (name_at names name) (meaning.line_ends bytes.now)) (lines_of names values.old.settled rows.old.rows) rows.old.open_at) }
    ensures placed { OnOk result ((names : List Name) → name < length names → ArePlaced names values.old.settled rows.old.rows → ArePlaced names values.new.settled rows.new.rows) }
    ensures open_at { OnOk result (rows.new.open_at ≡ rows.old.open_at) }
    ensures len { OnOk result (length rows.new.rows ≡ length rows.old.rows + 1) }
    ensures pending { OnOk result (values.new.pending ≡ []) }
{
    values.add_lines(bytes)?;
    let val = values.settle();
    rows.add_leaf(kind, name, val)?;
    Ok(())
}

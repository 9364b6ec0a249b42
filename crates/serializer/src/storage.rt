// The text of the rows of a table.
ghost use Rattle.std.specs.Prelude.{◌≡◌, ◌+◌, ◌≤◌, ◌<◌, ◌++◌, [], length, OnOk, decimal};
ghost use Rattle.std.specs.List.{flat_map};
ghost use Rattle.tree_model.specs.Declarations.{declarations_of};
ghost use Rattle.tree_model.specs.Rows.{line_of};
ghost use Rattle.tree_model.specs.Printed as printed;
ghost use Rattle.node_table.specs.Tables.{rows_in, IsIn};
ghost use Rattle.node_table.specs.Views.{view_of, view_forest, KeepsTrees};
ghost use Rattle.serializer.specs.Growth.{Grew};

use crate::declarations::{next_declaration, push_declaration};
use crate::escape::{RowContent, push_byte, push_bytes, push_escaped};
use crate::rows::Rows;
use frame_pool::Pool;
use itoa::Buffer;
use name_pool::NamePool;
use node_table::NodeTable;
use tree_model::{Kind, Name, NoMemory, Row};
use value_heap::ValueHeap;

fn kind_word(kind: Kind) -> &'static str
    ensures { result.now ≡ printed.kind_word kind }
{
    match kind {
        Kind::Doc => "doc",
        Kind::Elem => "elem",
        Kind::Text => "text",
        Kind::Attr => "attr",
        Kind::Comm => "comm",
        Kind::Pi => "pi",
    }
}

/// Appends a number in decimal. After `NoMemory` a part of it may stand behind what `out` had before.
pub fn push_number(out: &mut Vec<u8>, n: u64) -> Result<(), NoMemory>
    ensures text { OnOk result (out.new.items ≡ out.old.items ++ decimal n) }
    ensures kept { Grew out.old.items out.new.items }
{
    let mut buffer = Buffer::new();
    push_bytes(out, buffer.format(n).as_bytes())
}

// A number and a space. Most numbers of a row have one digit.
#[tactic(auto, unfolding(tree_model::specs::Printed::field_text), using(std::proofs::lemmas::Fmt::decimal_digit, crate::proofs::Growing::grew_twice))]
fn push_field(out: &mut Vec<u8>, n: u64) -> Result<(), NoMemory>
    ensures text { OnOk result (out.new.items ≡ out.old.items ++ printed.field_text n) }
    ensures kept { Grew out.old.items out.new.items }
{
    if n < 10 {
        return push_bytes(out, &[b'0' + n as u8, b' ']);
    }
    push_number(out, n)?;
    push_byte(out, b' ')
}

// Bytes between two others, or nothing where there are none.
#[tactic(auto, using(crate::proofs::Growing::grew_none, crate::proofs::Growing::grew_twice), unfolding(tree_model::specs::Printed::between))]
fn push_between(
    out: &mut Vec<u8>,
    opening: &[u8],
    bytes: &[u8],
    closing: &[u8],
) -> Result<(), NoMemory>
    ensures text { OnOk result (out.new.items ≡ out.old.items ++ printed.between opening.now bytes.now closing.now) }
    ensures kept { Grew out.old.items out.new.items }
{
    if bytes.is_empty() {
        return Ok(());
    }
    push_bytes(out, opening)?;
    push_escaped::<RowContent>(out, bytes)?;
    push_bytes(out, closing)
}

// A name with its uri.
#[tactic(auto, using(crate::proofs::Growing::grew_twice), unfolding(tree_model::specs::Printed::name_text))]
fn push_name(out: &mut Vec<u8>, name: &Name) -> Result<(), NoMemory>
    ensures text { OnOk result (out.new.items ≡ out.old.items ++ printed.name_text name.now) }
    ensures kept { Grew out.old.items out.new.items }
{
    push_between(out, b"{", name.uri.as_str().as_bytes(), b"}")?;
    push_between(out, &[], name.prefix.as_str().as_bytes(), b":")?;
    push_escaped::<RowContent>(out, name.local.as_str().as_bytes())
}

// The declarations whose text a value is, each behind a space.
#[tactic(auto, using(crate::proofs::Growing::grew_none, crate::proofs::Growing::grew_twice))]
fn push_declarations(out: &mut Vec<u8>, value: &[u8]) -> Result<(), NoMemory>
    ensures text { OnOk result (out.new.items ≡ out.old.items ++ flat_map printed.binding_text (declarations_of value.now)) }
    ensures kept { Grew out.old.items out.new.items }
{
    let mut rest = value;
    while let Some((declaration, behind)) = next_declaration(rest) {
        push_declaration::<RowContent>(out, declaration)?;
        rest = behind;
    }
    Ok(())
}

#[tactic(auto, using(crate::proofs::Growing::grew_twice))]
fn push_element(out: &mut Vec<u8>, name: &Name, value: &[u8]) -> Result<(), NoMemory>
    ensures text { OnOk result (out.new.items ≡ out.old.items ++ printed.content_of Kind.Elem name.now value.now) }
    ensures kept { Grew out.old.items out.new.items }
{
    push_name(out, name)?;
    push_declarations(out, value)
}

#[tactic(auto, using(crate::proofs::Growing::grew_twice))]
fn push_attribute(out: &mut Vec<u8>, name: &Name, value: &[u8]) -> Result<(), NoMemory>
    ensures text { OnOk result (out.new.items ≡ out.old.items ++ printed.content_of Kind.Attr name.now value.now) }
    ensures kept { Grew out.old.items out.new.items }
{
    push_name(out, name)?;
    push_bytes(out, b"=\"")?;
    push_escaped::<RowContent>(out, value)?;
    push_bytes(out, b"\"")
}

#[tactic(auto, using(crate::proofs::Growing::grew_twice))]
fn push_instruction(out: &mut Vec<u8>, name: &Name, value: &[u8]) -> Result<(), NoMemory>
    ensures text { OnOk result (out.new.items ≡ out.old.items ++ printed.content_of Kind.Pi name.now value.now) }
    ensures kept { Grew out.old.items out.new.items }
{
    push_name(out, name)?;
    push_between(out, b" ", value, &[])
}

fn push_content(out: &mut Vec<u8>, kind: Kind, name: &Name, value: &[u8]) -> Result<(), NoMemory>
    ensures text { OnOk result (out.new.items ≡ out.old.items ++ printed.content_of kind name.now value.now) }
    ensures kept { Grew out.old.items out.new.items }
{
    match kind {
        Kind::Elem => push_element(out, name, value),
        Kind::Attr => push_attribute(out, name, value),
        Kind::Pi => push_instruction(out, name, value),
        Kind::Doc | Kind::Text | Kind::Comm => push_escaped::<RowContent>(out, value),
    }
}

// All of a row's fields before its content.
#[tactic(auto, using(crate::proofs::Growing::grew_twice))]
fn push_head(out: &mut Vec<u8>, pre: u64, row: &Row) -> Result<(), NoMemory>
    ensures text { OnOk result (out.new.items ≡ out.old.items ++ printed.head_text pre (line_of [] [] row.now)) }
    ensures kept { Grew out.old.items out.new.items }
{
    push_field(out, pre)?;
    push_field(out, u64::from(row.dist))?;
    push_field(out, u64::from(row.size))?;
    push_field(out, u64::from(row.asize))?;
    push_field(out, u64::from(row.id))?;
    push_bytes(out, kind_word(row.kind).as_bytes())?;
    push_byte(out, b' ')
}

#[tactic(auto, using(crate::proofs::Growing::grew_twice))]
fn push_row(
    out: &mut Vec<u8>,
    pre: u64,
    row: &Row,
    names: &NamePool,
    heap: &ValueHeap,
) -> Result<(), NoMemory>
    requires name { row.now.name < length names.now }
    requires value { row.now.val.at + row.now.val.len ≤ length heap.now }
    ensures text { OnOk result (out.new.items ≡ out.old.items ++ printed.row_text pre (line_of names.now heap.now row.now)) }
    ensures kept { Grew out.old.items out.new.items }
{
    push_head(out, pre, row)?;
    push_content(out, row.kind, names.name(row.name), heap.get(row.val))
}

// The rows of a range, joined by LF.
fn push_rows(
    out: &mut Vec<u8>,
    rows: &mut Rows<'_>,
    names: &NamePool,
    heap: &ValueHeap,
    from: u32,
    to: u32,
) -> Result<(), NoMemory>
    requires { KeepsTrees (view_of rows.old names.now heap.now) }
    ensures text { OnOk result (out.new.items ≡ out.old.items ++ printed.range_text from to (view_forest (view_of rows.old names.now heap.now))) }
    ensures kept { Grew out.old.items out.new.items }
{
    let end = rows.len().min(to);
    let start = end.min(from);
    for pre in start..end {
        if pre != start {
            push_byte(out, b'\n')?;
        }
        let row = rows.row(pre);
        push_row(out, u64::from(pre), &row, names, heap)?;
    }
    Ok(())
}

/// Appends a line for each row from `from` up to and without `to`, joined by LF, with none behind the last: `pre dist size
/// asize id kind content`, the numbers in decimal. `pre` is the row's number, counted from 0 at the first of all rows; a
/// number beyond them names no row. In the content a backslash, LF, CR and TAB stand as `\\`, `\n`, `\r` and `\t`. After
/// `NoMemory` a part of the text may stand behind what `out` had before.
pub fn print_storage(
    table: &NodeTable,
    pool: &Pool<Row>,
    names: &NamePool,
    heap: &ValueHeap,
    from: u32,
    to: u32,
    out: &mut Vec<u8>,
) -> Result<(), NoMemory>
    requires held { IsIn pool.now table.now }
    requires trees { KeepsTrees (view_of (rows_in pool.now table.now) names.now heap.now) }
    ensures text { OnOk result (out.new.items ≡ out.old.items ++ printed.range_text from to (view_forest (view_of (rows_in pool.now table.now) names.now heap.now))) }
    ensures kept { Grew out.old.items out.new.items }
{
    push_rows(out, &mut Rows::of(table, pool), names, heap, from, to)
}

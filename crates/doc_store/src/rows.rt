// The rows of a document among the names and values of a database.
ghost use Rattle.std.specs.Prelude.{◌≡◌, ◌+◌, ◌<◌, ◌≤◌, ◌^◌, length, IfOk, OnOk, OnErr};
ghost use Rattle.tree_model.specs.Rows.{ArePlaced, lines_of};
ghost use Rattle.node_table.specs.Views.{part_view, view_lines, KeepsTrees};
ghost use Rattle.doc_store.specs.Moving.{AreNumbers, HasMore, moved_lines, row_moved, moved, first_valued};

use name_pool::NamePool;
use node_table::Part;
use std::alloc::Global;
use tree_model::{NoMemory, Row, Text, ValueRef};
use value_heap::ValueHeap;

// The numbers that names get among others.
fn numbers_among(
    names: &mut NamePool,
    others: &NamePool,
    alloc: Global,
) -> Result<Vec<u64>, NoMemory>
    ensures numbers { IfOk result (λ numbers. AreNumbers names.new others.now numbers.items) }
    ensures grown { HasMore names.old names.new }
{
    let mut numbers = Vec::new(alloc);
    for n in 0..others.mark() {
        let number = names.intern(others.name(n))?;
        numbers.push(number)?;
    }
    Ok(numbers)
}

// A row with its name and value elsewhere, and with this id.
fn moved_row(row: &Row, numbers: &[u64], at: u64, id: u32) -> Row
    requires name { row.now.name < length numbers.now }
    requires room { row.now.val.at + at < 2 ^ 64 }
    ensures { result ≡ row_moved numbers.now at id row.now }
{
    Row {
        name: numbers[row.name as usize],
        id,
        val: ValueRef {
            at: row.val.at + at,
            len: row.val.len,
        },
        ..*row
    }
}

// The rows of a document with names and values elsewhere, and with ids from `first` on.
fn moved_rows(
    built: &Part,
    numbers: &[u64],
    at: u64,
    first: u32,
    alloc: Global,
) -> Result<Vec<Row>, NoMemory>
    requires placed { ArePlaced built.now.names built.now.heap built.now.rows.items }
    requires numbers { length numbers.now ≡ length built.now.names }
    requires room { at + length built.now.heap < 2 ^ 64 }
    requires few { first + length built.now.rows.items < 2 ^ 32 }
    ensures { IfOk result (λ all. all.items ≡ moved numbers.now at first built.now.rows.items) }
{
    let rows = built.rows.as_slice();
    let mut all = Vec::with_capacity(alloc, rows.len())?;
    let mut id = first;
    for row in rows {
        all.push(moved_row(row, numbers, at, id))?;
        id += 1;
    }
    Ok(all)
}

// Gives the first row another value.
fn set_first_value(rows: &mut Vec<Row>, val: ValueRef)
    ensures { rows.new.items ≡ first_valued val rows.old.items }
{
    if let Some(document) = rows.first_mut() {
        document.val = val;
    }
}

/// The rows of a document under a path, with ids from `first` on. Names and values that are new go behind the others, also
/// where memory is then wanting.
pub fn rows_under(
    names: &mut NamePool,
    heap: &mut ValueHeap,
    path: &Text,
    built: &Part,
    first: u32,
) -> Result<Vec<Row>, NoMemory>
    requires built { KeepsTrees (part_view built.now) }
    requires few { first + length built.now.rows.items < 2 ^ 32 }
    ensures lines { IfOk result (λ rows. lines_of names.new heap.new rows.items ≡ moved_lines path.now first (view_lines (part_view built.now))) }
    ensures placed { IfOk result (λ rows. ArePlaced names.new heap.new rows.items) }
    ensures names { HasMore names.old names.new }
    ensures heap { HasMore heap.old heap.new }
{
    let alloc = *built.rows.allocator();
    let numbers = numbers_among(names, &built.names, alloc)?;
    let len = built.heap.mark();
    heap.append(built.heap.get(ValueRef { at: 0, len }))?;
    let at = heap.mark() - len;
    let mut rows = moved_rows(built, &numbers, at, first, alloc)?;
    let val = heap.append(path.as_str().as_bytes())?;
    set_first_value(&mut rows, val);
    Ok(rows)
}

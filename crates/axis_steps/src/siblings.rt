// Of many nodes one of each parent, whose sibling axis has all that those of the others have.
ghost use Rattle.std.specs.Prelude.{◌≡◌, ◌<◌, ◌≤◌, ℕ, length, take, IfOk, OnOk, IsTrue};
ghost use Rattle.std.specs.List.{All, Contains};
ghost use Rattle.tree_model.specs.declared.axis.Axis.TheVariants.{FollowingSibling, PrecedingSibling};
ghost use Rattle.frame_pool.specs.Meters.{HasRead};
ghost use Rattle.node_table.specs.Laid.{IsLaid};
ghost use Rattle.axis_steps.specs.Steps.{Keeps};
ghost use Rattle.axis_steps.specs.Siblings.{IsChildAt, IsKept, DoesFor, HasTaken, TakesIn};
ghost use Rattle.axis_steps.specs.declared.siblings.Child.{Child};

use crate::keep::is_attribute;
use axis_cursor::row_at;
use frame_pool::Meter;
use node_table::RowReader;
use std::alloc::Global;
use tree_model::{NoMemory, Row};

// A child that is kept, and its parent.
#[derive(Clone, Copy)]
struct Child {
    place: u32,
    parent: u32,
}

// Nodes that are kept, and those of them whose parents may have further ones, the innermost last.
#[derive(Drop)]
struct Children {
    kept: Vec<u32>,
    last: Vec<Child>,
}

// A node with its parent, where it is a child.
fn child_at(place: u32, row: &Row) -> Option<Child>
    requires { row.now.dist ≤ place }
    ensures { IsChildAt place row.now result }
{
    if row.dist == 0 || is_attribute(row) {
        return None;
    }
    Some(Child {
        place,
        parent: place - row.dist,
    })
}

// Drops the children of parents behind a place.
fn leave_parents_behind(last: &mut Vec<Child>, parent: u32)
    ensures { (k : ℕ) × (last.new.items ≡ take k last.old.items) }
{
    while let Some(child) = last.last() {
        if child.parent <= parent {
            return;
        }
        last.pop();
    }
}

// Whether a child of the same parent stands where it has all siblings in this direction that the other has.
fn does_for(kept: &Child, child: &Child, is_forward: bool) -> bool
    ensures { IsTrue result → DoesFor kept.now child.now is_forward }
{
    if kept.parent != child.parent {
        return false;
    }
    if is_forward {
        kept.place <= child.place
    } else {
        child.place <= kept.place
    }
}

// Whether the last child does for another.
fn is_done_for(last: &[Child], child: &Child, is_forward: bool) -> bool
    ensures { IsTrue result → (kept : Child) × Contains last.now kept × DoesFor kept child.now is_forward }
{
    match last.last() {
        None => false,
        Some(kept) => does_for(kept, child, is_forward),
    }
}

// Takes a child in, unless another of its parent that is kept does for it.
fn take_child(child: &Child, is_forward: bool, children: &mut Children) -> Result<(), NoMemory>
    ensures { OnOk result (HasTaken child.now is_forward children.old children.new) }
{
    leave_parents_behind(&mut children.last, child.parent);
    if is_done_for(children.last.as_slice(), child, is_forward) {
        return Ok(());
    }
    children.last.push(*child)?;
    children.kept.push(child.place)?;
    Ok(())
}

// Takes a node in. One that is no child has no siblings.
fn take_in(
    reader: &mut RowReader<'_>,
    place: u32,
    is_forward: bool,
    children: &mut Children,
    meter: &mut Meter,
) -> Result<(), NoMemory>
    requires laid { IsLaid reader.old }
    requires within { place < length reader.old }
    requires last { All (IsKept reader.old children.old.kept.items) children.old.last.items }
    ensures last { OnOk result (All (IsKept reader.old children.new.kept.items) children.new.last.items) }
    ensures taken { OnOk result (TakesIn reader.old is_forward place children.old.kept.items children.new.kept.items) }
    ensures rows { reader.new ≡ reader.old }
    ensures meter { HasRead meter.old meter.new }
{
    let row = row_at(reader, place, meter);
    match child_at(place, &row) {
        None => Ok(()),
        Some(child) => take_child(&child, is_forward, children),
    }
}

/// For following siblings: the first node of each parent.
pub(crate) fn keep_first_children(
    alloc: Global,
    reader: &mut RowReader<'_>,
    places: &[u32],
    meter: &mut Meter,
) -> Result<Vec<u32>, NoMemory>
    requires laid { IsLaid reader.old }
    requires within { All (λ place. place < length reader.old) places.now }
    ensures kept { IfOk result (λ kept. Keeps reader.old FollowingSibling places.now kept.items) }
    ensures rows { reader.new ≡ reader.old }
    ensures meter { HasRead meter.old meter.new }
{
    let mut children = Children {
        kept: Vec::new(alloc),
        last: Vec::new(alloc),
    };
    for place in places {
        take_in(reader, *place, true, &mut children, meter)?;
    }
    Ok(children.kept)
}

/// For preceding siblings: the last node of each parent.
pub(crate) fn keep_last_children(
    alloc: Global,
    reader: &mut RowReader<'_>,
    places: &[u32],
    meter: &mut Meter,
) -> Result<Vec<u32>, NoMemory>
    requires laid { IsLaid reader.old }
    requires within { All (λ place. place < length reader.old) places.now }
    ensures kept { IfOk result (λ kept. Keeps reader.old PrecedingSibling places.now kept.items) }
    ensures rows { reader.new ≡ reader.old }
    ensures meter { HasRead meter.old meter.new }
{
    let mut children = Children {
        kept: Vec::new(alloc),
        last: Vec::new(alloc),
    };
    let mut at = places.len();
    while at > 0 {
        at -= 1;
        take_in(reader, places[at], false, &mut children, meter)?;
    }
    Ok(children.kept)
}

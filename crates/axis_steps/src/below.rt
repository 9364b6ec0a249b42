// The descendants of many nodes.
ghost use Rattle.std.specs.Prelude.{◌≡◌, ◌⊎◌, ◌+◌, ◌<◌, ◌≤◌, List, length, IfOk, OnOk};
ghost use Rattle.std.specs.Bool.{Decides};
ghost use Rattle.std.specs.List.{All};
ghost use Rattle.tree_model.specs.declared.axis.Axis.TheVariants.{Descendant, DescendantOrSelf};
ghost use Rattle.tree_model.specs.declared.row.Row.{Row as TableRow};
ghost use Rattle.node_table.specs.Laid.{row_at};
ghost use Rattle.frame_pool.specs.Meters.{HasRead};
ghost use Rattle.axis_steps.specs.Steps.{IsStanding, HasReached, HasRows, HasOwn, HasBelow};

use crate::keep::is_attribute;
use crate::trees::Step;
use axis_cursor::{passes, row_at};
use frame_pool::Meter;
use name_pool::NamePool;
use node_table::RowReader;
use std::alloc::Global;
use tree_model::{Axis, NoMemory, Row};

// Appends a place, if its row passes and is no attribute.
fn push_row(
    names: &NamePool,
    reader: &mut RowReader<'_>,
    place: u32,
    step: &Step<'_>,
    found: &mut Vec<u32>,
    meter: &mut Meter,
) -> Result<(), NoMemory>
    requires standing { IsStanding names.now reader.old }
    requires within { place < length reader.old }
    ensures pushed { OnOk result (HasRows names.now reader.old step.now place (place + 1) found.old.items found.new.items) }
    ensures rows { reader.new ≡ reader.old }
    ensures meter { HasRead meter.old meter.new }
{
    let row = row_at(reader, place, meter);
    if is_attribute(&row) {
        return Ok(());
    }
    if passes(names, step.axis, step.test, &row) {
        found.push(place)?;
    }
    Ok(())
}

// Appends the places from one up to another whose rows pass and are no attributes.
fn push_rows(
    names: &NamePool,
    reader: &mut RowReader<'_>,
    from: u32,
    end: u32,
    step: &Step<'_>,
    found: &mut Vec<u32>,
    meter: &mut Meter,
) -> Result<(), NoMemory>
    requires standing { IsStanding names.now reader.old }
    requires order { from ≤ end }
    requires within { end ≤ length reader.old }
    ensures pushed { OnOk result (HasRows names.now reader.old step.now from end found.old.items found.new.items) }
    ensures rows { reader.new ≡ reader.old }
    ensures meter { HasRead meter.old meter.new }
{
    let mut at = from;
    while at < end {
        push_row(names, reader, at, step, found, meter)?;
        at += 1;
    }
    Ok(())
}

// Whether the axis has the node itself.
fn has_self(axis: Axis) -> bool
    ensures { Decides result (axis ≡ DescendantOrSelf) }
{
    match axis {
        Axis::DescendantOrSelf => true,
        _ => false,
    }
}

// Appends the node itself, where the axis has it and it passes.
fn push_own(
    names: &NamePool,
    place: u32,
    row: &Row,
    step: &Step<'_>,
    found: &mut Vec<u32>,
) -> Result<(), NoMemory>
    requires named { row.now.name < length names.now }
    ensures own { (rows : List TableRow) → place < length rows → row.now ≡ row_at rows place → OnOk result (HasOwn names.now rows step.now place found.old.items found.new.items) }
{
    if has_self(step.axis) && passes(names, step.axis, step.test, row) {
        found.push(place)?;
    }
    Ok(())
}

// Appends the descendants of a node that pass, behind the node itself where the axis has it.
fn push_below(
    names: &NamePool,
    reader: &mut RowReader<'_>,
    place: u32,
    step: &Step<'_>,
    found: &mut Vec<u32>,
    meter: &mut Meter,
) -> Result<(), NoMemory>
    requires standing { IsStanding names.now reader.old }
    requires within { place < length reader.old }
    requires axis { (step.now.axis ≡ Descendant) ⊎ (step.now.axis ≡ DescendantOrSelf) }
    ensures below { OnOk result (HasBelow names.now reader.old step.now place found.old.items found.new.items) }
    ensures rows { reader.new ≡ reader.old }
    ensures meter { HasRead meter.old meter.new }
{
    let row = row_at(reader, place, meter);
    push_own(names, place, &row, step, found)?;
    push_rows(
        names,
        reader,
        place + row.asize,
        place + row.size,
        step,
        found,
        meter,
    )
}

/// The places of the descendants of nodes that pass, and of the nodes themselves where the axis has them. All rows below each node are
/// gone through in one loop.
pub(crate) fn below_each(
    alloc: Global,
    names: &NamePool,
    reader: &mut RowReader<'_>,
    places: &[u32],
    step: &Step<'_>,
    meter: &mut Meter,
) -> Result<Vec<u32>, NoMemory>
    requires standing { IsStanding names.now reader.old }
    requires within { All (λ place. place < length reader.old) places.now }
    requires axis { (step.now.axis ≡ Descendant) ⊎ (step.now.axis ≡ DescendantOrSelf) }
    ensures reached { IfOk result (λ found. HasReached names.now reader.old step.now places.now found.items) }
    ensures rows { reader.new ≡ reader.old }
    ensures meter { HasRead meter.old meter.new }
{
    let mut found = Vec::new(alloc);
    for place in places {
        push_below(names, reader, *place, step, &mut found, meter)?;
    }
    Ok(found)
}

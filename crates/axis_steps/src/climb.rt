// The ancestors of many nodes.
ghost use Rattle.std.specs.Prelude.{◌≡◌, ◌⊎◌, ◌<◌, length, IfOk, OnOk};
ghost use Rattle.std.specs.Bool.{Decides};
ghost use Rattle.tree_model.specs.declared.axis.Axis.TheVariants.{AncestorOrSelf};
ghost use Rattle.std.specs.List.{All};
ghost use Rattle.frame_pool.specs.Meters.{HasRead};
ghost use Rattle.axis_steps.specs.Steps.{IsStanding, HasAncestors, HasClimbed, HasSelf};

use crate::trees::Step;
use axis_cursor::{passes, row_at};
use frame_pool::Meter;
use name_pool::NamePool;
use node_table::RowReader;
use std::alloc::Global;
use tree_model::{Axis, NoMemory};

// Appends the ancestors of a node that pass, upwards; those that stand before `last` are left out.
fn push_above(
    names: &NamePool,
    reader: &mut RowReader<'_>,
    place: u32,
    last: u32,
    step: &Step<'_>,
    found: &mut Vec<u32>,
    meter: &mut Meter,
) -> Result<(), NoMemory>
    requires standing { IsStanding names.now reader.old }
    requires within { place < length reader.old }
    ensures climbed { OnOk result (HasClimbed names.now reader.old step.now place last found.old.items found.new.items) }
    ensures rows { reader.new ≡ reader.old }
    ensures meter { HasRead meter.old meter.new }
{
    let mut at = place;
    let mut row = row_at(reader, place, meter);
    while row.dist != 0 && at - row.dist >= last {
        at -= row.dist;
        row = row_at(reader, at, meter);
        if passes(names, step.axis, step.test, &row) {
            found.push(at)?;
        }
    }
    Ok(())
}

// Whether the axis has the node itself.
fn has_self(axis: Axis) -> bool
    ensures { Decides result (axis ≡ AncestorOrSelf) }
{
    match axis {
        Axis::AncestorOrSelf => true,
        _ => false,
    }
}

// From where on the ancestors of a node aren't known yet: those before the node before it are its ancestors, too.
fn unknown_from(last: u32, place: u32) -> u32
    ensures { ((last < place) × (result ≡ last)) ⊎ (result ≡ 0) }
{
    if last < place { last } else { 0 }
}

// Appends the node itself, where the axis has it and it passes.
fn push_self(
    names: &NamePool,
    reader: &mut RowReader<'_>,
    place: u32,
    step: &Step<'_>,
    found: &mut Vec<u32>,
    meter: &mut Meter,
) -> Result<(), NoMemory>
    requires standing { IsStanding names.now reader.old }
    requires within { place < length reader.old }
    ensures own { OnOk result (HasSelf names.now reader.old step.now place found.old.items found.new.items) }
    ensures rows { reader.new ≡ reader.old }
    ensures meter { HasRead meter.old meter.new }
{
    if has_self(step.axis) && passes(names, step.axis, step.test, &row_at(reader, place, meter)) {
        found.push(place)?;
    }
    Ok(())
}

/// The places of the ancestors of nodes that pass, with the nodes themselves where the axis has them. Where the nodes stand in
/// document order each ancestor is reached a few times at the most: above a node before this one all of its ancestors are known.
pub(crate) fn climb_each(
    alloc: Global,
    names: &NamePool,
    reader: &mut RowReader<'_>,
    places: &[u32],
    step: &Step<'_>,
    meter: &mut Meter,
) -> Result<Vec<u32>, NoMemory>
    requires standing { IsStanding names.now reader.old }
    requires within { All (λ place. place < length reader.old) places.now }
    ensures ancestors { IfOk result (λ found. HasAncestors names.now reader.old step.now places.now found.items) }
    ensures rows { reader.new ≡ reader.old }
    ensures meter { HasRead meter.old meter.new }
{
    let mut found = Vec::new(alloc);
    let mut last = 0;
    for place in places {
        push_self(names, reader, *place, step, &mut found, meter)?;
        push_above(
            names,
            reader,
            *place,
            unknown_from(last, *place),
            step,
            &mut found,
            meter,
        )?;
        last = *place;
    }
    Ok(found)
}

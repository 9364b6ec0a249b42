// One axis after the other.
ghost use Rattle.std.specs.Prelude.{◌≡◌, ◌<◌, ◌++◌, ℕ, List, length, IfOk, OnOk};
ghost use Rattle.std.specs.List.{All, flat_map};
ghost use Rattle.frame_pool.specs.Meters.{HasRead};
ghost use Rattle.node_table.specs.Tables.{IsIn};
ghost use Rattle.node_table.specs.Views.{view_of, KeepsTrees};
ghost use Rattle.axis_steps.specs.Steps.{rows_of, axis_list};

use crate::trees::{Step, Trees};
use axis_cursor::Cursor;
use frame_pool::Meter;
use std::alloc::Global;
use tree_model::NoMemory;

// Appends the places of the nodes on the axis of one node that pass, in the axis's own order.
fn push_axis(
    trees: &Trees<'_>,
    place: u32,
    step: &Step<'_>,
    found: &mut Vec<u32>,
    meter: &mut Meter,
) -> Result<(), NoMemory>
    requires held { IsIn trees.now.pool.now trees.now.table.now }
    requires trees { (values : List ℕ) × KeepsTrees (view_of (rows_of trees.now) trees.now.names.now values) }
    requires within { place < length (rows_of trees.now) }
    ensures list { OnOk result (found.new.items ≡ found.old.items ++ axis_list trees.now.names.now (rows_of trees.now) step.now place) }
    ensures meter { HasRead meter.old meter.new }
{
    let mut cursor = Cursor::new(
        trees.table,
        trees.pool,
        trees.names,
        place,
        step.axis,
        step.test,
    );
    while let Some(next) = cursor.next(meter) {
        found.push(next)?;
    }
    Ok(())
}

/// The places of the nodes on the axes of nodes that pass, axis by axis.
pub(crate) fn walk_each(
    alloc: Global,
    trees: &Trees<'_>,
    places: &[u32],
    step: &Step<'_>,
    meter: &mut Meter,
) -> Result<Vec<u32>, NoMemory>
    requires held { IsIn trees.now.pool.now trees.now.table.now }
    requires trees { (values : List ℕ) × KeepsTrees (view_of (rows_of trees.now) trees.now.names.now values) }
    requires within { All (λ place. place < length (rows_of trees.now)) places.now }
    ensures list { IfOk result (λ found. found.items ≡ flat_map (axis_list trees.now.names.now (rows_of trees.now) step.now) places.now) }
    ensures meter { HasRead meter.old meter.new }
{
    let mut found = Vec::new(alloc);
    for place in places {
        push_axis(trees, *place, step, &mut found, meter)?;
    }
    Ok(found)
}

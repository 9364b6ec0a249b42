// Steps from many nodes, one after the other.
ghost use Rattle.std.specs.Prelude.{◌≡◌, ◌⊎◌, ◌<◌, ℕ, List, length, IfOk, IfSome, IsTrue};
ghost use Rattle.std.specs.List.{All};
ghost use Rattle.frame_pool.specs.Meters.{HasRead};
ghost use Rattle.node_table.specs.Laid.{IsLaid};
ghost use Rattle.node_table.specs.Tables.{IsIn};
ghost use Rattle.node_table.specs.Views.{view_of, view_forest, KeepsTrees};
ghost use Rattle.axis_cursor.specs.Trees.{step_places};
ghost use Rattle.axis_steps.specs.Steps.{rows_of, HasReached, Keeps, IsFirstStep, path_places};
ghost use Rattle.tree_model.specs.declared.axis.Axis.TheVariants.{Descendant, DescendantOrSelf, Ancestor, AncestorOrSelf};
ghost use Rattle.tree_model.specs.declared.axis.Test.TheVariants.{Node};

use crate::below::below_each;
use crate::climb::climb_each;
use crate::keep::{keep_first_ended, keep_last, keep_outermost};
use crate::order::in_document_order;
use crate::siblings::{keep_first_children, keep_last_children};
use crate::trees::{Step, Trees};
use crate::walk::walk_each;
use frame_pool::Meter;
use node_table::RowReader;
use std::alloc::Global;
use tree_model::{Axis, AxisStep, NoMemory, Test};

// Those of the nodes whose axes are walked, where not all are.
fn keep(
    alloc: Global,
    reader: &mut RowReader<'_>,
    places: &[u32],
    axis: Axis,
    meter: &mut Meter,
) -> Result<Option<Vec<u32>>, NoMemory>
    requires laid { IsLaid reader.old }
    requires within { All (λ place. place < length reader.old) places.now }
    ensures keeps { IfOk result (λ kept. IfSome kept (λ some. Keeps reader.old axis places.now some.items)) }
    ensures rows { reader.new ≡ reader.old }
    ensures meter { HasRead meter.old meter.new }
{
    match axis {
        Axis::FollowingSibling => Ok(Some(keep_first_children(alloc, reader, places, meter)?)),
        Axis::PrecedingSibling => Ok(Some(keep_last_children(alloc, reader, places, meter)?)),
        Axis::Following => Ok(Some(keep_first_ended(alloc, reader, places, meter)?)),
        Axis::Preceding => Ok(Some(keep_last(alloc, reader, places, meter)?)),
        _ => Ok(None),
    }
}

// Whether an axis leads to ancestors.
fn is_upwards(axis: Axis) -> bool
    ensures { IsTrue result → (axis ≡ Ancestor) ⊎ (axis ≡ AncestorOrSelf) }
{
    match axis {
        Axis::Ancestor | Axis::AncestorOrSelf => true,
        _ => false,
    }
}

// Whether an axis leads to descendants.
fn is_downwards(axis: Axis) -> bool
    ensures { IsTrue result → (axis ≡ Descendant) ⊎ (axis ≡ DescendantOrSelf) }
{
    match axis {
        Axis::Descendant | Axis::DescendantOrSelf => true,
        _ => false,
    }
}

// The places that a step leads to, in any order and with repeats.
fn reached(
    alloc: Global,
    trees: &Trees<'_>,
    places: &[u32],
    step: &Step<'_>,
    meter: &mut Meter,
) -> Result<Vec<u32>, NoMemory>
    requires held { IsIn trees.now.pool.now trees.now.table.now }
    requires trees { (values : List ℕ) × KeepsTrees (view_of (rows_of trees.now) trees.now.names.now values) }
    requires within { All (λ place. place < length (rows_of trees.now)) places.now }
    ensures reached { IfOk result (λ found. HasReached trees.now.names.now (rows_of trees.now) step.now places.now found.items) }
    ensures meter { HasRead meter.old meter.new }
{
    let mut reader = trees.table.reader(trees.pool);
    if is_upwards(step.axis) {
        return Ok(climb_each(alloc, trees.names, &mut reader, places, step, meter)?);
    }
    if is_downwards(step.axis) {
        let kept = keep_outermost(alloc, &mut reader, places, meter)?;
        return Ok(below_each(alloc, trees.names, &mut reader, &kept, step, meter)?);
    }
    match keep(alloc, &mut reader, places, step.axis, meter)? {
        None => Ok(walk_each(alloc, trees, places, step, meter)?),
        Some(kept) => Ok(walk_each(alloc, trees, &kept, step, meter)?),
    }
}

/// The nodes that a step leads to from nodes, by their pre numbers in document order, each once. Where the given ones stand in document
/// order, which isn't asked for, the work is in proportion to them and to the nodes on their axes, each counted once; what is found is sorted only
/// where it doesn't rise already.
pub fn step(
    alloc: Global,
    trees: &Trees<'_>,
    places: &[u32],
    axis: Axis,
    test: &Test,
    meter: &mut Meter,
) -> Result<Vec<u32>, NoMemory>
    requires held { IsIn trees.now.pool.now trees.now.table.now }
    requires trees { (values : List ℕ) × KeepsTrees (view_of (rows_of trees.now) trees.now.names.now values) }
    requires within { All (λ place. place < length (rows_of trees.now)) places.now }
    ensures step { IfOk result (λ found. (values : List ℕ) → KeepsTrees (view_of (rows_of trees.now) trees.now.names.now values)
        → found.items ≡ step_places (view_forest (view_of (rows_of trees.now) trees.now.names.now values)) axis test.now places.now) }
    ensures within { IfOk result (λ found. All (λ place. place < length (rows_of trees.now)) found.items) }
    ensures meter { HasRead meter.old meter.new }
{
    let mut found = reached(alloc, trees, places, &Step { axis, test }, meter)?;
    in_document_order(&mut found, trees.table.len());
    Ok(found)
}

// The first step, with a step to all nodes below before it taken together with one to children; and the steps behind.
fn first_step(steps: &[AxisStep]) -> Option<(Step<'_>, &[AxisStep])>
    ensures { IsFirstStep steps.now result }
{
    match steps {
        [] => None,
        [all, child, rest @ ..] if is_to_all(all) && child.axis == Axis::Child => {
            let step = Step {
                axis: Axis::Descendant,
                test: &child.test,
            };
            Some((step, rest))
        }
        [first, rest @ ..] => {
            let step = Step {
                axis: first.axis,
                test: &first.test,
            };
            Some((step, rest))
        }
    }
}

// Whether a step leads to the node itself and to all nodes below, as `//` does.
fn is_to_all(step: &AxisStep) -> bool
    ensures { IsTrue result → (step.now.axis ≡ DescendantOrSelf) × (step.now.test ≡ Node) }
{
    step.axis == Axis::DescendantOrSelf && step.test == Test::Node
}

/// The nodes that steps lead to from nodes, by their pre numbers. The last step's are in document order, each once.
pub fn path(
    alloc: Global,
    trees: &Trees<'_>,
    places: Vec<u32>,
    steps: &[AxisStep],
    meter: &mut Meter,
) -> Result<Vec<u32>, NoMemory>
    requires held { IsIn trees.now.pool.now trees.now.table.now }
    requires trees { (values : List ℕ) × KeepsTrees (view_of (rows_of trees.now) trees.now.names.now values) }
    requires within { All (λ place. place < length (rows_of trees.now)) places.items }
    ensures path { IfOk result (λ found. (values : List ℕ) → KeepsTrees (view_of (rows_of trees.now) trees.now.names.now values)
        → found.items ≡ path_places (view_forest (view_of (rows_of trees.now) trees.now.names.now values)) steps.now places.items) }
    ensures meter { HasRead meter.old meter.new }
{
    let mut places = places;
    let mut rest = steps;
    while let Some((first, more)) = first_step(rest) {
        places = step(alloc, trees, &places, first.axis, first.test, meter)?;
        rest = more;
    }
    Ok(places)
}

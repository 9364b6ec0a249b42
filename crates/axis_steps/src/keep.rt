// Of many nodes some whose axes have all that the axes of all of them have. Where the nodes stand in document order, no node is reached
// from more than a few of these.
ghost use Rattle.std.specs.Prelude.{◌≡◌, ◌<◌, ◌≤◌, ◌∷◌, ◌++◌, [], ℕ, List, Some, length, IfOk, OnOk};
ghost use Rattle.std.specs.Bool.{Decides};
ghost use Rattle.std.specs.List.{All};
ghost use Rattle.tree_model.specs.declared.axis.Axis.TheVariants.{Descendant, DescendantOrSelf, Following, Preceding};
ghost use Rattle.node_table.specs.Laid.{IsLaid, is_attribute};
ghost use Rattle.frame_pool.specs.Meters.{HasRead};
ghost use Rattle.axis_steps.specs.Keeping.{IsOpen, IsEnded, IsLatest, ended_places, latest_places, KeepsOn};
ghost use Rattle.axis_steps.specs.Steps.{Keeps, IsTreeEnd};

use axis_cursor::row_at;
use frame_pool::Meter;
use node_table::RowReader;
use std::alloc::Global;
use tree_model::{Kind, NoMemory, Row};

pub(crate) fn is_attribute(row: &Row) -> bool
    ensures { result ≡ is_attribute row.now.kind }
{
    matches!(row.kind, Kind::Attr)
}

fn is_between(place: u32, start: u32, end: u32) -> bool
    ensures { Decides result ((start < place) × (place < end)) }
{
    start < place && place < end
}

// Nodes that are kept, and the subtree of the one that was kept last but for attributes in it.
#[derive(Drop)]
struct Outermost {
    kept: Vec<u32>,
    start: u32,
    end: u32,
}

// Keeps a node, unless it stands in that subtree and is no attribute.
fn keep_unless_inside(
    reader: &mut RowReader<'_>,
    place: u32,
    nodes: &mut Outermost,
    meter: &mut Meter,
) -> Result<(), NoMemory>
    requires laid { IsLaid reader.old }
    requires within { place < length reader.old }
    requires open { IsOpen reader.old nodes.old.kept.items nodes.old.start nodes.old.end }
    ensures open { OnOk result (IsOpen reader.old nodes.new.kept.items nodes.new.start nodes.new.end) }
    ensures below { OnOk result (KeepsOn reader.old Descendant place nodes.old.kept.items nodes.new.kept.items) }
    ensures or_self { OnOk result (KeepsOn reader.old DescendantOrSelf place nodes.old.kept.items nodes.new.kept.items) }
    ensures rows { reader.new ≡ reader.old }
    ensures meter { HasRead meter.old meter.new }
{
    let row = row_at(reader, place, meter);
    if !is_between(place, nodes.start, nodes.end) {
        nodes.kept.push(place)?;
        nodes.start = place;
        nodes.end = place + row.size;
        return Ok(());
    }
    if is_attribute(&row) {
        nodes.kept.push(place)?;
    }
    Ok(())
}

/// For descendants: without the nodes inside the one kept before, but for attributes.
pub(crate) fn keep_outermost(
    alloc: Global,
    reader: &mut RowReader<'_>,
    places: &[u32],
    meter: &mut Meter,
) -> Result<Vec<u32>, NoMemory>
    requires laid { IsLaid reader.old }
    requires within { All (λ place. place < length reader.old) places.now }
    ensures below { IfOk result (λ kept. Keeps reader.old Descendant places.now kept.items) }
    ensures or_self { IfOk result (λ kept. Keeps reader.old DescendantOrSelf places.now kept.items) }
    ensures rows { reader.new ≡ reader.old }
    ensures meter { HasRead meter.old meter.new }
{
    let mut nodes = Outermost {
        kept: Vec::new(alloc),
        start: 0,
        end: 0,
    };
    for place in places {
        keep_unless_inside(reader, *place, &mut nodes, meter)?;
    }
    Ok(nodes.kept)
}

// The place behind the tree in which a node stands.
fn end_of_tree(reader: &mut RowReader<'_>, place: u32, meter: &mut Meter) -> u32
    requires laid { IsLaid reader.old }
    requires within { place < length reader.old }
    ensures end { IsTreeEnd reader.old place result }
    ensures rows { reader.new ≡ reader.old }
    ensures meter { HasRead meter.old meter.new }
{
    let mut at = place;
    let mut row = row_at(reader, place, meter);
    while row.dist != 0 {
        at -= row.dist;
        row = row_at(reader, at, meter);
    }
    at + row.size
}

// A node whose subtree ends first of those of its tree: where it ends, and where the tree does.
#[derive(Clone, Copy)]
struct Ended {
    start: u32,
    end: u32,
    tree_end: u32,
}

// Keeps the subtree that ends first, or puts another in its place: one inside it ends before it, one behind it in its tree after it.
fn keep_first_end(
    reader: &mut RowReader<'_>,
    place: u32,
    last: Option<Ended>,
    kept: &mut Vec<u32>,
    meter: &mut Meter,
) -> Result<Ended, NoMemory>
    requires laid { IsLaid reader.old }
    requires within { place < length reader.old }
    requires last { IsEnded reader.old last }
    ensures last { IfOk result (λ new. IsEnded reader.old (Some new)) }
    ensures keeps { IfOk result (λ new. KeepsOn reader.old Following place (ended_places last kept.old.items) (ended_places (Some new) kept.new.items)) }
    ensures rows { reader.new ≡ reader.old }
    ensures meter { HasRead meter.old meter.new }
{
    let end = place + row_at(reader, place, meter).size;
    let Some(last) = last else {
        let tree_end = end_of_tree(reader, place, meter);
        return Ok(Ended {
            start: place,
            end,
            tree_end,
        });
    };
    if is_between(place, last.start, last.end) {
        return Ok(Ended {
            start: place,
            end,
            tree_end: last.tree_end,
        });
    }
    if last.end <= place && place < last.tree_end {
        return Ok(last);
    }
    kept.push(last.start)?;
    let tree_end = end_of_tree(reader, place, meter);
    Ok(Ended {
        start: place,
        end,
        tree_end,
    })
}

/// For what follows: of each tree the node whose subtree ends first.
pub(crate) fn keep_first_ended(
    alloc: Global,
    reader: &mut RowReader<'_>,
    places: &[u32],
    meter: &mut Meter,
) -> Result<Vec<u32>, NoMemory>
    requires laid { IsLaid reader.old }
    requires within { All (λ place. place < length reader.old) places.now }
    ensures kept { IfOk result (λ kept. Keeps reader.old Following places.now kept.items) }
    ensures rows { reader.new ≡ reader.old }
    ensures meter { HasRead meter.old meter.new }
{
    let mut kept = Vec::new(alloc);
    let mut last = None;
    for place in places {
        last = Some(keep_first_end(reader, *place, last, &mut kept, meter)?);
    }
    match last {
        None => Ok(kept),
        Some(last) => {
            kept.push(last.start)?;
            Ok(kept)
        }
    }
}

// The last node of a tree so far, and where the tree ends.
#[derive(Clone, Copy)]
struct Latest {
    place: u32,
    tree_end: u32,
}

// Keeps the last node, or puts one in its place that stands further on in its tree.
fn keep_latest(
    reader: &mut RowReader<'_>,
    place: u32,
    last: Option<Latest>,
    kept: &mut Vec<u32>,
    meter: &mut Meter,
) -> Result<Latest, NoMemory>
    requires laid { IsLaid reader.old }
    requires within { place < length reader.old }
    requires last { IsLatest reader.old last }
    ensures last { IfOk result (λ new. IsLatest reader.old (Some new)) }
    ensures keeps { IfOk result (λ new. KeepsOn reader.old Preceding place (latest_places last kept.old.items) (latest_places (Some new) kept.new.items)) }
    ensures rows { reader.new ≡ reader.old }
    ensures meter { HasRead meter.old meter.new }
{
    let Some(last) = last else {
        let tree_end = end_of_tree(reader, place, meter);
        return Ok(Latest { place, tree_end });
    };
    if is_between(place, last.place, last.tree_end) {
        return Ok(Latest {
            place,
            tree_end: last.tree_end,
        });
    }
    kept.push(last.place)?;
    let tree_end = end_of_tree(reader, place, meter);
    Ok(Latest { place, tree_end })
}

/// For what precedes: of each tree the last node.
pub(crate) fn keep_last(
    alloc: Global,
    reader: &mut RowReader<'_>,
    places: &[u32],
    meter: &mut Meter,
) -> Result<Vec<u32>, NoMemory>
    requires laid { IsLaid reader.old }
    requires within { All (λ place. place < length reader.old) places.now }
    ensures kept { IfOk result (λ kept. Keeps reader.old Preceding places.now kept.items) }
    ensures rows { reader.new ≡ reader.old }
    ensures meter { HasRead meter.old meter.new }
{
    let mut kept = Vec::new(alloc);
    let mut last = None;
    for place in places {
        last = Some(keep_latest(reader, *place, last, &mut kept, meter)?);
    }
    match last {
        None => Ok(kept),
        Some(last) => {
            kept.push(last.place)?;
            Ok(kept)
        }
    }
}

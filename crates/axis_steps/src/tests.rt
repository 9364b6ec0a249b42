ghost use Rattle.std.specs.Prelude.{◌≡◌, ◌<◌, ◌≤◌, ◌^◌, List, [], length, IfOk, IsTrue};
ghost use Rattle.std.specs.List.{All};
ghost use Rattle.node_table.specs.Tables.{rows_in, IsIn};
ghost use Rattle.node_table.specs.Views.{view_of, KeepsTrees};
ghost use Rattle.axis_steps.specs.Steps.{rows_of};
ghost use Rattle.tree_model.specs.declared.text.Name.{Name};

use super::*;
use frame_pool::{Meter, Pool};
use name_pool::NamePool;
use node_table::NodeTable;
use std::alloc::Global;
use std::process::Abort;
use std::test::Fail;
use tree_model::{Axis, AxisStep, Kind, NoMemory, Row, Test, Text, ValueRef};

const LEAF: Row = Row {
    kind: Kind::Elem,
    name: 3,
    dist: 1,
    size: 1,
    asize: 1,
    id: 0,
    val: ValueRef { at: 0, len: 0 },
};

// Two documents. The first has an instruction, an element `a` and a comment. In `a`, which has the attributes `x` and `y`, stand
// an element `b` with an attribute `x` and an element `b` in it, a text and another `b`. The second document has an element `b`
// with an attribute `x` and a text, and a comment.
const ROWS: [Row; 16] = [
    Row {
        kind: Kind::Doc,
        name: 0,
        dist: 0,
        size: 11,
        ..LEAF
    },
    Row {
        kind: Kind::Pi,
        name: 5,
        ..LEAF
    },
    Row {
        name: 1,
        dist: 2,
        size: 8,
        asize: 3,
        ..LEAF
    },
    Row {
        kind: Kind::Attr,
        name: 2,
        ..LEAF
    },
    Row {
        kind: Kind::Attr,
        name: 4,
        dist: 2,
        ..LEAF
    },
    Row {
        dist: 3,
        size: 3,
        asize: 2,
        ..LEAF
    },
    Row {
        kind: Kind::Attr,
        name: 2,
        ..LEAF
    },
    Row { dist: 2, ..LEAF },
    Row {
        kind: Kind::Text,
        name: 0,
        dist: 6,
        ..LEAF
    },
    Row { dist: 7, ..LEAF },
    Row {
        kind: Kind::Comm,
        name: 0,
        dist: 10,
        ..LEAF
    },
    Row {
        kind: Kind::Doc,
        name: 0,
        dist: 0,
        size: 5,
        ..LEAF
    },
    Row {
        size: 3,
        asize: 2,
        ..LEAF
    },
    Row {
        kind: Kind::Attr,
        name: 2,
        ..LEAF
    },
    Row {
        kind: Kind::Text,
        name: 0,
        dist: 2,
        ..LEAF
    },
    Row {
        kind: Kind::Comm,
        name: 0,
        dist: 4,
        ..LEAF
    },
];

fn names(alloc: Global) -> Result<NamePool, Fail>
    ensures { IfOk result (λ names. length names ≡ 6) }
{
    let mut names = NamePool::new(alloc);
    for local in ["", "a", "x", "b", "y", "go"] {
        names.intern_parts("", "", local)?;
    }
    if names.len() != 6 {
        return Err(Fail::from("other names"));
    }
    Ok(names)
}

// A table of these rows.
fn table(alloc: Global, pool: &mut Pool<Row>, rows: &[Row]) -> Result<NodeTable, NoMemory>
    requires { length rows.now ≤ 2 ^ 24 }
    ensures rows { IfOk result (λ table. rows_in pool.new table ≡ rows.now) }
    ensures held { IfOk result (λ table. IsIn pool.new table) }
{
    let mut table = NodeTable::new(alloc);
    table.insert_documents(pool, 0, rows.to_vec(alloc)?)?;
    Ok(table)
}

// The two documents.
fn documents(alloc: Global, pool: &mut Pool<Row>) -> Result<NodeTable, NoMemory>
    ensures held { IfOk result (λ table. IsIn pool.new table) }
    ensures trees { IfOk result (λ table. (names : List Name) → length names ≡ 6 → KeepsTrees (view_of (rows_in pool.new table) names [])) }
    ensures len { IfOk result (λ table. length (rows_in pool.new table) ≡ 16) }
{
    let table = table(alloc, pool, &ROWS)?;
    Ok(table)
}

fn are_below(places: &[u32], len: u32) -> bool
    ensures { IsTrue result → All (λ place. place < len) places.now }
{
    places.iter().all(|place| *place < len)
}

// The same two documents by the parent of each node, and which nodes are attributes.
const PARENTS: [Option<u32>; 16] = [
    None,
    Some(0),
    Some(0),
    Some(2),
    Some(2),
    Some(2),
    Some(5),
    Some(5),
    Some(2),
    Some(2),
    Some(0),
    None,
    Some(11),
    Some(12),
    Some(12),
    Some(11),
];

fn parent(place: u32) -> Option<u32> {
    match PARENTS.get(place as usize) {
        Some(parent) => *parent,
        None => None,
    }
}

fn is_attribute(place: u32) -> bool {
    matches!(place, 3 | 4 | 6 | 13)
}

fn is_above(above: u32, place: u32) -> bool {
    let mut here = place;
    for _ in 0..16 {
        match parent(here) {
            Some(up) if up == above => return true,
            Some(up) => here = up,
            None => return false,
        }
    }
    false
}

fn are_together(a: u32, b: u32) -> bool {
    (a < 11) == (b < 11)
}

fn are_siblings(a: u32, b: u32) -> bool {
    parent(a).is_some() && parent(a) == parent(b) && !is_attribute(a) && !is_attribute(b)
}

fn is_below(context: u32, place: u32) -> bool {
    is_above(context, place) && !is_attribute(place)
}

// Whether a place is on an axis, as the axes are defined (XPath 2.0, section 3.2.1.1).
fn is_on(axis: Axis, context: u32, place: u32) -> bool {
    match axis {
        Axis::Child => parent(place) == Some(context) && !is_attribute(place),
        Axis::Descendant => is_below(context, place),
        Axis::Attribute => parent(place) == Some(context) && is_attribute(place),
        Axis::Slf => place == context,
        Axis::DescendantOrSelf => place == context || is_below(context, place),
        Axis::FollowingSibling => context < place && are_siblings(context, place),
        Axis::Following => {
            context < place
                && are_together(context, place)
                && !is_above(context, place)
                && !is_attribute(place)
        }
        Axis::Parent => parent(context) == Some(place),
        Axis::Ancestor => is_above(place, context),
        Axis::PrecedingSibling => place < context && are_siblings(place, context),
        Axis::Preceding => {
            place < context
                && are_together(context, place)
                && !is_above(place, context)
                && !is_attribute(place)
        }
        Axis::AncestorOrSelf => place == context || is_above(place, context),
    }
}

// The places that are on the axis of one of the nodes, in document order.
fn wanted(alloc: Global, places: &[u32], axis: Axis) -> Result<Vec<u32>, NoMemory> {
    let mut found = Vec::new(alloc);
    for place in 0..16 {
        if places.iter().any(|context| is_on(axis, *context, place)) {
            found.push(place)?;
        }
    }
    Ok(found)
}

const AXES: [Axis; 12] = [
    Axis::Child,
    Axis::Descendant,
    Axis::Attribute,
    Axis::Slf,
    Axis::DescendantOrSelf,
    Axis::FollowingSibling,
    Axis::Following,
    Axis::Parent,
    Axis::Ancestor,
    Axis::PrecedingSibling,
    Axis::Preceding,
    Axis::AncestorOrSelf,
];

// Every axis leads from these nodes to what it should.
fn check_axes(rt: &impl Abort, alloc: Global, trees: &Trees<'_>, places: &[u32]) -> Result<(), Fail>
    requires held { IsIn trees.now.pool.now trees.now.table.now }
    requires trees { KeepsTrees (view_of (rows_of trees.now) trees.now.names.now []) }
    requires len { length (rows_of trees.now) ≡ 16 }
{
    if !are_below(places, 16) {
        return Err(Fail::from("no such place"));
    }
    for axis in AXES {
        let found = step(alloc, trees, places, axis, &Test::Node, &mut Meter::new())?;
        let others = wanted(alloc, places, axis)?;
        assert_eq!(rt;
            found.as_slice(),
            others.as_slice(),
            "{axis:?} of {places:?}"
        );
    }
    Ok(())
}

// As many places as are asked for: the digits of a number to the base 16.
fn digits(alloc: Global, number: u32, len: u32) -> Result<Vec<u32>, NoMemory> {
    let mut places = Vec::new(alloc);
    let mut rest = number;
    for _ in 0..len {
        places.push(rest % 16)?;
        rest /= 16;
    }
    Ok(places)
}

// Every axis from lists of so many nodes, of which there are `count`, also out of order and with repeats: from one in `apart` of them.
fn check_lists(
    rt: &impl Abort,
    alloc: Global,
    len: u32,
    count: u32,
    apart: usize,
) -> Result<(), Fail>
    requires { 0 < apart }
{
    let names = names(alloc)?;
    let mut pool = Pool::new(alloc);
    let table = documents(alloc, &mut pool)?;
    let trees = Trees {
        table: &table,
        pool: &pool,
        names: &names,
    };
    for number in (0..count).step_by(apart) {
        check_axes(rt, alloc, &trees, &digits(alloc, number, len)?)?;
    }
    Ok(())
}

#[test]
fn every_axis_from_up_to_three_nodes(rt: HostRuntime) -> Result<(), Fail> {
    check_lists(&rt, rt.alloc(), 0, 1, 1)?;
    check_lists(&rt, rt.alloc(), 1, 16, 1)?;
    check_lists(&rt, rt.alloc(), 2, 256, 1)?;
    check_lists(&rt, rt.alloc(), 3, 4096, 7)
}

#[test]
fn every_axis_from_many_nodes(rt: HostRuntime) -> Result<(), Fail> {
    let names = names(rt.alloc())?;
    let mut pool = Pool::new(rt.alloc());
    let table = documents(rt.alloc(), &mut pool)?;
    let trees = Trees {
        table: &table,
        pool: &pool,
        names: &names,
    };
    let all = [0, 1, 2, 3, 4, 5, 6, 7, 8, 9, 10, 11, 12, 13, 14, 15];
    check_axes(&rt, rt.alloc(), &trees, &all)?;
    check_axes(&rt, rt.alloc(), &trees, &[3, 4, 6, 13])?;
    check_axes(&rt, rt.alloc(), &trees, &[1, 5, 7, 8, 9, 10, 14, 15])?;
    check_axes(&rt, rt.alloc(), &trees, &[14, 9, 2, 7, 2, 11, 5, 0])
}

// A name test: of elements, or of attributes on their axis.
fn named(alloc: Global, local: &str) -> Result<Test, NoMemory> {
    Ok(Test::Principal {
        uri: Some(Text::of(alloc, "")?),
        local: Some(Text::of(alloc, local)?),
    })
}

const ANY: Test = Test::Principal {
    uri: None,
    local: None,
};

// `//b`, or `//` and another step.
fn below(alloc: Global, axis: Axis, test: Test) -> Result<Vec<AxisStep>, NoMemory> {
    let mut steps = Vec::new(alloc);
    steps.push(AxisStep {
        axis: Axis::DescendantOrSelf,
        test: Test::Node,
    })?;
    steps.push(AxisStep { axis, test })?;
    Ok(steps)
}

// `//b` and a step behind it.
fn behind_each(alloc: Global, axis: Axis, test: Test) -> Result<Vec<AxisStep>, NoMemory> {
    let mut steps = below(alloc, Axis::Child, named(alloc, "b")?)?;
    steps.push(AxisStep { axis, test })?;
    Ok(steps)
}

// What steps lead to from both documents, the second one first.
fn path_from(alloc: Global, steps: &[AxisStep]) -> Result<Vec<u32>, Fail> {
    let names = names(alloc)?;
    let mut pool = Pool::new(alloc);
    let table = documents(alloc, &mut pool)?;
    let trees = Trees {
        table: &table,
        pool: &pool,
        names: &names,
    };
    let places = vec![in alloc; 11, 0]?;
    Ok(path(alloc, &trees, places, steps, &mut Meter::new())?)
}

#[test]
fn paths(rt: HostRuntime) -> Result<(), Fail> {
    assert_eq!(rt; path_from(rt.alloc(), &[])?.as_slice(), [11, 0].as_slice());
    let b = below(rt.alloc(), Axis::Child, named(rt.alloc(), "b")?)?;
    assert_eq!(rt;
        path_from(rt.alloc(), &b)?.as_slice(),
        [5, 7, 9, 12].as_slice()
    );
    let x = below(rt.alloc(), Axis::Attribute, named(rt.alloc(), "x")?)?;
    assert_eq!(rt;
        path_from(rt.alloc(), &x)?.as_slice(),
        [3, 6, 13].as_slice()
    );
    let above = behind_each(rt.alloc(), Axis::Ancestor, ANY)?;
    assert_eq!(rt;
        path_from(rt.alloc(), &above)?.as_slice(),
        [2, 5].as_slice()
    );
    let later = behind_each(rt.alloc(), Axis::Following, Test::Node)?;
    assert_eq!(rt;
        path_from(rt.alloc(), &later)?.as_slice(),
        [8, 9, 10, 15].as_slice()
    );
    Ok(())
}

// The rows of a document with a comment and an element `a`. Each `a` has an element `b` and another `a`, as often as `count` says;
// the last one has only a `b`.
fn nested(alloc: Global, count: u32) -> Result<Vec<Row>, NoMemory>
    requires { count ≤ 10000 }
    ensures trees { IfOk result (λ rows. (names : List Name) → length names ≡ 6 → KeepsTrees (view_of rows.items names [])) }
    ensures few { IfOk result (λ rows. length rows.items ≤ 2 ^ 24) }
    ensures some { IfOk result (λ rows. 0 < length rows.items) }
{
    let mut rows = Vec::new(alloc);
    rows.push(Row {
        kind: Kind::Doc,
        name: 0,
        dist: 0,
        size: 2 * count + 2,
        ..LEAF
    })?;
    rows.push(Row {
        kind: Kind::Comm,
        name: 0,
        ..LEAF
    })?;
    let mut left = count;
    while left > 0 {
        rows.push(Row {
            name: 1,
            dist: 2,
            size: 2 * left,
            ..LEAF
        })?;
        rows.push(LEAF)?;
        left -= 1;
    }
    Ok(rows)
}

// The rows of a document with an element `a`, which has `count` elements `b`, each with a `b` in it.
fn side_by_side(alloc: Global, count: u32) -> Result<Vec<Row>, NoMemory>
    requires { count ≤ 10000 }
    ensures trees { IfOk result (λ rows. (names : List Name) → length names ≡ 6 → KeepsTrees (view_of rows.items names [])) }
    ensures few { IfOk result (λ rows. length rows.items ≤ 2 ^ 24) }
    ensures some { IfOk result (λ rows. 0 < length rows.items) }
{
    let mut rows = Vec::new(alloc);
    rows.push(Row {
        kind: Kind::Doc,
        name: 0,
        dist: 0,
        size: 2 * count + 2,
        ..LEAF
    })?;
    rows.push(Row {
        name: 1,
        size: 2 * count + 1,
        ..LEAF
    })?;
    let mut left = count;
    while left > 0 {
        rows.push(Row {
            dist: 2 * (count - left) + 1,
            size: 2,
            ..LEAF
        })?;
        rows.push(LEAF)?;
        left -= 1;
    }
    Ok(rows)
}

// How many nodes steps lead to from a document. Each row is read a few times at the most.
fn count_of(rt: &impl Abort, alloc: Global, rows: &[Row], steps: &[AxisStep]) -> Result<usize, Fail>
    requires trees { (names : List Name) → length names ≡ 6 → KeepsTrees (view_of rows.now names []) }
    requires few { length rows.now ≤ 2 ^ 24 }
    requires some { 0 < length rows.now }
{
    let names = names(alloc)?;
    let mut pool = Pool::new(alloc);
    let table = table(alloc, &mut pool, rows)?;
    let trees = Trees {
        table: &table,
        pool: &pool,
        names: &names,
    };
    let mut meter = Meter::new();
    let found = path(alloc, &trees, vec![in alloc; 0]?, steps, &mut meter)?;
    let most = 8 * table.len() as u64;
    assert!(rt;
        meter.rows_read <= most,
        "{} rows read, {most} at most",
        meter.rows_read
    );
    Ok(found.len())
}

#[test]
fn nested_elements(rt: HostRuntime) -> Result<(), Fail> {
    let rows = nested(rt.alloc(), 5000)?;
    let mut in_a = below(rt.alloc(), Axis::Child, named(rt.alloc(), "a")?)?;
    let b = below(rt.alloc(), Axis::Child, named(rt.alloc(), "b")?)?;
    in_a.extend(b)?;
    assert_eq!(rt; count_of(&rt, rt.alloc(), &rows, &in_a)?, 5000);
    for (axis, count) in [
        (Axis::Ancestor, 5000),
        (Axis::FollowingSibling, 4999),
        (Axis::PrecedingSibling, 0),
        (Axis::Following, 9998),
        (Axis::Preceding, 4999),
    ] {
        let steps = behind_each(rt.alloc(), axis, ANY)?;
        assert_eq!(rt;
            count_of(&rt, rt.alloc(), &rows, &steps)?,
            count,
            "{axis:?}"
        );
    }
    Ok(())
}

#[test]
fn elements_side_by_side(rt: HostRuntime) -> Result<(), Fail> {
    let rows = side_by_side(rt.alloc(), 5000)?;
    for (axis, count) in [
        (Axis::Ancestor, 5001),
        (Axis::FollowingSibling, 4999),
        (Axis::PrecedingSibling, 4999),
        (Axis::Following, 9998),
        (Axis::Preceding, 9998),
    ] {
        let steps = behind_each(rt.alloc(), axis, ANY)?;
        assert_eq!(rt;
            count_of(&rt, rt.alloc(), &rows, &steps)?,
            count,
            "{axis:?}"
        );
    }
    Ok(())
}

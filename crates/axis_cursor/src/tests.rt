ghost use Rattle.std.specs.Prelude.{◌≡◌, ◌<◌, ◌≤◌, ◌^◌, length, IfOk};
ghost use Rattle.node_table.specs.Tables.{rows_in, IsIn};

use super::*;
use frame_pool::{Meter, Pool};
use name_pool::NamePool;
use node_table::NodeTable;
use std::alloc::Global;
use std::test::Fail;
use tree_model::{Axis, Kind, NoMemory, Row, Test, Text, ValueRef};

const LEAF: Row = Row {
    kind: Kind::Elem,
    name: 0,
    dist: 1,
    size: 1,
    asize: 1,
    id: 0,
    val: ValueRef { at: 0, len: 0 },
};

// Two documents. The first has an instruction, an element `a` and a comment. In `a`, which has the attributes `x` and `p:y`,
// stand a text, an element `b` with an attribute `x` and an element `b` in it, a comment and an element `p:c`. The second
// document has an element `q:c` with an attribute `x` and a text.
const ROWS: [Row; 16] = [
    Row {
        kind: Kind::Doc,
        dist: 0,
        size: 12,
        ..LEAF
    },
    Row {
        kind: Kind::Pi,
        name: 6,
        ..LEAF
    },
    Row {
        name: 1,
        dist: 2,
        size: 9,
        asize: 3,
        ..LEAF
    },
    Row {
        kind: Kind::Attr,
        name: 2,
        ..LEAF
    },
    Row {
        kind: Kind::Attr,
        name: 3,
        dist: 2,
        ..LEAF
    },
    Row {
        kind: Kind::Text,
        dist: 3,
        ..LEAF
    },
    Row {
        name: 4,
        dist: 4,
        size: 3,
        asize: 2,
        ..LEAF
    },
    Row {
        kind: Kind::Attr,
        name: 2,
        ..LEAF
    },
    Row {
        name: 4,
        dist: 2,
        ..LEAF
    },
    Row {
        kind: Kind::Comm,
        dist: 7,
        ..LEAF
    },
    Row {
        name: 5,
        dist: 8,
        ..LEAF
    },
    Row {
        kind: Kind::Comm,
        dist: 11,
        ..LEAF
    },
    Row {
        kind: Kind::Doc,
        dist: 0,
        size: 4,
        ..LEAF
    },
    Row {
        name: 7,
        size: 3,
        asize: 2,
        ..LEAF
    },
    Row {
        kind: Kind::Attr,
        name: 2,
        ..LEAF
    },
    Row {
        kind: Kind::Text,
        dist: 2,
        ..LEAF
    },
];

// An attribute, a text, an element with an attribute and a comment, and another attribute, each alone.
const ROOTS: [Row; 6] = [
    Row {
        kind: Kind::Attr,
        name: 2,
        dist: 0,
        ..LEAF
    },
    Row {
        kind: Kind::Text,
        dist: 0,
        ..LEAF
    },
    Row {
        name: 1,
        dist: 0,
        size: 3,
        asize: 2,
        ..LEAF
    },
    Row {
        kind: Kind::Attr,
        name: 2,
        ..LEAF
    },
    Row {
        kind: Kind::Comm,
        dist: 2,
        ..LEAF
    },
    Row {
        kind: Kind::Attr,
        name: 3,
        dist: 0,
        ..LEAF
    },
];

fn table_of(alloc: Global, pool: &mut Pool<Row>, rows: &[Row]) -> Result<NodeTable, NoMemory>
    requires { length rows.now ≤ 2 ^ 24 }
    ensures rows { IfOk result (λ table. rows_in pool.new table ≡ rows.now) }
    ensures held { IfOk result (λ table. IsIn pool.new table) }
{
    let mut table = NodeTable::new(alloc);
    table.insert_documents(pool, 0, rows.to_vec(alloc)?)?;
    Ok(table)
}

fn name_pool(alloc: Global) -> Result<NamePool, NoMemory> {
    let mut pool = NamePool::new(alloc);
    for (uri, prefix, local) in [
        ("", "", ""),
        ("", "", "a"),
        ("", "", "x"),
        ("u", "p", "y"),
        ("", "", "b"),
        ("u", "p", "c"),
        ("", "", "go"),
        ("u", "q", "c"),
    ] {
        pool.intern_parts(uri, prefix, local)?;
    }
    Ok(pool)
}

// What a cursor gives. It gives nothing more once it gave None.
fn walked(alloc: Global, cursor: Cursor<'_>) -> Result<Vec<u32>, Fail> {
    let mut cursor = cursor;
    let mut meter = Meter::new();
    let mut found = Vec::new(alloc);
    for _ in 0..20 {
        match cursor.next(&mut meter) {
            Some(place) => found.push(place)?,
            None => break,
        }
    }
    if cursor.next(&mut meter).is_some() || cursor.next(&mut meter).is_some() {
        return Err(Fail::from("a place behind the last"));
    }
    Ok(found)
}

fn given(rt: &HostRuntime, axis: Axis, context: u32, test: &Test) -> Result<Vec<u32>, Fail>
    requires { context < 16 }
{
    let mut pool = Pool::new(rt.alloc());
    let table = table_of(rt.alloc(), &mut pool, &ROWS)?;
    let names = name_pool(rt.alloc())?;
    if names.len() != 8 {
        return Err(Fail::from("other names"));
    }
    let cursor = Cursor::new(&table, &pool, &names, context, axis, test);
    walked(rt.alloc(), cursor)
}

fn given_of_roots(rt: &HostRuntime, axis: Axis, context: u32) -> Result<Vec<u32>, Fail>
    requires { context < 6 }
{
    let mut pool = Pool::new(rt.alloc());
    let table = table_of(rt.alloc(), &mut pool, &ROOTS)?;
    let names = name_pool(rt.alloc())?;
    if names.len() != 8 {
        return Err(Fail::from("other names"));
    }
    let cursor = Cursor::new(&table, &pool, &names, context, axis, &Test::Node);
    walked(rt.alloc(), cursor)
}

// The nodes of a table by the parent of each, and those of them that are attributes.
#[derive(Clone, Copy)]
struct Nodes<'n> {
    parents: &'n [Option<u32>],
    attributes: &'n [u32],
}

impl Nodes<'_> {
    fn parent(&self, place: u32) -> Option<u32> {
        match self.parents.get(place as usize) {
            Some(parent) => *parent,
            None => None,
        }
    }

    fn is_attribute(&self, place: u32) -> bool {
        self.attributes.contains(&place)
    }

    fn is_above(&self, above: u32, place: u32) -> bool {
        let mut here = place;
        for _ in 0..16 {
            match self.parent(here) {
                Some(up) if up == above => return true,
                Some(up) => here = up,
                None => return false,
            }
        }
        false
    }

    fn root(&self, place: u32) -> u32 {
        let mut here = place;
        for _ in 0..16 {
            match self.parent(here) {
                Some(up) => here = up,
                None => break,
            }
        }
        here
    }

    fn are_siblings(&self, a: u32, b: u32) -> bool {
        self.parent(a).is_some()
            && self.parent(a) == self.parent(b)
            && !self.is_attribute(a)
            && !self.is_attribute(b)
    }

    fn is_below(&self, context: u32, place: u32) -> bool {
        self.is_above(context, place) && !self.is_attribute(place)
    }

    fn is_apart(&self, a: u32, b: u32) -> bool {
        self.root(a) == self.root(b) && !self.is_above(a, b)
    }

    // Whether a place is on an axis, as the axes are defined (XPath 2.0, section 3.2.1.1).
    fn is_on(&self, axis: Axis, context: u32, place: u32) -> bool {
        match axis {
            Axis::Child => self.parent(place) == Some(context) && !self.is_attribute(place),
            Axis::Descendant => self.is_below(context, place),
            Axis::Attribute => self.parent(place) == Some(context) && self.is_attribute(place),
            Axis::Slf => place == context,
            Axis::DescendantOrSelf => place == context || self.is_below(context, place),
            Axis::FollowingSibling => context < place && self.are_siblings(context, place),
            Axis::Following => {
                context < place && self.is_apart(context, place) && !self.is_attribute(place)
            }
            Axis::Parent => self.parent(context) == Some(place),
            Axis::Ancestor => self.is_above(place, context),
            Axis::PrecedingSibling => place < context && self.are_siblings(place, context),
            Axis::Preceding => {
                place < context && self.is_apart(place, context) && !self.is_attribute(place)
            }
            Axis::AncestorOrSelf => place == context || self.is_above(place, context),
        }
    }

    // The places of an axis in its own order.
    fn wanted(&self, alloc: Global, axis: Axis, context: u32) -> Result<Vec<u32>, NoMemory> {
        let mut places = Vec::new(alloc);
        for place in 0..16 {
            if (place as usize) < self.parents.len() && self.is_on(axis, context, place) {
                places.push(place)?;
            }
        }
        if matches!(
            axis,
            Axis::Parent
                | Axis::Ancestor
                | Axis::PrecedingSibling
                | Axis::Preceding
                | Axis::AncestorOrSelf
        ) {
            places.reverse();
        }
        Ok(places)
    }
}

const AXES: [Axis; 12] = [
    Axis::Child,
    Axis::Descendant,
    Axis::Attribute,
    Axis::Slf,
    Axis::DescendantOrSelf,
    Axis::FollowingSibling,
    Axis::Following,
    Axis::Parent,
    Axis::Ancestor,
    Axis::PrecedingSibling,
    Axis::Preceding,
    Axis::AncestorOrSelf,
];

#[test]
fn every_axis_from_every_node(rt: HostRuntime) -> Result<(), Fail> {
    let nodes = Nodes {
        parents: &[
            None,
            Some(0),
            Some(0),
            Some(2),
            Some(2),
            Some(2),
            Some(2),
            Some(6),
            Some(6),
            Some(2),
            Some(2),
            Some(0),
            None,
            Some(12),
            Some(13),
            Some(13),
        ],
        attributes: &[3, 4, 7, 14],
    };
    for axis in AXES {
        for context in 0..16 {
            let places = given(&rt, axis, context, &Test::Node)?;
            let others = nodes.wanted(rt.alloc(), axis, context)?;
            assert_eq!(rt;
                places.as_slice(),
                others.as_slice(),
                "{axis:?} of {context}"
            );
        }
    }
    Ok(())
}

#[test]
fn every_axis_among_roots_of_any_kind(rt: HostRuntime) -> Result<(), Fail> {
    let nodes = Nodes {
        parents: &[None, None, None, Some(2), Some(2), None],
        attributes: &[0, 3, 5],
    };
    for axis in AXES {
        for context in 0..6 {
            let places = given_of_roots(&rt, axis, context)?;
            let others = nodes.wanted(rt.alloc(), axis, context)?;
            assert_eq!(rt;
                places.as_slice(),
                others.as_slice(),
                "{axis:?} of {context}"
            );
        }
    }
    Ok(())
}

#[test]
fn orders_of_axes(rt: HostRuntime) -> Result<(), Fail> {
    assert_eq!(rt;
        given(&rt, Axis::Preceding, 10, &Test::Node)?.as_slice(),
        [9, 8, 6, 5, 1].as_slice()
    );
    assert_eq!(rt;
        given(&rt, Axis::AncestorOrSelf, 8, &Test::Node)?.as_slice(),
        [8, 6, 2, 0].as_slice()
    );
    assert_eq!(rt;
        given(&rt, Axis::Following, 7, &Test::Node)?.as_slice(),
        [8, 9, 10, 11].as_slice()
    );
    Ok(())
}

#[test]
fn kind_tests(rt: HostRuntime) -> Result<(), Fail> {
    assert_eq!(rt;
        given(&rt, Axis::Child, 2, &Test::Text)?.as_slice(),
        [5].as_slice()
    );
    assert_eq!(rt;
        given(&rt, Axis::Descendant, 0, &Test::Comment)?.as_slice(),
        [9, 11].as_slice()
    );
    assert_eq!(rt;
        given(&rt, Axis::Ancestor, 8, &Test::Document)?.as_slice(),
        [0].as_slice()
    );
    assert_eq!(rt;
        given(&rt, Axis::Child, 0, &Test::Pi(None))?.as_slice(),
        [1].as_slice()
    );
    let go = Test::Pi(Some(Text::of(rt.alloc(), "go")?));
    assert_eq!(rt;
        given(&rt, Axis::Preceding, 5, &go)?.as_slice(),
        [1].as_slice()
    );
    let other = Test::Pi(Some(Text::of(rt.alloc(), "g")?));
    assert_eq!(rt;
        given(&rt, Axis::Child, 0, &other)?.as_slice(),
        [].as_slice()
    );
    Ok(())
}

fn name(alloc: Global, text: &str) -> Result<Option<Text>, NoMemory> {
    Ok(Some(Text::of(alloc, text)?))
}

#[test]
fn name_tests(rt: HostRuntime) -> Result<(), Fail> {
    let any = Test::Principal {
        uri: None,
        local: None,
    };
    assert_eq!(rt;
        given(&rt, Axis::Child, 0, &any)?.as_slice(),
        [2].as_slice()
    );
    assert_eq!(rt; given(&rt, Axis::Slf, 3, &any)?.as_slice(), [].as_slice());
    assert_eq!(rt;
        given(&rt, Axis::Attribute, 2, &any)?.as_slice(),
        [3, 4].as_slice()
    );
    let x = Test::Principal {
        uri: name(rt.alloc(), "")?,
        local: name(rt.alloc(), "x")?,
    };
    assert_eq!(rt;
        given(&rt, Axis::Attribute, 2, &x)?.as_slice(),
        [3].as_slice()
    );
    assert_eq!(rt; given(&rt, Axis::Child, 2, &x)?.as_slice(), [].as_slice());
    Ok(())
}

#[test]
fn element_tests(rt: HostRuntime) -> Result<(), Fail> {
    let c = Test::Element {
        uri: name(rt.alloc(), "u")?,
        local: name(rt.alloc(), "c")?,
    };
    assert_eq!(rt;
        given(&rt, Axis::Descendant, 0, &c)?.as_slice(),
        [10].as_slice()
    );
    assert_eq!(rt;
        given(&rt, Axis::DescendantOrSelf, 13, &c)?.as_slice(),
        [13].as_slice()
    );
    let b = Test::Element {
        uri: None,
        local: name(rt.alloc(), "b")?,
    };
    assert_eq!(rt;
        given(&rt, Axis::AncestorOrSelf, 8, &b)?.as_slice(),
        [8, 6].as_slice()
    );
    Ok(())
}

#[test]
fn attribute_tests(rt: HostRuntime) -> Result<(), Fail> {
    let y = Test::Attribute {
        uri: name(rt.alloc(), "u")?,
        local: None,
    };
    assert_eq!(rt;
        given(&rt, Axis::Attribute, 2, &y)?.as_slice(),
        [4].as_slice()
    );
    assert_eq!(rt; given(&rt, Axis::Slf, 4, &y)?.as_slice(), [4].as_slice());
    assert_eq!(rt;
        given(&rt, Axis::Descendant, 0, &y)?.as_slice(),
        [].as_slice()
    );
    Ok(())
}

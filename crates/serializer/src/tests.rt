ghost use Rattle.std.specs.Prelude.{◌≡◌, ◌<◌, ◌≤◌, ◌^◌, true, length, IfOk, IfSome};
ghost use Rattle.tree_model.specs.Items.{is_atom};
ghost use Rattle.node_table.specs.Tables.{rows_in, IsIn};
ghost use Rattle.node_table.specs.Views.{view_of, KeepsTrees};

use super::*;
use frame_pool::Pool;
use name_pool::NamePool;
use node_table::NodeTable;
use std::alloc::Global;
use std::test::Fail;
use tree_model::{Item, Kind, NoMemory, Num, Row, Text, ValueRef};
use value_heap::ValueHeap;

const LEAF: Row = Row {
    kind: Kind::Elem,
    name: 0,
    dist: 1,
    size: 1,
    asize: 1,
    id: 0,
    val: ValueRef { at: 0, len: 0 },
};

// The names of these parts.
fn pool(alloc: Global, names: &[(&str, &str, &str)]) -> Result<NamePool, NoMemory> {
    let mut pool = NamePool::new(alloc);
    for (uri, prefix, local) in names {
        pool.intern_parts(uri, prefix, local)?;
    }
    Ok(pool)
}

// A heap with these bytes.
fn heap(alloc: Global, bytes: &[u8]) -> Result<ValueHeap, NoMemory> {
    let mut heap = ValueHeap::new(alloc);
    heap.append(bytes)?;
    Ok(heap)
}

// A table of these rows.
fn table(pool: &mut Pool<Row>, alloc: Global, rows: &[Row]) -> Result<NodeTable, NoMemory>
    requires { length rows.now ≤ 2 ^ 24 }
    ensures rows { IfOk result (λ table. rows_in pool.new table ≡ rows.now) }
    ensures held { IfOk result (λ table. IsIn pool.new table) }
{
    let mut table = NodeTable::new(alloc);
    let rows = rows.to_vec(alloc)?;
    table.insert_documents(pool, 0, rows)?;
    Ok(table)
}

// What stands in a buffer with these bytes once rows of a range are printed to it.
fn print_range(
    alloc: Global,
    rows: &[Row],
    names: &NamePool,
    heap: &ValueHeap,
    before: &[u8],
    range: (u32, u32),
) -> Result<Vec<u8>, NoMemory>
    requires few { length rows.now ≤ 2 ^ 24 }
    requires trees { KeepsTrees (view_of rows.now names.now heap.now) }
{
    let mut pool = Pool::new(alloc);
    let table = table(&mut pool, alloc, rows)?;
    let mut out = before.to_vec(alloc)?;
    print_storage(&table, &pool, names, heap, range.0, range.1, &mut out)?;
    Ok(out)
}

// The same once a node is printed.
fn print_at(
    alloc: Global,
    rows: &[Row],
    names: &NamePool,
    heap: &ValueHeap,
    before: &[u8],
    pre: u32,
) -> Result<Vec<u8>, NoMemory>
    requires few { length rows.now ≤ 2 ^ 24 }
    requires trees { KeepsTrees (view_of rows.now names.now heap.now) }
    requires within { pre < length rows.now }
{
    let mut pool = Pool::new(alloc);
    let table = table(&mut pool, alloc, rows)?;
    let mut out = before.to_vec(alloc)?;
    print_node(&table, &pool, names, heap, pre, &mut out)?;
    Ok(out)
}

// What stands in a buffer with these bytes once the rows of a range are printed to it. The document `d.xml` has an
// element `a`, in which an element `p:b` and a text with a TAB stand.
fn printed(rt: &HostRuntime, before: &[u8], from: u32, to: u32) -> Result<Vec<u8>, Fail> {
    let rows = [
        Row {
            kind: Kind::Doc,
            dist: 0,
            size: 4,
            val: ValueRef { at: 0, len: 5 },
            ..LEAF
        },
        Row {
            name: 1,
            size: 3,
            id: 12,
            ..LEAF
        },
        Row {
            name: 2,
            id: 9,
            ..LEAF
        },
        Row {
            kind: Kind::Text,
            dist: 2,
            id: 5,
            val: ValueRef { at: 5, len: 3 },
            ..LEAF
        },
    ];
    let names = pool(
        rt.alloc(),
        &[("", "", ""), ("", "", "a"), ("u\t", "p", "b")],
    )?;
    let heap = heap(rt.alloc(), b"d.xmlx\ty")?;
    if names.len() != 3 || heap.mark() != 8 {
        return Err(Fail::from("other names or values"));
    }
    Ok(print_range(rt.alloc(), &rows, &names, &heap, before, (from, to))?)
}

#[test]
fn all_rows_behind_other_bytes(rt: HostRuntime) -> Result<(), Fail> {
    assert_eq!(rt;
        printed(&rt, b"ok\n", 0, 4)?.as_slice(),
        b"ok\n0 0 4 1 0 doc d.xml\n1 1 3 1 12 elem a\n2 1 1 1 9 elem {u\\t}p:b\n3 2 1 1 5 text x\\ty".as_slice()
    );
    Ok(())
}

#[test]
fn rows_of_a_range(rt: HostRuntime) -> Result<(), Fail> {
    assert_eq!(rt;
        printed(&rt, b"", 1, 3)?.as_slice(),
        b"1 1 3 1 12 elem a\n2 1 1 1 9 elem {u\\t}p:b".as_slice()
    );
    assert_eq!(rt;
        printed(&rt, b".", 3, 9)?.as_slice(),
        b".3 2 1 1 5 text x\\ty".as_slice()
    );
    Ok(())
}

#[test]
fn empty_ranges(rt: HostRuntime) -> Result<(), Fail> {
    assert_eq!(rt; printed(&rt, b"ok", 2, 2)?.as_slice(), b"ok".as_slice());
    assert_eq!(rt; printed(&rt, b"ok", 3, 1)?.as_slice(), b"ok".as_slice());
    assert_eq!(rt; printed(&rt, b"ok", 4, 9)?.as_slice(), b"ok".as_slice());
    Ok(())
}

// What stands in a buffer with these bytes once a node is printed to it. The document `d.xml` has an element `r` with the
// attributes `p:a` and `b`. In it stand an empty element `e`, an element `p:m` with a text, a comment, and an instruction `go`
// without and with a value. The value of `p:a` and the text have all bytes that don't stand as they are.
fn xml(rt: &HostRuntime, before: &[u8], pre: u32) -> Result<Vec<u8>, Fail>
    requires { pre < 10 }
{
    let rows = [
        Row {
            kind: Kind::Doc,
            dist: 0,
            size: 10,
            val: ValueRef { at: 0, len: 5 },
            ..LEAF
        },
        Row {
            name: 1,
            size: 9,
            asize: 3,
            ..LEAF
        },
        Row {
            kind: Kind::Attr,
            name: 2,
            val: ValueRef { at: 5, len: 8 },
            ..LEAF
        },
        Row {
            kind: Kind::Attr,
            name: 3,
            dist: 2,
            ..LEAF
        },
        Row {
            name: 4,
            dist: 3,
            ..LEAF
        },
        Row {
            name: 5,
            dist: 4,
            size: 2,
            ..LEAF
        },
        Row {
            kind: Kind::Text,
            val: ValueRef { at: 13, len: 7 },
            ..LEAF
        },
        Row {
            kind: Kind::Comm,
            dist: 6,
            val: ValueRef { at: 20, len: 5 },
            ..LEAF
        },
        Row {
            kind: Kind::Pi,
            name: 6,
            dist: 7,
            ..LEAF
        },
        Row {
            kind: Kind::Pi,
            name: 6,
            dist: 8,
            val: ValueRef { at: 25, len: 2 },
            ..LEAF
        },
    ];
    let names = pool(
        rt.alloc(),
        &[
            ("", "", ""),
            ("", "", "r"),
            ("u", "p", "a"),
            ("", "", "b"),
            ("", "", "e"),
            ("u", "p", "m"),
            ("", "", "go"),
        ],
    )?;
    let heap = heap(rt.alloc(), b"d.xml&<>\"\t\n\r'x&<>\r\n\"a < bon")?;
    if names.len() != 7 || heap.mark() != 27 {
        return Err(Fail::from("other names or values"));
    }
    Ok(print_at(rt.alloc(), &rows, &names, &heap, before, pre)?)
}

#[test]
fn a_document_is_its_content(rt: HostRuntime) -> Result<(), Fail> {
    let all =
        b"<r xmlns:p=\"u\" p:a=\"&amp;&lt;&gt;&quot;&#9;&#10;&#13;'\" b=\"\"><e/><p:m>x&amp;&lt;&gt;&#13;\n\"</p:m><!--a < b--><?go?><?go on?></r>";
    assert_eq!(rt; xml(&rt, b"", 0)?.as_slice(), all.as_slice());
    assert_eq!(rt; xml(&rt, b"", 1)?.as_slice(), all.as_slice());
    Ok(())
}

#[test]
fn nodes_behind_other_bytes(rt: HostRuntime) -> Result<(), Fail> {
    assert_eq!(rt; xml(&rt, b"ok\n", 3)?.as_slice(), b"ok\nb=\"\"".as_slice());
    assert_eq!(rt; xml(&rt, b".", 4)?.as_slice(), b".<e/>".as_slice());
    assert_eq!(rt;
        xml(&rt, b".", 5)?.as_slice(),
        b".<p:m xmlns:p=\"u\">x&amp;&lt;&gt;&#13;\n\"</p:m>".as_slice()
    );
    assert_eq!(rt;
        xml(&rt, b".", 6)?.as_slice(),
        b".x&amp;&lt;&gt;&#13;\n\"".as_slice()
    );
    assert_eq!(rt; xml(&rt, b".", 9)?.as_slice(), b".<?go on?>".as_slice());
    Ok(())
}

// The text of a node. The document has an element `r` in the namespace `d"`, with an attribute `p:x`. In it stand an element
// `p:c`, in which is an empty element `e` in no namespace, and two empty elements `q:s`.
fn declared(rt: &HostRuntime, pre: u32) -> Result<Vec<u8>, Fail>
    requires { pre < 7 }
{
    let rows = [
        Row {
            kind: Kind::Doc,
            dist: 0,
            size: 7,
            ..LEAF
        },
        Row {
            name: 1,
            size: 6,
            asize: 2,
            ..LEAF
        },
        Row {
            kind: Kind::Attr,
            name: 2,
            val: ValueRef { at: 0, len: 1 },
            ..LEAF
        },
        Row {
            name: 3,
            dist: 2,
            size: 2,
            ..LEAF
        },
        Row { name: 4, ..LEAF },
        Row {
            name: 5,
            dist: 4,
            ..LEAF
        },
        Row {
            name: 5,
            dist: 5,
            ..LEAF
        },
    ];
    let names = pool(
        rt.alloc(),
        &[
            ("", "", ""),
            ("d\"", "", "r"),
            ("u", "p", "x"),
            ("u", "p", "c"),
            ("", "", "e"),
            ("w", "q", "s"),
        ],
    )?;
    let heap = heap(rt.alloc(), b"v")?;
    if names.len() != 6 || heap.mark() != 1 {
        return Err(Fail::from("other names or values"));
    }
    Ok(print_at(rt.alloc(), &rows, &names, &heap, b"", pre)?)
}

#[test]
fn a_prefix_is_declared_where_it_is_not_bound(rt: HostRuntime) -> Result<(), Fail> {
    assert_eq!(rt;
        declared(&rt, 0)?.as_slice(),
        b"<r xmlns=\"d&quot;\" xmlns:p=\"u\" p:x=\"v\"><p:c><e xmlns=\"\"/></p:c><q:s xmlns:q=\"w\"/><q:s xmlns:q=\"w\"/></r>".as_slice()
    );
    Ok(())
}

#[test]
fn a_node_declares_what_it_needs_alone(rt: HostRuntime) -> Result<(), Fail> {
    assert_eq!(rt; declared(&rt, 2)?.as_slice(), b"p:x=\"v\"".as_slice());
    assert_eq!(rt;
        declared(&rt, 3)?.as_slice(),
        b"<p:c xmlns:p=\"u\"><e/></p:c>".as_slice()
    );
    assert_eq!(rt; declared(&rt, 4)?.as_slice(), b"<e/>".as_slice());
    assert_eq!(rt;
        declared(&rt, 5)?.as_slice(),
        b"<q:s xmlns:q=\"w\"/>".as_slice()
    );
    Ok(())
}

// The text of a node, or of all rows. The document has an element `p:r` that declares `p`, an unused `q` and a default. In it
// stand an element `c` that takes the default back, with an element `p:e` of another namespace and one of the outer one, and
// an element `f` with an attribute `p:a`, which declares an unused `z`.
fn namespaces(rt: &HostRuntime, pre: Option<u32>) -> Result<Vec<u8>, Fail>
    requires { IfSome pre (λ at. at < 7) }
{
    let rows = [
        Row {
            kind: Kind::Doc,
            dist: 0,
            size: 7,
            ..LEAF
        },
        Row {
            name: 1,
            size: 6,
            val: ValueRef { at: 0, len: 11 },
            ..LEAF
        },
        Row {
            name: 2,
            size: 3,
            val: ValueRef { at: 11, len: 2 },
            ..LEAF
        },
        Row {
            name: 3,
            val: ValueRef { at: 13, len: 4 },
            ..LEAF
        },
        Row {
            name: 4,
            dist: 2,
            ..LEAF
        },
        Row {
            name: 5,
            dist: 4,
            size: 2,
            asize: 2,
            val: ValueRef { at: 17, len: 4 },
            ..LEAF
        },
        Row {
            kind: Kind::Attr,
            name: 6,
            val: ValueRef { at: 21, len: 1 },
            ..LEAF
        },
    ];
    let names = pool(
        rt.alloc(),
        &[
            ("", "", ""),
            ("u", "p", "r"),
            ("", "", "c"),
            ("w", "p", "e"),
            ("u", "p", "e"),
            ("d", "", "f"),
            ("u", "p", "a"),
        ],
    )?;
    let heap = heap(rt.alloc(), b"p\0u\0q\0v\0\0d\0\0\0p\0w\0z\0y\0x")?;
    if names.len() != 7 || heap.mark() != 22 {
        return Err(Fail::from("other names or values"));
    }
    match pre {
        Some(pre) => Ok(print_at(rt.alloc(), &rows, &names, &heap, b"", pre)?),
        None => Ok(print_range(rt.alloc(), &rows, &names, &heap, b"", (0, 7))?),
    }
}

#[test]
fn an_element_keeps_its_declarations(rt: HostRuntime) -> Result<(), Fail> {
    assert_eq!(rt;
        namespaces(&rt, Some(0))?.as_slice(),
        b"<p:r xmlns:p=\"u\" xmlns:q=\"v\" xmlns=\"d\"><c xmlns=\"\"><p:e xmlns:p=\"w\"/><p:e/></c><f xmlns:z=\"y\" p:a=\"x\"/></p:r>".as_slice()
    );
    assert_eq!(rt;
        namespaces(&rt, None)?.as_slice(),
        b"0 0 7 1 0 doc \n1 1 6 1 0 elem {u}p:r xmlns:p=\"u\" xmlns:q=\"v\" xmlns=\"d\"\n2 1 3 1 0 elem c xmlns=\"\"\n3 1 1 1 0 elem {w}p:e xmlns:p=\"w\"\n4 2 1 1 0 elem {u}p:e\n5 4 2 2 0 elem {d}f xmlns:z=\"y\"\n6 1 1 1 0 attr {u}p:a=\"x\"".as_slice()
    );
    Ok(())
}

#[test]
fn a_node_alone_adds_what_its_names_want(rt: HostRuntime) -> Result<(), Fail> {
    assert_eq!(rt;
        namespaces(&rt, Some(2))?.as_slice(),
        b"<c xmlns=\"\"><p:e xmlns:p=\"w\"/><p:e xmlns:p=\"u\"/></c>".as_slice()
    );
    assert_eq!(rt;
        namespaces(&rt, Some(4))?.as_slice(),
        b"<p:e xmlns:p=\"u\"/>".as_slice()
    );
    assert_eq!(rt;
        namespaces(&rt, Some(5))?.as_slice(),
        b"<f xmlns:z=\"y\" xmlns=\"d\" xmlns:p=\"u\" p:a=\"x\"/>".as_slice()
    );
    assert_eq!(rt;
        namespaces(&rt, Some(6))?.as_slice(),
        b"p:a=\"x\"".as_slice()
    );
    Ok(())
}

// What stands in a buffer with these bytes once an item is printed to it.
fn atom(rt: &HostRuntime, before: &[u8], item: &Item) -> Result<Vec<u8>, Fail>
    requires { is_atom item.now ≡ true }
{
    let mut out = before.to_vec(rt.alloc())?;
    print_atom(item, &mut out)?;
    Ok(out)
}

#[test]
fn atoms_of_each_kind(rt: HostRuntime) -> Result<(), Fail> {
    let text = "a<b>\t&\n\\";
    let string = Item::Str(Text::of(rt.alloc(), text)?);
    let untyped = Item::Untyped(Text::of(rt.alloc(), text)?);
    assert_eq!(rt;
        atom(&rt, b"ok ", &string)?.as_slice(),
        b"ok a<b>\t&\n\\".as_slice()
    );
    assert_eq!(rt;
        atom(&rt, b"", &untyped)?.as_slice(),
        b"a<b>\t&\n\\".as_slice()
    );
    assert_eq!(rt;
        atom(&rt, b"", &Item::Number(Num(-2_050_000)))?.as_slice(),
        b"-2.05".as_slice()
    );
    assert_eq!(rt;
        atom(&rt, b"", &Item::Bool(true))?.as_slice(),
        b"true".as_slice()
    );
    assert_eq!(rt;
        atom(&rt, b"", &Item::Bool(false))?.as_slice(),
        b"false".as_slice()
    );
    Ok(())
}

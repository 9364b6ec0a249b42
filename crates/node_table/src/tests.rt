use super::*;
use frame_pool::{Meter, Pool};
use std::test::Fail;
use tree_model::{Kind, Row, ValueRef};

// A row of a document with one element.
fn row(kind: Kind, dist: u32, size: u32, id: u32) -> Row {
    Row {
        kind,
        name: 0,
        dist,
        size,
        asize: 1,
        id,
        val: ValueRef { at: 0, len: 0 },
    }
}

#[test]
fn documents_are_put_in(rt: HostRuntime) -> Result<(), Fail> {
    let mut pool = Pool::new(rt.alloc());
    let mut meter = Meter::new();
    let mut table = NodeTable::new(rt.alloc());
    let first = vec![in rt.alloc(); row(Kind::Doc, 0, 2, 0), row(Kind::Elem, 1, 1, 1)]?;
    table.insert_documents(&mut pool, 0, first)?;
    let second = vec![in rt.alloc(); row(Kind::Doc, 0, 1, 2)]?;
    table.insert_documents(&mut pool, 0, second)?;
    assert_eq!(rt; table.len(), 3);
    assert_eq!(rt; table.row(&pool, 0, &mut meter).id, 2);
    assert_eq!(rt; table.row(&pool, 2, &mut meter).id, 1);
    assert_eq!(rt; meter.rows_read, 2);
    let other = table.branch(&mut pool)?;
    let mut reader = other.reader(&pool);
    assert_eq!(rt; reader.len(), 3);
    assert_eq!(rt; reader.row(2, &mut meter).id, 1);
    assert_eq!(rt; meter.rows_read, 3);
    other.give_up(&mut pool);
    Ok(())
}

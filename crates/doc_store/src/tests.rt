ghost use Rattle.std.specs.Prelude.{◌≡◌, [], true, false, codes, length, IfOk, OnOk};
ghost use Rattle.tree_model.specs.Forest.{none, tree, join};
ghost use Rattle.tree_model.specs.Labels.{doc_label, text_label, numbered};
ghost use Rattle.tree_model.specs.Sound.{IsSound, are_chars};
ghost use Rattle.node_table.specs.Views.{part_view, view_forest, KeepsTrees};
ghost use Rattle.doc_store.specs.Stored.{IsEmptyAt, IsOut, IsBranchOf, branch_forest};

use super::*;
use frame_pool::Meter;
use name_pool::NamePool;
use node_table::Part;
use std::alloc::Global;
use std::test::Fail;
use tree_model::{Code, Kind, NoMemory, Refusal, Row, Text, ValueRef};
use value_heap::ValueHeap;

// A document with a text.
fn document(alloc: Global) -> Result<Part, NoMemory>
    ensures trees { IfOk result (λ p. KeepsTrees (part_view p)) }
    ensures len { IfOk result (λ p. length p.rows.items ≡ 2) }
    ensures forest { IfOk result (λ p. view_forest (part_view p) ≡ numbered 0 (tree (doc_label []) [] (tree (text_label (codes "words")) [] none none) none)) }
{
    let mut names = NamePool::new(alloc);
    let name = names.intern_parts("", "", "")?;
    let mut heap = ValueHeap::new(alloc);
    let val = heap.append(b"words")?;
    let first = Row {
        kind: Kind::Doc,
        name,
        dist: 0,
        size: 2,
        asize: 1,
        id: 0,
        val: ValueRef { at: 0, len: 0 },
    };
    let second = Row {
        kind: Kind::Text,
        dist: 1,
        size: 1,
        id: 1,
        val,
        ..first
    };
    let rows = vec![in alloc; first, second]?;
    Ok(Part { names, heap, rows })
}

// A database without documents.
fn empty(alloc: Global, next: u32) -> Result<Database, NoMemory>
    ensures { IfOk result (IsEmptyAt (codes "d") next) }
{
    let name = Text::of(alloc, "d")?;
    Database::new_at(alloc, &name, next)
}

// Puts that document before all others.
fn put_first(alloc: Global, d: &mut Database, b: &mut Branch, path: &str) -> Result<(), Refusal>
    requires own { IsBranchOf d.old b.old }
    requires chars { are_chars path.now ≡ true }
    ensures own { OnOk result (IsBranchOf d.new b.new) }
    ensures forest { OnOk result (branch_forest d.new b.new ≡ join (numbered b.old.next (tree (doc_label path.now) [] (tree (text_label (codes "words")) [] none none) none)) (branch_forest d.old b.old)) }
    ensures out { IsOut d.new b.new }
{
    let built = document(alloc)?;
    let path = Text::of(alloc, path)?;
    d.add_document(b, 0, &path, &built, &mut Meter::new())
}

// Two documents.
fn put_two(alloc: Global, d: &mut Database, b: &mut Branch) -> Result<(), Refusal>
    requires own { IsBranchOf d.old b.old }
    requires first { branch_forest d.old b.old ≡ none }
    ensures own { OnOk result (IsBranchOf d.new b.new) }
    ensures sound { OnOk result (IsSound (branch_forest d.new b.new) b.new.next) }
    ensures out { IsOut d.new b.new }
{
    put_first(alloc, d, b, "b.xml")?;
    put_first(alloc, d, b, "a.xml")
}

// Makes two documents the state of an empty database.
fn fill(alloc: Global, d: &mut Database) -> Result<(), Refusal>
    requires { IsEmptyAt (codes "d") d.old.next d.old }
    ensures { d.new.branched ≡ false }
{
    let mut b = d.branch()?;
    let done = put_two(alloc, d, &mut b);
    match done {
        Ok(()) => d.commit(b),
        Err(_) => d.abandon(b),
    }
    done
}

// The next id and the number of rows of a branch with one document more. The branch is given up.
fn tried(alloc: Global, d: &mut Database) -> Result<(u32, u32), Refusal>
    requires { d.old.branched ≡ false }
{
    let mut b = d.branch()?;
    let done = put_first(alloc, d, &mut b, "c.xml");
    let sizes = (b.next_id(), b.table().len());
    d.abandon(b);
    match done {
        Ok(()) => Ok(sizes),
        Err(refusal) => Err(refusal),
    }
}

// The places of the documents where there are two.
fn two_places(alloc: Global, d: &Database) -> Option<(u32, u32)> {
    let places = document_places(alloc, d).ok()?;
    match places.as_slice() {
        [first, second] => Some((*first, *second)),
        _ => None,
    }
}

// The next id of a database, and how many rows, names and bytes of values it has.
fn sizes(d: &Database) -> (u32, u32, u64, u64) {
    (
        d.next_id(),
        d.table().len(),
        d.names().mark(),
        d.heap().mark(),
    )
}

#[test]
fn documents_come_and_go(rt: HostRuntime) -> Result<(), Fail> {
    let mut d = empty(rt.alloc(), 7)?;
    assert_eq!(rt; fill(rt.alloc(), &mut d), Ok(()));
    assert_eq!(rt; two_places(rt.alloc(), &d), Some((0, 2)));
    assert_eq!(rt; find_document(&d, b"b.xml"), Some(2));
    assert_eq!(rt; find_document(&d, b"words"), None);
    assert_eq!(rt; sizes(&d), (11, 4, 1, 20));
    assert_eq!(rt; tried(rt.alloc(), &mut d), Ok((13, 6)));
    assert_eq!(rt; sizes(&d), (11, 4, 1, 20));
    assert_eq!(rt; document_count(&d), 2);
    Ok(())
}

#[test]
fn ids_run_out(rt: HostRuntime) -> Result<(), Fail> {
    let mut d = empty(rt.alloc(), 4294967294)?;
    assert_eq!(rt; document_count(&d), 0);
    assert_eq!(rt;
        tried(rt.alloc(), &mut d),
        Err(Refusal::Code(Code::XKLM0005))
    );
    Ok(())
}

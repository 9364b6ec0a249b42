use super::*;
use std::cmp::Ordering;
use std::test::Fail;

#[test]
fn values_by_place(rt: HostRuntime) -> Result<(), Fail> {
    let mut heap = ValueHeap::new(rt.alloc());
    let first = heap.append(b"abc")?;
    let mark = heap.mark();
    let second = heap.append(b"b")?;
    assert_eq!(rt; heap.get(first), b"abc".as_slice());
    assert_eq!(rt; heap.get(second), b"b".as_slice());
    assert_eq!(rt; heap.compare(first, b"abd"), Ordering::Less);
    assert_eq!(rt; heap.compare(second, b""), Ordering::Greater);
    heap.back_to(mark);
    assert_eq!(rt; heap.mark(), 3);
    assert_eq!(rt; heap.get(first), b"abc".as_slice());
    Ok(())
}

#[test]
fn some_values_alone(rt: HostRuntime) -> Result<(), Fail> {
    let mut heap = ValueHeap::new(rt.alloc());
    let _gone = heap.append(b"abc")?;
    let kept = heap.append(b"de")?;
    let (small, places) = heap.compact(&[kept, kept])?;
    assert_eq!(rt; small.mark(), 4);
    assert_eq!(rt; places.len(), 2);
    Ok(())
}

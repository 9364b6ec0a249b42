ghost use Rattle.std.specs.Prelude.{◌≡◌, length, IfOk};

use super::*;
use frame_pool::{Meter, NoMemory, Pool};
use std::process::Abort;
use std::test::Fail;

// Puts ids in, once it is seen that they may be, and says how many there are then.
fn put_in(
    rt: &impl Abort,
    pool: &mut Pool<Span>,
    map: &mut IdMap,
    len: u32,
    run: Span,
) -> Result<u32, NoMemory>
    requires { length map.old ≡ len }
    ensures { IfOk result (λ n. length map.new ≡ n) }
{
    let mut meter = Meter::new();
    assert!(rt; run.pre <= len && len < 1000);
    assert!(rt; 1 <= run.n && run.n < 1000 && run.first_id < 1000000);
    for id in run.first_id..run.first_id + run.n {
        assert!(rt; map.pre_of(pool, id, &mut meter).is_none());
    }
    map.inserted(pool, run.pre, run.first_id, run.n, &mut meter)?;
    assert_eq!(rt; meter, Meter::new());
    Ok(len + run.n)
}

// Takes the ids at some pres out, once it is seen that they are there, and says how many are left.
fn take_out(
    rt: &impl Abort,
    pool: &mut Pool<Span>,
    map: &mut IdMap,
    len: u32,
    pre: u32,
    n: u32,
) -> Result<u32, NoMemory>
    requires { length map.old ≡ len }
    ensures { IfOk result (λ n. length map.new ≡ n) }
{
    let mut meter = Meter::new();
    assert!(rt; 1 <= n && n < 1000 && pre < 1000 && pre + n <= len);
    map.removed(pool, pre, n, &mut meter)?;
    assert_eq!(rt; meter, Meter::new());
    Ok(len - n)
}

// The pre of an id in a list of ids.
fn pre_in(ids: &[u32], id: u32) -> Option<u32> {
    for (pre, other) in ids.iter().enumerate() {
        if *other == id {
            return u32::try_from(pre).ok();
        }
    }
    None
}

// Looks all ids below a bound up.
fn ids_are(rt: &impl Abort, pool: &Pool<Span>, map: &IdMap, ids: &[u32], bound: u32) {
    let mut meter = Meter::new();
    for id in 0..bound {
        assert_eq!(rt; map.pre_of(pool, id, &mut meter), pre_in(ids, id), "{id}");
    }
}

#[test]
fn ids_come_and_go(rt: HostRuntime) -> Result<(), Fail> {
    let mut pool = Pool::new(rt.alloc());
    let mut map = IdMap::new(rt.alloc());
    ids_are(&rt, &pool, &map, &[], 30);
    let run = |first_id, pre, n| Span { first_id, pre, n };
    let len = put_in(&rt, &mut pool, &mut map, 0, run(10, 0, 5))?;
    ids_are(&rt, &pool, &map, &[10, 11, 12, 13, 14], 30);
    let len = put_in(&rt, &mut pool, &mut map, len, run(3, 2, 2))?;
    ids_are(&rt, &pool, &map, &[10, 11, 3, 4, 12, 13, 14], 30);
    let len = put_in(&rt, &mut pool, &mut map, len, run(15, 7, 1))?;
    let len = put_in(&rt, &mut pool, &mut map, len, run(9, 0, 1))?;
    ids_are(&rt, &pool, &map, &[9, 10, 11, 3, 4, 12, 13, 14, 15], 30);
    let other = map.branch(&mut pool)?;
    let len = take_out(&rt, &mut pool, &mut map, len, 3, 2)?;
    ids_are(&rt, &pool, &map, &[9, 10, 11, 12, 13, 14, 15], 30);
    ids_are(&rt, &pool, &other, &[9, 10, 11, 3, 4, 12, 13, 14, 15], 30);
    let len = take_out(&rt, &mut pool, &mut map, len, 2, 4)?;
    ids_are(&rt, &pool, &map, &[9, 10, 15], 30);
    let len = take_out(&rt, &mut pool, &mut map, len, 0, 3)?;
    ids_are(&rt, &pool, &map, &[], 30);
    assert_eq!(rt; len, 0);
    other.give_up(&mut pool);
    map.give_up(&mut pool);
    Ok(())
}

// The same changes of a plain list of ids.

fn put_among(rt: &impl Abort, ids: &mut Vec<u32>, run: Span) -> Result<(), NoMemory> {
    assert!(rt; run.first_id < 1000000 && run.n < 1000 && run.pre < 1000);
    for step in 0..run.n {
        let place = (run.pre + step) as usize;
        assert!(rt; place <= ids.len());
        ids.insert(place, run.first_id + step)?;
    }
    Ok(())
}

fn take_from(rt: &impl Abort, ids: &mut Vec<u32>, pre: u32, n: u32) {
    for _ in 0..n {
        assert!(rt; (pre as usize) < ids.len());
        let _gone = ids.remove(pre as usize);
    }
}

#[test]
fn random_changes(rt: HostRuntime) -> Result<(), Fail> {
    let mut pool = Pool::new(rt.alloc());
    let mut map = IdMap::new(rt.alloc());
    let mut ids = Vec::new(rt.alloc());
    let mut len = 0;
    let mut next = 0;
    let mut seed: u32 = 7;
    for round in 0..120u32 {
        seed = seed.wrapping_mul(1664525).wrapping_add(1013904223);
        let draw = seed >> 8;
        assert!(&rt; len < 1000 && next < 1000000);
        let pre = draw / 6 % (len + 1);
        let run = Span {
            first_id: next + draw % 2,
            pre,
            n: draw % 6 + 1,
        };
        if draw % 5 < 3 {
            len = put_in(&rt, &mut pool, &mut map, len, run)?;
            put_among(&rt, &mut ids, run)?;
            next = run.first_id + run.n;
        } else if pre < len {
            let n = run.n.min(len - pre);
            len = take_out(&rt, &mut pool, &mut map, len, pre, n)?;
            take_from(&rt, &mut ids, pre, n);
        }
        if round % 10 == 9 {
            ids_are(&rt, &pool, &map, ids.as_slice(), next + 2);
        }
    }
    Ok(())
}

ghost use Rattle.std.specs.Prelude.{ℕ, [], ◌++◌, IfOk, ◌+◌, ◌-◌, ◌<◌, ◌≤◌, ◌^◌, length};
ghost use Rattle.paged_seq.specs.Sequences.{IsPaged, IsAccounted};

use super::*;
use frame_pool::{Meter, NoMemory, Pool};
use std::alloc::Global;
use std::process::Abort;
use std::test::Fail;

// A sequence has the items of a list, one by one and by a reader.
fn compare(rt: &impl Abort, seq: &PagedSeq<u64>, pool: &Pool<u64>, list: &[u64])
    requires { IsPaged ℕ pool.now seq.now }
{
    let mut meter = Meter::new();
    let mut reader = seq.reader(pool);
    assert_eq!(rt; seq.len(), list.len() as u64);
    for (i, item) in list.iter().enumerate() {
        assert_eq!(rt; seq.get(pool, i as u64, &mut meter), *item);
        assert_eq!(rt; reader.get(i as u64), *item);
    }
}

// A number of items that begin with this one.
fn count_up(alloc: Global, first: u64, count: u64) -> Result<Vec<u64>, NoMemory> {
    let mut items = Vec::new(alloc);
    for k in 0..count {
        items.push(first.wrapping_add(k))?;
    }
    Ok(items)
}

// Items in the place of others, in a sequence and in a list alike.
fn splice_both(
    pool: &mut Pool<u64>,
    seq: &mut PagedSeq<u64>,
    list: Vec<u64>,
    at: u64,
    removed: u64,
    items: &[u64],
    meter: &mut Meter,
) -> Result<Vec<u64>, NoMemory>
    requires paged { IsPaged ℕ pool.old seq.old }
    ensures { IsPaged ℕ pool.new seq.new }
{
    let len = seq.len();
    if at > len || removed > len - at || len > 1000000 || items.len() > 1000000 {
        return Ok(list);
    }
    seq.splice(pool, at, removed, items, meter)?;
    let from = (at as usize).min(list.len());
    let to = ((at + removed) as usize).min(list.len());
    let mut all = Vec::from_slice(*list.allocator(), &list[..from])?;
    all.extend_from_slice(items)?;
    all.extend_from_slice(&list[to..])?;
    Ok(all)
}

#[test]
fn splices_are_those_of_a_list(rt: HostRuntime) -> Result<(), Fail> {
    let alloc = rt.alloc();
    let mut pool: Pool<u64> = Pool::new(alloc);
    let mut seq: PagedSeq<u64> = PagedSeq::new(alloc);
    let mut list: Vec<u64> = Vec::new(alloc);
    let mut meter = Meter::new();
    let mut seed = 12345u64;
    for round in 0..30u64 {
        seed = seed
            .wrapping_mul(6364136223846793005)
            .wrapping_add(1442695040888963407);
        let at = (seed >> 33) % seq.len().saturating_add(1);
        let removed = ((seed >> 20) % 400).min(seq.len().saturating_sub(at));
        let items = count_up(alloc, round * 1000, (seed >> 40) % 600)?;
        list = splice_both(
            &mut pool,
            &mut seq,
            list,
            at,
            removed,
            items.as_slice(),
            &mut meter,
        )?;
        compare(&rt, &seq, &pool, list.as_slice());
    }
    Ok(())
}

// A branch of a sequence that nothing else lies beside.
fn branch_of(pool: &mut Pool<u64>, seq: &PagedSeq<u64>) -> Result<PagedSeq<u64>, NoMemory>
    requires paged { IsPaged ℕ pool.old seq.now }
    requires accounts { IsAccounted pool.old (seq.now.frames ++ []) }
    ensures paged { IsPaged ℕ pool.new seq.now }
    ensures branch { IfOk result (λ b. IsPaged ℕ pool.new b) }
    ensures accounts { IfOk result (λ b. IsAccounted pool.new (b.frames ++ (seq.now.frames ++ []))) }
{
    let branch = seq.branch(pool)?;
    Ok(branch)
}

// Another item in a branch, beside the sequence that it came from.
fn patch_branch(
    pool: &mut Pool<u64>,
    seq: &PagedSeq<u64>,
    branch: &mut PagedSeq<u64>,
    i: u64,
    item: u64,
    meter: &mut Meter,
) -> Result<(), NoMemory>
    requires paged { IsPaged ℕ pool.old seq.now }
    requires branch { IsPaged ℕ pool.old branch.old }
    requires accounts { IsAccounted pool.old (branch.old.frames ++ (seq.now.frames ++ [])) }
    ensures paged { IsPaged ℕ pool.new seq.now }
    ensures branch { IsPaged ℕ pool.new branch.new }
    ensures accounts { IsAccounted pool.new (branch.new.frames ++ (seq.now.frames ++ [])) }
{
    if i >= branch.len() {
        return Ok(());
    }
    branch.patch(pool, i, item, meter)?;
    Ok(())
}

// The branch is given up, and the sequence stays.
fn give_up_branch(pool: &mut Pool<u64>, seq: &PagedSeq<u64>, branch: PagedSeq<u64>)
    requires paged { IsPaged ℕ pool.old seq.now }
    requires branch { IsPaged ℕ pool.old branch }
    requires accounts { IsAccounted pool.old (branch.frames ++ (seq.now.frames ++ [])) }
    ensures { IsPaged ℕ pool.new seq.now }
{
    branch.give_up(pool);
}

#[test]
fn branches_are_apart(rt: HostRuntime) -> Result<(), Fail> {
    let alloc = rt.alloc();
    let mut pool: Pool<u64> = Pool::new(alloc);
    let mut seq: PagedSeq<u64> = PagedSeq::new(alloc);
    let mut meter = Meter::new();
    let items = count_up(alloc, 0, 700)?;
    if items.len() > 1000000 {
        return Ok(());
    }
    seq.splice(&mut pool, 0, 0, items.as_slice(), &mut meter)?;
    let used = pool.used();
    let mut branch = branch_of(&mut pool, &seq)?;
    patch_branch(&mut pool, &seq, &mut branch, 5, 77, &mut meter)?;
    patch_branch(&mut pool, &seq, &mut branch, 6, 78, &mut meter)?;
    assert_eq!(rt; pool.used(), used.saturating_add(1));
    assert_eq!(rt; branch.len(), 700);
    assert_eq!(rt; branch.get(&pool, 6, &mut meter), 78);
    give_up_branch(&mut pool, &seq, branch);
    assert_eq!(rt; pool.used(), used);
    compare(&rt, &seq, &pool, items.as_slice());
    assert_eq!(rt; seq.lower_bound(&pool, |x| *x < 300, &mut meter), 300);
    Ok(())
}

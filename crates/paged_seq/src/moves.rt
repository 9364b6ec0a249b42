// How frames are named and written.
ghost use Rattle.std.specs.Prelude.{◌≡◌, ◌+◌, ◌-◌, ◌/◌, ◌<◌, ◌≤◌, ◌^◌, ◌++◌, ℕ, [], length, take, drop, OnOk, IfOk, slice_set, vec_len, vec_capacity};
ghost use Rattle.frame_pool.specs.Frames.{count_at, times, items_at, spare_of};
ghost use Rattle.paged_seq.specs.Sequences.{HasMoved, Taken, WritesAtMost, IsPaged, IsChanged, items_of, sizes_of, gathered, spliced};
ghost use Rattle.std.proofs.Common.{get_or};
ghost use Rattle.paged_seq.specs.Sizes.{amount, chunks};
ghost use Rattle.paged_seq.specs.Directories.{IsPart, IsChange};
ghost use Rattle.paged_seq.specs.Parts.{IsReady, middle_of, paged_of};

use crate::change::{Change, Ready};
use crate::directory::{chunk_count, first_size, locate, place};
use crate::part::{Directory, Part};
use crate::replace::replace_part;
use frame_pool::{FrameNo, Meter, NoMemory, Pool};
use std::alloc::Global;

/// One more directory names these frames.
pub(crate) fn share_all<T: Copy>(pool: &mut Pool<T>, frames: &[u64])
    requires held { (f : ℕ) → 0 < times f frames.now → 0 < count_at pool.old f }
    requires fits { (f : ℕ) → 0 < times f frames.now → count_at pool.old f + times f frames.now < 2 ^ 32 }
    ensures { HasMoved T pool.old pool.new [] frames.now }
{
    for f in frames {
        pool.share(FrameNo(*f));
    }
}

/// One directory less names these frames.
pub(crate) fn release_all<T: Copy>(pool: &mut Pool<T>, frames: &[u64])
    requires held { (f : ℕ) → times f frames.now ≤ count_at pool.old f }
    ensures moved { HasMoved T pool.old pool.new frames.now [] }
    ensures spare { spare_of pool.old ≤ spare_of pool.new }
{
    for f in frames {
        pool.release(FrameNo(*f));
    }
}

/// Puts items behind others, from a place in a frame on.
pub(crate) fn copy_items<T: Copy>(
    pool: &Pool<T>,
    frames: &[u64],
    mut k: usize,
    mut skip: usize,
    mut count: usize,
    out: &mut Vec<T>,
) -> Result<(), NoMemory>
    requires held { (f : ℕ) → 0 < times f frames.now → 0 < count_at pool.now f }
    requires within { skip + count ≤ length (items_of pool.now (drop k frames.now)) }
    requires skips { k < length frames.now → skip ≤ length (items_at pool.now (get_or frames.now k 0)) }
    ensures { OnOk result (out.new.items ≡ out.old.items ++ take count (drop skip (items_of pool.now (drop k frames.now)))) }
{
    while count > 0 {
        let items = pool.items(FrameNo(frames[k]));
        let n = count.min(items.len() - skip);
        out.extend_from_slice(&items[skip..skip + n])?;
        count -= n;
        skip = 0;
        k += 1;
    }
    Ok(())
}

/// Puts items into spare frames.
pub(crate) fn take_all<T: Copy>(
    pool: &mut Pool<T>,
    items: &[T],
    mut first: u64,
    frames: &mut Vec<u64>,
    firsts: &mut Vec<u64>,
    meter: &mut Meter,
)
    requires spare { chunks (length items.now) ≤ spare_of pool.old }
    requires no_frames { frames.old.items ≡ [] }
    requires no_firsts { firsts.old.items ≡ [] }
    requires frame_room { chunks (length items.now) ≤ vec_capacity frames.old }
    requires first_room { chunks (length items.now) ≤ vec_capacity firsts.old }
    requires fits { first + length items.now < 2 ^ 64 }
    ensures taken { Taken T pool.old pool.new first items.now frames.new.items firsts.new.items }
    ensures meter { WritesAtMost (chunks (length items.now)) meter.old meter.new }
{
    let size = first_size(items.len() as u64) as usize;
    let mut done = 0;
    while done < items.len() {
        let end = done + size.min(items.len() - done);
        let f = pool.take(&items[done..end], meter);
        frames.push_reserved(f.0);
        firsts.push_reserved(first);
        first += (end - done) as u64;
        done = end;
    }
}

/// The items that lie in the place of a part: those before the change, the new ones, and those behind it.
fn gather<T: Copy>(
    pool: &Pool<T>,
    frames: &[u64],
    firsts: &[u64],
    len: u64,
    part: Part,
    change: &Change<T>,
    alloc: Global,
) -> Result<Vec<T>, NoMemory>
    requires paged { IsPaged T pool.now (record { frames = frames.now; firsts = firsts.now; total = len }) }
    requires within { change.now.at + change.now.removed ≤ len }
    requires part { IsPart (sizes_of pool.now frames.now) change.now.at (change.now.at + change.now.removed) (length change.now.items.now) part }
    ensures { IfOk result (λ all. all.items ≡ middle_of pool.now frames.now part change.now.at change.now.removed change.now.items.now) }
{
    let end = change.at + change.removed;
    let first = place(firsts, len, part.from);
    let last = locate(firsts, len, end);
    let skip = end - place(firsts, len, last);
    let behind = place(firsts, len, part.to) - end;
    let mut all = Vec::with_capacity(alloc, part.size as usize)?;
    copy_items(
        pool,
        frames,
        part.from,
        0,
        (change.at - first) as usize,
        &mut all,
    )?;
    all.extend_from_slice(change.items)?;
    copy_items(pool, frames, last, skip as usize, behind as usize, &mut all)?;
    Ok(all)
}

/// What a change needs before it begins.
pub(crate) fn prepare<T: Copy>(
    pool: &Pool<T>,
    frames: &[u64],
    firsts: &[u64],
    len: u64,
    part: Part,
    change: &Change<T>,
    alloc: Global,
) -> Result<Ready<T>, NoMemory>
    requires paged { IsPaged T pool.now (record { frames = frames.now; firsts = firsts.now; total = len }) }
    requires within { change.now.at + change.now.removed ≤ len }
    requires part { IsPart (sizes_of pool.now frames.now) change.now.at (change.now.at + change.now.removed) (length change.now.items.now) part }
    ensures { IfOk result (λ ready. IsReady T (middle_of pool.now frames.now part change.now.at change.now.removed change.now.items.now) ready) }
{
    let items = gather(pool, frames, firsts, len, part, change, alloc)?;
    let count = chunk_count(items.len() as u64) as usize;
    let frames = Vec::with_capacity(alloc, count)?;
    let places = Vec::with_capacity(alloc, count)?;
    Ok(Ready {
        items,
        frames,
        places,
    })
}

/// Puts what is ready in the place of a part. Takes no memory.
pub(crate) fn rewrite_part<T: Copy>(
    pool: &mut Pool<T>,
    directory: &mut Directory,
    part: Part,
    change: &Change<T>,
    ready: &mut Ready<T>,
    meter: &mut Meter,
)
    requires paged { IsPaged T pool.old (paged_of directory.old) }
    requires within { change.now.at + change.now.removed ≤ directory.old.len }
    requires fits { directory.old.len - change.now.removed + length change.now.items.now < 2 ^ 64 }
    requires change { IsChange (sizes_of pool.old directory.old.frames.items) change.now.at (change.now.at + change.now.removed) (length change.now.items.now) part }
    requires ready { IsReady T (middle_of pool.old directory.old.frames.items part change.now.at change.now.removed change.now.items.now) ready.old }
    requires spare { chunks (length ready.old.items.items) ≤ spare_of pool.old }
    requires frame_room { vec_len directory.old.frames + chunks (length ready.old.items.items) ≤ vec_capacity directory.old.frames }
    requires first_room { vec_len directory.old.firsts + chunks (length ready.old.items.items) ≤ vec_capacity directory.old.firsts }
    ensures changed { IsChanged T pool.old pool.new (paged_of directory.old) (paged_of directory.new) (spliced change.now.at change.now.removed change.now.items.now (items_of pool.old directory.old.frames.items)) }
    ensures meter { WritesAtMost (length change.now.items.now / 128 + 3) meter.old meter.new }
{
    let first = place(directory.firsts.as_slice(), directory.len, part.from);
    let added = change.items.len() as u64;
    release_part(pool, directory.frames.as_slice(), part.from, part.to);
    take_all(
        pool,
        ready.items.as_slice(),
        first,
        &mut ready.frames,
        &mut ready.places,
        meter,
    );
    replace_part(
        &mut directory.frames,
        &mut directory.firsts,
        part,
        ready.frames.as_slice(),
        ready.places.as_slice(),
        change.removed,
        added,
    );
    directory.len = directory.len - change.removed + added;
}

/// One directory less names the frames from one up to another.
fn release_part<T: Copy>(pool: &mut Pool<T>, frames: &[u64], from: usize, to: usize)
    requires order { from ≤ to }
    requires within { to ≤ length frames.now }
    requires held { (f : ℕ) → times f (take (to - from) (drop from frames.now)) ≤ count_at pool.old f }
    ensures moved { HasMoved T pool.old pool.new (take (to - from) (drop from frames.now)) [] }
    ensures spare { spare_of pool.old ≤ spare_of pool.new }
{
    release_all(pool, &frames[from..to]);
}

/// The items of a frame, with another in one place.
pub(crate) fn with_item<T: Copy>(
    pool: &Pool<T>,
    f: FrameNo,
    at: u64,
    item: T,
    alloc: Global,
) -> Result<Vec<T>, NoMemory>
    requires held { 0 < count_at pool.now f.0 }
    requires within { at < length (items_at pool.now f.0) }
    ensures { IfOk result (λ all. all.items ≡ slice_set (items_at pool.now f.0) at item) }
{
    let mut all = Vec::from_slice(alloc, pool.items(f))?;
    all[at as usize] = item;
    Ok(all)
}

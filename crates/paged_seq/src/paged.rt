// A sequence over a pool.
ghost use Rattle.std.specs.Prelude.{◌≡◌, ◌+◌, ◌-◌, ◌/◌, ◌<◌, ◌≤◌, ◌^◌, ◌++◌, ℕ, [], length, take, drop, slice_index_or, slice_set, IfOk, OnOk, OnErr};
ghost use Rattle.std.specs.Prelude.{Bool, true, false};
ghost use Rattle.std.specs.Fn.{FnReturnsAt};
ghost use Rattle.std.specs.List.Sorted.{IsPartitionedBy, IsPartitionPoint};
ghost use Rattle.frame_pool.specs.Frames.{count_at, times};
ghost use Rattle.paged_seq.specs.Sequences.{Paged, IsPaged, IsBracket, IsChanged, HasMoved, LieFrom, WritesAtMost, paged_items, spliced};

use crate::change::Change;
use crate::directory::{chunk_count, find, find_near, find_part, place};
use crate::frame_items::FrameItems;
use crate::moves::{prepare, release_all, rewrite_part, share_all, with_item};
use crate::part::Directory;
use frame_pool::{FrameNo, Meter, NoMemory, Pool};
use std::alloc::Global;
use std::marker::{Model, PhantomData};

/// A sequence of items in frames of a pool. It holds the directory alone: the numbers of its frames, the place of the first
/// item of each, and the number of all items. Contracts see it together with its pool as one list.
#[derive(Debug, Drop)]
pub struct PagedSeq<T> {
    directory: Directory,
    kind: PhantomData<T>,
}

impl<T> Model for PagedSeq<T> {
    ghost use Rattle.paged_seq.specs.Sequences.{Paged};

    ghost Value = { Paged };

    ghost use Rattle.paged_seq.specs.Parts.{paged_of};

    ghost view = { λ s. paged_of s.directory };
}

impl<T: Copy> PagedSeq<T> {
    /// A sequence without items. Takes no memory.
    pub fn new(alloc: Global) -> PagedSeq<T>
        ensures { result ≡ record { frames = []; firsts = []; total = 0 } }
    {
        PagedSeq {
            directory: Directory {
                frames: Vec::new(alloc),
                firsts: Vec::new(alloc),
                len: 0,
            },
            kind: PhantomData,
        }
    }

    /// The number of items. Takes no memory.
    pub fn len(&self) -> u64
        ensures { result ≡ self.now.total }
    {
        self.directory.len
    }

    /// The item at a place. Takes no memory, and leaves the meter.
    pub fn get(&self, pool: &Pool<T>, i: u64, _meter: &mut Meter) -> T
        requires paged { IsPaged T pool.now self.now }
        requires within { i < self.now.total }
        ensures item { result ≡ slice_index_or (paged_items pool.now self.now) i result }
        ensures meter { _meter.new ≡ _meter.old }
    {
        self.frame_at(pool, i, (i / 256) as usize).item(i)
    }

    /// The frame that holds a place. One frame is looked at before others.
    pub(crate) fn frame_at<'t>(&self, pool: &'t Pool<T>, i: u64, near: usize) -> FrameItems<'t, T>
        requires paged { IsPaged T pool.now self.now }
        requires within { i < self.now.total }
        ensures from { result.first ≤ i }
        ensures to { i < result.first + length result.items.now }
        ensures items { LieFrom (paged_items pool.now self.now) result.first result.items.now }
    {
        let k = find_near(self.directory.firsts.as_slice(), i, near);
        FrameItems {
            items: pool.items(FrameNo(self.directory.frames[k])),
            first: self.directory.firsts[k],
            next: k + 1,
        }
    }

    /// The number of items at the beginning that pass a test, where no other passes it. Takes no memory, and leaves the meter.
    pub fn lower_bound<F: Fn(&T) -> bool>(
        &self,
        pool: &Pool<T>,
        before: F,
        _meter: &mut Meter,
    ) -> u64
        requires paged { IsPaged T pool.now self.now }
        requires callable { F.IsAlwaysCallable before }
        ensures bound { result ≤ self.now.total }
        ensures partitioned { (p : T → Bool) → ((x : T) (r : Bool) → FnReturnsAt F.Fn before x r → r ≡ p x) → IsPartitionedBy p (paged_items pool.now self.now) → IsPartitionPoint (λ y. p y ≡ true) (λ y. p y ≡ false) (paged_items pool.now self.now) result }
        ensures meter { _meter.new ≡ _meter.old }
    {
        let (mut low, mut high) = self.bracket(pool, &before);
        let mut reader = self.reader(pool);
        while low < high {
            let middle = low + (high - low) / 2;
            let item = reader.get(middle);
            if before(&item) {
                low = middle + 1;
            } else {
                high = middle;
            }
        }
        low
    }

    /// The places of a frame that has the last item that passes a test, if there is one, and of the frame behind.
    fn bracket<F: Fn(&T) -> bool>(&self, pool: &Pool<T>, before: &F) -> (u64, u64)
        requires paged { IsPaged T pool.now self.now }
        requires callable { F.IsAlwaysCallable before.now }
        ensures order { result.0 ≤ result.1 }
        ensures within { result.1 ≤ self.now.total }
        ensures parts { (p : T → Bool) → ((x : T) (r : Bool) → FnReturnsAt F.Fn before.now x r → r ≡ p x) → IsPartitionedBy p (paged_items pool.now self.now) → IsBracket T p (paged_items pool.now self.now) result.0 result.1 }
    {
        let mut low = 0;
        let mut high = self.directory.frames.len();
        while high - low > 1 {
            let middle = low + (high - low) / 2;
            let item = pool.items(FrameNo(self.directory.frames[middle]))[0];
            if before(&item) {
                low = middle;
            } else {
                high = middle;
            }
        }
        (
            place(self.directory.firsts.as_slice(), self.directory.len, low),
            place(self.directory.firsts.as_slice(), self.directory.len, high),
        )
    }

    /// An equal sequence, over the same frames. For want of memory the pool stays.
    pub fn branch(&self, pool: &mut Pool<T>) -> Result<PagedSeq<T>, NoMemory>
        requires paged { IsPaged T pool.old self.now }
        requires counts { (f : ℕ) → 0 < times f self.now.frames → count_at pool.old f + 2 < 2 ^ 32 }
        ensures equal { IfOk result (λ s. s ≡ self.now) }
        ensures moved { OnOk result (HasMoved T pool.old pool.new [] self.now.frames) }
        ensures err { OnErr result (pool.new ≡ pool.old) }
    {
        let frames = self.directory.frames.clone()?;
        let firsts = self.directory.firsts.clone()?;
        share_all(pool, self.directory.frames.as_slice());
        let len = self.directory.len;
        Ok(PagedSeq {
            directory: Directory {
                frames,
                firsts,
                len,
            },
            kind: PhantomData,
        })
    }

    /// Names the frames no longer. Takes no memory.
    pub fn give_up(self, pool: &mut Pool<T>)
        requires paged { IsPaged T pool.old self }
        ensures { HasMoved T pool.old pool.new self.frames [] }
    {
        release_all(pool, self.directory.frames.as_slice());
    }

    /// Puts another item in a place. Where only this sequence names the item's frame, it is changed there; else another frame
    /// takes its place. For want of memory all stays.
    pub fn patch(
        &mut self,
        pool: &mut Pool<T>,
        i: u64,
        item: T,
        meter: &mut Meter,
    ) -> Result<(), NoMemory>
        requires paged { IsPaged T pool.old self.old }
        requires within { i < self.old.total }
        ensures ok { OnOk result (IsChanged T pool.old pool.new self.old self.new (slice_set (paged_items pool.old self.old) i item)) }
        ensures err { OnErr result ((pool.new ≡ pool.old) × (self.new ≡ self.old) × (meter.new ≡ meter.old)) }
        ensures meter { OnOk result (WritesAtMost 1 meter.old meter.new) }
    {
        let k = find(self.directory.firsts.as_slice(), i);
        let f = FrameNo(self.directory.frames[k]);
        let at = i - self.directory.firsts[k];
        if pool.count(f) == 1 {
            pool.rewrite_item(f, at, item, meter);
            return Ok(());
        }
        let items = with_item(pool, f, at, item, *self.directory.frames.allocator())?;
        pool.reserve(1)?;
        pool.release(f);
        let new = pool.take(items.as_slice(), meter);
        self.directory.frames[k] = new.0;
        Ok(())
    }

    /// Puts items in the place of others: of as many as are removed from a place on. For want of memory all stays.
    pub fn splice(
        &mut self,
        pool: &mut Pool<T>,
        at: u64,
        removed: u64,
        items: &[T],
        meter: &mut Meter,
    ) -> Result<(), NoMemory>
        requires paged { IsPaged T pool.old self.old }
        requires within { at + removed ≤ self.old.total }
        requires fits { self.old.total - removed + length items.now < 2 ^ 64 }
        ensures ok { OnOk result (IsChanged T pool.old pool.new self.old self.new (spliced at removed items.now (paged_items pool.old self.old))) }
        ensures err { OnErr result ((pool.new ≡ pool.old) × (self.new ≡ self.old) × (meter.new ≡ meter.old)) }
        ensures meter { OnOk result (WritesAtMost (length items.now / 128 + 3) meter.old meter.new) }
    {
        let len = self.directory.len;
        let alloc = *self.directory.frames.allocator();
        let firsts = self.directory.firsts.as_slice();
        let part = find_part(firsts, len, at, at + removed, items.len() as u64);
        let change = Change { at, removed, items };
        let frames = self.directory.frames.as_slice();
        let mut ready = prepare(pool, frames, firsts, len, part, &change, alloc)?;
        let count = chunk_count(ready.items.len() as u64);
        self.directory.frames.reserve(count as usize)?;
        self.directory.firsts.reserve(count as usize)?;
        pool.reserve(count)?;
        rewrite_part(pool, &mut self.directory, part, &change, &mut ready, meter);
        Ok(())
    }
}

// Frames by number.
ghost use Rattle.std.specs.Prelude.{◌≡◌, ◌+◌, ◌-◌, ◌<◌, ◌≤◌, ◌^◌, [], length, slice_set, OnOk, OnErr};
ghost use Rattle.frame_pool.specs.Meters.{HasCountedFrame};
ghost use Rattle.frame_pool.specs.Frames.{items_at, count_at, with_frame, shared, released, spare_of, used_of, with_spare, SparesAreEmpty};

use crate::fills::{add_numbers, fill, spare_frames};
use crate::frame::Frame;
use crate::meter::Meter;
use std::alloc::{AllocError, Global};
use std::marker::Model;

/// Want of memory. Where a call answers it, all is as before unless the call says otherwise.
pub type NoMemory = AllocError;

/// The number of a frame of a pool.
#[derive(Clone, Copy, Debug, PartialEq, Eq)]
pub struct FrameNo(pub u64);

/// Frames of 1 to 256 items each, with a count of the places that name it. A frame whose count falls to 0 is spare, and
/// serves again. Contracts see a list of frames, in which a frame's number is its place and a spare one has no items.
#[derive(Debug, Drop)]
pub struct Pool<T> {
    frames: Vec<Frame<T>>,
    free: Vec<u64>,
}

impl<T> Model for Pool<T> {
    ghost use Rattle.std.specs.Prelude.{List, map, vec_capacity};
    ghost use Rattle.frame_pool.specs.Frames.{Held};

    ghost Value = { List (Held T) };

    ghost use Rattle.frame_pool.specs.Inner.{held_of, IsPool};

    ghost view = { λ p. map held_of p.frames.items };

    ghost invariant = { λ p. IsPool T p.frames.items p.free.items (vec_capacity p.free) };
}

impl<T: Copy> Pool<T> {
    /// A pool without frames. Takes no memory.
    pub fn new(alloc: Global) -> Pool<T>
        ensures { result ≡ [] }
    {
        Pool {
            frames: Vec::new(alloc),
            free: Vec::new(alloc),
        }
    }

    /// Makes spare frames where there are fewer than n. For want of memory the pool stays.
    pub fn reserve(&mut self, n: u64) -> Result<(), NoMemory>
        ensures ok { OnOk result (self.new ≡ with_spare n self.old) }
        ensures err { OnErr result (self.new ≡ self.old) }
    {
        let spare = self.free.len() as u64;
        if n <= spare {
            return Ok(());
        }
        let more = (n - spare) as usize;
        let made = self.frames.len();
        let mut fresh = spare_frames(*self.frames.allocator(), more)?;
        self.free.reserve(made - self.free.len() + more)?;
        self.frames.append(&mut fresh)?;
        add_numbers(&mut self.free, made, self.frames.len());
        Ok(())
    }

    /// Puts items into a spare frame, whose count is then 1. Takes no memory.
    pub fn take(&mut self, items: &[T], meter: &mut Meter) -> FrameNo
        requires spare { 0 < spare_of self.old }
        requires some { 0 < length items.now }
        requires few { length items.now ≤ 256 }
        ensures unused { count_at self.old result.0 ≡ 0 }
        ensures within { result.0 < length self.old }
        ensures frames { self.new ≡ with_frame self.old result.0 items.now 1 }
        ensures meter { HasCountedFrame meter.old meter.new }
    {
        meter.count_frame();
        let Some(f) = self.free.pop() else {
            return FrameNo(0);
        };
        let frame = &mut self.frames[f as usize];
        fill(&mut frame.items, items);
        frame.count = 1;
        FrameNo(f)
    }

    /// Puts other items into a frame that one place names. Takes no memory.
    pub fn rewrite(&mut self, f: FrameNo, items: &[T], meter: &mut Meter)
        requires one { count_at self.old f.0 ≡ 1 }
        requires some { 0 < length items.now }
        requires few { length items.now ≤ 256 }
        ensures frames { self.new ≡ with_frame self.old f.0 items.now 1 }
        ensures meter { HasCountedFrame meter.old meter.new }
    {
        meter.count_frame();
        let frame = &mut self.frames[f.0 as usize];
        fill(&mut frame.items, items);
    }

    /// Puts another item into a frame that one place names. Takes no memory.
    pub fn rewrite_item(&mut self, f: FrameNo, i: u64, item: T, meter: &mut Meter)
        requires one { count_at self.old f.0 ≡ 1 }
        requires within { i < length (items_at self.old f.0) }
        ensures frames { self.new ≡ with_frame self.old f.0 (slice_set (items_at self.old f.0) i item) 1 }
        ensures meter { HasCountedFrame meter.old meter.new }
    {
        meter.count_frame();
        let frame = &mut self.frames[f.0 as usize];
        frame.items[i as usize] = item;
    }

    /// One more place names the frame.
    pub fn share(&mut self, f: FrameNo)
        requires held { 0 < count_at self.old f.0 }
        requires fits { count_at self.old f.0 + 1 < 2 ^ 32 }
        ensures { self.new ≡ shared self.old f.0 }
    {
        let frame = &mut self.frames[f.0 as usize];
        frame.count += 1;
    }

    /// One place less names the frame. Takes no memory.
    pub fn release(&mut self, f: FrameNo)
        requires held { 0 < count_at self.old f.0 }
        ensures { self.new ≡ released self.old f.0 }
    {
        let frame = &mut self.frames[f.0 as usize];
        if frame.count > 1 {
            frame.count -= 1;
            return;
        }
        frame.count = 0;
        frame.items.clear();
        self.free.push_reserved(f.0);
    }

    /// The items of a frame.
    pub fn items(&self, f: FrameNo) -> &[T]
        requires held { 0 < count_at self.now f.0 }
        ensures { result.now ≡ items_at self.now f.0 }
    {
        self.frames[f.0 as usize].items.as_slice()
    }

    /// How many places name a frame.
    pub fn count(&self, f: FrameNo) -> u32
        requires held { 0 < count_at self.now f.0 }
        ensures { result ≡ count_at self.now f.0 }
    {
        self.frames[f.0 as usize].count
    }

    /// The number of spare frames, none of which has items.
    pub fn spare(&self) -> u64
        ensures many { result ≡ spare_of self.now }
        ensures empty { SparesAreEmpty self.now }
    {
        self.free.len() as u64
    }

    /// The number of frames that are named.
    pub fn used(&self) -> u64
        ensures { result ≡ used_of self.now }
    {
        (self.frames.len() - self.free.len()) as u64
    }

    /// The number of all frames.
    pub fn made(&self) -> u64
        ensures { result ≡ used_of self.now + spare_of self.now }
    {
        self.frames.len() as u64
    }
}

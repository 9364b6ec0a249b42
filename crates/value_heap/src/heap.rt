// The bytes of all values, one behind the other.
ghost use Rattle.std.specs.Prelude.{◌≡◌, ◌+◌, ◌≤◌, ◌++◌, [], length, map, take, IfOk, OnOk, OnErr};
ghost use Rattle.std.specs.Cmp.Lexicographic.{slice_cmp};
ghost use Rattle.std.specs.List.{All, flat_map};
ghost use Rattle.std.specs.Ordering.{nat_cmp};
ghost use Rattle.tree_model.specs.Rows.{value_at};

use std::alloc::Global;
use std::cmp::Ordering;
use std::marker::Model;
use tree_model::{NoMemory, ValueRef};

/// Values that lie one behind the other. A value keeps its place as more come. Contracts see all the bytes.
#[derive(Debug, Drop)]
pub struct ValueHeap {
    bytes: Vec<u8>,
}

impl Model for ValueHeap {
    ghost use Rattle.std.specs.Prelude.{ℕ, List};

    ghost Value = { List ℕ };

    ghost view = { λ h. h.bytes.items };
}

impl ValueHeap {
    /// A heap without bytes. Takes no memory.
    pub fn new(alloc: Global) -> ValueHeap
        ensures { result ≡ [] }
    {
        ValueHeap {
            bytes: Vec::new(alloc),
        }
    }

    /// Puts a value behind all others, and says where it lies.
    pub fn append(&mut self, bytes: &[u8]) -> Result<ValueRef, NoMemory>
        ensures grown { OnOk result (self.new ≡ self.old ++ bytes.now) }
        ensures at { IfOk result (λ r. r.at ≡ length self.old) }
        ensures len { IfOk result (λ r. r.len ≡ length bytes.now) }
        ensures kept { OnErr result (self.new ≡ self.old) }
    {
        let at = self.bytes.len() as u64;
        self.bytes.extend_from_slice(bytes)?;
        Ok(ValueRef {
            at,
            len: bytes.len() as u64,
        })
    }

    /// Puts the bytes of a value behind all others once more, and says where they lie then.
    pub fn append_copy(&mut self, r: ValueRef) -> Result<ValueRef, NoMemory>
        requires within { r.at + r.len ≤ length self.old }
        ensures grown { OnOk result (self.new ≡ self.old ++ value_at self.old r) }
        ensures at { IfOk result (λ copy. copy.at ≡ length self.old) }
        ensures len { IfOk result (λ copy. copy.len ≡ r.len) }
        ensures kept { OnErr result (self.new ≡ self.old) }
    {
        let copy = ValueRef {
            at: self.mark(),
            len: r.len,
        };
        self.bytes
            .extend_from_within(r.at as usize..(r.at + r.len) as usize)?;
        Ok(copy)
    }

    /// The bytes of a value.
    pub fn get(&self, r: ValueRef) -> &[u8]
        requires within { r.at + r.len ≤ length self.now }
        ensures { result.now ≡ value_at self.now r }
    {
        &self.bytes[r.at as usize..(r.at + r.len) as usize]
    }

    /// The number of bytes held.
    pub fn mark(&self) -> u64
        ensures { result ≡ length self.now }
    {
        self.bytes.len() as u64
    }

    /// Keeps the values below a mark. Takes no memory.
    pub fn back_to(&mut self, mark: u64)
        requires within { mark ≤ length self.old }
        ensures { self.new ≡ take mark self.old }
    {
        self.bytes.truncate(mark as usize);
    }

    /// How a value compares with other bytes, byte by byte.
    pub fn compare(&self, r: ValueRef, bytes: &[u8]) -> Ordering
        requires within { r.at + r.len ≤ length self.now }
        ensures { result ≡ slice_cmp nat_cmp (value_at self.now r) bytes.now }
    {
        self.get(r).cmp(bytes)
    }

    /// A heap with these values alone, one behind the other in this order, and where each of them lies. It takes its memory
    /// from the same allocator.
    pub fn compact(&self, refs: &[ValueRef]) -> Result<(ValueHeap, Vec<ValueRef>), NoMemory>
        requires within { All (λ r. r.at + r.len ≤ length self.now) refs.now }
        ensures bytes { IfOk result (λ made. made.0 ≡ flat_map (value_at self.now) refs.now) }
        ensures values { IfOk result (λ made. map (value_at made.0) made.1.items ≡ map (value_at self.now) refs.now) }
        ensures inside { IfOk result (λ made. All (λ r. r.at + r.len ≤ length made.0) made.1.items) }
    {
        let alloc = *self.bytes.allocator();
        let mut heap = ValueHeap::new(alloc);
        let mut places = Vec::new(alloc);
        for r in refs {
            let place = heap.append(self.get(*r))?;
            places.push(place)?;
        }
        Ok((heap, places))
    }
}

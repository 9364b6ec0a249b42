// Where a place lies in a directory.
ghost use Rattle.std.specs.Prelude.{◌≡◌, ◌+◌, ◌-◌, ◌<◌, ◌≤◌, ◌^◌, ◌++◌, ℕ, length, take, drop, map};
ghost use Rattle.std.proofs.Common.{get_or};
ghost use Rattle.paged_seq.specs.Sizes.{first_chunk, last_chunk, chunks};
ghost use Rattle.paged_seq.specs.Directories.{place_of, Holds, IsDirectory, JoinsLeft, WidensLeft, WidensRight, HoldsEnd, IsFirstPart, IsChange};

use crate::part::Part;

/// The place of a frame's first item, and behind the last frame the number of all items.
pub(crate) fn place(firsts: &[u64], len: u64, k: usize) -> u64
    ensures { result ≡ place_of firsts.now len k }
{
    if k < firsts.len() { firsts[k] } else { len }
}

/// The frame that holds a place.
pub(crate) fn find(firsts: &[u64], at: u64) -> usize
    requires some { 0 < length firsts.now }
    requires from { place_of firsts.now 0 0 ≤ at }
    ensures within { result < length firsts.now }
    ensures from { (d : ℕ) → place_of firsts.now d result ≤ at }
    ensures before { (d : ℕ) → result + 1 < length firsts.now → at < place_of firsts.now d (result + 1) }
{
    let mut low = 0;
    let mut high = firsts.len();
    while high - low > 1 {
        let middle = low + (high - low) / 2;
        if firsts[middle] <= at {
            low = middle;
        } else {
            high = middle;
        }
    }
    low
}

/// The frame that holds a place. One frame is looked at before others.
pub(crate) fn find_near(firsts: &[u64], at: u64, near: usize) -> usize
    requires some { 0 < length firsts.now }
    requires from { place_of firsts.now 0 0 ≤ at }
    ensures within { result < length firsts.now }
    ensures from { (d : ℕ) → place_of firsts.now d result ≤ at }
    ensures before { (d : ℕ) → result + 1 < length firsts.now → at < place_of firsts.now d (result + 1) }
{
    if near < firsts.len()
        && firsts[near] <= at
        && (near + 1 == firsts.len() || at < firsts[near + 1])
    {
        return near;
    }
    find(firsts, at)
}

/// The frame that holds a place, or the number of frames at the end.
pub(crate) fn locate(firsts: &[u64], len: u64, at: u64) -> usize
    requires directory { IsDirectory firsts.now len }
    requires within { at ≤ len }
    ensures { Holds firsts.now len at result }
{
    if at == len {
        return firsts.len();
    }
    find(firsts, at)
}

/// How many items go into the first frame.
pub(crate) fn first_size(n: u64) -> u64
    ensures size { result ≡ first_chunk n }
    ensures few { result ≤ 256 }
    ensures some { 0 < n → 0 < result }
{
    if n <= 256 {
        return n;
    }
    if n <= 512 {
        return n / 2 + n % 2;
    }
    256
}

/// How many frames items go into.
pub(crate) fn chunk_count(n: u64) -> u64
    ensures { result ≡ chunks n }
{
    if n == 0 {
        return 0;
    }
    (n - 1) / 256 + 1
}

/// How many items go into the last frame.
pub(crate) fn last_size(n: u64) -> u64
    ensures size { result ≡ last_chunk n }
    ensures few { result ≤ 256 }
    ensures some { 0 < n → 0 < result }
{
    if n <= 256 {
        return n;
    }
    if n <= 512 {
        return n / 2;
    }
    (n - 1) % 256 + 1
}

/// The first frame that doesn't begin before a place.
pub(crate) fn end_of(firsts: &[u64], len: u64, end: u64) -> usize
    requires directory { IsDirectory firsts.now len }
    requires within { end ≤ len }
    ensures { HoldsEnd firsts.now len end result }
{
    let k = locate(firsts, len, end);
    if place(firsts, len, k) == end {
        return k;
    }
    k + 1
}

/// The frames that a change at these places cuts.
pub(crate) fn first_part(firsts: &[u64], len: u64, at: u64, end: u64, added: u64) -> Part
    requires directory { IsDirectory firsts.now len }
    requires order { at ≤ end }
    requires within { end ≤ len }
    requires room { at + added + (len - end) < 2 ^ 64 }
    ensures { (w : IsDirectory firsts.now len) → IsFirstPart w.sizes at end added result }
{
    let from = locate(firsts, len, at);
    let to = end_of(firsts, len, end);
    let size = (at - place(firsts, len, from)) + added + (place(firsts, len, to) - end);
    Part { from, to, size }
}

/// The frames that a change at these places touches.
pub(crate) fn find_part(firsts: &[u64], len: u64, at: u64, end: u64, added: u64) -> Part
    requires directory { IsDirectory firsts.now len }
    requires order { at ≤ end }
    requires within { end ≤ len }
    requires room { at + added + (len - end) < 2 ^ 64 }
    ensures { (w : IsDirectory firsts.now len) → IsChange w.sizes at end added result }
{
    let part = with_left(firsts, len, first_part(firsts, len, at, end, added));
    with_right(firsts, len, part)
}

/// Takes the frame before, where it would be too small beside what comes.
pub(crate) fn with_left(firsts: &[u64], len: u64, part: Part) -> Part
    requires directory { IsDirectory firsts.now len }
    requires order { part.from ≤ part.to }
    requires within { part.to ≤ length firsts.now }
    requires room { part.size + place_of firsts.now len part.from + (len - place_of firsts.now len part.to) < 2 ^ 64 }
    ensures { (w : IsDirectory firsts.now len) → WidensLeft w.sizes part result }
{
    if part.from == 0 {
        return part;
    }
    let left = place(firsts, len, part.from) - place(firsts, len, part.from - 1);
    if left + next_size(firsts, len, part) > 256 {
        return part;
    }
    Part {
        from: part.from - 1,
        to: part.to,
        size: part.size + left,
    }
}

/// The size of what comes behind the frame before.
pub(crate) fn next_size(firsts: &[u64], len: u64, part: Part) -> u64
    requires { IsDirectory firsts.now len }
    ensures some { 0 < part.size → result ≡ first_chunk part.size }
    ensures none { part.size ≡ 0 → (w : IsDirectory firsts.now len) → result ≡ get_or w.sizes part.to 256 }
    ensures few { result ≤ 256 }
{
    if part.size == 0 {
        return right_size(firsts, len, part.to);
    }
    first_size(part.size)
}

/// The size of a frame, or 256 behind the last.
pub(crate) fn right_size(firsts: &[u64], len: u64, k: usize) -> u64
    requires { IsDirectory firsts.now len }
    ensures size { (w : IsDirectory firsts.now len) → result ≡ get_or w.sizes k 256 }
    ensures some { 0 < result }
    ensures few { result ≤ 256 }
{
    if k < firsts.len() {
        place(firsts, len, k + 1) - place(firsts, len, k)
    } else {
        256
    }
}

/// Takes the frame behind, where it would be too small beside what comes.
pub(crate) fn with_right(firsts: &[u64], len: u64, part: Part) -> Part
    requires directory { IsDirectory firsts.now len }
    requires order { part.from ≤ part.to }
    requires within { part.to ≤ length firsts.now }
    requires room { part.size + place_of firsts.now len part.from + (len - place_of firsts.now len part.to) < 2 ^ 64 }
    requires joins { (w : IsDirectory firsts.now len) → JoinsLeft w.sizes part }
    ensures { (w : IsDirectory firsts.now len) → WidensRight w.sizes part result }
{
    if part.size == 0 {
        return part;
    }
    let right = right_size(firsts, len, part.to);
    if last_size(part.size) + right > 256 {
        return part;
    }
    Part {
        from: part.from,
        to: part.to + 1,
        size: part.size + right,
    }
}

// Lines of a source, in whatever pieces it comes.
ghost use Rattle.std.specs.Prelude.{◌≡◌, ◌+◌, ◌-◌, ◌^◌, ◌<◌, ◌≤◌, ◌++◌, ℕ, List, length, take, slice_index, slice_range, IfOk, OnOk, OnErr, IfSome, IfNone};
ghost use Rattle.outer_io.specs.Outer.{Reads, IsAtMost};
ghost use Rattle.kernel_session.specs.Lines.{IsOneLine, IsKept, Filled, IsUsed, ReadsLine, LosesLine, behind, pending, stock};

use crate::line_reader::LineReader;
use commands::MAX_LINE;
use outer_io::{ReadStep, Source};
use std::alloc::{AllocError, Global};

// The bytes that one read asks for at most.
const BUFFER: usize = 1 << 16;

// The bytes that are read of a script at most.
const MAX_SCRIPT: u64 = 1 << 32;

/// What ended a line: its LF, the end of the script, a read that failed, or that no more bytes may be read.
#[derive(Clone, Copy, Debug, PartialEq, Eq)]
pub enum LineEnd {
    Newline,
    EndOfScript,
    Failed,
    Full,
}

// Reads at most so many bytes to the front of the buffer.
fn read_into<S: Source>(source: &mut S, buffer: &mut [u8], most: usize) -> ReadStep
    requires some { 0 < most }
    requires within { most ≤ length buffer.old }
    ensures reads { Reads (S.seen source.old) (S.seen source.new) buffer.new result }
    ensures most { IsAtMost most result }
    ensures len { length buffer.new ≡ length buffer.old }
{
    source.read(&mut buffer[..most])
}

// The place of the first newline between the two.
fn newline_in(bytes: &[u8]) -> Option<usize>
    ensures some { IfSome result (λ at. (at < length bytes.now) × (slice_index bytes.now at ≡ 10) × IsOneLine (take at bytes.now)) }
    ensures none { IfNone result (IsOneLine bytes.now) }
{
    bytes.iter().position(|b| *b == b'\n')
}

impl LineReader {
    /// A reader of a script from its first byte on.
    pub fn new(alloc: Global) -> Result<LineReader, AllocError>
        ensures { IfOk result (λ r. (r.start ≡ 0) × (r.end ≡ 0) × (r.room ≡ 2 ^ 32)) }
    {
        Ok(LineReader {
            buffer: vec![in alloc; 0; BUFFER]?,
            start: 0,
            end: 0,
            room: MAX_SCRIPT,
            line: Vec::new(alloc),
            is_long: false,
        })
    }

    // Adds the bytes up to a place to the line, or drops them where it would be too long.
    fn keep(&mut self, to: usize) -> Result<(), AllocError>
        requires from { self.old.start ≤ to }
        requires to { to ≤ self.old.end }
        ensures kept { (l : List ℕ) → IsKept l self.old.line.items self.old.is_long
            → OnOk result (IsKept (l ++ slice_range self.old.buffer.items self.old.start to) self.new.line.items self.new.is_long) }
        ensures place { OnOk result ((self.new.start ≡ to) × (self.new.end ≡ self.old.end)) }
        ensures buffer { self.new.buffer.items ≡ self.old.buffer.items }
        ensures room { self.new.room ≡ self.old.room }
        ensures err { OnErr result ((self.new.start ≡ self.old.start) × (self.new.end ≡ self.old.end)) }
    {
        let count = to - self.start;
        if self.is_long || self.line.len() > MAX_LINE || count > MAX_LINE - self.line.len() {
            self.is_long = true;
            self.line.clear();
        } else {
            self.line.extend_from_slice(&self.buffer[self.start..to])?;
        }
        self.start = to;
        Ok(())
    }

    // Takes more bytes, where all that were taken are used.
    fn fill<S: Source>(&mut self, source: &mut S) -> Option<LineEnd>
        requires { self.old.start ≡ self.old.end }
        ensures filled { Filled (S.seen source.old) (S.seen source.new) self.old.room self.new.room (pending self.new) result }
        ensures later { (S.seen source.old).faults ≤ (S.seen source.new).faults }
        ensures line { (self.new.line.items ≡ self.old.line.items) × (self.new.is_long ≡ self.old.is_long) }
    {
        if self.room == 0 {
            return Some(LineEnd::Full);
        }
        let most = self.room.min(self.buffer.len() as u64) as usize;
        let buffer = self.buffer.as_mut_slice();
        let step = read_into(source, buffer, most);
        match step {
            ReadStep::Got(count) => {
                self.start = 0;
                self.end = count;
                self.room -= count as u64;
                None
            }
            ReadStep::End => Some(LineEnd::EndOfScript),
            ReadStep::Failed => Some(LineEnd::Failed),
        }
    }

    /// Reads up to the next LF. Want of memory loses the line.
    pub fn next<S: Source>(&mut self, source: &mut S) -> Result<LineEnd, AllocError>
        ensures line { IfOk result (ReadsLine (behind (pending self.old) (S.seen source.old)) (behind (pending self.new) (S.seen source.new))
            (stock self.old) (stock self.new) self.new.line.items self.new.is_long) }
        ensures used { IfOk result (λ end. IsUsed end (pending self.new)) }
        ensures err { OnErr result (LosesLine (behind (pending self.old) (S.seen source.old)) (behind (pending self.new) (S.seen source.new)) (stock self.old) (stock self.new)) }
    {
        self.line.clear();
        self.is_long = false;
        'read: loop {
            let newline = newline_in(&self.buffer[self.start..self.end]);
            if let Some(at) = newline {
                let place = self.start + at;
                self.keep(place)?;
                self.start = place + 1;
                return Ok(LineEnd::Newline);
            }
            self.keep(self.end)?;
            if let Some(end) = self.fill(source) {
                return Ok(end);
            }
        }
    }
}

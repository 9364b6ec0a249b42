// A source and a sink in memory, that give and take so many bytes a call and fail at chosen calls.
ghost use Rattle.std.specs.Prelude.{◌≡◌, ◌<◌, ◌≤◌, IfOk, length, drop, vec_len, vec_capacity};
ghost use Rattle.outer_io.specs.Outer.{Reads, Writes};
ghost use Rattle.outer_io.specs.Memory.{
  MemSourceState,
  source_seen,
  fresh_source,
  read_answer,
  source_after_read,
  buffer_after_read,
  MemSinkState,
  sink_seen,
  fresh_sink,
  write_answer,
  sink_after_write,
};

use crate::pieces::{copy_front, unread};
use crate::{ReadStep, Sink, Source, WriteStep};
use std::alloc::{AllocError, Global};
use std::marker::Model;

/// A source of bytes that it keeps in memory. It tells what is left.
#[derive(Drop)]
pub struct MemSource {
    bytes: Vec<u8>,
    at: usize,
    piece: usize,
    fails: Vec<u64>,
    calls: u64,
    faults: u64,
}

impl Model for MemSource {
    ghost Value = { MemSourceState };

    ghost view = { λ s. record {
      left = drop s.at s.bytes.items;
      piece = s.piece;
      fails = s.fails.items;
      calls = s.calls;
      faults = s.faults;
    } };

    ghost invariant = { λ s. (s.at ≤ vec_len s.bytes) × (0 < s.piece) };
}

impl MemSource {
    /// A source of these bytes, that gives at most `piece` bytes a call and fails at the calls of
    /// these numbers, counted from 1. The order of the numbers is of no account.
    pub fn new(
        alloc: Global,
        bytes: &[u8],
        piece: usize,
        fails: &[u64],
    ) -> Result<MemSource, AllocError>
        requires { 0 < piece }
        ensures { IfOk result (λ source. source ≡ fresh_source bytes.now piece fails.now) }
    {
        Ok(MemSource {
            bytes: bytes.to_vec(alloc)?,
            at: 0,
            piece,
            fails: fails.to_vec(alloc)?,
            calls: 0,
            faults: 0,
        })
    }
}

impl Source for MemSource {
    ghost seen = { source_seen };

    /// Fails at the chosen calls and at no other. The counts of calls and of faults stop at the
    /// greatest u64.
    #[tactic(auto, using(crate::proofs::Parts::drop_splits))]
    fn read(&mut self, buf: &mut [u8]) -> ReadStep
        requires { 0 < length buf.old }
        ensures read { Reads (source_seen self.old) (source_seen self.new) buf.new result }
        ensures answer { result ≡ read_answer self.old (length buf.old) }
        ensures state { self.new ≡ source_after_read self.old (length buf.old) }
        ensures buffer { buf.new ≡ buffer_after_read self.old buf.old }
    {
        self.calls = self.calls.saturating_add(1);
        if self.fails.contains(&self.calls) {
            self.faults = self.faults.saturating_add(1);
            return ReadStep::Failed;
        }
        let rest = unread(&self.bytes, self.at);
        if rest.is_empty() {
            return ReadStep::End;
        }
        let count = rest.len().min(buf.len()).min(self.piece);
        copy_front(buf, rest, count);
        self.at += count;
        ReadStep::Got(count)
    }
}

/// A sink that keeps bytes in memory, as many as it was given room for. It tells what was written.
#[derive(Drop)]
pub struct MemSink {
    bytes: Vec<u8>,
    room: usize,
    piece: usize,
    fails: Vec<u64>,
    calls: u64,
    faults: u64,
}

impl Model for MemSink {
    ghost Value = { MemSinkState };

    ghost view = { λ s. record {
      bytes = s.bytes.items;
      room = s.room;
      piece = s.piece;
      fails = s.fails.items;
      calls = s.calls;
      faults = s.faults;
    } };

    ghost invariant = { λ s. (vec_len s.bytes ≤ s.room) × (s.room ≤ vec_capacity s.bytes) × (0 < s.piece) };
}

impl MemSink {
    /// A sink for `room` bytes, that takes at most `piece` bytes a call and fails at the calls of
    /// these numbers, counted from 1. The order of the numbers is of no account.
    ///
    /// The memory for `room` bytes is taken here, and no write takes any.
    pub fn new(
        alloc: Global,
        room: usize,
        piece: usize,
        fails: &[u64],
    ) -> Result<MemSink, AllocError>
        requires { 0 < piece }
        ensures { IfOk result (λ sink. sink ≡ fresh_sink room piece fails.now) }
    {
        Ok(MemSink {
            bytes: Vec::with_capacity(alloc, room)?,
            room,
            piece,
            fails: fails.to_vec(alloc)?,
            calls: 0,
            faults: 0,
        })
    }

    /// The bytes that were written, oldest first.
    pub fn bytes(&self) -> &[u8]
        ensures { result.now ≡ self.now.bytes }
    {
        self.bytes.as_slice()
    }
}

impl Sink for MemSink {
    ghost seen = { sink_seen };

    /// Fails at the chosen calls and where the room is used up, and at no other call. The counts of
    /// calls and of faults stop at the greatest u64.
    fn write(&mut self, bytes: &[u8]) -> WriteStep
        requires { 0 < length bytes.now }
        ensures write { Writes (sink_seen self.old) (sink_seen self.new) bytes.now result }
        ensures answer { result ≡ write_answer self.old (length bytes.now) }
        ensures state { self.new ≡ sink_after_write self.old bytes.now }
    {
        self.calls = self.calls.saturating_add(1);
        let count = bytes
            .len()
            .min(self.piece)
            .min(self.room - self.bytes.len());
        if self.fails.contains(&self.calls) || count == 0 {
            self.faults = self.faults.saturating_add(1);
            return WriteStep::Failed;
        }
        let _fits = self.bytes.extend_from_slice(&bytes[..count]);
        WriteStep::Took(count)
    }
}

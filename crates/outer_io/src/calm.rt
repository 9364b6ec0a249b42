// A source and a sink that never fail.
ghost use Rattle.std.specs.Prelude.{◌≡◌, ◌≢◌, ◌<◌, ◌≤◌, IfOk, List, ℕ, length, min, drop, vec_len};
ghost use Rattle.outer_io.specs.Outer.{Reads, Writes};
ghost use Rattle.outer_io.specs.Calm.{calm_source_seen, calm_sink_seen, calm_answer, calm_buffer};

use crate::pieces::{copy_front, unread};
use crate::{ReadStep, Sink, Source, WriteStep};
use std::alloc::{AllocError, Global};
use std::marker::Model;

/// A source of bytes that it keeps in memory, which never fails. It tells what is left.
#[derive(Drop)]
pub struct CalmSource {
    bytes: Vec<u8>,
    at: usize,
}

/// The bytes that are left.
impl Model for CalmSource {
    ghost Value = { List ℕ };

    ghost view = { λ s. drop s.at s.bytes.items };

    ghost invariant = { λ s. s.at ≤ vec_len s.bytes };
}

impl CalmSource {
    /// A source of these bytes.
    pub fn new(alloc: Global, bytes: &[u8]) -> Result<CalmSource, AllocError>
        ensures { IfOk result (λ source. source ≡ bytes.now) }
    {
        Ok(CalmSource {
            bytes: bytes.to_vec(alloc)?,
            at: 0,
        })
    }
}

impl Source for CalmSource {
    ghost seen = { calm_source_seen };

    /// Gives as many bytes as are left and have room in the buffer.
    #[tactic(auto, using(crate::proofs::Parts::drop_splits))]
    fn read(&mut self, buf: &mut [u8]) -> ReadStep
        requires { 0 < length buf.old }
        ensures read { Reads (calm_source_seen self.old) (calm_source_seen self.new) buf.new result }
        ensures calm { result ≢ ReadStep.Failed }
        ensures answer { result ≡ calm_answer self.old (length buf.old) }
        ensures left { self.new ≡ drop (min (length self.old) (length buf.old)) self.old }
        ensures buffer { buf.new ≡ calm_buffer self.old buf.old }
    {
        let rest = unread(&self.bytes, self.at);
        if rest.is_empty() {
            return ReadStep::End;
        }
        let count = rest.len().min(buf.len());
        copy_front(buf, rest, count);
        self.at += count;
        ReadStep::Got(count)
    }
}

/// A sink that takes all bytes at once and drops them. It never fails, takes no memory and tells
/// nothing of what was written.
#[derive(Clone, Copy, Debug, Default)]
pub struct CalmSink;

impl CalmSink {
    /// The one value of this type.
    pub fn new() -> CalmSink {
        CalmSink
    }
}

impl Sink for CalmSink {
    ghost seen = { λ _. calm_sink_seen };

    fn write(&mut self, bytes: &[u8]) -> WriteStep
        requires { 0 < length bytes.now }
        ensures write { Writes calm_sink_seen calm_sink_seen bytes.now result }
        ensures answer { result ≡ WriteStep.Took (length bytes.now) }
    {
        WriteStep::Took(bytes.len())
    }
}

// A source and a sink over any reader and writer: the edge of the program, which counts its faults and tells no bytes.
ghost use Rattle.std.specs.Prelude.{None};

use outer_io::{ReadStep, Sink, Source, WriteStep};
use std::io::{Read, Write};

/// The bytes of a reader. Each error is a fault, and the count of faults stops at the greatest u64.
#[derive(Drop)]
pub struct Reading<R> {
    inner: R,
    faults: u64,
}

impl<R: Read> Reading<R> {
    pub fn new(inner: R) -> Self {
        Reading { inner, faults: 0 }
    }
}

impl<R: Read> Source for Reading<R> {
    ghost seen = { λ s. record { left = None; faults = s.faults } };

    fn read(&mut self, buf: &mut [u8]) -> ReadStep {
        match self.inner.read(buf) {
            Ok(0) => ReadStep::End,
            Ok(count) => ReadStep::Got(count),
            Err(_) => {
                self.faults = self.faults.saturating_add(1);
                ReadStep::Failed
            }
        }
    }
}

/// The bytes of a writer. Each error is a fault, and so is a write that takes nothing of a piece; the count of faults
/// stops at the greatest u64.
#[derive(Drop)]
pub struct Writing<W> {
    inner: W,
    faults: u64,
}

impl<W: Write> Writing<W> {
    pub fn new(inner: W) -> Self {
        Writing { inner, faults: 0 }
    }
}

impl<W: Write> Sink for Writing<W> {
    ghost seen = { λ s. record { written = None; faults = s.faults } };

    fn write(&mut self, bytes: &[u8]) -> WriteStep {
        match self.inner.write(bytes) {
            Ok(0) => {}
            Ok(count) => return WriteStep::Took(count),
            Err(_) => {}
        }
        self.faults = self.faults.saturating_add(1);
        WriteStep::Failed
    }
}

#[cfg(test)]
mod tests;

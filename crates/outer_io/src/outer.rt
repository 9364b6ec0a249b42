// What a program sees of its input and its output.
ghost use Rattle.std.specs.Prelude.{◌<◌, length};
ghost use Rattle.outer_io.specs.Outer.{SourceSeen, Reads, SinkSeen, Writes};

/// What a read came to.
#[derive(Clone, Copy, Debug, PartialEq, Eq)]
pub enum ReadStep {
    /// So many bytes, at least one, stand at the front of the buffer.
    Got(usize),
    /// Nothing is left.
    End,
    /// A fault: no byte was taken, and the count of faults rose. The next read may succeed.
    Failed,
}

/// What a write came to.
#[derive(Clone, Copy, Debug, PartialEq, Eq)]
pub enum WriteStep {
    /// So many bytes, at least one, were taken from the front of those that were offered.
    Took(usize),
    /// A fault: no byte was taken, and the count of faults rose. The next write may succeed.
    Failed,
}

/// Bytes that are read in pieces of any size.
///
/// No call changes whether a source tells what is left.
pub trait Source {
    /// The bytes that are left, where the source tells them, and how often a read has failed. The
    /// count never falls, and a count that stands at the greatest u64 counts as risen.
    ghost seen: { Self → SourceSeen };

    /// Reads up to as many bytes as the buffer has, and fewer wherever the source likes.
    ///
    /// What stands in the buffer behind the bytes that came is not said.
    fn read(&mut self, buf: &mut [u8]) -> ReadStep
        requires { 0 < length buf.old }
        ensures { Reads (seen self.old) (seen self.new) buf.new result };
}

/// Bytes that are written in pieces of any size.
///
/// No call changes whether a sink tells what was written.
pub trait Sink {
    /// The bytes that were written, where the sink tells them, and how often a write has failed. The
    /// count never falls, and a count that stands at the greatest u64 counts as risen.
    ghost seen: { Self → SinkSeen };

    /// Writes the first bytes of those that are offered, one at least, or fails.
    fn write(&mut self, bytes: &[u8]) -> WriteStep
        requires { 0 < length bytes.now }
        ensures { Writes (seen self.old) (seen self.new) bytes.now result };
}

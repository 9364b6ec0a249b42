// A script on its way from its bytes to its lines.
ghost use Rattle.std.specs.Prelude.{◌<◌, ◌≤◌, vec_len};

/// The line that is being read, and the bytes that were taken and stand after it.
#[derive(Drop)]
pub struct LineReader {
    /// The bytes that were taken and aren't used stand in it from `start` to `end`.
    pub buffer: Vec<u8>,
    pub start: usize,
    pub end: usize,
    /// How many bytes may still be taken from the source.
    pub room: u64,
    /// The line without its LF; empty where `is_long`.
    pub line: Vec<u8>,
    /// Whether it has more than 2^24 bytes.
    pub is_long: bool,
    ghost ordered: { start ≤ end },
    ghost in_range: { end ≤ vec_len buffer },
    ghost some: { 0 < vec_len buffer },
}

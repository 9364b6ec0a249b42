// A reply, and how it is written.
ghost use Rattle.std.specs.Prelude.{◌≡◌, ◌+◌, ◌<◌, ◌≤◌, ◌++◌, ◌∷◌, [], length, take};
ghost use Rattle.kernel_session.specs.Replies.{HasWritten, accepted, head_of, refusal_text, text_of};
ghost use Rattle.kernel_session.specs.ReplyView.{answer_of};

use itoa::Buffer;
use outer_io::{Sink, WriteStep};
use tree_model::{Refusal, code_text};

// `ok `, the twenty digits of the longest number, and LF.
const MAX_HEAD: usize = 24;

/// What is answered to a line: `ok` with the bytes of a payload, or `err` with a code.
#[derive(Drop)]
pub enum Reply {
    Ok(Vec<u8>),
    Err(Refusal),
}

/// A write came to nothing.
#[derive(Clone, Copy, Debug, PartialEq, Eq)]
pub struct WriteFailed;

/// Writes all of the bytes, in as many calls as it takes.
pub fn write_all<K: Sink>(sink: &mut K, bytes: &[u8]) -> Result<(), WriteFailed>
    ensures { HasWritten (K.seen sink.old) (K.seen sink.new) bytes.now result }
{
    let mut rest = bytes;
    while !rest.is_empty() {
        match sink.write(rest) {
            WriteStep::Took(count) => rest = rest.split_at(count).1,
            WriteStep::Failed => return Err(WriteFailed),
        }
    }
    Ok(())
}

#[tactic(auto, using(crate::proofs::Written::first_failed))]
fn write_two<K: Sink>(sink: &mut K, first: &[u8], second: &[u8]) -> Result<(), WriteFailed>
    ensures { HasWritten (K.seen sink.old) (K.seen sink.new) (first.now ++ second.now) result }
{
    match write_all(sink, first) {
        Ok(()) => write_all(sink, second),
        Err(e) => Err(e),
    }
}

// Puts bytes at a place of a line: the place behind them.
fn put(line: &mut [u8], at: usize, bytes: &[u8]) -> usize
    requires { at + length bytes.now ≤ length line.old }
    ensures place { result ≡ at + length bytes.now }
    ensures front { take result line.new ≡ take at line.old ++ bytes.now }
    ensures len { length line.new ≡ length line.old }
{
    let end = at + bytes.len();
    line[at..end].copy_from_slice(bytes);
    end
}

// Writes a word, what follows it and LF as one piece, which takes no memory.
fn write_line<K: Sink>(sink: &mut K, word: &[u8], value: &[u8]) -> Result<(), WriteFailed>
    requires { length word.now + length value.now < 24 }
    ensures { HasWritten (K.seen sink.old) (K.seen sink.new) (word.now ++ value.now ++ 10 ∷ []) result }
{
    let mut line = [0u8; MAX_HEAD];
    let end = put(&mut line, 0, word);
    let end = put(&mut line, end, value);
    let end = put(&mut line, end, b"\n");
    write_all(sink, line.split_at(end).0)
}

// Writes the line before a payload of so many bytes.
#[tactic(auto, unfolding(crate::specs::Replies::head_of))]
fn write_head<K: Sink>(sink: &mut K, len: usize) -> Result<(), WriteFailed>
    ensures { HasWritten (K.seen sink.old) (K.seen sink.new) (head_of len) result }
{
    let mut digits = Buffer::new();
    write_line(sink, b"ok ", digits.format(len).as_bytes())
}

// Writes the line before the payload, the payload, and LF: three pieces, or two where the payload is empty.
#[tactic(auto, using(crate::proofs::Written::first_failed))]
fn write_ok<K: Sink>(sink: &mut K, payload: &[u8]) -> Result<(), WriteFailed>
    ensures { HasWritten (K.seen sink.old) (K.seen sink.new) (text_of (accepted payload.now)) result }
{
    match write_head(sink, payload.len()) {
        Ok(()) => write_two(sink, payload, b"\n"),
        Err(e) => Err(e),
    }
}

fn refusal_text(refusal: Refusal) -> &'static str
    ensures text { result.now ≡ refusal_text refusal }
    ensures len { length result.now ≤ 8 }
{
    match refusal {
        Refusal::Code(code) => code_text(code),
        Refusal::NoMemory => "XKMEM",
    }
}

/// Writes the text of a reply. The first line is offered as one piece, then the payload, then the last LF; what a write
/// leaves of a piece is offered again. Takes no memory.
pub fn write_reply<K: Sink>(sink: &mut K, reply: &Reply) -> Result<(), WriteFailed>
    ensures { HasWritten (K.seen sink.old) (K.seen sink.new) (text_of (answer_of reply.now)) result }
{
    match reply {
        Reply::Ok(payload) => write_ok(sink, payload),
        Reply::Err(refusal) => write_line(sink, b"err ", refusal_text(*refusal).as_bytes()),
    }
}

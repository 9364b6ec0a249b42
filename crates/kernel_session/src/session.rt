// A session from the first byte in to the last byte out.
ghost use Rattle.std.specs.Prelude.{◌≡◌, ◌≢◌, ◌⊎◌, ◌↔◌, ◌^◌, ◌<◌, ◌≤◌, ◌||◌, ◌++◌, ℕ, false, List, Option, Some, length, vec_len, OnOk, OnErr, IfSome, IfNone};
ghost use Rattle.std.specs.Bool.{Decides};
ghost use Rattle.std.specs.Io.KnownBytes.{append_known};
ghost use Rattle.std.specs.Option.{option_map};
ghost use Rattle.outer_io.specs.Outer.{Rose};
ghost use Rattle.commands.specs.Commands.{exit};
ghost use Rattle.commands.specs.CommandView.{form_of_command};
ghost use Rattle.kernel_session.specs.Lines.{IsKept, IsOneLine};
ghost use Rattle.kernel_session.specs.LineAnswers.{IsAnswered, IsExit, Stops, line_form, is_refusal};
ghost use Rattle.kernel_session.specs.Replies.{Answer, text_if};
ghost use Rattle.kernel_session.specs.ReplyView.{answer_of};
ghost use Rattle.kernel_session.specs.Serving.{AnswersLine, TellsStop, MeetsFault, Serves, IsWhole, IsCutShort};
ghost use Rattle.kernel_session.specs.Serving as serving;
ghost use Rattle.kernel_session.specs.Sessions.{Ran, number_of, IsShort, AreLines, joined, FileFaultsCount, no_options};
ghost use Rattle.kernel_session.specs.Steps.{Step};
ghost use Rattle.kernel_session.specs.Workspaces.{workspace, state_of};

use crate::kernel::Kernel;
use crate::line_reader::LineReader;
use crate::lines::LineEnd;
use crate::reply::{Reply, WriteFailed, write_reply};
use commands::{Command, Options, is_blank_line, read_command, without_return};
use frame_pool::Meter;
use outer_io::{Files, Sink, Source};
use std::alloc::Global;
use tree_model::{Code, Refusal};

/// How a session ended, and the status of the program.
#[derive(Clone, Copy, Debug, PartialEq, Eq)]
pub enum Status {
    /// The script was served to its end or to a line that stops it: 1 where a reply was a refusal, else 0.
    Done(bool),
    /// There are words that aren't known: 2.
    BadWords,
    /// A read failed: 3.
    ReadFault,
    /// A write failed: 4.
    WriteFault,
    /// There was no memory to read a line: 5.
    NoMemory,
    /// 2^32 bytes were read, and no end was met: 6.
    TooManyBytes,
}

// Whether a command ends the session.
fn is_exit(command: &Command<'_>) -> bool
    ensures { Decides result (form_of_command command.now ≡ exit) }
{
    matches!(command, Command::Exit)
}

// What is answered to a line that isn't too long and isn't skipped, and whether it is EXIT.
fn reply_to<F: Files>(
    alloc: Global,
    line: &[u8],
    kernel: &mut Kernel,
    files: &mut F,
    options: Options,
    meter: &mut Meter,
) -> (Reply, bool)
    requires { length line.now ≤ 2 ^ 24 }
    ensures answer { Step options (workspace (state_of kernel.old) (F.seen files.old) meter.old) (line_form line.now) (answer_of result.0)
        (workspace (state_of kernel.new) (F.seen files.new) meter.new) }
    ensures exit { Decides result.1 (line_form line.now ≡ exit) }
{
    match read_command(line) {
        Ok(command) => {
            let exits = is_exit(&command);
            (
                kernel.execute(alloc, &command, files, options, meter),
                exits,
            )
        }
        Err(refusal) => (Reply::Err(refusal), false),
    }
}

// What is answered to a line, if it isn't skipped, and whether it is EXIT.
fn reply_if<F: Files>(
    alloc: Global,
    line: &[u8],
    is_long: bool,
    kernel: &mut Kernel,
    files: &mut F,
    options: Options,
    meter: &mut Meter,
) -> (Option<Reply>, bool)
    requires { is_long ≡ false → length line.now ≤ 2 ^ 24 }
    ensures answer { AnswersLine options (workspace (state_of kernel.old) (F.seen files.old) meter.old) line.now is_long (option_map answer_of result.0)
        (workspace (state_of kernel.new) (F.seen files.new) meter.new) }
    ensures exit { (l : List ℕ) → IsKept l line.now is_long → Decides result.1 (IsExit l) }
{
    if is_long {
        return (Some(Reply::Err(Refusal::Code(Code::XKLM0001))), false);
    }
    let line = without_return(line);
    if is_blank_line(line) {
        return (None, false);
    }
    let (reply, exits) = reply_to(alloc, line, kernel, files, options, meter);
    (Some(reply), exits)
}

fn is_refused(reply: &Option<Reply>) -> bool
    ensures { result ≡ is_refusal (option_map answer_of reply.now) }
{
    matches!(reply, Some(Reply::Err(_)))
}

// A session after a line was served: whether a line was refused so far, and whether the session stops.
#[derive(Clone, Copy, Debug, PartialEq, Eq)]
pub struct Served {
    pub refused: bool,
    pub stops: bool,
}

// Writes a reply, if there is one.
fn write_if<K: Sink>(sink: &mut K, reply: &Option<Reply>) -> Result<(), WriteFailed>
    ensures later { (K.seen sink.old).faults ≤ (K.seen sink.new).faults }
    ensures ok { OnOk result ((K.seen sink.new).written ≡ append_known (K.seen sink.old).written (text_if (option_map answer_of reply.now))) }
    ensures err { OnErr result (MeetsFault (option_map answer_of reply.now) (K.seen sink.old) (K.seen sink.new)) }
{
    match reply {
        Some(reply) => write_reply(sink, reply),
        None => Ok(()),
    }
}

// Answers a line.
fn serve<K: Sink, F: Files>(
    alloc: Global,
    reader: &LineReader,
    refused: bool,
    options: Options,
    sink: &mut K,
    files: &mut F,
    kernel: &mut Kernel,
    meter: &mut Meter,
) -> Result<Served, WriteFailed>
    requires { reader.now.is_long ≡ false → vec_len reader.now.line ≤ 2 ^ 24 }
    ensures { Serves options (workspace (state_of kernel.old) (F.seen files.old) meter.old) (workspace (state_of kernel.new) (F.seen files.new) meter.new)
        reader.now.line.items reader.now.is_long refused (K.seen sink.old) (K.seen sink.new) result }
{
    let (reply, exits) = reply_if(
        alloc,
        &reader.line,
        reader.is_long,
        kernel,
        files,
        options,
        meter,
    );
    let is_refused = is_refused(&reply);
    match write_if(sink, &reply) {
        Ok(()) => Ok(Served {
            refused: refused | is_refused,
            stops: exits | (options.stop & is_refused),
        }),
        Err(e) => Err(e),
    }
}

// Why what was read is no whole line.
fn cut_short(end: LineEnd) -> Option<Status>
    ensures some { IfSome result (IsCutShort end) }
    ensures none { IfNone result (IsWhole end) }
{
    match end {
        LineEnd::Failed => Some(Status::ReadFault),
        LineEnd::Full => Some(Status::TooManyBytes),
        LineEnd::Newline | LineEnd::EndOfScript => None,
    }
}

fn ends_script(end: LineEnd) -> bool
    ensures { result ≡ serving.ends_script end }
{
    matches!(end, LineEnd::EndOfScript)
}

// Reads commands to the end of the script or to a line that stops it, and writes a reply to each before it reads on.
fn serve_lines<S: Source, K: Sink, F: Files>(
    alloc: Global,
    options: Options,
    script: &mut S,
    sink: &mut K,
    files: &mut F,
    kernel: &mut Kernel,
    meter: &mut Meter,
) -> Status
    ensures ran { Ran options (workspace (state_of kernel.old) (F.seen files.old) meter.old) (workspace (state_of kernel.new) (F.seen files.new) meter.new)
        (S.seen script.old) (S.seen script.new) (K.seen sink.old) (K.seen sink.new) result }
    ensures words { result ≢ Status.BadWords }
{
    let Ok(mut reader) = LineReader::new(alloc) else {
        return Status::NoMemory;
    };
    let mut refused = false;
    'lines: loop {
        let end = match reader.next(script) {
            Ok(end) => end,
            Err(_e) => return Status::NoMemory,
        };
        if let Some(status) = cut_short(end) {
            return status;
        }
        let served = match serve(alloc, &reader, refused, options, sink, files, kernel, meter) {
            Ok(served) => served,
            Err(_e) => return Status::WriteFault,
        };
        if served.stops || ends_script(end) {
            return Status::Done(served.refused);
        }
        refused = served.refused;
    }
}

fn number_of(status: Status) -> u8
    ensures { result ≡ number_of status }
{
    match status {
        Status::Done(refused) => { if refused { 1 } else { 0 } }
        Status::BadWords => 2,
        Status::ReadFault => 3,
        Status::WriteFault => 4,
        Status::NoMemory => 5,
        Status::TooManyBytes => 6,
    }
}

/// Serves a script of commands, one a line, up to its end or to EXIT, and answers the status of the program. Each reply is written before the next
/// line is read. No word is known yet, so any word is refused before anything is read.
pub fn run<S: Source, K: Sink, F: Files>(
    alloc: Global,
    words: &[String],
    source: &mut S,
    sink: &mut K,
    files: &mut F,
    kernel: &mut Kernel,
    meter: &mut Meter,
) -> u8
    // By status: which lines were taken, what was answered to each, and what was appended.
    ensures ran { (status : Status) × (result ≡ number_of status)
        × Ran no_options (workspace (state_of kernel.old) (F.seen files.old) meter.old) (workspace (state_of kernel.new) (F.seen files.new) meter.new)
        (S.seen source.old) (S.seen source.new) (K.seen sink.old) (K.seen sink.new) status }
    ensures words { (result ≡ 2) ↔ (0 < length words.now) }
    ensures read { result ≡ 3 → Rose (S.seen source.old).faults (S.seen source.new).faults }
    ensures write { result ≡ 4 → Rose (K.seen sink.old).faults (K.seen sink.new).faults }
    // Where nothing fails and the script is short enough, it is served to its end or to EXIT; only memory may be wanting.
    ensures complete { length words.now ≡ 0 → (bytes : List ℕ) → (S.seen source.old).left ≡ Some bytes → IsShort bytes
        → (Rose (S.seen source.old).faults (S.seen source.new).faults → ⊥) → (Rose (K.seen sink.old).faults (K.seen sink.new).faults → ⊥)
        → (result ≡ 0) ⊎ (result ≡ 1) ⊎ (result ≡ 5) }
{
    if !words.is_empty() {
        return number_of(Status::BadWords);
    }
    let options = Options {
        plain: false,
        strip: false,
        stop: false,
    };
    number_of(serve_lines(alloc, options, source, sink, files, kernel, meter))
}

/// A reply that a call on a file failed has a rise of the files' count of faults to itself.
pub fn file_faults_count()
    ensures { FileFaultsCount }
{}

/// There is one way to cut bytes into lines.
pub fn one_cut()
    ensures { (ls ks : List (List ℕ)) (l k : List ℕ) → AreLines ls → AreLines ks → IsOneLine l → IsOneLine k → joined ls ++ l ≡ joined ks ++ k → (ls ≡ ks) × (l ≡ k) }
{}

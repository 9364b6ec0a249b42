// Reads a script of commands from standard input, and writes the replies to standard output.
#![tactic(auto)]

mod files;
mod streams;
mod words;

use files::FileSystem;
use frame_pool::Meter;
use kernel_session::{Kernel, run};
use std::io;
use std::process::ExitCode;
use streams::{Reading, Writing};
use words::words_of;

fn main(rt: HostRuntime) -> ExitCode {
    let words = match words_of(&rt) {
        Ok(words) => words,
        Err(status) => return ExitCode::from(status),
    };
    let mut source = Reading::new(rt.reader());
    let mut sink = Writing::new(io::writer(&rt));
    let mut files = FileSystem::new(&rt);
    let mut kernel = Kernel::new(rt.alloc());
    let mut meter = Meter::new();
    let status = run(
        rt.alloc(),
        &words,
        &mut source,
        &mut sink,
        &mut files,
        &mut kernel,
        &mut meter,
    );
    ExitCode::from(status)
}

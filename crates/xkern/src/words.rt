// The words of the command line.
use std::alloc::Global;
use std::rt::Env;
use std::{env, io};

/// The status where a word isn't known, or isn't UTF-8.
const BAD_WORDS: u8 = 2;

/// The status where there is no memory for the words.
const NO_MEMORY: u8 = 5;

/// The words after the program's name, or the status of a program that can't have them.
pub fn words_of<R: Env + AllocGlobal>(rt: &R) -> Result<Vec<String>, u8> {
    let all = match env::args(rt) {
        Ok(all) => all,
        Err(e) => match e.kind() {
            io::ErrorKind::InvalidData => return Err(BAD_WORDS),
            _ => return Err(NO_MEMORY),
        },
    };
    let alloc: Global = rt.alloc();
    let mut words = Vec::new(alloc);
    for word in all.skip(1) {
        if words.push(word).is_err() {
            return Err(NO_MEMORY);
        }
    }
    Ok(words)
}

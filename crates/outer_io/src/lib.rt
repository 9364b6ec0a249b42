//! The outside, as traits: a source of bytes, a sink of bytes, and files, each with counts of its faults.
#![tactic(auto)]

mod calm;
mod calm_files;
mod entries;
mod files;
mod memory;
mod memory_files;
mod outer;
mod pieces;

pub use calm::{CalmSink, CalmSource};
pub use calm_files::CalmFiles;
pub use files::{FileEntry, FileRead, FileWrite, Files, one_file_written};
pub use memory::{MemSink, MemSource};
pub use memory_files::MemFiles;
pub use outer::{ReadStep, Sink, Source, WriteStep};

#[cfg(test)]
mod tests;

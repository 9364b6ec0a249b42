//! The command that a line of a script holds.
#![tactic(auto)]

mod blanks;
mod command;
mod file;
mod input;
mod number;
mod options;
mod path;
mod query;
mod word;

pub use blanks::{is_blank_line, without_return};
pub use command::{Command, MAX_LINE, read_command};
pub use file::{DocumentFile, FileName};
pub use input::{DocumentInput, Input, XmlText};
pub use number::Number;
pub use options::Options;
pub use path::DocumentPath;
pub use query::QueryText;

#[cfg(test)]
mod tests;

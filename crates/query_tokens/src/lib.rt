//! The lexical rules of queries as functions, where comments end, and the way down into nests.
#![tactic(auto)]

mod axes;
mod characters;
mod class;
mod comment_table;
mod descent;
mod names;
mod node_tests;
mod source;
mod store;
mod strings;
mod written;

pub use class::{CharClass, first};
pub use comment_table::comment_ends;
pub use descent::{Descent, tried};
pub use source::{QuerySource, front};
pub use written::{
    Quote, Target, WrittenChar, WrittenName, WrittenNumber, WrittenStep, WrittenString,
    WrittenTest, WrittenVariable,
};

#[cfg(test)]
mod tests;

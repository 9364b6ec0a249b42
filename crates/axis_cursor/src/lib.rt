//! The axes of a node, walked over the rows of a table without reading more of them than is given.
#![tactic(auto)]

mod cursor;
mod node_test;
mod origin;
mod rows;
mod start;
mod steps;
mod walk;

pub use cursor::Cursor;
pub use node_test::passes;
pub use rows::row_at;

#[cfg(test)]
mod tests;

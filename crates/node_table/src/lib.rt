//! The nodes of documents as rows of one table.
#![tactic(auto)]

mod part;
mod reader;
mod table;

pub use part::Part;
pub use reader::RowReader;
pub use table::NodeTable;

#[cfg(test)]
mod tests;

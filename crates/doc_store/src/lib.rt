//! A database: its documents as rows of one table, and branches of it on which changes are made.
#![tactic(auto)]

mod branch;
mod database;
mod documents;
mod rows;

pub use branch::Branch;
pub use database::Database;
pub use documents::{document_count, document_places, find_document};

#[cfg(test)]
mod tests;

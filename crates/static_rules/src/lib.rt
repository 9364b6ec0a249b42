//! The static rules of queries: the first fault of a query, or the query with the URIs of its names.
#![tactic(auto)]

mod fault;
mod prolog;
mod state;
mod updating;
mod verdict;
mod walk;

pub use verdict::{Checked, check};

//! A query with the URIs of its names.
#![tactic(auto)]

mod names;
mod resolver;
mod terms;
mod walk;

pub use walk::resolve;

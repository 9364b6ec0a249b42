//! The reading of queries: the tree that the rules give, or why there is none.
#![tactic(auto)]

mod nests;
mod prolog;
mod reading;

pub use reading::parse;

#[cfg(test)]
mod tests;

//! Operators and comparisons between paths: what is read of them, as terms.
#![tactic(auto)]

mod comparators;
mod comparisons;
mod logic;
mod operators;
mod signs;
mod sums;
mod symbols;

pub use logic::disjunction;

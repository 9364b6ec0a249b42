//! What XPath's operators make of items: truth, comparison, arithmetic and order.
#![tactic(auto)]

mod casts;
mod comparison;
mod operators;
mod truth_value;

pub use comparison::{general, order, single};
pub use operators::arithmetic;
pub use truth_value::truth;

#[cfg(test)]
mod tests;

//! Decimal numbers in millionths: reading, printing and arithmetic.
#![tactic(auto)]

mod arithmetic;
mod fault;
mod printing;
mod reading;

pub use arithmetic::{add, div, idiv, modulo, mul, round, sub};
pub use fault::NumFault;
pub use printing::{push_text, text};
pub use reading::read;

#[cfg(test)]
mod tests;

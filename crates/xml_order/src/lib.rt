//! Whether the pieces of an XML text stand in the order of a document.
#![tactic(auto)]

mod control;
mod names;

pub use control::Control;

#[cfg(test)]
mod tests;

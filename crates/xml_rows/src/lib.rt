//! Rows, names and values from the pieces of an XML text.
#![tactic(auto)]

mod attribute_values;
mod attributes;
mod builder;
mod characters;
mod content;
mod declarations;
mod elements;
mod expanded;
mod names;
mod parts;
mod rows;
mod scope;
mod tag;
mod tags;
mod texts;
mod uris;
mod values;

pub use builder::{Builder, Made};
pub use parts::Fault;

#[cfg(test)]
mod tests;

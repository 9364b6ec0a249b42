//! At which pre number the node with an id stands.
#![tactic(auto)]

mod map;
mod places;
mod runs;
mod span;

pub use map::IdMap;
pub use span::Span;

#[cfg(test)]
mod tests;

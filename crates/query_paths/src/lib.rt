//! Queries that are paths without predicates, prefixes and declarations: their steps, or why a text is refused.
#![tactic(auto)]

mod asked;
mod path;

pub use asked::read_query;
pub use path::path_in;

#[cfg(test)]
mod good_texts;
#[cfg(test)]
mod tests;
#[cfg(test)]
mod texts;

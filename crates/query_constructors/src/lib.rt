//! Direct and computed constructors of queries: what is read of them, as terms.
#![tactic(auto)]

mod attributes;
mod characters;
mod comments;
mod computed_constructors;
mod contents;
mod elements;
mod markup;
mod quoted;
mod run;

pub use computed_constructors::computed;
pub use elements::element;
pub use markup::direct;

//! Sequences of items that lie in counted frames.
#![tactic(auto)]

mod change;
mod directory;
mod frame_items;
mod moves;
mod paged;
mod part;
mod reader;
mod replace;

pub use paged::PagedSeq;
pub use reader::Reader;

#[cfg(test)]
mod tests;

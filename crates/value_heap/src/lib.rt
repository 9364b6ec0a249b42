//! The bytes of values by place.
#![tactic(auto)]

mod heap;

pub use heap::ValueHeap;

#[cfg(test)]
mod tests;

//! Names by number.
#![tactic(auto)]

mod parts;
mod pool;

pub use pool::NamePool;

#[cfg(test)]
mod tests;

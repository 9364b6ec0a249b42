//! What a step, and a path of steps, leads to from many nodes at once.
#![tactic(auto)]

mod below;
mod climb;
mod keep;
mod laws;
mod order;
mod siblings;
mod steps;
mod trees;
mod walk;

pub use laws::children_of_all_are_descendants;
pub use steps::{path, step};
pub use trees::Trees;

#[cfg(test)]
mod tests;

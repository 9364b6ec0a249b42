//! The rows of a table as text, and nodes as XML.
#![tactic(auto)]

mod atom;
mod bindings;
mod declarations;
mod escape;
mod node;
mod rows;
mod storage;

pub use atom::print_atom;
pub use node::print_node;
pub use storage::{print_storage, push_number};

#[cfg(test)]
mod tests;

//! Reads the XML of a document into rows, names and values.
#![tactic(auto)]

mod fault;
mod head;
mod reading;
mod subset;
mod whole_text;

pub use fault::ImportFault;
pub use node_table::Part as Built;
pub use whole_text::import;

#[cfg(test)]
mod tests;

//! Where a term of a query stands: the namespaces in force and the variables in scope.
#![tactic(auto)]

mod declared;
mod environment;

pub use declared::{declare_all, is_declaration};
pub use environment::{Environment, FUNCTIONS_URI, MAX_DEPTH, XML_URI, XMLNS_URI};

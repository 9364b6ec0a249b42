//! FLWOR, quantified, conditional and updating expressions: what is read of them, as terms.
#![tactic(auto)]

mod bindings;
mod branches;
mod flwor_expressions;
mod orders;
mod places;
mod quantified_expressions;
mod updates;

pub use branches::conditional;
pub use flwor_expressions::flwor;
pub use quantified_expressions::quantified;
pub use updates::{delete, insert, rename, replace};

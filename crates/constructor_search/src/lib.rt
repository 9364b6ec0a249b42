//! Whether an expression holds a constructor.
#![tactic(auto)]

mod holding;

pub use holding::holds_constructor;

//! Primary expressions, steps and paths of queries: what is read of them, as terms.
#![tactic(auto)]

mod calls;
mod paths;
mod primaries;
mod reserved;
mod steps;

pub use paths::path;

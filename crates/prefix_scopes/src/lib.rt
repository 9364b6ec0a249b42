//! The prefixes in scope while XML is read or printed.
#![tactic(auto)]

mod hashed;
mod scopes;

pub use scopes::PrefixScopes;

#[cfg(test)]
mod tests;

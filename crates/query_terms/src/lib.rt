//! The tree of a query, and the definition of its reading: the grammar as a table of rules, and what fits.
#![tactic(auto)]

mod parts;
mod query;
mod stop;
mod tree;

pub use parts::{
    Binding, Comparator, ComputedKind, Literal, NodeTest, Operator, PathStart, Place, QName,
    Quantifier, Scope, Span, UnnamedKind, Variable,
};
pub use query::Query;
pub use stop::{Nest, Stop, SyntaxFault};
pub use tree::{
    Attribute, Clause, Content, Declaration, Expr, Operand, OrderKey, PathStep, QueryTree,
};

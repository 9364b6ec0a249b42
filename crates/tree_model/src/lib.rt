//! Documents as trees, as rows of a table and as text: the plain types and the definitions that all other crates cite.
#![tactic(auto)]

mod axis;
mod code;
mod function;
mod item;
mod laws;
mod row;
mod text;

pub use axis::{Axis, AxisStep, Test};
pub use code::{Code, Refusal, code_text};
pub use function::Function;
pub use item::{ArithOp, CompOp, Item, NodeRef, Num, TreeRef};
pub use laws::{
    equal_flattenings, ids_lead_to_places, sound_documents_are_loose, spelled_trees_are_sound,
};
pub use row::{Kind, Row, ValueRef};
pub use text::{Name, NoMemory, Text};

#[cfg(test)]
mod tests;

// Items, and the numbers among them.
ghost use Rattle.std.specs.Prelude.{◌≡◌, IfOk};

use crate::text::{NoMemory, Text};
use std::marker::Model;

/// A decimal number in millionths, whose absolute value is below 10^18: six digits behind the point, and twelve before it.
/// Contracts see the millionths.
#[derive(Clone, Copy, Debug, PartialEq, Eq)]
pub struct Num(pub i64);

impl Model for Num {
    ghost use Rattle.std.specs.Prelude.{ℤ, ◌<◌, ◌^◌, unsigned_abs};
    ghost use Rattle.std.specs.Coded.{coded_ℤ};

    ghost Value = { ℤ };

    ghost coded = { coded_ℤ };

    ghost view = { λ n. n.0 };

    ghost invariant = { λ n. unsigned_abs n.0 < 10 ^ 18 };

    ghost inverse = { λ z. record { 0 = z } };
}

/// The tree in which a node stands: the documents of a database, by its place in order of making from 0, or a tree that was
/// constructed, by its place among these.
#[derive(Clone, Copy, Debug, PartialEq, Eq)]
pub enum TreeRef {
    Stored(u32),
    Made(u32),
}

/// A node by its id.
#[derive(Clone, Copy, Debug, PartialEq, Eq)]
pub struct NodeRef {
    pub tree: TreeRef,
    pub id: u32,
}

/// An item of a sequence (XQuery 1.0 and XPath 2.0 Data Model, section 2.4). `Untyped` is the value of a node without type.
#[derive(Debug, Drop, PartialEq, Eq)]
pub enum Item {
    Node(NodeRef),
    Str(Text),
    Untyped(Text),
    Number(Num),
    Bool(bool),
}

impl Item {
    /// An equal item, on the same allocator.
    pub fn copy(&self) -> Result<Item, NoMemory>
        ensures { IfOk result (λ item. item ≡ self.now) }
    {
        Ok(match self {
            Item::Node(node) => Item::Node(*node),
            Item::Str(text) => Item::Str(text.copy()?),
            Item::Untyped(text) => Item::Untyped(text.copy()?),
            Item::Number(number) => Item::Number(*number),
            Item::Bool(value) => Item::Bool(*value),
        })
    }
}

/// What a comparison asks for (XPath 2.0, section 3.5): `eq` and `=`, `ne` and `!=`, and so on.
#[derive(Clone, Copy, Debug, PartialEq, Eq)]
pub enum CompOp {
    Eq,
    Ne,
    Lt,
    Le,
    Gt,
    Ge,
}

/// The operators of arithmetic (XPath 2.0, section 3.4).
#[derive(Clone, Copy, Debug, PartialEq, Eq)]
pub enum ArithOp {
    Add,
    Sub,
    Mul,
    Div,
    Idiv,
    Mod,
}

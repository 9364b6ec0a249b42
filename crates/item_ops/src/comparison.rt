// Order and comparison.
ghost use Rattle.std.specs.Prelude.{◌≡◌, Some, IsSome};
ghost use Rattle.tree_model.specs.Items.{text_order, order_of, holds, compared, pair, against, general, single};
ghost use Rattle.tree_model.specs.declared.item.Item.TheVariants.{Untyped};
ghost use Rattle.tree_model.specs.Outcomes.{IsAnswer};

use crate::casts::{Cast, boolean_of, number_of};
use std::cmp::Ordering;
use tree_model::{Code, CompOp, Item, Text};

fn text_order(left: &Text, right: &Text) -> Ordering
    ensures { result ≡ text_order left.now right.now }
{
    left.as_str().cmp(right.as_str())
}

fn order_of(left: &Item, right: &Item) -> Option<Ordering>
    ensures { result ≡ order_of left.now right.now }
{
    match (left, right) {
        (Item::Str(a) | Item::Untyped(a), Item::Str(b) | Item::Untyped(b)) => {
            Some(text_order(a, b))
        }
        (Item::Number(a), Item::Number(b)) => Some(a.0.cmp(&b.0)),
        (Item::Bool(a), Item::Bool(b)) => Some(a.cmp(b)),
        _ => None,
    }
}

/// The order of two items of one type, none of them a node: texts by code point, where an untyped value counts as a string,
/// numbers by value, and false before true.
pub fn order(left: &Item, right: &Item) -> Ordering
    requires { IsSome (order_of left.now right.now) }
    ensures { order_of left.now right.now ≡ Some result }
{
    order_of(left, right).unwrap()
}

fn holds(op: CompOp, order: Ordering) -> bool
    ensures { result ≡ holds op order }
{
    match op {
        CompOp::Eq => order.is_eq(),
        CompOp::Ne => order.is_ne(),
        CompOp::Lt => order.is_lt(),
        CompOp::Le => order.is_le(),
        CompOp::Gt => order.is_gt(),
        CompOp::Ge => order.is_ge(),
    }
}

#[tactic(auto, unfolding(tree_model::specs::Items::compared))]
fn compared(op: CompOp, left: &Item, right: &Item) -> Result<bool, Code>
    ensures { IsAnswer (compared op left.now right.now) result }
{
    match order_of(left, right) {
        Some(order) => Ok(holds(op, order)),
        None => Err(Code::XPTY0004),
    }
}

// A pair whose left item is untyped.
#[tactic(auto, unfolding(tree_model::specs::Items::pair, tree_model::specs::Items::compared))]
fn untyped_pair(op: CompOp, left: &mut Cast<'_>, right: &Item) -> Result<bool, Code>
    ensures value { IsAnswer (pair op (Untyped left.old.text.now) right.now) result }
    ensures text { left.new.text.now ≡ left.old.text.now }
{
    match right {
        Item::Number(number) => Ok(holds(op, left.number()?.0.cmp(&number.0))),
        Item::Bool(value) => Ok(holds(op, left.boolean()?.cmp(value))),
        Item::Str(text) | Item::Untyped(text) => Ok(holds(op, text_order(left.text, text))),
        Item::Node(_) => Err(Code::XPTY0004),
    }
}

#[tactic(auto, unfolding(tree_model::specs::Items::pair, tree_model::specs::Items::compared))]
fn pair(op: CompOp, left: &Item, right: &Item) -> Result<bool, Code>
    ensures { IsAnswer (pair op left.now right.now) result }
{
    match (left, right) {
        (Item::Untyped(text), _) => untyped_pair(op, &mut Cast::of(text), right),
        (Item::Number(a), Item::Untyped(b)) => Ok(holds(op, a.0.cmp(&number_of(b)?.0))),
        (Item::Bool(a), Item::Untyped(b)) => Ok(holds(op, a.cmp(&boolean_of(b)?))),
        _ => compared(op, left, right),
    }
}

// An untyped item with each on the right. It is cast to a type once.
#[tactic(auto, unfolding(tree_model::specs::Items::against))]
fn untyped_against(op: CompOp, left: &Text, right: &[Item]) -> Result<bool, Code>
    ensures { IsAnswer (against op (Untyped left.now) right.now) result }
{
    let mut cast = Cast::of(left);
    for item in right {
        if untyped_pair(op, &mut cast, item)? {
            return Ok(true);
        }
    }
    Ok(false)
}

#[tactic(auto, unfolding(tree_model::specs::Items::against))]
fn typed_against(op: CompOp, left: &Item, right: &[Item]) -> Result<bool, Code>
    ensures { IsAnswer (against op left.now right.now) result }
{
    for item in right {
        if pair(op, left, item)? {
            return Ok(true);
        }
    }
    Ok(false)
}

fn against(op: CompOp, left: &Item, right: &[Item]) -> Result<bool, Code>
    ensures { IsAnswer (against op left.now right.now) result }
{
    match left {
        Item::Untyped(text) => untyped_against(op, text, right),
        _ => typed_against(op, left, right),
    }
}

/// Whether a pair of items, one of each side, holds (XPath 2.0, section 3.5.2). An untyped item is cast to the type of a
/// number or a boolean beside it. The pairs go by the left item and then by the right: what is answered is the first that
/// holds or is an error. XPTY0004 for items of two types and for nodes, FORG0001 for an untyped item that can't be cast, and
/// FOAR0002 for one that is a number out of range.
#[tactic(auto, unfolding(tree_model::specs::Items::general))]
pub fn general(op: CompOp, left: &[Item], right: &[Item]) -> Result<bool, Code>
    ensures { IsAnswer (general op left.now right.now) result }
{
    for item in left {
        if against(op, item, right)? {
            return Ok(true);
        }
    }
    Ok(false)
}

/// Whether one item compares so with another (XPath 2.0, section 3.5.1): nothing where a side is empty. An untyped item
/// counts as a string. XPTY0004 for two items on a side, for items of two types and for nodes.
pub fn single(op: CompOp, left: &[Item], right: &[Item]) -> Result<Option<bool>, Code>
    ensures { IsAnswer (single op left.now right.now) result }
{
    match (left, right) {
        ([], _) | (_, []) => Ok(None),
        ([a], [b]) => Ok(Some(compared(op, a, b)?)),
        _ => Err(Code::XPTY0004),
    }
}

// Arithmetic.
ghost use Rattle.tree_model.specs.Items.{operand, one_operand, applied, arithmetic};
ghost use Rattle.tree_model.specs.Outcomes.{IsAnswer};

use crate::casts::number_of;
use dec_num::{add, div, idiv, modulo, mul, sub};
use tree_model::{ArithOp, Code, Item, Num};

#[tactic(auto, unfolding(tree_model::specs::Items::operand))]
fn operand(item: &Item) -> Result<Num, Code>
    ensures { IsAnswer (operand item.now) result }
{
    match item {
        Item::Number(number) => Ok(*number),
        Item::Untyped(text) => number_of(text),
        Item::Node(_) | Item::Str(_) | Item::Bool(_) => Err(Code::XPTY0004),
    }
}

fn one_operand(items: &[Item]) -> Result<Num, Code>
    ensures { IsAnswer (one_operand items.now) result }
{
    match items {
        [item] => operand(item),
        _ => Err(Code::XPTY0004),
    }
}

fn applied(op: ArithOp, left: Num, right: Num) -> Result<Num, Code>
    ensures { IsAnswer (applied op left right) result }
{
    match op {
        ArithOp::Add => add(left, right),
        ArithOp::Sub => sub(left, right),
        ArithOp::Mul => mul(left, right),
        ArithOp::Div => div(left, right),
        ArithOp::Idiv => idiv(left, right),
        ArithOp::Mod => modulo(left, right),
    }
}

/// What an operator of arithmetic makes of its operands (XPath 2.0, section 3.4): nothing where one of them is empty. The
/// first of these is answered: XPTY0004 for an operand of several items, or of one that is neither a number nor untyped,
/// FORG0001 and FOAR0002 for an untyped one that is no number or one out of range, the left operand before the right, then
/// FOAR0001 for a divisor of zero and FOAR0002 for a result out of range.
#[tactic(auto, unfolding(tree_model::specs::Items::arithmetic))]
pub fn arithmetic(op: ArithOp, left: &[Item], right: &[Item]) -> Result<Option<Num>, Code>
    ensures { IsAnswer (arithmetic op left.now right.now) result }
{
    if left.is_empty() || right.is_empty() {
        return Ok(None);
    }
    let a = one_operand(left)?;
    let b = one_operand(right)?;
    let number = applied(op, a, b)?;
    Ok(Some(number))
}

// Effective boolean value.
ghost use Rattle.tree_model.specs.Items.{truth};
ghost use Rattle.tree_model.specs.Outcomes.{IsAnswer};

use tree_model::{Code, Item};

/// The effective boolean value (XPath 2.0, section 2.4.3). FORG0006 for several items whose first is no node.
pub fn truth(items: &[Item]) -> Result<bool, Code>
    ensures { IsAnswer (truth items.now) result }
{
    let [first, more @ ..] = items else {
        return Ok(false);
    };
    match first {
        Item::Node(_) => Ok(true),
        _ if !more.is_empty() => Err(Code::FORG0006),
        Item::Str(text) | Item::Untyped(text) => Ok(!text.as_str().is_empty()),
        Item::Number(number) => Ok(number.0 != 0),
        Item::Bool(value) => Ok(*value),
    }
}

// Casts of untyped values to the type of an operand beside them.
ghost use Rattle.std.specs.Prelude.{◌≡◌, ◌-◌, length, take, drop, Ok, IfSome};
ghost use Rattle.std.proofs.Props.{props};
ghost use Rattle.std.specs.List.{prefix_len, suffix_len};
ghost use Rattle.tree_model.specs.Items.{number_of, boolean_of};
ghost use Rattle.tree_model.specs.Numbers.{is_blank, trimmed};
ghost use Rattle.tree_model.specs.Outcomes.{IsAnswer};

use dec_num::{NumFault, read};
use tree_model::{Code, Num, Text};

#[tactic(auto, unfolding(tree_model::specs::Items::number_of))]
pub(crate) fn number_of(text: &Text) -> Result<Num, Code>
    ensures { IsAnswer (number_of text.now) result }
{
    match read(text.as_str().as_bytes()) {
        Ok(number) => Ok(number),
        Err(NumFault::BadText) => Err(Code::FORG0001),
        Err(NumFault::Range) => Err(Code::FOAR0002),
    }
}

fn is_blank(byte: u8) -> bool
    ensures { result ≡ is_blank byte }
{
    matches!(byte, b' ' | b'\t' | b'\n' | b'\r')
}

fn trim_start(text: &[u8]) -> &[u8]
    ensures { result.now ≡ drop (prefix_len is_blank text.now) text.now }
{
    let mut rest = text;
    while let [first, more @ ..] = rest
        && is_blank(*first)
    {
        rest = more;
    }
    rest
}

fn trim_end(text: &[u8]) -> &[u8]
    ensures { result.now ≡ take (length text.now - suffix_len is_blank text.now) text.now }
{
    let mut rest = text;
    while let [more @ .., last] = rest
        && is_blank(*last)
    {
        rest = more;
    }
    rest
}

#[tactic(auto, unfolding(tree_model::specs::Numbers::trimmed))]
fn trimmed(text: &[u8]) -> &[u8]
    ensures { result.now ≡ trimmed text.now }
{
    trim_end(trim_start(text))
}

#[tactic(auto, unfolding(tree_model::specs::Items::boolean_of))]
pub(crate) fn boolean_of(text: &Text) -> Result<bool, Code>
    ensures { IsAnswer (boolean_of text.now) result }
{
    match trimmed(text.as_str().as_bytes()) {
        b"true" | b"1" => Ok(true),
        b"false" | b"0" => Ok(false),
        _ => Err(Code::FORG0001),
    }
}

// An untyped value and what it was cast to so far.
#[derive(Drop)]
pub(crate) struct Cast<'a> {
    pub(crate) text: &'a Text,
    number: Option<Num>,
    boolean: Option<bool>,
    ghost number_read: { IfSome number (λ z. number_of text.now ≡ Ok z) } by { Prim.hlevel props },
    ghost boolean_read: { IfSome boolean (λ b. boolean_of text.now ≡ Ok b) } by { Prim.hlevel props },
}

impl<'a> Cast<'a> {
    pub(crate) fn of(text: &'a Text) -> Cast<'a>
        ensures { result.text.now ≡ text.now }
    {
        Cast {
            text,
            number: None,
            boolean: None,
        }
    }

    pub(crate) fn number(&mut self) -> Result<Num, Code>
        ensures value { IsAnswer (number_of self.old.text.now) result }
        ensures text { self.new.text.now ≡ self.old.text.now }
    {
        if let Some(number) = self.number {
            return Ok(number);
        }
        let number = number_of(self.text)?;
        self.number = Some(number);
        Ok(number)
    }

    pub(crate) fn boolean(&mut self) -> Result<bool, Code>
        ensures value { IsAnswer (boolean_of self.old.text.now) result }
        ensures text { self.new.text.now ≡ self.old.text.now }
    {
        if let Some(boolean) = self.boolean {
            return Ok(boolean);
        }
        let boolean = boolean_of(self.text)?;
        self.boolean = Some(boolean);
        Ok(boolean)
    }
}

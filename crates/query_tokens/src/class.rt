// Classes of characters, and the first character of a text.
ghost use Rattle.std.specs.Prelude.{◌≡◌};
ghost use Rattle.std.specs.Option.{option_map};
ghost use Rattle.query_terms.specs.Rule as rule;
ghost use Rattle.query_tokens.specs.Reads.{in_class, with_rest};

use xml_pieces::{is_inner_name_char, is_name_start_char, is_space};

/// A class of characters that a rule reads.
#[derive(Clone, Copy)]
pub enum CharClass {
    Space,
    NameStart,
    NameChar,
    Digit,
    HexDigit,
}

fn is_space_char(character: char) -> bool
    ensures { result ≡ in_class CharClass.Space character }
{
    character == ' ' || character == '\t' || character == '\n' || character == '\r'
}

impl CharClass {
    /// Whether a character is of the class.
    pub fn has(self, character: char) -> bool
        ensures { result ≡ in_class self character }
    {
        match self {
            CharClass::Space => is_space_char(character),
            CharClass::NameStart => is_name_start_char(character),
            CharClass::NameChar => is_inner_name_char(character),
            CharClass::Digit => character.is_ascii_digit(),
            CharClass::HexDigit => character.is_ascii_hexdigit(),
        }
    }
}

/// The first character, and the text behind it.
#[tactic(auto, using(crate::proofs::Words::first_none, crate::proofs::Words::first_some))]
pub fn first(text: &str) -> Option<(char, &str)>
    ensures { option_map with_rest result ≡ rule.first text.now }
{
    let mut chars = text.chars();
    let found = chars.next()?;
    Some((found, chars.as_str()))
}

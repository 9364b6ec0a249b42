// References to characters and entities.
ghost use Rattle.std.specs.Prelude.{◌≡◌, ◌≤◌, ◌<◌, true, length, min};
ghost use Rattle.std.specs.List.{prefix_len, list_all};
ghost use Rattle.std.specs.Char.{is_ascii_digit, is_ascii_hexdigit, digit_value};
ghost use Rattle.std.specs.Option.{option_map};
ghost use Rattle.tree_model.specs.XmlChars as chars;
ghost use Rattle.tree_model.specs.XmlGood as good;
ghost use Rattle.xml_pieces.specs.Item as read;
ghost use Rattle.xml_pieces.specs.View.{two, view};

use crate::chars::is_xml_char;
use crate::names::ncname;
use crate::piece::Piece;
use crate::words::word;

/// The first number that is too great for a character.
const LIMIT: u32 = 0x11_0000;

fn decimal_len(bytes: &[u8]) -> usize
    ensures len { result ≡ prefix_len is_ascii_digit bytes.now }
    ensures within { result ≤ length bytes.now }
{
    let mut len = 0;
    while len < bytes.len() && bytes[len].is_ascii_digit() {
        len += 1;
    }
    len
}

fn hexadecimal_len(bytes: &[u8]) -> usize
    ensures len { result ≡ prefix_len is_ascii_hexdigit bytes.now }
    ensures within { result ≤ length bytes.now }
{
    let mut len = 0;
    while len < bytes.len() && bytes[len].is_ascii_hexdigit() {
        len += 1;
    }
    len
}

fn value_of(digit: u8) -> u32
    ensures value { result ≡ digit_value digit }
    ensures below { result ≤ 36 }
{
    match digit {
        b'0'..=b'9' => u32::from(digit - b'0'),
        b'A'..=b'Z' => u32::from(digit - b'A') + 10,
        b'a'..=b'z' => u32::from(digit - b'a') + 10,
        _ => 36,
    }
}

// The number that the digits spell, or the limit where it is less.
fn number_of(base: u32, digits: &[u8]) -> u32
    requires low { 1 ≤ base }
    requires high { base ≤ 16 }
    ensures { result ≡ min (good.number_from base 0 digits.now) LIMIT }
{
    let mut number: u32 = 0;
    for digit in digits {
        number = (number * base + value_of(*digit)).min(LIMIT);
    }
    number
}

/// The character that digits spell in a base.
pub fn char_of(base: u32, digits: &[u8]) -> char
    requires low { 1 ≤ base }
    requires high { base ≤ 16 }
    requires is_char { chars.is_xml_char (good.number_from base 0 digits.now) ≡ true }
    ensures { result ≡ good.number_from base 0 digits.now }
{
    char::from_u32(number_of(base, digits)).unwrap_or('?')
}

/// Whether digits spell the code of a character that a document may hold, in a base.
#[tactic(auto, using(crate::proofs::Numbers::char_of_cut))]
pub fn is_char_number(base: u32, digits: &[u8]) -> bool
    requires low { 1 ≤ base }
    requires high { base ≤ 16 }
    ensures { result ≡ chars.is_xml_char (good.number_from base 0 digits.now) }
{
    is_xml_char(number_of(base, digits))
}

fn starts_decimal(bytes: &[u8]) -> bool
    ensures { result ≡ chars.first_is is_ascii_digit bytes.now }
{
    match bytes {
        [first, ..] => first.is_ascii_digit(),
        [] => false,
    }
}

fn starts_hexadecimal(bytes: &[u8]) -> bool
    ensures { result ≡ chars.first_is is_ascii_hexdigit bytes.now }
{
    match bytes {
        [first, ..] => first.is_ascii_hexdigit(),
        [] => false,
    }
}

fn all_decimal(bytes: &[u8]) -> bool
    ensures { result ≡ list_all is_ascii_digit bytes.now }
{
    bytes.iter().all(|byte| byte.is_ascii_digit())
}

fn all_hexadecimal(bytes: &[u8]) -> bool
    ensures { result ≡ list_all is_ascii_hexdigit bytes.now }
{
    bytes.iter().all(|byte| byte.is_ascii_hexdigit())
}

#[tactic(auto, unfolding(tree_model::specs::XmlGood::is_decimal))]
fn is_decimal(digits: &[u8]) -> bool
    ensures { result ≡ good.is_decimal digits.now }
{
    starts_decimal(digits) && all_decimal(digits) && is_char_number(10, digits)
}

#[tactic(auto, unfolding(tree_model::specs::XmlGood::is_hexadecimal))]
fn is_hexadecimal(digits: &[u8]) -> bool
    ensures { result ≡ good.is_hexadecimal digits.now }
{
    starts_hexadecimal(digits) && all_hexadecimal(digits) && is_char_number(16, digits)
}

#[tactic(auto, unfolding(crate::specs::Item::entity_reference))]
fn entity_reference(bytes: &[u8]) -> Option<(&[u8], &[u8])>
    ensures { option_map (λ x. ((x.0.now, tt), x.1.now)) result ≡ read.entity_reference bytes.now }
{
    let (name, after) = ncname(bytes)?;
    let after = word(after, b";")?;
    Some((name, after))
}

#[tactic(auto, unfolding(crate::specs::Item::decimal_reference))]
fn decimal_reference(bytes: &[u8]) -> Option<(&[u8], &[u8])>
    ensures { option_map (λ x. ((x.0.now, tt), x.1.now)) result ≡ read.decimal_reference bytes.now }
{
    let (digits, after) = bytes.split_at(decimal_len(bytes));
    if !is_decimal(digits) {
        return None;
    }
    let after = word(after, b";")?;
    Some((digits, after))
}

#[tactic(auto, unfolding(crate::specs::Item::hexadecimal_reference))]
fn hexadecimal_reference(bytes: &[u8]) -> Option<(&[u8], &[u8])>
    ensures { option_map (λ x. ((x.0.now, tt), x.1.now)) result ≡ read.hexadecimal_reference bytes.now }
{
    let (digits, after) = bytes.split_at(hexadecimal_len(bytes));
    if !is_hexadecimal(digits) {
        return None;
    }
    let after = word(after, b";")?;
    Some((digits, after))
}

// Behind `&#`.
#[tactic(auto, unfolding(crate::specs::Item::char_reference))]
fn char_reference(bytes: &[u8]) -> Option<(Piece, &[u8])>
    ensures { option_map view result ≡ read.char_reference bytes.now }
{
    match bytes {
        [] => None,
        [b'x', after @ ..] => {
            let (digits, after) = hexadecimal_reference(after)?;
            Some((Piece::Hexadecimal(digits), after))
        }
        _ => {
            let (digits, after) = decimal_reference(bytes)?;
            Some((Piece::Decimal(digits), after))
        }
    }
}

/// A reference, behind its `&`.
#[tactic(auto, unfolding(crate::specs::Item::reference))]
pub(crate) fn reference(bytes: &[u8]) -> Option<(Piece, &[u8])>
    ensures { option_map view result ≡ read.reference bytes.now }
{
    match bytes {
        [] => None,
        [b'#', after @ ..] => char_reference(after),
        _ => {
            let (name, after) = entity_reference(bytes)?;
            Some((Piece::Entity(name), after))
        }
    }
}

// Numbers from their texts.
ghost use Rattle.std.specs.Prelude.{◌≡◌, ℕ, ◌+◌, ◌-◌, ◌*◌, ◌<◌, ◌≤◌, ◌^◌, min, true, false, ◌&&◌, ◌++◌, [], take, drop, length, replicate, MatchOption};
ghost use Rattle.std.specs.List.{list_all, prefix_len, suffix_len};
ghost use Rattle.std.specs.Char.{is_ascii_digit};
ghost use Rattle.std.specs.Str.Parse.{digits_value};
ghost use Rattle.tree_model.specs.Numbers as numbers;
ghost use Rattle.tree_model.specs.Numbers.{of_digits, of_unsigned, of_signed, numeral, is_no_point, is_zero_digit};
ghost use Rattle.tree_model.specs.Sound.{is_empty};
ghost use Rattle.dec_num.specs.Reads.{IsRead};

use crate::fault::NumFault;
use tree_model::Num;

// The first number of millionths that is out of range.
const LIMIT: u64 = 1_000_000_000_000_000_000;

// The first whole part that is out of range.
const WHOLE_LIMIT: u64 = 1_000_000_000_000;

fn is_blank(byte: u8) -> bool
    ensures { result ≡ numbers.is_blank byte }
{
    matches!(byte, b' ' | b'\t' | b'\n' | b'\r')
}

// What is behind the blanks at the front.
fn without_front(text: &[u8]) -> &[u8]
    ensures { result.now ≡ drop (prefix_len numbers.is_blank text.now) text.now }
{
    let mut rest = text;
    while let [byte, more @ ..] = rest {
        if !is_blank(*byte) {
            break;
        }
        rest = more;
    }
    rest
}

// What is before the blanks at the end.
fn without_end(text: &[u8]) -> &[u8]
    ensures { result.now ≡ take (length text.now - suffix_len numbers.is_blank text.now) text.now }
{
    let mut len = text.len();
    while len > 0 && is_blank(text[len - 1]) {
        len -= 1;
    }
    &text[..len]
}

#[tactic(auto, unfolding(tree_model::specs::Numbers::trimmed))]
fn trimmed(text: &[u8]) -> &[u8]
    ensures { result.now ≡ numbers.trimmed text.now }
{
    without_end(without_front(text))
}

// The number that digits write, or the first whole part that is out of range where it is that or above; `None` where they
// aren't digits alone.
fn capped_value(digits: &[u8]) -> Option<u64>
    ensures { MatchOption result
        (list_all is_ascii_digit digits.now ≡ false)
        (λ value. (list_all is_ascii_digit digits.now ≡ true) × (value ≡ min (digits_value 10 digits.now) (10 ^ 12))) }
{
    let mut value = 0;
    for digit in digits {
        if !digit.is_ascii_digit() {
            return None;
        }
        value = (value * 10 + (*digit - b'0') as u64).min(WHOLE_LIMIT);
    }
    Some(value)
}

// The first six digits of a fraction, zeros behind its end.
fn first_six(fraction: &[u8]) -> [u8; 6]
    ensures { result ≡ take 6 (fraction.now ++ replicate 6 48) }
{
    let mut digits = [b'0'; 6];
    let len = fraction.len().min(6);
    digits[..len].copy_from_slice(&fraction[..len]);
    digits
}

// Whether nothing but zeros stands behind the sixth digit of a fraction.
fn ends_in_zeros(fraction: &[u8]) -> bool
    ensures { result ≡ list_all is_zero_digit (drop 6 fraction.now) }
{
    fraction.iter().skip(6).all(|digit| *digit == b'0')
}

// So many millionths, where they are in range.
fn ranged(millionths: u64) -> Result<Num, NumFault>
    ensures { IsRead (numbers.ranged millionths) result }
{
    if millionths < LIMIT {
        Ok(Num(millionths as i64))
    } else {
        Err(NumFault::Range)
    }
}

fn are_empty(whole: &[u8], fraction: &[u8]) -> bool
    ensures { result ≡ (is_empty whole.now && is_empty fraction.now) }
{
    whole.is_empty() && fraction.is_empty()
}

// The number with these digits before and behind the point.
fn read_digits(whole: &[u8], fraction: &[u8]) -> Result<Num, NumFault>
    ensures { IsRead (of_digits whole.now fraction.now) result }
{
    if are_empty(whole, fraction) {
        return Err(NumFault::BadText);
    }
    if !ends_in_zeros(fraction) {
        return Err(NumFault::BadText);
    }
    let Some(units) = capped_value(whole) else {
        return Err(NumFault::BadText);
    };
    let Some(parts) = capped_value(&first_six(fraction)) else {
        return Err(NumFault::BadText);
    };
    ranged(units * 1_000_000 + parts)
}

// How many bytes stand before the first point.
fn point_at(text: &[u8]) -> usize
    ensures before { result ≡ prefix_len is_no_point text.now }
    ensures within { result ≤ length text.now }
{
    for (at, byte) in text.iter().enumerate() {
        if *byte == b'.' {
            return at;
        }
    }
    text.len()
}

// A number without a sign.
#[tactic(auto, unfolding(tree_model::specs::Numbers::of_unsigned))]
fn read_unsigned(text: &[u8]) -> Result<Num, NumFault>
    ensures { IsRead (of_unsigned text.now) result }
{
    let (whole, behind) = text.split_at(point_at(text));
    match behind {
        [_, fraction @ ..] => read_digits(whole, fraction),
        [] => read_digits(whole, &[]),
    }
}

// A number with a sign or without one.
#[tactic(auto, unfolding(tree_model::specs::Numbers::of_signed))]
fn read_signed(text: &[u8]) -> Result<Num, NumFault>
    ensures { IsRead (of_signed text.now) result }
{
    match text {
        [b'-', unsigned @ ..] => match read_unsigned(unsigned) {
            Ok(number) => Ok(Num(-number.0)),
            Err(fault) => Err(fault),
        },
        [b'+', unsigned @ ..] => read_unsigned(unsigned),
        [_, ..] => read_unsigned(text),
        [] => Err(NumFault::BadText),
    }
}

/// The number that a text writes: digits with one point at the most, behind a sign or none, between spaces, TABs, LFs and CRs
/// or none (XML Schema 1.0 Part 2, section 3.2.3). `BadText` where it writes none, also where a digit other than 0 stands
/// behind the sixth of the fraction; `Range` where its absolute value is 10^12 or above. The time is linear in the text.
pub fn read(text: &[u8]) -> Result<Num, NumFault>
    ensures { IsRead (numeral text.now) result }
{
    read_signed(trimmed(text))
}

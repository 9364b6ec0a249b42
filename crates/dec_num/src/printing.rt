// Numbers as text.
ghost use Rattle.std.specs.Prelude.{◌≡◌, ◌+◌, ◌-◌, ◌<◌, ◌≤◌, ◌++◌, take, length, IsAscii, IfOk, OnOk};
ghost use Rattle.std.specs.List.{suffix_len};
ghost use Rattle.tree_model.specs.Numbers as numbers;
ghost use Rattle.dec_num.specs.Growth.{Grew};

use arrayvec::ArrayString;
use itoa::Buffer;
use std::alloc::Global;
use tree_model::{NoMemory, Num, Text};

// A sign, twelve digits, a point and six more.
const LONGEST: usize = 20;

fn last_digit(n: u64) -> u8
    ensures { result ≡ numbers.last_digit n }
{
    b'0' + (n % 10) as u8
}

fn six_digits(n: u64) -> [u8; 6]
    ensures { result ≡ numbers.six_digits n }
{
    [
        last_digit(n / 100_000),
        last_digit(n / 10_000),
        last_digit(n / 1000),
        last_digit(n / 100),
        last_digit(n / 10),
        last_digit(n),
    ]
}

// What is before the zeros at the end.
fn without_zeros(digits: &[u8]) -> &[u8]
    ensures { result.now ≡ take (length digits.now - suffix_len numbers.is_zero_digit digits.now) digits.now }
{
    let mut len = digits.len();
    while len > 0 && digits[len - 1] == b'0' {
        len -= 1;
    }
    &digits[..len]
}

fn push_digits(text: &mut ArrayString<LONGEST>, digits: &[u8])
    requires ascii { IsAscii digits.now }
    requires room { length text.old.bytes + length digits.now ≤ 20 }
    ensures { text.new.bytes ≡ text.old.bytes ++ digits.now }
{
    for digit in digits {
        text.push(*digit as char);
    }
}

// Appends a point and digits, or nothing where there are none.
fn push_point_text(text: &mut ArrayString<LONGEST>, digits: &[u8])
    requires ascii { IsAscii digits.now }
    requires room { length text.old.bytes + length digits.now < 20 }
    ensures { text.new.bytes ≡ text.old.bytes ++ numbers.point_text digits.now }
{
    if digits.is_empty() {
        return;
    }
    text.push('.');
    push_digits(text, digits);
}

// Appends a fraction of so many millionths.
#[tactic(auto, unfolding(tree_model::specs::Numbers::fraction_text))]
fn push_fraction(text: &mut ArrayString<LONGEST>, millionths: u64)
    requires { length text.old.bytes + 7 ≤ 20 }
    ensures { text.new.bytes ≡ text.old.bytes ++ numbers.fraction_text millionths }
{
    push_point_text(text, without_zeros(&six_digits(millionths)));
}

fn sign_text(is_negative: bool) -> &'static str
    ensures text { result.now ≡ numbers.sign_text is_negative }
    ensures short { length result.now ≤ 1 }
{
    if is_negative { "-" } else { "" }
}

#[tactic(auto, using(crate::proofs::Sizes::whole_short))]
fn number_text(a: Num) -> ArrayString<LONGEST>
    ensures { result.bytes ≡ numbers.number_text a }
{
    let mut text = ArrayString::new();
    let size = a.0.unsigned_abs();
    text.push_str(sign_text(a.0 < 0));
    text.push_str(Buffer::new().format(size / 1_000_000));
    push_fraction(&mut text, size % 1_000_000);
    text
}

/// The text of a number: no superfluous zeros, no point for a whole number, `-` before a negative one.
pub fn text(alloc: Global, a: Num) -> Result<Text, NoMemory>
    ensures { IfOk result (λ t. t ≡ numbers.number_text a) }
{
    Text::of(alloc, number_text(a).as_str())
}

/// Appends the text of a number. After `NoMemory` a part of it may stand behind what `out` had.
#[tactic(auto, using(crate::proofs::Growing::grew_by))]
pub fn push_text(a: Num, out: &mut Vec<u8>) -> Result<(), NoMemory>
    ensures text { OnOk result (out.new.items ≡ out.old.items ++ numbers.number_text a) }
    ensures kept { Grew out.old.items out.new.items }
{
    out.extend_from_slice(number_text(a).as_bytes())
}

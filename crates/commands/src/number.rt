// Numbers, as commands hold them.
ghost use Rattle.std.specs.Prelude.{◌≡◌, ◌<◌, ◌^◌, Some, None, if◌then◌else◌};
ghost use Rattle.std.specs.List.{list_all};
ghost use Rattle.std.specs.Char.{is_ascii_digit};
ghost use Rattle.commands.specs.Commands.{is_number, number_from};

use std::marker::Model;

// The most digits of a number.
const MAX_DIGITS: usize = 9;

/// A number of 1 to 9 decimal digits.
#[derive(Drop)]
pub struct Number {
    value: u32,
}

impl Model for Number {
    ghost use Rattle.std.specs.Prelude.{ℕ, ◌<◌, ◌^◌};

    ghost Value = { ℕ };

    ghost view = { λ n. n.value };

    ghost invariant = { λ n. n.value < 10 ^ 9 };
}

impl Number {
    /// The number.
    pub fn value(&self) -> u32
        ensures value { result ≡ self.now }
        ensures below { result < 10 ^ 9 }
    {
        self.value
    }
}

fn has_only_digits(word: &str) -> bool
    ensures { result ≡ list_all is_ascii_digit word.now }
{
    word.as_bytes().iter().all(|byte| byte.is_ascii_digit())
}

fn is_number(word: &str) -> bool
    ensures { result ≡ is_number word.now }
{
    !word.is_empty() && word.len() <= MAX_DIGITS && has_only_digits(word)
}

/// The number that a word spells.
pub fn read_number(word: &str) -> Option<Number>
    ensures { result ≡ (if is_number word.now then Some (number_from 0 word.now) else None) }
{
    if !is_number(word) {
        return None;
    }
    let mut value = 0;
    for digit in word.as_bytes() {
        value = value * 10 + u32::from(*digit - b'0');
    }
    Some(Number { value })
}

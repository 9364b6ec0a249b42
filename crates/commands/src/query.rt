// The texts of queries.
ghost use Rattle.std.specs.Prelude.{◌≡◌, ◌<◌, ◌≤◌, ◌^◌, length};

use std::marker::Model;

/// The text of a query that a command was given: it isn't empty and has at most 2^24 bytes.
#[derive(Drop)]
pub struct QueryText<'a> {
    text: &'a str,
}

impl<'a> Model for QueryText<'a> {
    ghost use Rattle.std.specs.Prelude.{ℕ, List, ◌<◌, ◌≤◌, ◌^◌, length};

    ghost Value = { List ℕ };

    ghost view = { λ x. x.text.now };

    ghost invariant = { λ x. (0 < length x.text.now) × (length x.text.now ≤ 2 ^ 24) };
}

impl<'a> QueryText<'a> {
    pub(crate) fn new(text: &'a str) -> QueryText<'a>
        requires some { 0 < length text.now }
        requires len { length text.now ≤ 2 ^ 24 }
        ensures { result ≡ text.now }
    {
        QueryText { text }
    }

    /// The text.
    pub fn text(&self) -> &'a str
        ensures value { result.now ≡ self.now }
        ensures some { 0 < length result.now }
        ensures len { length result.now ≤ 2 ^ 24 }
    {
        self.text
    }
}

// A run of ids at pre numbers that follow one another.

/// `n` ids from `first_id` on, of which the first stands at `pre` and each other one right behind the one before it.
#[derive(Clone, Copy, Debug, PartialEq, Eq)]
pub struct Span {
    pub first_id: u32,
    pub pre: u32,
    pub n: u32,
}

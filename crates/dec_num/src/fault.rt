// Why a text is read as no number.

use thiserror::Error;

/// Why a text is read as no number.
#[derive(Clone, Copy, Debug, PartialEq, Eq, Error)]
pub enum NumFault {
    /// The text isn't a sign or none and then digits with one point at the most, at least one digit, and behind the sixth
    /// digit of the fraction zeros alone, all between spaces, TABs, LFs and CRs or none.
    #[error("the text is no number")]
    BadText,
    /// The text is a number, whose absolute value is 10^12 or more.
    #[error("the number is out of range")]
    Range,
}

// Why a reading ends without a term.

use std::alloc::AllocError;
use thiserror::Error;

/// The rules that the others come back to: an expression without a comma, and an element with its content. At most 200 of
/// them are open at a place.
#[derive(Clone, Copy, Debug, PartialEq, Eq)]
pub enum Nest {
    Single,
    Elem,
}

/// Why a rule gives nothing. `Refused` means that it doesn't fit, so that another alternative is tried; the others end the
/// whole reading: `TooDeep` where a nest is opened while 200 are open, and want of memory.
#[derive(Clone, Copy, Debug, PartialEq, Eq)]
pub enum Stop {
    Refused,
    TooDeep,
    NoMemory,
}

impl From<AllocError> for Stop {
    ghost use Rattle.std.specs.Prelude.{◌≡◌};
    ghost use Rattle.query_terms.specs.declared.stop.Stop.TheVariants.{NoMemory};

    ghost from_gives = { λ _ e. e ≡ NoMemory };

    fn from(_: AllocError) -> Stop {
        Stop::NoMemory
    }
}

/// Why a text is read as no query.
#[derive(Clone, Copy, Debug, PartialEq, Eq, Error)]
pub enum SyntaxFault {
    /// The rules don't read the text to its end (XPST0003).
    #[error("the text is no query")]
    NoReading,
    /// An expression or element is opened while 200 are open (XKLM0004).
    #[error("more than 200 expressions and elements are open at once")]
    TooDeep,
    /// There is no memory for the tree.
    #[error("no memory")]
    NoMemory,
}

impl From<AllocError> for SyntaxFault {
    ghost use Rattle.std.specs.Prelude.{◌≡◌};
    ghost use Rattle.query_terms.specs.declared.stop.SyntaxFault.TheVariants.{NoMemory};

    ghost from_gives = { λ _ e. e ≡ NoMemory };

    fn from(_: AllocError) -> SyntaxFault {
        SyntaxFault::NoMemory
    }
}

// Why nothing was read.
ghost use Rattle.std.specs.Prelude.{◌≡◌};
ghost use Rattle.doc_import.specs.declared.fault.ImportFault.TheVariants.{NoMemory};

use std::alloc::AllocError;
use thiserror::Error;

/// Why nothing was read. Places are bytes from the front of the text, a byte order mark counted. Of several faults the first
/// in this order is answered; of unknown entities and faults of namespaces the one that stands first in the text.
#[derive(Clone, Copy, Debug, PartialEq, Eq, Error)]
pub enum ImportFault {
    /// More than 2^26 bytes.
    #[error("the text has more than 2^26 bytes")]
    TooLong,
    /// The bytes from `at` on aren't UTF-8.
    #[error("the text isn't UTF-8 at byte {at}")]
    NotUtf8 { at: usize },
    /// A whole XML declaration stands first, and its encoding, whose name begins at `at`, isn't UTF-8.
    #[error("the text names another encoding at byte {at}")]
    Encoding { at: usize },
    /// The text is well formed up to the `[` at `at` in its DOCTYPE.
    #[error("the DOCTYPE has an internal subset at byte {at}")]
    InternalSubset { at: usize },
    /// The text isn't well formed.
    #[error("the text isn't well formed")]
    Malformed,
    /// A reference, whose `&` stands at `at`, to an entity that isn't predefined.
    #[error("the entity at byte {at} isn't known")]
    UnknownEntity { at: usize },
    /// A tag, whose `<` stands at `at`, breaks a rule of namespaces.
    #[error("the tag at byte {at} breaks a rule of namespaces")]
    Namespace { at: usize },
    /// More than 2^24 nodes.
    #[error("the document has more than 2^24 nodes")]
    TooManyRows,
    /// Want of memory.
    #[error("no memory")]
    NoMemory,
}

impl From<AllocError> for ImportFault {
    ghost from_gives = { λ _ e. e ≡ NoMemory };

    fn from(_: AllocError) -> Self {
        ImportFault::NoMemory
    }
}

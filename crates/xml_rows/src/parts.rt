// A builder, by its parts.

ghost use Rattle.std.specs.Prelude.{◌≡◌, ◌<◌, ◌^◌, length};
ghost use Rattle.xml_pieces.specs.Tokens.{token_text};
ghost use Rattle.xml_pieces.specs.View.{token_of};

use crate::elements::Elements;
use crate::tag::Pair;
use crate::values::Values;
use xml_pieces::Piece;

/// What is wrong in the meaning of a text, with the place of its byte.
#[derive(Clone, Copy, Debug, PartialEq, Eq)]
pub enum Fault {
    /// A reference to an entity that isn't predefined.
    UnknownEntity(usize),
    /// A tag that breaks a rule of namespaces.
    Namespace(usize),
}

/// What the next piece stands in.
#[derive(Clone, Copy)]
pub enum Mode {
    Content,
    InTag,
    InValue,
}

/// A tag that is being read: its name, its place, its attributes so far and the first fault in them; the name of the attribute
/// whose value is being read.
#[derive(Drop)]
pub struct Tag<'a> {
    pub name: &'a [u8],
    pub from: usize,
    pub pairs: Vec<Pair<'a>>,
    pub within: Option<Fault>,
    pub key: &'a [u8],
}

/// The rows, names and values that were made, and what is still to be made of the pieces so far.
#[derive(Drop)]
pub struct Parts<'a> {
    pub elements: Elements<'a>,
    pub values: Values,
    pub tag: Tag<'a>,
    pub mode: Mode,
    pub at: usize,
    pub fault: Option<Fault>,
}

// How many bytes of the text a piece is.
pub fn text_len(piece: &Piece<'_>) -> usize
    requires { length (token_text (token_of piece.now)) < 2 ^ 31 }
    ensures { result ≡ length (token_text (token_of piece.now)) }
{
    match piece {
        Piece::Run(bytes) => bytes.len(),
        Piece::Entity(name) => name.len() + 2,
        Piece::Decimal(digits) => digits.len() + 3,
        Piece::Hexadecimal(digits) => digits.len() + 4,
        Piece::Cdata(bytes) => bytes.len() + 12,
        Piece::Comment(bytes) => bytes.len() + 7,
        Piece::Instruction(target, gap, bytes) => target.len() + gap.len() + bytes.len() + 4,
        Piece::Doctype(bytes) => bytes.len(),
        Piece::Open(name) => name.len() + 1,
        Piece::Attribute(gap, name, before, behind, _) => {
            gap.len() + name.len() + before.len() + behind.len() + 2
        }
        Piece::Quote(_) => 1,
        Piece::Go(gap) => gap.len() + 1,
        Piece::Shut(gap) => gap.len() + 2,
        Piece::Close(name, last) => name.len() + last.len() + 3,
    }
}

// Terms as they are written: slices of the query, before they are stored.
ghost use Rattle.std.specs.Prelude.{◌≡◌, ◌∷◌, []};
ghost use Rattle.query_terms.specs.Lexis.{code_of, first_of};
ghost use Rattle.query_tokens.specs.Reads.{quote_code, as_char};

use query_terms::Span;
use tree_model::Axis;

/// The quotes that a string stands in.
#[derive(Clone, Copy)]
pub enum Quote {
    Double,
    Single,
}

impl Quote {
    /// The quote as a character.
    pub fn character(self) -> char
        ensures { result ≡ quote_code self }
    {
        match self {
            Quote::Double => '"',
            Quote::Single => '\'',
        }
    }

    /// One quote as a text.
    pub fn once(self) -> &'static str
        ensures { result.now ≡ quote_code self ∷ [] }
    {
        match self {
            Quote::Double => "\"",
            Quote::Single => "'",
        }
    }

    /// Two quotes as a text.
    pub fn twice(self) -> &'static str
        ensures { result.now ≡ quote_code self ∷ quote_code self ∷ [] }
    {
        match self {
            Quote::Double => "\"\"",
            Quote::Single => "''",
        }
    }
}

/// A character as it stands for itself or is referred to, or the place of a reference that names no character of XML.
#[derive(Clone, Copy)]
pub enum WrittenChar {
    Character(char),
    BadReference(usize),
}

impl WrittenChar {
    /// The character; U+FFFD for a reference that names none.
    pub fn character(self) -> char
        ensures { result ≡ code_of (as_char self) }
    {
        match self {
            WrittenChar::Character(character) => character,
            WrittenChar::BadReference(_) => '\u{FFFD}',
        }
    }

    /// The place of the first bad reference, where `earlier` is that of one in front.
    pub fn first_bad(self, earlier: Option<usize>) -> Option<usize>
        ensures { result ≡ first_of earlier (as_char self) }
    {
        match (earlier, self) {
            (Some(place), _) => Some(place),
            (None, WrittenChar::BadReference(place)) => Some(place),
            (None, WrittenChar::Character(_)) => None,
        }
    }
}

/// A name, with an empty prefix where it has none.
#[derive(Clone, Copy)]
pub struct WrittenName<'a> {
    pub span: Span,
    pub prefix: &'a str,
    pub local: &'a str,
}

/// A variable. Its span begins at `$`.
#[derive(Clone, Copy)]
pub struct WrittenVariable<'a> {
    pub span: Span,
    pub name: WrittenName<'a>,
}

/// A number as it is written.
#[derive(Clone, Copy)]
pub struct WrittenNumber<'a> {
    pub span: Span,
    pub text: &'a str,
}

/// A string: its quotes, and the text behind the opening one, up to the end of the query.
#[derive(Clone, Copy)]
pub struct WrittenString<'a> {
    pub quote: Quote,
    pub body: &'a str,
}

/// The target that a test for processing instructions asks for.
#[derive(Clone, Copy)]
pub enum Target<'a> {
    Name(&'a str),
    Quoted(WrittenString<'a>),
}

/// A node test as it is written: the kinds, the names of elements and attributes that a kind asks for, `*`, `*:name`,
/// `prefix:*` and a name alone.
#[derive(Clone, Copy)]
pub enum WrittenTest<'a> {
    Node,
    Text,
    Comment,
    Document,
    Instruction(Option<Target<'a>>),
    Element(Option<WrittenName<'a>>),
    Attribute(Option<WrittenName<'a>>),
    Any,
    LocalName(&'a str),
    Namespace(WrittenName<'a>),
    Name(WrittenName<'a>),
}

/// A step as it is written, with its axis.
#[derive(Clone, Copy)]
pub struct WrittenStep<'a> {
    pub span: Span,
    pub axis: Axis,
    pub test: WrittenTest<'a>,
}

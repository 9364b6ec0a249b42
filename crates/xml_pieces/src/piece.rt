// What a text is cut into.

/// A piece of a text, by the parts of it that lie in the text.
#[derive(Clone, Copy)]
pub enum Piece<'a> {
    /// A run of characters that is as long as it can be, in content or in the value of an attribute.
    Run(&'a [u8]),
    /// The name of a reference `&name;`.
    Entity(&'a [u8]),
    /// The digits of a reference `&#digits;`.
    Decimal(&'a [u8]),
    /// The digits of a reference `&#xdigits;`.
    Hexadecimal(&'a [u8]),
    /// What stands in a CDATA section.
    Cdata(&'a [u8]),
    /// What stands in a comment.
    Comment(&'a [u8]),
    /// A processing instruction: its target, the white space behind it, and the rest up to `?>`.
    Instruction(&'a [u8], &'a [u8], &'a [u8]),
    /// A whole DOCTYPE.
    Doctype(&'a [u8]),
    /// The name of a start tag or an empty-element tag, behind its `<`.
    Open(&'a [u8]),
    /// An attribute up to the first quote of its value: the white space before it, its name, the white space on both sides of
    /// its `=`, and the quote.
    Attribute(&'a [u8], &'a [u8], &'a [u8], &'a [u8], u8),
    /// The last quote of a value.
    Quote(u8),
    /// The white space before the `>` of a start tag.
    Go(&'a [u8]),
    /// The white space before the `/>` of an empty-element tag.
    Shut(&'a [u8]),
    /// An end tag: its name, and the white space behind it.
    Close(&'a [u8], &'a [u8]),
}

/// Where the reader is: among content or outside the root, in a tag behind its name, or between the quotes of a value.
#[derive(Clone, Copy)]
pub enum Place {
    Content,
    Tag,
    Value(u8),
}

// What the tree of a query is made of, below expressions.

use sqlite_items::Items;
use tree_model::{Name, Text};

/// The text of a term: bytes of the query, from a place up to a place.
#[derive(Clone, Copy, Debug, PartialEq, Eq)]
pub struct Span {
    pub from: usize,
    pub to: usize,
}

/// A name as it is written. Its URI is empty until the names of the query are resolved.
#[derive(Debug, Drop)]
pub struct QName {
    pub span: Span,
    pub name: Name,
}

/// What literal characters spell, with references replaced and ends of lines made one LF. A reference to a character that
/// is none of XML's spells U+FFFD; `bad_reference` is the place of the first of them.
#[derive(Debug, Drop)]
pub struct Literal {
    pub text: Text,
    pub bad_reference: Option<usize>,
}

/// A variable: `$` and a name (XQuery 1.0, section 3.1.2). The span begins at `$`, that of the name behind it.
#[derive(Debug, Drop)]
pub struct Variable {
    pub span: Span,
    pub name: QName,
}

/// A prefix and the URI that it is bound to, `None` where the prefix is taken away. The empty prefix stands for names of
/// elements without a prefix.
#[derive(Debug, Drop)]
pub struct Binding {
    pub prefix: Text,
    pub uri: Option<Text>,
}

/// The namespaces that are in force at a place of the query, the innermost last. Of two bindings of one prefix the later
/// counts.
#[derive(Debug, Drop)]
pub struct Scope {
    pub bindings: Items<Binding>,
}

/// A node test (XQuery 1.0, section 3.2.1.2). `Any` is `*`, `LocalName` is `*:name`, `Namespace` is `prefix:*`, whose URI is
/// that of a name with an empty local part. The tests of elements and attributes have `None` for `()` and `(*)`.
#[derive(Debug, Drop)]
pub enum NodeTest {
    Node,
    Text,
    Comment,
    Document,
    Instruction(Option<Literal>),
    Element(Option<QName>),
    Attribute(Option<QName>),
    Any,
    LocalName(Text),
    Namespace(QName),
    Name(QName),
}

/// Where an insertion goes (XQuery Update Facility 1.0, section 2.4.1).
#[derive(Clone, Copy, Debug, PartialEq, Eq)]
pub enum Place {
    Into,
    AsFirst,
    AsLast,
    Before,
    After,
}

/// The operators of comparisons: general, of values, and of nodes (XQuery 1.0, section 3.5).
#[derive(Clone, Copy, Debug, PartialEq, Eq)]
pub enum Comparator {
    Equal,
    NotEqual,
    Less,
    LessOrEqual,
    Greater,
    GreaterOrEqual,
    ValueEqual,
    ValueNotEqual,
    ValueLess,
    ValueLessOrEqual,
    ValueGreater,
    ValueGreaterOrEqual,
    Is,
    Precedes,
    Follows,
}

/// The operators between operands of one level (XQuery 1.0, sections 3.3.3 and 3.4).
#[derive(Clone, Copy, Debug, PartialEq, Eq)]
pub enum Operator {
    Plus,
    Minus,
    Times,
    Divide,
    DivideWhole,
    Modulo,
    Intersect,
    Except,
}

/// Where a path begins (XQuery 1.0, section 3.2): at the context, at the root of its tree, behind a leading `/`, or, behind a
/// leading `//`, at that root and all nodes below it.
#[derive(Clone, Copy, Debug, PartialEq, Eq)]
pub enum PathStart {
    Context,
    Root,
    BelowRoot,
}

/// Whether some tuple must pass, or each (XQuery 1.0, section 3.11).
#[derive(Clone, Copy, Debug, PartialEq, Eq)]
pub enum Quantifier {
    Some,
    Every,
}

/// What a computed constructor with a name makes (XQuery 1.0, section 3.7.3).
#[derive(Clone, Copy, Debug, PartialEq, Eq)]
pub enum ComputedKind {
    Element,
    Attribute,
    Instruction,
}

/// What a computed constructor without a name makes (XQuery 1.0, section 3.7.3).
#[derive(Clone, Copy, Debug, PartialEq, Eq)]
pub enum UnnamedKind {
    Text,
    Comment,
    Document,
}

// Steps of paths.

use crate::text::Text;

/// The axes (XPath 2.0, section 3.2.1.1), all but the namespace axis. `Slf` is the axis self.
#[derive(Clone, Copy, Debug, PartialEq, Eq)]
pub enum Axis {
    Child,
    Descendant,
    Attribute,
    Slf,
    DescendantOrSelf,
    FollowingSibling,
    Following,
    Parent,
    Ancestor,
    PrecedingSibling,
    Preceding,
    AncestorOrSelf,
}

/// What a step keeps of its axis (XPath 2.0, section 3.2.1.2): nodes of one kind, of some kind by name, or all. `None` in
/// place of a URI or a local part stands for any. `Principal` is a name test by itself: it asks for attributes on the
/// attribute axis, and for elements on all others.
#[derive(Debug, Drop, PartialEq, Eq)]
pub enum Test {
    Node,
    Text,
    Comment,
    Document,
    Pi(Option<Text>),
    Principal {
        uri: Option<Text>,
        local: Option<Text>,
    },
    Element {
        uri: Option<Text>,
        local: Option<Text>,
    },
    Attribute {
        uri: Option<Text>,
        local: Option<Text>,
    },
}

/// A step without predicates.
#[derive(Debug, Drop, PartialEq, Eq)]
pub struct AxisStep {
    pub axis: Axis,
    pub test: Test,
}

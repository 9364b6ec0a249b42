// The tree of a query: one variant for each production that stands for itself.

use crate::parts::{
    Comparator, ComputedKind, Literal, NodeTest, Operator, PathStart, Place, QName, Quantifier,
    Scope, Span, UnnamedKind, Variable,
};
use sqlite_items::{Boxed, Items};
use tree_model::{Axis, Function, Test, Text};

/// What a query is made of: its declarations and its expression (XQuery 1.0, section 2.1).
#[derive(Drop)]
pub struct QueryTree {
    pub declarations: Items<Declaration>,
    pub body: Boxed<Expr>,
}

/// A declaration of the prolog (XQuery 1.0, sections 4.12 and 4.13). The span is that of the whole declaration.
#[derive(Drop)]
pub enum Declaration {
    Namespace {
        span: Span,
        prefix: Text,
        uri: Literal,
    },
    DefaultElement {
        span: Span,
        uri: Literal,
    },
}

/// An expression (XQuery 1.0, section 3, and XQuery Update Facility 1.0, section 2.4). Each has the span of its text.
/// Operands of one level stand in one list, so that the tree is no deeper than nests are open.
#[cycle(ast)]
#[derive(Drop)]
pub enum Expr {
    Comma {
        span: Span,
        first: Boxed<Expr>,
        others: Items<Expr>,
    },
    Flwor {
        span: Span,
        clauses: Items<Clause>,
        condition: Option<Boxed<Expr>>,
        order: Items<OrderKey>,
        result: Boxed<Expr>,
    },
    Quantified {
        span: Span,
        quantifier: Quantifier,
        clauses: Items<Clause>,
        test: Boxed<Expr>,
    },
    If {
        span: Span,
        condition: Boxed<Expr>,
        positive: Boxed<Expr>,
        negative: Boxed<Expr>,
    },
    Insert {
        span: Span,
        source: Boxed<Expr>,
        place: Place,
        target: Boxed<Expr>,
    },
    Delete {
        span: Span,
        target: Boxed<Expr>,
    },
    Replace {
        span: Span,
        is_value: bool,
        target: Boxed<Expr>,
        source: Boxed<Expr>,
    },
    /// The scope is empty until the names of the query are resolved.
    Rename {
        span: Span,
        target: Boxed<Expr>,
        name: Boxed<Expr>,
        scope: Scope,
    },
    Or {
        span: Span,
        first: Boxed<Expr>,
        others: Items<Expr>,
    },
    And {
        span: Span,
        first: Boxed<Expr>,
        others: Items<Expr>,
    },
    Comparison {
        span: Span,
        comparator: Comparator,
        left: Boxed<Expr>,
        right: Boxed<Expr>,
    },
    Range {
        span: Span,
        from: Boxed<Expr>,
        to: Boxed<Expr>,
    },
    /// Operands with `+` or `-` between them, from the left.
    Additive {
        span: Span,
        first: Boxed<Expr>,
        others: Items<Operand>,
    },
    /// Operands with `*`, `div`, `idiv` or `mod` between them, from the left.
    Multiplicative {
        span: Span,
        first: Boxed<Expr>,
        others: Items<Operand>,
    },
    Union {
        span: Span,
        first: Boxed<Expr>,
        others: Items<Expr>,
    },
    /// Operands with `intersect` or `except` between them, from the left.
    Intersection {
        span: Span,
        first: Boxed<Expr>,
        others: Items<Operand>,
    },
    /// An operand behind one sign or more; `is_negative` where an odd number of them is `-`.
    Unary {
        span: Span,
        is_negative: bool,
        operand: Boxed<Expr>,
    },
    /// `/` alone.
    Root {
        span: Span,
    },
    /// Steps with `/` or `//` between them. One step that begins where the context is, is no path but the step itself.
    Path {
        span: Span,
        start: PathStart,
        first: Boxed<Expr>,
        others: Items<PathStep>,
    },
    /// A step with predicates.
    Filter {
        span: Span,
        head: Boxed<Expr>,
        predicates: Items<Expr>,
    },
    /// `tested` is the test as walks take it. It is `None` until the names of the query are resolved.
    AxisStep {
        span: Span,
        axis: Axis,
        test: NodeTest,
        tested: Option<Test>,
    },
    Number {
        span: Span,
        text: Text,
    },
    String {
        span: Span,
        literal: Literal,
    },
    Variable {
        variable: Variable,
    },
    Parenthesized {
        span: Span,
        body: Option<Boxed<Expr>>,
    },
    ContextItem {
        span: Span,
    },
    Element {
        span: Span,
        name: QName,
        attributes: Items<Attribute>,
        content: Items<Content>,
    },
    DirectComment {
        span: Span,
        text: Text,
    },
    DirectInstruction {
        span: Span,
        target: Text,
        text: Text,
    },
    /// A computed constructor whose name is written.
    Computed {
        span: Span,
        kind: ComputedKind,
        name: QName,
        body: Option<Boxed<Expr>>,
    },
    /// A computed constructor whose name is an expression. The scope is empty until the names of the query are resolved.
    ComputedByValue {
        span: Span,
        kind: ComputedKind,
        name: Boxed<Expr>,
        scope: Scope,
        body: Option<Boxed<Expr>>,
    },
    ComputedUnnamed {
        span: Span,
        kind: UnnamedKind,
        body: Boxed<Expr>,
    },
    /// `function` is the one that is called. It is `None` until the names of the query are resolved.
    Call {
        span: Span,
        name: QName,
        arguments: Items<Expr>,
        function: Option<Function>,
    },
}

/// An operand behind its operator.
#[cycle(ast)]
#[derive(Drop)]
pub struct Operand {
    pub operator: Operator,
    pub operand: Boxed<Expr>,
}

/// A step behind another, with `//` between them where it is deep, and else `/`.
#[cycle(ast)]
#[derive(Drop)]
pub struct PathStep {
    pub is_deep: bool,
    pub step: Boxed<Expr>,
}

/// What binds variables: `for` with a variable for the place, or `let` (XQuery 1.0, section 3.8.1).
#[cycle(ast)]
#[derive(Drop)]
pub enum Clause {
    For {
        variable: Variable,
        position: Option<Variable>,
        source: Boxed<Expr>,
    },
    Let {
        variable: Variable,
        value: Boxed<Expr>,
    },
}

/// A key of `order by` (XQuery 1.0, section 3.8.3).
#[cycle(ast)]
#[derive(Drop)]
pub struct OrderKey {
    pub key: Boxed<Expr>,
    pub is_descending: bool,
    pub is_empty_greatest: bool,
}

/// An attribute of a direct element (XQuery 1.0, section 3.7.1.1). `written` is the text between its quotes, kept where an
/// enclosed expression stands there.
#[cycle(ast)]
#[derive(Drop)]
pub struct Attribute {
    pub span: Span,
    pub name: QName,
    pub value: Items<Content>,
    pub written: Option<Text>,
}

/// What stands in a direct element or between the quotes of its attribute: characters, an enclosed expression, or another
/// direct constructor (XQuery 1.0, section 3.7.1.3).
#[cycle(ast)]
#[derive(Drop)]
pub enum Content {
    Characters(Literal),
    Enclosed(Boxed<Expr>),
    Constructor(Boxed<Expr>),
}

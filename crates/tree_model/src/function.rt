// The functions of queries.
ghost use Rattle.std.specs.Prelude.{◌≡◌};
ghost use Rattle.tree_model.specs.Functions as spec;

/// A function that a query may call (XQuery 1.0 and XPath 2.0 Functions and Operators), one variant for each local name.
#[derive(Clone, Copy, Debug, PartialEq, Eq)]
pub enum Function {
    Doc,
    Collection,
    Root,
    Name,
    LocalName,
    NamespaceUri,
    String,
    Data,
    Number,
    Boolean,
    Not,
    True,
    False,
    Position,
    Last,
    Count,
    Empty,
    Exists,
    Sum,
    Avg,
    Min,
    Max,
    DistinctValues,
    Reverse,
    Subsequence,
    Concat,
    StringJoin,
    Contains,
    StartsWith,
    EndsWith,
    Substring,
    StringLength,
    NormalizeSpace,
    Round,
}

const FUNCTIONS: [Function; 34] = [
    Function::Doc,
    Function::Collection,
    Function::Root,
    Function::Name,
    Function::LocalName,
    Function::NamespaceUri,
    Function::String,
    Function::Data,
    Function::Number,
    Function::Boolean,
    Function::Not,
    Function::True,
    Function::False,
    Function::Position,
    Function::Last,
    Function::Count,
    Function::Empty,
    Function::Exists,
    Function::Sum,
    Function::Avg,
    Function::Min,
    Function::Max,
    Function::DistinctValues,
    Function::Reverse,
    Function::Subsequence,
    Function::Concat,
    Function::StringJoin,
    Function::Contains,
    Function::StartsWith,
    Function::EndsWith,
    Function::Substring,
    Function::StringLength,
    Function::NormalizeSpace,
    Function::Round,
];

impl Function {
    /// Its local name.
    #[tactic(auto, unfolding(crate::specs::Functions::signature))]
    pub fn name(self) -> &'static str
        ensures { result.now ≡ (spec.signature self).name }
    {
        match self {
            Function::Doc => "doc",
            Function::Collection => "collection",
            Function::Root => "root",
            Function::Name => "name",
            Function::LocalName => "local-name",
            Function::NamespaceUri => "namespace-uri",
            Function::String => "string",
            Function::Data => "data",
            Function::Number => "number",
            Function::Boolean => "boolean",
            Function::Not => "not",
            Function::True => "true",
            Function::False => "false",
            Function::Position => "position",
            Function::Last => "last",
            Function::Count => "count",
            Function::Empty => "empty",
            Function::Exists => "exists",
            Function::Sum => "sum",
            Function::Avg => "avg",
            Function::Min => "min",
            Function::Max => "max",
            Function::DistinctValues => "distinct-values",
            Function::Reverse => "reverse",
            Function::Subsequence => "subsequence",
            Function::Concat => "concat",
            Function::StringJoin => "string-join",
            Function::Contains => "contains",
            Function::StartsWith => "starts-with",
            Function::EndsWith => "ends-with",
            Function::Substring => "substring",
            Function::StringLength => "string-length",
            Function::NormalizeSpace => "normalize-space",
            Function::Round => "round",
        }
    }

    /// The function of a local name, if there is one.
    #[tactic(auto, unfolding(crate::specs::Functions::function_named))]
    pub fn named(name: &str) -> Option<Function>
        ensures { result ≡ spec.function_named name.now }
    {
        FUNCTIONS
            .iter()
            .copied()
            .find(|function| function.is_named(name))
    }

    #[tactic(auto, unfolding(crate::specs::Functions::is_named))]
    fn is_named(self, name: &str) -> bool
        ensures { result ≡ spec.is_named name.now self }
    {
        self.name() == name
    }

    /// Whether it may be called with so many arguments.
    #[tactic(auto, unfolding(crate::specs::Functions::takes, crate::specs::Functions::signature))]
    pub fn takes(self, count: usize) -> bool
        ensures { result ≡ spec.takes self count }
    {
        match self {
            Function::True | Function::False | Function::Position | Function::Last => count == 0,
            Function::Collection
            | Function::Root
            | Function::Name
            | Function::LocalName
            | Function::NamespaceUri
            | Function::String
            | Function::Number
            | Function::StringLength
            | Function::NormalizeSpace => count <= 1,
            Function::Doc
            | Function::Data
            | Function::Boolean
            | Function::Not
            | Function::Count
            | Function::Empty
            | Function::Exists
            | Function::Sum
            | Function::Avg
            | Function::Min
            | Function::Max
            | Function::DistinctValues
            | Function::Reverse
            | Function::Round => count == 1,
            Function::StringJoin | Function::Contains | Function::StartsWith | Function::EndsWith =>
                count == 2,
            Function::Subsequence | Function::Substring => count == 2 || count == 3,
            Function::Concat => count >= 2,
        }
    }
}

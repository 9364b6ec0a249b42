// The options of the program.

/// How commands are served, and where a session ends.
#[derive(Clone, Copy, Debug, PartialEq, Eq)]
pub struct Options {
    /// Whether queries are evaluated without rewriting.
    pub plain: bool,
    /// Whether texts of white space alone are dropped where XML is read.
    pub strip: bool,
    /// Whether the session ends at the first command that is refused.
    pub stop: bool,
}

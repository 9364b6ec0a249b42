// Where a cursor stands on its axis.

/// What is left of an axis. A walk forwards stands at the place that is read next, a walk backwards behind it.
#[derive(Clone, Copy, Debug, PartialEq, Eq)]
pub(crate) enum Walk {
    /// Nothing was read yet.
    Start,
    /// Sibling trees, each passed by its size.
    Trees { at: u32, end: u32 },
    /// Rows one by one, attributes left out.
    Nodes { at: u32, end: u32 },
    /// The attributes of a node.
    Attributes { at: u32, end: u32 },
    /// The rows behind a subtree, up to the next root.
    After { at: u32 },
    /// The nodes above a row, whose distance to its parent is known.
    Above { at: u32, dist: u32 },
    /// The rows before a row, downwards; the next of them that is above the context is known.
    Before { at: u32, above: u32 },
    /// The siblings before a row.
    TreesBefore { at: u32, parent: u32 },
    /// Nothing is left.
    Done,
}

// A node as a row of the table.

/// What a node is.
#[derive(Clone, Copy, Debug, PartialEq, Eq)]
pub enum Kind {
    Doc,
    Elem,
    Text,
    Attr,
    Comm,
    Pi,
}

/// Where the bytes of a value lie: `len` bytes from the byte at `at` on.
#[derive(Clone, Copy, Debug, PartialEq, Eq)]
pub struct ValueRef {
    pub at: u64,
    pub len: u64,
}

/// A node in document order. Its place, the pre number, isn't stored. The parent stands `dist` rows before it (0: it has
/// none), its subtree has `size` rows, itself and its attributes included, and `asize` is 1 plus the number of its
/// attributes. `name` is a number into the names that go with the table.
#[derive(Clone, Copy, Debug, PartialEq, Eq)]
pub struct Row {
    pub kind: Kind,
    pub name: u64,
    pub dist: u32,
    pub size: u32,
    pub asize: u32,
    pub id: u32,
    pub val: ValueRef,
}

// A directory, and a part of one.

/// The frames of a sequence, the place of the first item of each, and the number of all items.
#[derive(Debug, Drop)]
pub(crate) struct Directory {
    pub(crate) frames: Vec<u64>,
    pub(crate) firsts: Vec<u64>,
    pub(crate) len: u64,
}

/// The frames that make room for others, and how many items then lie in their place.
#[derive(Clone, Copy, Debug)]
pub(crate) struct Part {
    pub(crate) from: usize,
    pub(crate) to: usize,
    pub(crate) size: u64,
}

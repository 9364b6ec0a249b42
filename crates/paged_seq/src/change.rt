// A change of a sequence.

/// Items in the place of others.
#[derive(Drop)]
pub(crate) struct Change<'t, T> {
    pub(crate) at: u64,
    pub(crate) removed: u64,
    pub(crate) items: &'t [T],
}

/// What a change needs: the items that then lie in the place of a part, and room for the numbers and places of their frames.
#[derive(Drop)]
pub(crate) struct Ready<T> {
    pub(crate) items: Vec<T>,
    pub(crate) frames: Vec<u64>,
    pub(crate) places: Vec<u64>,
}

// The items of one frame of a sequence.
ghost use Rattle.std.specs.Prelude.{◌≡◌, ◌+◌, ◌-◌, ◌<◌, ◌≤◌, length, slice_index_or, IsTrue, ◌↔◌};

/// The items of a frame, the place of the first of them, and the number of the frame behind.
#[derive(Drop)]
pub(crate) struct FrameItems<'t, T> {
    pub(crate) items: &'t [T],
    pub(crate) first: u64,
    pub(crate) next: usize,
}

impl<'t, T: Copy> FrameItems<'t, T> {
    /// Whether the frame holds a place.
    pub(crate) fn holds(&self, i: u64) -> bool
        ensures { IsTrue result ↔ ((self.now.first ≤ i) × (i < self.now.first + length self.now.items.now)) }
    {
        i >= self.first && i - self.first < self.items.len() as u64
    }

    /// The item at a place.
    pub(crate) fn item(&self, i: u64) -> T
        requires from { self.now.first ≤ i }
        requires to { i < self.now.first + length self.now.items.now }
        ensures { result ≡ slice_index_or self.now.items.now (i - self.now.first) result }
    {
        self.items[(i - self.first) as usize]
    }
}

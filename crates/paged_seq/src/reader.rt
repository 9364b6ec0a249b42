// Going through a sequence.
ghost use Rattle.std.specs.Prelude.{◌≡◌, ◌<◌, length, slice_index_or};
ghost use Rattle.paged_seq.specs.Sequences.{IsPaged, paged_items};

use crate::frame_items::FrameItems;
use crate::paged::PagedSeq;
use frame_pool::Pool;
use std::marker::Model;

/// Reads items of a sequence. It remembers the frame that it was in last, so places one after the other are read without a
/// search. Contracts see the list of all items.
#[derive(Drop)]
pub struct Reader<'t, T> {
    seq: &'t PagedSeq<T>,
    pool: &'t Pool<T>,
    frame: FrameItems<'t, T>,
}

impl<'t, T> Model for Reader<'t, T> {
    ghost use Rattle.std.specs.Prelude.{List};

    ghost Value = { List T };

    ghost use Rattle.paged_seq.specs.Sequences.{paged_items, IsReading};

    ghost view = { λ r. paged_items r.pool.now r.seq.now };

    ghost invariant = { λ r. IsReading T r.pool.now r.seq.now r.frame.first r.frame.items.now };
}

impl<T: Copy> PagedSeq<T> {
    /// A reader of the items. Takes no memory.
    pub fn reader<'t>(&'t self, pool: &'t Pool<T>) -> Reader<'t, T>
        requires { IsPaged T pool.now self.now }
        ensures { result ≡ paged_items pool.now self.now }
    {
        Reader {
            seq: self,
            pool,
            frame: FrameItems {
                items: &[],
                first: 0,
                next: 0,
            },
        }
    }
}

impl<'t, T: Copy> Reader<'t, T> {
    /// The item at a place. Takes no memory.
    pub fn get(&mut self, i: u64) -> T
        requires { i < length self.old }
        ensures item { result ≡ slice_index_or self.old i result }
        ensures same { self.new ≡ self.old }
    {
        if self.frame.holds(i) {
            return self.frame.item(i);
        }
        self.frame = self.seq.frame_at(self.pool, i, self.frame.next);
        self.frame.item(i)
    }
}

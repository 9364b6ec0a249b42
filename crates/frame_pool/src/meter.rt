// How much work was done.
ghost use Rattle.std.specs.Prelude.{◌≡◌, ◌+◌, ◌-◌, ◌^◌, min};
ghost use Rattle.frame_pool.specs.Meters.{HasCountedFrame};

/// How many rows were read and how many frames written. A count stops at the greatest u64, and no call lowers one.
#[derive(Clone, Copy, Debug, PartialEq, Eq)]
pub struct Meter {
    pub rows_read: u64,
    pub frames_written: u64,
}

impl Meter {
    /// A meter with every count at 0. Takes no memory.
    pub fn new() -> Meter
        ensures rows { result.rows_read ≡ 0 }
        ensures frames { result.frames_written ≡ 0 }
    {
        Meter {
            rows_read: 0,
            frames_written: 0,
        }
    }

    /// Counts one more row.
    pub fn count_row(&mut self)
        ensures rows { self.new.rows_read ≡ min (self.old.rows_read + 1) (2 ^ 64 - 1) }
        ensures frames { self.new.frames_written ≡ self.old.frames_written }
    {
        self.rows_read = self.rows_read.saturating_add(1);
    }

    /// Counts one more frame.
    pub(crate) fn count_frame(&mut self)
        ensures { HasCountedFrame self.old self.new }
    {
        self.frames_written = self.frames_written.saturating_add(1);
    }
}

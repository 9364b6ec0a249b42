// Rows, one after the other.
ghost use Rattle.std.specs.Prelude.{◌≡◌, ◌<◌, ◌≤◌, ◌^◌, length};
ghost use Rattle.std.specs.List.{slice_index_or};
ghost use Rattle.node_table.specs.Tables.{HasCountedRow};

use frame_pool::Meter;
use std::marker::Model;
use tree_model::Row;

/// The rows of a table, for walks that mostly go on to a row near the last one. Contracts see the list of the rows.
#[derive(Debug, Drop)]
pub struct RowReader<'t> {
    rows: &'t [Row],
}

impl<'t> Model for RowReader<'t> {
    ghost use Rattle.std.specs.Prelude.{List, ◌≤◌, ◌^◌, length};
    ghost use Rattle.tree_model.specs.declared.row.Row.{Row};

    ghost Value = { List Row };

    ghost view = { λ r. r.rows.now };

    ghost invariant = { λ r. length r.rows.now ≤ 2 ^ 24 };
}

impl<'t> RowReader<'t> {
    pub(crate) fn over(rows: &'t [Row]) -> RowReader<'t>
        requires few { length rows.now ≤ 2 ^ 24 }
        ensures { result ≡ rows.now }
    {
        RowReader { rows }
    }

    /// The number of rows.
    pub fn len(&self) -> u32
        ensures len { result ≡ length self.now }
        ensures most { result ≤ 2 ^ 24 }
    {
        self.rows.len() as u32
    }

    /// The row at a pre number. Takes no memory.
    pub fn row(&mut self, pre: u32, meter: &mut Meter) -> Row
        requires within { pre < length self.old }
        ensures row { result ≡ slice_index_or self.old pre result }
        ensures rows { self.new ≡ self.old }
        ensures meter { HasCountedRow meter.old meter.new }
    {
        meter.count_row();
        self.rows[pre as usize]
    }
}

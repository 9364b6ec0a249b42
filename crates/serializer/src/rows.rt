// The rows of a table, read one at a time.
ghost use Rattle.std.specs.Prelude.{◌≡◌, ◌<◌, ◌≤◌, ◌^◌, length, slice_range, OnOk};
ghost use Rattle.std.specs.List.{slice_index_or};
ghost use Rattle.node_table.specs.Tables.{rows_in, IsIn};

use frame_pool::{Meter, Pool};
use node_table::{NodeTable, RowReader};
use std::marker::Model;
use tree_model::{NoMemory, Row};

// A reader of rows with a meter of its own. Contracts see the list of the rows.
#[derive(Drop)]
pub(crate) struct Rows<'t> {
    reader: RowReader<'t>,
    meter: Meter,
}

impl<'t> Model for Rows<'t> {
    ghost use Rattle.std.specs.Prelude.{List};
    ghost use Rattle.tree_model.specs.declared.row.Row.{Row};

    ghost Value = { List Row };

    ghost view = { λ r. r.reader };
}

impl<'t> Rows<'t> {
    pub(crate) fn of(table: &'t NodeTable, pool: &'t Pool<Row>) -> Rows<'t>
        requires { IsIn pool.now table.now }
        ensures { result ≡ rows_in pool.now table.now }
    {
        Rows {
            reader: table.reader(pool),
            meter: Meter::new(),
        }
    }

    // The number of rows.
    pub(crate) fn len(&self) -> u32
        ensures len { result ≡ length self.now }
        ensures most { result ≤ 2 ^ 24 }
    {
        self.reader.len()
    }

    // The row at a pre number.
    pub(crate) fn row(&mut self, pre: u32) -> Row
        requires { pre < length self.old }
        ensures row { result ≡ slice_index_or self.old pre result }
        ensures rows { self.new ≡ self.old }
    {
        self.reader.row(pre, &mut self.meter)
    }

    // The rows from `from` up to and without `to`, in place of what a buffer had before.
    pub(crate) fn read(&mut self, from: u32, to: u32, buffer: &mut Vec<Row>) -> Result<(), NoMemory>
        requires range { from ≤ to }
        requires within { to ≤ length self.old }
        ensures read { OnOk result (buffer.new.items ≡ slice_range self.old from to) }
        ensures rows { self.new ≡ self.old }
    {
        buffer.clear();
        for pre in from..to {
            buffer.push(self.row(pre))?;
        }
        Ok(())
    }
}

// Cursors over axes.
ghost use Rattle.std.specs.Prelude.{◌≡◌, ℕ, ◌<◌, List, length};
ghost use Rattle.axis_cursor.specs.Cursors.{Gave};
ghost use Rattle.axis_cursor.specs.Trees.{axis_places};
ghost use Rattle.frame_pool.specs.Meters.{HasRead};
ghost use Rattle.node_table.specs.Tables.{rows_in, IsIn};
ghost use Rattle.node_table.specs.Views.{view_of, view_forest, KeepsTrees};

use crate::origin::Origin;
use crate::walk::Walk;
use frame_pool::{Meter, Pool};
use name_pool::NamePool;
use node_table::{NodeTable, RowReader};
use std::marker::Model;
use tree_model::{Axis, Row, Test};

/// The nodes of an axis that pass a test, one after the other (XPath 2.0, section 3.2.1). A cursor reads the rows of a table by
/// a reader of its own, and borrows the names. Contracts see the list of the pre numbers that it has still to give, in the axis's
/// own order. It goes over the rows in that direction, reads none of them twice, and none beyond the one that it gives.
#[derive(Drop)]
pub struct Cursor<'t> {
    reader: RowReader<'t>,
    names: &'t NamePool,
    test: &'t Test,
    axis: Axis,
    context: u32,
    walk: Walk,
}

impl<'t> Model for Cursor<'t> {
    ghost use Rattle.std.specs.Prelude.{ℕ, List};

    ghost Value = { List ℕ };

    ghost use Rattle.axis_cursor.specs.Cursors.{to_come, IsOpen};

    ghost view = { λ c. to_come c.names.now c.reader c.axis c.test.now c.context c.walk };

    ghost invariant = { λ c. IsOpen c.names.now c.reader c.axis c.context c.walk };
}

impl<'t> Cursor<'t> {
    /// A cursor over the axis of the node with this pre number. No row is read before the first `next`. Takes no memory.
    pub fn new(
        table: &'t NodeTable,
        pool: &'t Pool<Row>,
        names: &'t NamePool,
        context: u32,
        axis: Axis,
        test: &'t Test,
    ) -> Cursor<'t>
        requires held { IsIn pool.now table.now }
        requires trees { (values : List ℕ) × KeepsTrees (view_of (rows_in pool.now table.now) names.now values) }
        requires within { context < length (rows_in pool.now table.now) }
        ensures { (values : List ℕ) → KeepsTrees (view_of (rows_in pool.now table.now) names.now values)
            → result ≡ axis_places (view_forest (view_of (rows_in pool.now table.now) names.now values)) axis test.now context }
    {
        Cursor {
            reader: table.reader(pool),
            names,
            test,
            axis,
            context,
            walk: Walk::Start,
        }
    }

    /// The next of the nodes, by its pre number. Behind the last one it is None, again and again. Takes no memory.
    pub fn next(&mut self, meter: &mut Meter) -> Option<u32>
        ensures gave { Gave result self.old self.new }
        ensures meter { HasRead meter.old meter.new }
    {
        let origin = Origin {
            axis: self.axis,
            context: self.context,
        };
        origin.find(
            self.names,
            self.test,
            &mut self.walk,
            &mut self.reader,
            meter,
        )
    }
}

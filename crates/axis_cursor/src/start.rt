// How the walk over an axis begins.
ghost use Rattle.std.specs.Prelude.{not, nat_lt, ◌&&◌, ◌≡◌, ◌<◌, ◌≤◌, ◌^◌, List, [], length};
ghost use Rattle.axis_cursor.specs.Cursors.{GaveRow, GaveFirst, remaining, first_places, Begins, HasBegun, IsPlaced};
ghost use Rattle.node_table.specs.Laid.{is_attribute, row_at};
ghost use Rattle.axis_cursor.specs.RowAxes.{row_places};
ghost use Rattle.frame_pool.specs.Meters.{HasRead};
ghost use Rattle.tree_model.specs.declared.row.Row.{Row as TableRow};

use crate::node_test::is_attribute;
use crate::origin::Origin;
use crate::rows::row_at;
use crate::walk::Walk;
use frame_pool::Meter;
use node_table::RowReader;
use tree_model::{Axis, Row};

// Whether a node has siblings: it is a child of another. Attributes aren't.
fn is_child(row: &Row) -> bool
    ensures { result ≡ (nat_lt 0 row.now.dist && not (is_attribute row.now.kind)) }
{
    row.dist > 0 && !is_attribute(row)
}

// In each of these `row` is the row of the context.
impl Origin {
    // Siblings behind end where the subtree of the parent ends.
    fn siblings_behind(self, row: &Row, reader: &mut RowReader<'_>, meter: &mut Meter) -> Walk
        requires placed { IsPlaced reader.old self.context }
        requires row { row.now ≡ row_at reader.old self.context }
        ensures begins { Begins reader.old Axis.FollowingSibling self.context result }
        ensures rows { reader.new ≡ reader.old }
        ensures meter { HasRead meter.old meter.new }
    {
        if !is_child(row) {
            return Walk::Done;
        }
        let place = self.context - row.dist;
        let parent = row_at(reader, place, meter);
        Walk::Trees {
            at: self.context + row.size,
            end: place + parent.size,
        }
    }

    fn siblings_before(self, row: &Row) -> Walk
        requires { row.now.dist ≤ self.context }
        ensures { (rows : List TableRow) → IsPlaced rows self.context → row.now ≡ row_at rows self.context → Begins rows Axis.PrecedingSibling self.context result }
    {
        if !is_child(row) {
            return Walk::Done;
        }
        Walk::TreesBefore {
            at: self.context,
            parent: self.context - row.dist,
        }
    }

    // All that is before the context and isn't above it.
    fn before(self, row: &Row) -> Walk
        requires { row.now.dist ≤ self.context }
        ensures { (rows : List TableRow) → IsPlaced rows self.context → row.now ≡ row_at rows self.context → Begins rows Axis.Preceding self.context result }
    {
        if row.dist == 0 {
            return Walk::Done;
        }
        Walk::Before {
            at: self.context,
            above: self.context - row.dist,
        }
    }

    // What is left behind the nodes that are given first.
    fn walk(self, row: &Row, reader: &mut RowReader<'_>, meter: &mut Meter) -> Walk
        requires placed { IsPlaced reader.old self.context }
        requires row { row.now ≡ row_at reader.old self.context }
        requires few { length reader.old ≤ 2 ^ 24 }
        ensures begins { Begins reader.old self.axis self.context result }
        ensures rows { reader.new ≡ reader.old }
        ensures meter { HasRead meter.old meter.new }
    {
        let at = self.context;
        match self.axis {
            Axis::Child => Walk::Trees {
                at: at + row.asize,
                end: at + row.size,
            },
            Axis::Descendant | Axis::DescendantOrSelf => Walk::Nodes {
                at: at + row.asize,
                end: at + row.size,
            },
            Axis::Attribute => Walk::Attributes {
                at: at + 1,
                end: at + row.asize,
            },
            Axis::Slf | Axis::Parent => Walk::Done,
            Axis::FollowingSibling => self.siblings_behind(row, reader, meter),
            Axis::Following => Walk::After { at: at + row.size },
            Axis::Ancestor | Axis::AncestorOrSelf => Walk::Above { at, dist: row.dist },
            Axis::PrecedingSibling => self.siblings_before(row),
            Axis::Preceding => self.before(row),
        }
    }

    fn parent(self, row: &Row, reader: &mut RowReader<'_>, meter: &mut Meter) -> Option<(u32, Row)>
        requires placed { IsPlaced reader.old self.context }
        requires row { row.now ≡ row_at reader.old self.context }
        ensures gave { GaveRow reader.old result (first_places reader.old Axis.Parent self.context) [] }
        ensures rows { reader.new ≡ reader.old }
        ensures meter { HasRead meter.old meter.new }
    {
        if row.dist == 0 {
            return None;
        }
        let place = self.context - row.dist;
        Some((place, row_at(reader, place, meter)))
    }

    // What is given first: the context itself or its parent.
    fn first(self, row: &Row, reader: &mut RowReader<'_>, meter: &mut Meter) -> Option<(u32, Row)>
        requires placed { IsPlaced reader.old self.context }
        requires row { row.now ≡ row_at reader.old self.context }
        ensures gave { GaveRow reader.old result (first_places reader.old self.axis self.context) [] }
        ensures rows { reader.new ≡ reader.old }
        ensures meter { HasRead meter.old meter.new }
    {
        match self.axis {
            Axis::Slf | Axis::DescendantOrSelf | Axis::AncestorOrSelf => Some((self.context, *row)),
            Axis::Parent => self.parent(row, reader, meter),
            _ => None,
        }
    }

    // Reads the row of the context. Nothing is given where nothing is given first.
    pub fn begin(
        self,
        walk: &mut Walk,
        reader: &mut RowReader<'_>,
        meter: &mut Meter,
    ) -> Option<(u32, Row)>
        requires placed { IsPlaced reader.old self.context }
        ensures gave { GaveFirst reader.old result (row_places reader.old self.axis self.context) (remaining reader.old self.axis self.context walk.new) }
        ensures begun { HasBegun reader.old self.axis self.context walk.new }
        ensures rows { reader.new ≡ reader.old }
        ensures meter { HasRead meter.old meter.new }
    {
        let row = row_at(reader, self.context, meter);
        *walk = self.walk(&row, reader, meter);
        self.first(&row, reader, meter)
    }
}

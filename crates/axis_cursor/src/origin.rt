// The walks over an axis, each by the numbers that it stands at.
ghost use Rattle.std.specs.Prelude.{◌≡◌, ◌<◌, ◌≤◌, ◌^◌, length, IfSome};
ghost use Rattle.axis_cursor.specs.Cursors.{IsPlaced};
ghost use Rattle.node_table.specs.Laid.{IsLaid, row_at, is_attr_at};
ghost use Rattle.axis_cursor.specs.RowAxes.{is_in};
ghost use Rattle.axis_cursor.specs.Walks.{FirstFrom, LastBefore, is_child_of, is_node, is_node_beside, is_node_aside, parent_in, IsAtTree, IsAmong, IsAmongAttributes, IsBeside, IsAbove, IsAside, IsAtChild};
ghost use Rattle.frame_pool.specs.Meters.{HasRead};

use crate::node_test::is_attribute;
use crate::rows::row_at;
use frame_pool::Meter;
use node_table::RowReader;
use tree_model::{Axis, Row};

// An axis, and the place of the node from which it leads.
#[derive(Clone, Copy)]
pub(crate) struct Origin {
    pub axis: Axis,
    pub context: u32,
}

impl Origin {
    // The next of sibling trees.
    pub fn next_tree(
        self,
        at: &mut u32,
        end: u32,
        reader: &mut RowReader<'_>,
        meter: &mut Meter,
    ) -> Option<(u32, Row)>
        requires laid { IsLaid reader.old }
        requires at { IsAtTree reader.old (parent_in reader.old self.axis self.context) at.old end }
        ensures first { FirstFrom reader.old (is_child_of reader.old (parent_in reader.old self.axis self.context)) at.old end result at.new }
        ensures at { IsAtTree reader.old (parent_in reader.old self.axis self.context) at.new end }
        ensures rows { reader.new ≡ reader.old }
        ensures meter { HasRead meter.old meter.new }
    {
        if *at == end {
            return None;
        }
        let here = *at;
        let row = row_at(reader, here, meter);
        *at += row.size;
        Some((here, row))
    }

    // The next row that is no attribute.
    pub fn next_node(
        self,
        at: &mut u32,
        end: u32,
        reader: &mut RowReader<'_>,
        meter: &mut Meter,
    ) -> Option<(u32, Row)>
        requires at { IsAmong reader.old at.old end }
        ensures first { FirstFrom reader.old (is_node reader.old) at.old end result at.new }
        ensures at { IsAmong reader.old at.new end }
        ensures rows { reader.new ≡ reader.old }
        ensures meter { HasRead meter.old meter.new }
    {
        while *at < end {
            let here = *at;
            let row = row_at(reader, here, meter);
            *at = here + 1;
            if !is_attribute(&row) {
                return Some((here, row));
            }
        }
        None
    }

    // The next attribute.
    pub fn next_attribute(
        self,
        at: &mut u32,
        end: u32,
        reader: &mut RowReader<'_>,
        meter: &mut Meter,
    ) -> Option<(u32, Row)>
        requires at { IsAmongAttributes reader.old at.old end }
        ensures first { FirstFrom reader.old (is_attr_at reader.old) at.old end result at.new }
        ensures at { IsAmongAttributes reader.old at.new end }
        ensures rows { reader.new ≡ reader.old }
        ensures meter { HasRead meter.old meter.new }
    {
        if *at == end {
            return None;
        }
        let here = *at;
        *at += 1;
        Some((here, row_at(reader, here, meter)))
    }

    // The next row of the tree that is no attribute.
    pub fn next_after(
        self,
        at: &mut u32,
        reader: &mut RowReader<'_>,
        meter: &mut Meter,
    ) -> Option<(u32, Row)>
        requires at { IsBeside reader.old self.context at.old }
        ensures first { FirstFrom reader.old (is_node_beside reader.old self.context) at.old (length reader.old) result at.new }
        ensures at { IsBeside reader.old self.context at.new }
        ensures rows { reader.new ≡ reader.old }
        ensures meter { HasRead meter.old meter.new }
    {
        while *at < reader.len() {
            let here = *at;
            let row = row_at(reader, here, meter);
            if row.dist == 0 {
                return None;
            }
            *at = here + 1;
            if !is_attribute(&row) {
                return Some((here, row));
            }
        }
        None
    }

    // The next node above.
    pub fn next_above(
        self,
        at: &mut u32,
        dist: &mut u32,
        reader: &mut RowReader<'_>,
        meter: &mut Meter,
    ) -> Option<(u32, Row)>
        requires placed { IsPlaced reader.old self.context }
        requires at { IsAbove reader.old self.context at.old dist.old }
        ensures last { LastBefore reader.old (λ k. is_in reader.old k self.context) at.old result at.new }
        ensures at { IsAbove reader.old self.context at.new dist.new }
        ensures rows { reader.new ≡ reader.old }
        ensures meter { HasRead meter.old meter.new }
    {
        if *dist == 0 {
            return None;
        }
        let place = *at - *dist;
        let row = row_at(reader, place, meter);
        *at = place;
        *dist = row.dist;
        Some((place, row))
    }

    // The next row downwards that is no attribute and not above the context.
    pub fn next_before(
        self,
        at: &mut u32,
        above: &mut u32,
        reader: &mut RowReader<'_>,
        meter: &mut Meter,
    ) -> Option<(u32, Row)>
        requires placed { IsPlaced reader.old self.context }
        requires at { IsAside reader.old self.context at.old above.old }
        ensures last { LastBefore reader.old (is_node_aside reader.old self.context) at.old result at.new }
        ensures at { IfSome result (λ item. IsAside reader.old self.context at.new above.new) }
        ensures rows { reader.new ≡ reader.old }
        ensures meter { HasRead meter.old meter.new }
    {
        loop {
            *at -= 1;
            let row = row_at(reader, *at, meter);
            if *at != *above {
                if !is_attribute(&row) {
                    return Some((*at, row));
                }
            } else if row.dist == 0 {
                return None;
            } else {
                *above -= row.dist;
            }
        }
    }

    // The next sibling before.
    pub fn next_tree_before(
        self,
        at: &mut u32,
        parent: u32,
        reader: &mut RowReader<'_>,
        meter: &mut Meter,
    ) -> Option<(u32, Row)>
        requires laid { IsLaid reader.old }
        requires at { IsAtChild reader.old parent at.old }
        ensures last { LastBefore reader.old (is_child_of reader.old parent) at.old result at.new }
        ensures at { IfSome result (λ item. IsAtChild reader.old parent at.new) }
        ensures rows { reader.new ≡ reader.old }
        ensures meter { HasRead meter.old meter.new }
    {
        let mut here = *at - 1;
        while here != parent {
            let row = row_at(reader, here, meter);
            if here - row.dist == parent {
                if is_attribute(&row) {
                    return None;
                }
                *at = here;
                return Some((here, row));
            }
            here -= row.dist;
        }
        None
    }
}

// Walks from node to node.
ghost use Rattle.std.specs.Prelude.{◌≡◌, ◌<◌, [], length, All};
ghost use Rattle.axis_cursor.specs.Cursors.{Gave, GaveRow, Stepped, remaining, to_come, HasBegun, IsReady, IsPlaced};
ghost use Rattle.frame_pool.specs.Meters.{HasRead};
ghost use Rattle.tree_model.specs.declared.row.Row.{Row as TableRow};

use crate::node_test::passes;
use crate::origin::Origin;
use crate::walk::Walk;
use frame_pool::Meter;
use name_pool::NamePool;
use node_table::RowReader;
use tree_model::{Row, Test};

impl Origin {
    // The next node of a walk that has begun, by the walk's own numbers.
    #[tactic(auto, unfolding(crate::specs::Cursors::remaining))]
    fn step(
        self,
        walk: &mut Walk,
        reader: &mut RowReader<'_>,
        meter: &mut Meter,
    ) -> Option<(u32, Row)>
        requires placed { IsPlaced reader.old self.context }
        requires begun { HasBegun reader.old self.axis self.context walk.old }
        ensures stepped { Stepped reader.old self.axis self.context result walk.old walk.new }
        ensures rows { reader.new ≡ reader.old }
        ensures meter { HasRead meter.old meter.new }
    {
        match walk {
            Walk::Trees { at, end } => self.next_tree(at, *end, reader, meter),
            Walk::Nodes { at, end } => self.next_node(at, *end, reader, meter),
            Walk::Attributes { at, end } => self.next_attribute(at, *end, reader, meter),
            Walk::After { at } => self.next_after(at, reader, meter),
            Walk::Above { at, dist } => self.next_above(at, dist, reader, meter),
            Walk::Before { at, above } => self.next_before(at, above, reader, meter),
            Walk::TreesBefore { at, parent } => self.next_tree_before(at, *parent, reader, meter),
            Walk::Start | Walk::Done => None,
        }
    }

    // The next node of a walk that has begun, which is done where there is none.
    #[tactic(auto, unfolding(crate::specs::Cursors::remaining))]
    fn go_on(
        self,
        walk: &mut Walk,
        reader: &mut RowReader<'_>,
        meter: &mut Meter,
    ) -> Option<(u32, Row)>
        requires placed { IsPlaced reader.old self.context }
        requires begun { HasBegun reader.old self.axis self.context walk.old }
        ensures gave { GaveRow reader.old result (remaining reader.old self.axis self.context walk.old) (remaining reader.old self.axis self.context walk.new) }
        ensures ready { IsReady reader.old self.axis self.context walk.new }
        ensures rows { reader.new ≡ reader.old }
        ensures meter { HasRead meter.old meter.new }
    {
        match self.step(walk, reader, meter) {
            Some(item) => Some(item),
            None => {
                *walk = Walk::Done;
                None
            }
        }
    }

    // The first node.
    #[tactic(auto, unfolding(crate::specs::Cursors::remaining))]
    fn start(
        self,
        walk: &mut Walk,
        reader: &mut RowReader<'_>,
        meter: &mut Meter,
    ) -> Option<(u32, Row)>
        requires placed { IsPlaced reader.old self.context }
        ensures gave { GaveRow reader.old result (remaining reader.old self.axis self.context Walk.Start) (remaining reader.old self.axis self.context walk.new) }
        ensures ready { IsReady reader.old self.axis self.context walk.new }
        ensures rows { reader.new ≡ reader.old }
        ensures meter { HasRead meter.old meter.new }
    {
        match self.begin(walk, reader, meter) {
            Some(item) => Some(item),
            None => self.go_on(walk, reader, meter),
        }
    }

    // The next node of the axis, whether it passes or not.
    fn advance(
        self,
        walk: &mut Walk,
        reader: &mut RowReader<'_>,
        meter: &mut Meter,
    ) -> Option<(u32, Row)>
        requires placed { IsPlaced reader.old self.context }
        requires ready { IsReady reader.old self.axis self.context walk.old }
        ensures gave { GaveRow reader.old result (remaining reader.old self.axis self.context walk.old) (remaining reader.old self.axis self.context walk.new) }
        ensures ready { IsReady reader.old self.axis self.context walk.new }
        ensures rows { reader.new ≡ reader.old }
        ensures meter { HasRead meter.old meter.new }
    {
        match walk {
            Walk::Start => self.start(walk, reader, meter),
            _ => self.go_on(walk, reader, meter),
        }
    }

    // The next node that passes.
    #[tactic(auto, unfolding(crate::specs::Cursors::to_come))]
    pub fn find(
        self,
        names: &NamePool,
        test: &Test,
        walk: &mut Walk,
        reader: &mut RowReader<'_>,
        meter: &mut Meter,
    ) -> Option<u32>
        requires placed { IsPlaced reader.old self.context }
        requires named { All (λ (row : TableRow). row.name < length names.now) reader.old }
        requires ready { IsReady reader.old self.axis self.context walk.old }
        ensures gave { Gave result (to_come names.now reader.old self.axis test.now self.context walk.old) (to_come names.now reader.old self.axis test.now self.context walk.new) }
        ensures ready { IsReady reader.old self.axis self.context walk.new }
        ensures rows { reader.new ≡ reader.old }
        ensures meter { HasRead meter.old meter.new }
    {
        while let Some((place, row)) = self.advance(walk, reader, meter) {
            if passes(names, self.axis, test, &row) {
                return Some(place);
            }
        }
        None
    }
}

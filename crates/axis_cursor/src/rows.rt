// Rows at places.
ghost use Rattle.std.specs.Prelude.{◌≡◌, ◌<◌, ◌≤◌, ◌^◌, length};
ghost use Rattle.frame_pool.specs.Meters.{HasRead};
ghost use Rattle.node_table.specs.Laid.{row_at};

use frame_pool::Meter;
use node_table::RowReader;
use tree_model::Row;

/// The row at a place. The place behind the last fits into a `u32` too: a table has at most 2^24 rows.
pub fn row_at(reader: &mut RowReader<'_>, place: u32, meter: &mut Meter) -> Row
    requires within { place < length reader.old }
    ensures row { result ≡ row_at reader.old place }
    ensures few { length reader.old ≤ 2 ^ 24 }
    ensures rows { reader.new ≡ reader.old }
    ensures meter { HasRead meter.old meter.new }
{
    prove!(place < reader.len());
    // Read for its range: the count stops at the greatest u64.
    let _count = meter.rows_read;
    reader.row(place, meter)
}

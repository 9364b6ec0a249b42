// The rows of documents.
ghost use Rattle.std.specs.Prelude.{◌≡◌, ◌+◌, ◌<◌, ◌≤◌, ◌^◌, ◌++◌, [], List, None, length, take, drop, IfOk, OnOk, OnErr};
ghost use Rattle.std.specs.List.{slice_index_or};
ghost use Rattle.frame_pool.specs.Frames.{Held};
ghost use Rattle.tree_model.specs.Forest.{IsFlat, grove_of};
ghost use Rattle.tree_model.specs.Nodes.{parent_places};
ghost use Rattle.tree_model.specs.Rows.{entry_lines};
ghost use Rattle.tree_model.specs.declared.row.Row.{Row as TableRow};
ghost use Rattle.node_table.specs.Tables.{rows_in, IsIn, KeepsTables, HasCountedRow, with_rows};

use crate::reader::RowReader;
use frame_pool::{Meter, Pool};
use std::alloc::Global;
use std::marker::Model;
use tree_model::{NoMemory, Row};

/// The rows of documents in document order, at most 2^24. The place of a row is its pre number. Names and values lie
/// elsewhere. A table has its rows together with its pool: contracts see them as a function of both.
#[derive(Debug, Drop)]
pub struct NodeTable {
    rows: Vec<Row>,
}

impl Model for NodeTable {
    ghost use Rattle.std.specs.Prelude.{List, ◌≤◌, ◌^◌, length};
    ghost use Rattle.tree_model.specs.declared.row.Row.{Row};

    ghost Value = { List Row };

    ghost view = { λ t. t.rows.items };

    ghost invariant = { λ t. length t.rows.items ≤ 2 ^ 24 };
}

impl NodeTable {
    /// A table without rows. Takes no memory.
    #[tactic(auto, unfolding(crate::specs::Tables::rows_in, crate::specs::Tables::IsIn))]
    pub fn new(alloc: Global) -> NodeTable
        ensures rows { (pool : List (Held TableRow)) → rows_in pool result ≡ [] }
        ensures held { (pool : List (Held TableRow)) → IsIn pool result }
    {
        NodeTable {
            rows: Vec::new(alloc),
        }
    }

    /// The number of rows.
    #[tactic(auto, unfolding(crate::specs::Tables::rows_in, crate::specs::Tables::IsIn))]
    pub fn len(&self) -> u32
        ensures len { (pool : List (Held TableRow)) → IsIn pool self.now → result ≡ length (rows_in pool self.now) }
        ensures most { result ≤ 2 ^ 24 }
    {
        self.rows.len() as u32
    }

    /// A reader of the rows, which remembers where it is, so that the next row is near.
    #[tactic(auto, unfolding(crate::specs::Tables::rows_in, crate::specs::Tables::IsIn))]
    pub fn reader<'t>(&'t self, _pool: &'t Pool<Row>) -> RowReader<'t>
        requires held { IsIn _pool.now self.now }
        ensures { result ≡ rows_in _pool.now self.now }
    {
        RowReader::over(self.rows.as_slice())
    }

    /// The row at a pre number.
    #[tactic(auto, unfolding(crate::specs::Tables::rows_in, crate::specs::Tables::IsIn))]
    pub fn row(&self, _pool: &Pool<Row>, pre: u32, meter: &mut Meter) -> Row
        requires held { IsIn _pool.now self.now }
        requires within { pre < length (rows_in _pool.now self.now) }
        ensures row { result ≡ slice_index_or (rows_in _pool.now self.now) pre result }
        ensures meter { HasCountedRow meter.old meter.new }
    {
        meter.count_row();
        self.rows[pre as usize]
    }

    /// The pre number of the parent of the node at a pre number: None exactly where the node is a document.
    pub fn parent(&self, pool: &Pool<Row>, pre: u32, meter: &mut Meter) -> Option<u32>
        requires held { IsIn pool.now self.now }
        requires flat { IsFlat (entry_lines (rows_in pool.now self.now)) }
        requires within { pre < length (rows_in pool.now self.now) }
        ensures parent { result ≡ slice_index_or (parent_places (grove_of (entry_lines (rows_in pool.now self.now)))) pre None }
        ensures meter { HasCountedRow meter.old meter.new }
    {
        let row = self.row(pool, pre, meter);
        if row.dist == 0 {
            return None;
        }
        Some(pre - row.dist)
    }

    /// Puts the rows of documents before the row at `at`, which is that of a document, or behind all rows.
    #[tactic(auto, unfolding(crate::specs::Tables::rows_in, crate::specs::Tables::IsIn))]
    pub fn insert_documents(
        &mut self,
        _pool: &mut Pool<Row>,
        at: u32,
        rows: Vec<Row>,
    ) -> Result<(), NoMemory>
        requires held { IsIn _pool.old self.old }
        requires within { at ≤ length (rows_in _pool.old self.old) }
        requires few { length (rows_in _pool.old self.old) + length rows.items ≤ 2 ^ 24 }
        ensures ok { OnOk result (rows_in _pool.new self.new ≡ with_rows at rows.items (rows_in _pool.old self.old)) }
        ensures held { OnOk result (IsIn _pool.new self.new) }
        ensures err { OnErr result (self.new ≡ self.old) }
        ensures others { KeepsTables _pool.old _pool.new }
    {
        if self.rows.is_empty() {
            self.rows = rows;
            return Ok(());
        }
        let all = joined(
            self.rows.as_slice(),
            at as usize,
            rows.as_slice(),
            *self.rows.allocator(),
        )?;
        self.rows = all;
        Ok(())
    }

    /// An equal table.
    #[tactic(auto, unfolding(crate::specs::Tables::rows_in, crate::specs::Tables::IsIn))]
    pub fn branch(&self, _pool: &mut Pool<Row>) -> Result<NodeTable, NoMemory>
        requires held { IsIn _pool.old self.now }
        ensures rows { IfOk result (λ table. rows_in _pool.new table ≡ rows_in _pool.old self.now) }
        ensures held { IfOk result (λ table. IsIn _pool.new table) }
        ensures others { KeepsTables _pool.old _pool.new }
    {
        let rows = self.rows.clone()?;
        Ok(NodeTable { rows })
    }

    /// Gives the rows up. Takes no memory.
    pub fn give_up(self, _pool: &mut Pool<Row>)
        ensures others { KeepsTables _pool.old _pool.new }
    {}
}

// Rows with others among them.
fn joined(rows: &[Row], at: usize, more: &[Row], alloc: Global) -> Result<Vec<Row>, NoMemory>
    requires within { at ≤ length rows.now }
    requires few { length rows.now + length more.now ≤ 2 ^ 24 }
    ensures { IfOk result (λ all. all.items ≡ with_rows at more.now rows.now) }
{
    let (before, behind) = rows.split_at(at);
    let mut all = Vec::with_capacity(alloc, rows.len() + more.len())?;
    all.extend_from_slice(before)?;
    all.extend_from_slice(more)?;
    all.extend_from_slice(behind)?;
    Ok(all)
}

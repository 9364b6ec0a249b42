// One database.
ghost use Rattle.std.specs.Prelude.{◌≡◌, ◌+◌, ◌<◌, false, length, IfOk, IfErr, OnOk, OnErr};
ghost use Rattle.tree_model.specs.Forest.{Forest, count, join};
ghost use Rattle.tree_model.specs.Labels.{Label, numbered, with_path};
ghost use Rattle.tree_model.specs.Sound.{IsSound, IsLoose};
ghost use Rattle.node_table.specs.Views.{part_view, view_forest, KeepsTrees};
ghost use Rattle.doc_store.specs.Stored.{IsKept, IsEmptyAt, IsBegun, IsOut, IsBranchOf, HasGrown, IsAddRefusal, IsSameAfter, IsCommitted, IsAbandoned, branch_forest};

use crate::branch::Branch;
use crate::rows::rows_under;
use frame_pool::{Meter, Pool};
use id_map::{IdMap, Span};
use name_pool::NamePool;
use node_table::{NodeTable, Part};
use std::alloc::Global;
use std::marker::Model;
use tree_model::{Code, NoMemory, Refusal, Row, Text};
use value_heap::ValueHeap;

/// The most rows of a database.
const MAX_ROWS: u64 = 1 << 24;

/// The greatest next id.
const MAX_NEXT: u64 = (1 << 32) - 1;

/// A database: its name, the id that its next new node gets, the rows of its documents with their names and values, where
/// nodes stand by their ids, and whether a branch of it is out. Contracts see it as these; the base that it stands for is a
/// function of them. Its documents keep all rules, whether or not a branch is out.
#[derive(Debug, Drop)]
pub struct Database {
    name: Text,
    next: u32,
    table: NodeTable,
    ids: IdMap,
    heap: ValueHeap,
    names: NamePool,
    rows: Pool<Row>,
    spans: Pool<Span>,
    branched: bool,
}

impl Model for Database {
    ghost use Rattle.doc_store.specs.Stored.{Stored, IsKept, stored};

    ghost Value = { Stored };

    ghost view = { λ d. stored d.name d.next d.table d.rows d.ids d.names d.heap d.branched };

    ghost invariant = { λ d. IsKept (stored d.name d.next d.table d.rows d.ids d.names d.heap d.branched) };
}

impl Database {
    /// A database without documents, whose first node gets this id.
    pub fn new_at(alloc: Global, name: &Text, next: u32) -> Result<Database, NoMemory>
        ensures { IfOk result (IsEmptyAt name.now next) }
    {
        let name = name.copy()?;
        Ok(Database {
            name,
            next,
            table: NodeTable::new(alloc),
            ids: IdMap::new(alloc),
            heap: ValueHeap::new(alloc),
            names: NamePool::new(alloc),
            rows: Pool::new(alloc),
            spans: Pool::new(alloc),
            branched: false,
        })
    }

    /// The rows of its documents, with its pool of rows. They are those of a forest that keeps all rules.
    pub fn table(&self) -> &NodeTable
        ensures table { result.now ≡ self.now.table }
        ensures kept { IsKept self.now }
    {
        &self.table
    }

    /// The pool of the rows.
    pub fn row_pool(&self) -> &Pool<Row>
        ensures { result.now ≡ self.now.pool }
    {
        &self.rows
    }

    /// Where the nodes stand by their ids, with its pool of runs.
    pub fn ids(&self) -> &IdMap
        ensures { result.now ≡ self.now.ids }
    {
        &self.ids
    }

    /// The pool of the runs of ids.
    pub fn span_pool(&self) -> &Pool<Span> {
        &self.spans
    }

    /// The values of the rows, and those that a branch has added.
    pub fn heap(&self) -> &ValueHeap
        ensures { result.now ≡ self.now.values }
    {
        &self.heap
    }

    /// The names of the rows, and those that a branch has added.
    pub fn names(&self) -> &NamePool
        ensures { result.now ≡ self.now.names }
    {
        &self.names
    }

    pub fn name(&self) -> &Text
        ensures { result.now ≡ self.now.name }
    {
        &self.name
    }

    /// The id that the next new node gets.
    pub fn next_id(&self) -> u32
        ensures { result ≡ self.now.next }
    {
        self.next
    }

    /// A branch that is equal to the database. There is at most one.
    pub fn branch(&mut self) -> Result<Branch, NoMemory>
        requires none { self.old.branched ≡ false }
        ensures begun { IfOk result (IsBegun self.old self.new) }
        ensures own { IfOk result (IsBranchOf self.new) }
        ensures grown { HasGrown self.old self.new }
        ensures err { OnErr result (self.new.branched ≡ false) }
    {
        let origin = self.name.copy()?;
        let ids = self.ids.branch(&mut self.spans)?;
        let table = self.table.branch(&mut self.rows)?;
        self.branched = true;
        Ok(Branch {
            origin,
            table,
            ids,
            next: self.next,
            names_mark: self.names.mark(),
            values_mark: self.heap.mark(),
        })
    }

    /// Puts a document under a path before the document whose row stands at `at`, or behind all. Its nodes get the next ids in
    /// document order. `XKLM0005` where ids would run out, then `XKLM0003` where there would be too many rows. After
    /// `NoMemory` the branch may only be abandoned.
    pub fn add_document(
        &mut self,
        b: &mut Branch,
        at: u32,
        path: &Text,
        built: &Part,
        meter: &mut Meter,
    ) -> Result<(), Refusal>
        requires own { IsBranchOf self.old b.old }
        requires built { KeepsTrees (part_view built.now) }
        requires some { 0 < length built.now.rows.items }
        requires document { IsLoose (with_path path.now (view_forest (part_view built.now))) (length built.now.rows.items) }
        requires place { (before after : Forest Label) × (branch_forest self.old b.old ≡ join before after) × (count before ≡ at) }
        ensures forest { OnOk result ((before after : Forest Label) → branch_forest self.old b.old ≡ join before after → count before ≡ at
            → branch_forest self.new b.new ≡ join before (join (numbered b.old.next (with_path path.now (view_forest (part_view built.now)))) after)) }
        ensures next { OnOk result (b.new.next ≡ b.old.next + length built.now.rows.items) }
        ensures own { OnOk result (IsBranchOf self.new b.new) }
        ensures refused { IfErr result (IsAddRefusal self.old b.old (length built.now.rows.items)) }
        ensures same { IfErr result (λ r. IsSameAfter r b.old b.new × IsSameAfter r self.old self.new) }
        ensures out { IsOut self.new b.new }
        ensures marks { (b.new.names_mark ≡ b.old.names_mark) × (b.new.values_mark ≡ b.old.values_mark) }
        ensures grown { HasGrown self.old self.new }
        ensures meter { meter.new ≡ meter.old }
    {
        let count = built.rows.len() as u64;
        if b.next as u64 + count > MAX_NEXT {
            return Err(Refusal::Code(Code::XKLM0005));
        }
        if b.table.len() as u64 + count > MAX_ROWS {
            return Err(Refusal::Code(Code::XKLM0003));
        }
        let rows = rows_under(&mut self.names, &mut self.heap, path, built, b.next)?;
        b.table.insert_documents(&mut self.rows, at, rows)?;
        b.ids
            .inserted(&mut self.spans, at, b.next, count as u32, meter)?;
        b.next += count as u32;
        Ok(())
    }

    /// Makes a branch the state. Takes no memory.
    pub fn commit(&mut self, b: Branch)
        requires own { IsBranchOf self.old b }
        requires sound { IsSound (branch_forest self.old b) b.next }
        ensures { IsCommitted self.old b self.new }
    {
        self.table = b.table;
        self.ids = b.ids;
        self.next = b.next;
        self.branched = false;
    }

    /// Gives a branch up, and what it added, also after a change of it that wanted memory half way. Takes no memory.
    pub fn abandon(&mut self, b: Branch)
        requires out { IsOut self.old b }
        ensures { IsAbandoned self.old b self.new }
    {
        self.names.back_to(b.names_mark);
        self.heap.back_to(b.values_mark);
        b.table.give_up(&mut self.rows);
        b.ids.give_up(&mut self.spans);
        self.branched = false;
    }
}

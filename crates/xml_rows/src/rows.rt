// Rows, one behind the other.
ghost use Rattle.std.specs.Prelude.{◌≡◌, ◌+◌, ◌-◌, ◌<◌, ◌≤◌, ◌^◌, ◌++◌, ◌↔◌, ℕ, List, [], ◌∷◌, length, IsTrue, IfOk, OnOk};
ghost use Rattle.tree_model.specs.Forest.{Line};
ghost use Rattle.tree_model.specs.Labels.{Label};
ghost use Rattle.tree_model.specs.Rows.{lines_of, ArePlaced};
ghost use Rattle.tree_model.specs.declared.text.Name.{Name};
ghost use Rattle.xml_rows.specs.Table.{label_at, element_line};
ghost use Rattle.xml_rows.specs.Work.{top, leaf, with_leaf, sized, ended, less};

use std::alloc::Global;
use std::marker::Model;
use tree_model::{Kind, NoMemory, Row, ValueRef};

/// Rows that are being made, the first for the document, and the places of the open elements.
#[derive(Drop)]
pub struct Rows {
    rows: Vec<Row>,
    opened: Vec<usize>,
}

impl Model for Rows {
    ghost use Rattle.std.specs.Prelude.{ℕ, ◌<◌, reverse, length, slice_index};
    ghost use Rattle.xml_rows.specs.Table.{Table};

    ghost Value = { Table };

    ghost view = { λ r. record { rows = r.rows.items; open_at = reverse r.opened.items } };

    ghost invariant = { λ r. (0 < length r.rows.items) × ((k : ℕ) → k < length r.opened.items → slice_index r.opened.items k < length r.rows.items) };
}

impl Rows {
    /// The row of a document alone.
    pub fn new(alloc: Global, name: u64) -> Result<Rows, NoMemory>
        ensures lines { IfOk result (λ r. (names : List Name) (values : List ℕ) → lines_of names values r.rows ≡ leaf 0 0 (label_at names values Kind.Doc name (record { at = 0; len = 0 })) ∷ []) }
        ensures placed { IfOk result (λ r. (names : List Name) (values : List ℕ) → name < length names → ArePlaced names values r.rows) }
        ensures open_at { IfOk result (λ r. r.open_at ≡ []) }
        ensures len { IfOk result (λ r. length r.rows ≡ 1) }
    {
        let mut rows = Vec::new(alloc);
        rows.push(Row {
            kind: Kind::Doc,
            name,
            dist: 0,
            size: 1,
            asize: 1,
            id: 0,
            val: ValueRef { at: 0, len: 0 },
        })?;
        Ok(Rows {
            rows,
            opened: Vec::new(alloc),
        })
    }

    /// How many rows there are.
    pub fn len(&self) -> usize
        ensures len { result ≡ length self.now.rows }
        ensures some { 0 < result }
    {
        self.rows.len()
    }

    /// Whether an element is open.
    pub fn is_open(&self) -> bool
        ensures { IsTrue result ↔ (0 < length self.now.open_at) }
    {
        !self.opened.is_empty()
    }

    // Where the parent of the next row stands.
    fn top(&self) -> usize
        ensures top { result ≡ top self.now.open_at }
        ensures within { result < length self.now.rows }
    {
        match self.opened.last() {
            Some(place) => *place,
            None => 0,
        }
    }

    /// A row at the end, without others below it.
    pub fn add_leaf(&mut self, kind: Kind, name: u64, val: ValueRef) -> Result<(), NoMemory>
        requires few { length self.old.rows < 2 ^ 32 }
        ensures lines { OnOk result ((names : List Name) (values : List ℕ) → lines_of names values self.new.rows ≡ with_leaf (label_at names values kind name val) (lines_of names values self.old.rows) self.old.open_at) }
        ensures placed { OnOk result ((names : List Name) (values : List ℕ) → ArePlaced names values self.old.rows → name < length names → val.at + val.len ≤ length values → ArePlaced names values self.new.rows) }
        ensures open_at { OnOk result (self.new.open_at ≡ self.old.open_at) }
        ensures len { OnOk result (length self.new.rows ≡ length self.old.rows + 1) }
    {
        let place = self.rows.len();
        let dist = (place - self.top()) as u32;
        self.rows.push(Row {
            kind,
            name,
            dist,
            size: 1,
            asize: 1,
            id: place as u32,
            val,
        })?;
        Ok(())
    }

    /// The row of an element, before the rows of its attributes.
    pub fn add_element(
        &mut self,
        name: u64,
        val: ValueRef,
        attributes: usize,
    ) -> Result<(), NoMemory>
        requires few { length self.old.rows + attributes + 1 < 2 ^ 32 }
        ensures lines { OnOk result ((names : List Name) (values : List ℕ) → lines_of names values self.new.rows
            ≡ lines_of names values self.old.rows ++ element_line (length self.old.rows) (length self.old.rows - top self.old.open_at) (label_at names values Kind.Elem name val) attributes ∷ []) }
        ensures placed { OnOk result ((names : List Name) (values : List ℕ) → ArePlaced names values self.old.rows → name < length names → val.at + val.len ≤ length values → ArePlaced names values self.new.rows) }
        ensures open_at { OnOk result (self.new.open_at ≡ self.old.open_at) }
        ensures len { OnOk result (length self.new.rows ≡ length self.old.rows + 1) }
    {
        let place = self.rows.len();
        let dist = (place - self.top()) as u32;
        let size = (1 + attributes) as u32;
        self.rows.push(Row {
            kind: Kind::Elem,
            name,
            dist,
            size,
            asize: size,
            id: place as u32,
            val,
        })?;
        Ok(())
    }

    /// The row of an attribute of the element at a place.
    pub fn add_attribute(&mut self, place: usize, name: u64, val: ValueRef) -> Result<(), NoMemory>
        requires few { length self.old.rows < 2 ^ 32 }
        requires within { place < length self.old.rows }
        ensures lines { OnOk result ((names : List Name) (values : List ℕ) → lines_of names values self.new.rows
            ≡ lines_of names values self.old.rows ++ leaf (length self.old.rows) (length self.old.rows - place) (label_at names values Kind.Attr name val) ∷ []) }
        ensures placed { OnOk result ((names : List Name) (values : List ℕ) → ArePlaced names values self.old.rows → name < length names → val.at + val.len ≤ length values → ArePlaced names values self.new.rows) }
        ensures open_at { OnOk result (self.new.open_at ≡ self.old.open_at) }
        ensures len { OnOk result (length self.new.rows ≡ length self.old.rows + 1) }
    {
        let own = self.rows.len();
        self.rows.push(Row {
            kind: Kind::Attr,
            name,
            dist: (own - place) as u32,
            size: 1,
            asize: 1,
            id: own as u32,
            val,
        })?;
        Ok(())
    }

    /// The element at a place is open.
    pub fn open(&mut self, place: usize) -> Result<(), NoMemory>
        requires within { place < length self.old.rows }
        ensures rows { self.new.rows ≡ self.old.rows }
        ensures open_at { OnOk result (self.new.open_at ≡ place ∷ self.old.open_at) }
    {
        self.opened.push(place)?;
        Ok(())
    }

    /// The innermost open element ends at the last row.
    pub fn end(&mut self)
        requires few { length self.old.rows < 2 ^ 32 }
        ensures lines { (names : List Name) (values : List ℕ) → lines_of names values self.new.rows ≡ ended self.old.open_at (lines_of names values self.old.rows) }
        ensures placed { (names : List Name) (values : List ℕ) → ArePlaced names values self.old.rows → ArePlaced names values self.new.rows }
        ensures open_at { self.new.open_at ≡ less self.old.open_at }
        ensures len { length self.new.rows ≡ length self.old.rows }
    {
        let Some(place) = self.opened.pop() else {
            return;
        };
        let size = (self.rows.len() - place) as u32;
        let row = self.rows[place];
        self.rows[place] = Row { size, ..row };
    }

    /// All rows. The document ends at the last of them.
    pub fn into_rows(self) -> Vec<Row>
        requires few { length self.rows < 2 ^ 32 }
        ensures lines { (names : List Name) (values : List ℕ) → lines_of names values result.items ≡ sized (length self.rows) 0 (lines_of names values self.rows) }
        ensures placed { (names : List Name) (values : List ℕ) → ArePlaced names values self.rows → ArePlaced names values result.items }
        ensures len { length result.items ≡ length self.rows }
    {
        let Rows {
            mut rows,
            opened: _,
        } = self;
        let size = rows.len() as u32;
        let first = rows[0];
        rows[0] = Row { size, ..first };
        rows
    }
}

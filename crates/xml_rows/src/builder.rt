// Rows, names and values from the pieces of a text, one after the other.
ghost use Rattle.std.specs.Prelude.{◌≡◌, ◌+◌, ◌<◌, ◌^◌, [], codes, length, IfOk, OnOk};
ghost use Rattle.tree_model.specs.Rows.{lines_of, ArePlaced};
ghost use Rattle.xml_pieces.specs.Tokens.{token_text};
ghost use Rattle.xml_pieces.specs.View.{token_of};
ghost use Rattle.xml_rows.specs.BuilderView.{parts_work, faults_of, IsTidy};
ghost use Rattle.xml_rows.specs.Fitting.{IsFit};
ghost use Rattle.xml_rows.specs.Work.{works, begin_work, finished};

use crate::declarations::XML_URI;
use crate::elements::Elements;
use crate::names::Names;
use crate::parts::{Fault, Mode, Parts, Tag, text_len};
use crate::rows::Rows;
use crate::scope::Scopes;
use crate::values::Values;
use name_pool::NamePool;
use std::alloc::Global;
use std::marker::Model;
use tree_model::{NoMemory, Row};
use value_heap::ValueHeap;
use xml_pieces::Piece;

impl<'a> Parts<'a> {
    #[tactic(auto, unfolding(crate::specs::Work::works))]
    fn take(&mut self, piece: Piece<'a>, strip: bool) -> Result<(), NoMemory>
        requires tidy { IsTidy self.old.at self.old }
        requires fit { IsFit (token_of piece) }
        requires few { self.old.at + length (token_text (token_of piece)) < 2 ^ 31 }
        ensures work { OnOk result (parts_work self.new ≡ works strip (parts_work self.old) (token_of piece.entry)) }
        ensures tidy { OnOk result (IsTidy self.new.at self.new) }
        ensures at { OnOk result (self.new.at ≡ self.old.at + length (token_text (token_of piece.entry))) }
    {
        let len = text_len(&piece);
        match self.mode {
            Mode::Content => self.take_content(piece, strip)?,
            Mode::InTag => self.take_tag(piece)?,
            Mode::InValue => self.take_value(piece)?,
        }
        self.at += len;
        Ok(())
    }
}

/// What was made of a text: the rows, whose names have numbers among the names and whose values lie among the bytes.
#[derive(Drop)]
pub struct Made {
    pub names: NamePool,
    pub values: ValueHeap,
    pub rows: Vec<Row>,
}

/// Makes rows from the pieces of a text. Contracts see the work that is done.
#[derive(Drop)]
pub struct Builder<'a> {
    parts: Box<Parts<'a>>,
}

impl<'a> Model for Builder<'a> {
    ghost use Rattle.xml_rows.specs.Work.{Work};

    ghost Value = { Work };

    ghost use Rattle.xml_rows.specs.BuilderView.{parts_work, IsTidy};

    ghost view = { λ b. parts_work b.parts.value };

    ghost invariant = { λ b. IsTidy b.parts.value.at b.parts.value };
}

impl<'a> Builder<'a> {
    /// The row of a document alone, before the byte at a place.
    pub fn begin(alloc: Global, at: usize) -> Result<Builder<'a>, NoMemory>
        ensures { IfOk result (λ b. b ≡ begin_work at) }
    {
        let mut names = Names::new(alloc)?;
        let mut scopes = Scopes::new(alloc);
        scopes.bind(b"xml", names.uri_number(XML_URI)?)?;
        scopes.bind(&[], names.no_uri())?;
        let rows = Rows::new(alloc, names.unnamed())?;
        let parts = Parts {
            elements: Elements {
                rows,
                names,
                scopes,
                found: Vec::new(alloc),
                alloc,
            },
            values: Values::new(alloc),
            tag: Tag {
                name: &[],
                from: 0,
                pairs: Vec::new(alloc),
                within: None,
                key: &[],
            },
            mode: Mode::Content,
            at,
            fault: None,
        };
        Ok(Builder {
            parts: Box::new(alloc, parts)?,
        })
    }

    /// Takes the next piece. For want of memory the builder is let go.
    pub fn take(self, piece: Piece<'a>, strip: bool) -> Result<Builder<'a>, NoMemory>
        requires fit { IsFit (token_of piece) }
        requires few { self.at + length (token_text (token_of piece)) < 2 ^ 31 }
        ensures work { IfOk result (λ b. b ≡ works strip self.entry (token_of piece.entry)) }
        ensures at { IfOk result (λ b. b.at ≡ self.entry.at + length (token_text (token_of piece.entry))) }
    {
        let Builder { mut parts } = self;
        parts.take(piece, strip)?;
        Ok(Builder { parts })
    }

    /// The first fault so far.
    pub fn fault(&self) -> Option<Fault>
        ensures { faults_of result ≡ self.now.fault }
    {
        self.parts.fault
    }

    /// The place of the next byte.
    pub fn at(&self) -> usize
        ensures { result ≡ self.now.at }
    {
        self.parts.at
    }

    /// How many rows there are.
    pub fn len(&self) -> usize
        ensures { result ≡ length self.now.lines }
    {
        self.parts.elements.rows.len()
    }

    /// All that was made. The document ends at the last row.
    pub fn finish(self) -> Made
        requires few { self.at < 2 ^ 31 }
        ensures lines { lines_of result.names result.values result.rows.items ≡ finished self.entry }
        ensures placed { ArePlaced result.names result.values result.rows.items }
        ensures len { length result.rows.items ≡ length self.entry.lines }
    {
        let Builder { parts } = self;
        let Parts {
            elements,
            mut values,
            tag: _,
            mode: _,
            at: _,
            fault: _,
        } = Box::into_inner(parts);
        let Elements {
            rows,
            names,
            scopes: _,
            found: _,
            alloc: _,
        } = elements;
        values.forget();
        Made {
            names: names.into_pool(),
            values: values.into_heap(),
            rows: rows.into_rows(),
        }
    }
}

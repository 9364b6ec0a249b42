// Whether the pieces stand in order.
ghost use Rattle.std.specs.Prelude.{◌≡◌, ◌∷◌, IfOk, OnOk, IsTrue, ◌↔◌};
ghost use Rattle.std.specs.List.{list_all};
ghost use Rattle.tree_model.specs.XmlChars.{is_space};
ghost use Rattle.tree_model.specs.XmlSource.{run};
ghost use Rattle.xml_pieces.specs.Tokens.{open_token, attr_token};
ghost use Rattle.xml_pieces.specs.View.{token_of, where_of};
ghost use Rattle.xml_order.specs.Shape.{shape, closed, with_part, in_element, with_doctype, in_order, in_order_at, begin, end, where_at, in_content as at_content, in_tag as at_tag, in_quotes as at_quotes};
ghost use Rattle.xml_order.specs.Gives.{Gives};

use crate::names::Names;
use std::alloc::{AllocError, Global};
use std::marker::Model;
use xml_pieces::{Piece, Place};

// What of the document was met so far.
#[derive(Clone, Copy)]
enum Stage {
    BeforeDoctype,
    BeforeRoot,
    BehindRoot,
}

/// The control of the reader: which pieces may come next.
#[derive(Drop)]
pub struct Control<'a> {
    // the names of the open elements, the outermost first
    opened: Vec<&'a [u8]>,
    // the name of the tag that is being read, and those of its attributes
    name: &'a [u8],
    names: Names<'a>,
    stage: Stage,
    place: Place,
}

impl<'a> Model for Control<'a> {
    ghost use Rattle.xml_order.specs.Shape.{Shape};

    ghost Value = { Shape };

    ghost use Rattle.xml_order.specs.ControlView.{control_shape, HasNamesInTags};

    ghost view = { control_shape };

    // outside tags there are no names of attributes
    ghost invariant = { λ c. HasNamesInTags c.place c.names };
}

fn is_space_byte(byte: u8) -> bool
    ensures { result ≡ is_space byte }
{
    matches!(byte, b' ' | b'\t' | b'\n' | b'\r')
}

fn are_space(bytes: &[u8]) -> bool
    ensures { result ≡ list_all is_space bytes.now }
{
    bytes.iter().all(|b| is_space_byte(*b))
}

impl<'a> Control<'a> {
    /// Before the first piece.
    pub fn begin(alloc: Global) -> Self
        ensures { result ≡ begin }
    {
        Control {
            opened: Vec::new(alloc),
            name: b"".as_slice(),
            names: Names::new(alloc),
            stage: Stage::BeforeDoctype,
            place: Place::Content,
        }
    }

    /// Where the next piece is read.
    pub fn place(&self) -> Place
        ensures { where_of result ≡ where_at self.now.mode }
    {
        self.place
    }

    /// Whether a document ends here.
    pub fn is_whole(&self) -> bool
        ensures { IsTrue result ↔ (self.now ≡ end) }
    {
        matches!(
            (self.place, self.stage),
            (Place::Content, Stage::BehindRoot)
        ) && self.opened.is_empty()
    }

    /// Whether neither the DOCTYPE nor the root was met, and nothing is being read.
    pub fn is_before_doctype(&self) -> bool
        ensures { IsTrue result ↔ (self.now ≡ begin) }
    {
        matches!(
            (self.place, self.stage),
            (Place::Content, Stage::BeforeDoctype)
        ) && self.opened.is_empty()
    }

    fn doctype(&mut self) -> bool
        requires { self.old.mode ≡ at_content }
        ensures { Gives result self.new (with_doctype self.old.opened self.old.stage) }
    {
        if !self.opened.is_empty() || !matches!(self.stage, Stage::BeforeDoctype) {
            return false;
        }
        self.stage = Stage::BeforeRoot;
        true
    }

    fn open(&mut self, name: &'a [u8]) -> bool
        requires { self.old.mode ≡ at_content }
        ensures { Gives result self.new (in_order_at at_content self.old.opened self.old.stage (open_token name.now)) }
    {
        if self.opened.is_empty() && matches!(self.stage, Stage::BehindRoot) {
            return false;
        }
        self.stage = Stage::BehindRoot;
        self.name = name;
        self.place = Place::Tag;
        true
    }

    fn close(&mut self, name: &[u8]) -> bool
        requires { self.old.mode ≡ at_content }
        ensures { Gives result self.new (closed name.now self.old.opened self.old.stage) }
    {
        let Some(open) = self.opened.pop() else {
            return false;
        };
        open == name
    }

    // A piece among content or outside the root.
    fn in_content(&mut self, piece: Piece<'a>) -> bool
        requires { self.old.mode ≡ at_content }
        ensures { Gives result self.new (in_order_at at_content self.old.opened self.old.stage (token_of piece.entry)) }
    {
        let inside = !self.opened.is_empty();
        match piece {
            Piece::Run(bytes) => inside || are_space(bytes),
            Piece::Entity(_) | Piece::Decimal(_) | Piece::Hexadecimal(_) => inside,
            Piece::Cdata(_) => inside,
            Piece::Comment(_) | Piece::Instruction(_, _, _) => true,
            Piece::Doctype(_) => self.doctype(),
            Piece::Open(name) => self.open(name),
            Piece::Close(name, _) => self.close(name),
            _ => false,
        }
    }

    /// Takes the next piece, unless no document goes on with it.
    #[tactic(auto, unfolding(crate::specs::Shape::in_order))]
    pub fn step(&mut self, piece: Piece<'a>) -> Result<bool, AllocError>
        ensures { IfOk result (λ ok. Gives ok self.new (in_order self.old (token_of piece.entry))) }
    {
        match (self.place, piece) {
            (Place::Content, _) => Ok(self.in_content(piece)),
            (Place::Tag, Piece::Attribute(_, key, _, _, delim)) => {
                let fresh = self.names.add(key)?;
                if fresh {
                    self.place = Place::Value(delim);
                }
                Ok(fresh)
            }
            (Place::Tag, Piece::Go(_)) => {
                self.opened.push(self.name)?;
                self.names.clear();
                self.place = Place::Content;
                Ok(true)
            }
            (Place::Tag, Piece::Shut(_)) => {
                self.names.clear();
                self.place = Place::Content;
                Ok(true)
            }
            (
                Place::Value(_),
                Piece::Run(_) | Piece::Entity(_) | Piece::Decimal(_) | Piece::Hexadecimal(_),
            ) => Ok(true),
            (Place::Value(delim), Piece::Quote(other)) => {
                if delim == other {
                    self.place = Place::Tag;
                }
                Ok(delim == other)
            }
            _ => Ok(false),
        }
    }
}

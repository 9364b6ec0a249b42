// Pieces of a tag.
ghost use Rattle.std.specs.Prelude.{◌≡◌, ◌+◌, ◌<◌, ◌^◌, ◌∷◌, [], None, Some, if◌then◌else◌, length, true, IfOk, OnOk};
ghost use Rattle.tree_model.specs.XmlChars.{is_xml_qname};
ghost use Rattle.tree_model.specs.XmlMeaning as meaning;
ghost use Rattle.xml_pieces.specs.Tokens as token;
ghost use Rattle.xml_pieces.specs.View.{token_of};
ghost use Rattle.xml_rows.specs.BuilderView.{parts_work, tag_of, tag_done, faults_of, IsTidy};
ghost use Rattle.xml_rows.specs.Fitting.{IsFit};
ghost use Rattle.xml_rows.specs.Numbers.{Begins};
ghost use Rattle.xml_rows.specs.Work.{works_at, in_tag, in_value};

use crate::content::first_fault;
use crate::parts::{Fault, Mode, Parts};
use tree_model::NoMemory;
use xml_pieces::Piece;

// The fault of a tag at a place.
fn tag_fault(is_bad: bool, at: usize) -> Option<Fault>
    ensures { faults_of result ≡ (if is_bad then Some (meaning.bad_namespace at) else None) }
{
    if is_bad {
        return Some(Fault::Namespace(at));
    }
    None
}

impl<'a> Parts<'a> {
    fn attribute(&mut self, name: &'a [u8])
        requires mode { self.old.mode ≡ Mode.InTag }
        requires tidy { IsTidy self.old.at self.old }
        requires named { is_xml_qname name.now ≡ true }
        ensures work { parts_work self.new ≡ record (parts_work self.old) { mode = in_value (tag_of self.old.values.settled self.old.tag) name.now [] } }
        ensures tidy { IsTidy (self.old.at + 1) self.new }
    {
        self.tag.key = name;
        self.mode = Mode::InValue;
    }

    // The rows of a tag, and its fault.
    fn tag_rows(&mut self) -> Result<(), NoMemory>
        requires mode { self.old.mode ≡ Mode.InTag }
        requires tidy { IsTidy self.old.at self.old }
        requires few { self.old.at < 2 ^ 31 }
        ensures work { OnOk result (parts_work self.new ≡ tag_done (parts_work self.old) (tag_of self.old.values.settled self.old.tag)) }
        ensures tidy { OnOk result (IsTidy self.old.at self.new) }
        ensures outer { OnOk result (self.new.elements.scopes.outer ≡ self.old.elements.scopes.scope ∷ self.old.elements.scopes.outer) }
        ensures uris { OnOk result (Begins self.old.elements.names.uris self.new.elements.names.uris) }
        ensures more { OnOk result (length self.old.elements.rows.rows < length self.new.elements.rows.rows) }
        ensures mode { OnOk result (self.new.mode ≡ Mode.Content) }
        ensures at { OnOk result (self.new.at ≡ self.old.at) }
    {
        let is_bad = self
            .elements
            .add_tag(self.tag.name, &self.tag.pairs, &mut self.values)?;
        let fault = first_fault(tag_fault(is_bad, self.tag.from), self.tag.within);
        self.fault = first_fault(self.fault, fault);
        self.mode = Mode::Content;
        Ok(())
    }

    fn go(&mut self, gap: &[u8]) -> Result<(), NoMemory>
        requires mode { self.old.mode ≡ Mode.InTag }
        requires tidy { IsTidy self.old.at self.old }
        requires few { self.old.at < 2 ^ 31 }
        ensures work { OnOk result (parts_work self.new ≡ works_at true (in_tag (tag_of self.old.values.settled self.old.tag)) (parts_work self.old) (token.go_token gap.now)) }
        ensures tidy { OnOk result (IsTidy self.old.at self.new) }
        ensures at { OnOk result (self.new.at ≡ self.old.at) }
    {
        let place = self.elements.rows.len();
        self.tag_rows()?;
        self.elements.rows.open(place)?;
        Ok(())
    }

    fn shut(&mut self, gap: &[u8]) -> Result<(), NoMemory>
        requires mode { self.old.mode ≡ Mode.InTag }
        requires tidy { IsTidy self.old.at self.old }
        requires few { self.old.at < 2 ^ 31 }
        ensures work { OnOk result (parts_work self.new ≡ works_at true (in_tag (tag_of self.old.values.settled self.old.tag)) (parts_work self.old) (token.shut_token gap.now)) }
        ensures tidy { OnOk result (IsTidy self.old.at self.new) }
        ensures at { OnOk result (self.new.at ≡ self.old.at) }
    {
        self.tag_rows()?;
        self.elements.scopes.leave();
        Ok(())
    }

    /// A piece of a tag. Others are passed over.
    pub fn take_tag(&mut self, piece: Piece<'a>) -> Result<(), NoMemory>
        requires mode { self.old.mode ≡ Mode.InTag }
        requires tidy { IsTidy self.old.at self.old }
        requires few { self.old.at < 2 ^ 31 }
        requires fit { IsFit (token_of piece) }
        ensures work { OnOk result (parts_work self.new ≡ works_at true (in_tag (tag_of self.old.values.settled self.old.tag)) (parts_work self.old) (token_of piece.entry)) }
        ensures tidy { OnOk result (IsTidy (self.old.at + length (token.token_text (token_of piece.entry))) self.new) }
        ensures at { OnOk result (self.new.at ≡ self.old.at) }
    {
        match piece {
            Piece::Attribute(_, name, _, _, _) => self.attribute(name),
            Piece::Go(gap) => self.go(gap)?,
            Piece::Shut(gap) => self.shut(gap)?,
            Piece::Run(_)
            | Piece::Cdata(_)
            | Piece::Entity(_)
            | Piece::Decimal(_)
            | Piece::Hexadecimal(_)
            | Piece::Comment(_)
            | Piece::Instruction(_, _, _)
            | Piece::Doctype(_)
            | Piece::Open(_)
            | Piece::Quote(_)
            | Piece::Close(_, _) => {}
        }
        Ok(())
    }
}

// Pieces of the value of an attribute.
ghost use Rattle.std.specs.Prelude.{◌≡◌, ◌+◌, ◌<◌, ◌^◌, ◌++◌, length, true, OnOk};
ghost use Rattle.std.specs.Char.{encode_utf8};
ghost use Rattle.std.specs.Str.{IsUtf8};
ghost use Rattle.tree_model.specs.XmlChars.{is_xml_ncname};
ghost use Rattle.tree_model.specs.XmlMeaning as meaning;
ghost use Rattle.tree_model.specs.XmlSource.{entity};
ghost use Rattle.xml_pieces.specs.Tokens as token;
ghost use Rattle.xml_pieces.specs.View.{token_of};
ghost use Rattle.xml_rows.specs.BuilderView.{parts_work, tag_of, IsTidy};
ghost use Rattle.xml_rows.specs.Fitting.{IsFit};
ghost use Rattle.xml_rows.specs.Work.{works_at, in_value};

use crate::characters::{decimal_char, hexadecimal_char};
use crate::content::{entity_fault, first_fault};
use crate::parts::{Mode, Parts};
use crate::tag::Pair;
use tree_model::NoMemory;
use xml_pieces::Piece;

impl<'a> Parts<'a> {
    fn value_text(&mut self, bytes: &[u8]) -> Result<(), NoMemory>
        requires mode { self.old.mode ≡ Mode.InValue }
        requires tidy { IsTidy self.old.at self.old }
        requires text { IsUtf8 bytes.now }
        ensures work { OnOk result (parts_work self.new ≡ record (parts_work self.old) { mode = in_value (tag_of self.old.values.settled self.old.tag) self.old.tag.key.now (self.old.values.pending ++ meaning.spaced bytes.now) }) }
        ensures tidy { OnOk result (IsTidy self.old.at self.new) }
        ensures at { OnOk result (self.new.at ≡ self.old.at) }
    {
        self.values.add_spaced(bytes)?;
        Ok(())
    }

    fn value_character(&mut self, code: char) -> Result<(), NoMemory>
        requires mode { self.old.mode ≡ Mode.InValue }
        requires tidy { IsTidy self.old.at self.old }
        ensures work { OnOk result (parts_work self.new ≡ record (parts_work self.old) { mode = in_value (tag_of self.old.values.settled self.old.tag) self.old.tag.key.now (self.old.values.pending ++ encode_utf8 code) }) }
        ensures tidy { OnOk result (IsTidy self.old.at self.new) }
        ensures at { OnOk result (self.new.at ≡ self.old.at) }
    {
        self.values.add_char(code)?;
        Ok(())
    }

    fn value_entity(&mut self, name: &[u8]) -> Result<(), NoMemory>
        requires mode { self.old.mode ≡ Mode.InValue }
        requires tidy { IsTidy self.old.at self.old }
        requires named { is_xml_ncname name.now ≡ true }
        ensures work { OnOk result (parts_work self.new ≡ works_at true (in_value (tag_of self.old.values.settled self.old.tag) self.old.tag.key.now self.old.values.pending) (parts_work self.old) (token.part_token (entity name.now))) }
        ensures tidy { OnOk result (IsTidy self.old.at self.new) }
        ensures at { OnOk result (self.new.at ≡ self.old.at) }
    {
        let is_known = self.values.add_entity(name)?;
        self.tag.within = first_fault(self.tag.within, entity_fault(is_known, self.at));
        Ok(())
    }

    // The value is whole.
    fn quote(&mut self) -> Result<(), NoMemory>
        requires mode { self.old.mode ≡ Mode.InValue }
        requires tidy { IsTidy self.old.at self.old }
        ensures work { OnOk result (parts_work self.new ≡ works_at true (in_value (tag_of self.old.values.settled self.old.tag) self.old.tag.key.now self.old.values.pending) (parts_work self.old) (token.quote_token 0)) }
        ensures tidy { OnOk result (IsTidy self.old.at self.new) }
        ensures at { OnOk result (self.new.at ≡ self.old.at) }
    {
        let name = self.tag.key;
        let val = self.values.settle();
        self.tag.pairs.push(Pair { name, val })?;
        self.mode = Mode::InTag;
        Ok(())
    }

    /// A piece of the value of an attribute. Others are passed over.
    pub fn take_value(&mut self, piece: Piece<'a>) -> Result<(), NoMemory>
        requires mode { self.old.mode ≡ Mode.InValue }
        requires tidy { IsTidy self.old.at self.old }
        requires fit { IsFit (token_of piece) }
        ensures work { OnOk result (parts_work self.new ≡ works_at true (in_value (tag_of self.old.values.settled self.old.tag) self.old.tag.key.now self.old.values.pending) (parts_work self.old) (token_of piece.entry)) }
        ensures tidy { OnOk result (IsTidy (self.old.at + length (token.token_text (token_of piece.entry))) self.new) }
        ensures at { OnOk result (self.new.at ≡ self.old.at) }
    {
        match piece {
            Piece::Run(bytes) => self.value_text(bytes)?,
            Piece::Entity(name) => self.value_entity(name)?,
            Piece::Decimal(digits) => self.value_character(decimal_char(digits))?,
            Piece::Hexadecimal(digits) => self.value_character(hexadecimal_char(digits))?,
            Piece::Quote(_) => self.quote()?,
            Piece::Cdata(_)
            | Piece::Comment(_)
            | Piece::Instruction(_, _, _)
            | Piece::Doctype(_)
            | Piece::Open(_)
            | Piece::Attribute(_, _, _, _, _)
            | Piece::Go(_)
            | Piece::Shut(_)
            | Piece::Close(_, _) => {}
        }
        Ok(())
    }
}

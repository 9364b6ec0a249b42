// Pieces of content.
ghost use Rattle.std.specs.Prelude.{◌≡◌, ◌+◌, ◌<◌, ◌^◌, ◌∷◌, [], None, Some, if◌then◌else◌, length, true, OnOk};
ghost use Rattle.std.specs.Char.{encode_utf8};
ghost use Rattle.tree_model.specs.XmlChars.{is_xml_qname, is_xml_ncname};
ghost use Rattle.tree_model.specs.XmlMeaning as meaning;
ghost use Rattle.tree_model.specs.XmlSource.{entity};
ghost use Rattle.xml_pieces.specs.Tokens as token;
ghost use Rattle.xml_pieces.specs.View.{token_of};
ghost use Rattle.xml_rows.specs.Fitting.{IsFit};
ghost use Rattle.xml_rows.specs.BuilderView.{parts_work, faults_of, IsTidy};
ghost use Rattle.xml_rows.specs.Work.{or_first, first_of, gathered_more, works_at, in_content};

use crate::characters::{decimal_char, hexadecimal_char};
use crate::parts::{Fault, Mode, Parts};
use crate::texts::{add_valued, flush, gather, gather_char, gather_entity};
use tree_model::{Kind, NoMemory};
use xml_pieces::Piece;

/// The first of two faults.
pub fn first_fault(fault: Option<Fault>, other: Option<Fault>) -> Option<Fault>
    ensures { faults_of result ≡ or_first (faults_of fault) (faults_of other) }
{
    match fault {
        Some(fault) => Some(fault),
        None => other,
    }
}

/// The fault of a reference at a place.
pub fn entity_fault(is_known: bool, at: usize) -> Option<Fault>
    ensures { faults_of result ≡ (if is_known then None else Some (meaning.unknown_entity at)) }
{
    if is_known {
        return None;
    }
    Some(Fault::UnknownEntity(at))
}

impl<'a> Parts<'a> {
    fn text(&mut self, bytes: &[u8]) -> Result<(), NoMemory>
        requires mode { self.old.mode ≡ Mode.Content }
        requires tidy { IsTidy self.old.at self.old }
        ensures work { OnOk result (parts_work self.new ≡ record (parts_work self.old) { gathered = gathered_more (parts_work self.old).open_at (parts_work self.old).gathered (meaning.line_ends bytes.now) }) }
        ensures tidy { OnOk result (IsTidy (self.old.at + length bytes.now) self.new) }
    {
        gather(&self.elements.rows, &mut self.values, bytes)?;
        Ok(())
    }

    fn character(&mut self, code: char) -> Result<(), NoMemory>
        requires mode { self.old.mode ≡ Mode.Content }
        requires tidy { IsTidy self.old.at self.old }
        ensures work { OnOk result (parts_work self.new ≡ record (parts_work self.old) { gathered = gathered_more (parts_work self.old).open_at (parts_work self.old).gathered (encode_utf8 code) }) }
        ensures tidy { OnOk result (IsTidy (self.old.at + 1) self.new) }
    {
        gather_char(&self.elements.rows, &mut self.values, code)?;
        Ok(())
    }

    fn entity(&mut self, name: &[u8]) -> Result<(), NoMemory>
        requires mode { self.old.mode ≡ Mode.Content }
        requires tidy { IsTidy self.old.at self.old }
        ensures work { OnOk result (parts_work self.new ≡ record (parts_work self.old) {
          gathered = gathered_more (parts_work self.old).open_at (parts_work self.old).gathered (meaning.entity_value name.now);
          fault = or_first (parts_work self.old).fault (first_of (meaning.part_faults (parts_work self.old).at (entity name.now)));
        }) }
        ensures tidy { OnOk result (IsTidy (self.old.at + 1) self.new) }
    {
        let is_known = gather_entity(&self.elements.rows, &mut self.values, name)?;
        self.fault = first_fault(self.fault, entity_fault(is_known, self.at));
        Ok(())
    }

    fn comment(&mut self, bytes: &[u8], strip: bool) -> Result<(), NoMemory>
        requires mode { self.old.mode ≡ Mode.Content }
        requires tidy { IsTidy self.old.at self.old }
        requires few { self.old.at < 2 ^ 31 }
        ensures work { OnOk result (parts_work self.new ≡ works_at strip in_content (parts_work self.old) (token.comm_token bytes.now)) }
        ensures tidy { OnOk result (IsTidy (self.old.at + 1) self.new) }
    {
        let unnamed = self.elements.names.unnamed();
        flush(&mut self.elements.rows, &mut self.values, unnamed, strip)?;
        add_valued(
            &mut self.elements.rows,
            &mut self.values,
            Kind::Comm,
            unnamed,
            bytes,
        )?;
        Ok(())
    }

    fn instruction(
        &mut self,
        target: &[u8],
        gap: &[u8],
        bytes: &[u8],
        strip: bool,
    ) -> Result<(), NoMemory>
        requires mode { self.old.mode ≡ Mode.Content }
        requires tidy { IsTidy self.old.at self.old }
        requires few { self.old.at < 2 ^ 31 }
        requires named { is_xml_ncname target.now ≡ true }
        ensures work { OnOk result (parts_work self.new ≡ works_at strip in_content (parts_work self.old) (token.pi_token target.now gap.now bytes.now)) }
        ensures tidy { OnOk result (IsTidy (self.old.at + 1) self.new) }
    {
        let unnamed = self.elements.names.unnamed();
        flush(&mut self.elements.rows, &mut self.values, unnamed, strip)?;
        let name = self.elements.names.local_number(target)?;
        add_valued(
            &mut self.elements.rows,
            &mut self.values,
            Kind::Pi,
            name,
            bytes,
        )?;
        Ok(())
    }

    fn open(&mut self, name: &'a [u8], strip: bool) -> Result<(), NoMemory>
        requires mode { self.old.mode ≡ Mode.Content }
        requires tidy { IsTidy self.old.at self.old }
        requires few { self.old.at < 2 ^ 31 }
        requires named { is_xml_qname name.now ≡ true }
        ensures work { OnOk result (parts_work self.new ≡ works_at strip in_content (parts_work self.old) (token.open_token name.now)) }
        ensures tidy { OnOk result (IsTidy (self.old.at + 1) self.new) }
    {
        let unnamed = self.elements.names.unnamed();
        flush(&mut self.elements.rows, &mut self.values, unnamed, strip)?;
        self.tag.name = name;
        self.tag.from = self.at;
        self.tag.pairs.clear();
        self.tag.within = None;
        self.mode = Mode::InTag;
        Ok(())
    }

    fn close(&mut self, name: &[u8], last: &[u8], strip: bool) -> Result<(), NoMemory>
        requires mode { self.old.mode ≡ Mode.Content }
        requires tidy { IsTidy self.old.at self.old }
        requires few { self.old.at < 2 ^ 31 }
        ensures work { OnOk result (parts_work self.new ≡ works_at strip in_content (parts_work self.old) (token.close_token name.now last.now)) }
        ensures tidy { OnOk result (IsTidy self.old.at self.new) }
    {
        let unnamed = self.elements.names.unnamed();
        flush(&mut self.elements.rows, &mut self.values, unnamed, strip)?;
        self.elements.rows.end();
        self.elements.scopes.leave();
        Ok(())
    }

    /// A piece of content. Others are passed over.
    pub fn take_content(&mut self, piece: Piece<'a>, strip: bool) -> Result<(), NoMemory>
        requires mode { self.old.mode ≡ Mode.Content }
        requires tidy { IsTidy self.old.at self.old }
        requires few { self.old.at < 2 ^ 31 }
        requires fit { IsFit (token_of piece) }
        ensures work { OnOk result (parts_work self.new ≡ works_at strip in_content (parts_work self.old) (token_of piece.entry)) }
        ensures tidy { OnOk result (IsTidy (self.old.at + length (token.token_text (token_of piece.entry))) self.new) }
        ensures at { OnOk result (self.new.at ≡ self.old.at) }
    {
        match piece {
            Piece::Run(bytes) => self.text(bytes)?,
            Piece::Cdata(bytes) => self.text(bytes)?,
            Piece::Entity(name) => self.entity(name)?,
            Piece::Decimal(digits) => self.character(decimal_char(digits))?,
            Piece::Hexadecimal(digits) => self.character(hexadecimal_char(digits))?,
            Piece::Comment(bytes) => self.comment(bytes, strip)?,
            Piece::Instruction(target, gap, bytes) => self.instruction(target, gap, bytes, strip)?,
            Piece::Open(name) => self.open(name, strip)?,
            Piece::Close(name, last) => self.close(name, last, strip)?,
            Piece::Doctype(_)
            | Piece::Attribute(_, _, _, _, _)
            | Piece::Quote(_)
            | Piece::Go(_)
            | Piece::Shut(_) => {}
        }
        Ok(())
    }
}

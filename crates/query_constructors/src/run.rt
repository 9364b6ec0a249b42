// The contents of an element or an attribute, as they come (XQuery 1.0, section 3.7.1.3).
ghost use Rattle.std.specs.Prelude.{◌≡◌, IfOk, OnOk, None, true};
ghost use Rattle.query_terms.specs.Rule.{chunk, content};
ghost use Rattle.query_terms.specs.Markup as spec;
ghost use Rattle.query_tokens.specs.Reads.{as_char};
ghost use Rattle.query_constructors.specs.Runs.{as_run, as_piece, flushed};

use query_terms::{Content, Expr, Literal};
use query_tokens::{CharClass, WrittenChar};
use sqlite_items::{Boxed, Items};
use std::alloc::Global;
use tree_model::{NoMemory, Text};

// A piece of content. `Solid` is a character that counts whatever it is, `Plain` a literal one, which may be white space.
#[derive(Drop)]
pub(crate) enum Piece {
    Solid(WrittenChar),
    Plain(WrittenChar),
    Section(Text),
    Enclosed(Boxed<Expr>),
    Constructor(Boxed<Expr>),
}

// The contents that are found, and the characters under way behind them, with the place of the first bad reference among
// them. `is_solid` where they are more than literal white space.
#[derive(Drop)]
pub(crate) struct Run {
    found: Items<Content>,
    characters: String,
    bad_reference: Option<usize>,
    is_solid: bool,
}

impl Run {
    pub(crate) fn new(alloc: Global) -> Run
        ensures { as_run result ≡ spec.no_run }
    {
        Run {
            found: Items::new(alloc),
            characters: String::new(alloc),
            bad_reference: None,
            is_solid: false,
        }
    }

    // Ends the characters under way. Literal white space alone is left out.
    fn flush(&mut self, alloc: Global) -> Result<(), NoMemory>
        ensures { OnOk result (as_run self.new ≡ flushed (as_run self.old)) }
    {
        if self.is_solid {
            let literal = Literal {
                text: Text::of(alloc, self.characters.as_str())?,
                bad_reference: self.bad_reference,
            };
            self.found.push(Content::Characters(literal))?;
        }
        self.characters.clear();
        self.bad_reference = None;
        self.is_solid = false;
        Ok(())
    }

    fn add_solid(&mut self, found: WrittenChar) -> Result<(), NoMemory>
        ensures { OnOk result (as_run self.new ≡ spec.with_piece (as_run self.old) (spec.a_solid 0 0 (as_char found))) }
    {
        self.characters.push(found.character())?;
        self.bad_reference = found.first_bad(self.bad_reference);
        self.is_solid = true;
        Ok(())
    }

    fn add_plain(&mut self, found: WrittenChar) -> Result<(), NoMemory>
        ensures { OnOk result (as_run self.new ≡ spec.with_piece (as_run self.old) (spec.a_plain 0 0 (as_char found))) }
    {
        let character = found.character();
        self.characters.push(character)?;
        self.is_solid = self.is_solid || !CharClass::Space.has(character);
        Ok(())
    }

    fn add_section(&mut self, text: &Text) -> Result<(), NoMemory>
        ensures { OnOk result (as_run self.new ≡ spec.with_piece (as_run self.old) (chunk text.now None true)) }
    {
        self.characters.push_str(text.as_str())?;
        self.is_solid = true;
        Ok(())
    }

    fn add_content(&mut self, alloc: Global, part: Content) -> Result<(), NoMemory>
        ensures { OnOk result (as_run self.new ≡ spec.with_piece (as_run self.old) (content part)) }
    {
        self.flush(alloc)?;
        self.found.push(part)?;
        Ok(())
    }

    pub(crate) fn add(&mut self, alloc: Global, piece: Piece) -> Result<(), NoMemory>
        ensures { OnOk result (as_run self.new ≡ spec.with_piece (as_run self.old) (as_piece piece)) }
    {
        match piece {
            Piece::Solid(found) => self.add_solid(found),
            Piece::Plain(found) => self.add_plain(found),
            Piece::Section(text) => self.add_section(&text),
            Piece::Enclosed(body) => self.add_content(alloc, Content::Enclosed(body)),
            Piece::Constructor(body) => self.add_content(alloc, Content::Constructor(body)),
        }
    }

    // The contents, with the characters under way as the last of them.
    pub(crate) fn close(self, alloc: Global) -> Result<Items<Content>, NoMemory>
        ensures { IfOk result (λ found. found ≡ spec.closed (as_run self)) }
    {
        let mut run = self;
        run.flush(alloc)?;
        let Run { found, .. } = run;
        Ok(found)
    }
}

// The characters of direct constructors.
ghost use Rattle.std.specs.Prelude.{◌≡◌, true};
ghost use Rattle.query_terms.specs.Rule.{char, alt};
ghost use Rattle.query_terms.specs.Lexis.{line_end};
ghost use Rattle.query_terms.specs.Markup as spec;
ghost use Rattle.query_tokens.specs.Reads.{at, quote_code, as_char, Reads};

use crate::class::first;
use crate::source::QuerySource;
use crate::written::{Quote, WrittenChar};

impl<'a> QuerySource<'a> {
    // Any character but an end of line that begins with CR.
    fn any_char(&self, rest: &'a str) -> Option<(WrittenChar, &'a str)>
        ensures { Reads as_char (at self.now (char (λ c. true)) rest.now) result }
    {
        let (found, after) = first(rest)?;
        Some((WrittenChar::Character(found), after))
    }

    /// A character, where a word doesn't stand; an end of line is one LF.
    #[tactic(auto, unfolding(query_terms::specs::Markup::char_before))]
    pub fn char_before(&self, rest: &'a str, stop: &str) -> Option<(WrittenChar, &'a str)>
        ensures { Reads as_char (at self.now (spec.char_before stop.now) rest.now) result }
    {
        if self.word(rest, stop).is_some() {
            return None;
        }
        if let Some(found) = self.line_end(rest) {
            return Some(found);
        }
        self.any_char(rest)
    }

    /// Two braces, for one.
    #[tactic(auto, unfolding(query_terms::specs::Markup::brace))]
    pub fn brace(&self, rest: &'a str) -> Option<(WrittenChar, &'a str)>
        ensures { Reads as_char (at self.now spec.brace rest.now) result }
    {
        if let Some(after) = self.word(rest, "{{") {
            return Some((WrittenChar::Character('{'), after));
        }
        let after = self.word(rest, "}}")?;
        Some((WrittenChar::Character('}'), after))
    }

    /// Two quotes or two braces, for one.
    #[tactic(auto, unfolding(query_terms::specs::Markup::quoted_escape))]
    pub fn quoted_escape(&self, rest: &'a str, quote: Quote) -> Option<(WrittenChar, &'a str)>
        ensures { Reads as_char (at self.now (spec.quoted_escape (quote_code quote)) rest.now) result }
    {
        if let Some(found) = self.doubled_quote(rest, quote) {
            return Some(found);
        }
        self.brace(rest)
    }

    fn end_of_line(&self, rest: &'a str) -> Option<(WrittenChar, &'a str)>
        ensures { Reads as_char (at self.now (char spec.is_line_space) rest.now) result }
    {
        let (found, after) = first(rest)?;
        if found == '\t' || found == '\n' || found == '\r' {
            Some((WrittenChar::Character(found), after))
        } else {
            None
        }
    }

    // An end of line or a TAB, as one space.
    #[tactic(auto, unfolding(query_terms::specs::Markup::quoted_space))]
    fn quoted_space(&self, rest: &'a str) -> Option<(WrittenChar, &'a str)>
        ensures { Reads as_char (at self.now spec.quoted_space rest.now) result }
    {
        if let Some(after) = self.word(rest, "\r\n") {
            return Some((WrittenChar::Character(' '), after));
        }
        let (_, after) = self.end_of_line(rest)?;
        Some((WrittenChar::Character(' '), after))
    }

    fn quoted_char(&self, rest: &'a str, quote: Quote) -> Option<(WrittenChar, &'a str)>
        ensures { Reads as_char (at self.now (char (spec.in_quoted (quote_code quote))) rest.now) result }
    {
        let (found, after) = first(rest)?;
        if found == quote.character()
            || found == '<'
            || found == '{'
            || found == '}'
            || found == '&'
        {
            None
        } else {
            Some((WrittenChar::Character(found), after))
        }
    }

    /// A reference or a literal character between the quotes of an attribute (XQuery 1.0, section 3.7.1.1).
    #[tactic(auto, unfolding(query_terms::specs::Markup::quoted_plain))]
    pub fn quoted_plain(&self, rest: &'a str, quote: Quote) -> Option<(WrittenChar, &'a str)>
        ensures { Reads as_char (at self.now (spec.quoted_plain (quote_code quote)) rest.now) result }
    {
        if let Some(found) = self.reference(rest) {
            return Some(found);
        }
        if let Some(found) = self.quoted_space(rest) {
            return Some(found);
        }
        self.quoted_char(rest, quote)
    }

    fn content_char(&self, rest: &'a str) -> Option<(WrittenChar, &'a str)>
        ensures { Reads as_char (at self.now (char spec.in_content) rest.now) result }
    {
        let (found, after) = first(rest)?;
        if found == '<' || found == '{' || found == '}' || found == '&' {
            None
        } else {
            Some((WrittenChar::Character(found), after))
        }
    }

    /// A literal character in an element (XQuery 1.0, section 3.7.1.3); an end of line is one LF.
    pub fn literal_char(&self, rest: &'a str) -> Option<(WrittenChar, &'a str)>
        ensures { Reads as_char (at self.now (alt line_end (char spec.in_content)) rest.now) result }
    {
        if let Some(found) = self.line_end(rest) {
            return Some(found);
        }
        self.content_char(rest)
    }
}

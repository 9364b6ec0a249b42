// References and strings.
ghost use Rattle.std.specs.Prelude.{◌≡◌, ◌≤◌, ◌-◌, length};
ghost use Rattle.tree_model.specs.XmlGood.{number_from};
ghost use Rattle.query_terms.specs.Rule.{Value, list, char, many};
ghost use Rattle.query_terms.specs.Lexis as spec;
ghost use Rattle.query_tokens.specs.Reads.{at, quote_code, as_char, as_literal, Reads};

use crate::class::{CharClass, first};
use crate::source::QuerySource;
use crate::written::{Quote, WrittenChar, WrittenString};
use xml_pieces::{char_of, is_char_number};

impl<'a> QuerySource<'a> {
    #[tactic(auto, unfolding(query_terms::specs::Lexis::entity))]
    fn entity(&self, rest: &'a str) -> Option<(WrittenChar, &'a str)>
        ensures { Reads as_char (at self.now spec.entity rest.now) result }
    {
        if let Some(after) = self.word(rest, "lt") {
            return Some((WrittenChar::Character('<'), after));
        }
        if let Some(after) = self.word(rest, "gt") {
            return Some((WrittenChar::Character('>'), after));
        }
        if let Some(after) = self.word(rest, "amp") {
            return Some((WrittenChar::Character('&'), after));
        }
        if let Some(after) = self.word(rest, "quot") {
            return Some((WrittenChar::Character('"'), after));
        }
        let after = self.word(rest, "apos")?;
        Some((WrittenChar::Character('\''), after))
    }

    #[tactic(auto, unfolding(query_terms::specs::Lexis::entity_reference))]
    fn entity_reference(&self, rest: &'a str) -> Option<(WrittenChar, &'a str)>
        ensures { Reads as_char (at self.now spec.entity_reference rest.now) result }
    {
        let after = self.word(rest, "&")?;
        let (found, after) = self.entity(after)?;
        let after = self.word(after, ";")?;
        Some((found, after))
    }

    // The character of a number, or the place of the reference where it is none.
    fn character(&self, rest: &'a str, base: u32, digits: &'a str) -> WrittenChar
        requires low { 1 ≤ base }
        requires high { base ≤ 16 }
        ensures { as_char result ≡ spec.a_character (length self.now.query.now - length rest.now) (number_from base 0 digits.now) }
    {
        if is_char_number(base, digits.as_bytes()) {
            WrittenChar::Character(char_of(base, digits.as_bytes()))
        } else {
            WrittenChar::BadReference(self.place(rest))
        }
    }

    #[tactic(auto, unfolding(query_terms::specs::Lexis::decimal_reference))]
    fn decimal_reference(&self, rest: &'a str) -> Option<(WrittenChar, &'a str)>
        ensures { Reads as_char (at self.now spec.decimal_reference rest.now) result }
    {
        let after = self.word(rest, "&#")?;
        let (digits, after) = self.token(after, CharClass::Digit, CharClass::Digit)?;
        let after = self.word(after, ";")?;
        Some((self.character(rest, 10, digits), after))
    }

    #[tactic(auto, unfolding(query_terms::specs::Lexis::hexadecimal_reference))]
    fn hexadecimal_reference(&self, rest: &'a str) -> Option<(WrittenChar, &'a str)>
        ensures { Reads as_char (at self.now spec.hexadecimal_reference rest.now) result }
    {
        let after = self.word(rest, "&#x")?;
        let (digits, after) = self.token(after, CharClass::HexDigit, CharClass::HexDigit)?;
        let after = self.word(after, ";")?;
        Some((self.character(rest, 16, digits), after))
    }

    /// A reference to a character (XQuery 1.0, section 3.1.1).
    #[tactic(auto, unfolding(query_terms::specs::Lexis::reference))]
    pub fn reference(&self, rest: &'a str) -> Option<(WrittenChar, &'a str)>
        ensures { Reads as_char (at self.now spec.reference rest.now) result }
    {
        if let Some(found) = self.entity_reference(rest) {
            return Some(found);
        }
        if let Some(found) = self.decimal_reference(rest) {
            return Some(found);
        }
        self.hexadecimal_reference(rest)
    }

    /// A CR LF or a CR, as one LF (XQuery 1.0, section A.2.3).
    #[tactic(auto, unfolding(query_terms::specs::Lexis::line_end))]
    pub fn line_end(&self, rest: &'a str) -> Option<(WrittenChar, &'a str)>
        ensures { Reads as_char (at self.now spec.line_end rest.now) result }
    {
        if let Some(after) = self.word(rest, "\r\n") {
            return Some((WrittenChar::Character('\n'), after));
        }
        let after = self.word(rest, "\r")?;
        Some((WrittenChar::Character('\n'), after))
    }

    // A character that stands for itself.
    fn plain_char(&self, rest: &'a str, quote: Quote) -> Option<(WrittenChar, &'a str)>
        ensures { Reads as_char (at self.now (char (spec.is_plain (quote_code quote))) rest.now) result }
    {
        let (found, after) = first(rest)?;
        if found == quote.character() || found == '&' {
            None
        } else {
            Some((WrittenChar::Character(found), after))
        }
    }

    /// Two quotes, for one.
    #[tactic(auto, unfolding(query_terms::specs::Lexis::doubled_quote))]
    pub fn doubled_quote(&self, rest: &'a str, quote: Quote) -> Option<(WrittenChar, &'a str)>
        ensures { Reads as_char (at self.now (spec.doubled_quote (quote_code quote)) rest.now) result }
    {
        let after = self.word(rest, quote.twice())?;
        Some((WrittenChar::Character(quote.character()), after))
    }

    /// A character of a string between such quotes.
    #[tactic(auto, unfolding(query_terms::specs::Lexis::string_char))]
    pub fn string_char(&self, rest: &'a str, quote: Quote) -> Option<(WrittenChar, &'a str)>
        ensures { Reads as_char (at self.now (spec.string_char (quote_code quote)) rest.now) result }
    {
        if let Some(found) = self.doubled_quote(rest, quote) {
            return Some(found);
        }
        if let Some(found) = self.reference(rest) {
            return Some(found);
        }
        if let Some(found) = self.line_end(rest) {
            return Some(found);
        }
        self.plain_char(rest, quote)
    }

    // The text behind all characters of a string.
    fn string_end(&self, body: &'a str, quote: Quote) -> &'a str
        ensures { (v : Value) × (at self.now (many (spec.string_char (quote_code quote))) body.now ≡ Ok (list v, result.now)) }
    {
        let mut after = body;
        for _turn in 0..body.len() + 1 {
            let Some((_, next)) = self.string_char(after, quote) else {
                return after;
            };
            after = next;
        }
        after
    }

    #[tactic(auto, unfolding(query_terms::specs::Lexis::string_in))]
    fn string_in(&self, rest: &'a str, quote: Quote) -> Option<(WrittenString<'a>, &'a str)>
        ensures { Reads (as_literal self.now) (at self.now (spec.string_in (quote_code quote)) rest.now) result }
    {
        let body = self.word(rest, quote.once())?;
        let after = self.string_end(body, quote);
        let after = self.word(after, quote.once())?;
        Some((WrittenString { quote, body }, after))
    }

    /// A string in quotes of either kind (XQuery 1.0, section 3.1.1).
    #[tactic(auto, unfolding(query_terms::specs::Lexis::string_rule))]
    pub fn string(&self, rest: &'a str) -> Option<(WrittenString<'a>, &'a str)>
        ensures { Reads (as_literal self.now) (at self.now spec.string_rule rest.now) result }
    {
        if let Some(found) = self.string_in(rest, Quote::Double) {
            return Some(found);
        }
        self.string_in(rest, Quote::Single)
    }
}

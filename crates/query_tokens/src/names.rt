// Names, variables and numbers.
ghost use Rattle.std.specs.Prelude.{◌≡◌};
ghost use Rattle.query_terms.specs.Rule.{nothing, opt};
ghost use Rattle.query_terms.specs.Lexis as spec;
ghost use Rattle.query_tokens.specs.Reads.{at, shown, as_name, as_variable, as_number, Reads, Passes};

use crate::class::CharClass;
use crate::source::{QuerySource, front};
use crate::written::{WrittenName, WrittenNumber, WrittenVariable};

impl<'a> QuerySource<'a> {
    /// A name without a colon (Namespaces in XML 1.0, section 4).
    pub fn ncname(&self, rest: &'a str) -> Option<(&'a str, &'a str)>
        ensures { Reads shown (at self.now spec.ncname rest.now) result }
    {
        self.token(rest, CharClass::NameStart, CharClass::NameChar)
    }

    #[tactic(auto, unfolding(query_terms::specs::Lexis::behind_colon))]
    fn behind_colon(&self, rest: &'a str) -> Option<(&'a str, &'a str)>
        ensures { Reads shown (at self.now spec.behind_colon rest.now) result }
    {
        let after = self.word(rest, ":")?;
        self.ncname(after)
    }

    /// A name with a prefix or without one (Namespaces in XML 1.0, section 4).
    #[tactic(auto, unfolding(query_terms::specs::Lexis::qname))]
    pub fn qname(&self, rest: &'a str) -> Option<(WrittenName<'a>, &'a str)>
        ensures { Reads as_name (at self.now spec.qname rest.now) result }
    {
        let (first, after) = self.ncname(rest)?;
        match self.behind_colon(after) {
            Some((local, behind)) => {
                let span = self.span(rest, behind);
                Some((
                    WrittenName {
                        span,
                        prefix: first,
                        local,
                    },
                    behind,
                ))
            }
            None => {
                let span = self.span(rest, after);
                Some((
                    WrittenName {
                        span,
                        prefix: "",
                        local: first,
                    },
                    after,
                ))
            }
        }
    }

    /// A variable (XQuery 1.0, section 3.1.2).
    #[tactic(auto, unfolding(query_terms::specs::Lexis::variable_rule))]
    pub fn variable(&self, rest: &'a str) -> Option<(WrittenVariable<'a>, &'a str)>
        ensures { Reads as_variable (at self.now spec.variable_rule rest.now) result }
    {
        let after = self.word(rest, "$")?;
        let after = self.blanks(after);
        let (name, after) = self.qname(after)?;
        let span = self.span(rest, after);
        Some((WrittenVariable { span, name }, after))
    }

    #[tactic(auto, unfolding(query_terms::specs::Lexis::digits))]
    fn digits(&self, rest: &'a str) -> Option<&'a str>
        ensures { Passes (at self.now spec.digits rest.now) result }
    {
        let (_, after) = self.one(rest, CharClass::Digit)?;
        Some(self.run(after, CharClass::Digit))
    }

    #[tactic(auto, unfolding(query_terms::specs::Lexis::fraction))]
    fn fraction(&self, rest: &'a str) -> Option<&'a str>
        ensures { Passes (at self.now spec.fraction rest.now) result }
    {
        let after = self.word(rest, ".")?;
        Some(self.run(after, CharClass::Digit))
    }

    #[tactic(auto, unfolding(query_terms::specs::Lexis::decimal))]
    fn decimal(&self, rest: &'a str) -> Option<&'a str>
        ensures { Passes (at self.now spec.decimal rest.now) result }
    {
        if let Some(after) = self.word(rest, ".") {
            if let Some(after) = self.digits(after) {
                return Some(after);
            }
        }
        let after = self.digits(rest)?;
        match self.fraction(after) {
            Some(behind) => Some(behind),
            None => Some(after),
        }
    }

    #[tactic(auto, unfolding(query_terms::specs::Lexis::sign))]
    fn sign(&self, rest: &'a str) -> Option<&'a str>
        ensures { Passes (at self.now spec.sign rest.now) result }
    {
        if let Some(after) = self.word(rest, "+") {
            return Some(after);
        }
        self.word(rest, "-")
    }

    fn signed(&self, rest: &'a str) -> &'a str
        ensures { at self.now (spec.quiet (opt spec.sign)) rest.now ≡ Ok (nothing, result.now) }
    {
        match self.sign(rest) {
            Some(after) => after,
            None => rest,
        }
    }

    #[tactic(auto, unfolding(query_terms::specs::Lexis::exponent_mark))]
    fn exponent_mark(&self, rest: &'a str) -> Option<&'a str>
        ensures { Passes (at self.now spec.exponent_mark rest.now) result }
    {
        if let Some(after) = self.word(rest, "e") {
            return Some(after);
        }
        self.word(rest, "E")
    }

    #[tactic(auto, unfolding(query_terms::specs::Lexis::exponent))]
    fn exponent(&self, rest: &'a str) -> Option<&'a str>
        ensures { Passes (at self.now spec.exponent rest.now) result }
    {
        let after = self.exponent_mark(rest)?;
        let after = self.signed(after);
        self.digits(after)
    }

    #[tactic(auto, unfolding(query_terms::specs::Lexis::unchecked_number))]
    fn unchecked_number(&self, rest: &'a str) -> Option<&'a str>
        ensures { Passes (at self.now spec.unchecked_number rest.now) result }
    {
        let after = self.decimal(rest)?;
        match self.exponent(after) {
            Some(behind) => Some(behind),
            None => Some(after),
        }
    }

    // A number as it is written, whatever stands behind it.
    #[tactic(auto, unfolding(query_terms::specs::Lexis::numeral))]
    fn numeral(&self, rest: &'a str) -> Option<(&'a str, &'a str)>
        ensures { Reads shown (at self.now spec.numeral rest.now) result }
    {
        let after = self.unchecked_number(rest)?;
        Some((front(rest, after), after))
    }

    /// A number (XQuery 1.0, section 3.1.1), behind which no name may begin.
    #[tactic(auto, unfolding(query_terms::specs::Lexis::number))]
    pub fn number(&self, rest: &'a str) -> Option<(WrittenNumber<'a>, &'a str)>
        ensures { Reads as_number (at self.now spec.number rest.now) result }
    {
        let (text, after) = self.numeral(rest)?;
        if self.one(after, CharClass::NameStart).is_some() {
            return None;
        }
        let span = self.span(rest, after);
        Some((WrittenNumber { span, text }, after))
    }
}

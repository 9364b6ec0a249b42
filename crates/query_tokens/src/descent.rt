// What reads the nests: expressions without a comma, and elements.
ghost use Rattle.std.specs.Prelude.{◌≡◌, IfOk};
ghost use Rattle.query_terms.specs.Rule.{nothing, term, word, many};
ghost use Rattle.query_terms.specs.Lexis as lexis;
ghost use Rattle.query_terms.specs.Markup as spec;
ghost use Rattle.query_tokens.specs.Reads.{at};
ghost use Rattle.query_tokens.specs.Descends.{Nests, Opens, Skips, Gathers, Tried};

use crate::source::QuerySource;
use query_terms::{Expr, Nest, Span, Stop};
use sqlite_items::{Boxed, Items};
use std::alloc::Global;
use tree_model::NoMemory;

/// What was read, or `None` where the rule doesn't fit, so that another alternative is tried.
pub fn tried<T>(outcome: Result<T, Stop>) -> Result<Option<T>, Stop>
    ensures { Tried outcome result }
{
    match outcome {
        Ok(found) => Ok(Some(found)),
        Err(Stop::Refused) => Ok(None),
        Err(Stop::TooDeep) => Err(Stop::TooDeep),
        Err(Stop::NoMemory) => Err(Stop::NoMemory),
    }
}

// One expression is itself, and several are a comma.
fn comma(
    alloc: Global,
    span: Span,
    first: Boxed<Expr>,
    others: Items<Expr>,
) -> Result<Boxed<Expr>, NoMemory>
    ensures { IfOk result (λ e. e ≡ spec.comma_of span first others) }
{
    if others.is_empty() {
        return Ok(first);
    }
    let term = Expr::Comma {
        span,
        first,
        others,
    };
    Boxed::new(alloc, term)
}

/// A place to read at, with the function that reads the nests.
#[derive(Clone, Copy)]
pub struct Descent<'a, F> {
    pub alloc: Global,
    pub source: QuerySource<'a>,
    pub nested: F,
}

impl<
    'a,
    F: Fn(Global, QuerySource<'a>, Nest, &'a str) -> Result<(Boxed<Expr>, &'a str), Stop>,
> Descent<'a, F> {
    /// An expression without a comma.
    pub fn single(&self, rest: &'a str) -> Result<(Boxed<Expr>, &'a str), Stop>
        requires { Nests self.now.source (F.pre self.now.nested) (F.post self.now.nested) }
        ensures { Opens term (at self.now.source lexis.single rest.now) result }
    {
        (self.nested)(self.alloc, self.source, Nest::Single, rest)
    }

    /// A direct element with its content.
    pub fn elem(&self, rest: &'a str) -> Result<(Boxed<Expr>, &'a str), Stop>
        requires { Nests self.now.source (F.pre self.now.nested) (F.post self.now.nested) }
        ensures { Opens term (at self.now.source lexis.elem rest.now) result }
    {
        (self.nested)(self.alloc, self.source, Nest::Elem, rest)
    }

    /// A word, whatever stands behind it.
    pub fn word(&self, rest: &'a str, text: &str) -> Result<&'a str, Stop>
        ensures { Skips (at self.now.source (word text.now) rest.now) result }
    {
        self.source.word(rest, text).ok_or(Stop::Refused)
    }

    /// A word that no name goes on with, and the blanks behind it.
    pub fn keyword(&self, rest: &'a str, text: &str) -> Result<&'a str, Stop>
        ensures { Skips (at self.now.source (lexis.keyword text.now) rest.now) result }
    {
        self.source.keyword(rest, text).ok_or(Stop::Refused)
    }

    /// White space and comments, or nothing.
    pub fn blanks(&self, rest: &'a str) -> &'a str
        ensures { at self.now.source lexis.blanks rest.now ≡ Ok (nothing, result.now) }
    {
        self.source.blanks(rest)
    }

    #[tactic(auto, unfolding(query_terms::specs::Markup::next_single))]
    fn next_single(&self, rest: &'a str) -> Result<(Boxed<Expr>, &'a str), Stop>
        requires { Nests self.now.source (F.pre self.now.nested) (F.post self.now.nested) }
        ensures { Opens term (at self.now.source spec.next_single rest.now) result }
    {
        let after = self.blanks(rest);
        let after = self.word(after, ",")?;
        let after = self.blanks(after);
        self.single(after)
    }

    /// The expressions behind commas.
    pub fn more_singles(&self, rest: &'a str) -> Result<(Items<Expr>, &'a str), Stop>
        requires { Nests self.now.source (F.pre self.now.nested) (F.post self.now.nested) }
        ensures { Gathers spec.terms_in (at self.now.source (many spec.next_single) rest.now) result }
    {
        let mut found = Items::new(self.alloc);
        let mut after = rest;
        for _turn in 0..rest.len() + 1 {
            match self.next_single(after) {
                Ok((item, next)) => {
                    found.push(item.into_inner())?;
                    after = next;
                }
                Err(Stop::Refused) => return Ok((found, after)),
                Err(Stop::TooDeep) => return Err(Stop::TooDeep),
                Err(Stop::NoMemory) => return Err(Stop::NoMemory),
            }
        }
        Ok((found, after))
    }

    /// An expression: one or more, with commas between them (XQuery 1.0, section 3.3.1).
    #[tactic(auto, unfolding(query_terms::specs::Markup::expr))]
    pub fn expr(&self, rest: &'a str) -> Result<(Boxed<Expr>, &'a str), Stop>
        requires { Nests self.now.source (F.pre self.now.nested) (F.post self.now.nested) }
        ensures { Opens term (at self.now.source spec.expr rest.now) result }
    {
        let (first, after) = self.single(rest)?;
        let (others, after) = self.more_singles(after)?;
        let span = self.source.span(rest, after);
        Ok((comma(self.alloc, span, first, others)?, after))
    }

    /// An expression in braces.
    #[tactic(auto, unfolding(query_terms::specs::Markup::enclosed))]
    pub fn enclosed(&self, rest: &'a str) -> Result<(Boxed<Expr>, &'a str), Stop>
        requires { Nests self.now.source (F.pre self.now.nested) (F.post self.now.nested) }
        ensures { Opens term (at self.now.source spec.enclosed rest.now) result }
    {
        let after = self.word(rest, "{")?;
        let after = self.blanks(after);
        let (found, after) = self.expr(after)?;
        let after = self.blanks(after);
        let after = self.word(after, "}")?;
        Ok((found, after))
    }
}

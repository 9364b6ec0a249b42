// Primary expressions (XQuery 1.0, section 3.1).
ghost use Rattle.std.specs.Prelude.{◌≡◌};
ghost use Rattle.query_terms.specs.Rule.{term};
ghost use Rattle.query_terms.specs.Lexis as lexis;
ghost use Rattle.query_terms.specs.Grammar as spec;
ghost use Rattle.query_tokens.specs.Reads.{at};
ghost use Rattle.query_tokens.specs.Descends.{Nests, Opens};

use crate::calls::call;
use query_constructors::{computed, direct};
use query_terms::{Expr, Nest, Stop};
use query_tokens::{Descent, QuerySource, tried};
use sqlite_items::Boxed;
use std::alloc::Global;

fn number<
    'a,
    F: Fn(Global, QuerySource<'a>, Nest, &'a str) -> Result<(Boxed<Expr>, &'a str), Stop>,
>(descent: &Descent<'a, F>, rest: &'a str) -> Result<(Boxed<Expr>, &'a str), Stop>
    ensures { Opens term (at descent.now.source lexis.number rest.now) result }
{
    let (number, after) = descent.source.number(rest).ok_or(Stop::Refused)?;
    let term = number.store(descent.alloc)?;
    Ok((Boxed::new(descent.alloc, term)?, after))
}

#[tactic(auto, unfolding(query_terms::specs::Grammar::string))]
fn string<
    'a,
    F: Fn(Global, QuerySource<'a>, Nest, &'a str) -> Result<(Boxed<Expr>, &'a str), Stop>,
>(descent: &Descent<'a, F>, rest: &'a str) -> Result<(Boxed<Expr>, &'a str), Stop>
    ensures { Opens term (at descent.now.source spec.string rest.now) result }
{
    let (string, after) = descent.source.string(rest).ok_or(Stop::Refused)?;
    let span = descent.source.span(rest, after);
    let literal = descent.source.store_string(descent.alloc, string)?;
    let term = Expr::String { span, literal };
    Ok((Boxed::new(descent.alloc, term)?, after))
}

#[tactic(auto, unfolding(query_terms::specs::Grammar::variable_term))]
fn variable<
    'a,
    F: Fn(Global, QuerySource<'a>, Nest, &'a str) -> Result<(Boxed<Expr>, &'a str), Stop>,
>(descent: &Descent<'a, F>, rest: &'a str) -> Result<(Boxed<Expr>, &'a str), Stop>
    ensures { Opens term (at descent.now.source spec.variable_term rest.now) result }
{
    let (variable, after) = descent.source.variable(rest).ok_or(Stop::Refused)?;
    let variable = variable.store(descent.alloc)?;
    let term = Expr::Variable { variable };
    Ok((Boxed::new(descent.alloc, term)?, after))
}

#[tactic(auto, unfolding(query_terms::specs::Grammar::no_items))]
fn no_items<
    'a,
    F: Fn(Global, QuerySource<'a>, Nest, &'a str) -> Result<(Boxed<Expr>, &'a str), Stop>,
>(descent: &Descent<'a, F>, rest: &'a str) -> Result<(Boxed<Expr>, &'a str), Stop>
    ensures { Opens term (at descent.now.source spec.no_items rest.now) result }
{
    let after = descent.word(rest, "(")?;
    let after = descent.blanks(after);
    let after = descent.word(after, ")")?;
    let span = descent.source.span(rest, after);
    let term = Expr::Parenthesized { span, body: None };
    Ok((Boxed::new(descent.alloc, term)?, after))
}

#[tactic(auto, unfolding(query_terms::specs::Grammar::parenthesized))]
fn parenthesized<
    'a,
    F: Fn(Global, QuerySource<'a>, Nest, &'a str) -> Result<(Boxed<Expr>, &'a str), Stop>,
>(descent: &Descent<'a, F>, rest: &'a str) -> Result<(Boxed<Expr>, &'a str), Stop>
    requires { Nests descent.now.source (F.pre descent.now.nested) (F.post descent.now.nested) }
    ensures { Opens term (at descent.now.source spec.parenthesized rest.now) result }
{
    let after = descent.word(rest, "(")?;
    let after = descent.blanks(after);
    let (found, after) = descent.expr(after)?;
    let after = descent.blanks(after);
    let after = descent.word(after, ")")?;
    let span = descent.source.span(rest, after);
    let body = Some(found);
    let term = Expr::Parenthesized { span, body };
    Ok((Boxed::new(descent.alloc, term)?, after))
}

#[tactic(auto, unfolding(query_terms::specs::Grammar::context_item))]
fn context_item<
    'a,
    F: Fn(Global, QuerySource<'a>, Nest, &'a str) -> Result<(Boxed<Expr>, &'a str), Stop>,
>(descent: &Descent<'a, F>, rest: &'a str) -> Result<(Boxed<Expr>, &'a str), Stop>
    ensures { Opens term (at descent.now.source spec.context_item rest.now) result }
{
    let after = descent.word(rest, ".")?;
    if descent.source.word(after, ".").is_some() {
        return Err(Stop::Refused);
    }
    let span = descent.source.span(rest, after);
    let term = Expr::ContextItem { span };
    Ok((Boxed::new(descent.alloc, term)?, after))
}

#[tactic(auto, unfolding(query_terms::specs::Grammar::primary))]
pub(crate) fn primary<
    'a,
    F: Fn(Global, QuerySource<'a>, Nest, &'a str) -> Result<(Boxed<Expr>, &'a str), Stop>,
>(descent: &Descent<'a, F>, rest: &'a str) -> Result<(Boxed<Expr>, &'a str), Stop>
    requires { Nests descent.now.source (F.pre descent.now.nested) (F.post descent.now.nested) }
    ensures { Opens term (at descent.now.source spec.primary rest.now) result }
{
    if let Some(found) = tried(number(descent, rest))? {
        return Ok(found);
    }
    if let Some(found) = tried(string(descent, rest))? {
        return Ok(found);
    }
    if let Some(found) = tried(variable(descent, rest))? {
        return Ok(found);
    }
    if let Some(found) = tried(no_items(descent, rest))? {
        return Ok(found);
    }
    if let Some(found) = tried(parenthesized(descent, rest))? {
        return Ok(found);
    }
    if let Some(found) = tried(context_item(descent, rest))? {
        return Ok(found);
    }
    if let Some(found) = tried(direct(descent, rest))? {
        return Ok(found);
    }
    if let Some(found) = tried(computed(descent, rest))? {
        return Ok(found);
    }
    call(descent, rest)
}

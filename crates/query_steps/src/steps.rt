// Steps of paths (XQuery 1.0, sections 3.2.1 and 3.2.2).
ghost use Rattle.std.specs.Prelude.{◌≡◌, IfOk};
ghost use Rattle.query_terms.specs.Rule.{term, flag, step, many};
ghost use Rattle.query_terms.specs.Tests.{axis_step};
ghost use Rattle.query_terms.specs.Markup.{terms_in};
ghost use Rattle.query_terms.specs.Grammar as spec;
ghost use Rattle.query_tokens.specs.Reads.{at, Reads};
ghost use Rattle.query_tokens.specs.Descends.{Nests, Opens, Gathers};

use crate::primaries::primary;
use query_terms::{Expr, Nest, PathStep, Span, Stop};
use query_tokens::{Descent, QuerySource, tried};
use sqlite_items::{Boxed, Items};
use std::alloc::Global;
use tree_model::NoMemory;

// A step without predicates is itself.
fn filtered(
    alloc: Global,
    span: Span,
    head: Boxed<Expr>,
    predicates: Items<Expr>,
) -> Result<Boxed<Expr>, NoMemory>
    ensures { IfOk result (λ e. e ≡ spec.filtered span head predicates) }
{
    if predicates.is_empty() {
        return Ok(head);
    }
    let term = Expr::Filter {
        span,
        head,
        predicates,
    };
    Boxed::new(alloc, term)
}

#[tactic(auto, unfolding(query_terms::specs::Grammar::predicate))]
fn predicate<
    'a,
    F: Fn(Global, QuerySource<'a>, Nest, &'a str) -> Result<(Boxed<Expr>, &'a str), Stop>,
>(descent: &Descent<'a, F>, rest: &'a str) -> Result<(Boxed<Expr>, &'a str), Stop>
    requires { Nests descent.now.source (F.pre descent.now.nested) (F.post descent.now.nested) }
    ensures { Opens term (at descent.now.source spec.predicate rest.now) result }
{
    let after = descent.blanks(rest);
    let after = descent.word(after, "[")?;
    let after = descent.blanks(after);
    let (found, after) = descent.expr(after)?;
    let after = descent.blanks(after);
    let after = descent.word(after, "]")?;
    Ok((found, after))
}

fn predicates<
    'a,
    F: Fn(Global, QuerySource<'a>, Nest, &'a str) -> Result<(Boxed<Expr>, &'a str), Stop>,
>(descent: &Descent<'a, F>, rest: &'a str) -> Result<(Items<Expr>, &'a str), Stop>
    requires { Nests descent.now.source (F.pre descent.now.nested) (F.post descent.now.nested) }
    ensures { Gathers terms_in (at descent.now.source (many spec.predicate) rest.now) result }
{
    let mut found = Items::new(descent.alloc);
    let mut after = rest;
    for _turn in 0..rest.len() + 1 {
        match predicate(descent, after) {
            Ok((item, next)) => {
                found.push(item.into_inner())?;
                after = next;
            }
            Err(Stop::Refused) => return Ok((found, after)),
            Err(Stop::TooDeep) => return Err(Stop::TooDeep),
            Err(Stop::NoMemory) => return Err(Stop::NoMemory),
        }
    }
    Ok((found, after))
}

fn axis_step<
    'a,
    F: Fn(Global, QuerySource<'a>, Nest, &'a str) -> Result<(Boxed<Expr>, &'a str), Stop>,
>(descent: &Descent<'a, F>, rest: &'a str) -> Result<(Boxed<Expr>, &'a str), Stop>
    ensures { Opens term (at descent.now.source axis_step rest.now) result }
{
    let (step, after) = descent.source.axis_step(rest).ok_or(Stop::Refused)?;
    let term = descent.source.store_step(descent.alloc, step)?;
    Ok((Boxed::new(descent.alloc, term)?, after))
}

#[tactic(auto, unfolding(query_terms::specs::Grammar::step_head))]
fn step_head<
    'a,
    F: Fn(Global, QuerySource<'a>, Nest, &'a str) -> Result<(Boxed<Expr>, &'a str), Stop>,
>(descent: &Descent<'a, F>, rest: &'a str) -> Result<(Boxed<Expr>, &'a str), Stop>
    requires { Nests descent.now.source (F.pre descent.now.nested) (F.post descent.now.nested) }
    ensures { Opens term (at descent.now.source spec.step_head rest.now) result }
{
    if let Some(found) = tried(primary(descent, rest))? {
        return Ok(found);
    }
    axis_step(descent, rest)
}

#[tactic(auto, unfolding(query_terms::specs::Grammar::step_rule))]
pub(crate) fn step<
    'a,
    F: Fn(Global, QuerySource<'a>, Nest, &'a str) -> Result<(Boxed<Expr>, &'a str), Stop>,
>(descent: &Descent<'a, F>, rest: &'a str) -> Result<(Boxed<Expr>, &'a str), Stop>
    requires { Nests descent.now.source (F.pre descent.now.nested) (F.post descent.now.nested) }
    ensures { Opens term (at descent.now.source spec.step_rule rest.now) result }
{
    let (head, after) = step_head(descent, rest)?;
    let (predicates, after) = predicates(descent, after)?;
    let span = descent.source.span(rest, after);
    Ok((filtered(descent.alloc, span, head, predicates)?, after))
}

// Whether it is `//`.
#[tactic(auto, unfolding(query_terms::specs::Grammar::slash))]
fn slash<'a, F>(descent: &Descent<'a, F>, rest: &'a str) -> Option<(bool, &'a str)>
    ensures { Reads flag (at descent.now.source spec.slash rest.now) result }
{
    if let Some(after) = descent.source.word(rest, "//") {
        return Some((true, after));
    }
    let after = descent.source.word(rest, "/")?;
    Some((false, after))
}

#[tactic(auto, unfolding(query_terms::specs::Grammar::next_step))]
fn next_step<
    'a,
    F: Fn(Global, QuerySource<'a>, Nest, &'a str) -> Result<(Boxed<Expr>, &'a str), Stop>,
>(descent: &Descent<'a, F>, rest: &'a str) -> Result<(PathStep, &'a str), Stop>
    requires { Nests descent.now.source (F.pre descent.now.nested) (F.post descent.now.nested) }
    ensures { Opens step (at descent.now.source spec.next_step rest.now) result }
{
    let after = descent.blanks(rest);
    let (is_deep, after) = slash(descent, after).ok_or(Stop::Refused)?;
    let after = descent.blanks(after);
    let (step, after) = step(descent, after)?;
    Ok((PathStep { is_deep, step }, after))
}

pub(crate) fn next_steps<
    'a,
    F: Fn(Global, QuerySource<'a>, Nest, &'a str) -> Result<(Boxed<Expr>, &'a str), Stop>,
>(descent: &Descent<'a, F>, rest: &'a str) -> Result<(Items<PathStep>, &'a str), Stop>
    requires { Nests descent.now.source (F.pre descent.now.nested) (F.post descent.now.nested) }
    ensures { Gathers spec.steps_in (at descent.now.source (many spec.next_step) rest.now) result }
{
    let mut found = Items::new(descent.alloc);
    let mut after = rest;
    for _turn in 0..rest.len() + 1 {
        match next_step(descent, after) {
            Ok((item, next)) => {
                found.push(item)?;
                after = next;
            }
            Err(Stop::Refused) => return Ok((found, after)),
            Err(Stop::TooDeep) => return Err(Stop::TooDeep),
            Err(Stop::NoMemory) => return Err(Stop::NoMemory),
        }
    }
    Ok((found, after))
}

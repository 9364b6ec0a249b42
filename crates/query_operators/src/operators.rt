// Intersections and unions (XQuery 1.0, section 3.3.3).
ghost use Rattle.std.specs.Prelude.{◌≡◌, IfOk};
ghost use Rattle.query_terms.specs.Rule.{term, operand, many};
ghost use Rattle.query_terms.specs.Markup.{terms_in};
ghost use Rattle.query_terms.specs.Grammar as spec;
ghost use Rattle.query_tokens.specs.Reads.{at};
ghost use Rattle.query_tokens.specs.Descends.{Nests, Opens, Gathers};

use crate::signs::unary;
use crate::symbols::{set_operator, union_operator};
use query_terms::{Expr, Nest, Operand, Span, Stop};
use query_tokens::{Descent, QuerySource};
use sqlite_items::{Boxed, Items};
use std::alloc::Global;
use tree_model::NoMemory;

// An operand alone is itself.
fn intersection_term(
    alloc: Global,
    span: Span,
    first: Boxed<Expr>,
    others: Items<Operand>,
) -> Result<Boxed<Expr>, NoMemory>
    ensures { IfOk result (λ e. e ≡ spec.intersection_of span first others) }
{
    if others.is_empty() {
        return Ok(first);
    }
    let term = Expr::Intersection {
        span,
        first,
        others,
    };
    Boxed::new(alloc, term)
}

// An operand alone is itself.
fn union_term(
    alloc: Global,
    span: Span,
    first: Boxed<Expr>,
    others: Items<Expr>,
) -> Result<Boxed<Expr>, NoMemory>
    ensures { IfOk result (λ e. e ≡ spec.union_of span first others) }
{
    if others.is_empty() {
        return Ok(first);
    }
    let term = Expr::Union {
        span,
        first,
        others,
    };
    Boxed::new(alloc, term)
}

#[tactic(auto, unfolding(query_terms::specs::Grammar::next_unary))]
fn next_unary<
    'a,
    F: Fn(Global, QuerySource<'a>, Nest, &'a str) -> Result<(Boxed<Expr>, &'a str), Stop>,
>(descent: &Descent<'a, F>, rest: &'a str) -> Result<(Operand, &'a str), Stop>
    requires { Nests descent.now.source (F.pre descent.now.nested) (F.post descent.now.nested) }
    ensures { Opens operand (at descent.now.source spec.next_unary rest.now) result }
{
    let after = descent.blanks(rest);
    let (operator, after) = set_operator(&descent.source, after).ok_or(Stop::Refused)?;
    let after = descent.blanks(after);
    let (operand, after) = unary(descent, after)?;
    Ok((Operand { operator, operand }, after))
}

fn next_unaries<
    'a,
    F: Fn(Global, QuerySource<'a>, Nest, &'a str) -> Result<(Boxed<Expr>, &'a str), Stop>,
>(descent: &Descent<'a, F>, rest: &'a str) -> Result<(Items<Operand>, &'a str), Stop>
    requires { Nests descent.now.source (F.pre descent.now.nested) (F.post descent.now.nested) }
    ensures { Gathers spec.operands_in (at descent.now.source (many spec.next_unary) rest.now) result }
{
    let mut found = Items::new(descent.alloc);
    let mut after = rest;
    for _turn in 0..rest.len() + 1 {
        match next_unary(descent, after) {
            Ok((item, next)) => {
                found.push(item)?;
                after = next;
            }
            Err(Stop::Refused) => return Ok((found, after)),
            Err(Stop::TooDeep) => return Err(Stop::TooDeep),
            Err(Stop::NoMemory) => return Err(Stop::NoMemory),
        }
    }
    Ok((found, after))
}

#[tactic(auto, unfolding(query_terms::specs::Grammar::intersection))]
fn intersection<
    'a,
    F: Fn(Global, QuerySource<'a>, Nest, &'a str) -> Result<(Boxed<Expr>, &'a str), Stop>,
>(descent: &Descent<'a, F>, rest: &'a str) -> Result<(Boxed<Expr>, &'a str), Stop>
    requires { Nests descent.now.source (F.pre descent.now.nested) (F.post descent.now.nested) }
    ensures { Opens term (at descent.now.source spec.intersection rest.now) result }
{
    let (first, after) = unary(descent, rest)?;
    let (others, after) = next_unaries(descent, after)?;
    let span = descent.source.span(rest, after);
    Ok((
        intersection_term(descent.alloc, span, first, others)?,
        after,
    ))
}

#[tactic(auto, unfolding(query_terms::specs::Grammar::next_intersection))]
fn next_intersection<
    'a,
    F: Fn(Global, QuerySource<'a>, Nest, &'a str) -> Result<(Boxed<Expr>, &'a str), Stop>,
>(descent: &Descent<'a, F>, rest: &'a str) -> Result<(Boxed<Expr>, &'a str), Stop>
    requires { Nests descent.now.source (F.pre descent.now.nested) (F.post descent.now.nested) }
    ensures { Opens term (at descent.now.source spec.next_intersection rest.now) result }
{
    let after = descent.blanks(rest);
    let after = union_operator(&descent.source, after).ok_or(Stop::Refused)?;
    let after = descent.blanks(after);
    intersection(descent, after)
}

fn next_intersections<
    'a,
    F: Fn(Global, QuerySource<'a>, Nest, &'a str) -> Result<(Boxed<Expr>, &'a str), Stop>,
>(descent: &Descent<'a, F>, rest: &'a str) -> Result<(Items<Expr>, &'a str), Stop>
    requires { Nests descent.now.source (F.pre descent.now.nested) (F.post descent.now.nested) }
    ensures { Gathers terms_in (at descent.now.source (many spec.next_intersection) rest.now) result }
{
    let mut found = Items::new(descent.alloc);
    let mut after = rest;
    for _turn in 0..rest.len() + 1 {
        match next_intersection(descent, after) {
            Ok((item, next)) => {
                found.push(item.into_inner())?;
                after = next;
            }
            Err(Stop::Refused) => return Ok((found, after)),
            Err(Stop::TooDeep) => return Err(Stop::TooDeep),
            Err(Stop::NoMemory) => return Err(Stop::NoMemory),
        }
    }
    Ok((found, after))
}

#[tactic(auto, unfolding(query_terms::specs::Grammar::union))]
pub(crate) fn union<
    'a,
    F: Fn(Global, QuerySource<'a>, Nest, &'a str) -> Result<(Boxed<Expr>, &'a str), Stop>,
>(descent: &Descent<'a, F>, rest: &'a str) -> Result<(Boxed<Expr>, &'a str), Stop>
    requires { Nests descent.now.source (F.pre descent.now.nested) (F.post descent.now.nested) }
    ensures { Opens term (at descent.now.source spec.union rest.now) result }
{
    let (first, after) = intersection(descent, rest)?;
    let (others, after) = next_intersections(descent, after)?;
    let span = descent.source.span(rest, after);
    Ok((union_term(descent.alloc, span, first, others)?, after))
}

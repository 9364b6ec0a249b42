// Products and sums (XQuery 1.0, section 3.4).
ghost use Rattle.std.specs.Prelude.{◌≡◌, IfOk};
ghost use Rattle.query_terms.specs.Rule.{term, operand, many};
ghost use Rattle.query_terms.specs.Grammar as spec;
ghost use Rattle.query_tokens.specs.Reads.{at};
ghost use Rattle.query_tokens.specs.Descends.{Nests, Opens, Gathers};

use crate::operators::union;
use crate::symbols::{additive_operator, multiplicative_operator};
use query_terms::{Expr, Nest, Operand, Span, Stop};
use query_tokens::{Descent, QuerySource};
use sqlite_items::{Boxed, Items};
use std::alloc::Global;
use tree_model::NoMemory;

// An operand alone is itself.
fn multiplicative_term(
    alloc: Global,
    span: Span,
    first: Boxed<Expr>,
    others: Items<Operand>,
) -> Result<Boxed<Expr>, NoMemory>
    ensures { IfOk result (λ e. e ≡ spec.multiplicative_of span first others) }
{
    if others.is_empty() {
        return Ok(first);
    }
    let term = Expr::Multiplicative {
        span,
        first,
        others,
    };
    Boxed::new(alloc, term)
}

// An operand alone is itself.
fn additive_term(
    alloc: Global,
    span: Span,
    first: Boxed<Expr>,
    others: Items<Operand>,
) -> Result<Boxed<Expr>, NoMemory>
    ensures { IfOk result (λ e. e ≡ spec.additive_of span first others) }
{
    if others.is_empty() {
        return Ok(first);
    }
    let term = Expr::Additive {
        span,
        first,
        others,
    };
    Boxed::new(alloc, term)
}

#[tactic(auto, unfolding(query_terms::specs::Grammar::next_union))]
fn next_union<
    'a,
    F: Fn(Global, QuerySource<'a>, Nest, &'a str) -> Result<(Boxed<Expr>, &'a str), Stop>,
>(descent: &Descent<'a, F>, rest: &'a str) -> Result<(Operand, &'a str), Stop>
    requires { Nests descent.now.source (F.pre descent.now.nested) (F.post descent.now.nested) }
    ensures { Opens operand (at descent.now.source spec.next_union rest.now) result }
{
    let after = descent.blanks(rest);
    let (operator, after) = multiplicative_operator(&descent.source, after).ok_or(Stop::Refused)?;
    let after = descent.blanks(after);
    let (operand, after) = union(descent, after)?;
    Ok((Operand { operator, operand }, after))
}

fn next_unions<
    'a,
    F: Fn(Global, QuerySource<'a>, Nest, &'a str) -> Result<(Boxed<Expr>, &'a str), Stop>,
>(descent: &Descent<'a, F>, rest: &'a str) -> Result<(Items<Operand>, &'a str), Stop>
    requires { Nests descent.now.source (F.pre descent.now.nested) (F.post descent.now.nested) }
    ensures { Gathers spec.operands_in (at descent.now.source (many spec.next_union) rest.now) result }
{
    let mut found = Items::new(descent.alloc);
    let mut after = rest;
    for _turn in 0..rest.len() + 1 {
        match next_union(descent, after) {
            Ok((item, next)) => {
                found.push(item)?;
                after = next;
            }
            Err(Stop::Refused) => return Ok((found, after)),
            Err(Stop::TooDeep) => return Err(Stop::TooDeep),
            Err(Stop::NoMemory) => return Err(Stop::NoMemory),
        }
    }
    Ok((found, after))
}

#[tactic(auto, unfolding(query_terms::specs::Grammar::multiplicative))]
fn multiplicative<
    'a,
    F: Fn(Global, QuerySource<'a>, Nest, &'a str) -> Result<(Boxed<Expr>, &'a str), Stop>,
>(descent: &Descent<'a, F>, rest: &'a str) -> Result<(Boxed<Expr>, &'a str), Stop>
    requires { Nests descent.now.source (F.pre descent.now.nested) (F.post descent.now.nested) }
    ensures { Opens term (at descent.now.source spec.multiplicative rest.now) result }
{
    let (first, after) = union(descent, rest)?;
    let (others, after) = next_unions(descent, after)?;
    let span = descent.source.span(rest, after);
    Ok((
        multiplicative_term(descent.alloc, span, first, others)?,
        after,
    ))
}

#[tactic(auto, unfolding(query_terms::specs::Grammar::next_multiplicative))]
fn next_multiplicative<
    'a,
    F: Fn(Global, QuerySource<'a>, Nest, &'a str) -> Result<(Boxed<Expr>, &'a str), Stop>,
>(descent: &Descent<'a, F>, rest: &'a str) -> Result<(Operand, &'a str), Stop>
    requires { Nests descent.now.source (F.pre descent.now.nested) (F.post descent.now.nested) }
    ensures { Opens operand (at descent.now.source spec.next_multiplicative rest.now) result }
{
    let after = descent.blanks(rest);
    let (operator, after) = additive_operator(&descent.source, after).ok_or(Stop::Refused)?;
    let after = descent.blanks(after);
    let (operand, after) = multiplicative(descent, after)?;
    Ok((Operand { operator, operand }, after))
}

fn next_multiplicatives<
    'a,
    F: Fn(Global, QuerySource<'a>, Nest, &'a str) -> Result<(Boxed<Expr>, &'a str), Stop>,
>(descent: &Descent<'a, F>, rest: &'a str) -> Result<(Items<Operand>, &'a str), Stop>
    requires { Nests descent.now.source (F.pre descent.now.nested) (F.post descent.now.nested) }
    ensures { Gathers spec.operands_in (at descent.now.source (many spec.next_multiplicative) rest.now) result }
{
    let mut found = Items::new(descent.alloc);
    let mut after = rest;
    for _turn in 0..rest.len() + 1 {
        match next_multiplicative(descent, after) {
            Ok((item, next)) => {
                found.push(item)?;
                after = next;
            }
            Err(Stop::Refused) => return Ok((found, after)),
            Err(Stop::TooDeep) => return Err(Stop::TooDeep),
            Err(Stop::NoMemory) => return Err(Stop::NoMemory),
        }
    }
    Ok((found, after))
}

#[tactic(auto, unfolding(query_terms::specs::Grammar::additive))]
pub(crate) fn additive<
    'a,
    F: Fn(Global, QuerySource<'a>, Nest, &'a str) -> Result<(Boxed<Expr>, &'a str), Stop>,
>(descent: &Descent<'a, F>, rest: &'a str) -> Result<(Boxed<Expr>, &'a str), Stop>
    requires { Nests descent.now.source (F.pre descent.now.nested) (F.post descent.now.nested) }
    ensures { Opens term (at descent.now.source spec.additive rest.now) result }
{
    let (first, after) = multiplicative(descent, rest)?;
    let (others, after) = next_multiplicatives(descent, after)?;
    let span = descent.source.span(rest, after);
    Ok((additive_term(descent.alloc, span, first, others)?, after))
}

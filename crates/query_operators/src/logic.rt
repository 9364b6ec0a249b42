// `and` and `or` (XQuery 1.0, section 3.6).
ghost use Rattle.std.specs.Prelude.{◌≡◌, IfOk};
ghost use Rattle.query_terms.specs.Rule.{term, many};
ghost use Rattle.query_terms.specs.Markup.{terms_in};
ghost use Rattle.query_terms.specs.Grammar as spec;
ghost use Rattle.query_tokens.specs.Reads.{at};
ghost use Rattle.query_tokens.specs.Descends.{Nests, Opens, Gathers};

use crate::comparisons::comparison;
use query_terms::{Expr, Nest, Span, Stop};
use query_tokens::{Descent, QuerySource};
use sqlite_items::{Boxed, Items};
use std::alloc::Global;
use tree_model::NoMemory;

// An operand alone is itself.
fn and_term(
    alloc: Global,
    span: Span,
    first: Boxed<Expr>,
    others: Items<Expr>,
) -> Result<Boxed<Expr>, NoMemory>
    ensures { IfOk result (λ e. e ≡ spec.and_of span first others) }
{
    if others.is_empty() {
        return Ok(first);
    }
    let term = Expr::And {
        span,
        first,
        others,
    };
    Boxed::new(alloc, term)
}

// An operand alone is itself.
fn or_term(
    alloc: Global,
    span: Span,
    first: Boxed<Expr>,
    others: Items<Expr>,
) -> Result<Boxed<Expr>, NoMemory>
    ensures { IfOk result (λ e. e ≡ spec.or_of span first others) }
{
    if others.is_empty() {
        return Ok(first);
    }
    let term = Expr::Or {
        span,
        first,
        others,
    };
    Boxed::new(alloc, term)
}

#[tactic(auto, unfolding(query_terms::specs::Grammar::next_comparison))]
fn next_comparison<
    'a,
    F: Fn(Global, QuerySource<'a>, Nest, &'a str) -> Result<(Boxed<Expr>, &'a str), Stop>,
>(descent: &Descent<'a, F>, rest: &'a str) -> Result<(Boxed<Expr>, &'a str), Stop>
    requires { Nests descent.now.source (F.pre descent.now.nested) (F.post descent.now.nested) }
    ensures { Opens term (at descent.now.source spec.next_comparison rest.now) result }
{
    let after = descent.blanks(rest);
    let after = descent.keyword(after, "and")?;
    comparison(descent, after)
}

fn next_comparisons<
    'a,
    F: Fn(Global, QuerySource<'a>, Nest, &'a str) -> Result<(Boxed<Expr>, &'a str), Stop>,
>(descent: &Descent<'a, F>, rest: &'a str) -> Result<(Items<Expr>, &'a str), Stop>
    requires { Nests descent.now.source (F.pre descent.now.nested) (F.post descent.now.nested) }
    ensures { Gathers terms_in (at descent.now.source (many spec.next_comparison) rest.now) result }
{
    let mut found = Items::new(descent.alloc);
    let mut after = rest;
    for _turn in 0..rest.len() + 1 {
        match next_comparison(descent, after) {
            Ok((item, next)) => {
                found.push(item.into_inner())?;
                after = next;
            }
            Err(Stop::Refused) => return Ok((found, after)),
            Err(Stop::TooDeep) => return Err(Stop::TooDeep),
            Err(Stop::NoMemory) => return Err(Stop::NoMemory),
        }
    }
    Ok((found, after))
}

#[tactic(auto, unfolding(query_terms::specs::Grammar::and_rule))]
fn conjunction<
    'a,
    F: Fn(Global, QuerySource<'a>, Nest, &'a str) -> Result<(Boxed<Expr>, &'a str), Stop>,
>(descent: &Descent<'a, F>, rest: &'a str) -> Result<(Boxed<Expr>, &'a str), Stop>
    requires { Nests descent.now.source (F.pre descent.now.nested) (F.post descent.now.nested) }
    ensures { Opens term (at descent.now.source spec.and_rule rest.now) result }
{
    let (first, after) = comparison(descent, rest)?;
    let (others, after) = next_comparisons(descent, after)?;
    let span = descent.source.span(rest, after);
    Ok((and_term(descent.alloc, span, first, others)?, after))
}

#[tactic(auto, unfolding(query_terms::specs::Grammar::next_and))]
fn next_and<
    'a,
    F: Fn(Global, QuerySource<'a>, Nest, &'a str) -> Result<(Boxed<Expr>, &'a str), Stop>,
>(descent: &Descent<'a, F>, rest: &'a str) -> Result<(Boxed<Expr>, &'a str), Stop>
    requires { Nests descent.now.source (F.pre descent.now.nested) (F.post descent.now.nested) }
    ensures { Opens term (at descent.now.source spec.next_and rest.now) result }
{
    let after = descent.blanks(rest);
    let after = descent.keyword(after, "or")?;
    conjunction(descent, after)
}

fn next_ands<
    'a,
    F: Fn(Global, QuerySource<'a>, Nest, &'a str) -> Result<(Boxed<Expr>, &'a str), Stop>,
>(descent: &Descent<'a, F>, rest: &'a str) -> Result<(Items<Expr>, &'a str), Stop>
    requires { Nests descent.now.source (F.pre descent.now.nested) (F.post descent.now.nested) }
    ensures { Gathers terms_in (at descent.now.source (many spec.next_and) rest.now) result }
{
    let mut found = Items::new(descent.alloc);
    let mut after = rest;
    for _turn in 0..rest.len() + 1 {
        match next_and(descent, after) {
            Ok((item, next)) => {
                found.push(item.into_inner())?;
                after = next;
            }
            Err(Stop::Refused) => return Ok((found, after)),
            Err(Stop::TooDeep) => return Err(Stop::TooDeep),
            Err(Stop::NoMemory) => return Err(Stop::NoMemory),
        }
    }
    Ok((found, after))
}

/// Operands with operators between them, or one alone (XQuery 1.0, sections 3.3 to 3.6).
#[tactic(auto, unfolding(query_terms::specs::Grammar::or_rule))]
pub fn disjunction<
    'a,
    F: Fn(Global, QuerySource<'a>, Nest, &'a str) -> Result<(Boxed<Expr>, &'a str), Stop>,
>(descent: &Descent<'a, F>, rest: &'a str) -> Result<(Boxed<Expr>, &'a str), Stop>
    requires { Nests descent.now.source (F.pre descent.now.nested) (F.post descent.now.nested) }
    ensures { Opens term (at descent.now.source spec.or_rule rest.now) result }
{
    let (first, after) = conjunction(descent, rest)?;
    let (others, after) = next_ands(descent, after)?;
    let span = descent.source.span(rest, after);
    Ok((or_term(descent.alloc, span, first, others)?, after))
}

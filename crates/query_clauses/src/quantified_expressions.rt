// Quantified expressions (XQuery 1.0, section 3.11).
ghost use Rattle.std.specs.Prelude.{◌≡◌};
ghost use Rattle.query_terms.specs.Rule.{term, quantifier, clause, clauses, many};
ghost use Rattle.query_terms.specs.Grammar as spec;
ghost use Rattle.query_tokens.specs.Reads.{at, Reads};
ghost use Rattle.query_tokens.specs.Descends.{Nests, Opens, Gathers};

use crate::bindings::{bound_items, with_others};
use query_terms::{Clause, Expr, Nest, Quantifier, Stop};
use query_tokens::{Descent, QuerySource};
use sqlite_items::{Boxed, Items};
use std::alloc::Global;

#[tactic(auto, unfolding(query_terms::specs::Grammar::quantifier_rule))]
fn quantifier<'a>(source: &QuerySource<'a>, rest: &'a str) -> Option<(Quantifier, &'a str)>
    ensures { Reads quantifier (at source.now spec.quantifier_rule rest.now) result }
{
    if let Some(after) = source.keyword(rest, "some") {
        return Some((Quantifier::Some, after));
    }
    let after = source.keyword(rest, "every")?;
    Some((Quantifier::Every, after))
}

#[tactic(auto, unfolding(query_terms::specs::Grammar::quantified_variable))]
fn quantified_variable<
    'a,
    F: Fn(Global, QuerySource<'a>, Nest, &'a str) -> Result<(Boxed<Expr>, &'a str), Stop>,
>(descent: &Descent<'a, F>, rest: &'a str) -> Result<(Clause, &'a str), Stop>
    requires { Nests descent.now.source (F.pre descent.now.nested) (F.post descent.now.nested) }
    ensures { Opens clause (at descent.now.source spec.quantified_variable rest.now) result }
{
    let (variable, after) = descent.source.variable(rest).ok_or(Stop::Refused)?;
    let (source, after) = bound_items(descent, after)?;
    let variable = variable.store(descent.alloc)?;
    let bound = Clause::For {
        variable,
        position: None,
        source,
    };
    Ok((bound, after))
}

#[tactic(auto, unfolding(query_terms::specs::Grammar::next_quantified_variable))]
fn next_quantified_variable<
    'a,
    F: Fn(Global, QuerySource<'a>, Nest, &'a str) -> Result<(Boxed<Expr>, &'a str), Stop>,
>(descent: &Descent<'a, F>, rest: &'a str) -> Result<(Clause, &'a str), Stop>
    requires { Nests descent.now.source (F.pre descent.now.nested) (F.post descent.now.nested) }
    ensures { Opens clause (at descent.now.source spec.next_quantified_variable rest.now) result }
{
    let after = descent.blanks(rest);
    let after = descent.word(after, ",")?;
    let after = descent.blanks(after);
    quantified_variable(descent, after)
}

fn next_quantified_variables<
    'a,
    F: Fn(Global, QuerySource<'a>, Nest, &'a str) -> Result<(Boxed<Expr>, &'a str), Stop>,
>(descent: &Descent<'a, F>, rest: &'a str) -> Result<(Items<Clause>, &'a str), Stop>
    requires { Nests descent.now.source (F.pre descent.now.nested) (F.post descent.now.nested) }
    ensures { Gathers spec.clauses_in (at descent.now.source (many spec.next_quantified_variable) rest.now) result }
{
    let mut found = Items::new(descent.alloc);
    let mut after = rest;
    for _turn in 0..rest.len() + 1 {
        match next_quantified_variable(descent, after) {
            Ok((item, next)) => {
                found.push(item)?;
                after = next;
            }
            Err(Stop::Refused) => return Ok((found, after)),
            Err(Stop::TooDeep) => return Err(Stop::TooDeep),
            Err(Stop::NoMemory) => return Err(Stop::NoMemory),
        }
    }
    Ok((found, after))
}

#[tactic(auto, unfolding(query_terms::specs::Grammar::quantified_variables))]
fn quantified_variables<
    'a,
    F: Fn(Global, QuerySource<'a>, Nest, &'a str) -> Result<(Boxed<Expr>, &'a str), Stop>,
>(descent: &Descent<'a, F>, rest: &'a str) -> Result<(Items<Clause>, &'a str), Stop>
    requires { Nests descent.now.source (F.pre descent.now.nested) (F.post descent.now.nested) }
    ensures { Opens clauses (at descent.now.source spec.quantified_variables rest.now) result }
{
    let (first, after) = quantified_variable(descent, rest)?;
    let (others, after) = next_quantified_variables(descent, after)?;
    Ok((with_others(descent.alloc, first, others)?, after))
}

#[tactic(auto, unfolding(query_terms::specs::Grammar::satisfied))]
fn satisfied<
    'a,
    F: Fn(Global, QuerySource<'a>, Nest, &'a str) -> Result<(Boxed<Expr>, &'a str), Stop>,
>(descent: &Descent<'a, F>, rest: &'a str) -> Result<(Boxed<Expr>, &'a str), Stop>
    requires { Nests descent.now.source (F.pre descent.now.nested) (F.post descent.now.nested) }
    ensures { Opens term (at descent.now.source spec.satisfied rest.now) result }
{
    let after = descent.blanks(rest);
    let after = descent.keyword(after, "satisfies")?;
    descent.single(after)
}

/// A quantified expression.
#[tactic(auto, unfolding(query_terms::specs::Grammar::quantified))]
pub fn quantified<
    'a,
    F: Fn(Global, QuerySource<'a>, Nest, &'a str) -> Result<(Boxed<Expr>, &'a str), Stop>,
>(descent: &Descent<'a, F>, rest: &'a str) -> Result<(Boxed<Expr>, &'a str), Stop>
    requires { Nests descent.now.source (F.pre descent.now.nested) (F.post descent.now.nested) }
    ensures { Opens term (at descent.now.source spec.quantified rest.now) result }
{
    let (quantifier, after) = quantifier(&descent.source, rest).ok_or(Stop::Refused)?;
    let (clauses, after) = quantified_variables(descent, after)?;
    let (test, after) = satisfied(descent, after)?;
    let span = descent.source.span(rest, after);
    let term = Expr::Quantified {
        span,
        quantifier,
        clauses,
        test,
    };
    Ok((Boxed::new(descent.alloc, term)?, after))
}

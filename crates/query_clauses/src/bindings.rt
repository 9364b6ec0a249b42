// The clauses that bind variables (XQuery 1.0, section 3.8.1).
ghost use Rattle.std.specs.Prelude.{◌≡◌, ◌∷◌, IfOk, Ok};
ghost use Rattle.query_terms.specs.Rule.{term, clause, clauses, opt, alt, many};
ghost use Rattle.query_terms.specs.Grammar as spec;
ghost use Rattle.query_tokens.specs.Reads.{at, as_variable, variable_written, Reads};
ghost use Rattle.query_tokens.specs.Descends.{Nests, Opens, Gathers};
ghost use Rattle.query_terms.specs.declared.tree.Clause.TheVariants as bindings;
ghost use Rattle.query_clauses.specs.Parts.{as_maybe_variable};

use query_terms::{Clause, Expr, Nest, Stop};
use query_tokens::{Descent, QuerySource, WrittenVariable, tried};
use sqlite_items::{Boxed, Items};
use std::alloc::Global;
use tree_model::NoMemory;

#[tactic(auto, unfolding(query_terms::specs::Grammar::position_variable))]
fn position<'a>(source: &QuerySource<'a>, rest: &'a str) -> Option<(WrittenVariable<'a>, &'a str)>
    ensures { Reads as_variable (at source.now spec.position_variable rest.now) result }
{
    let after = source.blanks(rest);
    let after = source.keyword(after, "at")?;
    source.variable(after)
}

fn maybe_position<'a>(
    source: &QuerySource<'a>,
    rest: &'a str,
) -> (Option<WrittenVariable<'a>>, &'a str)
    ensures { at source.now (opt spec.position_variable) rest.now ≡ Ok (as_maybe_variable result.0, result.1.now) }
{
    match position(source, rest) {
        Some((found, after)) => (Some(found), after),
        None => (None, rest),
    }
}

fn for_term(
    alloc: Global,
    variable: WrittenVariable<'_>,
    position: Option<WrittenVariable<'_>>,
    source: Boxed<Expr>,
) -> Result<Clause, NoMemory>
    ensures { IfOk result (λ c. c ≡ bindings.For (variable_written variable.entry) (spec.maybe_variable (as_maybe_variable position.entry)) source) }
{
    let variable = variable.store(alloc)?;
    let position = match position {
        Some(position) => Some(position.store(alloc)?),
        None => None,
    };
    Ok(Clause::For {
        variable,
        position,
        source,
    })
}

pub(crate) fn with_others(
    alloc: Global,
    first: Clause,
    others: Items<Clause>,
) -> Result<Items<Clause>, NoMemory>
    ensures { IfOk result (λ found. found ≡ first ∷ others) }
{
    let mut found = Items::new(alloc);
    found.push(first)?;
    found.append(others)?;
    Ok(found)
}

#[tactic(auto, unfolding(query_terms::specs::Grammar::bound_items))]
pub(crate) fn bound_items<
    'a,
    F: Fn(Global, QuerySource<'a>, Nest, &'a str) -> Result<(Boxed<Expr>, &'a str), Stop>,
>(descent: &Descent<'a, F>, rest: &'a str) -> Result<(Boxed<Expr>, &'a str), Stop>
    requires { Nests descent.now.source (F.pre descent.now.nested) (F.post descent.now.nested) }
    ensures { Opens term (at descent.now.source spec.bound_items rest.now) result }
{
    let after = descent.blanks(rest);
    let after = descent.keyword(after, "in")?;
    descent.single(after)
}

#[tactic(auto, unfolding(query_terms::specs::Grammar::for_variable))]
fn for_variable<
    'a,
    F: Fn(Global, QuerySource<'a>, Nest, &'a str) -> Result<(Boxed<Expr>, &'a str), Stop>,
>(descent: &Descent<'a, F>, rest: &'a str) -> Result<(Clause, &'a str), Stop>
    requires { Nests descent.now.source (F.pre descent.now.nested) (F.post descent.now.nested) }
    ensures { Opens clause (at descent.now.source spec.for_variable rest.now) result }
{
    let (variable, after) = descent.source.variable(rest).ok_or(Stop::Refused)?;
    let (position, after) = maybe_position(&descent.source, after);
    let (source, after) = bound_items(descent, after)?;
    let bound = for_term(descent.alloc, variable, position, source)?;
    Ok((bound, after))
}

#[tactic(auto, unfolding(query_terms::specs::Grammar::next_for_variable))]
fn next_for_variable<
    'a,
    F: Fn(Global, QuerySource<'a>, Nest, &'a str) -> Result<(Boxed<Expr>, &'a str), Stop>,
>(descent: &Descent<'a, F>, rest: &'a str) -> Result<(Clause, &'a str), Stop>
    requires { Nests descent.now.source (F.pre descent.now.nested) (F.post descent.now.nested) }
    ensures { Opens clause (at descent.now.source spec.next_for_variable rest.now) result }
{
    let after = descent.blanks(rest);
    let after = descent.word(after, ",")?;
    let after = descent.blanks(after);
    for_variable(descent, after)
}

fn next_for_variables<
    'a,
    F: Fn(Global, QuerySource<'a>, Nest, &'a str) -> Result<(Boxed<Expr>, &'a str), Stop>,
>(descent: &Descent<'a, F>, rest: &'a str) -> Result<(Items<Clause>, &'a str), Stop>
    requires { Nests descent.now.source (F.pre descent.now.nested) (F.post descent.now.nested) }
    ensures { Gathers spec.clauses_in (at descent.now.source (many spec.next_for_variable) rest.now) result }
{
    let mut found = Items::new(descent.alloc);
    let mut after = rest;
    for _turn in 0..rest.len() + 1 {
        match next_for_variable(descent, after) {
            Ok((item, next)) => {
                found.push(item)?;
                after = next;
            }
            Err(Stop::Refused) => return Ok((found, after)),
            Err(Stop::TooDeep) => return Err(Stop::TooDeep),
            Err(Stop::NoMemory) => return Err(Stop::NoMemory),
        }
    }
    Ok((found, after))
}

#[tactic(auto, unfolding(query_terms::specs::Grammar::for_clause))]
fn for_clause<
    'a,
    F: Fn(Global, QuerySource<'a>, Nest, &'a str) -> Result<(Boxed<Expr>, &'a str), Stop>,
>(descent: &Descent<'a, F>, rest: &'a str) -> Result<(Items<Clause>, &'a str), Stop>
    requires { Nests descent.now.source (F.pre descent.now.nested) (F.post descent.now.nested) }
    ensures { Opens clauses (at descent.now.source spec.for_clause rest.now) result }
{
    let after = descent.keyword(rest, "for")?;
    let (first, after) = for_variable(descent, after)?;
    let (others, after) = next_for_variables(descent, after)?;
    Ok((with_others(descent.alloc, first, others)?, after))
}

#[tactic(auto, unfolding(query_terms::specs::Grammar::let_variable))]
fn let_variable<
    'a,
    F: Fn(Global, QuerySource<'a>, Nest, &'a str) -> Result<(Boxed<Expr>, &'a str), Stop>,
>(descent: &Descent<'a, F>, rest: &'a str) -> Result<(Clause, &'a str), Stop>
    requires { Nests descent.now.source (F.pre descent.now.nested) (F.post descent.now.nested) }
    ensures { Opens clause (at descent.now.source spec.let_variable rest.now) result }
{
    let (variable, after) = descent.source.variable(rest).ok_or(Stop::Refused)?;
    let after = descent.blanks(after);
    let after = descent.word(after, ":=")?;
    let after = descent.blanks(after);
    let (value, after) = descent.single(after)?;
    let variable = variable.store(descent.alloc)?;
    Ok((Clause::Let { variable, value }, after))
}

#[tactic(auto, unfolding(query_terms::specs::Grammar::next_let_variable))]
fn next_let_variable<
    'a,
    F: Fn(Global, QuerySource<'a>, Nest, &'a str) -> Result<(Boxed<Expr>, &'a str), Stop>,
>(descent: &Descent<'a, F>, rest: &'a str) -> Result<(Clause, &'a str), Stop>
    requires { Nests descent.now.source (F.pre descent.now.nested) (F.post descent.now.nested) }
    ensures { Opens clause (at descent.now.source spec.next_let_variable rest.now) result }
{
    let after = descent.blanks(rest);
    let after = descent.word(after, ",")?;
    let after = descent.blanks(after);
    let_variable(descent, after)
}

fn next_let_variables<
    'a,
    F: Fn(Global, QuerySource<'a>, Nest, &'a str) -> Result<(Boxed<Expr>, &'a str), Stop>,
>(descent: &Descent<'a, F>, rest: &'a str) -> Result<(Items<Clause>, &'a str), Stop>
    requires { Nests descent.now.source (F.pre descent.now.nested) (F.post descent.now.nested) }
    ensures { Gathers spec.clauses_in (at descent.now.source (many spec.next_let_variable) rest.now) result }
{
    let mut found = Items::new(descent.alloc);
    let mut after = rest;
    for _turn in 0..rest.len() + 1 {
        match next_let_variable(descent, after) {
            Ok((item, next)) => {
                found.push(item)?;
                after = next;
            }
            Err(Stop::Refused) => return Ok((found, after)),
            Err(Stop::TooDeep) => return Err(Stop::TooDeep),
            Err(Stop::NoMemory) => return Err(Stop::NoMemory),
        }
    }
    Ok((found, after))
}

#[tactic(auto, unfolding(query_terms::specs::Grammar::let_clause))]
fn let_clause<
    'a,
    F: Fn(Global, QuerySource<'a>, Nest, &'a str) -> Result<(Boxed<Expr>, &'a str), Stop>,
>(descent: &Descent<'a, F>, rest: &'a str) -> Result<(Items<Clause>, &'a str), Stop>
    requires { Nests descent.now.source (F.pre descent.now.nested) (F.post descent.now.nested) }
    ensures { Opens clauses (at descent.now.source spec.let_clause rest.now) result }
{
    let after = descent.keyword(rest, "let")?;
    let (first, after) = let_variable(descent, after)?;
    let (others, after) = next_let_variables(descent, after)?;
    Ok((with_others(descent.alloc, first, others)?, after))
}

fn for_or_let<
    'a,
    F: Fn(Global, QuerySource<'a>, Nest, &'a str) -> Result<(Boxed<Expr>, &'a str), Stop>,
>(descent: &Descent<'a, F>, rest: &'a str) -> Result<(Items<Clause>, &'a str), Stop>
    requires { Nests descent.now.source (F.pre descent.now.nested) (F.post descent.now.nested) }
    ensures { Opens clauses (at descent.now.source (alt spec.for_clause spec.let_clause) rest.now) result }
{
    if let Some(found) = tried(for_clause(descent, rest))? {
        return Ok(found);
    }
    let_clause(descent, rest)
}

#[tactic(auto, unfolding(query_terms::specs::Grammar::binding_clause))]
fn binding_clause<
    'a,
    F: Fn(Global, QuerySource<'a>, Nest, &'a str) -> Result<(Boxed<Expr>, &'a str), Stop>,
>(descent: &Descent<'a, F>, rest: &'a str) -> Result<(Items<Clause>, &'a str), Stop>
    requires { Nests descent.now.source (F.pre descent.now.nested) (F.post descent.now.nested) }
    ensures { Opens clauses (at descent.now.source spec.binding_clause rest.now) result }
{
    let (found, after) = for_or_let(descent, rest)?;
    Ok((found, descent.blanks(after)))
}

fn next_binding_clauses<
    'a,
    F: Fn(Global, QuerySource<'a>, Nest, &'a str) -> Result<(Boxed<Expr>, &'a str), Stop>,
>(descent: &Descent<'a, F>, rest: &'a str) -> Result<(Items<Clause>, &'a str), Stop>
    requires { Nests descent.now.source (F.pre descent.now.nested) (F.post descent.now.nested) }
    ensures { Gathers spec.clauses_in (at descent.now.source (many spec.binding_clause) rest.now) result }
{
    let mut found = Items::new(descent.alloc);
    let mut after = rest;
    for _turn in 0..rest.len() + 1 {
        match binding_clause(descent, after) {
            Ok((item, next)) => {
                found.append(item)?;
                after = next;
            }
            Err(Stop::Refused) => return Ok((found, after)),
            Err(Stop::TooDeep) => return Err(Stop::TooDeep),
            Err(Stop::NoMemory) => return Err(Stop::NoMemory),
        }
    }
    Ok((found, after))
}

#[tactic(auto, unfolding(query_terms::specs::Grammar::binding_clauses))]
pub(crate) fn binding_clauses<
    'a,
    F: Fn(Global, QuerySource<'a>, Nest, &'a str) -> Result<(Boxed<Expr>, &'a str), Stop>,
>(descent: &Descent<'a, F>, rest: &'a str) -> Result<(Items<Clause>, &'a str), Stop>
    requires { Nests descent.now.source (F.pre descent.now.nested) (F.post descent.now.nested) }
    ensures { Opens clauses (at descent.now.source spec.binding_clauses rest.now) result }
{
    let (mut found, after) = binding_clause(descent, rest)?;
    let (others, after) = next_binding_clauses(descent, after)?;
    found.append(others)?;
    Ok((found, after))
}

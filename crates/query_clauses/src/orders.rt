// The keys of `order by` (XQuery 1.0, section 3.8.3).
ghost use Rattle.std.specs.Prelude.{◌≡◌, ◌∷◌, IfOk, Ok, codes, true, false};
ghost use Rattle.query_terms.specs.Rule.{nothing, flag, key, keys, opt, alt, many};
ghost use Rattle.query_terms.specs.Lexis.{giving, keyword};
ghost use Rattle.query_terms.specs.Grammar as spec;
ghost use Rattle.query_tokens.specs.Reads.{at, Reads};
ghost use Rattle.query_tokens.specs.Descends.{Nests, Opens, Gathers};
ghost use Rattle.query_clauses.specs.Parts.{as_maybe_flag, as_maybe_keys};

use query_terms::{Expr, Nest, OrderKey, Stop};
use query_tokens::{Descent, QuerySource, tried};
use sqlite_items::{Boxed, Items};
use std::alloc::Global;
use tree_model::NoMemory;

// Whether it is `descending`.
fn direction_word<'a>(source: &QuerySource<'a>, rest: &'a str) -> Option<(bool, &'a str)>
    ensures { Reads flag (at source.now (alt (giving (flag false) (keyword (codes "ascending"))) (giving (flag true) (keyword (codes "descending")))) rest.now) result }
{
    if let Some(after) = source.keyword(rest, "ascending") {
        return Some((false, after));
    }
    let after = source.keyword(rest, "descending")?;
    Some((true, after))
}

#[tactic(auto, unfolding(query_terms::specs::Grammar::direction))]
fn direction<'a>(source: &QuerySource<'a>, rest: &'a str) -> Option<(bool, &'a str)>
    ensures { Reads flag (at source.now spec.direction rest.now) result }
{
    let after = source.blanks(rest);
    direction_word(source, after)
}

// Whether it is `greatest`.
fn empty_word<'a>(source: &QuerySource<'a>, rest: &'a str) -> Option<(bool, &'a str)>
    ensures { Reads flag (at source.now (alt (giving (flag true) (keyword (codes "greatest"))) (giving (flag false) (keyword (codes "least")))) rest.now) result }
{
    if let Some(after) = source.keyword(rest, "greatest") {
        return Some((true, after));
    }
    let after = source.keyword(rest, "least")?;
    Some((false, after))
}

#[tactic(auto, unfolding(query_terms::specs::Grammar::empty_order))]
fn empty_order<'a>(source: &QuerySource<'a>, rest: &'a str) -> Option<(bool, &'a str)>
    ensures { Reads flag (at source.now spec.empty_order rest.now) result }
{
    let after = source.blanks(rest);
    let after = source.keyword(after, "empty")?;
    empty_word(source, after)
}

fn maybe_direction<'a>(source: &QuerySource<'a>, rest: &'a str) -> (Option<bool>, &'a str)
    ensures { at source.now (opt spec.direction) rest.now ≡ Ok (as_maybe_flag result.0, result.1.now) }
{
    match direction(source, rest) {
        Some((found, after)) => (Some(found), after),
        None => (None, rest),
    }
}

fn maybe_empty_order<'a>(source: &QuerySource<'a>, rest: &'a str) -> (Option<bool>, &'a str)
    ensures { at source.now (opt spec.empty_order) rest.now ≡ Ok (as_maybe_flag result.0, result.1.now) }
{
    match empty_order(source, rest) {
        Some((found, after)) => (Some(found), after),
        None => (None, rest),
    }
}

#[tactic(auto, unfolding(query_terms::specs::Grammar::stable))]
fn stable<'a>(source: &QuerySource<'a>, rest: &'a str) -> &'a str
    ensures { at source.now spec.stable rest.now ≡ Ok (nothing, result.now) }
{
    match source.keyword(rest, "stable") {
        Some(after) => after,
        None => rest,
    }
}

pub(crate) fn is_set(found: Option<bool>) -> bool
    ensures { result ≡ spec.is_flagged (as_maybe_flag found) }
{
    match found {
        Some(found) => found,
        None => false,
    }
}

fn with_others(
    alloc: Global,
    first: OrderKey,
    others: Items<OrderKey>,
) -> Result<Items<OrderKey>, NoMemory>
    ensures { IfOk result (λ found. found ≡ first ∷ others) }
{
    let mut found = Items::new(alloc);
    found.push(first)?;
    found.append(others)?;
    Ok(found)
}

#[tactic(auto, unfolding(query_terms::specs::Grammar::order_key))]
fn order_key<
    'a,
    F: Fn(Global, QuerySource<'a>, Nest, &'a str) -> Result<(Boxed<Expr>, &'a str), Stop>,
>(descent: &Descent<'a, F>, rest: &'a str) -> Result<(OrderKey, &'a str), Stop>
    requires { Nests descent.now.source (F.pre descent.now.nested) (F.post descent.now.nested) }
    ensures { Opens key (at descent.now.source spec.order_key rest.now) result }
{
    let (key, after) = descent.single(rest)?;
    let (direction, after) = maybe_direction(&descent.source, after);
    let (empty, after) = maybe_empty_order(&descent.source, after);
    let is_descending = is_set(direction);
    let is_empty_greatest = is_set(empty);
    Ok((
        OrderKey {
            key,
            is_descending,
            is_empty_greatest,
        },
        after,
    ))
}

#[tactic(auto, unfolding(query_terms::specs::Grammar::next_order_key))]
fn next_order_key<
    'a,
    F: Fn(Global, QuerySource<'a>, Nest, &'a str) -> Result<(Boxed<Expr>, &'a str), Stop>,
>(descent: &Descent<'a, F>, rest: &'a str) -> Result<(OrderKey, &'a str), Stop>
    requires { Nests descent.now.source (F.pre descent.now.nested) (F.post descent.now.nested) }
    ensures { Opens key (at descent.now.source spec.next_order_key rest.now) result }
{
    let after = descent.blanks(rest);
    let after = descent.word(after, ",")?;
    let after = descent.blanks(after);
    order_key(descent, after)
}

fn next_order_keys<
    'a,
    F: Fn(Global, QuerySource<'a>, Nest, &'a str) -> Result<(Boxed<Expr>, &'a str), Stop>,
>(descent: &Descent<'a, F>, rest: &'a str) -> Result<(Items<OrderKey>, &'a str), Stop>
    requires { Nests descent.now.source (F.pre descent.now.nested) (F.post descent.now.nested) }
    ensures { Gathers spec.keys_in (at descent.now.source (many spec.next_order_key) rest.now) result }
{
    let mut found = Items::new(descent.alloc);
    let mut after = rest;
    for _turn in 0..rest.len() + 1 {
        match next_order_key(descent, after) {
            Ok((item, next)) => {
                found.push(item)?;
                after = next;
            }
            Err(Stop::Refused) => return Ok((found, after)),
            Err(Stop::TooDeep) => return Err(Stop::TooDeep),
            Err(Stop::NoMemory) => return Err(Stop::NoMemory),
        }
    }
    Ok((found, after))
}

#[tactic(auto, unfolding(query_terms::specs::Grammar::order_by))]
fn order_by<
    'a,
    F: Fn(Global, QuerySource<'a>, Nest, &'a str) -> Result<(Boxed<Expr>, &'a str), Stop>,
>(descent: &Descent<'a, F>, rest: &'a str) -> Result<(Items<OrderKey>, &'a str), Stop>
    requires { Nests descent.now.source (F.pre descent.now.nested) (F.post descent.now.nested) }
    ensures { Opens keys (at descent.now.source spec.order_by rest.now) result }
{
    let after = stable(&descent.source, rest);
    let after = descent.keyword(after, "order")?;
    let after = descent.keyword(after, "by")?;
    let (first, after) = order_key(descent, after)?;
    let (others, after) = next_order_keys(descent, after)?;
    Ok((with_others(descent.alloc, first, others)?, after))
}

#[tactic(auto, unfolding(query_terms::specs::Grammar::order_clause))]
fn order_clause<
    'a,
    F: Fn(Global, QuerySource<'a>, Nest, &'a str) -> Result<(Boxed<Expr>, &'a str), Stop>,
>(descent: &Descent<'a, F>, rest: &'a str) -> Result<(Items<OrderKey>, &'a str), Stop>
    requires { Nests descent.now.source (F.pre descent.now.nested) (F.post descent.now.nested) }
    ensures { Opens keys (at descent.now.source spec.order_clause rest.now) result }
{
    let (found, after) = order_by(descent, rest)?;
    Ok((found, descent.blanks(after)))
}

pub(crate) fn maybe_order_clause<
    'a,
    F: Fn(Global, QuerySource<'a>, Nest, &'a str) -> Result<(Boxed<Expr>, &'a str), Stop>,
>(descent: &Descent<'a, F>, rest: &'a str) -> Result<(Option<Items<OrderKey>>, &'a str), Stop>
    requires { Nests descent.now.source (F.pre descent.now.nested) (F.post descent.now.nested) }
    ensures { Opens as_maybe_keys (at descent.now.source (opt spec.order_clause) rest.now) result }
{
    match tried(order_clause(descent, rest))? {
        Some((found, after)) => Ok((Some(found), after)),
        None => Ok((None, rest)),
    }
}

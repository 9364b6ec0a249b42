// What nests: expressions without a comma, and elements. At most 200 are open at a place.
ghost use Rattle.std.specs.Prelude.{◌≡◌};
ghost use Rattle.query_terms.specs.Rule.{term, call, nested as nested_rule};
ghost use Rattle.query_terms.specs.Grammar as spec;
ghost use Rattle.query_tokens.specs.Reads.{at};
ghost use Rattle.query_tokens.specs.Descends.{Nests, Opens};

use query_clauses::{conditional, delete, flwor, insert, quantified, rename, replace};
use query_constructors::element;
use query_operators::disjunction;
use query_terms::{Expr, Nest, Stop};
use query_tokens::{Descent, QuerySource, tried};
use sqlite_items::Boxed;
use std::alloc::Global;

// An expression without a comma (XQuery 1.0, section 3; XQuery Update Facility 1.0, section 2.4).
#[tactic(auto, unfolding(query_terms::specs::Grammar::single_rule))]
fn single_rule<
    'a,
    F: Fn(Global, QuerySource<'a>, Nest, &'a str) -> Result<(Boxed<Expr>, &'a str), Stop>,
>(descent: &Descent<'a, F>, rest: &'a str) -> Result<(Boxed<Expr>, &'a str), Stop>
    requires { Nests descent.now.source (F.pre descent.now.nested) (F.post descent.now.nested) }
    ensures { Opens term (at descent.now.source spec.single_rule rest.now) result }
{
    if let Some(found) = tried(flwor(descent, rest))? {
        return Ok(found);
    }
    if let Some(found) = tried(quantified(descent, rest))? {
        return Ok(found);
    }
    if let Some(found) = tried(conditional(descent, rest))? {
        return Ok(found);
    }
    if let Some(found) = tried(insert(descent, rest))? {
        return Ok(found);
    }
    if let Some(found) = tried(delete(descent, rest))? {
        return Ok(found);
    }
    if let Some(found) = tried(replace(descent, rest))? {
        return Ok(found);
    }
    if let Some(found) = tried(rename(descent, rest))? {
        return Ok(found);
    }
    disjunction(descent, rest)
}

// Opens a nest, where fewer than 200 are open.
pub(crate) fn nested<'a>(
    alloc: Global,
    source: QuerySource<'a>,
    nest: Nest,
    rest: &'a str,
) -> Result<(Boxed<Expr>, &'a str), Stop>
    ensures { Opens term (at source.entry (call (nested_rule nest)) rest.now) result }
{
    if source.room == 0 {
        return Err(Stop::TooDeep);
    }
    let descent = Descent {
        alloc,
        source: QuerySource {
            query: source.query,
            comment_ends: source.comment_ends,
            room: source.room - 1,
        },
        nested,
    };
    match nest {
        Nest::Single => single_rule(&descent, rest),
        Nest::Elem => element(&descent, rest),
    }
}

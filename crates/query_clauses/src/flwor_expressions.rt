// FLWOR expressions (XQuery 1.0, section 3.8).
ghost use Rattle.std.specs.Prelude.{◌≡◌};
ghost use Rattle.query_terms.specs.Rule.{term, opt};
ghost use Rattle.query_terms.specs.Grammar as spec;
ghost use Rattle.query_tokens.specs.Reads.{at};
ghost use Rattle.query_tokens.specs.Descends.{Nests, Opens};
ghost use Rattle.query_clauses.specs.Parts.{as_maybe_term};

use crate::bindings::binding_clauses;
use crate::orders::maybe_order_clause;
use query_terms::{Expr, Nest, Stop};
use query_tokens::{Descent, QuerySource, tried};
use sqlite_items::{Boxed, Items};
use std::alloc::Global;

#[tactic(auto, unfolding(query_terms::specs::Grammar::where_clause))]
fn where_clause<
    'a,
    F: Fn(Global, QuerySource<'a>, Nest, &'a str) -> Result<(Boxed<Expr>, &'a str), Stop>,
>(descent: &Descent<'a, F>, rest: &'a str) -> Result<(Boxed<Expr>, &'a str), Stop>
    requires { Nests descent.now.source (F.pre descent.now.nested) (F.post descent.now.nested) }
    ensures { Opens term (at descent.now.source spec.where_clause rest.now) result }
{
    let after = descent.keyword(rest, "where")?;
    let (found, after) = descent.single(after)?;
    Ok((found, descent.blanks(after)))
}

fn maybe_where_clause<
    'a,
    F: Fn(Global, QuerySource<'a>, Nest, &'a str) -> Result<(Boxed<Expr>, &'a str), Stop>,
>(descent: &Descent<'a, F>, rest: &'a str) -> Result<(Option<Boxed<Expr>>, &'a str), Stop>
    requires { Nests descent.now.source (F.pre descent.now.nested) (F.post descent.now.nested) }
    ensures { Opens as_maybe_term (at descent.now.source (opt spec.where_clause) rest.now) result }
{
    match tried(where_clause(descent, rest))? {
        Some((found, after)) => Ok((Some(found), after)),
        None => Ok((None, rest)),
    }
}

#[tactic(auto, unfolding(query_terms::specs::Grammar::returned))]
fn returned<
    'a,
    F: Fn(Global, QuerySource<'a>, Nest, &'a str) -> Result<(Boxed<Expr>, &'a str), Stop>,
>(descent: &Descent<'a, F>, rest: &'a str) -> Result<(Boxed<Expr>, &'a str), Stop>
    requires { Nests descent.now.source (F.pre descent.now.nested) (F.post descent.now.nested) }
    ensures { Opens term (at descent.now.source spec.returned rest.now) result }
{
    let after = descent.keyword(rest, "return")?;
    descent.single(after)
}

/// A FLWOR expression.
#[tactic(auto, unfolding(query_terms::specs::Grammar::flwor))]
pub fn flwor<
    'a,
    F: Fn(Global, QuerySource<'a>, Nest, &'a str) -> Result<(Boxed<Expr>, &'a str), Stop>,
>(descent: &Descent<'a, F>, rest: &'a str) -> Result<(Boxed<Expr>, &'a str), Stop>
    requires { Nests descent.now.source (F.pre descent.now.nested) (F.post descent.now.nested) }
    ensures { Opens term (at descent.now.source spec.flwor rest.now) result }
{
    let (clauses, after) = binding_clauses(descent, rest)?;
    let (condition, after) = maybe_where_clause(descent, after)?;
    let (found, after) = maybe_order_clause(descent, after)?;
    let (result, after) = returned(descent, after)?;
    let span = descent.source.span(rest, after);
    let order = match found {
        Some(order) => order,
        None => Items::new(descent.alloc),
    };
    let term = Expr::Flwor {
        span,
        clauses,
        condition,
        order,
        result,
    };
    Ok((Boxed::new(descent.alloc, term)?, after))
}

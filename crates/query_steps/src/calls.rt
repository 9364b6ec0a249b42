// Calls of functions (XQuery 1.0, section 3.1.5).
ghost use Rattle.std.specs.Prelude.{◌≡◌, ◌∷◌, IfOk};
ghost use Rattle.query_terms.specs.Rule.{term, terms, opt};
ghost use Rattle.query_terms.specs.Grammar as spec;
ghost use Rattle.query_tokens.specs.Reads.{at};
ghost use Rattle.query_tokens.specs.Descends.{Nests, Opens};
ghost use Rattle.query_steps.specs.Parts.{as_maybe_terms};

use crate::reserved::reserved;
use query_terms::{Expr, Nest, Stop};
use query_tokens::{Descent, QuerySource, tried};
use sqlite_items::{Boxed, Items};
use std::alloc::Global;
use tree_model::NoMemory;

fn with_others(
    alloc: Global,
    first: Boxed<Expr>,
    others: Items<Expr>,
) -> Result<Items<Expr>, NoMemory>
    ensures { IfOk result (λ found. found ≡ first ∷ others) }
{
    let mut found = Items::new(alloc);
    found.push(first.into_inner())?;
    found.append(others)?;
    Ok(found)
}

#[tactic(auto, unfolding(query_terms::specs::Grammar::arguments))]
fn arguments<
    'a,
    F: Fn(Global, QuerySource<'a>, Nest, &'a str) -> Result<(Boxed<Expr>, &'a str), Stop>,
>(descent: &Descent<'a, F>, rest: &'a str) -> Result<(Items<Expr>, &'a str), Stop>
    requires { Nests descent.now.source (F.pre descent.now.nested) (F.post descent.now.nested) }
    ensures { Opens terms (at descent.now.source spec.arguments rest.now) result }
{
    let (first, after) = descent.single(rest)?;
    let (others, after) = descent.more_singles(after)?;
    Ok((with_others(descent.alloc, first, others)?, after))
}

fn maybe_arguments<
    'a,
    F: Fn(Global, QuerySource<'a>, Nest, &'a str) -> Result<(Boxed<Expr>, &'a str), Stop>,
>(descent: &Descent<'a, F>, rest: &'a str) -> Result<(Option<Items<Expr>>, &'a str), Stop>
    requires { Nests descent.now.source (F.pre descent.now.nested) (F.post descent.now.nested) }
    ensures { Opens as_maybe_terms (at descent.now.source (opt spec.arguments) rest.now) result }
{
    match tried(arguments(descent, rest))? {
        Some((found, after)) => Ok((Some(found), after)),
        None => Ok((None, rest)),
    }
}

#[tactic(auto, unfolding(query_terms::specs::Grammar::argument_list))]
fn argument_list<
    'a,
    F: Fn(Global, QuerySource<'a>, Nest, &'a str) -> Result<(Boxed<Expr>, &'a str), Stop>,
>(descent: &Descent<'a, F>, rest: &'a str) -> Result<(Option<Items<Expr>>, &'a str), Stop>
    requires { Nests descent.now.source (F.pre descent.now.nested) (F.post descent.now.nested) }
    ensures { Opens as_maybe_terms (at descent.now.source spec.argument_list rest.now) result }
{
    let after = descent.blanks(rest);
    let after = descent.word(after, "(")?;
    let after = descent.blanks(after);
    let (found, after) = maybe_arguments(descent, after)?;
    let after = descent.blanks(after);
    let after = descent.word(after, ")")?;
    Ok((found, after))
}

#[tactic(auto, unfolding(query_terms::specs::Grammar::function_call))]
pub(crate) fn call<
    'a,
    F: Fn(Global, QuerySource<'a>, Nest, &'a str) -> Result<(Boxed<Expr>, &'a str), Stop>,
>(descent: &Descent<'a, F>, rest: &'a str) -> Result<(Boxed<Expr>, &'a str), Stop>
    requires { Nests descent.now.source (F.pre descent.now.nested) (F.post descent.now.nested) }
    ensures { Opens term (at descent.now.source spec.function_call rest.now) result }
{
    if reserved(&descent.source, rest).is_some() {
        return Err(Stop::Refused);
    }
    let (name, after) = descent.source.qname(rest).ok_or(Stop::Refused)?;
    let (found, after) = argument_list(descent, after)?;
    let span = descent.source.span(rest, after);
    let name = name.store(descent.alloc)?;
    let arguments = match found {
        Some(arguments) => arguments,
        None => Items::new(descent.alloc),
    };
    let term = Expr::Call {
        span,
        name,
        arguments,
        function: None,
    };
    Ok((Boxed::new(descent.alloc, term)?, after))
}

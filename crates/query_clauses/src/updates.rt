// Updating expressions (XQuery Update Facility 1.0, section 2.4).
ghost use Rattle.std.specs.Prelude.{◌≡◌, Ok};
ghost use Rattle.query_terms.specs.Rule.{term, flag, opt};
ghost use Rattle.query_terms.specs.Grammar as spec;
ghost use Rattle.query_tokens.specs.Reads.{at, Reads};
ghost use Rattle.query_tokens.specs.Descends.{Nests, Opens};
ghost use Rattle.query_clauses.specs.Parts.{as_maybe_flag};

use crate::orders::is_set;
use crate::places::{insertion_place, nodes_word};
use query_terms::{Expr, Nest, Scope, Stop};
use query_tokens::{Descent, QuerySource};
use sqlite_items::{Boxed, Items};
use std::alloc::Global;

// `value of`.
#[tactic(auto, unfolding(query_terms::specs::Grammar::value_of))]
fn value_of<'a>(source: &QuerySource<'a>, rest: &'a str) -> Option<(bool, &'a str)>
    ensures { Reads flag (at source.now spec.value_of rest.now) result }
{
    let after = source.keyword(rest, "value")?;
    let after = source.keyword(after, "of")?;
    Some((true, after))
}

fn maybe_value_of<'a>(source: &QuerySource<'a>, rest: &'a str) -> (Option<bool>, &'a str)
    ensures { at source.now (opt spec.value_of) rest.now ≡ Ok (as_maybe_flag result.0, result.1.now) }
{
    match value_of(source, rest) {
        Some((found, after)) => (Some(found), after),
        None => (None, rest),
    }
}

/// An insertion (section 2.4.1).
#[tactic(auto, unfolding(query_terms::specs::Grammar::insert))]
pub fn insert<
    'a,
    F: Fn(Global, QuerySource<'a>, Nest, &'a str) -> Result<(Boxed<Expr>, &'a str), Stop>,
>(descent: &Descent<'a, F>, rest: &'a str) -> Result<(Boxed<Expr>, &'a str), Stop>
    requires { Nests descent.now.source (F.pre descent.now.nested) (F.post descent.now.nested) }
    ensures { Opens term (at descent.now.source spec.insert rest.now) result }
{
    let after = descent.keyword(rest, "insert")?;
    let after = nodes_word(&descent.source, after).ok_or(Stop::Refused)?;
    let (source, after) = descent.single(after)?;
    let (place, after) = insertion_place(&descent.source, after).ok_or(Stop::Refused)?;
    let (target, after) = descent.single(after)?;
    let span = descent.source.span(rest, after);
    let term = Expr::Insert {
        span,
        source,
        place,
        target,
    };
    Ok((Boxed::new(descent.alloc, term)?, after))
}

/// A deletion (section 2.4.2).
#[tactic(auto, unfolding(query_terms::specs::Grammar::delete))]
pub fn delete<
    'a,
    F: Fn(Global, QuerySource<'a>, Nest, &'a str) -> Result<(Boxed<Expr>, &'a str), Stop>,
>(descent: &Descent<'a, F>, rest: &'a str) -> Result<(Boxed<Expr>, &'a str), Stop>
    requires { Nests descent.now.source (F.pre descent.now.nested) (F.post descent.now.nested) }
    ensures { Opens term (at descent.now.source spec.delete rest.now) result }
{
    let after = descent.keyword(rest, "delete")?;
    let after = nodes_word(&descent.source, after).ok_or(Stop::Refused)?;
    let (target, after) = descent.single(after)?;
    let span = descent.source.span(rest, after);
    let term = Expr::Delete { span, target };
    Ok((Boxed::new(descent.alloc, term)?, after))
}

#[tactic(auto, unfolding(query_terms::specs::Grammar::replacement))]
fn replacement<
    'a,
    F: Fn(Global, QuerySource<'a>, Nest, &'a str) -> Result<(Boxed<Expr>, &'a str), Stop>,
>(descent: &Descent<'a, F>, rest: &'a str) -> Result<(Boxed<Expr>, &'a str), Stop>
    requires { Nests descent.now.source (F.pre descent.now.nested) (F.post descent.now.nested) }
    ensures { Opens term (at descent.now.source spec.replacement rest.now) result }
{
    let after = descent.blanks(rest);
    let after = descent.keyword(after, "with")?;
    descent.single(after)
}

/// A replacement of a node or of its value (section 2.4.3).
#[tactic(auto, unfolding(query_terms::specs::Grammar::replace))]
pub fn replace<
    'a,
    F: Fn(Global, QuerySource<'a>, Nest, &'a str) -> Result<(Boxed<Expr>, &'a str), Stop>,
>(descent: &Descent<'a, F>, rest: &'a str) -> Result<(Boxed<Expr>, &'a str), Stop>
    requires { Nests descent.now.source (F.pre descent.now.nested) (F.post descent.now.nested) }
    ensures { Opens term (at descent.now.source spec.replace rest.now) result }
{
    let after = descent.keyword(rest, "replace")?;
    let (found, after) = maybe_value_of(&descent.source, after);
    let after = descent.keyword(after, "node")?;
    let (target, after) = descent.single(after)?;
    let (source, after) = replacement(descent, after)?;
    let span = descent.source.span(rest, after);
    let is_value = is_set(found);
    let term = Expr::Replace {
        span,
        is_value,
        target,
        source,
    };
    Ok((Boxed::new(descent.alloc, term)?, after))
}

#[tactic(auto, unfolding(query_terms::specs::Grammar::new_name))]
fn new_name<
    'a,
    F: Fn(Global, QuerySource<'a>, Nest, &'a str) -> Result<(Boxed<Expr>, &'a str), Stop>,
>(descent: &Descent<'a, F>, rest: &'a str) -> Result<(Boxed<Expr>, &'a str), Stop>
    requires { Nests descent.now.source (F.pre descent.now.nested) (F.post descent.now.nested) }
    ensures { Opens term (at descent.now.source spec.new_name rest.now) result }
{
    let after = descent.blanks(rest);
    let after = descent.keyword(after, "as")?;
    descent.single(after)
}

/// A renaming (section 2.4.4).
#[tactic(auto, unfolding(query_terms::specs::Grammar::rename))]
pub fn rename<
    'a,
    F: Fn(Global, QuerySource<'a>, Nest, &'a str) -> Result<(Boxed<Expr>, &'a str), Stop>,
>(descent: &Descent<'a, F>, rest: &'a str) -> Result<(Boxed<Expr>, &'a str), Stop>
    requires { Nests descent.now.source (F.pre descent.now.nested) (F.post descent.now.nested) }
    ensures { Opens term (at descent.now.source spec.rename rest.now) result }
{
    let after = descent.keyword(rest, "rename")?;
    let after = descent.keyword(after, "node")?;
    let (target, after) = descent.single(after)?;
    let (name, after) = new_name(descent, after)?;
    let span = descent.source.span(rest, after);
    let scope = Scope {
        bindings: Items::new(descent.alloc),
    };
    let term = Expr::Rename {
        span,
        target,
        name,
        scope,
    };
    Ok((Boxed::new(descent.alloc, term)?, after))
}

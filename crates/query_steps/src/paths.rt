// Paths (XQuery 1.0, section 3.2).
ghost use Rattle.std.specs.Prelude.{◌≡◌, IfOk};
ghost use Rattle.query_terms.specs.Rule.{term, opt};
ghost use Rattle.query_terms.specs.Grammar as spec;
ghost use Rattle.query_tokens.specs.Reads.{at};
ghost use Rattle.query_tokens.specs.Descends.{Nests, Opens};
ghost use Rattle.query_steps.specs.Parts.{as_relative, as_maybe_relative};

use crate::steps::{next_steps, step};
use query_terms::{Expr, Nest, PathStart, PathStep, Span, Stop};
use query_tokens::{Descent, QuerySource, tried};
use sqlite_items::{Boxed, Items};
use std::alloc::Global;
use tree_model::NoMemory;

// A step, and those behind it.
#[derive(Drop)]
pub(crate) struct Relative {
    first: Boxed<Expr>,
    others: Items<PathStep>,
}

fn path_term(
    alloc: Global,
    span: Span,
    start: PathStart,
    relative: Relative,
) -> Result<Boxed<Expr>, NoMemory>
    ensures { IfOk result (λ e. term e ≡ spec.path_of span start (as_relative relative)) }
{
    let Relative { first, others } = relative;
    let path = Expr::Path {
        span,
        start,
        first,
        others,
    };
    Boxed::new(alloc, path)
}

// `/` alone where nothing is behind it.
fn rooted(alloc: Global, span: Span, relative: Option<Relative>) -> Result<Boxed<Expr>, NoMemory>
    ensures { IfOk result (λ e. term e ≡ spec.rooted_as span (as_maybe_relative relative)) }
{
    match relative {
        Some(relative) => path_term(alloc, span, PathStart::Root, relative),
        None => Boxed::new(alloc, Expr::Root { span }),
    }
}

// One step alone is itself.
fn relative_term(
    alloc: Global,
    span: Span,
    first: Boxed<Expr>,
    others: Items<PathStep>,
) -> Result<Boxed<Expr>, NoMemory>
    ensures { IfOk result (λ e. e ≡ spec.relative_as span first others) }
{
    if others.is_empty() {
        return Ok(first);
    }
    let path = Expr::Path {
        span,
        start: PathStart::Context,
        first,
        others,
    };
    Boxed::new(alloc, path)
}

#[tactic(auto, unfolding(query_terms::specs::Grammar::relative))]
fn read_relative<
    'a,
    F: Fn(Global, QuerySource<'a>, Nest, &'a str) -> Result<(Boxed<Expr>, &'a str), Stop>,
>(descent: &Descent<'a, F>, rest: &'a str) -> Result<(Relative, &'a str), Stop>
    requires { Nests descent.now.source (F.pre descent.now.nested) (F.post descent.now.nested) }
    ensures { Opens as_relative (at descent.now.source spec.relative rest.now) result }
{
    let (first, after) = step(descent, rest)?;
    let (others, after) = next_steps(descent, after)?;
    Ok((Relative { first, others }, after))
}

#[tactic(auto, unfolding(query_terms::specs::Grammar::deep_path))]
fn deep_path<
    'a,
    F: Fn(Global, QuerySource<'a>, Nest, &'a str) -> Result<(Boxed<Expr>, &'a str), Stop>,
>(descent: &Descent<'a, F>, rest: &'a str) -> Result<(Boxed<Expr>, &'a str), Stop>
    requires { Nests descent.now.source (F.pre descent.now.nested) (F.post descent.now.nested) }
    ensures { Opens term (at descent.now.source spec.deep_path rest.now) result }
{
    let after = descent.word(rest, "//")?;
    let after = descent.blanks(after);
    let (relative, after) = read_relative(descent, after)?;
    let span = descent.source.span(rest, after);
    let path = path_term(descent.alloc, span, PathStart::BelowRoot, relative)?;
    Ok((path, after))
}

#[tactic(auto, unfolding(query_terms::specs::Grammar::below_root))]
fn below_root<
    'a,
    F: Fn(Global, QuerySource<'a>, Nest, &'a str) -> Result<(Boxed<Expr>, &'a str), Stop>,
>(descent: &Descent<'a, F>, rest: &'a str) -> Result<(Relative, &'a str), Stop>
    requires { Nests descent.now.source (F.pre descent.now.nested) (F.post descent.now.nested) }
    ensures { Opens as_relative (at descent.now.source spec.below_root rest.now) result }
{
    let after = descent.blanks(rest);
    read_relative(descent, after)
}

fn maybe_below_root<
    'a,
    F: Fn(Global, QuerySource<'a>, Nest, &'a str) -> Result<(Boxed<Expr>, &'a str), Stop>,
>(descent: &Descent<'a, F>, rest: &'a str) -> Result<(Option<Relative>, &'a str), Stop>
    requires { Nests descent.now.source (F.pre descent.now.nested) (F.post descent.now.nested) }
    ensures { Opens as_maybe_relative (at descent.now.source (opt spec.below_root) rest.now) result }
{
    match tried(below_root(descent, rest))? {
        Some((found, after)) => Ok((Some(found), after)),
        None => Ok((None, rest)),
    }
}

#[tactic(auto, unfolding(query_terms::specs::Grammar::rooted_path))]
fn rooted_path<
    'a,
    F: Fn(Global, QuerySource<'a>, Nest, &'a str) -> Result<(Boxed<Expr>, &'a str), Stop>,
>(descent: &Descent<'a, F>, rest: &'a str) -> Result<(Boxed<Expr>, &'a str), Stop>
    requires { Nests descent.now.source (F.pre descent.now.nested) (F.post descent.now.nested) }
    ensures { Opens term (at descent.now.source spec.rooted_path rest.now) result }
{
    let after = descent.word(rest, "/")?;
    let (relative, after) = maybe_below_root(descent, after)?;
    let span = descent.source.span(rest, after);
    Ok((rooted(descent.alloc, span, relative)?, after))
}

#[tactic(auto, unfolding(query_terms::specs::Grammar::relative_path))]
fn relative_path<
    'a,
    F: Fn(Global, QuerySource<'a>, Nest, &'a str) -> Result<(Boxed<Expr>, &'a str), Stop>,
>(descent: &Descent<'a, F>, rest: &'a str) -> Result<(Boxed<Expr>, &'a str), Stop>
    requires { Nests descent.now.source (F.pre descent.now.nested) (F.post descent.now.nested) }
    ensures { Opens term (at descent.now.source spec.relative_path rest.now) result }
{
    let (relative, after) = read_relative(descent, rest)?;
    let span = descent.source.span(rest, after);
    let Relative { first, others } = relative;
    Ok((relative_term(descent.alloc, span, first, others)?, after))
}

/// A path, or a step alone.
#[tactic(auto, unfolding(query_terms::specs::Grammar::path))]
pub fn path<
    'a,
    F: Fn(Global, QuerySource<'a>, Nest, &'a str) -> Result<(Boxed<Expr>, &'a str), Stop>,
>(descent: &Descent<'a, F>, rest: &'a str) -> Result<(Boxed<Expr>, &'a str), Stop>
    requires { Nests descent.now.source (F.pre descent.now.nested) (F.post descent.now.nested) }
    ensures { Opens term (at descent.now.source spec.path rest.now) result }
{
    if let Some(found) = tried(deep_path(descent, rest))? {
        return Ok(found);
    }
    if let Some(found) = tried(rooted_path(descent, rest))? {
        return Ok(found);
    }
    relative_path(descent, rest)
}

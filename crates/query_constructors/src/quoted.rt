// What stands between the quotes of an attribute (XQuery 1.0, section 3.7.1.1).
ghost use Rattle.std.specs.Prelude.{◌≡◌, IfOk, not, if◌then◌else◌};
ghost use Rattle.std.specs.List.{list_any};
ghost use Rattle.query_terms.specs.Constructors.{encloses_constructor as encloses};
ghost use Rattle.query_terms.specs.Rule.{text, absent, many};
ghost use Rattle.query_terms.specs.Markup as spec;
ghost use Rattle.query_tokens.specs.Reads.{at, quote_code};
ghost use Rattle.query_tokens.specs.Descends.{Nests, Opens};
ghost use Rattle.query_constructors.specs.Runs.{as_maybe_text, as_piece, as_quoted, Piles};

use crate::run::{Piece, Run};
use constructor_search::holds_constructor;
use query_terms::{Content, Expr, Nest, Stop};
use query_tokens::{Descent, QuerySource, Quote, front, tried};
use sqlite_items::{Boxed, Items};
use std::alloc::Global;
use tree_model::{NoMemory, Text};

// The value of an attribute, and the text between its quotes where an expression is enclosed there.
#[derive(Drop)]
pub(crate) struct Quoted {
    pub(crate) value: Items<Content>,
    pub(crate) written: Option<Text>,
}

fn is_enclosed(part: &Content) -> bool
    ensures { result ≡ spec.is_enclosed part.now }
{
    match part {
        Content::Enclosed(_) => true,
        Content::Characters(_) | Content::Constructor(_) => false,
    }
}

fn encloses_constructor(part: &Content) -> bool
    ensures { result ≡ encloses part.now }
{
    match part {
        Content::Characters(_) => false,
        Content::Enclosed(body) => holds_constructor(body.get()),
        Content::Constructor(_) => true,
    }
}

fn has_constructor(parts: &[Content]) -> bool
    ensures { result ≡ list_any encloses parts.now }
{
    parts.iter().any(encloses_constructor)
}

fn has_expression(parts: &[Content]) -> bool
    ensures { result ≡ list_any spec.is_enclosed parts.now }
{
    parts.iter().any(is_enclosed)
}

// The text where an expression is enclosed in it.
fn written(alloc: Global, parts: &[Content], between: &str) -> Result<Option<Text>, NoMemory>
    ensures { IfOk result (λ t. as_maybe_text t ≡ (if list_any spec.is_enclosed parts.now then text between.now else absent)) }
{
    if has_expression(parts) {
        Ok(Some(Text::of(alloc, between)?))
    } else {
        Ok(None)
    }
}

#[tactic(auto, unfolding(query_terms::specs::Markup::quoted_piece, query_terms::specs::Markup::enclosed_content))]
fn quoted_piece<
    'a,
    F: Fn(Global, QuerySource<'a>, Nest, &'a str) -> Result<(Boxed<Expr>, &'a str), Stop>,
>(descent: &Descent<'a, F>, rest: &'a str, quote: Quote) -> Result<(Piece, &'a str), Stop>
    requires { Nests descent.now.source (F.pre descent.now.nested) (F.post descent.now.nested) }
    ensures { Opens as_piece (at descent.now.source (spec.quoted_piece (quote_code quote)) rest.now) result }
{
    if let Some((found, after)) = descent.source.quoted_escape(rest, quote) {
        return Ok((Piece::Solid(found), after));
    }
    if let Some((body, after)) = tried(descent.enclosed(rest))? {
        return Ok((Piece::Enclosed(body), after));
    }
    let (found, after) = descent
        .source
        .quoted_plain(rest, quote)
        .ok_or(Stop::Refused)?;
    Ok((Piece::Solid(found), after))
}

fn quoted_run<
    'a,
    F: Fn(Global, QuerySource<'a>, Nest, &'a str) -> Result<(Boxed<Expr>, &'a str), Stop>,
>(descent: &Descent<'a, F>, rest: &'a str, quote: Quote) -> Result<(Run, &'a str), Stop>
    requires { Nests descent.now.source (F.pre descent.now.nested) (F.post descent.now.nested) }
    ensures { Piles (at descent.now.source (many (spec.quoted_piece (quote_code quote))) rest.now) result }
{
    let mut run = Run::new(descent.alloc);
    let mut after = rest;
    for _turn in 0..rest.len() + 1 {
        match quoted_piece(descent, after, quote) {
            Ok((piece, next)) => {
                run.add(descent.alloc, piece)?;
                after = next;
            }
            Err(Stop::Refused) => return Ok((run, after)),
            Err(Stop::TooDeep) => return Err(Stop::TooDeep),
            Err(Stop::NoMemory) => return Err(Stop::NoMemory),
        }
    }
    Ok((run, after))
}

#[tactic(auto, unfolding(query_terms::specs::Markup::quoted_body))]
fn quoted_body<
    'a,
    F: Fn(Global, QuerySource<'a>, Nest, &'a str) -> Result<(Boxed<Expr>, &'a str), Stop>,
>(descent: &Descent<'a, F>, rest: &'a str, quote: Quote) -> Result<(Quoted, &'a str), Stop>
    requires { Nests descent.now.source (F.pre descent.now.nested) (F.post descent.now.nested) }
    ensures { Opens as_quoted (at descent.now.source (spec.quoted_body (quote_code quote)) rest.now) result }
{
    let (run, after) = quoted_run(descent, rest, quote)?;
    let value = run.close(descent.alloc)?;
    let written = written(descent.alloc, value.as_slice(), front(rest, after))?;
    Ok((Quoted { value, written }, after))
}

#[tactic(auto, unfolding(query_terms::specs::Markup::quoted_in))]
fn quoted_in<
    'a,
    F: Fn(Global, QuerySource<'a>, Nest, &'a str) -> Result<(Boxed<Expr>, &'a str), Stop>,
>(descent: &Descent<'a, F>, rest: &'a str, quote: Quote) -> Result<(Quoted, &'a str), Stop>
    requires { Nests descent.now.source (F.pre descent.now.nested) (F.post descent.now.nested) }
    ensures { Opens as_quoted (at descent.now.source (spec.quoted_in (quote_code quote)) rest.now) result }
{
    let after = descent.word(rest, quote.once())?;
    let (found, after) = quoted_body(descent, after, quote)?;
    let after = descent.word(after, quote.once())?;
    if has_constructor(found.value.as_slice()) {
        return Err(Stop::Refused);
    }
    Ok((found, after))
}

#[tactic(auto, unfolding(query_terms::specs::Markup::quoted))]
pub(crate) fn read_quoted<
    'a,
    F: Fn(Global, QuerySource<'a>, Nest, &'a str) -> Result<(Boxed<Expr>, &'a str), Stop>,
>(descent: &Descent<'a, F>, rest: &'a str) -> Result<(Quoted, &'a str), Stop>
    requires { Nests descent.now.source (F.pre descent.now.nested) (F.post descent.now.nested) }
    ensures { Opens as_quoted (at descent.now.source spec.quoted rest.now) result }
{
    if let Some(found) = tried(quoted_in(descent, rest, Quote::Double))? {
        return Ok(found);
    }
    quoted_in(descent, rest, Quote::Single)
}

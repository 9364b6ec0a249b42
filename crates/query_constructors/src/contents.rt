// What stands in a direct element (XQuery 1.0, section 3.7.1.3).
ghost use Rattle.std.specs.Prelude.{◌≡◌};
ghost use Rattle.query_terms.specs.Rule.{contents, many};
ghost use Rattle.query_terms.specs.Markup as spec;
ghost use Rattle.query_tokens.specs.Reads.{at};
ghost use Rattle.query_tokens.specs.Descends.{Nests, Opens};
ghost use Rattle.query_constructors.specs.Runs.{as_piece, Piles};

use crate::comments::section;
use crate::markup::direct;
use crate::run::{Piece, Run};
use query_terms::{Content, Expr, Nest, Stop};
use query_tokens::{Descent, QuerySource, tried};
use sqlite_items::{Boxed, Items};
use std::alloc::Global;

#[tactic(auto, unfolding(query_terms::specs::Markup::content_piece, query_terms::specs::Markup::direct_content, query_terms::specs::Markup::enclosed_content, query_terms::specs::Markup::plain_content))]
fn content_piece<
    'a,
    F: Fn(Global, QuerySource<'a>, Nest, &'a str) -> Result<(Boxed<Expr>, &'a str), Stop>,
>(descent: &Descent<'a, F>, rest: &'a str) -> Result<(Piece, &'a str), Stop>
    requires { Nests descent.now.source (F.pre descent.now.nested) (F.post descent.now.nested) }
    ensures { Opens as_piece (at descent.now.source spec.content_piece rest.now) result }
{
    if let Some((found, after)) = tried(direct(descent, rest))? {
        return Ok((Piece::Constructor(found), after));
    }
    if let Some((text, after)) = tried(section(descent, rest))? {
        return Ok((Piece::Section(text), after));
    }
    if let Some((found, after)) = descent.source.brace(rest) {
        return Ok((Piece::Solid(found), after));
    }
    if let Some((body, after)) = tried(descent.enclosed(rest))? {
        return Ok((Piece::Enclosed(body), after));
    }
    if let Some((found, after)) = descent.source.reference(rest) {
        return Ok((Piece::Solid(found), after));
    }
    let (found, after) = descent.source.literal_char(rest).ok_or(Stop::Refused)?;
    Ok((Piece::Plain(found), after))
}

fn content_run<
    'a,
    F: Fn(Global, QuerySource<'a>, Nest, &'a str) -> Result<(Boxed<Expr>, &'a str), Stop>,
>(descent: &Descent<'a, F>, rest: &'a str) -> Result<(Run, &'a str), Stop>
    requires { Nests descent.now.source (F.pre descent.now.nested) (F.post descent.now.nested) }
    ensures { Piles (at descent.now.source (many spec.content_piece) rest.now) result }
{
    let mut run = Run::new(descent.alloc);
    let mut after = rest;
    for _turn in 0..rest.len() + 1 {
        match content_piece(descent, after) {
            Ok((piece, next)) => {
                run.add(descent.alloc, piece)?;
                after = next;
            }
            Err(Stop::Refused) => return Ok((run, after)),
            Err(Stop::TooDeep) => return Err(Stop::TooDeep),
            Err(Stop::NoMemory) => return Err(Stop::NoMemory),
        }
    }
    Ok((run, after))
}

#[tactic(auto, unfolding(query_terms::specs::Markup::contents_rule))]
pub(crate) fn contents<
    'a,
    F: Fn(Global, QuerySource<'a>, Nest, &'a str) -> Result<(Boxed<Expr>, &'a str), Stop>,
>(descent: &Descent<'a, F>, rest: &'a str) -> Result<(Items<Content>, &'a str), Stop>
    requires { Nests descent.now.source (F.pre descent.now.nested) (F.post descent.now.nested) }
    ensures { Opens contents (at descent.now.source spec.contents_rule rest.now) result }
{
    let (run, after) = content_run(descent, rest)?;
    let found = run.close(descent.alloc)?;
    Ok((found, after))
}

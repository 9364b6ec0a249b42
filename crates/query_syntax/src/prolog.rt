// The prolog of a query (XQuery 1.0, sections 4.12 and 4.13), and the query as a whole.
ghost use Rattle.std.specs.Prelude.{◌≡◌};
ghost use Rattle.query_terms.specs.Rule.{declaration, query, term, any, alt, many, not};
ghost use Rattle.query_terms.specs.Markup.{expr};
ghost use Rattle.query_terms.specs.Grammar as spec;
ghost use Rattle.query_tokens.specs.Reads.{at, as_literal, Passes, Reads};
ghost use Rattle.query_tokens.specs.Descends.{Opens, Gathers};

use crate::nests::nested;
use query_terms::{Declaration, Expr, QueryTree, Stop};
use query_tokens::{Descent, QuerySource, WrittenString, tried};
use sqlite_items::{Boxed, Items};
use std::alloc::Global;
use tree_model::Text;

#[tactic(auto, unfolding(query_terms::specs::Grammar::declared_uri))]
fn declared_uri<'a>(source: &QuerySource<'a>, rest: &'a str) -> Option<(WrittenString<'a>, &'a str)>
    ensures { Reads (as_literal source.now) (at source.now spec.declared_uri rest.now) result }
{
    let after = source.blanks(rest);
    let after = source.word(after, "=")?;
    let after = source.blanks(after);
    source.string(after)
}

#[tactic(auto, unfolding(query_terms::specs::Grammar::namespace_declaration))]
fn namespace_declaration<'a>(
    alloc: Global,
    source: &QuerySource<'a>,
    rest: &'a str,
) -> Result<(Declaration, &'a str), Stop>
    ensures { Opens declaration (at source.now spec.namespace_declaration rest.now) result }
{
    let after = source.keyword(rest, "declare").ok_or(Stop::Refused)?;
    let after = source.keyword(after, "namespace").ok_or(Stop::Refused)?;
    let (prefix, after) = source.ncname(after).ok_or(Stop::Refused)?;
    let (uri, after) = declared_uri(source, after).ok_or(Stop::Refused)?;
    let span = source.span(rest, after);
    let prefix = Text::of(alloc, prefix)?;
    let uri = source.store_string(alloc, uri)?;
    Ok((Declaration::Namespace { span, prefix, uri }, after))
}

#[tactic(auto, unfolding(query_terms::specs::Grammar::default_declaration))]
fn default_declaration<'a>(
    alloc: Global,
    source: &QuerySource<'a>,
    rest: &'a str,
) -> Result<(Declaration, &'a str), Stop>
    ensures { Opens declaration (at source.now spec.default_declaration rest.now) result }
{
    let after = source.keyword(rest, "declare").ok_or(Stop::Refused)?;
    let after = source.keyword(after, "default").ok_or(Stop::Refused)?;
    let after = source.keyword(after, "element").ok_or(Stop::Refused)?;
    let after = source.keyword(after, "namespace").ok_or(Stop::Refused)?;
    let (uri, after) = source.string(after).ok_or(Stop::Refused)?;
    let span = source.span(rest, after);
    let uri = source.store_string(alloc, uri)?;
    Ok((Declaration::DefaultElement { span, uri }, after))
}

fn either_declaration<'a>(
    alloc: Global,
    source: &QuerySource<'a>,
    rest: &'a str,
) -> Result<(Declaration, &'a str), Stop>
    ensures { Opens declaration (at source.now (alt spec.namespace_declaration spec.default_declaration) rest.now) result }
{
    if let Some(found) = tried(namespace_declaration(alloc, source, rest))? {
        return Ok(found);
    }
    default_declaration(alloc, source, rest)
}

#[tactic(auto, unfolding(query_terms::specs::Grammar::declaration_rule))]
fn declaration<'a>(
    alloc: Global,
    source: &QuerySource<'a>,
    rest: &'a str,
) -> Result<(Declaration, &'a str), Stop>
    ensures { Opens declaration (at source.now spec.declaration_rule rest.now) result }
{
    let (found, after) = either_declaration(alloc, source, rest)?;
    let after = source.blanks(after);
    let after = source.word(after, ";").ok_or(Stop::Refused)?;
    Ok((found, source.blanks(after)))
}

fn declarations<'a>(
    alloc: Global,
    source: &QuerySource<'a>,
    rest: &'a str,
) -> Result<(Items<Declaration>, &'a str), Stop>
    ensures { Gathers spec.declarations_in (at source.now (many spec.declaration_rule) rest.now) result }
{
    let mut found = Items::new(alloc);
    let mut after = rest;
    for _turn in 0..rest.len() + 1 {
        match declaration(alloc, source, after) {
            Ok((item, next)) => {
                found.push(item)?;
                after = next;
            }
            Err(Stop::Refused) => return Ok((found, after)),
            Err(Stop::TooDeep) => return Err(Stop::TooDeep),
            Err(Stop::NoMemory) => return Err(Stop::NoMemory),
        }
    }
    Ok((found, after))
}

// The expression of a query.
fn body<'a>(
    alloc: Global,
    source: &QuerySource<'a>,
    rest: &'a str,
) -> Result<(Boxed<Expr>, &'a str), Stop>
    ensures { Opens term (at source.now expr rest.now) result }
{
    let descent = Descent {
        alloc,
        source: *source,
        nested,
    };
    descent.expr(rest)
}

// Nothing, at the end of the text.
#[tactic(auto, unfolding(query_terms::specs::Rule::any_at))]
fn at_end<'a>(source: &QuerySource<'a>, rest: &'a str) -> Option<&'a str>
    ensures { Passes (at source.now (not any) rest.now) result }
{
    match rest.as_bytes() {
        [] => Some(rest),
        [_, ..] => None,
    }
}

// A query to the end of the text (XQuery 1.0, section 2).
#[tactic(auto, unfolding(query_terms::specs::Grammar::query_rule))]
pub(crate) fn query<'a>(
    alloc: Global,
    source: &QuerySource<'a>,
    rest: &'a str,
) -> Result<(QueryTree, &'a str), Stop>
    ensures { Opens query (at source.now spec.query_rule rest.now) result }
{
    let after = source.blanks(rest);
    let (declarations, after) = declarations(alloc, source, after)?;
    let (body, after) = body(alloc, source, after)?;
    let after = source.blanks(after);
    let after = at_end(source, after).ok_or(Stop::Refused)?;
    Ok((QueryTree { declarations, body }, after))
}

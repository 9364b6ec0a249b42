// Direct elements (XQuery 1.0, section 3.7.1).
ghost use Rattle.std.specs.Prelude.{◌≡◌, ◌&&◌};
ghost use Rattle.std.specs.Str.{bytes_eq};
ghost use Rattle.query_terms.specs.Rule.{name, term};
ghost use Rattle.query_terms.specs.Markup as spec;
ghost use Rattle.query_tokens.specs.Reads.{at, as_name, name_written, Reads};
ghost use Rattle.query_tokens.specs.Descends.{Nests, Opens};
ghost use Rattle.query_constructors.specs.Runs.{as_inside};

use crate::attributes::attributes;
use crate::contents::contents;
use query_terms::{Content, Expr, Nest, Stop};
use query_tokens::{Descent, QuerySource, WrittenName, tried};
use sqlite_items::{Boxed, Items};
use std::alloc::Global;

// What stands behind the attributes: nothing, or the content with the name of the end tag.
#[derive(Drop)]
pub(crate) enum Inside<'a> {
    Empty,
    Ended(Items<Content>, WrittenName<'a>),
}

fn is_written_alike(start: &WrittenName<'_>, end: &WrittenName<'_>) -> bool
    ensures { result ≡ spec.is_written_alike (name_written start.now) (name_written end.now) }
{
    start.prefix == end.prefix && start.local == end.local
}

#[tactic(auto, unfolding(query_terms::specs::Markup::end_tag))]
fn end_tag<'a, F>(descent: &Descent<'a, F>, rest: &'a str) -> Option<(WrittenName<'a>, &'a str)>
    ensures { Reads as_name (at descent.now.source spec.end_tag rest.now) result }
{
    let source = &descent.source;
    let after = source.word(rest, "</")?;
    let (name, after) = source.qname(after)?;
    let after = source.space(after);
    let after = source.word(after, ">")?;
    Some((name, after))
}

#[tactic(auto, unfolding(query_terms::specs::Markup::behind_attributes))]
fn behind_attributes<
    'a,
    F: Fn(Global, QuerySource<'a>, Nest, &'a str) -> Result<(Boxed<Expr>, &'a str), Stop>,
>(descent: &Descent<'a, F>, rest: &'a str) -> Result<(Inside<'a>, &'a str), Stop>
    requires { Nests descent.now.source (F.pre descent.now.nested) (F.post descent.now.nested) }
    ensures { Opens as_inside (at descent.now.source spec.behind_attributes rest.now) result }
{
    if let Some(after) = descent.source.word(rest, "/>") {
        return Ok((Inside::Empty, after));
    }
    let after = descent.word(rest, ">")?;
    let (content, after) = contents(descent, after)?;
    let (name, after) = end_tag(descent, after).ok_or(Stop::Refused)?;
    Ok((Inside::Ended(content, name), after))
}

/// A direct element, where it is known to be opened.
#[tactic(auto, unfolding(query_terms::specs::Markup::elem_rule))]
pub fn element<
    'a,
    F: Fn(Global, QuerySource<'a>, Nest, &'a str) -> Result<(Boxed<Expr>, &'a str), Stop>,
>(descent: &Descent<'a, F>, rest: &'a str) -> Result<(Boxed<Expr>, &'a str), Stop>
    requires { Nests descent.now.source (F.pre descent.now.nested) (F.post descent.now.nested) }
    ensures { Opens term (at descent.now.source spec.elem_rule rest.now) result }
{
    let after = descent.word(rest, "<")?;
    let (name, after) = descent.source.qname(after).ok_or(Stop::Refused)?;
    let (attributes, after) = attributes(descent, after)?;
    let (inside, after) = behind_attributes(descent, after)?;
    let content = match inside {
        Inside::Empty => Items::new(descent.alloc),
        Inside::Ended(content, end) => {
            if !is_written_alike(&name, &end) {
                return Err(Stop::Refused);
            }
            content
        }
    };
    let span = descent.source.span(rest, after);
    let name = name.store(descent.alloc)?;
    let element = Expr::Element {
        span,
        name,
        attributes,
        content,
    };
    Ok((Boxed::new(descent.alloc, element)?, after))
}

// The attributes of a direct element (XQuery 1.0, section 3.7.1.1).
ghost use Rattle.std.specs.Prelude.{◌≡◌, OnOk};
ghost use Rattle.query_terms.specs.Rule.{attribute, attributes, many, opt};
ghost use Rattle.query_terms.specs.Markup as spec;
ghost use Rattle.query_tokens.specs.Reads.{at};
ghost use Rattle.query_tokens.specs.Descends.{Nests, Opens, Skips, Gathers};
ghost use Rattle.query_constructors.specs.Runs.{as_maybe_attribute};

use crate::quoted::{Quoted, read_quoted};
use query_terms::{Attribute, Expr, Nest, Stop};
use query_tokens::{Descent, QuerySource, tried};
use sqlite_items::{Boxed, Items};
use std::alloc::Global;
use tree_model::NoMemory;

fn push_present(found: &mut Items<Attribute>, item: Option<Attribute>) -> Result<(), NoMemory>
    ensures { OnOk result (found.new ≡ spec.with_attribute found.old (as_maybe_attribute item)) }
{
    match item {
        Some(item) => found.push(item),
        None => Ok(()),
    }
}

#[tactic(auto, unfolding(query_terms::specs::Markup::equal_sign))]
fn equal_sign<
    'a,
    F: Fn(Global, QuerySource<'a>, Nest, &'a str) -> Result<(Boxed<Expr>, &'a str), Stop>,
>(descent: &Descent<'a, F>, rest: &'a str) -> Result<&'a str, Stop>
    ensures { Skips (at descent.now.source spec.equal_sign rest.now) result }
{
    let after = descent.source.space(rest);
    let after = descent.word(after, "=")?;
    Ok(descent.source.space(after))
}

#[tactic(auto, unfolding(query_terms::specs::Markup::attribute_rule))]
fn attribute<
    'a,
    F: Fn(Global, QuerySource<'a>, Nest, &'a str) -> Result<(Boxed<Expr>, &'a str), Stop>,
>(descent: &Descent<'a, F>, rest: &'a str) -> Result<(Attribute, &'a str), Stop>
    requires { Nests descent.now.source (F.pre descent.now.nested) (F.post descent.now.nested) }
    ensures { Opens attribute (at descent.now.source spec.attribute_rule rest.now) result }
{
    let (name, after) = descent.source.qname(rest).ok_or(Stop::Refused)?;
    let after = equal_sign(descent, after)?;
    let (found, after) = read_quoted(descent, after)?;
    let span = descent.source.span(rest, after);
    let name = name.store(descent.alloc)?;
    let Quoted { value, written } = found;
    Ok((
        Attribute {
            span,
            name,
            value,
            written,
        },
        after,
    ))
}

fn maybe_attribute<
    'a,
    F: Fn(Global, QuerySource<'a>, Nest, &'a str) -> Result<(Boxed<Expr>, &'a str), Stop>,
>(descent: &Descent<'a, F>, rest: &'a str) -> Result<(Option<Attribute>, &'a str), Stop>
    requires { Nests descent.now.source (F.pre descent.now.nested) (F.post descent.now.nested) }
    ensures { Opens as_maybe_attribute (at descent.now.source (opt spec.attribute_rule) rest.now) result }
{
    match tried(attribute(descent, rest))? {
        Some((found, after)) => Ok((Some(found), after)),
        None => Ok((None, rest)),
    }
}

#[tactic(auto, unfolding(query_terms::specs::Markup::spaced_attribute))]
fn spaced_attribute<
    'a,
    F: Fn(Global, QuerySource<'a>, Nest, &'a str) -> Result<(Boxed<Expr>, &'a str), Stop>,
>(descent: &Descent<'a, F>, rest: &'a str) -> Result<(Option<Attribute>, &'a str), Stop>
    requires { Nests descent.now.source (F.pre descent.now.nested) (F.post descent.now.nested) }
    ensures { Opens as_maybe_attribute (at descent.now.source spec.spaced_attribute rest.now) result }
{
    let after = descent.source.white_space(rest).ok_or(Stop::Refused)?;
    maybe_attribute(descent, after)
}

fn found_attributes<
    'a,
    F: Fn(Global, QuerySource<'a>, Nest, &'a str) -> Result<(Boxed<Expr>, &'a str), Stop>,
>(descent: &Descent<'a, F>, rest: &'a str) -> Result<(Items<Attribute>, &'a str), Stop>
    requires { Nests descent.now.source (F.pre descent.now.nested) (F.post descent.now.nested) }
    ensures { Gathers spec.attributes_in (at descent.now.source (many spec.spaced_attribute) rest.now) result }
{
    let mut found = Items::new(descent.alloc);
    let mut after = rest;
    for _turn in 0..rest.len() + 1 {
        match spaced_attribute(descent, after) {
            Ok((item, next)) => {
                push_present(&mut found, item)?;
                after = next;
            }
            Err(Stop::Refused) => return Ok((found, after)),
            Err(Stop::TooDeep) => return Err(Stop::TooDeep),
            Err(Stop::NoMemory) => return Err(Stop::NoMemory),
        }
    }
    Ok((found, after))
}

#[tactic(auto, unfolding(query_terms::specs::Markup::attributes_rule))]
pub(crate) fn attributes<
    'a,
    F: Fn(Global, QuerySource<'a>, Nest, &'a str) -> Result<(Boxed<Expr>, &'a str), Stop>,
>(descent: &Descent<'a, F>, rest: &'a str) -> Result<(Items<Attribute>, &'a str), Stop>
    requires { Nests descent.now.source (F.pre descent.now.nested) (F.post descent.now.nested) }
    ensures { Opens attributes (at descent.now.source spec.attributes_rule rest.now) result }
{
    let (found, after) = found_attributes(descent, rest)?;
    Ok((found, after))
}

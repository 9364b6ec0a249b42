// Computed constructors (XQuery 1.0, section 3.7.3).
ghost use Rattle.std.specs.Prelude.{◌≡◌, IfOk};
ghost use Rattle.query_terms.specs.Rule.{term, computed_kind, unnamed_kind, opt};
ghost use Rattle.query_terms.specs.Markup as spec;
ghost use Rattle.query_tokens.specs.Reads.{at, as_name, Reads};
ghost use Rattle.query_tokens.specs.Descends.{Nests, Opens};
ghost use Rattle.query_constructors.specs.Runs.{as_maybe_term, as_computed_name};

use query_terms::{ComputedKind, Expr, Nest, Scope, Span, Stop, UnnamedKind};
use query_tokens::{Descent, QuerySource, WrittenName, tried};
use sqlite_items::{Boxed, Items};
use std::alloc::Global;
use tree_model::NoMemory;

// The name of what is made: written, or an expression.
#[derive(Drop)]
pub(crate) enum ComputedName<'a> {
    Written(WrittenName<'a>),
    Enclosed(Boxed<Expr>),
}

fn computed_term(
    alloc: Global,
    span: Span,
    kind: ComputedKind,
    name: ComputedName<'_>,
    body: Option<Boxed<Expr>>,
) -> Result<Boxed<Expr>, NoMemory>
    ensures { IfOk result (λ e. term e ≡ spec.computed_as span kind (as_computed_name name.entry) body) }
{
    match name {
        ComputedName::Written(name) => {
            let name = name.store(alloc)?;
            Boxed::new(
                alloc,
                Expr::Computed {
                    span,
                    kind,
                    name,
                    body,
                },
            )
        }
        ComputedName::Enclosed(name) => {
            let scope = Scope {
                bindings: Items::new(alloc),
            };
            Boxed::new(
                alloc,
                Expr::ComputedByValue {
                    span,
                    kind,
                    name,
                    scope,
                    body,
                },
            )
        }
    }
}

#[tactic(auto, unfolding(query_terms::specs::Markup::named_kind))]
fn named_kind<'a, F>(descent: &Descent<'a, F>, rest: &'a str) -> Option<(ComputedKind, &'a str)>
    ensures { Reads computed_kind (at descent.now.source spec.named_kind rest.now) result }
{
    if let Some(after) = descent.source.keyword(rest, "element") {
        return Some((ComputedKind::Element, after));
    }
    let after = descent.source.keyword(rest, "attribute")?;
    Some((ComputedKind::Attribute, after))
}

#[tactic(auto, unfolding(query_terms::specs::Markup::computed_name))]
fn computed_name<
    'a,
    F: Fn(Global, QuerySource<'a>, Nest, &'a str) -> Result<(Boxed<Expr>, &'a str), Stop>,
>(descent: &Descent<'a, F>, rest: &'a str) -> Result<(ComputedName<'a>, &'a str), Stop>
    requires { Nests descent.now.source (F.pre descent.now.nested) (F.post descent.now.nested) }
    ensures { Opens as_computed_name (at descent.now.source spec.computed_name rest.now) result }
{
    if let Some((name, after)) = descent.source.qname(rest) {
        return Ok((ComputedName::Written(name), after));
    }
    let (name, after) = descent.enclosed(rest)?;
    Ok((ComputedName::Enclosed(name), after))
}

fn maybe_expr<
    'a,
    F: Fn(Global, QuerySource<'a>, Nest, &'a str) -> Result<(Boxed<Expr>, &'a str), Stop>,
>(descent: &Descent<'a, F>, rest: &'a str) -> Result<(Option<Boxed<Expr>>, &'a str), Stop>
    requires { Nests descent.now.source (F.pre descent.now.nested) (F.post descent.now.nested) }
    ensures { Opens as_maybe_term (at descent.now.source (opt spec.expr) rest.now) result }
{
    match tried(descent.expr(rest))? {
        Some((found, after)) => Ok((Some(found), after)),
        None => Ok((None, rest)),
    }
}

#[tactic(auto, unfolding(query_terms::specs::Markup::computed_body))]
fn computed_body<
    'a,
    F: Fn(Global, QuerySource<'a>, Nest, &'a str) -> Result<(Boxed<Expr>, &'a str), Stop>,
>(descent: &Descent<'a, F>, rest: &'a str) -> Result<(Option<Boxed<Expr>>, &'a str), Stop>
    requires { Nests descent.now.source (F.pre descent.now.nested) (F.post descent.now.nested) }
    ensures { Opens as_maybe_term (at descent.now.source spec.computed_body rest.now) result }
{
    let after = descent.word(rest, "{")?;
    let after = descent.blanks(after);
    let (body, after) = maybe_expr(descent, after)?;
    let after = descent.blanks(after);
    let after = descent.word(after, "}")?;
    Ok((body, after))
}

#[tactic(auto, unfolding(query_terms::specs::Markup::computed_named))]
fn computed_named<
    'a,
    F: Fn(Global, QuerySource<'a>, Nest, &'a str) -> Result<(Boxed<Expr>, &'a str), Stop>,
>(descent: &Descent<'a, F>, rest: &'a str) -> Result<(Boxed<Expr>, &'a str), Stop>
    requires { Nests descent.now.source (F.pre descent.now.nested) (F.post descent.now.nested) }
    ensures { Opens term (at descent.now.source spec.computed_named rest.now) result }
{
    let (kind, after) = named_kind(descent, rest).ok_or(Stop::Refused)?;
    let (name, after) = computed_name(descent, after)?;
    let after = descent.blanks(after);
    let (body, after) = computed_body(descent, after)?;
    let span = descent.source.span(rest, after);
    Ok((computed_term(descent.alloc, span, kind, name, body)?, after))
}

#[tactic(auto, unfolding(query_terms::specs::Markup::instruction_target))]
fn instruction_target<'a, F>(
    descent: &Descent<'a, F>,
    rest: &'a str,
) -> Option<(WrittenName<'a>, &'a str)>
    ensures { Reads as_name (at descent.now.source spec.instruction_target rest.now) result }
{
    let (local, after) = descent.source.ncname(rest)?;
    let span = descent.source.span(rest, after);
    Some((
        WrittenName {
            span,
            prefix: "",
            local,
        },
        after,
    ))
}

#[tactic(auto, unfolding(query_terms::specs::Markup::instruction_name))]
fn instruction_name<
    'a,
    F: Fn(Global, QuerySource<'a>, Nest, &'a str) -> Result<(Boxed<Expr>, &'a str), Stop>,
>(descent: &Descent<'a, F>, rest: &'a str) -> Result<(ComputedName<'a>, &'a str), Stop>
    requires { Nests descent.now.source (F.pre descent.now.nested) (F.post descent.now.nested) }
    ensures { Opens as_computed_name (at descent.now.source spec.instruction_name rest.now) result }
{
    if let Some((name, after)) = instruction_target(descent, rest) {
        return Ok((ComputedName::Written(name), after));
    }
    let (name, after) = descent.enclosed(rest)?;
    Ok((ComputedName::Enclosed(name), after))
}

#[tactic(auto, unfolding(query_terms::specs::Markup::computed_instruction))]
fn computed_instruction<
    'a,
    F: Fn(Global, QuerySource<'a>, Nest, &'a str) -> Result<(Boxed<Expr>, &'a str), Stop>,
>(descent: &Descent<'a, F>, rest: &'a str) -> Result<(Boxed<Expr>, &'a str), Stop>
    requires { Nests descent.now.source (F.pre descent.now.nested) (F.post descent.now.nested) }
    ensures { Opens term (at descent.now.source spec.computed_instruction rest.now) result }
{
    let after = descent.keyword(rest, "processing-instruction")?;
    let (name, after) = instruction_name(descent, after)?;
    let after = descent.blanks(after);
    let (body, after) = computed_body(descent, after)?;
    let span = descent.source.span(rest, after);
    let made = computed_term(descent.alloc, span, ComputedKind::Instruction, name, body)?;
    Ok((made, after))
}

#[tactic(auto, unfolding(query_terms::specs::Markup::unnamed_kind_rule))]
fn unnamed_kind<'a, F>(descent: &Descent<'a, F>, rest: &'a str) -> Option<(UnnamedKind, &'a str)>
    ensures { Reads unnamed_kind (at descent.now.source spec.unnamed_kind_rule rest.now) result }
{
    if let Some(after) = descent.source.keyword(rest, "text") {
        return Some((UnnamedKind::Text, after));
    }
    if let Some(after) = descent.source.keyword(rest, "comment") {
        return Some((UnnamedKind::Comment, after));
    }
    let after = descent.source.keyword(rest, "document")?;
    Some((UnnamedKind::Document, after))
}

#[tactic(auto, unfolding(query_terms::specs::Markup::computed_unnamed))]
fn computed_unnamed<
    'a,
    F: Fn(Global, QuerySource<'a>, Nest, &'a str) -> Result<(Boxed<Expr>, &'a str), Stop>,
>(descent: &Descent<'a, F>, rest: &'a str) -> Result<(Boxed<Expr>, &'a str), Stop>
    requires { Nests descent.now.source (F.pre descent.now.nested) (F.post descent.now.nested) }
    ensures { Opens term (at descent.now.source spec.computed_unnamed rest.now) result }
{
    let (kind, after) = unnamed_kind(descent, rest).ok_or(Stop::Refused)?;
    let (body, after) = descent.enclosed(after)?;
    let span = descent.source.span(rest, after);
    let made = Expr::ComputedUnnamed { span, kind, body };
    Ok((Boxed::new(descent.alloc, made)?, after))
}

/// A computed constructor (XQuery 1.0, section 3.7.3).
#[tactic(auto, unfolding(query_terms::specs::Markup::computed))]
pub fn computed<
    'a,
    F: Fn(Global, QuerySource<'a>, Nest, &'a str) -> Result<(Boxed<Expr>, &'a str), Stop>,
>(descent: &Descent<'a, F>, rest: &'a str) -> Result<(Boxed<Expr>, &'a str), Stop>
    requires { Nests descent.now.source (F.pre descent.now.nested) (F.post descent.now.nested) }
    ensures { Opens term (at descent.now.source spec.computed rest.now) result }
{
    if let Some(found) = tried(computed_named(descent, rest))? {
        return Ok(found);
    }
    if let Some(found) = tried(computed_instruction(descent, rest))? {
        return Ok(found);
    }
    computed_unnamed(descent, rest)
}

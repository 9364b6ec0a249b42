// Conditional expressions (XQuery 1.0, section 3.10).
ghost use Rattle.std.specs.Prelude.{◌≡◌};
ghost use Rattle.query_terms.specs.Rule.{term};
ghost use Rattle.query_terms.specs.Grammar as spec;
ghost use Rattle.query_tokens.specs.Reads.{at};
ghost use Rattle.query_tokens.specs.Descends.{Nests, Opens};
ghost use Rattle.query_clauses.specs.Parts.{as_branches};

use query_terms::{Expr, Nest, Stop};
use query_tokens::{Descent, QuerySource};
use sqlite_items::Boxed;
use std::alloc::Global;

// What stands behind the condition.
#[derive(Drop)]
pub(crate) struct Branches {
    positive: Boxed<Expr>,
    negative: Boxed<Expr>,
}

#[tactic(auto, unfolding(query_terms::specs::Grammar::condition))]
fn condition<
    'a,
    F: Fn(Global, QuerySource<'a>, Nest, &'a str) -> Result<(Boxed<Expr>, &'a str), Stop>,
>(descent: &Descent<'a, F>, rest: &'a str) -> Result<(Boxed<Expr>, &'a str), Stop>
    requires { Nests descent.now.source (F.pre descent.now.nested) (F.post descent.now.nested) }
    ensures { Opens term (at descent.now.source spec.condition rest.now) result }
{
    let after = descent.word(rest, "(")?;
    let after = descent.blanks(after);
    let (found, after) = descent.expr(after)?;
    let after = descent.blanks(after);
    let after = descent.word(after, ")")?;
    Ok((found, after))
}

#[tactic(auto, unfolding(query_terms::specs::Grammar::then_branch))]
fn then_branch<
    'a,
    F: Fn(Global, QuerySource<'a>, Nest, &'a str) -> Result<(Boxed<Expr>, &'a str), Stop>,
>(descent: &Descent<'a, F>, rest: &'a str) -> Result<(Boxed<Expr>, &'a str), Stop>
    requires { Nests descent.now.source (F.pre descent.now.nested) (F.post descent.now.nested) }
    ensures { Opens term (at descent.now.source spec.then_branch rest.now) result }
{
    let after = descent.blanks(rest);
    let after = descent.keyword(after, "then")?;
    descent.single(after)
}

#[tactic(auto, unfolding(query_terms::specs::Grammar::else_branch))]
fn else_branch<
    'a,
    F: Fn(Global, QuerySource<'a>, Nest, &'a str) -> Result<(Boxed<Expr>, &'a str), Stop>,
>(descent: &Descent<'a, F>, rest: &'a str) -> Result<(Boxed<Expr>, &'a str), Stop>
    requires { Nests descent.now.source (F.pre descent.now.nested) (F.post descent.now.nested) }
    ensures { Opens term (at descent.now.source spec.else_branch rest.now) result }
{
    let after = descent.blanks(rest);
    let after = descent.keyword(after, "else")?;
    descent.single(after)
}

#[tactic(auto, unfolding(query_terms::specs::Grammar::branches))]
fn read_branches<
    'a,
    F: Fn(Global, QuerySource<'a>, Nest, &'a str) -> Result<(Boxed<Expr>, &'a str), Stop>,
>(descent: &Descent<'a, F>, rest: &'a str) -> Result<(Branches, &'a str), Stop>
    requires { Nests descent.now.source (F.pre descent.now.nested) (F.post descent.now.nested) }
    ensures { Opens as_branches (at descent.now.source spec.branches rest.now) result }
{
    let (positive, after) = then_branch(descent, rest)?;
    let (negative, after) = else_branch(descent, after)?;
    Ok((Branches { positive, negative }, after))
}

/// A conditional expression.
#[tactic(auto, unfolding(query_terms::specs::Grammar::if_rule))]
pub fn conditional<
    'a,
    F: Fn(Global, QuerySource<'a>, Nest, &'a str) -> Result<(Boxed<Expr>, &'a str), Stop>,
>(descent: &Descent<'a, F>, rest: &'a str) -> Result<(Boxed<Expr>, &'a str), Stop>
    requires { Nests descent.now.source (F.pre descent.now.nested) (F.post descent.now.nested) }
    ensures { Opens term (at descent.now.source spec.if_rule rest.now) result }
{
    let after = descent.keyword(rest, "if")?;
    let (condition, after) = condition(descent, after)?;
    let (found, after) = read_branches(descent, after)?;
    let span = descent.source.span(rest, after);
    let Branches { positive, negative } = found;
    let term = Expr::If {
        span,
        condition,
        positive,
        negative,
    };
    Ok((Boxed::new(descent.alloc, term)?, after))
}

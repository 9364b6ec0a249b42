// Ranges (XQuery 1.0, section 3.3.1) and comparisons (section 3.5).
ghost use Rattle.std.specs.Prelude.{◌≡◌, IfOk};
ghost use Rattle.query_terms.specs.Rule.{term, opt};
ghost use Rattle.query_terms.specs.Grammar as spec;
ghost use Rattle.query_tokens.specs.Reads.{at};
ghost use Rattle.query_tokens.specs.Descends.{Nests, Opens};
ghost use Rattle.query_operators.specs.Parts.{as_maybe_term, as_compared, as_maybe_compared};

use crate::comparators::comparator;
use crate::sums::additive;
use query_terms::{Comparator, Expr, Nest, Span, Stop};
use query_tokens::{Descent, QuerySource, tried};
use sqlite_items::Boxed;
use std::alloc::Global;
use tree_model::NoMemory;

// What stands behind the first operand of a comparison.
#[derive(Drop)]
pub(crate) struct Compared {
    comparator: Comparator,
    right: Boxed<Expr>,
}

fn range_term(
    alloc: Global,
    span: Span,
    from: Boxed<Expr>,
    end: Option<Boxed<Expr>>,
) -> Result<Boxed<Expr>, NoMemory>
    ensures { IfOk result (λ e. e ≡ spec.range_of span from (as_maybe_term end)) }
{
    match end {
        Some(to) => Boxed::new(alloc, Expr::Range { span, from, to }),
        None => Ok(from),
    }
}

fn comparison_term(
    alloc: Global,
    span: Span,
    left: Boxed<Expr>,
    compared: Option<Compared>,
) -> Result<Boxed<Expr>, NoMemory>
    ensures { IfOk result (λ e. e ≡ spec.comparison_of span left (as_maybe_compared compared)) }
{
    match compared {
        Some(compared) => {
            let Compared { comparator, right } = compared;
            let term = Expr::Comparison {
                span,
                comparator,
                left,
                right,
            };
            Boxed::new(alloc, term)
        }
        None => Ok(left),
    }
}

#[tactic(auto, unfolding(query_terms::specs::Grammar::range_end))]
fn range_end<
    'a,
    F: Fn(Global, QuerySource<'a>, Nest, &'a str) -> Result<(Boxed<Expr>, &'a str), Stop>,
>(descent: &Descent<'a, F>, rest: &'a str) -> Result<(Boxed<Expr>, &'a str), Stop>
    requires { Nests descent.now.source (F.pre descent.now.nested) (F.post descent.now.nested) }
    ensures { Opens term (at descent.now.source spec.range_end rest.now) result }
{
    let after = descent.blanks(rest);
    let after = descent.keyword(after, "to")?;
    additive(descent, after)
}

fn maybe_range_end<
    'a,
    F: Fn(Global, QuerySource<'a>, Nest, &'a str) -> Result<(Boxed<Expr>, &'a str), Stop>,
>(descent: &Descent<'a, F>, rest: &'a str) -> Result<(Option<Boxed<Expr>>, &'a str), Stop>
    requires { Nests descent.now.source (F.pre descent.now.nested) (F.post descent.now.nested) }
    ensures { Opens as_maybe_term (at descent.now.source (opt spec.range_end) rest.now) result }
{
    match tried(range_end(descent, rest))? {
        Some((found, after)) => Ok((Some(found), after)),
        None => Ok((None, rest)),
    }
}

#[tactic(auto, unfolding(query_terms::specs::Grammar::range))]
fn range<'a, F: Fn(Global, QuerySource<'a>, Nest, &'a str) -> Result<(Boxed<Expr>, &'a str), Stop>>(
    descent: &Descent<'a, F>,
    rest: &'a str,
) -> Result<(Boxed<Expr>, &'a str), Stop>
    requires { Nests descent.now.source (F.pre descent.now.nested) (F.post descent.now.nested) }
    ensures { Opens term (at descent.now.source spec.range rest.now) result }
{
    let (from, after) = additive(descent, rest)?;
    let (end, after) = maybe_range_end(descent, after)?;
    let span = descent.source.span(rest, after);
    Ok((range_term(descent.alloc, span, from, end)?, after))
}

#[tactic(auto, unfolding(query_terms::specs::Grammar::compared))]
fn read_compared<
    'a,
    F: Fn(Global, QuerySource<'a>, Nest, &'a str) -> Result<(Boxed<Expr>, &'a str), Stop>,
>(descent: &Descent<'a, F>, rest: &'a str) -> Result<(Compared, &'a str), Stop>
    requires { Nests descent.now.source (F.pre descent.now.nested) (F.post descent.now.nested) }
    ensures { Opens as_compared (at descent.now.source spec.compared rest.now) result }
{
    let after = descent.blanks(rest);
    let (comparator, after) = comparator(&descent.source, after).ok_or(Stop::Refused)?;
    let after = descent.blanks(after);
    let (right, after) = range(descent, after)?;
    Ok((Compared { comparator, right }, after))
}

fn maybe_compared<
    'a,
    F: Fn(Global, QuerySource<'a>, Nest, &'a str) -> Result<(Boxed<Expr>, &'a str), Stop>,
>(descent: &Descent<'a, F>, rest: &'a str) -> Result<(Option<Compared>, &'a str), Stop>
    requires { Nests descent.now.source (F.pre descent.now.nested) (F.post descent.now.nested) }
    ensures { Opens as_maybe_compared (at descent.now.source (opt spec.compared) rest.now) result }
{
    match tried(read_compared(descent, rest))? {
        Some((found, after)) => Ok((Some(found), after)),
        None => Ok((None, rest)),
    }
}

#[tactic(auto, unfolding(query_terms::specs::Grammar::comparison))]
pub(crate) fn comparison<
    'a,
    F: Fn(Global, QuerySource<'a>, Nest, &'a str) -> Result<(Boxed<Expr>, &'a str), Stop>,
>(descent: &Descent<'a, F>, rest: &'a str) -> Result<(Boxed<Expr>, &'a str), Stop>
    requires { Nests descent.now.source (F.pre descent.now.nested) (F.post descent.now.nested) }
    ensures { Opens term (at descent.now.source spec.comparison rest.now) result }
{
    let (left, after) = range(descent, rest)?;
    let (compared, after) = maybe_compared(descent, after)?;
    let span = descent.source.span(rest, after);
    Ok((comparison_term(descent.alloc, span, left, compared)?, after))
}

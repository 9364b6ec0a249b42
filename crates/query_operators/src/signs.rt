// Signs in front of a path (XQuery 1.0, section 3.4).
ghost use Rattle.std.specs.Prelude.{◌≡◌, IfOk, Ok};
ghost use Rattle.query_terms.specs.Rule.{Value, list, term, flag, alt, many, word};
ghost use Rattle.query_terms.specs.Lexis.{giving};
ghost use Rattle.query_terms.specs.Grammar as spec;
ghost use Rattle.query_tokens.specs.Reads.{at, Reads};
ghost use Rattle.query_tokens.specs.Descends.{Nests, Opens};
ghost use Rattle.std.specs.Prelude.{codes, true, false};

use query_steps::path;
use query_terms::{Expr, Nest, Span, Stop};
use query_tokens::{Descent, QuerySource};
use sqlite_items::Boxed;
use std::alloc::Global;
use tree_model::NoMemory;

// Whether a sign is a minus.
fn bare_sign<'a>(source: &QuerySource<'a>, rest: &'a str) -> Option<(bool, &'a str)>
    ensures { Reads flag (at source.now (alt (giving (flag false) (word (codes "+"))) (giving (flag true) (word (codes "-")))) rest.now) result }
{
    if let Some(after) = source.word(rest, "+") {
        return Some((false, after));
    }
    let after = source.word(rest, "-")?;
    Some((true, after))
}

#[tactic(auto, unfolding(query_terms::specs::Grammar::sign))]
fn sign<'a>(source: &QuerySource<'a>, rest: &'a str) -> Option<(bool, &'a str)>
    ensures { Reads flag (at source.now spec.sign rest.now) result }
{
    let (is_minus, after) = bare_sign(source, rest)?;
    Some((is_minus, source.blanks(after)))
}

// Whether an odd number of signs is minus, where one more comes behind those in front.
fn turned(earlier: Option<bool>, is_minus: bool) -> bool
    ensures { result ≡ spec.turned earlier is_minus }
{
    match earlier {
        Some(is_negative) => is_negative != is_minus,
        None => is_minus,
    }
}

// All signs: whether an odd number is minus, where there is a sign.
fn signs<'a>(source: &QuerySource<'a>, rest: &'a str) -> (Option<bool>, &'a str)
    ensures { (v : Value) × (at source.now (many spec.sign) rest.now ≡ Ok (list v, result.1.now)) × (spec.signs_in v ≡ result.0) }
{
    let mut found = None;
    let mut after = rest;
    for _turn in 0..rest.len() + 1 {
        let Some((is_minus, next)) = sign(source, after) else {
            return (found, after);
        };
        found = Some(turned(found, is_minus));
        after = next;
    }
    (found, after)
}

fn signed(
    alloc: Global,
    span: Span,
    sign: Option<bool>,
    operand: Boxed<Expr>,
) -> Result<Boxed<Expr>, NoMemory>
    ensures { IfOk result (λ e. e ≡ spec.signed span sign operand) }
{
    match sign {
        Some(is_negative) => {
            let term = Expr::Unary {
                span,
                is_negative,
                operand,
            };
            Boxed::new(alloc, term)
        }
        None => Ok(operand),
    }
}

#[tactic(auto, unfolding(query_terms::specs::Grammar::unary))]
pub(crate) fn unary<
    'a,
    F: Fn(Global, QuerySource<'a>, Nest, &'a str) -> Result<(Boxed<Expr>, &'a str), Stop>,
>(descent: &Descent<'a, F>, rest: &'a str) -> Result<(Boxed<Expr>, &'a str), Stop>
    requires { Nests descent.now.source (F.pre descent.now.nested) (F.post descent.now.nested) }
    ensures { Opens term (at descent.now.source spec.unary rest.now) result }
{
    let (sign, after) = signs(&descent.source, rest);
    let (operand, after) = path(descent, after)?;
    let span = descent.source.span(rest, after);
    Ok((signed(descent.alloc, span, sign, operand)?, after))
}

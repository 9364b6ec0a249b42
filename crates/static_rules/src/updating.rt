// Which expressions are updating (XQuery Update Facility 1.0, section 2.2).
ghost use Rattle.std.specs.Prelude.{◌≡◌, map, option_map};
ghost use Rattle.query_terms.specs.Constructors.{some, maybe};
ghost use Rattle.query_terms.specs.Updating as spec;

use query_terms::Expr;
use sqlite_items::Boxed;

#[cycle(updating)]
fn are_updating(parts: &[Expr]) -> bool
    ensures { result ≡ some (map spec.is_updating parts.now) }
{
    for part in parts {
        if is_updating(part) {
            return true;
        }
    }
    false
}

// An insertion, a deletion, a replacement or a renaming, or an expression whose value one of these may be: an operand of a
// comma, the body of parentheses, a branch, or the result of a FLWOR.
#[cycle(updating)]
#[tactic(auto, using(query_terms::proofs::Folds::by_kind))]
pub(crate) fn is_updating(e: &Expr) -> bool
    ensures { result ≡ spec.is_updating e.now }
{
    match e {
        Expr::Insert { .. } | Expr::Delete { .. } | Expr::Replace { .. } | Expr::Rename { .. } =>
            true,
        Expr::Comma { first, others, .. } => is_updating(first.get())
            || are_updating(others.as_slice()),
        Expr::Flwor { result, .. } => is_updating(result.get()),
        Expr::If {
            positive,
            negative,
            ..
        } => is_updating(positive.get()) || is_updating(negative.get()),
        Expr::Parenthesized { body, .. } => match body {
            Some(body) => is_updating(body.get()),
            None => false,
        },
        Expr::Quantified { .. }
        | Expr::Or { .. }
        | Expr::And { .. }
        | Expr::Comparison { .. }
        | Expr::Range { .. }
        | Expr::Additive { .. }
        | Expr::Multiplicative { .. }
        | Expr::Union { .. }
        | Expr::Intersection { .. }
        | Expr::Unary { .. }
        | Expr::Root { .. }
        | Expr::Path { .. }
        | Expr::Filter { .. }
        | Expr::AxisStep { .. }
        | Expr::Number { .. }
        | Expr::String { .. }
        | Expr::Variable { .. }
        | Expr::ContextItem { .. }
        | Expr::Element { .. }
        | Expr::DirectComment { .. }
        | Expr::DirectInstruction { .. }
        | Expr::Computed { .. }
        | Expr::ComputedByValue { .. }
        | Expr::ComputedUnnamed { .. }
        | Expr::Call { .. } => false,
    }
}

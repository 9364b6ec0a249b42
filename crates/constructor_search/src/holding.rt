// Constructors in expressions.
ghost use Rattle.std.specs.Prelude.{◌≡◌, map};
ghost use Rattle.query_terms.specs.Constructors as spec;
ghost use Rattle.std.specs.Option.{option_map};
ghost use Rattle.query_terms.specs.Constructors.{some, maybe};
ghost use Rattle.query_terms.specs.Folds.{clause_value, key_value, operand_value, step_value};

use query_terms::{Clause, Expr, Operand, OrderKey, PathStep};
use sqlite_items::Boxed;

#[cycle(holding)]
fn any_expression(parts: &[Expr]) -> bool
    ensures { result ≡ some (map spec.holds_constructor parts.now) }
{
    for part in parts {
        if holds_constructor(part) {
            return true;
        }
    }
    false
}

#[cycle(holding)]
fn any_clause(parts: &[Clause]) -> bool
    ensures { result ≡ some (map (clause_value spec.holding) parts.now) }
{
    for part in parts {
        if in_clause(part) {
            return true;
        }
    }
    false
}

#[cycle(holding)]
fn any_operand(parts: &[Operand]) -> bool
    ensures { result ≡ some (map (operand_value spec.holding) parts.now) }
{
    for part in parts {
        if in_operand(part) {
            return true;
        }
    }
    false
}

#[cycle(holding)]
fn any_key(parts: &[OrderKey]) -> bool
    ensures { result ≡ some (map (key_value spec.holding) parts.now) }
{
    for part in parts {
        if in_key(part) {
            return true;
        }
    }
    false
}

#[cycle(holding)]
fn any_step(parts: &[PathStep]) -> bool
    ensures { result ≡ some (map (step_value spec.holding) parts.now) }
{
    for part in parts {
        if in_step(part) {
            return true;
        }
    }
    false
}

#[cycle(holding)]
fn in_option(part: &Option<Boxed<Expr>>) -> bool
    ensures { result ≡ maybe (option_map spec.holds_constructor part.now) }
{
    match part {
        Some(part) => holds_constructor(part.get()),
        None => false,
    }
}

#[cycle(holding)]
#[tactic(auto, using(query_terms::proofs::Folds::by_part))]
fn in_clause(clause: &Clause) -> bool
    ensures { result ≡ clause_value spec.holding clause.now }
{
    match clause {
        Clause::For { source, .. } => holds_constructor(source.get()),
        Clause::Let { value, .. } => holds_constructor(value.get()),
    }
}

#[cycle(holding)]
#[tactic(auto, using(query_terms::proofs::Folds::by_part))]
fn in_operand(operand: &Operand) -> bool
    ensures { result ≡ operand_value spec.holding operand.now }
{
    holds_constructor(operand.operand.get())
}

#[cycle(holding)]
#[tactic(auto, using(query_terms::proofs::Folds::by_part))]
fn in_key(key: &OrderKey) -> bool
    ensures { result ≡ key_value spec.holding key.now }
{
    holds_constructor(key.key.get())
}

#[cycle(holding)]
#[tactic(auto, using(query_terms::proofs::Folds::by_part))]
fn in_step(step: &PathStep) -> bool
    ensures { result ≡ step_value spec.holding step.now }
{
    holds_constructor(step.step.get())
}

/// Whether an element, attribute, text, comment, document or processing instruction is constructed anywhere in the
/// expression (XQuery 1.0, section 3.7).
#[cycle(holding)]
#[tactic(auto, using(query_terms::proofs::Folds::by_kind))]
pub fn holds_constructor(e: &Expr) -> bool
    ensures { result ≡ spec.holds_constructor e.now }
{
    match e {
        Expr::Comma { first, others, .. }
        | Expr::Or { first, others, .. }
        | Expr::And { first, others, .. }
        | Expr::Union { first, others, .. } => {
            holds_constructor(first.get()) || any_expression(others.as_slice())
        }
        Expr::Additive { first, others, .. }
        | Expr::Multiplicative { first, others, .. }
        | Expr::Intersection { first, others, .. } => {
            holds_constructor(first.get()) || any_operand(others.as_slice())
        }
        Expr::Path { first, others, .. } => {
            holds_constructor(first.get()) || any_step(others.as_slice())
        }
        Expr::Filter {
            head,
            predicates,
            ..
        } => holds_constructor(head.get()) || any_expression(predicates.as_slice()),
        Expr::Call { arguments, .. } => any_expression(arguments.as_slice()),
        Expr::Parenthesized { body, .. } => in_option(body),
        Expr::Unary { operand, .. } => holds_constructor(operand.get()),
        Expr::Delete { target, .. } => holds_constructor(target.get()),
        Expr::Comparison { left, right, .. } => {
            holds_constructor(left.get()) || holds_constructor(right.get())
        }
        Expr::Range { from, to, .. } => {
            holds_constructor(from.get()) || holds_constructor(to.get())
        }
        Expr::Insert { source, target, .. } => {
            holds_constructor(source.get()) || holds_constructor(target.get())
        }
        Expr::Replace { source, target, .. } => {
            holds_constructor(target.get()) || holds_constructor(source.get())
        }
        Expr::Rename { target, name, .. } => {
            holds_constructor(target.get()) || holds_constructor(name.get())
        }
        Expr::If {
            condition,
            positive,
            negative,
            ..
        } => {
            holds_constructor(condition.get())
                || holds_constructor(positive.get())
                || holds_constructor(negative.get())
        }
        Expr::Quantified { clauses, test, .. } => {
            any_clause(clauses.as_slice()) || holds_constructor(test.get())
        }
        Expr::Flwor {
            clauses,
            condition,
            order,
            result,
            ..
        } => {
            if any_clause(clauses.as_slice()) {
                return true;
            }
            if in_option(condition) {
                return true;
            }
            if any_key(order.as_slice()) {
                return true;
            }
            holds_constructor(result.get())
        }
        Expr::Root { .. }
        | Expr::AxisStep { .. }
        | Expr::Number { .. }
        | Expr::String { .. }
        | Expr::Variable { .. }
        | Expr::ContextItem { .. } => false,
        Expr::Element { .. }
        | Expr::DirectComment { .. }
        | Expr::DirectInstruction { .. }
        | Expr::Computed { .. }
        | Expr::ComputedByValue { .. }
        | Expr::ComputedUnnamed { .. } => true,
    }
}

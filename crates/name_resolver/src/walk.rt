// The walk over a query that gives its names their URIs.
ghost use Rattle.std.specs.Prelude.{◌≡◌, IfOk};
ghost use Rattle.query_terms.specs.Resolved as spec;
ghost use Rattle.query_terms.specs.Static.{prolog_bindings};
ghost use Rattle.name_resolver.specs.Gives.{Gives, Resolves};

use crate::names::{literal, variable};
use crate::resolver::Resolver;
use name_scopes::{Environment, MAX_DEPTH};
use query_terms::{Declaration, Expr};
use std::alloc::{AllocError, Global};
use tree_model::NoMemory;

impl<F: Fn(Global, usize, &mut Environment, &Expr) -> Result<Expr, NoMemory>> Resolver<F> {
    // Each kind of expression by itself.
    #[tactic(auto, using(query_terms::proofs::Folds::by_kind))]
    fn expression(&self, environment: &mut Environment, e: &Expr) -> Result<Expr, NoMemory>
        requires { Resolves self.now.depth (F.pre self.now.resolve) (F.post self.now.resolve) }
        ensures { Gives (spec.resolved e.now) result environment.old environment.new }
    {
        match e {
            Expr::Comma {
                span,
                first,
                others,
            } => self.comma(environment, *span, first.get(), others.as_slice()),
            Expr::Flwor {
                span,
                clauses,
                condition,
                order,
                result,
            } => self.flwor(
                environment,
                *span,
                clauses.as_slice(),
                condition,
                order.as_slice(),
                result.get(),
            ),
            Expr::Quantified {
                span,
                quantifier,
                clauses,
                test,
            } => self.quantified(
                environment,
                *span,
                *quantifier,
                clauses.as_slice(),
                test.get(),
            ),
            Expr::If {
                span,
                condition,
                positive,
                negative,
            } => self.conditional(
                environment,
                *span,
                condition.get(),
                positive.get(),
                negative.get(),
            ),
            Expr::Insert {
                span,
                source,
                place,
                target,
            } => self.insert(environment, *span, source.get(), *place, target.get()),
            Expr::Delete { span, target } => self.delete(environment, *span, target.get()),
            Expr::Replace {
                span,
                is_value,
                target,
                source,
            } => self.replace(environment, *span, *is_value, target.get(), source.get()),
            Expr::Rename {
                span,
                target,
                name,
                ..
            } => self.rename(environment, *span, target.get(), name.get()),
            Expr::Or {
                span,
                first,
                others,
            } => self.or(environment, *span, first.get(), others.as_slice()),
            Expr::And {
                span,
                first,
                others,
            } => self.and(environment, *span, first.get(), others.as_slice()),
            Expr::Comparison {
                span,
                comparator,
                left,
                right,
            } => self.comparison(environment, *span, *comparator, left.get(), right.get()),
            Expr::Range { span, from, to } => self.range(environment, *span, from.get(), to.get()),
            Expr::Additive {
                span,
                first,
                others,
            } => self.additive(environment, *span, first.get(), others.as_slice()),
            Expr::Multiplicative {
                span,
                first,
                others,
            } => self.multiplicative(environment, *span, first.get(), others.as_slice()),
            Expr::Union {
                span,
                first,
                others,
            } => self.union(environment, *span, first.get(), others.as_slice()),
            Expr::Intersection {
                span,
                first,
                others,
            } => self.intersection(environment, *span, first.get(), others.as_slice()),
            Expr::Unary {
                span,
                is_negative,
                operand,
            } => self.unary(environment, *span, *is_negative, operand.get()),
            Expr::Path {
                span,
                start,
                first,
                others,
            } => self.path(environment, *span, *start, first.get(), others.as_slice()),
            Expr::Filter {
                span,
                head,
                predicates,
            } => self.filter(environment, *span, head.get(), predicates.as_slice()),
            Expr::Parenthesized { span, body } => self.parenthesized(environment, *span, body),
            Expr::Computed {
                span,
                kind,
                name,
                body,
            } => self.computed(environment, *span, *kind, name, body),
            Expr::ComputedByValue {
                span,
                kind,
                name,
                body,
                ..
            } => self.computed_by_value(environment, *span, *kind, name.get(), body),
            Expr::ComputedUnnamed { span, kind, body } => self.computed_unnamed(
                environment,
                *span,
                *kind,
                body.get(),
            ),
            Expr::Call {
                span,
                name,
                arguments,
                ..
            } => self.call(environment, *span, name, arguments.as_slice()),
            Expr::Element {
                span,
                name,
                attributes,
                content,
            } => self.element(
                environment,
                *span,
                name,
                attributes.as_slice(),
                content.as_slice(),
            ),
            Expr::AxisStep {
                span,
                axis,
                test,
                ..
            } => self.axis_step(environment, *span, *axis, test),
            Expr::Variable { variable: named } => Ok(Expr::Variable {
                variable: variable(self.alloc, environment, named)?,
            }),
            Expr::Number { span, text } => Ok(Expr::Number {
                span: *span,
                text: text.copy()?,
            }),
            Expr::String {
                span,
                literal: written,
            } => Ok(Expr::String {
                span: *span,
                literal: literal(written)?,
            }),
            Expr::DirectComment { span, text } => Ok(Expr::DirectComment {
                span: *span,
                text: text.copy()?,
            }),
            Expr::DirectInstruction { span, target, text } => Ok(Expr::DirectInstruction {
                span: *span,
                target: target.copy()?,
                text: text.copy()?,
            }),
            Expr::Root { span } => Ok(Expr::Root { span: *span }),
            Expr::ContextItem { span } => Ok(Expr::ContextItem { span: *span }),
        }
    }
}

fn resolve_at(
    alloc: Global,
    depth: usize,
    environment: &mut Environment,
    e: &Expr,
) -> Result<Expr, NoMemory>
    ensures { Gives (spec.resolved e.now) result environment.old environment.new }
{
    if depth == 0 {
        return Err(AllocError);
    }
    Resolver {
        alloc,
        depth: depth - 1,
        resolve: resolve_at,
    }
    .expression(environment, e)
}

/// The expression of a query that has these declarations, with the URI of each name (XQuery 1.0, section 2.1.1): without a
/// prefix that of elements is the default element namespace's, that of functions the functions', and that of others none.
/// Where the name of a computed constructor or of a renaming is an expression, the bindings in force are copied there. The
/// answer is also want of memory where more than 100,000 expressions stand in one another.
pub fn resolve(alloc: Global, declarations: &[Declaration], body: &Expr) -> Result<Expr, NoMemory>
    ensures { IfOk result (λ e. e ≡ spec.resolved body.now (prolog_bindings declarations.now)) }
{
    let mut environment = Environment::outermost(alloc, declarations)?;
    resolve_at(alloc, MAX_DEPTH, &mut environment, body)
}

// Each kind of expression with the URIs of its names.
ghost use Rattle.std.specs.Prelude.{◌≡◌, ◌++◌, map, option_map};
ghost use Rattle.query_terms.specs.Resolved as spec;
ghost use Rattle.query_terms.specs.Static.{declared_in};
ghost use Rattle.name_scopes.specs.Declares.{declared_of};
ghost use Rattle.name_resolver.specs.Gives.{Gives, Resolves, element};

use crate::names::{
    called_function, computed_name, element_name, function_name, scope, test, walked_test,
};
use crate::resolver::Resolver;
use name_scopes::{Environment, declare_all};
use query_terms::{
    Attribute, Clause, Comparator, ComputedKind, Content, Expr, NodeTest, Operand, OrderKey,
    PathStart, PathStep, Place, QName, Quantifier, Span, UnnamedKind,
};
use sqlite_items::Boxed;
use std::alloc::Global;
use tree_model::{Axis, NoMemory};

impl<F: Fn(Global, usize, &mut Environment, &Expr) -> Result<Expr, NoMemory>> Resolver<F> {
    pub(crate) fn comma(
        &self,
        environment: &mut Environment,
        span: Span,
        first: &Expr,
        others: &[Expr],
    ) -> Result<Expr, NoMemory>
        requires { Resolves self.now.depth (F.pre self.now.resolve) (F.post self.now.resolve) }
        ensures { Gives (λ b. Expr.Comma span (spec.resolved first.now b) (spec.each (map spec.resolved others.now) b)) result environment.old environment.new }
    {
        let first = self.boxed(environment, first)?;
        let others = self.all(environment, others)?;
        Ok(Expr::Comma {
            span,
            first,
            others,
        })
    }

    pub(crate) fn flwor(
        &self,
        environment: &mut Environment,
        span: Span,
        clauses: &[Clause],
        condition: &Option<Boxed<Expr>>,
        order: &[OrderKey],
        body: &Expr,
    ) -> Result<Expr, NoMemory>
        requires { Resolves self.now.depth (F.pre self.now.resolve) (F.post self.now.resolve) }
        ensures { Gives (λ b. Expr.Flwor span (spec.each (map spec.clause clauses.now) b) (spec.perhaps (option_map spec.resolved condition.now) b) (spec.each (map spec.key order.now) b) (spec.resolved body.now b)) result environment.old environment.new }
    {
        let clauses = self.clauses(environment, clauses)?;
        let condition = self.maybe(environment, condition)?;
        let order = self.keys(environment, order)?;
        let body = self.boxed(environment, body)?;
        Ok(Expr::Flwor {
            span,
            clauses,
            condition,
            order,
            result: body,
        })
    }

    pub(crate) fn quantified(
        &self,
        environment: &mut Environment,
        span: Span,
        quantifier: Quantifier,
        clauses: &[Clause],
        test: &Expr,
    ) -> Result<Expr, NoMemory>
        requires { Resolves self.now.depth (F.pre self.now.resolve) (F.post self.now.resolve) }
        ensures { Gives (λ b. Expr.Quantified span quantifier (spec.each (map spec.clause clauses.now) b) (spec.resolved test.now b)) result environment.old environment.new }
    {
        let clauses = self.clauses(environment, clauses)?;
        let test = self.boxed(environment, test)?;
        Ok(Expr::Quantified {
            span,
            quantifier,
            clauses,
            test,
        })
    }

    pub(crate) fn conditional(
        &self,
        environment: &mut Environment,
        span: Span,
        condition: &Expr,
        positive: &Expr,
        negative: &Expr,
    ) -> Result<Expr, NoMemory>
        requires { Resolves self.now.depth (F.pre self.now.resolve) (F.post self.now.resolve) }
        ensures { Gives (λ b. Expr.If span (spec.resolved condition.now b) (spec.resolved positive.now b) (spec.resolved negative.now b)) result environment.old environment.new }
    {
        let condition = self.boxed(environment, condition)?;
        let positive = self.boxed(environment, positive)?;
        let negative = self.boxed(environment, negative)?;
        Ok(Expr::If {
            span,
            condition,
            positive,
            negative,
        })
    }

    pub(crate) fn insert(
        &self,
        environment: &mut Environment,
        span: Span,
        source: &Expr,
        place: Place,
        target: &Expr,
    ) -> Result<Expr, NoMemory>
        requires { Resolves self.now.depth (F.pre self.now.resolve) (F.post self.now.resolve) }
        ensures { Gives (λ b. Expr.Insert span (spec.resolved source.now b) place (spec.resolved target.now b)) result environment.old environment.new }
    {
        let source = self.boxed(environment, source)?;
        let target = self.boxed(environment, target)?;
        Ok(Expr::Insert {
            span,
            source,
            place,
            target,
        })
    }

    pub(crate) fn delete(
        &self,
        environment: &mut Environment,
        span: Span,
        target: &Expr,
    ) -> Result<Expr, NoMemory>
        requires { Resolves self.now.depth (F.pre self.now.resolve) (F.post self.now.resolve) }
        ensures { Gives (λ b. Expr.Delete span (spec.resolved target.now b)) result environment.old environment.new }
    {
        let target = self.boxed(environment, target)?;
        Ok(Expr::Delete { span, target })
    }

    pub(crate) fn replace(
        &self,
        environment: &mut Environment,
        span: Span,
        is_value: bool,
        target: &Expr,
        source: &Expr,
    ) -> Result<Expr, NoMemory>
        requires { Resolves self.now.depth (F.pre self.now.resolve) (F.post self.now.resolve) }
        ensures { Gives (λ b. Expr.Replace span is_value (spec.resolved target.now b) (spec.resolved source.now b)) result environment.old environment.new }
    {
        let target = self.boxed(environment, target)?;
        let source = self.boxed(environment, source)?;
        Ok(Expr::Replace {
            span,
            is_value,
            target,
            source,
        })
    }

    pub(crate) fn rename(
        &self,
        environment: &mut Environment,
        span: Span,
        target: &Expr,
        name: &Expr,
    ) -> Result<Expr, NoMemory>
        requires { Resolves self.now.depth (F.pre self.now.resolve) (F.post self.now.resolve) }
        ensures { Gives (λ b. Expr.Rename span (spec.resolved target.now b) (spec.resolved name.now b) (spec.scope_of b)) result environment.old environment.new }
    {
        let target = self.boxed(environment, target)?;
        let name = self.boxed(environment, name)?;
        let scope = scope(self.alloc, environment)?;
        Ok(Expr::Rename {
            span,
            target,
            name,
            scope,
        })
    }

    pub(crate) fn or(
        &self,
        environment: &mut Environment,
        span: Span,
        first: &Expr,
        others: &[Expr],
    ) -> Result<Expr, NoMemory>
        requires { Resolves self.now.depth (F.pre self.now.resolve) (F.post self.now.resolve) }
        ensures { Gives (λ b. Expr.Or span (spec.resolved first.now b) (spec.each (map spec.resolved others.now) b)) result environment.old environment.new }
    {
        let first = self.boxed(environment, first)?;
        let others = self.all(environment, others)?;
        Ok(Expr::Or {
            span,
            first,
            others,
        })
    }

    pub(crate) fn and(
        &self,
        environment: &mut Environment,
        span: Span,
        first: &Expr,
        others: &[Expr],
    ) -> Result<Expr, NoMemory>
        requires { Resolves self.now.depth (F.pre self.now.resolve) (F.post self.now.resolve) }
        ensures { Gives (λ b. Expr.And span (spec.resolved first.now b) (spec.each (map spec.resolved others.now) b)) result environment.old environment.new }
    {
        let first = self.boxed(environment, first)?;
        let others = self.all(environment, others)?;
        Ok(Expr::And {
            span,
            first,
            others,
        })
    }

    pub(crate) fn comparison(
        &self,
        environment: &mut Environment,
        span: Span,
        comparator: Comparator,
        left: &Expr,
        right: &Expr,
    ) -> Result<Expr, NoMemory>
        requires { Resolves self.now.depth (F.pre self.now.resolve) (F.post self.now.resolve) }
        ensures { Gives (λ b. Expr.Comparison span comparator (spec.resolved left.now b) (spec.resolved right.now b)) result environment.old environment.new }
    {
        let left = self.boxed(environment, left)?;
        let right = self.boxed(environment, right)?;
        Ok(Expr::Comparison {
            span,
            comparator,
            left,
            right,
        })
    }

    pub(crate) fn range(
        &self,
        environment: &mut Environment,
        span: Span,
        from: &Expr,
        to: &Expr,
    ) -> Result<Expr, NoMemory>
        requires { Resolves self.now.depth (F.pre self.now.resolve) (F.post self.now.resolve) }
        ensures { Gives (λ b. Expr.Range span (spec.resolved from.now b) (spec.resolved to.now b)) result environment.old environment.new }
    {
        let from = self.boxed(environment, from)?;
        let to = self.boxed(environment, to)?;
        Ok(Expr::Range { span, from, to })
    }

    pub(crate) fn additive(
        &self,
        environment: &mut Environment,
        span: Span,
        first: &Expr,
        others: &[Operand],
    ) -> Result<Expr, NoMemory>
        requires { Resolves self.now.depth (F.pre self.now.resolve) (F.post self.now.resolve) }
        ensures { Gives (λ b. Expr.Additive span (spec.resolved first.now b) (spec.each (map spec.operand others.now) b)) result environment.old environment.new }
    {
        let first = self.boxed(environment, first)?;
        let others = self.operands(environment, others)?;
        Ok(Expr::Additive {
            span,
            first,
            others,
        })
    }

    pub(crate) fn multiplicative(
        &self,
        environment: &mut Environment,
        span: Span,
        first: &Expr,
        others: &[Operand],
    ) -> Result<Expr, NoMemory>
        requires { Resolves self.now.depth (F.pre self.now.resolve) (F.post self.now.resolve) }
        ensures { Gives (λ b. Expr.Multiplicative span (spec.resolved first.now b) (spec.each (map spec.operand others.now) b)) result environment.old environment.new }
    {
        let first = self.boxed(environment, first)?;
        let others = self.operands(environment, others)?;
        Ok(Expr::Multiplicative {
            span,
            first,
            others,
        })
    }

    pub(crate) fn union(
        &self,
        environment: &mut Environment,
        span: Span,
        first: &Expr,
        others: &[Expr],
    ) -> Result<Expr, NoMemory>
        requires { Resolves self.now.depth (F.pre self.now.resolve) (F.post self.now.resolve) }
        ensures { Gives (λ b. Expr.Union span (spec.resolved first.now b) (spec.each (map spec.resolved others.now) b)) result environment.old environment.new }
    {
        let first = self.boxed(environment, first)?;
        let others = self.all(environment, others)?;
        Ok(Expr::Union {
            span,
            first,
            others,
        })
    }

    pub(crate) fn intersection(
        &self,
        environment: &mut Environment,
        span: Span,
        first: &Expr,
        others: &[Operand],
    ) -> Result<Expr, NoMemory>
        requires { Resolves self.now.depth (F.pre self.now.resolve) (F.post self.now.resolve) }
        ensures { Gives (λ b. Expr.Intersection span (spec.resolved first.now b) (spec.each (map spec.operand others.now) b)) result environment.old environment.new }
    {
        let first = self.boxed(environment, first)?;
        let others = self.operands(environment, others)?;
        Ok(Expr::Intersection {
            span,
            first,
            others,
        })
    }

    pub(crate) fn unary(
        &self,
        environment: &mut Environment,
        span: Span,
        is_negative: bool,
        part: &Expr,
    ) -> Result<Expr, NoMemory>
        requires { Resolves self.now.depth (F.pre self.now.resolve) (F.post self.now.resolve) }
        ensures { Gives (λ b. Expr.Unary span is_negative (spec.resolved part.now b)) result environment.old environment.new }
    {
        let part = self.boxed(environment, part)?;
        Ok(Expr::Unary {
            span,
            is_negative,
            operand: part,
        })
    }

    pub(crate) fn path(
        &self,
        environment: &mut Environment,
        span: Span,
        start: PathStart,
        first: &Expr,
        others: &[PathStep],
    ) -> Result<Expr, NoMemory>
        requires { Resolves self.now.depth (F.pre self.now.resolve) (F.post self.now.resolve) }
        ensures { Gives (λ b. Expr.Path span start (spec.resolved first.now b) (spec.each (map spec.step others.now) b)) result environment.old environment.new }
    {
        let first = self.boxed(environment, first)?;
        let others = self.steps(environment, others)?;
        Ok(Expr::Path {
            span,
            start,
            first,
            others,
        })
    }

    pub(crate) fn filter(
        &self,
        environment: &mut Environment,
        span: Span,
        head: &Expr,
        predicates: &[Expr],
    ) -> Result<Expr, NoMemory>
        requires { Resolves self.now.depth (F.pre self.now.resolve) (F.post self.now.resolve) }
        ensures { Gives (λ b. Expr.Filter span (spec.resolved head.now b) (spec.each (map spec.resolved predicates.now) b)) result environment.old environment.new }
    {
        let head = self.boxed(environment, head)?;
        let predicates = self.all(environment, predicates)?;
        Ok(Expr::Filter {
            span,
            head,
            predicates,
        })
    }

    pub(crate) fn parenthesized(
        &self,
        environment: &mut Environment,
        span: Span,
        body: &Option<Boxed<Expr>>,
    ) -> Result<Expr, NoMemory>
        requires { Resolves self.now.depth (F.pre self.now.resolve) (F.post self.now.resolve) }
        ensures { Gives (λ b. Expr.Parenthesized span (spec.perhaps (option_map spec.resolved body.now) b)) result environment.old environment.new }
    {
        let body = self.maybe(environment, body)?;
        Ok(Expr::Parenthesized { span, body })
    }

    pub(crate) fn computed(
        &self,
        environment: &mut Environment,
        span: Span,
        kind: ComputedKind,
        name: &QName,
        body: &Option<Boxed<Expr>>,
    ) -> Result<Expr, NoMemory>
        requires { Resolves self.now.depth (F.pre self.now.resolve) (F.post self.now.resolve) }
        ensures { Gives (λ b. Expr.Computed span kind (spec.computed_name kind b name.now) (spec.perhaps (option_map spec.resolved body.now) b)) result environment.old environment.new }
    {
        let name = computed_name(self.alloc, environment, kind, name)?;
        let body = self.maybe(environment, body)?;
        Ok(Expr::Computed {
            span,
            kind,
            name,
            body,
        })
    }

    pub(crate) fn computed_by_value(
        &self,
        environment: &mut Environment,
        span: Span,
        kind: ComputedKind,
        name: &Expr,
        body: &Option<Boxed<Expr>>,
    ) -> Result<Expr, NoMemory>
        requires { Resolves self.now.depth (F.pre self.now.resolve) (F.post self.now.resolve) }
        ensures { Gives (λ b. Expr.ComputedByValue span kind (spec.resolved name.now b) (spec.scope_of b) (spec.perhaps (option_map spec.resolved body.now) b)) result environment.old environment.new }
    {
        let name = self.boxed(environment, name)?;
        let scope = scope(self.alloc, environment)?;
        let body = self.maybe(environment, body)?;
        Ok(Expr::ComputedByValue {
            span,
            kind,
            name,
            scope,
            body,
        })
    }

    pub(crate) fn computed_unnamed(
        &self,
        environment: &mut Environment,
        span: Span,
        kind: UnnamedKind,
        body: &Expr,
    ) -> Result<Expr, NoMemory>
        requires { Resolves self.now.depth (F.pre self.now.resolve) (F.post self.now.resolve) }
        ensures { Gives (λ b. Expr.ComputedUnnamed span kind (spec.resolved body.now b)) result environment.old environment.new }
    {
        let body = self.boxed(environment, body)?;
        Ok(Expr::ComputedUnnamed { span, kind, body })
    }

    pub(crate) fn call(
        &self,
        environment: &mut Environment,
        span: Span,
        name: &QName,
        arguments: &[Expr],
    ) -> Result<Expr, NoMemory>
        requires { Resolves self.now.depth (F.pre self.now.resolve) (F.post self.now.resolve) }
        ensures { Gives (λ b. spec.function_call span (spec.function_name b name.now) (spec.each (map spec.resolved arguments.now) b)) result environment.old environment.new }
    {
        let name = function_name(self.alloc, environment, name)?;
        let arguments = self.all(environment, arguments)?;
        let function = called_function(&name);
        Ok(Expr::Call {
            span,
            name,
            arguments,
            function,
        })
    }

    pub(crate) fn axis_step(
        &self,
        environment: &mut Environment,
        span: Span,
        axis: Axis,
        written: &NodeTest,
    ) -> Result<Expr, NoMemory>
        ensures { Gives (λ b. spec.axis_step span axis (spec.resolved_test axis written.now b)) result environment.old environment.new }
    {
        let test = test(self.alloc, environment, axis, written)?;
        let tested = Some(walked_test(&test)?);
        Ok(Expr::AxisStep {
            span,
            axis,
            test,
            tested,
        })
    }

    pub(crate) fn in_element(
        &self,
        environment: &mut Environment,
        span: Span,
        name: &QName,
        attributes: &[Attribute],
        content: &[Content],
    ) -> Result<Expr, NoMemory>
        requires { Resolves self.now.depth (F.pre self.now.resolve) (F.post self.now.resolve) }
        ensures { Gives (element span name.now attributes.now content.now) result environment.old environment.new }
    {
        let name = element_name(self.alloc, environment, name)?;
        let attributes = self.attributes(environment, attributes)?;
        let content = self.contents(environment, content)?;
        Ok(Expr::Element {
            span,
            name,
            attributes,
            content,
        })
    }

    pub(crate) fn element(
        &self,
        environment: &mut Environment,
        span: Span,
        name: &QName,
        attributes: &[Attribute],
        content: &[Content],
    ) -> Result<Expr, NoMemory>
        requires { Resolves self.now.depth (F.pre self.now.resolve) (F.post self.now.resolve) }
        ensures { Gives (λ b. element span name.now attributes.now content.now (b ++ declared_in (map declared_of attributes.now))) result environment.old environment.new }
    {
        let count = environment.binding_count();
        declare_all(self.alloc, environment, attributes)?;
        let element = self.in_element(environment, span, name, attributes, content)?;
        environment.keep_bindings(count);
        Ok(element)
    }
}

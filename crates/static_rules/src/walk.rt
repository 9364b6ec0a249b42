// The walk over a query that finds its first fault, each kind of term by itself. The function that walks over a part is a
// parameter, so that each is proved alone.
ghost use Rattle.std.specs.Prelude.{◌≡◌, map, option_map};
ghost use Rattle.query_terms.specs.Static as spec;
ghost use Rattle.static_rules.specs.Walked.{Walked, WalkedInto, Walks};

use crate::state::State;
use name_scopes::{declare_all, is_declaration};
use query_terms::{Attribute, Clause, Content, Expr, Operand, OrderKey, PathStep, QName, Variable};
use sqlite_items::Boxed;
use std::alloc::{AllocError, Global};
use tree_model::NoMemory;

#[derive(Clone, Copy)]
pub(crate) struct Walk<F> {
    pub(crate) alloc: Global,
    pub(crate) depth: usize,
    pub(crate) walk: F,
}

impl<F: Fn(Global, usize, &mut State, &Expr) -> Result<(), NoMemory>> Walk<F> {
    fn part(&self, state: &mut State, e: &Expr) -> Result<(), NoMemory>
        requires { Walks self.now.depth (F.pre self.now.walk) (F.post self.now.walk) }
        ensures { Walked (spec.faults e.now) result state.old state.new }
    {
        (self.walk)(self.alloc, self.depth, state, e)
    }

    #[tactic(auto, unfolding(query_terms::specs::Static::both))]
    fn both(&self, state: &mut State, first: &Expr, second: &Expr) -> Result<(), NoMemory>
        requires { Walks self.now.depth (F.pre self.now.walk) (F.post self.now.walk) }
        ensures { Walked (spec.both (spec.faults first.now) (spec.faults second.now)) result state.old state.new }
    {
        self.part(state, first)?;
        self.part(state, second)
    }

    #[tactic(auto, unfolding(query_terms::specs::Static::choice))]
    fn choice(
        &self,
        state: &mut State,
        condition: &Expr,
        positive: &Expr,
        negative: &Expr,
    ) -> Result<(), NoMemory>
        requires { Walks self.now.depth (F.pre self.now.walk) (F.post self.now.walk) }
        ensures { Walked (spec.choice (spec.faults condition.now) (spec.faults positive.now) (spec.faults negative.now)) result state.old state.new }
    {
        self.part(state, condition)?;
        self.part(state, positive)?;
        self.part(state, negative)
    }

    #[tactic(auto, unfolding(query_terms::specs::Static::maybe))]
    fn maybe(&self, state: &mut State, part: &Option<Boxed<Expr>>) -> Result<(), NoMemory>
        requires { Walks self.now.depth (F.pre self.now.walk) (F.post self.now.walk) }
        ensures { Walked (spec.maybe (option_map spec.faults part.now)) result state.old state.new }
    {
        match part {
            Some(part) => self.part(state, part.get()),
            None => Ok(()),
        }
    }

    #[tactic(auto, unfolding(query_terms::specs::Static::all), using(query_terms::proofs::Folds::by_part))]
    fn all(&self, state: &mut State, mut parts: &[Expr]) -> Result<(), NoMemory>
        requires { Walks self.now.depth (F.pre self.now.walk) (F.post self.now.walk) }
        ensures { Walked (spec.all (map spec.faults parts.entry.now)) result state.old state.new }
    {
        while let [first, more @ ..] = parts {
            self.part(state, first)?;
            parts = more;
        }
        Ok(())
    }

    fn operand(&self, state: &mut State, operand: &Operand) -> Result<(), NoMemory>
        requires { Walks self.now.depth (F.pre self.now.walk) (F.post self.now.walk) }
        ensures { Walked (spec.operand operand.now) result state.old state.new }
    {
        self.part(state, operand.operand.get())
    }

    #[tactic(auto, unfolding(query_terms::specs::Static::all))]
    fn all_operands(&self, state: &mut State, mut parts: &[Operand]) -> Result<(), NoMemory>
        requires { Walks self.now.depth (F.pre self.now.walk) (F.post self.now.walk) }
        ensures { Walked (spec.all (map spec.operand parts.entry.now)) result state.old state.new }
    {
        while let [first, more @ ..] = parts {
            self.operand(state, first)?;
            parts = more;
        }
        Ok(())
    }

    fn step(&self, state: &mut State, step: &PathStep) -> Result<(), NoMemory>
        requires { Walks self.now.depth (F.pre self.now.walk) (F.post self.now.walk) }
        ensures { Walked (spec.step step.now) result state.old state.new }
    {
        self.part(state, step.step.get())
    }

    #[tactic(auto, unfolding(query_terms::specs::Static::all))]
    fn all_steps(&self, state: &mut State, mut parts: &[PathStep]) -> Result<(), NoMemory>
        requires { Walks self.now.depth (F.pre self.now.walk) (F.post self.now.walk) }
        ensures { Walked (spec.all (map spec.step parts.entry.now)) result state.old state.new }
    {
        while let [first, more @ ..] = parts {
            self.step(state, first)?;
            parts = more;
        }
        Ok(())
    }

    fn key(&self, state: &mut State, key: &OrderKey) -> Result<(), NoMemory>
        requires { Walks self.now.depth (F.pre self.now.walk) (F.post self.now.walk) }
        ensures { Walked (spec.key key.now) result state.old state.new }
    {
        self.part(state, key.key.get())
    }

    #[tactic(auto, unfolding(query_terms::specs::Static::all))]
    fn all_keys(&self, state: &mut State, mut parts: &[OrderKey]) -> Result<(), NoMemory>
        requires { Walks self.now.depth (F.pre self.now.walk) (F.post self.now.walk) }
        ensures { Walked (spec.all (map spec.key parts.entry.now)) result state.old state.new }
    {
        while let [first, more @ ..] = parts {
            self.key(state, first)?;
            parts = more;
        }
        Ok(())
    }

    #[tactic(auto, unfolding(query_terms::specs::Static::many))]
    fn many(&self, state: &mut State, first: &Expr, others: &[Expr]) -> Result<(), NoMemory>
        requires { Walks self.now.depth (F.pre self.now.walk) (F.post self.now.walk) }
        ensures { Walked (spec.many (spec.faults first.now) (map spec.faults others.now)) result state.old state.new }
    {
        self.part(state, first)?;
        self.all(state, others)
    }

    #[tactic(auto, unfolding(query_terms::specs::Static::many))]
    fn many_operands(
        &self,
        state: &mut State,
        first: &Expr,
        others: &[Operand],
    ) -> Result<(), NoMemory>
        requires { Walks self.now.depth (F.pre self.now.walk) (F.post self.now.walk) }
        ensures { Walked (spec.many (spec.faults first.now) (map spec.operand others.now)) result state.old state.new }
    {
        self.part(state, first)?;
        self.all_operands(state, others)
    }

    #[tactic(auto, unfolding(query_terms::specs::Static::many))]
    fn many_steps(
        &self,
        state: &mut State,
        first: &Expr,
        others: &[PathStep],
    ) -> Result<(), NoMemory>
        requires { Walks self.now.depth (F.pre self.now.walk) (F.post self.now.walk) }
        ensures { Walked (spec.many (spec.faults first.now) (map spec.step others.now)) result state.old state.new }
    {
        self.part(state, first)?;
        self.all_steps(state, others)
    }

    #[tactic(auto, unfolding(query_terms::specs::Static::for_faults, query_terms::specs::Static::for_behind))]
    fn for_clause(
        &self,
        state: &mut State,
        variable: &Variable,
        position: &Option<Variable>,
        source: &Expr,
    ) -> Result<(), NoMemory>
        requires { Walks self.now.depth (F.pre self.now.walk) (F.post self.now.walk) }
        ensures { WalkedInto (spec.for_faults variable.now position.now (spec.faults source.now)) (spec.for_behind variable.now position.now) result state.old state.new }
    {
        state.note_name(&variable.name);
        state.note_position(variable, position);
        self.part(state, source)?;
        state.environment.bind(self.alloc, variable)?;
        match position {
            Some(position) => state.environment.bind(self.alloc, position),
            None => Ok(()),
        }
    }

    #[tactic(auto, unfolding(query_terms::specs::Static::let_faults))]
    fn let_clause(
        &self,
        state: &mut State,
        variable: &Variable,
        value: &Expr,
    ) -> Result<(), NoMemory>
        requires { Walks self.now.depth (F.pre self.now.walk) (F.post self.now.walk) }
        ensures { WalkedInto (spec.let_faults variable.now (spec.faults value.now)) (spec.with_variable variable.now) result state.old state.new }
    {
        state.note_name(&variable.name);
        self.part(state, value)?;
        state.environment.bind(self.alloc, variable)
    }

    #[tactic(auto, using(query_terms::proofs::Folds::by_part))]
    fn clause(&self, state: &mut State, clause: &Clause) -> Result<(), NoMemory>
        requires { Walks self.now.depth (F.pre self.now.walk) (F.post self.now.walk) }
        ensures { WalkedInto (spec.clause clause.now).faults (spec.clause clause.now).behind result state.old state.new }
    {
        match clause {
            Clause::For {
                variable,
                position,
                source,
            } => self.for_clause(state, variable, position, source.get()),
            Clause::Let { variable, value } => self.let_clause(state, variable, value.get()),
        }
    }

    #[tactic(auto, unfolding(query_terms::specs::Static::clauses_faults, query_terms::specs::Static::clauses_behind))]
    fn clauses(&self, state: &mut State, mut parts: &[Clause]) -> Result<(), NoMemory>
        requires { Walks self.now.depth (F.pre self.now.walk) (F.post self.now.walk) }
        ensures { WalkedInto (spec.clauses_faults (map spec.clause parts.entry.now)) (spec.clauses_behind (map spec.clause parts.entry.now)) result state.old state.new }
    {
        while let [first, more @ ..] = parts {
            self.clause(state, first)?;
            parts = more;
        }
        Ok(())
    }

    #[tactic(auto, unfolding(query_terms::specs::Static::behind_clauses))]
    fn behind_clauses(
        &self,
        state: &mut State,
        condition: &Option<Boxed<Expr>>,
        order: &[OrderKey],
        body: &Expr,
    ) -> Result<(), NoMemory>
        requires { Walks self.now.depth (F.pre self.now.walk) (F.post self.now.walk) }
        ensures { Walked (spec.behind_clauses (option_map spec.faults condition.now) (map spec.key order.now) (spec.faults body.now)) result state.old state.new }
    {
        self.maybe(state, condition)?;
        self.all_keys(state, order)?;
        self.part(state, body)
    }

    #[tactic(auto, unfolding(query_terms::specs::Static::flwor, query_terms::specs::Static::within))]
    fn flwor(
        &self,
        state: &mut State,
        clauses: &[Clause],
        condition: &Option<Boxed<Expr>>,
        order: &[OrderKey],
        body: &Expr,
    ) -> Result<(), NoMemory>
        requires { Walks self.now.depth (F.pre self.now.walk) (F.post self.now.walk) }
        ensures { Walked (spec.flwor (map spec.clause clauses.now) (option_map spec.faults condition.now) (map spec.key order.now) (spec.faults body.now)) result state.old state.new }
    {
        let count = state.environment.variable_count();
        self.clauses(state, clauses)?;
        self.behind_clauses(state, condition, order, body)?;
        state.environment.keep_variables(count);
        Ok(())
    }

    #[tactic(auto, unfolding(query_terms::specs::Static::within))]
    fn quantified(&self, state: &mut State, clauses: &[Clause], test: &Expr) -> Result<(), NoMemory>
        requires { Walks self.now.depth (F.pre self.now.walk) (F.post self.now.walk) }
        ensures { Walked (spec.within (map spec.clause clauses.now) (spec.faults test.now)) result state.old state.new }
    {
        let count = state.environment.variable_count();
        self.clauses(state, clauses)?;
        self.part(state, test)?;
        state.environment.keep_variables(count);
        Ok(())
    }

    #[tactic(auto, using(query_terms::proofs::Folds::by_part))]
    fn content(&self, state: &mut State, content: &Content) -> Result<(), NoMemory>
        requires { Walks self.now.depth (F.pre self.now.walk) (F.post self.now.walk) }
        ensures { Walked (spec.content content.now).faults result state.old state.new }
    {
        match content {
            Content::Characters(literal) => {
                state.found.note_literal(literal);
                Ok(())
            }
            Content::Enclosed(body) => self.part(state, body.get()),
            Content::Constructor(body) => self.part(state, body.get()),
        }
    }

    #[tactic(auto, unfolding(query_terms::specs::Static::contents_faults), using(query_terms::proofs::Folds::by_part))]
    fn contents(&self, state: &mut State, mut parts: &[Content]) -> Result<(), NoMemory>
        requires { Walks self.now.depth (F.pre self.now.walk) (F.post self.now.walk) }
        ensures { Walked (spec.contents_faults (map spec.content parts.entry.now)) result state.old state.new }
    {
        while let [first, more @ ..] = parts {
            self.content(state, first)?;
            parts = more;
        }
        Ok(())
    }

    #[tactic(auto, unfolding(query_terms::specs::Static::attribute_faults))]
    fn attribute_parts(
        &self,
        state: &mut State,
        name: &QName,
        value: &[Content],
    ) -> Result<(), NoMemory>
        requires { Walks self.now.depth (F.pre self.now.walk) (F.post self.now.walk) }
        ensures { Walked (spec.attribute_faults name.now (map spec.content value.now)) result state.old state.new }
    {
        if !is_declaration(&name.name) {
            state.note_name(name);
        }
        self.contents(state, value)
    }

    fn attribute(&self, state: &mut State, attribute: &Attribute) -> Result<(), NoMemory>
        requires { Walks self.now.depth (F.pre self.now.walk) (F.post self.now.walk) }
        ensures { Walked (spec.attribute attribute.now).faults result state.old state.new }
    {
        self.attribute_parts(state, &attribute.name, attribute.value.as_slice())
    }

    #[tactic(auto, unfolding(query_terms::specs::Static::attributes_faults), using(query_terms::proofs::Folds::by_part))]
    fn attributes(&self, state: &mut State, mut parts: &[Attribute]) -> Result<(), NoMemory>
        requires { Walks self.now.depth (F.pre self.now.walk) (F.post self.now.walk) }
        ensures { Walked (spec.attributes_faults (map spec.attribute parts.entry.now)) result state.old state.new }
    {
        while let [first, more @ ..] = parts {
            self.attribute(state, first)?;
            parts = more;
        }
        Ok(())
    }

    #[tactic(auto, unfolding(query_terms::specs::Static::in_element))]
    fn in_element(
        &self,
        state: &mut State,
        name: &QName,
        attributes: &[Attribute],
        content: &[Content],
    ) -> Result<(), NoMemory>
        requires { Walks self.now.depth (F.pre self.now.walk) (F.post self.now.walk) }
        ensures { Walked (spec.in_element name.now (map spec.attribute attributes.now) (map spec.content content.now)) result state.old state.new }
    {
        state.note_name(name);
        self.attributes(state, attributes)?;
        self.contents(state, content)
    }

    #[tactic(auto, unfolding(query_terms::specs::Static::element))]
    fn element(
        &self,
        state: &mut State,
        name: &QName,
        attributes: &[Attribute],
        content: &[Content],
    ) -> Result<(), NoMemory>
        requires { Walks self.now.depth (F.pre self.now.walk) (F.post self.now.walk) }
        ensures { Walked (spec.element name.now (map spec.attribute attributes.now) (map spec.content content.now)) result state.old state.new }
    {
        let count = state.environment.binding_count();
        declare_all(self.alloc, &mut state.environment, attributes)?;
        self.in_element(state, name, attributes, content)?;
        state.environment.keep_bindings(count);
        Ok(())
    }

    #[tactic(auto, unfolding(query_terms::specs::Static::computed))]
    fn computed(
        &self,
        state: &mut State,
        name: &QName,
        body: &Option<Boxed<Expr>>,
    ) -> Result<(), NoMemory>
        requires { Walks self.now.depth (F.pre self.now.walk) (F.post self.now.walk) }
        ensures { Walked (spec.computed name.now (option_map spec.faults body.now)) result state.old state.new }
    {
        state.note_name(name);
        self.maybe(state, body)
    }

    #[tactic(auto, unfolding(query_terms::specs::Static::computed_by_value))]
    fn computed_by_value(
        &self,
        state: &mut State,
        name: &Expr,
        body: &Option<Boxed<Expr>>,
    ) -> Result<(), NoMemory>
        requires { Walks self.now.depth (F.pre self.now.walk) (F.post self.now.walk) }
        ensures { Walked (spec.computed_by_value (spec.faults name.now) (option_map spec.faults body.now)) result state.old state.new }
    {
        self.part(state, name)?;
        self.maybe(state, body)
    }

    #[tactic(auto, unfolding(query_terms::specs::Static::call))]
    fn call(&self, state: &mut State, name: &QName, arguments: &[Expr]) -> Result<(), NoMemory>
        requires { Walks self.now.depth (F.pre self.now.walk) (F.post self.now.walk) }
        ensures { Walked (spec.call name.now (map spec.faults arguments.now)) result state.old state.new }
    {
        state.note_call(name, arguments.len());
        self.all(state, arguments)
    }

    // Each kind of expression by itself.
    #[tactic(auto, using(query_terms::proofs::Folds::by_kind))]
    fn expression(&self, state: &mut State, e: &Expr) -> Result<(), NoMemory>
        requires { Walks self.now.depth (F.pre self.now.walk) (F.post self.now.walk) }
        ensures { Walked (spec.faults e.now) result state.old state.new }
    {
        match e {
            Expr::Comma { first, others, .. }
            | Expr::Or { first, others, .. }
            | Expr::And { first, others, .. }
            | Expr::Union { first, others, .. }
            | Expr::Filter {
                head: first,
                predicates: others,
                ..
            } => self.many(state, first.get(), others.as_slice()),
            Expr::Additive { first, others, .. }
            | Expr::Multiplicative { first, others, .. }
            | Expr::Intersection { first, others, .. } => {
                self.many_operands(state, first.get(), others.as_slice())
            }
            Expr::Path { first, others, .. } => {
                self.many_steps(state, first.get(), others.as_slice())
            }
            Expr::Flwor {
                clauses,
                condition,
                order,
                result,
                ..
            } => self.flwor(
                state,
                clauses.as_slice(),
                condition,
                order.as_slice(),
                result.get(),
            ),
            Expr::Quantified { clauses, test, .. } => {
                self.quantified(state, clauses.as_slice(), test.get())
            }
            Expr::If {
                condition,
                positive,
                negative,
                ..
            } => self.choice(state, condition.get(), positive.get(), negative.get()),
            Expr::Insert {
                source: first,
                target: second,
                ..
            }
            | Expr::Replace {
                target: first,
                source: second,
                ..
            }
            | Expr::Rename {
                target: first,
                name: second,
                ..
            }
            | Expr::Comparison {
                left: first,
                right: second,
                ..
            }
            | Expr::Range {
                from: first,
                to: second,
                ..
            } => self.both(state, first.get(), second.get()),
            Expr::Delete { target: part, .. }
            | Expr::Unary { operand: part, .. }
            | Expr::ComputedUnnamed { body: part, .. } => self.part(state, part.get()),
            Expr::Parenthesized { body, .. } => self.maybe(state, body),
            Expr::Element {
                name,
                attributes,
                content,
                ..
            } => self.element(state, name, attributes.as_slice(), content.as_slice()),
            Expr::Computed { name, body, .. } => self.computed(state, name, body),
            Expr::ComputedByValue { name, body, .. } => {
                self.computed_by_value(state, name.get(), body)
            }
            Expr::Call {
                name,
                arguments,
                ..
            } => self.call(state, name, arguments.as_slice()),
            Expr::AxisStep { test, .. } => {
                state.note_test(test);
                Ok(())
            }
            Expr::Number { span, text } => {
                state.found.note_number(*span, text);
                Ok(())
            }
            Expr::String { literal, .. } => {
                state.found.note_literal(literal);
                Ok(())
            }
            Expr::Variable { variable } => {
                state.note_variable(variable);
                Ok(())
            }
            Expr::Root { .. }
            | Expr::ContextItem { .. }
            | Expr::DirectComment { .. }
            | Expr::DirectInstruction { .. } => Ok(()),
        }
    }
}

// Finds the faults of an expression. At depth 0 the answer is want of memory.
pub(crate) fn find(alloc: Global, depth: usize, state: &mut State, e: &Expr) -> Result<(), NoMemory>
    ensures { Walked (spec.faults e.now) result state.old state.new }
{
    if depth == 0 {
        return Err(AllocError);
    }
    Walk {
        alloc,
        depth: depth - 1,
        walk: find,
    }
    .expression(state, e)
}

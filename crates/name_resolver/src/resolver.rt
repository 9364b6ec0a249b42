// The parts of a query with the URIs of their names, and lists of them. The function that resolves an expression is a parameter,
// so that each kind of part is proved alone.
ghost use Rattle.std.specs.Prelude.{◌≡◌, map, option_map};
ghost use Rattle.query_terms.specs.Resolved as spec;
ghost use Rattle.name_resolver.specs.Gives.{Gives, Resolves};

use crate::names::{bare_name, literal, maybe_text, maybe_variable, variable};
use name_scopes::Environment;
use query_terms::{Attribute, Clause, Content, Expr, Operand, OrderKey, PathStep};
use sqlite_items::{Boxed, Items};
use std::alloc::Global;
use tree_model::NoMemory;

#[derive(Clone, Copy)]
pub(crate) struct Resolver<F> {
    pub(crate) alloc: Global,
    pub(crate) depth: usize,
    pub(crate) resolve: F,
}

impl<F: Fn(Global, usize, &mut Environment, &Expr) -> Result<Expr, NoMemory>> Resolver<F> {
    pub(crate) fn part(&self, environment: &mut Environment, e: &Expr) -> Result<Expr, NoMemory>
        requires { Resolves self.now.depth (F.pre self.now.resolve) (F.post self.now.resolve) }
        ensures { Gives (spec.resolved e.now) result environment.old environment.new }
    {
        (self.resolve)(self.alloc, self.depth, environment, e)
    }

    pub(crate) fn boxed(
        &self,
        environment: &mut Environment,
        e: &Expr,
    ) -> Result<Boxed<Expr>, NoMemory>
        requires { Resolves self.now.depth (F.pre self.now.resolve) (F.post self.now.resolve) }
        ensures { Gives (spec.resolved e.now) result environment.old environment.new }
    {
        let e = self.part(environment, e)?;
        Ok(Boxed::new(self.alloc, e)?)
    }

    #[tactic(auto, unfolding(query_terms::specs::Resolved::perhaps))]
    pub(crate) fn maybe(
        &self,
        environment: &mut Environment,
        part: &Option<Boxed<Expr>>,
    ) -> Result<Option<Boxed<Expr>>, NoMemory>
        requires { Resolves self.now.depth (F.pre self.now.resolve) (F.post self.now.resolve) }
        ensures { Gives (spec.perhaps (option_map spec.resolved part.now)) result environment.old environment.new }
    {
        match part {
            Some(part) => Ok(Some(self.boxed(environment, part.get())?)),
            None => Ok(None),
        }
    }

    #[tactic(auto, using(query_terms::proofs::Folds::operand_is))]
    pub(crate) fn operand(
        &self,
        environment: &mut Environment,
        operand: &Operand,
    ) -> Result<Operand, NoMemory>
        requires { Resolves self.now.depth (F.pre self.now.resolve) (F.post self.now.resolve) }
        ensures { Gives (spec.operand operand.now) result environment.old environment.new }
    {
        Ok(Operand {
            operator: operand.operator,
            operand: self.boxed(environment, operand.operand.get())?,
        })
    }

    #[tactic(auto, using(query_terms::proofs::Folds::step_is))]
    pub(crate) fn step(
        &self,
        environment: &mut Environment,
        step: &PathStep,
    ) -> Result<PathStep, NoMemory>
        requires { Resolves self.now.depth (F.pre self.now.resolve) (F.post self.now.resolve) }
        ensures { Gives (spec.step step.now) result environment.old environment.new }
    {
        Ok(PathStep {
            is_deep: step.is_deep,
            step: self.boxed(environment, step.step.get())?,
        })
    }

    #[tactic(auto, using(query_terms::proofs::Folds::key_is))]
    pub(crate) fn key(
        &self,
        environment: &mut Environment,
        key: &OrderKey,
    ) -> Result<OrderKey, NoMemory>
        requires { Resolves self.now.depth (F.pre self.now.resolve) (F.post self.now.resolve) }
        ensures { Gives (spec.key key.now) result environment.old environment.new }
    {
        Ok(OrderKey {
            key: self.boxed(environment, key.key.get())?,
            is_descending: key.is_descending,
            is_empty_greatest: key.is_empty_greatest,
        })
    }

    #[tactic(auto, using(query_terms::proofs::Folds::by_part))]
    pub(crate) fn clause(
        &self,
        environment: &mut Environment,
        clause: &Clause,
    ) -> Result<Clause, NoMemory>
        requires { Resolves self.now.depth (F.pre self.now.resolve) (F.post self.now.resolve) }
        ensures { Gives (spec.clause clause.now) result environment.old environment.new }
    {
        match clause {
            Clause::For {
                variable: bound,
                position,
                source,
            } => Ok(Clause::For {
                variable: variable(self.alloc, environment, bound)?,
                position: maybe_variable(self.alloc, environment, position)?,
                source: self.boxed(environment, source.get())?,
            }),
            Clause::Let {
                variable: bound,
                value,
            } => Ok(Clause::Let {
                variable: variable(self.alloc, environment, bound)?,
                value: self.boxed(environment, value.get())?,
            }),
        }
    }

    #[tactic(auto, using(query_terms::proofs::Folds::by_part))]
    pub(crate) fn content(
        &self,
        environment: &mut Environment,
        content: &Content,
    ) -> Result<Content, NoMemory>
        requires { Resolves self.now.depth (F.pre self.now.resolve) (F.post self.now.resolve) }
        ensures { Gives ((spec.content content.now).resolved) result environment.old environment.new }
    {
        match content {
            Content::Characters(characters) => Ok(Content::Characters(literal(characters)?)),
            Content::Enclosed(body) => Ok(Content::Enclosed(self.boxed(environment, body.get())?)),
            Content::Constructor(body) => Ok(Content::Constructor(self.boxed(
                environment,
                body.get(),
            )?)),
        }
    }

    #[tactic(auto, unfolding(query_terms::specs::Resolved::each))]
    pub(crate) fn all(
        &self,
        environment: &mut Environment,
        mut parts: &[Expr],
    ) -> Result<Items<Expr>, NoMemory>
        requires { Resolves self.now.depth (F.pre self.now.resolve) (F.post self.now.resolve) }
        ensures { Gives (spec.each (map spec.resolved parts.entry.now)) result environment.old environment.new }
    {
        let mut done = Items::new(self.alloc);
        while let [first, more @ ..] = parts {
            done.push(self.part(environment, first)?)?;
            parts = more;
        }
        Ok(done)
    }

    #[tactic(auto, unfolding(query_terms::specs::Resolved::each))]
    pub(crate) fn operands(
        &self,
        environment: &mut Environment,
        mut parts: &[Operand],
    ) -> Result<Items<Operand>, NoMemory>
        requires { Resolves self.now.depth (F.pre self.now.resolve) (F.post self.now.resolve) }
        ensures { Gives (spec.each (map spec.operand parts.entry.now)) result environment.old environment.new }
    {
        let mut done = Items::new(self.alloc);
        while let [first, more @ ..] = parts {
            done.push(self.operand(environment, first)?)?;
            parts = more;
        }
        Ok(done)
    }

    #[tactic(auto, unfolding(query_terms::specs::Resolved::each))]
    pub(crate) fn steps(
        &self,
        environment: &mut Environment,
        mut parts: &[PathStep],
    ) -> Result<Items<PathStep>, NoMemory>
        requires { Resolves self.now.depth (F.pre self.now.resolve) (F.post self.now.resolve) }
        ensures { Gives (spec.each (map spec.step parts.entry.now)) result environment.old environment.new }
    {
        let mut done = Items::new(self.alloc);
        while let [first, more @ ..] = parts {
            done.push(self.step(environment, first)?)?;
            parts = more;
        }
        Ok(done)
    }

    #[tactic(auto, unfolding(query_terms::specs::Resolved::each))]
    pub(crate) fn keys(
        &self,
        environment: &mut Environment,
        mut parts: &[OrderKey],
    ) -> Result<Items<OrderKey>, NoMemory>
        requires { Resolves self.now.depth (F.pre self.now.resolve) (F.post self.now.resolve) }
        ensures { Gives (spec.each (map spec.key parts.entry.now)) result environment.old environment.new }
    {
        let mut done = Items::new(self.alloc);
        while let [first, more @ ..] = parts {
            done.push(self.key(environment, first)?)?;
            parts = more;
        }
        Ok(done)
    }

    #[tactic(auto, unfolding(query_terms::specs::Resolved::each))]
    pub(crate) fn clauses(
        &self,
        environment: &mut Environment,
        mut parts: &[Clause],
    ) -> Result<Items<Clause>, NoMemory>
        requires { Resolves self.now.depth (F.pre self.now.resolve) (F.post self.now.resolve) }
        ensures { Gives (spec.each (map spec.clause parts.entry.now)) result environment.old environment.new }
    {
        let mut done = Items::new(self.alloc);
        while let [first, more @ ..] = parts {
            done.push(self.clause(environment, first)?)?;
            parts = more;
        }
        Ok(done)
    }

    #[tactic(auto, unfolding(query_terms::specs::Resolved::each_content))]
    pub(crate) fn contents(
        &self,
        environment: &mut Environment,
        mut parts: &[Content],
    ) -> Result<Items<Content>, NoMemory>
        requires { Resolves self.now.depth (F.pre self.now.resolve) (F.post self.now.resolve) }
        ensures { Gives (spec.each_content (map spec.content parts.entry.now)) result environment.old environment.new }
    {
        let mut done = Items::new(self.alloc);
        while let [first, more @ ..] = parts {
            done.push(self.content(environment, first)?)?;
            parts = more;
        }
        Ok(done)
    }

    #[tactic(auto, using(query_terms::proofs::Folds::attribute_is))]
    pub(crate) fn attribute(
        &self,
        environment: &mut Environment,
        attribute: &Attribute,
    ) -> Result<Attribute, NoMemory>
        requires { Resolves self.now.depth (F.pre self.now.resolve) (F.post self.now.resolve) }
        ensures { Gives ((spec.attribute attribute.now).resolved) result environment.old environment.new }
    {
        let name = bare_name(self.alloc, environment, &attribute.name)?;
        let value = self.contents(environment, attribute.value.as_slice())?;
        Ok(Attribute {
            span: attribute.span,
            name,
            value,
            written: maybe_text(&attribute.written)?,
        })
    }

    #[tactic(auto, unfolding(query_terms::specs::Resolved::each_attribute))]
    pub(crate) fn attributes(
        &self,
        environment: &mut Environment,
        mut parts: &[Attribute],
    ) -> Result<Items<Attribute>, NoMemory>
        requires { Resolves self.now.depth (F.pre self.now.resolve) (F.post self.now.resolve) }
        ensures { Gives (spec.each_attribute (map spec.attribute parts.entry.now)) result environment.old environment.new }
    {
        let mut done = Items::new(self.alloc);
        while let [first, more @ ..] = parts {
            done.push(self.attribute(environment, first)?)?;
            parts = more;
        }
        Ok(done)
    }
}

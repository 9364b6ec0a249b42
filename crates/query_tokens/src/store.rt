// Terms from slices of the query.
ghost use Rattle.std.specs.Prelude.{◌≡◌, IfOk};
ghost use Rattle.std.specs.Option.{option_map};
ghost use Rattle.std.specs.String.{string_bytes};
ghost use Rattle.query_terms.specs.declared.parts.Literal.{Literal as LiteralOf};
ghost use Rattle.query_tokens.specs.Reads.{at, name_written, variable_written, number_written, quoted_literal, string_written, target_written, test_written, step_written};

use crate::source::QuerySource;
use crate::written::{
    Quote, Target, WrittenName, WrittenNumber, WrittenStep, WrittenString, WrittenTest,
    WrittenVariable,
};
use query_terms::{Expr, Literal, NodeTest, QName, Variable};
use std::alloc::Global;
use tree_model::{Name, NoMemory, Text};

impl<'a> WrittenName<'a> {
    /// The name as a part of the tree.
    pub fn store(self, alloc: Global) -> Result<QName, NoMemory>
        ensures { IfOk result (λ q. q ≡ name_written self.entry) }
    {
        Ok(QName {
            span: self.span,
            name: Name {
                uri: Text::of(alloc, "")?,
                prefix: Text::of(alloc, self.prefix)?,
                local: Text::of(alloc, self.local)?,
            },
        })
    }
}

impl<'a> WrittenVariable<'a> {
    /// The variable as a part of the tree.
    pub fn store(self, alloc: Global) -> Result<Variable, NoMemory>
        ensures { IfOk result (λ x. x ≡ variable_written self.entry) }
    {
        Ok(Variable {
            span: self.span,
            name: self.name.store(alloc)?,
        })
    }
}

impl<'a> WrittenNumber<'a> {
    /// The number as a term.
    pub fn store(self, alloc: Global) -> Result<Expr, NoMemory>
        ensures { IfOk result (λ e. e ≡ number_written self.entry) }
    {
        Ok(Expr::Number {
            span: self.span,
            text: Text::of(alloc, self.text)?,
        })
    }
}

fn stored_name(alloc: Global, name: Option<WrittenName<'_>>) -> Result<Option<QName>, NoMemory>
    ensures { IfOk result (λ q. q ≡ option_map name_written name.entry) }
{
    match name {
        Some(name) => Ok(Some(name.store(alloc)?)),
        None => Ok(None),
    }
}

impl<'a> QuerySource<'a> {
    // The characters of a string and the place of the first reference among them that names none.
    fn spelled(
        &self,
        alloc: Global,
        quote: Quote,
        body: &'a str,
    ) -> Result<(String, Option<usize>), NoMemory>
        ensures { IfOk result (λ x. ◌≡◌ {A = LiteralOf} (record { text = string_bytes x.0; bad_reference = x.1 }) (quoted_literal self.now quote body.now)) }
    {
        let mut text = String::new(alloc);
        let mut bad = None;
        let mut after = body;
        for _turn in 0..body.len() + 1 {
            let Some((found, next)) = self.string_char(after, quote) else {
                return Ok((text, bad));
            };
            text.push(found.character())?;
            bad = found.first_bad(bad);
            after = next;
        }
        Ok((text, bad))
    }

    /// The literal that a string stands for.
    pub fn store_string(
        &self,
        alloc: Global,
        string: WrittenString<'a>,
    ) -> Result<Literal, NoMemory>
        ensures { IfOk result (λ l. l ≡ string_written self.now string.entry) }
    {
        let (text, bad_reference) = self.spelled(alloc, string.quote, string.body)?;
        Ok(Literal {
            text: Text::of(alloc, text.as_str())?,
            bad_reference,
        })
    }

    fn store_target(&self, alloc: Global, target: Target<'a>) -> Result<Literal, NoMemory>
        ensures { IfOk result (λ l. l ≡ target_written self.now target.entry) }
    {
        match target {
            Target::Name(name) => Ok(Literal {
                text: Text::of(alloc, name)?,
                bad_reference: None,
            }),
            Target::Quoted(string) => self.store_string(alloc, string),
        }
    }

    fn stored_target(
        &self,
        alloc: Global,
        target: Option<Target<'a>>,
    ) -> Result<Option<Literal>, NoMemory>
        ensures { IfOk result (λ l. l ≡ option_map (target_written self.now) target.entry) }
    {
        match target {
            Some(target) => Ok(Some(self.store_target(alloc, target)?)),
            None => Ok(None),
        }
    }

    /// The node test as a part of the tree.
    pub fn store_test(&self, alloc: Global, test: WrittenTest<'a>) -> Result<NodeTest, NoMemory>
        ensures { IfOk result (λ stored. stored ≡ test_written self.now test.entry) }
    {
        match test {
            WrittenTest::Node => Ok(NodeTest::Node),
            WrittenTest::Text => Ok(NodeTest::Text),
            WrittenTest::Comment => Ok(NodeTest::Comment),
            WrittenTest::Document => Ok(NodeTest::Document),
            WrittenTest::Instruction(target) => {
                Ok(NodeTest::Instruction(self.stored_target(alloc, target)?))
            }
            WrittenTest::Element(name) => Ok(NodeTest::Element(stored_name(alloc, name)?)),
            WrittenTest::Attribute(name) => Ok(NodeTest::Attribute(stored_name(alloc, name)?)),
            WrittenTest::Any => Ok(NodeTest::Any),
            WrittenTest::LocalName(name) => Ok(NodeTest::LocalName(Text::of(alloc, name)?)),
            WrittenTest::Namespace(name) => Ok(NodeTest::Namespace(name.store(alloc)?)),
            WrittenTest::Name(name) => Ok(NodeTest::Name(name.store(alloc)?)),
        }
    }

    /// The step as a term.
    pub fn store_step(&self, alloc: Global, step: WrittenStep<'a>) -> Result<Expr, NoMemory>
        ensures { IfOk result (λ stored. stored ≡ step_written self.now step.entry) }
    {
        Ok(Expr::AxisStep {
            span: step.span,
            axis: step.axis,
            test: self.store_test(alloc, step.test)?,
            tested: None,
        })
    }
}

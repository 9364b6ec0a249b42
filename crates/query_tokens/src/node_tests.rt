// Node tests.
ghost use Rattle.std.specs.Prelude.{◌≡◌};
ghost use Rattle.query_terms.specs.Rule.{opt};
ghost use Rattle.query_terms.specs.Tests as spec;
ghost use Rattle.query_tokens.specs.Reads.{at, as_target, as_maybe_target, as_maybe_name, as_test, Reads};

use crate::source::QuerySource;
use crate::written::{Target, WrittenName, WrittenTest};

impl<'a> QuerySource<'a> {
    #[tactic(auto, unfolding(query_terms::specs::Tests::bare_kind_name))]
    fn bare_kind_name(&self, rest: &'a str) -> Option<(WrittenTest<'a>, &'a str)>
        ensures { Reads (as_test self.now) (at self.now spec.bare_kind_name rest.now) result }
    {
        if let Some(after) = self.word(rest, "node") {
            return Some((WrittenTest::Node, after));
        }
        if let Some(after) = self.word(rest, "text") {
            return Some((WrittenTest::Text, after));
        }
        if let Some(after) = self.word(rest, "comment") {
            return Some((WrittenTest::Comment, after));
        }
        let after = self.word(rest, "document-node")?;
        Some((WrittenTest::Document, after))
    }

    #[tactic(auto, unfolding(query_terms::specs::Tests::bare_kind))]
    fn bare_kind(&self, rest: &'a str) -> Option<(WrittenTest<'a>, &'a str)>
        ensures { Reads (as_test self.now) (at self.now spec.bare_kind rest.now) result }
    {
        let (found, after) = self.bare_kind_name(rest)?;
        let after = self.blanks(after);
        let after = self.word(after, "(")?;
        let after = self.blanks(after);
        let after = self.word(after, ")")?;
        Some((found, after))
    }

    #[tactic(auto, unfolding(query_terms::specs::Tests::target))]
    fn target(&self, rest: &'a str) -> Option<(Target<'a>, &'a str)>
        ensures { Reads (as_target self.now) (at self.now spec.target rest.now) result }
    {
        if let Some((name, after)) = self.ncname(rest) {
            return Some((Target::Name(name), after));
        }
        let (found, after) = self.string(rest)?;
        Some((Target::Quoted(found), after))
    }

    fn maybe_target(&self, rest: &'a str) -> (Option<Target<'a>>, &'a str)
        ensures { at self.now (opt spec.target) rest.now ≡ Ok (as_maybe_target self.now result.0, result.1.now) }
    {
        match self.target(rest) {
            Some((found, after)) => (Some(found), after),
            None => (None, rest),
        }
    }

    #[tactic(auto, unfolding(query_terms::specs::Tests::target_in_parentheses))]
    fn target_in_parentheses(&self, rest: &'a str) -> Option<(Option<Target<'a>>, &'a str)>
        ensures { Reads (as_maybe_target self.now) (at self.now spec.target_in_parentheses rest.now) result }
    {
        let after = self.blanks(rest);
        let after = self.word(after, "(")?;
        let after = self.blanks(after);
        let (found, after) = self.maybe_target(after);
        let after = self.blanks(after);
        let after = self.word(after, ")")?;
        Some((found, after))
    }

    #[tactic(auto, unfolding(query_terms::specs::Tests::instruction_kind))]
    fn instruction_kind(&self, rest: &'a str) -> Option<(WrittenTest<'a>, &'a str)>
        ensures { Reads (as_test self.now) (at self.now spec.instruction_kind rest.now) result }
    {
        let after = self.word(rest, "processing-instruction")?;
        let (found, after) = self.target_in_parentheses(after)?;
        Some((WrittenTest::Instruction(found), after))
    }

    #[tactic(auto, unfolding(query_terms::specs::Tests::name_or_all))]
    fn name_or_all(&self, rest: &'a str) -> Option<(Option<WrittenName<'a>>, &'a str)>
        ensures { Reads as_maybe_name (at self.now spec.name_or_all rest.now) result }
    {
        if let Some((name, after)) = self.qname(rest) {
            return Some((Some(name), after));
        }
        let after = self.word(rest, "*")?;
        Some((None, after))
    }

    fn maybe_name(&self, rest: &'a str) -> (Option<WrittenName<'a>>, &'a str)
        ensures { at self.now (opt spec.name_or_all) rest.now ≡ Ok (as_maybe_name result.0, result.1.now) }
    {
        match self.name_or_all(rest) {
            Some(found) => found,
            None => (None, rest),
        }
    }

    #[tactic(auto, unfolding(query_terms::specs::Tests::name_in_parentheses))]
    fn name_in_parentheses(&self, rest: &'a str) -> Option<(Option<WrittenName<'a>>, &'a str)>
        ensures { Reads as_maybe_name (at self.now spec.name_in_parentheses rest.now) result }
    {
        let after = self.blanks(rest);
        let after = self.word(after, "(")?;
        let after = self.blanks(after);
        let (name, after) = self.maybe_name(after);
        let after = self.blanks(after);
        let after = self.word(after, ")")?;
        Some((name, after))
    }

    #[tactic(auto, unfolding(query_terms::specs::Tests::element_kind))]
    fn element_kind(&self, rest: &'a str) -> Option<(WrittenTest<'a>, &'a str)>
        ensures { Reads (as_test self.now) (at self.now spec.element_kind rest.now) result }
    {
        let after = self.word(rest, "element")?;
        let (name, after) = self.name_in_parentheses(after)?;
        Some((WrittenTest::Element(name), after))
    }

    #[tactic(auto, unfolding(query_terms::specs::Tests::attribute_kind))]
    fn attribute_kind(&self, rest: &'a str) -> Option<(WrittenTest<'a>, &'a str)>
        ensures { Reads (as_test self.now) (at self.now spec.attribute_kind rest.now) result }
    {
        let after = self.word(rest, "attribute")?;
        let (name, after) = self.name_in_parentheses(after)?;
        Some((WrittenTest::Attribute(name), after))
    }

    /// A test for nodes of a kind (XQuery 1.0, section 3.2.1.2).
    #[tactic(auto, unfolding(query_terms::specs::Tests::kind_test))]
    pub fn kind_test(&self, rest: &'a str) -> Option<(WrittenTest<'a>, &'a str)>
        ensures { Reads (as_test self.now) (at self.now spec.kind_test rest.now) result }
    {
        if let Some(found) = self.bare_kind(rest) {
            return Some(found);
        }
        if let Some(found) = self.instruction_kind(rest) {
            return Some(found);
        }
        if let Some(found) = self.element_kind(rest) {
            return Some(found);
        }
        self.attribute_kind(rest)
    }

    #[tactic(auto, unfolding(query_terms::specs::Tests::local_name_test))]
    fn local_name_test(&self, rest: &'a str) -> Option<(WrittenTest<'a>, &'a str)>
        ensures { Reads (as_test self.now) (at self.now spec.local_name_test rest.now) result }
    {
        let after = self.word(rest, "*:")?;
        let (name, after) = self.ncname(after)?;
        Some((WrittenTest::LocalName(name), after))
    }

    #[tactic(auto, unfolding(query_terms::specs::Tests::namespace_test))]
    fn namespace_test(&self, rest: &'a str) -> Option<(WrittenTest<'a>, &'a str)>
        ensures { Reads (as_test self.now) (at self.now spec.namespace_test rest.now) result }
    {
        let (prefix, after) = self.ncname(rest)?;
        let after = self.word(after, ":*")?;
        let span = self.span(rest, after);
        let name = WrittenName {
            span,
            prefix,
            local: "",
        };
        Some((WrittenTest::Namespace(name), after))
    }

    /// A test by name (XQuery 1.0, section 3.2.1.2).
    #[tactic(auto, unfolding(query_terms::specs::Tests::name_test))]
    pub fn name_test(&self, rest: &'a str) -> Option<(WrittenTest<'a>, &'a str)>
        ensures { Reads (as_test self.now) (at self.now spec.name_test rest.now) result }
    {
        if let Some(found) = self.local_name_test(rest) {
            return Some(found);
        }
        if let Some(after) = self.word(rest, "*") {
            return Some((WrittenTest::Any, after));
        }
        if let Some(found) = self.namespace_test(rest) {
            return Some(found);
        }
        let (name, after) = self.qname(rest)?;
        Some((WrittenTest::Name(name), after))
    }

    /// A node test. What begins like a kind and isn't one is a name.
    #[tactic(auto, unfolding(query_terms::specs::Tests::node_test))]
    pub fn node_test(&self, rest: &'a str) -> Option<(WrittenTest<'a>, &'a str)>
        ensures { Reads (as_test self.now) (at self.now spec.node_test rest.now) result }
    {
        if let Some(found) = self.kind_test(rest) {
            return Some(found);
        }
        self.name_test(rest)
    }
}

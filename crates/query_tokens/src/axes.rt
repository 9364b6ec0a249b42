// Axes and steps.
ghost use Rattle.std.specs.Prelude.{◌≡◌};
ghost use Rattle.query_terms.specs.Rule.{axis};
ghost use Rattle.query_terms.specs.Tests as spec;
ghost use Rattle.query_tokens.specs.Reads.{at, as_step, test_written, Reads};

use crate::source::QuerySource;
use crate::written::{WrittenStep, WrittenTest};
use tree_model::Axis;

// The axis of a test that stands alone.
fn default_axis(test: WrittenTest<'_>) -> Axis
    ensures { (source : QuerySource) → result ≡ spec.default_axis (test_written source test.entry) }
{
    match test {
        WrittenTest::Attribute(_) => Axis::Attribute,
        _ => Axis::Child,
    }
}

impl<'a> QuerySource<'a> {
    #[tactic(auto, unfolding(query_terms::specs::Tests::downward_axis))]
    fn downward_axis(&self, rest: &'a str) -> Option<(Axis, &'a str)>
        ensures { Reads axis (at self.now spec.downward_axis rest.now) result }
    {
        if let Some(after) = self.word(rest, "child") {
            return Some((Axis::Child, after));
        }
        if let Some(after) = self.word(rest, "descendant-or-self") {
            return Some((Axis::DescendantOrSelf, after));
        }
        let after = self.word(rest, "descendant")?;
        Some((Axis::Descendant, after))
    }

    #[tactic(auto, unfolding(query_terms::specs::Tests::near_axis))]
    fn near_axis(&self, rest: &'a str) -> Option<(Axis, &'a str)>
        ensures { Reads axis (at self.now spec.near_axis rest.now) result }
    {
        if let Some(after) = self.word(rest, "attribute") {
            return Some((Axis::Attribute, after));
        }
        let after = self.word(rest, "self")?;
        Some((Axis::Slf, after))
    }

    #[tactic(auto, unfolding(query_terms::specs::Tests::following_axis))]
    fn following_axis(&self, rest: &'a str) -> Option<(Axis, &'a str)>
        ensures { Reads axis (at self.now spec.following_axis rest.now) result }
    {
        if let Some(after) = self.word(rest, "following-sibling") {
            return Some((Axis::FollowingSibling, after));
        }
        let after = self.word(rest, "following")?;
        Some((Axis::Following, after))
    }

    #[tactic(auto, unfolding(query_terms::specs::Tests::reverse_axis))]
    fn reverse_axis(&self, rest: &'a str) -> Option<(Axis, &'a str)>
        ensures { Reads axis (at self.now spec.reverse_axis rest.now) result }
    {
        if let Some(after) = self.word(rest, "parent") {
            return Some((Axis::Parent, after));
        }
        if let Some(after) = self.word(rest, "ancestor-or-self") {
            return Some((Axis::AncestorOrSelf, after));
        }
        if let Some(after) = self.word(rest, "ancestor") {
            return Some((Axis::Ancestor, after));
        }
        if let Some(after) = self.word(rest, "preceding-sibling") {
            return Some((Axis::PrecedingSibling, after));
        }
        let after = self.word(rest, "preceding")?;
        Some((Axis::Preceding, after))
    }

    /// The name of an axis, the longest that fits.
    #[tactic(auto, unfolding(query_terms::specs::Tests::axis_name))]
    pub fn axis_name(&self, rest: &'a str) -> Option<(Axis, &'a str)>
        ensures { Reads axis (at self.now spec.axis_name rest.now) result }
    {
        if let Some(found) = self.downward_axis(rest) {
            return Some(found);
        }
        if let Some(found) = self.near_axis(rest) {
            return Some(found);
        }
        if let Some(found) = self.following_axis(rest) {
            return Some(found);
        }
        self.reverse_axis(rest)
    }

    #[tactic(auto, unfolding(query_terms::specs::Tests::parent_step))]
    fn parent_step(&self, rest: &'a str) -> Option<(WrittenStep<'a>, &'a str)>
        ensures { Reads (as_step self.now) (at self.now spec.parent_step rest.now) result }
    {
        let after = self.word(rest, "..")?;
        let step = WrittenStep {
            span: self.span(rest, after),
            axis: Axis::Parent,
            test: WrittenTest::Node,
        };
        Some((step, after))
    }

    #[tactic(auto, unfolding(query_terms::specs::Tests::full_step))]
    fn full_step(&self, rest: &'a str) -> Option<(WrittenStep<'a>, &'a str)>
        ensures { Reads (as_step self.now) (at self.now spec.full_step rest.now) result }
    {
        let (axis, after) = self.axis_name(rest)?;
        let after = self.blanks(after);
        let after = self.word(after, "::")?;
        let after = self.blanks(after);
        let (test, after) = self.node_test(after)?;
        let span = self.span(rest, after);
        Some((WrittenStep { span, axis, test }, after))
    }

    #[tactic(auto, unfolding(query_terms::specs::Tests::attribute_step))]
    fn attribute_step(&self, rest: &'a str) -> Option<(WrittenStep<'a>, &'a str)>
        ensures { Reads (as_step self.now) (at self.now spec.attribute_step rest.now) result }
    {
        let after = self.word(rest, "@")?;
        let after = self.blanks(after);
        let (test, after) = self.node_test(after)?;
        let step = WrittenStep {
            span: self.span(rest, after),
            axis: Axis::Attribute,
            test,
        };
        Some((step, after))
    }

    #[tactic(auto, unfolding(query_terms::specs::Tests::bare_step))]
    fn bare_step(&self, rest: &'a str) -> Option<(WrittenStep<'a>, &'a str)>
        ensures { Reads (as_step self.now) (at self.now spec.bare_step rest.now) result }
    {
        let (test, after) = self.node_test(rest)?;
        let step = WrittenStep {
            span: self.span(rest, after),
            axis: default_axis(test),
            test,
        };
        Some((step, after))
    }

    /// A step without predicates (XQuery 1.0, section 3.2.1).
    #[tactic(auto, unfolding(query_terms::specs::Tests::axis_step))]
    pub fn axis_step(&self, rest: &'a str) -> Option<(WrittenStep<'a>, &'a str)>
        ensures { Reads (as_step self.now) (at self.now spec.axis_step rest.now) result }
    {
        if let Some(found) = self.parent_step(rest) {
            return Some(found);
        }
        if let Some(found) = self.full_step(rest) {
            return Some(found);
        }
        if let Some(found) = self.attribute_step(rest) {
            return Some(found);
        }
        self.bare_step(rest)
    }
}

// The words and signs that stand between operands (XQuery 1.0, sections 3.3 and 3.4).
ghost use Rattle.std.specs.Prelude.{◌≡◌};
ghost use Rattle.query_terms.specs.Rule.{operator};
ghost use Rattle.query_terms.specs.Grammar as spec;
ghost use Rattle.query_tokens.specs.Reads.{at, Passes, Reads};

use query_terms::Operator;
use query_tokens::QuerySource;

#[tactic(auto, unfolding(query_terms::specs::Grammar::set_operator))]
pub(crate) fn set_operator<'a>(
    source: &QuerySource<'a>,
    rest: &'a str,
) -> Option<(Operator, &'a str)>
    ensures { Reads operator (at source.now spec.set_operator rest.now) result }
{
    if let Some(after) = source.keyword(rest, "intersect") {
        return Some((Operator::Intersect, after));
    }
    let after = source.keyword(rest, "except")?;
    Some((Operator::Except, after))
}

#[tactic(auto, unfolding(query_terms::specs::Grammar::multiplicative_operator))]
pub(crate) fn multiplicative_operator<'a>(
    source: &QuerySource<'a>,
    rest: &'a str,
) -> Option<(Operator, &'a str)>
    ensures { Reads operator (at source.now spec.multiplicative_operator rest.now) result }
{
    if let Some(after) = source.word(rest, "*") {
        return Some((Operator::Times, after));
    }
    if let Some(after) = source.keyword(rest, "div") {
        return Some((Operator::Divide, after));
    }
    if let Some(after) = source.keyword(rest, "idiv") {
        return Some((Operator::DivideWhole, after));
    }
    let after = source.keyword(rest, "mod")?;
    Some((Operator::Modulo, after))
}

#[tactic(auto, unfolding(query_terms::specs::Grammar::additive_operator))]
pub(crate) fn additive_operator<'a>(
    source: &QuerySource<'a>,
    rest: &'a str,
) -> Option<(Operator, &'a str)>
    ensures { Reads operator (at source.now spec.additive_operator rest.now) result }
{
    if let Some(after) = source.word(rest, "+") {
        return Some((Operator::Plus, after));
    }
    let after = source.word(rest, "-")?;
    Some((Operator::Minus, after))
}

#[tactic(auto, unfolding(query_terms::specs::Grammar::union_operator))]
pub(crate) fn union_operator<'a>(source: &QuerySource<'a>, rest: &'a str) -> Option<&'a str>
    ensures { Passes (at source.now spec.union_operator rest.now) result }
{
    if let Some(after) = source.word(rest, "|") {
        return Some(after);
    }
    source.keyword(rest, "union")
}

// The operators of comparisons (XQuery 1.0, section 3.5).
ghost use Rattle.std.specs.Prelude.{◌≡◌};
ghost use Rattle.query_terms.specs.Rule.{comparator};
ghost use Rattle.query_terms.specs.Grammar as spec;
ghost use Rattle.query_tokens.specs.Reads.{at, Reads};

use query_terms::Comparator;
use query_tokens::QuerySource;

#[tactic(auto, unfolding(query_terms::specs::Grammar::general_comparator))]
fn general_comparator<'a>(source: &QuerySource<'a>, rest: &'a str) -> Option<(Comparator, &'a str)>
    ensures { Reads comparator (at source.now spec.general_comparator rest.now) result }
{
    if let Some(after) = source.word(rest, "!=") {
        return Some((Comparator::NotEqual, after));
    }
    if let Some(after) = source.word(rest, "<<") {
        return Some((Comparator::Precedes, after));
    }
    if let Some(after) = source.word(rest, "<=") {
        return Some((Comparator::LessOrEqual, after));
    }
    if let Some(after) = source.word(rest, "<") {
        return Some((Comparator::Less, after));
    }
    if let Some(after) = source.word(rest, ">>") {
        return Some((Comparator::Follows, after));
    }
    if let Some(after) = source.word(rest, ">=") {
        return Some((Comparator::GreaterOrEqual, after));
    }
    if let Some(after) = source.word(rest, ">") {
        return Some((Comparator::Greater, after));
    }
    let after = source.word(rest, "=")?;
    Some((Comparator::Equal, after))
}

#[tactic(auto, unfolding(query_terms::specs::Grammar::value_comparator))]
fn value_comparator<'a>(source: &QuerySource<'a>, rest: &'a str) -> Option<(Comparator, &'a str)>
    ensures { Reads comparator (at source.now spec.value_comparator rest.now) result }
{
    if let Some(after) = source.keyword(rest, "eq") {
        return Some((Comparator::ValueEqual, after));
    }
    if let Some(after) = source.keyword(rest, "ne") {
        return Some((Comparator::ValueNotEqual, after));
    }
    if let Some(after) = source.keyword(rest, "lt") {
        return Some((Comparator::ValueLess, after));
    }
    if let Some(after) = source.keyword(rest, "le") {
        return Some((Comparator::ValueLessOrEqual, after));
    }
    if let Some(after) = source.keyword(rest, "gt") {
        return Some((Comparator::ValueGreater, after));
    }
    if let Some(after) = source.keyword(rest, "ge") {
        return Some((Comparator::ValueGreaterOrEqual, after));
    }
    let after = source.keyword(rest, "is")?;
    Some((Comparator::Is, after))
}

#[tactic(auto, unfolding(query_terms::specs::Grammar::comparator_rule))]
pub(crate) fn comparator<'a>(
    source: &QuerySource<'a>,
    rest: &'a str,
) -> Option<(Comparator, &'a str)>
    ensures { Reads comparator (at source.now spec.comparator_rule rest.now) result }
{
    if let Some(found) = general_comparator(source, rest) {
        return Some(found);
    }
    value_comparator(source, rest)
}

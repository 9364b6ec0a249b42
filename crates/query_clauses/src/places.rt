// The words of updating expressions (XQuery Update Facility 1.0, section 2.4).
ghost use Rattle.std.specs.Prelude.{◌≡◌, Ok, codes};
ghost use Rattle.query_terms.specs.Rule.{place, opt, alt};
ghost use Rattle.query_terms.specs.Lexis.{giving, keyword};
ghost use Rattle.query_terms.specs.Grammar as spec;
ghost use Rattle.query_terms.specs.declared.parts.Place.TheVariants as places;
ghost use Rattle.query_tokens.specs.Reads.{at, Passes, Reads};
ghost use Rattle.query_clauses.specs.Parts.{as_maybe_place};

use query_terms::Place;
use query_tokens::QuerySource;

#[tactic(auto, unfolding(query_terms::specs::Grammar::nodes_word))]
pub(crate) fn nodes_word<'a>(source: &QuerySource<'a>, rest: &'a str) -> Option<&'a str>
    ensures { Passes (at source.now spec.nodes_word rest.now) result }
{
    if let Some(after) = source.keyword(rest, "nodes") {
        return Some(after);
    }
    source.keyword(rest, "node")
}

fn end_word<'a>(source: &QuerySource<'a>, rest: &'a str) -> Option<(Place, &'a str)>
    ensures { Reads place (at source.now (alt (giving (place places.AsFirst) (keyword (codes "first"))) (giving (place places.AsLast) (keyword (codes "last")))) rest.now) result }
{
    if let Some(after) = source.keyword(rest, "first") {
        return Some((Place::AsFirst, after));
    }
    let after = source.keyword(rest, "last")?;
    Some((Place::AsLast, after))
}

#[tactic(auto, unfolding(query_terms::specs::Grammar::end_of_target))]
fn end_of_target<'a>(source: &QuerySource<'a>, rest: &'a str) -> Option<(Place, &'a str)>
    ensures { Reads place (at source.now spec.end_of_target rest.now) result }
{
    let after = source.keyword(rest, "as")?;
    end_word(source, after)
}

fn maybe_end_of_target<'a>(source: &QuerySource<'a>, rest: &'a str) -> (Option<Place>, &'a str)
    ensures { at source.now (opt spec.end_of_target) rest.now ≡ Ok (as_maybe_place result.0, result.1.now) }
{
    match end_of_target(source, rest) {
        Some((found, after)) => (Some(found), after),
        None => (None, rest),
    }
}

fn place_or_into(found: Option<Place>) -> Place
    ensures { result ≡ spec.place_of (as_maybe_place found) }
{
    match found {
        Some(place) => place,
        None => Place::Into,
    }
}

#[tactic(auto, unfolding(query_terms::specs::Grammar::into_place))]
fn into_place<'a>(source: &QuerySource<'a>, rest: &'a str) -> Option<(Place, &'a str)>
    ensures { Reads place (at source.now spec.into_place rest.now) result }
{
    let (found, after) = maybe_end_of_target(source, rest);
    let after = source.keyword(after, "into")?;
    Some((place_or_into(found), after))
}

#[tactic(auto, unfolding(query_terms::specs::Grammar::place_rule))]
fn place<'a>(source: &QuerySource<'a>, rest: &'a str) -> Option<(Place, &'a str)>
    ensures { Reads place (at source.now spec.place_rule rest.now) result }
{
    if let Some(found) = into_place(source, rest) {
        return Some(found);
    }
    if let Some(after) = source.keyword(rest, "before") {
        return Some((Place::Before, after));
    }
    let after = source.keyword(rest, "after")?;
    Some((Place::After, after))
}

#[tactic(auto, unfolding(query_terms::specs::Grammar::insertion_place))]
pub(crate) fn insertion_place<'a>(
    source: &QuerySource<'a>,
    rest: &'a str,
) -> Option<(Place, &'a str)>
    ensures { Reads place (at source.now spec.insertion_place rest.now) result }
{
    let after = source.blanks(rest);
    place(source, after)
}

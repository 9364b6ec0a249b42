// The names that no function has (XQuery 1.0, appendix A.3).
ghost use Rattle.std.specs.Prelude.{◌≡◌, codes};
ghost use Rattle.query_terms.specs.Rule.{alt, word};
ghost use Rattle.query_terms.specs.Grammar as spec;
ghost use Rattle.query_tokens.specs.Reads.{at, Passes};

use query_tokens::{CharClass, QuerySource};

#[tactic(auto, unfolding(query_terms::specs::Grammar::reserved_kind))]
fn reserved_kind<'a>(source: &QuerySource<'a>, rest: &'a str) -> Option<&'a str>
    ensures { Passes (at source.now spec.reserved_kind rest.now) result }
{
    if let Some(after) = source.word(rest, "attribute") {
        return Some(after);
    }
    if let Some(after) = source.word(rest, "comment") {
        return Some(after);
    }
    if let Some(after) = source.word(rest, "document-node") {
        return Some(after);
    }
    if let Some(after) = source.word(rest, "element") {
        return Some(after);
    }
    if let Some(after) = source.word(rest, "node") {
        return Some(after);
    }
    if let Some(after) = source.word(rest, "processing-instruction") {
        return Some(after);
    }
    source.word(rest, "text")
}

fn schema_word<'a>(source: &QuerySource<'a>, rest: &'a str) -> Option<&'a str>
    ensures { Passes (at source.now (alt (word (codes "schema-attribute")) (alt (word (codes "schema-element")) (word (codes "typeswitch")))) rest.now) result }
{
    if let Some(after) = source.word(rest, "schema-attribute") {
        return Some(after);
    }
    if let Some(after) = source.word(rest, "schema-element") {
        return Some(after);
    }
    source.word(rest, "typeswitch")
}

#[tactic(auto, unfolding(query_terms::specs::Grammar::reserved_word))]
fn reserved_word<'a>(source: &QuerySource<'a>, rest: &'a str) -> Option<&'a str>
    ensures { Passes (at source.now spec.reserved_word rest.now) result }
{
    if let Some(after) = source.word(rest, "empty-sequence") {
        return Some(after);
    }
    if let Some(after) = source.word(rest, "if") {
        return Some(after);
    }
    if let Some(after) = source.word(rest, "item") {
        return Some(after);
    }
    schema_word(source, rest)
}

fn reserved_front<'a>(source: &QuerySource<'a>, rest: &'a str) -> Option<&'a str>
    ensures { Passes (at source.now (alt spec.reserved_kind spec.reserved_word) rest.now) result }
{
    if let Some(after) = reserved_kind(source, rest) {
        return Some(after);
    }
    reserved_word(source, rest)
}

// The text behind a name that no function has, where one stands.
#[tactic(auto, unfolding(query_terms::specs::Grammar::reserved))]
pub(crate) fn reserved<'a>(source: &QuerySource<'a>, rest: &'a str) -> Option<&'a str>
    ensures { Passes (at source.now spec.reserved rest.now) result }
{
    let after = reserved_front(source, rest)?;
    if source.one(after, CharClass::NameChar).is_some() {
        return None;
    }
    Some(after)
}

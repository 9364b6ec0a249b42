// Queries as they are read from texts.
ghost use Rattle.std.specs.Prelude.{◌≡◌, take};
ghost use Rattle.std.specs.Str.{chars};
ghost use Rattle.query_terms.specs.Parse as spec;
ghost use Rattle.query_syntax.specs.Parses.{Answers, Parses};

use crate::prolog::query;
use query_terms::{Query, QueryTree, Stop, SyntaxFault};
use query_tokens::{QuerySource, comment_ends, first, front};
use std::alloc::Global;
use xml_pieces::is_xml_char;

// How many expressions and elements may be open at a place.
const MAX_OPEN: usize = 200;

// The characters of XML that stand in front.
fn good_front(text: &str) -> &str
    ensures { result.now ≡ take (spec.front_len (chars text.now)) text.now }
{
    let mut rest = text;
    while let Some((found, after)) = first(rest) {
        if !is_xml_char(u32::from(found)) {
            return front(text, rest);
        }
        rest = after;
    }
    front(text, rest)
}

fn read(alloc: Global, text: &str) -> Result<QueryTree, Stop>
    ensures { Answers (spec.read_query text.now) result }
{
    let ends = comment_ends(alloc, text)?;
    let source = QuerySource {
        query: text,
        comment_ends: ends.as_slice(),
        room: MAX_OPEN,
    };
    match query(alloc, &source, text) {
        Ok((found, _)) => Ok(found),
        Err(stop) => Err(stop),
    }
}

/// The query that a text is read as, whole. `NoReading` (XPST0003) where the rules don't read it to its end: also where it
/// holds a character that is none of XML's. `TooDeep` (XKLM0004) where an expression or element is opened while 200 are
/// open, even in an alternative that would be given up. Of both the one counts that reading meets first: what stands behind
/// a place where it is too deep is not looked at. Spans are in bytes of the text.
///
/// Reading takes time linear in the bytes of the text, and allocates what the tree holds; where `(:` stands in the text,
/// also one word for each byte.
pub fn parse(alloc: Global, text: &str) -> Result<Query, SyntaxFault>
    ensures { Parses text.now result }
{
    let good = good_front(text);
    match read(alloc, good) {
        Ok(found) => {
            if good.len() == text.len() {
                Ok(Query::of(found, text))
            } else {
                Err(SyntaxFault::NoReading)
            }
        }
        Err(Stop::Refused) => Err(SyntaxFault::NoReading),
        Err(Stop::TooDeep) => Err(SyntaxFault::TooDeep),
        Err(Stop::NoMemory) => Err(SyntaxFault::NoMemory),
    }
}

// Queries from their text to the steps that are walked.
ghost use Rattle.query_paths.specs.Asked.{IsRead, AreSteps, Asks};

use crate::path::path_in;
use query_syntax::parse;
use query_terms::{Query, SyntaxFault};
use static_rules::check;
use std::alloc::Global;
use tree_model::{AxisStep, Code, Refusal};

#[tactic(auto, unfolding(crate::specs::Asked::asked))]
fn read(alloc: Global, words: &str) -> Result<Query, Refusal>
    ensures { IsRead words.now result }
{
    match parse(alloc, words) {
        Ok(query) => Ok(query),
        Err(SyntaxFault::NoReading) => Err(Refusal::Code(Code::XPST0003)),
        Err(SyntaxFault::TooDeep) => Err(Refusal::Code(Code::XKLM0004)),
        Err(SyntaxFault::NoMemory) => Err(Refusal::NoMemory),
    }
}

fn steps_in(alloc: Global, query: &Query) -> Result<Vec<AxisStep>, Refusal>
    ensures { AreSteps (λ v. v.items) query.now result }
{
    match path_in(alloc, query.tree()) {
        Ok(Some(steps)) => Ok(steps),
        Ok(None) => Err(Refusal::Code(Code::XKCM0002)),
        Err(_) => Err(Refusal::NoMemory),
    }
}

/// The steps that a query asks for, from the documents on. A refusal is `XPST0003` where the text is no query, `XKLM0004`
/// where expressions or elements stand too deep in it, `XKCM0002` where it is a query but no path without predicates,
/// prefixes and declarations, and else the code of the path's first static fault.
#[tactic(auto, unfolding(crate::specs::Asked::asked))]
pub fn read_query(alloc: Global, words: &str) -> Result<Vec<AxisStep>, Refusal>
    ensures { Asks (λ v. v.items) words.now result }
{
    let query = read(alloc, words)?;
    let steps = steps_in(alloc, &query)?;
    match check(alloc, query) {
        Ok(_) => Ok(steps),
        Err(refusal) => Err(refusal),
    }
}

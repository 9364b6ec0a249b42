// What reads constructors.
ghost use Rattle.std.specs.Prelude.{◌≡◌};
ghost use Rattle.query_terms.specs.Rule.{term};
ghost use Rattle.query_terms.specs.Markup as spec;
ghost use Rattle.query_tokens.specs.Reads.{at};
ghost use Rattle.query_tokens.specs.Descends.{Nests, Opens};

use crate::comments::{direct_comment, direct_instruction};
use query_terms::{Expr, Nest, Stop};
use query_tokens::{Descent, QuerySource, tried};
use sqlite_items::Boxed;
use std::alloc::Global;

/// A direct constructor: an element, a comment or a processing instruction (XQuery 1.0, section 3.7.1).
#[tactic(auto, unfolding(query_terms::specs::Markup::direct))]
pub fn direct<
    'a,
    F: Fn(Global, QuerySource<'a>, Nest, &'a str) -> Result<(Boxed<Expr>, &'a str), Stop>,
>(descent: &Descent<'a, F>, rest: &'a str) -> Result<(Boxed<Expr>, &'a str), Stop>
    requires { Nests descent.now.source (F.pre descent.now.nested) (F.post descent.now.nested) }
    ensures { Opens term (at descent.now.source spec.direct rest.now) result }
{
    if let Some(found) = tried(descent.elem(rest))? {
        return Ok(found);
    }
    if let Some(found) = tried(direct_comment(descent, rest))? {
        return Ok(found);
    }
    direct_instruction(descent, rest)
}

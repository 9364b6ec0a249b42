// Characters in front of a word.
ghost use Rattle.std.specs.Prelude.{◌≡◌, IfOk, Ok};
ghost use Rattle.std.specs.String.{string_bytes};
ghost use Rattle.query_terms.specs.Rule.{Value, list, text, many};
ghost use Rattle.query_terms.specs.Lexis.{spelled};
ghost use Rattle.query_terms.specs.Markup as spec;
ghost use Rattle.query_tokens.specs.Reads.{at};
ghost use Rattle.query_tokens.specs.Descends.{Opens};

use query_terms::Stop;
use query_tokens::Descent;
use tree_model::{NoMemory, Text};

// The characters in front of a word, where an end of line is one LF.
fn spelled_before<'a, F>(
    descent: &Descent<'a, F>,
    rest: &'a str,
    stop: &str,
) -> Result<(String, &'a str), NoMemory>
    ensures { IfOk result (λ x. (v : Value) × (at descent.now.source (many (spec.char_before stop.now)) rest.now ≡ Ok (list v, x.1.now)) × (spelled v ≡ string_bytes x.0)) }
{
    let mut text = String::new(descent.alloc);
    let mut after = rest;
    for _turn in 0..rest.len() + 1 {
        let Some((found, next)) = descent.source.char_before(after, stop) else {
            return Ok((text, after));
        };
        text.push(found.character())?;
        after = next;
    }
    Ok((text, after))
}

#[tactic(auto, unfolding(query_terms::specs::Markup::chars_before))]
pub(crate) fn chars_before<'a, F>(
    descent: &Descent<'a, F>,
    rest: &'a str,
    stop: &str,
) -> Result<(Text, &'a str), Stop>
    ensures { Opens text (at descent.now.source (spec.chars_before stop.now) rest.now) result }
{
    let (found, after) = spelled_before(descent, rest, stop)?;
    let found = Text::of(descent.alloc, found.as_str())?;
    Ok((found, after))
}

// Direct comments and processing instructions (XQuery 1.0, section 3.7.2), and CDATA sections (section 3.7.1.3).
ghost use Rattle.std.specs.Prelude.{◌≡◌, map, codes};
ghost use Rattle.std.specs.Str.{bytes_eq};
ghost use Rattle.std.specs.Char.{to_ascii_lowercase};
ghost use Rattle.query_terms.specs.Rule.{term, text, when, opt};
ghost use Rattle.query_terms.specs.Lexis.{ncname};
ghost use Rattle.query_terms.specs.Markup as spec;
ghost use Rattle.query_tokens.specs.Reads.{at, shown, Reads};
ghost use Rattle.query_tokens.specs.Descends.{Opens};
ghost use Rattle.query_constructors.specs.Runs.{as_maybe_text, as_section};

use crate::characters::chars_before;
use query_terms::{Expr, Nest, Stop};
use query_tokens::{Descent, QuerySource, tried};
use sqlite_items::Boxed;
use std::alloc::Global;
use tree_model::Text;

fn is_xml(target: &str) -> bool
    ensures { result ≡ bytes_eq (map to_ascii_lowercase target.now) (codes "xml") }
{
    target.eq_ignore_ascii_case("xml")
}

#[tactic(auto, unfolding(query_terms::specs::Markup::direct_comment))]
pub(crate) fn direct_comment<
    'a,
    F: Fn(Global, QuerySource<'a>, Nest, &'a str) -> Result<(Boxed<Expr>, &'a str), Stop>,
>(descent: &Descent<'a, F>, rest: &'a str) -> Result<(Boxed<Expr>, &'a str), Stop>
    ensures { Opens term (at descent.now.source spec.direct_comment rest.now) result }
{
    let after = descent.word(rest, "<!--")?;
    let (text, after) = chars_before(descent, after, "--")?;
    let after = descent.word(after, "-->")?;
    let span = descent.source.span(rest, after);
    let comment = Expr::DirectComment { span, text };
    Ok((Boxed::new(descent.alloc, comment)?, after))
}

// The target of an instruction, which is a name other than `xml`.
fn target<'a, F>(descent: &Descent<'a, F>, rest: &'a str) -> Option<(&'a str, &'a str)>
    ensures { Reads shown (at descent.now.source (when spec.is_target ncname) rest.now) result }
{
    let (target, after) = descent.source.ncname(rest)?;
    if is_xml(target) {
        return None;
    }
    Some((target, after))
}

#[tactic(auto, unfolding(query_terms::specs::Markup::instruction_value))]
fn instruction_value<
    'a,
    F: Fn(Global, QuerySource<'a>, Nest, &'a str) -> Result<(Boxed<Expr>, &'a str), Stop>,
>(descent: &Descent<'a, F>, rest: &'a str) -> Result<(Text, &'a str), Stop>
    ensures { Opens text (at descent.now.source spec.instruction_value rest.now) result }
{
    let after = descent.source.white_space(rest).ok_or(Stop::Refused)?;
    chars_before(descent, after, "?>")
}

fn maybe_value<
    'a,
    F: Fn(Global, QuerySource<'a>, Nest, &'a str) -> Result<(Boxed<Expr>, &'a str), Stop>,
>(descent: &Descent<'a, F>, rest: &'a str) -> Result<(Option<Text>, &'a str), Stop>
    ensures { Opens as_maybe_text (at descent.now.source (opt spec.instruction_value) rest.now) result }
{
    match tried(instruction_value(descent, rest))? {
        Some((text, after)) => Ok((Some(text), after)),
        None => Ok((None, rest)),
    }
}

#[tactic(auto, unfolding(query_terms::specs::Markup::direct_instruction))]
pub(crate) fn direct_instruction<
    'a,
    F: Fn(Global, QuerySource<'a>, Nest, &'a str) -> Result<(Boxed<Expr>, &'a str), Stop>,
>(descent: &Descent<'a, F>, rest: &'a str) -> Result<(Boxed<Expr>, &'a str), Stop>
    ensures { Opens term (at descent.now.source spec.direct_instruction rest.now) result }
{
    let after = descent.word(rest, "<?")?;
    let (target, after) = target(descent, after).ok_or(Stop::Refused)?;
    let (value, after) = maybe_value(descent, after)?;
    let after = descent.word(after, "?>")?;
    let span = descent.source.span(rest, after);
    let target = Text::of(descent.alloc, target)?;
    let text = match value {
        Some(text) => text,
        None => Text::of(descent.alloc, "")?,
    };
    let instruction = Expr::DirectInstruction { span, target, text };
    Ok((Boxed::new(descent.alloc, instruction)?, after))
}

#[tactic(auto, unfolding(query_terms::specs::Markup::section))]
pub(crate) fn section<
    'a,
    F: Fn(Global, QuerySource<'a>, Nest, &'a str) -> Result<(Boxed<Expr>, &'a str), Stop>,
>(descent: &Descent<'a, F>, rest: &'a str) -> Result<(Text, &'a str), Stop>
    ensures { Opens as_section (at descent.now.source spec.section rest.now) result }
{
    let after = descent.word(rest, "<![CDATA[")?;
    let (text, after) = chars_before(descent, after, "]]>")?;
    let after = descent.word(after, "]]>")?;
    Ok((text, after))
}

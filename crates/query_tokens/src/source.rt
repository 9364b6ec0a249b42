// Words, characters, blanks and comments.
ghost use Rattle.std.specs.Prelude.{◌≡◌, nat_eq};
ghost use Rattle.std.specs.List.{starts_with};
ghost use Rattle.std.specs.Prelude.{◌-◌, length, take};
ghost use Rattle.query_terms.specs.Rule.{nothing, code, word, char, call, comment};
ghost use Rattle.query_terms.specs.Lexis.{between};
ghost use Rattle.query_terms.specs.Lexis as spec;
ghost use Rattle.query_tokens.specs.Reads.{at, in_class, shown, behind, closed, IsRestOf, Reads, Passes};

use crate::class::{CharClass, first};
use crate::comment_table::entry;
use query_terms::Span;

/// A query, how many more nests may be opened at the place where it is read, and where its comments end: at each length of a text that begins inside a comment and goes to the query's end,
/// one more than the length of what stands behind the comment, and 0 where it has no end. Where the query has no `(:`,
/// there need be no entries.
#[derive(Clone, Copy)]
pub struct QuerySource<'a> {
    pub query: &'a str,
    pub comment_ends: &'a [usize],
    pub room: usize,
}

// All but so many bytes, where a closing parenthesis stands in front of these.
#[tactic(auto, using(crate::proofs::Looking::behind_boundary))]
fn behind_parenthesis(text: &str, left: usize) -> Option<&str>
    ensures { Passes (behind left text.now) result }
{
    let from = text.len().saturating_sub(left);
    if left < text.len() && text.as_bytes()[from - 1] == b')' {
        Some(text.split_at(from).1)
    } else {
        None
    }
}

fn behind_comment(text: &str, end: usize) -> Option<&str>
    ensures { Passes (closed end text.now) result }
{
    if end == 0 {
        return None;
    }
    behind_parenthesis(text, end - 1)
}

// Whether a word begins a text. Most words differ from it in the first byte.
fn begins(text: &str, word: &str) -> bool
    ensures { result ≡ starts_with nat_eq text.now word.now }
{
    match (text.as_bytes(), word.as_bytes()) {
        ([first, ..], [wanted, ..]) if first != wanted => false,
        (text, word) => text.starts_with(word),
    }
}

/// What stands in a text before another that goes to its end.
pub fn front<'a>(rest: &'a str, after: &'a str) -> &'a str
    requires { IsRestOf rest.now after.now }
    ensures { result.now ≡ take (length rest.now - length after.now) rest.now }
{
    let (found, _) = rest.split_at(rest.len().saturating_sub(after.len()));
    found
}

impl<'a> QuerySource<'a> {
    /// Where a text begins that goes to the query's end.
    pub fn place(&self, rest: &'a str) -> usize
        ensures { result ≡ length self.now.query.now - length rest.now }
    {
        self.query.len().saturating_sub(rest.len())
    }

    /// The place of what was read, from the text before it was read and the one behind.
    pub fn span(&self, rest: &'a str, after: &'a str) -> Span
        ensures { result ≡ between (length self.now.query.now - length rest.now) (length self.now.query.now - length after.now) }
    {
        Span {
            from: self.place(rest),
            to: self.place(after),
        }
    }

    /// A word, whatever stands behind it.
    #[tactic(auto, unfolding(query_terms::specs::Rule::word_at))]
    pub fn word(&self, rest: &'a str, text: &str) -> Option<&'a str>
        ensures { Passes (at self.now (word text.now) rest.now) result }
    {
        if begins(rest, text) {
            Some(rest.split_at(text.len()).1)
        } else {
            None
        }
    }

    /// One character of a class.
    pub fn one(&self, rest: &'a str, class: CharClass) -> Option<(char, &'a str)>
        ensures { Reads code (at self.now (char (in_class class)) rest.now) result }
    {
        let (found, after) = first(rest)?;
        if class.has(found) {
            Some((found, after))
        } else {
            None
        }
    }

    /// The text behind all characters of a class that stand at the front.
    #[tactic(auto, unfolding(query_terms::specs::Lexis::run))]
    pub fn run(&self, rest: &'a str, class: CharClass) -> &'a str
        ensures { at self.now (spec.run (in_class class)) rest.now ≡ Ok (nothing, result.now) }
    {
        let mut after = rest;
        for _turn in 0..rest.len() + 1 {
            let Some((_, next)) = self.one(after, class) else {
                return after;
            };
            after = next;
        }
        after
    }

    /// A character of one class and all of another that follow it, as one text.
    #[tactic(auto, unfolding(query_terms::specs::Lexis::token))]
    pub fn token(
        &self,
        rest: &'a str,
        start: CharClass,
        inner: CharClass,
    ) -> Option<(&'a str, &'a str)>
        ensures { Reads shown (at self.now (spec.token (in_class start) (in_class inner)) rest.now) result }
    {
        let (_, after) = self.one(rest, start)?;
        let after = self.run(after, inner);
        Some((front(rest, after), after))
    }

    /// White space, at least one character.
    #[tactic(auto, unfolding(query_terms::specs::Lexis::white_space))]
    pub fn white_space(&self, rest: &'a str) -> Option<&'a str>
        ensures { Passes (at self.now spec.white_space rest.now) result }
    {
        let (_, after) = self.one(rest, CharClass::Space)?;
        Some(self.run(after, CharClass::Space))
    }

    // A comment, with those inside it.
    #[tactic(auto, unfolding(crate::specs::Reads::reading))]
    fn comment(&self, rest: &'a str) -> Option<&'a str>
        ensures { Passes (at self.now (call comment) rest.now) result }
    {
        let inner = self.word(rest, "(:")?;
        behind_comment(inner, entry(self.comment_ends, inner.len()))
    }

    #[tactic(auto, unfolding(query_terms::specs::Lexis::blank))]
    fn blank(&self, rest: &'a str) -> Option<&'a str>
        ensures { Passes (at self.now spec.blank rest.now) result }
    {
        if let Some(after) = self.white_space(rest) {
            return Some(after);
        }
        self.comment(rest)
    }

    /// The text behind all white space and comments at the front.
    #[tactic(auto, unfolding(query_terms::specs::Lexis::blanks))]
    pub fn blanks(&self, rest: &'a str) -> &'a str
        ensures { at self.now spec.blanks rest.now ≡ Ok (nothing, result.now) }
    {
        let mut after = rest;
        for _turn in 0..rest.len() + 1 {
            let Some(next) = self.blank(after) else {
                return after;
            };
            after = next;
        }
        after
    }

    /// The text behind white space, where there is some.
    pub fn space(&self, rest: &'a str) -> &'a str
        ensures { at self.now spec.no_space rest.now ≡ Ok (nothing, result.now) }
    {
        match self.white_space(rest) {
            Some(after) => after,
            None => rest,
        }
    }

    /// A word that no name goes on with, and the blanks behind it.
    #[tactic(auto, unfolding(query_terms::specs::Lexis::keyword))]
    pub fn keyword(&self, rest: &'a str, text: &str) -> Option<&'a str>
        ensures { Passes (at self.now (spec.keyword text.now) rest.now) result }
    {
        let after = self.word(rest, text)?;
        if self.one(after, CharClass::NameChar).is_some() {
            return None;
        }
        Some(self.blanks(after))
    }
}

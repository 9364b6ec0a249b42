// Where comments end.
ghost use Rattle.std.specs.Prelude.{◌≡◌, ◌+◌, length, IfOk, slice_index};
ghost use Rattle.query_tokens.specs.Reads.{AreCommentEnds};
ghost use Rattle.query_tokens.specs.CommentEnds.{comment_end_before, comment_ends_below};

use std::alloc::Global;
use tree_model::NoMemory;

/// The entry at a length, 0 where the table ends before it.
pub(crate) fn entry(comment_ends: &[usize], len: usize) -> usize
    ensures { result ≡ slice_index comment_ends.now len }
{
    comment_ends.get(len).copied().unwrap_or(0)
}

// The entry of a text, from the entries of shorter ones. At `:)` the comment ends here. At `(:` another comment begins: if
// it has an end, the outer one goes on behind it, and if not, the parenthesis is a character.
fn comment_end_of(text: &[u8], comment_ends: &[usize]) -> usize
    ensures { result ≡ comment_end_before text.now comment_ends.now }
{
    match text {
        [] => 0,
        [b':', b')', rest @ ..] => rest.len() + 1,
        [b'(', b':', inner @ ..] if entry(comment_ends, inner.len()) > 0 => {
            entry(comment_ends, entry(comment_ends, inner.len()) - 1)
        }
        [_, rest @ ..] => entry(comment_ends, rest.len()),
    }
}

fn filled(alloc: Global, text: &[u8]) -> Result<Vec<usize>, NoMemory>
    ensures { IfOk result (λ v. v.items ≡ comment_ends_below text.now (length text.now + 1)) }
{
    let mut found = Vec::new(alloc);
    for len in 0..text.len() + 1 {
        let (_, rest) = text.split_at(text.len() - len);
        let end = comment_end_of(rest, found.as_slice());
        found.push(end)?;
    }
    Ok(found)
}

/// Where the comments of a query end, as `QuerySource` holds it.
pub fn comment_ends(alloc: Global, query: &str) -> Result<Vec<usize>, NoMemory>
    ensures { IfOk result (λ v. AreCommentEnds query.now v.items) }
{
    if query.contains("(:") {
        filled(alloc, query.as_bytes())
    } else {
        Ok(Vec::new(alloc))
    }
}

// Internal subsets.
ghost use Rattle.std.specs.Prelude.{◌≡◌, ◌≤◌, IfSome, length};
ghost use Rattle.tree_model.specs.XmlChars.{first_is};
ghost use Rattle.doc_import.specs.Subsets as read;

use xml_pieces::doctype_front;

fn starts_bracket(bytes: &[u8]) -> bool
    ensures { result ≡ first_is read.is_bracket bytes.now }
{
    match bytes {
        [first, ..] => *first == b'[',
        [] => false,
    }
}

/// Of bytes that begin with a DOCTYPE, how many stand before the `[` of its internal subset.
#[tactic(auto, unfolding(crate::specs::Subsets::subset_len))]
pub fn subset_len(bytes: &[u8]) -> Option<usize>
    ensures len { result ≡ read.subset_len bytes.now }
    ensures within { IfSome result (λ len. len ≤ length bytes.now) }
{
    let behind = match bytes {
        [b'<', b'!', behind @ ..] => behind,
        _ => return None,
    };
    let rest = doctype_front(behind)?;
    if starts_bracket(rest) {
        Some(bytes.len() - rest.len())
    } else {
        None
    }
}

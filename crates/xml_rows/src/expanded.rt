// The expanded names of a tag's attributes.
ghost use Rattle.std.specs.Prelude.{◌≡◌, ◌<◌, [], length, All, IfOk};
ghost use Rattle.tree_model.specs.XmlMeaning as meaning;
ghost use Rattle.xml_rows.specs.Tagging.{expanded_of, all_expanded};

use crate::names::Names;
use crate::tag::Expanded;
use indexmap::IndexSet;
use std::alloc::{AllocError, Global};
use tree_model::NoMemory;

/// How many expanded names are compared one with the other.
const FEW: usize = 16;

fn is_among(names: &Names<'_>, found: &[Expanded<'_>], one: Expanded<'_>) -> bool
    requires found { All (λ e. e.uri < length names.now.uris) found.now }
    requires one { one.uri < length names.now.uris }
    ensures { result ≡ meaning.is_pair_in (expanded_of names.now.uris one.entry) (all_expanded names.now.uris found.now) }
{
    for other in found {
        if names.is_same_uri(one.uri, other.uri) && one.local == other.local {
            return true;
        }
    }
    false
}

fn few_twice(names: &Names<'_>, found: &[Expanded<'_>]) -> bool
    requires { All (λ e. e.uri < length names.now.uris) found.now }
    ensures { result ≡ meaning.has_twice [] (all_expanded names.now.uris found.now) }
{
    for (at, one) in found.iter().enumerate() {
        if is_among(names, found.split_at(at).0, *one) {
            return true;
        }
    }
    false
}

// The same by a set, whose keys are numbers of URIs and local parts.
fn many_twice(alloc: Global, names: &Names<'_>, found: &[Expanded<'_>]) -> Result<bool, NoMemory>
    requires { All (λ e. e.uri < length names.now.uris) found.now }
    ensures { IfOk result (λ twice. twice ≡ meaning.has_twice [] (all_expanded names.now.uris found.now)) }
{
    let _distinct = names.uri_count();
    let mut seen: IndexSet<(usize, &[u8])> = IndexSet::new(alloc);
    for one in found {
        let (_, is_new) = seen.insert_full((one.uri, one.local))?;
        if !is_new {
            return Ok(true);
        }
    }
    Ok(false)
}

/// Whether an expanded name stands twice among the attributes of a tag.
pub fn has_twice(alloc: Global, names: &Names<'_>, found: &[Expanded<'_>]) -> Result<bool, NoMemory>
    requires { All (λ e. e.uri < length names.now.uris) found.now }
    ensures { IfOk result (λ twice. twice ≡ meaning.has_twice [] (all_expanded names.now.uris found.now)) }
{
    if found.len() > FEW {
        return many_twice(alloc, names, found);
    }
    Ok(few_twice(names, found))
}

// The attributes of a tag.
ghost use Rattle.std.specs.Prelude.{◌≡◌, ◌++◌, ◌∷◌, [], ℕ, ◌<◌, List, length, map, true, IfOk, IfSome, OnOk};
ghost use Rattle.std.specs.Option.{option_map};
ghost use Rattle.tree_model.specs.XmlMeaning as meaning;

use crate::names::split;
use tree_model::ValueRef;

/// An attribute: its name as it is written, and where its value lies.
#[derive(Clone, Copy)]
pub struct Pair<'a> {
    pub name: &'a [u8],
    pub val: ValueRef,
}

/// An expanded name: the number of its URI, and its local part.
#[derive(Clone, Copy)]
pub struct Expanded<'a> {
    pub uri: usize,
    pub local: &'a [u8],
}

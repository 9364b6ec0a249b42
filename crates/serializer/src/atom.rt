// The text of an item that is no node.
ghost use Rattle.std.specs.Prelude.{◌≡◌, ◌++◌, true, OnOk};
ghost use Rattle.tree_model.specs.Items.{is_atom, atom_text};
ghost use Rattle.serializer.specs.Growth.{Grew};

use crate::escape::push_bytes;
use dec_num::push_text;
use tree_model::{Item, NoMemory};

/// Appends an item that is no node: a string or an untyped value byte for byte, a number as `dec_num::push_text` writes it, a
/// boolean as `true` or `false`. After `NoMemory` a part of the text may stand behind what `out` had before.
#[tactic(auto, using(crate::proofs::Growing::grew_as))]
pub fn print_atom(item: &Item, out: &mut Vec<u8>) -> Result<(), NoMemory>
    requires { is_atom item.now ≡ true }
    ensures text { OnOk result (out.new.items ≡ out.old.items ++ atom_text item.now) }
    ensures kept { Grew out.old.items out.new.items }
{
    match item {
        Item::Node(_) => unreachable!(),
        Item::Str(text) | Item::Untyped(text) => push_bytes(out, text.as_str().as_bytes()),
        Item::Number(number) => push_text(*number, out),
        Item::Bool(true) => push_bytes(out, b"true"),
        Item::Bool(false) => push_bytes(out, b"false"),
    }
}

// The byte order mark and the XML declaration.
ghost use Rattle.std.specs.Prelude.{◌≡◌, Option, Some};
ghost use Rattle.tree_model.specs.XmlSource.{Decl};
ghost use Rattle.doc_import.specs.Heads as read;

use xml_pieces::{read_declaration, skip_mark};

/// What stands behind the byte order mark and the XML declaration.
pub fn behind_head(bytes: &[u8]) -> &[u8]
    ensures { (d : Option Decl) × (read.behind_head bytes.now ≡ Some (d, result.now)) }
{
    let (_, behind) = skip_mark(bytes);
    match read_declaration(behind) {
        Some((_, body)) => body,
        None => behind,
    }
}

// Node tests on rows.
ghost use Rattle.std.specs.Prelude.{◌≡◌, ◌<◌, [], length};
ghost use Rattle.tree_model.specs.Axes.{is_asked, has_name, is_principal, passes};
ghost use Rattle.tree_model.specs.Labels.{Label};
ghost use Rattle.tree_model.specs.Rows.{label_of, name_at};
ghost use Rattle.node_table.specs.Laid.{is_attribute};

use name_pool::NamePool;
use tree_model::{Axis, Kind, Name, Row, Test, Text};

pub(crate) fn is_attribute(row: &Row) -> bool
    ensures { result ≡ is_attribute row.now.kind }
{
    matches!(row.kind, Kind::Attr)
}

fn is_asked(wanted: &Option<Text>, text: &Text) -> bool
    ensures { result ≡ is_asked wanted.now text.now }
{
    match wanted {
        None => true,
        Some(wanted) => text == wanted,
    }
}

// Local parts differ more often than URIs.
fn has_name(uri: &Option<Text>, local: &Option<Text>, name: &Name) -> bool
    ensures { result ≡ has_name uri.now local.now name.now }
{
    is_asked(local, &name.local) && is_asked(uri, &name.uri)
}

// Whether a row has the kind that a name test alone asks for.
fn is_principal(axis: Axis, row: &Row) -> bool
    ensures { (label : Label) → label.kind ≡ row.now.kind → result ≡ is_principal axis label }
{
    match axis {
        Axis::Attribute => is_attribute(row),
        _ => matches!(row.kind, Kind::Elem),
    }
}

/// Whether the node of a row, met on an axis, passes a test (XPath 2.0, section 3.2.1.2). Its name is looked up only where its
/// kind is right. Takes no memory.
pub fn passes(names: &NamePool, axis: Axis, test: &Test, row: &Row) -> bool
    requires { row.now.name < length names.now }
    ensures { result ≡ passes axis test.now (label_of names.now [] row.now) }
{
    match test {
        Test::Node => true,
        Test::Text => matches!(row.kind, Kind::Text),
        Test::Comment => matches!(row.kind, Kind::Comm),
        Test::Document => matches!(row.kind, Kind::Doc),
        Test::Pi(target) => {
            matches!(row.kind, Kind::Pi) && is_asked(target, &names.name(row.name).local)
        }
        Test::Principal { uri, local } => {
            is_principal(axis, row) && has_name(uri, local, names.name(row.name))
        }
        Test::Element { uri, local } => {
            matches!(row.kind, Kind::Elem) && has_name(uri, local, names.name(row.name))
        }
        Test::Attribute { uri, local } => {
            is_attribute(row) && has_name(uri, local, names.name(row.name))
        }
    }
}

// What is printed of databases.
ghost use Rattle.std.specs.Prelude.{◌≡◌, ◌<◌, ◌++◌, OnOk, IfOk, IfSome, IfNone, None, map};
ghost use Rattle.std.specs.List.{All, join_with_byte};
ghost use Rattle.tree_model.specs.Axes.{path_value};
ghost use Rattle.tree_model.specs.Printed.{base_text, list_text, storage_text};
ghost use Rattle.tree_model.specs.Forest.{count};
ghost use Rattle.tree_model.specs.Printing.{answer_text};
ghost use Rattle.tree_model.specs.States.{document_under};
ghost use Rattle.node_table.specs.Views.{places_of};
ghost use Rattle.doc_store.specs.Stored.{base_of, IsKept};
ghost use Rattle.frame_pool.specs.Meters.{HasRead};
ghost use Rattle.kernel_session.specs.Places.{text_at, IsDocumentPlace};

use axis_steps::{Trees, path};
use commands::Number;
use doc_store::{Database, document_count, document_places, find_document};
use frame_pool::Meter;
use serializer::{print_node, print_storage, push_number};
use std::alloc::{AllocError, Global};
use tree_model::AxisStep;

/// Appends all rows of a database, or those from one pre up to and without another.
pub fn push_storage(
    database: &Database,
    range: &Option<(Number, Number)>,
    out: &mut Vec<u8>,
) -> Result<(), AllocError>
    ensures { OnOk result (out.new.items ≡ out.old.items ++ storage_text range.now (base_of database.now).documents) }
{
    let (from, to) = match range {
        None => (0, database.table().len()),
        Some((from, to)) => (from.value(), to.value()),
    };
    print_storage(
        database.table(),
        database.row_pool(),
        database.names(),
        database.heap(),
        from,
        to,
        out,
    )
}

// Appends the line `name documents rows`.
fn push_line(database: &Database, out: &mut Vec<u8>) -> Result<(), AllocError>
    ensures { OnOk result (out.new.items ≡ out.old.items ++ base_text (base_of database.now)) }
{
    out.extend_from_slice(database.name().as_str().as_bytes())?;
    out.push(b' ')?;
    push_number(out, document_count(database) as u64)?;
    out.push(b' ')?;
    push_number(out, database.table().len() as u64)
}

/// Appends a line for each database, joined by LF.
pub fn push_list(databases: &[Database], out: &mut Vec<u8>) -> Result<(), AllocError>
    ensures { OnOk result (out.new.items ≡ out.old.items ++ list_text (map base_of databases.now)) }
{
    let Some((first, rest)) = databases.split_first() else {
        return Ok(());
    };
    push_line(first, out)?;
    for database in rest {
        out.push(b'\n')?;
        push_line(database, out)?;
    }
    Ok(())
}

/// The place of the document under a path.
pub fn document_place(database: &Database, path: &str) -> Option<u32>
    ensures some { IfSome result (IsDocumentPlace path.now (base_of database.now).documents) }
    ensures none { IfNone result (document_under path.now (base_of database.now).documents ≡ None) }
{
    find_document(database, path.as_bytes())
}

/// Appends the XML text of the node at a place.
pub fn push_node(database: &Database, place: u32, out: &mut Vec<u8>) -> Result<(), AllocError>
    requires within { place < count (base_of database.now).documents }
    ensures { OnOk result (out.new.items ≡ out.old.items ++ text_at (base_of database.now).documents place) }
{
    print_node(
        database.table(),
        database.row_pool(),
        database.names(),
        database.heap(),
        place,
        out,
    )
}

// Appends the XML text of the nodes at these places, joined by LF.
fn push_nodes(database: &Database, places: &[u32], out: &mut Vec<u8>) -> Result<(), AllocError>
    requires within { All (λ place. place < count (base_of database.now).documents) places.now }
    ensures { OnOk result (out.new.items ≡ out.old.items ++ join_with_byte 10 (map (text_at (base_of database.now).documents) places.now)) }
{
    let Some((first, rest)) = places.split_first() else {
        return Ok(());
    };
    push_node(database, *first, out)?;
    for place in rest {
        out.push(b'\n')?;
        push_node(database, *place, out)?;
    }
    Ok(())
}

// The rows of a database, for walks over them.
fn trees_of(database: &Database) -> Trees<'_>
    ensures table { result.table.now ≡ database.now.table }
    ensures pool { result.pool.now ≡ database.now.pool }
    ensures names { result.names.now ≡ database.now.names }
    ensures kept { IsKept database.now }
{
    Trees {
        table: database.table(),
        pool: database.row_pool(),
        names: database.names(),
    }
}

// The places of the nodes that a path leads to from the documents.
fn path_places(
    alloc: Global,
    database: &Database,
    steps: &[AxisStep],
    meter: &mut Meter,
) -> Result<Vec<u32>, AllocError>
    ensures places { IfOk result (λ found. found.items ≡ places_of (path_value (base_of database.now).documents steps.now)) }
    ensures within { IfOk result (λ found. All (λ place. place < count (base_of database.now).documents) found.items) }
    ensures meter { HasRead meter.old meter.new }
{
    let places = document_places(alloc, database)?;
    path(alloc, &trees_of(database), places, steps, meter)
}

/// Appends the nodes that a path leads to from the documents, joined by LF.
pub fn push_answer(
    alloc: Global,
    database: &Database,
    steps: &[AxisStep],
    out: &mut Vec<u8>,
    meter: &mut Meter,
) -> Result<(), AllocError>
    ensures text { OnOk result (out.new.items ≡ out.old.items ++ answer_text (path_value (base_of database.now).documents steps.now)) }
    ensures meter { HasRead meter.old meter.new }
{
    let places = path_places(alloc, database, steps, meter)?;
    push_nodes(database, &places, out)
}

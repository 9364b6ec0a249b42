// The documents of a database, by their places among the rows.
ghost use Rattle.std.specs.Prelude.{◌≡◌, None, IfOk, IfSome, IfNone};
ghost use Rattle.tree_model.specs.Forest.{top_count};
ghost use Rattle.tree_model.specs.Nodes.{root_nodes};
ghost use Rattle.tree_model.specs.States.{document_under};
ghost use Rattle.node_table.specs.Views.{places_of};
ghost use Rattle.doc_store.specs.Documents.{IsDocumentAt};
ghost use Rattle.doc_store.specs.Stored.{base_of};

use crate::database::Database;
use frame_pool::Meter;
use std::alloc::Global;
use tree_model::NoMemory;

/// The places of the documents of a database. Of the rows below them none is read.
pub fn document_places(alloc: Global, database: &Database) -> Result<Vec<u32>, NoMemory>
    ensures { IfOk result (λ places. places.items ≡ places_of (root_nodes (base_of database.now).documents)) }
{
    let mut reader = database.table().reader(database.row_pool());
    let mut meter = Meter::new();
    let end = reader.len();
    let mut places = Vec::new(alloc);
    let mut at = 0;
    while at < end {
        places.push(at)?;
        at += reader.row(at, &mut meter).size;
    }
    Ok(places)
}

/// How many documents a database has. Of the rows below them none is read.
pub fn document_count(database: &Database) -> u32
    ensures { result ≡ top_count (base_of database.now).documents }
{
    let mut reader = database.table().reader(database.row_pool());
    let mut meter = Meter::new();
    let end = reader.len();
    let mut count = 0;
    let mut at = 0;
    while at < end {
        at += reader.row(at, &mut meter).size;
        count += 1;
    }
    count
}

/// The place of the document under a path. None exactly where no document has it.
pub fn find_document(database: &Database, path: &[u8]) -> Option<u32>
    ensures some { IfSome result (IsDocumentAt path.now (base_of database.now).documents) }
    ensures none { IfNone result (document_under path.now (base_of database.now).documents ≡ None) }
{
    let mut reader = database.table().reader(database.row_pool());
    let mut meter = Meter::new();
    let end = reader.len();
    let mut at = 0;
    while at < end {
        let row = reader.row(at, &mut meter);
        if database.heap().get(row.val) == path {
            return Some(at);
        }
        at += row.size;
    }
    None
}

// A branch of a database.
ghost use Rattle.std.specs.Prelude.{◌≡◌};

use id_map::IdMap;
use node_table::NodeTable;
use std::marker::Model;
use tree_model::Text;

/// What a database becomes by changes that aren't committed. Its rows lie in the database's pool, its names and values in the
/// database, behind the marks those that it added. Contracts see its fields; `branch_view` tells what its rows say.
#[derive(Debug, Drop)]
pub struct Branch {
    pub(crate) origin: Text,
    pub(crate) table: NodeTable,
    pub(crate) ids: IdMap,
    pub(crate) next: u32,
    pub(crate) names_mark: u64,
    pub(crate) values_mark: u64,
}

impl Model for Branch {
    ghost use Rattle.doc_store.specs.Stored.{Branched};

    ghost Value = { Branched };

    ghost view = { λ b. record { origin = b.origin; table = b.table; ids = b.ids; next = b.next; names_mark = b.names_mark; values_mark = b.values_mark } };
}

impl Branch {
    /// The rows, with the database's pool, names and heap.
    pub fn table(&self) -> &NodeTable
        ensures { result.now ≡ self.now.table }
    {
        &self.table
    }

    /// Where its nodes stand by their ids.
    pub fn ids(&self) -> &IdMap
        ensures { result.now ≡ self.now.ids }
    {
        &self.ids
    }

    /// The id that the next new node gets.
    pub fn next_id(&self) -> u32
        ensures { result ≡ self.now.next }
    {
        self.next
    }
}

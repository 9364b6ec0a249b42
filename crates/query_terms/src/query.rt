// A query that comes from its text.
ghost use Rattle.std.specs.Prelude.{◌≡◌, Ok};
ghost use Rattle.query_terms.specs.Parse as spec;

use crate::tree::QueryTree;
use std::marker::Model;

/// A query. Contracts see its tree, which some text is read as.
#[derive(Drop)]
pub struct Query {
    tree: QueryTree,
}

impl Model for Query {
    ghost use Rattle.std.specs.Coded.{codes};
    ghost use Rattle.query_terms.specs.declared.tree.QueryTree.{QueryTree};
    ghost use Rattle.query_terms.specs.contracts.tree.QueryTree.{the_row as row_of_trees};
    ghost use Rattle.query_terms.specs.Parse.{IsRead};

    ghost Value = { QueryTree };

    ghost coded = { Prim.hlevel (codes, row_of_trees.coded) };

    ghost view = { λ q. q.tree };

    ghost invariant = { λ q. IsRead q.tree };
}

impl Query {
    /// The query that a text is read as.
    pub fn of(tree: QueryTree, text: &str) -> Query
        requires { spec.parse text.now ≡ Ok tree }
        ensures { result ≡ tree }
    {
        let _ = text;
        Query { tree }
    }

    /// Its declarations and its expression.
    pub fn tree(&self) -> &QueryTree
        ensures value { result.now ≡ self.now }
        ensures read { spec.IsRead self.now }
    {
        &self.tree
    }

    /// The same, with no query left.
    pub fn into_tree(self) -> QueryTree
        ensures value { result ≡ self }
        ensures read { spec.IsRead self }
    {
        self.tree
    }
}

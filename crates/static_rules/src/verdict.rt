// What the static rules make of a query.
ghost use Rattle.std.specs.Prelude.{◌≡◌, IfOk, None};
ghost use Rattle.query_terms.specs.Resolved.{resolved_query};
ghost use Rattle.query_terms.specs.Static as spec;
ghost use Rattle.static_rules.specs.Checks.{Checks};
ghost use Rattle.static_rules.specs.Verdict.{IsChecked};

use crate::fault::Found;
use crate::prolog::note_prolog;
use crate::state::State;
use crate::updating::is_updating;
use crate::walk::find;
use name_resolver::resolve;
use name_scopes::{Environment, MAX_DEPTH};
use query_terms::{Query, QueryTree};
use sqlite_items::Boxed;
use std::alloc::Global;
use std::marker::Model;
use tree_model::{NoMemory, Refusal};

/// A query without a static fault, whose names have their URIs. Contracts see its tree and whether it updates; `IsChecked`
/// says where it comes from.
#[derive(Drop)]
pub struct Checked {
    query: QueryTree,
    is_updating: bool,
}

impl Model for Checked {
    ghost use Rattle.std.specs.Coded.{codes};
    ghost use Rattle.query_terms.specs.contracts.tree.QueryTree.{the_row as row_of_trees};
    ghost use Rattle.static_rules.specs.Verdict.{Verdict, IsChecked};

    ghost coded = { Prim.hlevel (codes, row_of_trees.coded) };

    ghost Value = { Verdict };

    ghost view = { λ c. record { query = c.query; is_updating = c.is_updating } };

    ghost invariant = { λ c. IsChecked (record { query = c.query; is_updating = c.is_updating }) };
}

impl Checked {
    /// Whether the query is an updating expression (XQuery Update Facility 1.0, section 2.2), and not a simple one.
    pub fn is_updating(&self) -> bool
        ensures { result ≡ self.now.is_updating }
    {
        self.is_updating
    }

    /// The query. Each name in it has its URI, each step the test that is walked, each call its function, and where the name of a computed constructor or of a renaming is an
    /// expression, the bindings in force stand beside it.
    pub fn query(&self) -> &QueryTree
        ensures value { result.now ≡ self.now.query }
        ensures checked { IsChecked self.now }
    {
        &self.query
    }
}

#[tactic(auto, unfolding(query_terms::specs::Static::query_faults))]
fn first_fault(alloc: Global, query: &QueryTree) -> Result<Found, NoMemory>
    ensures { IfOk result (λ found. found ≡ spec.first_fault query.now) }
{
    let declarations = query.declarations.as_slice();
    let mut state = State {
        environment: Environment::outermost(alloc, declarations)?,
        found: Found::none(),
    };
    note_prolog(&mut state.found, declarations);
    find(alloc, MAX_DEPTH, &mut state, query.body.get())?;
    Ok(state.found)
}

#[tactic(auto, unfolding(query_terms::specs::Resolved::resolved_query))]
fn resolved(alloc: Global, query: QueryTree) -> Result<QueryTree, NoMemory>
    ensures { IfOk result (λ q. q ≡ resolved_query query) }
{
    let QueryTree { declarations, body } = query;
    let body = resolve(alloc, declarations.as_slice(), body.get())?;
    let body = Boxed::new(alloc, body)?;
    Ok(QueryTree { declarations, body })
}

/// The first static fault of a query (XQuery 1.0, section 2.2.3.1), or the query with the URIs of its names. Of several faults
/// the first is the one whose term begins first in the text; where terms begin at one place, those of the prolog come before
/// those of references to characters, of numbers, of prefixes, of variables and of calls, in this order.
///
/// Each pass over the query takes time linear in the number of its terms, where looking up a name walks over the bindings
/// that are in force, and a declaration of the prolog is compared with those in front of it. `NoMemory` is also the answer where more than 100,000 expressions stand in one another.
pub fn check(alloc: Global, query: Query) -> Result<Checked, Refusal>
    ensures { Checks query result }
{
    let found = match first_fault(alloc, query.tree()) {
        Ok(found) => found,
        Err(_) => return Err(Refusal::NoMemory),
    };
    if let Some(code) = found.code() {
        return Err(Refusal::Code(code));
    }
    match resolved(alloc, query.into_tree()) {
        Ok(query) => {
            let is_updating = is_updating(query.body.get());
            Ok(Checked { query, is_updating })
        }
        Err(_) => Err(Refusal::NoMemory),
    }
}

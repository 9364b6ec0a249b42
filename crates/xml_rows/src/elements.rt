// Elements with their attributes.
ghost use Rattle.std.specs.Prelude.{◌≡◌, ◌+◌, ◌<◌, ◌≤◌, ◌^◌, ◌++◌, ◌∷◌, [], length, true, IfOk, OnOk};
ghost use Rattle.tree_model.specs.Rows.{lines_of, ArePlaced};
ghost use Rattle.tree_model.specs.XmlChars.{is_xml_qname};
ghost use Rattle.tree_model.specs.XmlMeaning.{with_attrs, tag_label, attr_labels, is_bad_tag};
ghost use Rattle.xml_rows.specs.Numbers.{Begins};
ghost use Rattle.xml_rows.specs.Scoping.{AreUris, scope_in};
ghost use Rattle.xml_rows.specs.Tagging.{kept_value, pairs_of, ArePairs};
ghost use Rattle.xml_rows.specs.Work.{with_tag};

use crate::attributes::{add_attributes, add_element};
use crate::declarations::declare;
use crate::expanded::has_twice;
use crate::names::Names;
use crate::rows::Rows;
use crate::scope::Scopes;
use crate::tag::{Expanded, Pair};
use crate::values::Values;
use std::alloc::Global;
use tree_model::NoMemory;

/// The rows, the names by number and the prefixes in scope; the expanded names of one tag at a time.
#[derive(Drop)]
pub struct Elements<'a> {
    pub rows: Rows,
    pub names: Names<'a>,
    pub scopes: Scopes<'a>,
    pub found: Vec<Expanded<'a>>,
    pub alloc: Global,
}

impl<'a> Elements<'a> {
    /// The rows of a tag, whose declarations come into scope and are its element's value. Says whether it breaks a rule of
    /// namespaces.
    pub fn add_tag(
        &mut self,
        name: &'a [u8],
        pairs: &[Pair<'a>],
        values: &mut Values,
    ) -> Result<bool, NoMemory>
        requires none { values.old.pending ≡ [] }
        requires written { is_xml_qname name.now ≡ true }
        requires pairs { ArePairs values.old.settled pairs.now }
        requires few { length self.old.rows.rows + length pairs.now + 1 < 2 ^ 32 }
        requires uris { AreUris (length self.old.names.uris) self.old.scopes.scope }
        ensures bad { IfOk result (λ bad. bad
            ≡ is_bad_tag (with_attrs (pairs_of values.old.settled pairs.now) (scope_in self.old.names.uris self.old.scopes.scope)) name.now (pairs_of values.old.settled pairs.now)) }
        ensures scope { OnOk result (scope_in self.new.names.uris self.new.scopes.scope ≡ with_attrs (pairs_of values.old.settled pairs.now) (scope_in self.old.names.uris self.old.scopes.scope)) }
        ensures outer { OnOk result (self.new.scopes.outer ≡ self.old.scopes.scope ∷ self.old.scopes.outer) }
        ensures uris_more { OnOk result (Begins self.old.names.uris self.new.names.uris) }
        ensures uris_kept { OnOk result (AreUris (length self.new.names.uris) self.new.scopes.scope) }
        ensures settled { OnOk result (values.new.settled ≡ values.old.settled ++ kept_value values.old.settled pairs.now) }
        ensures pending { OnOk result (values.new.pending ≡ []) }
        ensures lines { OnOk result (ArePlaced self.old.names.names values.old.settled self.old.rows.rows → lines_of self.new.names.names values.new.settled self.new.rows.rows
            ≡ with_tag (tag_label (with_attrs (pairs_of values.old.settled pairs.now) (scope_in self.old.names.uris self.old.scopes.scope)) name.now (pairs_of values.old.settled pairs.now))
            (attr_labels (with_attrs (pairs_of values.old.settled pairs.now) (scope_in self.old.names.uris self.old.scopes.scope)) (pairs_of values.old.settled pairs.now))
            (lines_of self.old.names.names values.old.settled self.old.rows.rows) self.old.rows.open_at) }
        ensures placed { OnOk result (ArePlaced self.old.names.names values.old.settled self.old.rows.rows → ArePlaced self.new.names.names values.new.settled self.new.rows.rows) }
        ensures open_at { OnOk result (self.new.rows.open_at ≡ self.old.rows.open_at) }
        ensures more { OnOk result (length self.old.rows.rows < length self.new.rows.rows) }
        ensures len { OnOk result (length self.new.rows.rows ≤ length self.old.rows.rows + 1 + length pairs.now) }
    {
        self.scopes.enter()?;
        let declared = declare(pairs, values, &mut self.names, &mut self.scopes)?;
        let val = values.settle();
        let place = self.rows.len();
        let no_element = add_element(
            name,
            val,
            declared.plain,
            &self.scopes,
            &mut self.names,
            &mut self.rows,
        )?;
        self.found.clear();
        let unbound = add_attributes(
            pairs,
            place,
            &self.scopes,
            &mut self.names,
            &mut self.rows,
            &mut self.found,
        )?;
        let twice = has_twice(self.alloc, &self.names, &self.found)?;
        Ok(declared.is_bad | no_element | unbound | twice)
    }
}

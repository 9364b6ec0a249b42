// The rows of a tag: its element, and the attributes that are no declarations.
ghost use Rattle.std.specs.Prelude.{◌≡◌, ◌+◌, ◌-◌, ◌<◌, ◌≤◌, ◌^◌, ◌++◌, ◌∷◌, [], ℕ, List, length, true, All, IfOk, OnOk};
ghost use Rattle.std.specs.Option.{is_none};
ghost use Rattle.tree_model.specs.Forest.{attr_lines};
ghost use Rattle.tree_model.specs.Labels.{numbered_attrs};
ghost use Rattle.tree_model.specs.Rows.{value_at, lines_of, ArePlaced};
ghost use Rattle.tree_model.specs.XmlChars.{is_xml_qname};
ghost use Rattle.tree_model.specs.XmlMeaning as meaning;
ghost use Rattle.xml_rows.specs.Numbers.{Begins};
ghost use Rattle.xml_rows.specs.Scoping.{AreUris, scope_in};
ghost use Rattle.xml_rows.specs.Table.{element_line};
ghost use Rattle.xml_rows.specs.Tagging.{pair_of, pairs_of, all_expanded, expanded_all, AreNamed, AreWithin};
ghost use Rattle.xml_rows.specs.Texts.{valued_label};
ghost use Rattle.xml_rows.specs.Work.{top, leaf};

use crate::declarations::is_declaration;
use crate::names::Names;
use crate::rows::Rows;
use crate::scope::Scopes;
use crate::tag::{Expanded, Pair};
use tree_model::{Kind, NoMemory, ValueRef};

/// The row of an element that has a value and some attributes. Says whether its prefix isn't in scope.
pub fn add_element<'a>(
    name: &'a [u8],
    val: ValueRef,
    attributes: usize,
    scopes: &Scopes<'a>,
    names: &mut Names<'a>,
    rows: &mut Rows,
) -> Result<bool, NoMemory>
    requires written { is_xml_qname name.now ≡ true }
    requires few { length rows.old.rows + attributes + 1 < 2 ^ 32 }
    requires uris { AreUris (length names.old.uris) scopes.now.scope }
    ensures unbound { IfOk result (λ unbound. unbound ≡ is_none (meaning.element_uri (scope_in names.old.uris scopes.now.scope) name.now)) }
    ensures lines { OnOk result ((values : List ℕ) → ArePlaced names.old.names values rows.old.rows → lines_of names.new.names values rows.new.rows
        ≡ lines_of names.old.names values rows.old.rows ++ element_line (length rows.old.rows) (length rows.old.rows - top rows.old.open_at) (valued_label Kind.Elem (meaning.element_name (scope_in names.old.uris scopes.now.scope) name.now) (value_at values val)) attributes ∷ []) }
    ensures placed { OnOk result ((values : List ℕ) → ArePlaced names.old.names values rows.old.rows → val.at + val.len ≤ length values → ArePlaced names.new.names values rows.new.rows) }
    ensures open_at { OnOk result (rows.new.open_at ≡ rows.old.open_at) }
    ensures len { OnOk result (length rows.new.rows ≡ length rows.old.rows + 1) }
    ensures uris_kept { names.new.uris ≡ names.old.uris }
{
    let uri = scopes.element_uri(name);
    let number = names.number(uri.unwrap_or(names.no_uri()), name)?;
    rows.add_element(number, val, attributes)?;
    Ok(uri.is_none())
}

// The row of an attribute of the element at a place. Says whether its prefix isn't in scope.
fn add_attribute<'a>(
    pair: &Pair<'a>,
    place: usize,
    scopes: &Scopes<'a>,
    names: &mut Names<'a>,
    rows: &mut Rows,
    found: &mut Vec<Expanded<'a>>,
) -> Result<bool, NoMemory>
    requires written { is_xml_qname pair.now.name.now ≡ true }
    requires few { length rows.old.rows < 2 ^ 32 }
    requires within { place < length rows.old.rows }
    requires uris { AreUris (length names.old.uris) scopes.now.scope }
    requires found { All (λ e. e.uri < length names.old.uris) found.old.items }
    ensures unbound { IfOk result (λ unbound. unbound ≡ is_none (meaning.attr_uri (scope_in names.old.uris scopes.now.scope) pair.now.name.now)) }
    ensures lines { OnOk result ((values : List ℕ) → ArePlaced names.old.names values rows.old.rows → lines_of names.new.names values rows.new.rows
        ≡ lines_of names.old.names values rows.old.rows ++ leaf (length rows.old.rows) (length rows.old.rows - place) (meaning.attr_label (scope_in names.old.uris scopes.now.scope) (pair_of values pair.now)) ∷ []) }
    ensures placed { OnOk result ((values : List ℕ) → ArePlaced names.old.names values rows.old.rows → pair.now.val.at + pair.now.val.len ≤ length values → ArePlaced names.new.names values rows.new.rows) }
    ensures open_at { OnOk result (rows.new.open_at ≡ rows.old.open_at) }
    ensures len { OnOk result (length rows.new.rows ≡ length rows.old.rows + 1) }
    ensures uris_kept { names.new.uris ≡ names.old.uris }
    ensures found_more { OnOk result (all_expanded names.old.uris found.new.items ≡ all_expanded names.old.uris found.old.items ++ meaning.expanded (scope_in names.old.uris scopes.now.scope) pair.now.name.now ∷ []) }
    ensures in_use { OnOk result (All (λ e. e.uri < length names.old.uris) found.new.items) }
{
    let (uri, local) = scopes.attribute_uri(pair.name, names.no_uri());
    let number = uri.unwrap_or(names.no_uri());
    let name = names.number(number, pair.name)?;
    rows.add_attribute(place, name, pair.val)?;
    found.push(Expanded { uri: number, local })?;
    Ok(uri.is_none())
}

/// The rows of the attributes of the element at a place, without the declarations among them. Says whether one of their
/// prefixes isn't in scope. Their expanded names are put behind those that were found.
pub fn add_attributes<'a>(
    pairs: &[Pair<'a>],
    place: usize,
    scopes: &Scopes<'a>,
    names: &mut Names<'a>,
    rows: &mut Rows,
    found: &mut Vec<Expanded<'a>>,
) -> Result<bool, NoMemory>
    requires named { AreNamed pairs.now }
    requires few { length rows.old.rows + length pairs.now < 2 ^ 32 }
    requires within { place < length rows.old.rows }
    requires uris { AreUris (length names.old.uris) scopes.now.scope }
    requires found { All (λ e. e.uri < length names.old.uris) found.old.items }
    ensures unbound { IfOk result (λ unbound. (values : List ℕ) → unbound ≡ meaning.has_unbound (scope_in names.old.uris scopes.now.scope) (pairs_of values pairs.now)) }
    ensures lines { OnOk result ((values : List ℕ) → ArePlaced names.old.names values rows.old.rows → AreWithin (length values) pairs.now → lines_of names.new.names values rows.new.rows
        ≡ lines_of names.old.names values rows.old.rows ++ attr_lines (length rows.old.rows - place) (numbered_attrs (length rows.old.rows) (meaning.attr_labels (scope_in names.old.uris scopes.now.scope) (pairs_of values pairs.now)))) }
    ensures placed { OnOk result ((values : List ℕ) → ArePlaced names.old.names values rows.old.rows → AreWithin (length values) pairs.now → ArePlaced names.new.names values rows.new.rows) }
    ensures open_at { OnOk result (rows.new.open_at ≡ rows.old.open_at) }
    ensures more { OnOk result (place < length rows.new.rows) }
    ensures len { OnOk result (length rows.new.rows ≤ length rows.old.rows + length pairs.now) }
    ensures uris_kept { OnOk result (names.new.uris ≡ names.old.uris) }
    ensures found_more { OnOk result ((values : List ℕ) → all_expanded names.old.uris found.new.items
        ≡ all_expanded names.old.uris found.old.items ++ expanded_all (scope_in names.old.uris scopes.now.scope) (meaning.plain_attrs (pairs_of values pairs.now))) }
    ensures in_use { OnOk result (All (λ e. e.uri < length names.old.uris) found.new.items) }
{
    let mut unbound = false;
    for pair in pairs {
        if is_declaration(pair.name) {
            continue;
        }
        unbound |= add_attribute(pair, place, scopes, names, rows, found)?;
    }
    Ok(unbound)
}

// The text of one node as XML.
ghost use Rattle.std.specs.Prelude.{◌≡◌, ℕ, ◌+◌, ◌≤◌, ◌<◌, ◌^◌, ◌++◌, List, [], ◌∷◌, length, map, nat_lt, codes, OnOk, IfOk};
ghost use Rattle.std.specs.List.{Contains, flat_map, slice_index_or};
ghost use Rattle.tree_model.specs.Declarations.{declarations_of};
ghost use Rattle.tree_model.specs.Labels.{Label};
ghost use Rattle.tree_model.specs.Nodes.{Node, nodes};
ghost use Rattle.tree_model.specs.Printing.{node_text, start_text, attr_text, pi_text, written_name, declaration_text, declarations, wanted};
ghost use Rattle.tree_model.specs.Rows.{label_of, lines_of, ArePlaced};
ghost use Rattle.node_table.specs.Tables.{rows_in, IsIn};
ghost use Rattle.node_table.specs.Views.{view_of, view_forest, KeepsTrees};
ghost use Rattle.serializer.specs.Growth.{Grew};
ghost use Rattle.serializer.specs.Opened.{opens, tag_text, front_text, back_text, declared, Ended, Then};
ghost use Rattle.serializer.specs.Scopes.{scope_of, with_prefix, Declares};

use crate::bindings::Bindings;
use crate::declarations::{Declaration, next_declaration, push_declaration};
use crate::escape::{AttributeValue, CharacterData, push_byte, push_bytes, push_escaped};
use crate::rows::Rows;
use frame_pool::Pool;
use name_pool::NamePool;
use node_table::NodeTable;
use tree_model::{Kind, Name, NoMemory, Row};
use value_heap::ValueHeap;

// Whether the rows below a row, its attributes aside, are printed too.
fn opens(row: &Row) -> bool
    ensures { result ≡ opens row.now.kind row.now.asize row.now.size }
{
    matches!(row.kind, Kind::Doc | Kind::Elem) && row.asize < row.size
}

// A name as it is written: its prefix and a colon, where it has one, and its local part.
#[tactic(auto, using(crate::proofs::Growing::grew_twice), unfolding(tree_model::specs::Printing::written_name))]
fn push_name(out: &mut Vec<u8>, name: &Name) -> Result<(), NoMemory>
    ensures text { OnOk result (out.new.items ≡ out.old.items ++ written_name name.now) }
    ensures kept { Grew out.old.items out.new.items }
{
    let prefix = name.prefix.as_str().as_bytes();
    if !prefix.is_empty() {
        push_bytes(out, prefix)?;
        push_byte(out, b':')?;
    }
    push_bytes(out, name.local.as_str().as_bytes())
}

// Declares a prefix in the element at `place`.
#[tactic(auto, using(crate::proofs::Growing::grew_none))]
fn declare<'a>(
    place: u32,
    declaration: Declaration<'a>,
    bindings: &mut Bindings<'a>,
    out: &mut Vec<u8>,
) -> Result<(), NoMemory>
    ensures text { OnOk result (out.new.items ≡ out.old.items ++ declaration_text (declaration.entry.prefix.now, declaration.entry.uri.now)) }
    ensures declares { OnOk result (Declares place ((declaration.entry.prefix.now, declaration.entry.uri.now) ∷ []) bindings.old bindings.new) }
    ensures kept { Grew out.old.items out.new.items }
{
    push_declaration::<AttributeValue>(out, declaration)?;
    Ok(bindings.push(place, declaration)?)
}

// The declarations that the element at `place` has itself: those whose text its value is.
fn declare_own<'a>(
    place: u32,
    value: &'a [u8],
    bindings: &mut Bindings<'a>,
    out: &mut Vec<u8>,
) -> Result<(), NoMemory>
    ensures text { OnOk result (out.new.items ≡ out.old.items ++ flat_map declaration_text (declarations_of value.now)) }
    ensures declares { OnOk result (Declares place (declarations_of value.now) bindings.old bindings.new) }
    ensures kept { Grew out.old.items out.new.items }
{
    let mut rest = value;
    while let Some((declaration, behind)) = next_declaration(rest) {
        declare(place, declaration, bindings, out)?;
        rest = behind;
    }
    Ok(())
}

// Declares the prefix of a name, also the empty one, unless it is bound so already.
#[tactic(auto, using(crate::proofs::Growing::grew_none))]
fn declare_name<'a>(
    place: u32,
    name: &'a Name,
    bindings: &mut Bindings<'a>,
    out: &mut Vec<u8>,
) -> Result<(), NoMemory>
    ensures text { OnOk result (out.new.items ≡ out.old.items ++ flat_map declaration_text (wanted (scope_of bindings.old) (name.now ∷ []))) }
    ensures declares { OnOk result (Declares place (wanted (scope_of bindings.old) (name.now ∷ [])) bindings.old bindings.new) }
    ensures kept { Grew out.old.items out.new.items }
{
    if bindings.is_bound(name) {
        return Ok(());
    }
    let declaration = Declaration {
        prefix: name.prefix.as_str().as_bytes(),
        uri: name.uri.as_str().as_bytes(),
    };
    declare(place, declaration, bindings, out)
}

// The same for the name of an attribute, which takes no part in the default.
#[tactic(auto, using(crate::proofs::Growing::grew_none))]
fn declare_prefix<'a>(
    place: u32,
    name: &'a Name,
    bindings: &mut Bindings<'a>,
    out: &mut Vec<u8>,
) -> Result<(), NoMemory>
    ensures text { OnOk result (out.new.items ≡ out.old.items ++ flat_map declaration_text (wanted (scope_of bindings.old) (with_prefix (name.now ∷ [])))) }
    ensures declares { OnOk result (Declares place (wanted (scope_of bindings.old) (with_prefix (name.now ∷ []))) bindings.old bindings.new) }
    ensures kept { Grew out.old.items out.new.items }
{
    if name.prefix.as_str().is_empty() {
        return Ok(());
    }
    declare_name(place, name, bindings, out)
}

// What the numbers of rows stand for.
#[derive(Clone, Copy)]
struct Printer<'a> {
    names: &'a NamePool,
    heap: &'a ValueHeap,
}

impl<'a> Printer<'a> {
    // What the attributes of the element at `place` want declared.
    fn declare_prefixes(
        &self,
        place: u32,
        attrs: &[Row],
        bindings: &mut Bindings<'a>,
        out: &mut Vec<u8>,
    ) -> Result<(), NoMemory>
        requires placed { ArePlaced self.now.names.now self.now.heap.now attrs.now }
        ensures text { OnOk result (out.new.items ≡ out.old.items ++ flat_map declaration_text (wanted (scope_of bindings.old) (with_prefix (map (λ (a : Label). a.name) (map (label_of self.now.names.now self.now.heap.now) attrs.now))))) }
        ensures declares { OnOk result (Declares place (wanted (scope_of bindings.old) (with_prefix (map (λ (a : Label). a.name) (map (label_of self.now.names.now self.now.heap.now) attrs.now)))) bindings.old bindings.new) }
        ensures kept { Grew out.old.items out.new.items }
    {
        for row in attrs {
            declare_prefix(place, self.names.name(row.name), bindings, out)?;
        }
        Ok(())
    }

    // All that the element at `place` declares.
    fn push_declarations(
        &self,
        place: u32,
        row: &Row,
        attrs: &[Row],
        bindings: &mut Bindings<'a>,
        out: &mut Vec<u8>,
    ) -> Result<(), NoMemory>
        requires name { row.now.name < length self.now.names.now }
        requires value { row.now.val.at + row.now.val.len ≤ length self.now.heap.now }
        requires placed { ArePlaced self.now.names.now self.now.heap.now attrs.now }
        ensures text { OnOk result (out.new.items ≡ out.old.items ++ flat_map declaration_text (declarations (scope_of bindings.old) (label_of self.now.names.now self.now.heap.now row.now) (map (label_of self.now.names.now self.now.heap.now) attrs.now))) }
        ensures declares { OnOk result (Declares place (declarations (scope_of bindings.old) (label_of self.now.names.now self.now.heap.now row.now) (map (label_of self.now.names.now self.now.heap.now) attrs.now)) bindings.old bindings.new) }
        ensures kept { Grew out.old.items out.new.items }
    {
        declare_own(place, self.heap.get(row.val), bindings, out)?;
        declare_name(place, self.names.name(row.name), bindings, out)?;
        Ok(self.declare_prefixes(place, attrs, bindings, out)?)
    }

    #[tactic(auto, using(crate::proofs::Growing::grew_twice))]
    fn push_attribute(&self, row: &Row, out: &mut Vec<u8>) -> Result<(), NoMemory>
        requires name { row.now.name < length self.now.names.now }
        requires value { row.now.val.at + row.now.val.len ≤ length self.now.heap.now }
        ensures text { OnOk result (out.new.items ≡ out.old.items ++ attr_text (label_of self.now.names.now self.now.heap.now row.now)) }
        ensures kept { Grew out.old.items out.new.items }
    {
        push_name(out, self.names.name(row.name))?;
        push_bytes(out, b"=\"")?;
        push_escaped::<AttributeValue>(out, self.heap.get(row.val))?;
        push_byte(out, b'"')
    }

    // Each attribute behind a space.
    fn push_attributes(&self, attrs: &[Row], out: &mut Vec<u8>) -> Result<(), NoMemory>
        requires placed { ArePlaced self.now.names.now self.now.heap.now attrs.now }
        ensures text { OnOk result (out.new.items ≡ out.old.items ++ flat_map (λ attr. 32 ∷ attr_text attr) (map (label_of self.now.names.now self.now.heap.now) attrs.now)) }
        ensures kept { Grew out.old.items out.new.items }
    {
        for row in attrs {
            push_byte(out, b' ')?;
            self.push_attribute(row, out)?;
        }
        Ok(())
    }

    #[tactic(auto, using(crate::proofs::Growing::grew_twice))]
    fn push_start(
        &self,
        place: u32,
        row: &Row,
        attrs: &[Row],
        bindings: &mut Bindings<'a>,
        out: &mut Vec<u8>,
    ) -> Result<(), NoMemory>
        requires name { row.now.name < length self.now.names.now }
        requires value { row.now.val.at + row.now.val.len ≤ length self.now.heap.now }
        requires placed { ArePlaced self.now.names.now self.now.heap.now attrs.now }
        ensures text { OnOk result (out.new.items ≡ out.old.items ++ start_text (scope_of bindings.old) (label_of self.now.names.now self.now.heap.now row.now) (map (label_of self.now.names.now self.now.heap.now) attrs.now)) }
        ensures declares { OnOk result (Declares place (declarations (scope_of bindings.old) (label_of self.now.names.now self.now.heap.now row.now) (map (label_of self.now.names.now self.now.heap.now) attrs.now)) bindings.old bindings.new) }
        ensures kept { Grew out.old.items out.new.items }
    {
        push_byte(out, b'<')?;
        push_name(out, self.names.name(row.name))?;
        self.push_declarations(place, row, attrs, bindings, out)?;
        self.push_attributes(attrs, out)
    }

    #[tactic(auto, using(crate::proofs::Growing::grew_twice))]
    fn push_comment(&self, row: &Row, out: &mut Vec<u8>) -> Result<(), NoMemory>
        requires value { row.now.val.at + row.now.val.len ≤ length self.now.heap.now }
        ensures text { OnOk result (out.new.items ≡ out.old.items ++ (codes "<!--" ++ ((label_of self.now.names.now self.now.heap.now row.now).value ++ codes "-->"))) }
        ensures kept { Grew out.old.items out.new.items }
    {
        push_bytes(out, b"<!--")?;
        push_bytes(out, self.heap.get(row.val))?;
        push_bytes(out, b"-->")
    }

    #[tactic(auto, using(crate::proofs::Growing::grew_twice))]
    fn push_instruction(&self, row: &Row, out: &mut Vec<u8>) -> Result<(), NoMemory>
        requires name { row.now.name < length self.now.names.now }
        requires value { row.now.val.at + row.now.val.len ≤ length self.now.heap.now }
        ensures text { OnOk result (out.new.items ≡ out.old.items ++ pi_text (label_of self.now.names.now self.now.heap.now row.now)) }
        ensures kept { Grew out.old.items out.new.items }
    {
        push_bytes(out, b"<?")?;
        push_name(out, self.names.name(row.name))?;
        let value = self.heap.get(row.val);
        if value.is_empty() {
            return push_bytes(out, b"?>");
        }
        push_byte(out, b' ')?;
        push_bytes(out, value)?;
        push_bytes(out, b"?>")
    }

    // An element's tag: a start tag where it has children, else the only tag.
    #[tactic(auto, using(crate::proofs::Growing::grew_twice))]
    fn push_tag(
        &self,
        place: u32,
        row: &Row,
        attrs: &[Row],
        bindings: &mut Bindings<'a>,
        out: &mut Vec<u8>,
    ) -> Result<(), NoMemory>
        requires name { row.now.name < length self.now.names.now }
        requires value { row.now.val.at + row.now.val.len ≤ length self.now.heap.now }
        requires placed { ArePlaced self.now.names.now self.now.heap.now attrs.now }
        ensures text { OnOk result (out.new.items ≡ out.old.items ++ tag_text (scope_of bindings.old) (label_of self.now.names.now self.now.heap.now row.now) (map (label_of self.now.names.now self.now.heap.now) attrs.now) (nat_lt row.now.asize row.now.size)) }
        ensures declares { OnOk result (Declares place (declarations (scope_of bindings.old) (label_of self.now.names.now self.now.heap.now row.now) (map (label_of self.now.names.now self.now.heap.now) attrs.now)) bindings.old bindings.new) }
        ensures kept { Grew out.old.items out.new.items }
    {
        self.push_start(place, row, attrs, bindings, out)?;
        if row.asize < row.size {
            return push_byte(out, b'>');
        }
        push_bytes(out, b"/>")
    }

    // A node up to its children: all of it where they aren't printed.
    #[tactic(auto, using(crate::proofs::Growing::grew_none))]
    fn push_front(
        &self,
        place: u32,
        row: &Row,
        attrs: &[Row],
        bindings: &mut Bindings<'a>,
        out: &mut Vec<u8>,
    ) -> Result<(), NoMemory>
        requires name { row.now.name < length self.now.names.now }
        requires value { row.now.val.at + row.now.val.len ≤ length self.now.heap.now }
        requires placed { ArePlaced self.now.names.now self.now.heap.now attrs.now }
        ensures text { OnOk result (out.new.items ≡ out.old.items ++ front_text (scope_of bindings.old) (label_of self.now.names.now self.now.heap.now row.now) (map (label_of self.now.names.now self.now.heap.now) attrs.now) (nat_lt row.now.asize row.now.size)) }
        ensures declares { OnOk result (Declares place (declared (scope_of bindings.old) (label_of self.now.names.now self.now.heap.now row.now) (map (label_of self.now.names.now self.now.heap.now) attrs.now)) bindings.old bindings.new) }
        ensures kept { Grew out.old.items out.new.items }
    {
        match row.kind {
            Kind::Doc => Ok(()),
            Kind::Elem => self.push_tag(place, row, attrs, bindings, out),
            Kind::Text => push_escaped::<CharacterData>(out, self.heap.get(row.val)),
            Kind::Attr => self.push_attribute(row, out),
            Kind::Comm => self.push_comment(row, out),
            Kind::Pi => self.push_instruction(row, out),
        }
    }

    // What stands behind the children of a node.
    #[tactic(auto, using(crate::proofs::Growing::grew_none, crate::proofs::Growing::grew_twice))]
    fn push_end(&self, row: &Row, out: &mut Vec<u8>) -> Result<(), NoMemory>
        requires name { row.now.name < length self.now.names.now }
        ensures text { OnOk result (out.new.items ≡ out.old.items ++ back_text (label_of self.now.names.now self.now.heap.now row.now)) }
        ensures kept { Grew out.old.items out.new.items }
    {
        if row.kind != Kind::Elem {
            return Ok(());
        }
        push_bytes(out, b"</")?;
        push_name(out, self.names.name(row.name))?;
        push_byte(out, b'>')
    }

    // Ends each node that ends where the row at `at` does, the innermost first and none about the node at `top`. Answers
    // whether that one is among them.
    fn push_ends(
        &self,
        top: u32,
        at: u32,
        row: &Row,
        parents: &mut Rows<'_>,
        bindings: &mut Bindings<'a>,
        out: &mut Vec<u8>,
    ) -> Result<bool, NoMemory>
        requires few { length parents.old ≤ 2 ^ 24 }
        requires placed { ArePlaced self.now.names.now self.now.heap.now parents.old }
        requires row { row.now ≡ slice_index_or parents.old at row.now }
        requires ended { (whole : List ℕ) × Ended (lines_of self.now.names.now self.now.heap.now parents.old) top at (at + row.now.size) bindings.old out.old.items whole }
        ensures text { IfOk result (λ all. (whole : List ℕ) → Ended (lines_of self.now.names.now self.now.heap.now parents.old) top at (at + row.now.size) bindings.old out.old.items whole → Then (lines_of self.now.names.now self.now.heap.now parents.old) top (at + row.now.size) all bindings.new out.new.items whole) }
        ensures rows { parents.new ≡ parents.old }
        ensures kept { Grew out.old.items out.new.items }
    {
        let end = at + row.size;
        let mut inner = at;
        let mut dist = row.dist;
        while inner != top {
            inner -= dist;
            let parent = parents.row(inner);
            if inner + parent.size != end {
                return Ok(false);
            }
            self.push_end(&parent, out)?;
            bindings.leave(inner);
            dist = parent.dist;
        }
        Ok(true)
    }

    // The node at `top`, in one walk over its rows. Parents are looked at by a reader of their own.
    fn push_node(
        &self,
        top: u32,
        rows: &mut Rows<'_>,
        parents: &mut Rows<'_>,
        out: &mut Vec<u8>,
    ) -> Result<(), NoMemory>
        requires few { length rows.old ≤ 2 ^ 24 }
        requires same { parents.old ≡ rows.old }
        requires trees { KeepsTrees (view_of rows.old self.now.names.now self.now.heap.now) }
        requires within { top < length rows.old }
        ensures text { OnOk result ((node : Node Label) → Contains (nodes (view_forest (view_of rows.old self.now.names.now self.now.heap.now))) node → node.place ≡ top → out.new.items ≡ out.old.items ++ node_text node) }
        ensures kept { Grew out.old.items out.new.items }
    {
        let mut bindings = Bindings::new(*out.allocator());
        let mut attrs = Vec::new(*out.allocator());
        let mut at = top;
        loop {
            let row = rows.row(at);
            rows.read(at + 1, at + row.asize, &mut attrs)?;
            self.push_front(at, &row, &attrs, &mut bindings, out)?;
            if opens(&row) {
                at += row.asize;
                continue;
            }
            bindings.leave(at);
            if self.push_ends(top, at, &row, parents, &mut bindings, out)? {
                return Ok(());
            }
            at += row.size;
        }
    }
}

/// Appends the text of the node at `pre` as XML: an element with its attributes and all that is in it, or as an empty-element
/// tag where nothing is; the content of a document, without its path; an attribute as `name="value"`. An element declares
/// what it declares itself, in its order, then its prefix, also the empty one, and those of its attributes, each where what
/// stands before doesn't bind it so; about the node itself nothing is declared. In character data `&`, `<`, `>` and CR stand
/// as references, in the value of an attribute also the quote, TAB and LF. Nothing is indented. After `NoMemory` a part of the
/// text may stand behind what `out` had before.
pub fn print_node(
    table: &NodeTable,
    pool: &Pool<Row>,
    names: &NamePool,
    heap: &ValueHeap,
    pre: u32,
    out: &mut Vec<u8>,
) -> Result<(), NoMemory>
    requires held { IsIn pool.now table.now }
    requires trees { KeepsTrees (view_of (rows_in pool.now table.now) names.now heap.now) }
    requires within { pre < length (rows_in pool.now table.now) }
    ensures text { OnOk result ((node : Node Label) → Contains (nodes (view_forest (view_of (rows_in pool.now table.now) names.now heap.now))) node → node.place ≡ pre → out.new.items ≡ out.old.items ++ node_text node) }
    ensures kept { Grew out.old.items out.new.items }
{
    let mut rows = Rows::of(table, pool);
    let mut parents = Rows::of(table, pool);
    Printer { names, heap }.push_node(pre, &mut rows, &mut parents, out)
}

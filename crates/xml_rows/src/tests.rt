// The rows of small texts, as they are printed here: kind, dist, size, asize, id, name and value of each.
ghost use Rattle.std.specs.Prelude.{◌≡◌, ◌+◌, ◌<◌, ◌^◌, true, length, IfOk, IfSome};
ghost use Rattle.xml_pieces.specs.Tokens.{token_text};
ghost use Rattle.xml_pieces.specs.View.{token_of};
ghost use Rattle.xml_rows.specs.Fitting.{IsFit, IsTextRun};

use crate::builder::{Builder, Made};
use std::alloc::Global;
use std::fmt::Write;
use std::str;
use std::test::Fail;
use tree_model::Row;
use xml_pieces::{Piece, Place, item_at};

// A text of a test is shorter than this.
const LIMIT: usize = 100_000;

fn next(place: Place, piece: &Piece) -> Place {
    match piece {
        Piece::Open(_) | Piece::Quote(_) => Place::Tag,
        Piece::Attribute(_, _, _, _, delim) => Place::Value(*delim),
        Piece::Run(_) | Piece::Entity(_) | Piece::Decimal(_) | Piece::Hexadecimal(_) => place,
        _ => Place::Content,
    }
}

fn is_text_run(piece: &Piece) -> bool
    ensures { result ≡ true → IsTextRun (token_of piece.now) }
{
    match piece {
        Piece::Run(bytes) => str::from_utf8(bytes).is_ok(),
        Piece::Cdata(_)
        | Piece::Entity(_)
        | Piece::Decimal(_)
        | Piece::Hexadecimal(_)
        | Piece::Comment(_)
        | Piece::Instruction(_, _, _)
        | Piece::Doctype(_)
        | Piece::Open(_)
        | Piece::Attribute(_, _, _, _, _)
        | Piece::Quote(_)
        | Piece::Go(_)
        | Piece::Shut(_)
        | Piece::Close(_, _) => true,
    }
}

fn piece_at(place: Place, rest: &[u8]) -> Option<(Piece, &[u8])>
    ensures less { IfSome result (λ x. length x.1.now < length rest.now) }
    ensures fit { IfSome result (λ x. IsTextRun (token_of x.0) → IsFit (token_of x.0)) }
    ensures len { IfSome result (λ x. length (token_text (token_of x.0)) + length x.1.now ≡ length rest.now) }
{
    let (piece, after) = item_at(place, rest)?;
    Some((piece, after))
}

fn write_row(out: &mut String, made: &Made, row: &Row) -> Result<(), Fail> {
    let end = made.values.mark();
    if row.name >= made.names.len() || row.val.at > end || row.val.len > end - row.val.at {
        return Err(Fail::from("a row isn't placed"));
    }
    let name = made.names.name(row.name);
    let uri = name.uri.as_str();
    let prefix = name.prefix.as_str();
    let local = name.local.as_str();
    let value = str::from_utf8(made.values.get(row.val)).unwrap_or("no text");
    let kind = row.kind;
    let dist = row.dist;
    let size = row.size;
    let asize = row.asize;
    let id = row.id;
    writeln!(
        out,
        "{kind:?} {dist} {size} {asize} {id} {uri}|{prefix}|{local} {value:?}"
    )?;
    Ok(())
}

fn built<'a>(alloc: Global, text: &'a str, strip: bool) -> Result<Builder<'a>, Fail>
    ensures { IfOk result (λ b. b.at < 2 ^ 31) }
{
    let mut rest = text.as_bytes();
    if rest.len() >= LIMIT {
        return Err(Fail::from("too long"));
    }
    let mut place = Place::Content;
    let mut builder = Builder::begin(alloc, 0)?;
    while let Some((piece, after)) = piece_at(place, rest) {
        place = next(place, &piece);
        if !is_text_run(&piece) {
            return Err(Fail::from("a run isn't text"));
        }
        builder = builder.take(piece, strip)?;
        rest = after;
    }
    Ok(builder)
}

// The rows of a text, behind its first fault.
fn printed(alloc: Global, text: &str, strip: bool) -> Result<String, Fail> {
    let mut out = String::new(alloc);
    let builder = built(alloc, text, strip)?;
    if let Some(fault) = builder.fault() {
        writeln!(&mut out, "{fault:?}")?;
    }
    let made = builder.finish();
    for row in made.rows.as_slice() {
        write_row(&mut out, &made, row)?;
    }
    Ok(out)
}

#[test]
fn an_empty_element(rt: HostRuntime) -> Result<(), Fail> {
    let rows = printed(rt.alloc(), "<a/>", false)?;
    let expected = "Doc 0 2 1 0 || \"\"\n\
         Elem 1 1 1 1 ||a \"\"\n";
    assert_eq!(rt; rows.as_str(), expected);
    Ok(())
}

#[test]
fn attributes_and_texts(rt: HostRuntime) -> Result<(), Fail> {
    let rows = printed(rt.alloc(), "<a x=\"1\" y='2'>t<b/>u</a>", false)?;
    let expected = "Doc 0 7 1 0 || \"\"\n\
         Elem 1 6 3 1 ||a \"\"\n\
         Attr 1 1 1 2 ||x \"1\"\n\
         Attr 2 1 1 3 ||y \"2\"\n\
         Text 3 1 1 4 || \"t\"\n\
         Elem 4 1 1 5 ||b \"\"\n\
         Text 5 1 1 6 || \"u\"\n";
    assert_eq!(rt; rows.as_str(), expected);
    Ok(())
}

#[test]
fn line_ends(rt: HostRuntime) -> Result<(), Fail> {
    let rows = printed(rt.alloc(), "<a x=\"p\tq\r\nr\">\r\n1\r2\n</a>", false)?;
    let expected = "Doc 0 4 1 0 || \"\"\n\
         Elem 1 3 2 1 ||a \"\"\n\
         Attr 1 1 1 2 ||x \"p q r\"\n\
         Text 2 1 1 3 || \"\\n1\\n2\\n\"\n";
    assert_eq!(rt; rows.as_str(), expected);
    Ok(())
}

#[test]
fn references_and_sections(rt: HostRuntime) -> Result<(), Fail> {
    let rows = printed(
        rt.alloc(),
        "<a x=\"&lt;&#9;&quot;\">&#65;&#x1F600;&amp;<![CDATA[<b>\r]]>z</a>",
        false,
    )?;
    let expected = "Doc 0 4 1 0 || \"\"\n\
         Elem 1 3 2 1 ||a \"\"\n\
         Attr 1 1 1 2 ||x \"<\\t\\\"\"\n\
         Text 2 1 1 3 || \"A😀&<b>\\nz\"\n";
    assert_eq!(rt; rows.as_str(), expected);
    Ok(())
}

#[test]
fn comments_and_instructions(rt: HostRuntime) -> Result<(), Fail> {
    let rows = printed(
        rt.alloc(),
        "<!--c\r\n--> <?t d?>\n<a><!----><?u?></a><!--e-->",
        false,
    )?;
    let expected = "Doc 0 7 1 0 || \"\"\n\
         Comm 1 1 1 1 || \"c\\n\"\n\
         Pi 2 1 1 2 ||t \"d\"\n\
         Elem 3 3 1 3 ||a \"\"\n\
         Comm 1 1 1 4 || \"\"\n\
         Pi 2 1 1 5 ||u \"\"\n\
         Comm 6 1 1 6 || \"e\"\n";
    assert_eq!(rt; rows.as_str(), expected);
    Ok(())
}

#[test]
fn white_space_is_kept(rt: HostRuntime) -> Result<(), Fail> {
    let rows = printed(rt.alloc(), "<a> <b/>\n</a>", false)?;
    let expected = "Doc 0 5 1 0 || \"\"\n\
         Elem 1 4 1 1 ||a \"\"\n\
         Text 1 1 1 2 || \" \"\n\
         Elem 2 1 1 3 ||b \"\"\n\
         Text 3 1 1 4 || \"\\n\"\n";
    assert_eq!(rt; rows.as_str(), expected);
    Ok(())
}

#[test]
fn white_space_is_dropped(rt: HostRuntime) -> Result<(), Fail> {
    let rows = printed(rt.alloc(), "<a> <b/>\n<c>x </c>&#32;</a>", true)?;
    let expected = "Doc 0 5 1 0 || \"\"\n\
         Elem 1 4 1 1 ||a \"\"\n\
         Elem 1 1 1 2 ||b \"\"\n\
         Elem 2 2 1 3 ||c \"\"\n\
         Text 1 1 1 4 || \"x \"\n";
    assert_eq!(rt; rows.as_str(), expected);
    Ok(())
}

#[test]
fn no_text_without_bytes(rt: HostRuntime) -> Result<(), Fail> {
    let rows = printed(rt.alloc(), "<a><![CDATA[]]></a>", false)?;
    let expected = "Doc 0 2 1 0 || \"\"\n\
         Elem 1 1 1 1 ||a \"\"\n";
    assert_eq!(rt; rows.as_str(), expected);
    Ok(())
}

#[test]
fn namespaces(rt: HostRuntime) -> Result<(), Fail> {
    let rows = printed(
        rt.alloc(),
        "<p:a xmlns:p=\"u\" p:x=\"1\" x=\"2\"><b xmlns=\"d\"><c/></b><b/></p:a>",
        false,
    )?;
    let expected = "Doc 0 7 1 0 || \"\"\n\
         Elem 1 6 3 1 u|p|a \"p\\0u\\0\"\n\
         Attr 1 1 1 2 u|p|x \"1\"\n\
         Attr 2 1 1 3 ||x \"2\"\n\
         Elem 3 2 1 4 d||b \"\\0d\\0\"\n\
         Elem 1 1 1 5 d||c \"\"\n\
         Elem 5 1 1 6 ||b \"\"\n";
    assert_eq!(rt; rows.as_str(), expected);
    Ok(())
}

#[test]
fn a_prefix_out_of_scope(rt: HostRuntime) -> Result<(), Fail> {
    let rows = printed(rt.alloc(), "<r><p:a xmlns:p=\"u\"/><p:b/></r>", false)?;
    let expected = "Namespace(21)\n\
         Doc 0 4 1 0 || \"\"\n\
         Elem 1 3 1 1 ||r \"\"\n\
         Elem 1 1 1 2 u|p|a \"p\\0u\\0\"\n\
         Elem 2 1 1 3 |p|b \"\"\n";
    assert_eq!(rt; rows.as_str(), expected);
    Ok(())
}

#[test]
fn a_prefix_bound_again(rt: HostRuntime) -> Result<(), Fail> {
    let rows = printed(
        rt.alloc(),
        "<a xmlns:p=\"u\"><b xmlns:p=\"v\"><p:c/></b><p:d/></a>",
        false,
    )?;
    let expected = "Doc 0 5 1 0 || \"\"\n\
         Elem 1 4 1 1 ||a \"p\\0u\\0\"\n\
         Elem 1 2 1 2 ||b \"p\\0v\\0\"\n\
         Elem 1 1 1 3 v|p|c \"\"\n\
         Elem 3 1 1 4 u|p|d \"\"\n";
    assert_eq!(rt; rows.as_str(), expected);
    Ok(())
}

#[test]
fn an_expanded_name_twice(rt: HostRuntime) -> Result<(), Fail> {
    let rows = printed(
        rt.alloc(),
        "<a xmlns:p=\"u\" xmlns:q=\"u\" p:x=\"1\" q:x=\"2\"/>",
        false,
    )?;
    let expected = "Namespace(0)\n\
         Doc 0 4 1 0 || \"\"\n\
         Elem 1 3 3 1 ||a \"p\\0u\\0q\\0u\\0\"\n\
         Attr 1 1 1 2 u|p|x \"1\"\n\
         Attr 2 1 1 3 u|q|x \"2\"\n";
    assert_eq!(rt; rows.as_str(), expected);
    Ok(())
}

#[test]
fn bad_bindings(rt: HostRuntime) -> Result<(), Fail> {
    let rows = printed(rt.alloc(), "<r><a xmlns:p=\"\"/></r>", false)?;
    let expected = "Namespace(3)\n\
         Doc 0 3 1 0 || \"\"\n\
         Elem 1 2 1 1 ||r \"\"\n\
         Elem 1 1 1 2 ||a \"p\\0\\0\"\n";
    assert_eq!(rt; rows.as_str(), expected);
    Ok(())
}

#[test]
fn an_unknown_entity(rt: HostRuntime) -> Result<(), Fail> {
    let rows = printed(rt.alloc(), "<a>x&nope;</a>", false)?;
    let expected = "UnknownEntity(4)\n\
         Doc 0 3 1 0 || \"\"\n\
         Elem 1 2 1 1 ||a \"\"\n\
         Text 1 1 1 2 || \"x&nope;\"\n";
    assert_eq!(rt; rows.as_str(), expected);
    Ok(())
}

#[test]
fn the_first_fault(rt: HostRuntime) -> Result<(), Fail> {
    let rows = printed(rt.alloc(), "<a>&x;<p:b/>&y;</a>", false)?;
    let expected = "UnknownEntity(3)\n\
         Doc 0 5 1 0 || \"\"\n\
         Elem 1 4 1 1 ||a \"\"\n\
         Text 1 1 1 2 || \"&x;\"\n\
         Elem 2 1 1 3 |p|b \"\"\n\
         Text 3 1 1 4 || \"&y;\"\n";
    assert_eq!(rt; rows.as_str(), expected);
    Ok(())
}

#[test]
fn a_tag_before_its_values(rt: HostRuntime) -> Result<(), Fail> {
    let rows = printed(rt.alloc(), "<p:a x=\"&u;\"/>", false)?;
    let expected = "Namespace(0)\n\
         Doc 0 3 1 0 || \"\"\n\
         Elem 1 2 2 1 |p|a \"\"\n\
         Attr 1 1 1 2 ||x \"&u;\"\n";
    assert_eq!(rt; rows.as_str(), expected);
    Ok(())
}

#[test]
fn an_entity_in_a_value(rt: HostRuntime) -> Result<(), Fail> {
    let rows = printed(rt.alloc(), "<a x=\"1&u;\"/>", false)?;
    let expected = "UnknownEntity(7)\n\
         Doc 0 3 1 0 || \"\"\n\
         Elem 1 2 2 1 ||a \"\"\n\
         Attr 1 1 1 2 ||x \"1&u;\"\n";
    assert_eq!(rt; rows.as_str(), expected);
    Ok(())
}

// The fault of a tag that has many attributes, and how many rows it makes.
fn many(alloc: Global, more: &str) -> Result<String, Fail> {
    let mut text = String::from_str(alloc, "<r xmlns:p='u' xmlns:q='u'")?;
    for number in 0u8..20 {
        write!(&mut text, " a{number}='{number}'")?;
    }
    text.push_str(more)?;
    text.push_str("/>")?;
    let builder = built(alloc, text.as_str(), false)?;
    let fault = builder.fault();
    let rows = builder.len();
    Ok(format!(in alloc; "{fault:?} {rows}")?)
}

#[test]
fn many_attributes(rt: HostRuntime) -> Result<(), Fail> {
    let same = many(rt.alloc(), " p:a1='' a='' q:a2=''")?;
    assert_eq!(rt; same.as_str(), "None 25");
    let twice = many(rt.alloc(), " p:b='' c='' q:b=''")?;
    assert_eq!(rt; twice.as_str(), "Some(Namespace(0)) 25");
    Ok(())
}

use super::*;
use std::alloc::{AllocError, Global};
use std::process::Abort;
use std::str;
use std::test::Fail;

fn text_of(bytes: &[u8]) -> &str {
    str::from_utf8(bytes).unwrap_or("?")
}

// A piece in words: its kind, and its parts between bars.
fn words_of(alloc: Global, piece: Piece) -> Result<String, AllocError> {
    match piece {
        Piece::Run(run) => format!(in alloc; "run |{}|", text_of(run)),
        Piece::Entity(name) => format!(in alloc; "entity |{}|", text_of(name)),
        Piece::Decimal(digits) => format!(in alloc; "decimal |{}|", text_of(digits)),
        Piece::Hexadecimal(digits) => format!(in alloc; "hexadecimal |{}|", text_of(digits)),
        Piece::Cdata(text) => format!(in alloc; "cdata |{}|", text_of(text)),
        Piece::Comment(text) => format!(in alloc; "comment |{}|", text_of(text)),
        Piece::Instruction(target, gap, rest) => {
            let (target, gap, rest) = (text_of(target), text_of(gap), text_of(rest));
            format!(in alloc; "instruction |{target}|{gap}|{rest}|")
        }
        Piece::Doctype(text) => format!(in alloc; "doctype |{}|", text_of(text)),
        Piece::Open(name) => format!(in alloc; "open |{}|", text_of(name)),
        Piece::Attribute(gap, name, before, behind, delim) => {
            let (gap, name) = (text_of(gap), text_of(name));
            let (before, behind) = (text_of(before), text_of(behind));
            format!(in alloc; "attribute |{gap}|{name}|{before}|{behind}|{delim}|")
        }
        Piece::Quote(delim) => format!(in alloc; "quote |{delim}|"),
        Piece::Go(gap) => format!(in alloc; "go |{}|", text_of(gap)),
        Piece::Shut(gap) => format!(in alloc; "shut |{}|", text_of(gap)),
        Piece::Close(name, last) => {
            format!(in alloc; "close |{}|{}|", text_of(name), text_of(last))
        }
    }
}

// Each text of the table is read as a piece in these words, and this rest.
fn expect_pieces(
    rt: &impl Abort,
    alloc: Global,
    place: Place,
    table: &[(&str, &str, &str)],
) -> Result<(), Fail> {
    for (text, want, rest) in table {
        match item_at(place, text.as_bytes()) {
            Some((piece, after)) => {
                let words = words_of(alloc, piece)?;
                assert_eq!(rt; words.as_str(), *want, "at {text:?}");
                assert_eq!(rt; text_of(after), *rest, "behind {text:?}");
            }
            None => assert_eq!(rt; "nothing", *want, "at {text:?}"),
        }
    }
    Ok(())
}

// No text of the list is read as a piece.
fn expect_none(rt: &impl Abort, place: Place, texts: &[&str]) {
    for text in texts {
        assert!(rt; item_at(place, text.as_bytes()).is_none(), "at {text:?}");
    }
}

#[test]
fn reads_content(rt: HostRuntime) -> Result<(), Fail> {
    expect_pieces(
        &rt,
        rt.alloc(),
        Place::Content,
        &[
            ("text", "run |text|", ""),
            ("a]]b>c", "run |a]]b>c|", ""),
            ("\"'<", "run |\"'|", "<"),
            ("x&y;", "run |x|", "&y;"),
            ("\u{e9}\u{1F600}\r\n\t<", "run |\u{e9}\u{1F600}\r\n\t|", "<"),
            (
                "a run of more than two blocks, with brackets ]] > of no meaning]]<a",
                "run |a run of more than two blocks, with brackets ]] > of no meaning]]|",
                "<a",
            ),
            (
                "a run that ends within its second block & more",
                "run |a run that ends within its second block |",
                "& more",
            ),
            ("&lt;b", "entity |lt|", "b"),
            ("&caf\u{e9};", "entity |caf\u{e9}|", ""),
            ("&#10;", "decimal |10|", ""),
            (
                "&#00000000000000000000065;",
                "decimal |00000000000000000000065|",
                "",
            ),
            ("&#1114111;", "decimal |1114111|", ""),
            ("&#x10FFFf;;", "hexadecimal |10FFFf|", ";"),
            ("&#xD7ff;", "hexadecimal |D7ff|", ""),
            ("<![CDATA[a]]b<&]]>c", "cdata |a]]b<&|", "c"),
            ("<![CDATA[]]]]>", "cdata |]]|", ""),
            ("<![CDATA[]]>", "cdata ||", ""),
            ("<!---->", "comment ||", ""),
            ("<!-- a - b -->c", "comment | a - b |", "c"),
            ("<!--<a>&-->", "comment |<a>&|", ""),
            ("<?a?>", "instruction |a|||", ""),
            ("<?a  b ? c?>d", "instruction |a|  |b ? c|", "d"),
            ("<?a ??>", "instruction |a| |?|", ""),
            ("<?xml-style?>", "instruction |xml-style|||", ""),
            ("<?a \n?>", "instruction |a| \n||", ""),
            ("<!DOCTYPE a>b", "doctype |<!DOCTYPE a>|", "b"),
            ("<a", "open |a|", ""),
            ("<a>", "open |a|", ">"),
            ("<a/>", "open |a|", "/>"),
            ("<_.-9 b", "open |_.-9|", " b"),
            ("<a:b=", "open |a:b|", "="),
            (
                "<\u{e9}\u{b7}:\u{10000}>",
                "open |\u{e9}\u{b7}:\u{10000}|",
                ">",
            ),
            ("</a>b", "close |a||", "b"),
            ("</a:b \t\r\n>", "close |a:b| \t\r\n|", ""),
        ],
    )
}

#[test]
fn reads_tags(rt: HostRuntime) -> Result<(), Fail> {
    expect_pieces(
        &rt,
        rt.alloc(),
        Place::Tag,
        &[
            (">a", "go ||", "a"),
            (" \t\r\n>", "go | \t\r\n|", ""),
            ("/>a", "shut ||", "a"),
            (" />", "shut | |", ""),
            (" a='1'", "attribute | |a|||39|", "1'"),
            ("\n a:b = \"", "attribute |\n |a:b| | |34|", ""),
            (" \u{e9}=''", "attribute | |\u{e9}|||39|", "'"),
        ],
    )
}

#[test]
fn reads_values(rt: HostRuntime) -> Result<(), Fail> {
    expect_pieces(
        &rt,
        rt.alloc(),
        Place::Value(b'\''),
        &[
            ("' b", "quote |39|", " b"),
            ("a\"b>]]>'", "run |a\"b>]]>|", "'"),
            ("a&lt;'", "run |a|", "&lt;'"),
            ("&lt;'", "entity |lt|", "'"),
            ("&#9;'", "decimal |9|", "'"),
            ("a<'", "run |a|", "<'"),
            (
                "a value of more than one block, up to its quote' and more",
                "run |a value of more than one block, up to its quote|",
                "' and more",
            ),
        ],
    )
}

#[test]
fn refuses_in_content(rt: HostRuntime) {
    expect_none(
        &rt,
        Place::Content,
        &[
            "",
            "<",
            "a]]>b",
            "these brackets lie on the edge ]]>",
            "&",
            "&;",
            "& a;",
            "&a",
            "&a b;",
            "&a:b;",
            "&1;",
            "&#;",
            "&#a;",
            "&#x;",
            "&#X41;",
            "&#12",
            "&#0;",
            "&#8;",
            "&#xD800;",
            "&#xFFFE;",
            "&#xFFFF;",
            "&#x110000;",
            "&#18446744073709551681;",
            "&#99999999999999999999999999999999999999;",
            "<1a>",
            "< a>",
            "<-a>",
            "<.a>",
            "<:a>",
            "<a:>",
            "<a:b:c>",
            "<a:1>",
            "<\u{d7}>",
            "<\u{b7}>",
            "</ a>",
            "</a",
            "</a b>",
            "</>",
            "<!-- a -- b -->",
            "<!--->",
            "<!-- a --->",
            "<!-- a",
            "<!- a -->",
            "<![cdata[a]]>",
            "<![CDATA[a]]",
            "<!",
            "<!doctype a>",
            "<!ELEMENT a>",
            "<? a?>",
            "<?a",
            "<?a b",
            "<?xml version='1.0'?>",
            "<?xMl?>",
            "<?a:b?>",
            "<?a>",
            "<?a+b?>",
        ],
    );
}

#[test]
fn refuses_in_tags_and_values(rt: HostRuntime) {
    expect_none(
        &rt,
        Place::Tag,
        &[
            "", " ", "a='1'", "/", "/ >", " / >", " a", " a=", " a=1", " a '1'", " 1='1'",
            " a:='1'", " =''", "<", " <",
        ],
    );
    expect_none(&rt, Place::Value(b'"'), &["", "<", "&", "&;", "&#0;"]);
}

#[test]
fn refuses_bytes_that_are_no_text(rt: HostRuntime) {
    for bytes in [
        b"<\xc3>".as_slice(),
        b"<\x80>",
        b"<a\xff>",
        b"<a:\xed\xa0\x80>",
        b"&\xc0\xaf;",
    ] {
        assert!(rt; item_at(Place::Content, bytes).is_none(), "at {bytes:?}");
    }
}

#[test]
fn gives_characters_of_digits(rt: HostRuntime) {
    assert_eq!(rt; char_of(10, b"65"), 'A');
    assert_eq!(rt; char_of(16, b"10fFfF"), '\u{10FFFF}');
    assert_eq!(rt; char_of(16, b"0000000000000000000000e9"), '\u{e9}');
}

#[test]
fn tells_white_space(rt: HostRuntime) {
    assert!(rt; all_space(b" \t\r\n"));
    assert!(rt; all_space(b""));
    assert!(rt; !all_space(b" \x0b"));
    assert!(rt; is_space(b' ') && !is_space(b'a'));
    assert!(rt; is_xml_char(0x85) && !is_xml_char(0xFFFF));
}

use super::*;
use std::alloc::{AllocError, Global};
use std::test::Fail;
use xml_pieces::{Piece, Place};

fn none() -> &'static [u8] {
    b"".as_slice()
}

fn run(text: &str) -> Piece<'_> {
    Piece::Run(text.as_bytes())
}

fn open(name: &str) -> Piece<'_> {
    Piece::Open(name.as_bytes())
}

fn attribute(name: &str) -> Piece<'_> {
    Piece::Attribute(none(), name.as_bytes(), none(), none(), b'"')
}

fn close(name: &str) -> Piece<'_> {
    Piece::Close(name.as_bytes(), none())
}

// How many pieces are left when one is refused, and whether a document ends behind the others.
fn left<'a>(alloc: Global, pieces: &[Piece<'a>]) -> Result<(usize, bool), AllocError> {
    let mut control = Control::begin(alloc);
    for (at, piece) in pieces.iter().enumerate() {
        if !control.step(*piece)? {
            return Ok((pieces.len().saturating_sub(at), false));
        }
    }
    Ok((0, control.is_whole()))
}

#[test]
fn takes_the_pieces_of_documents(rt: HostRuntime) -> Result<(), Fail> {
    let go = Piece::Go(none());
    let shut = Piece::Shut(none());
    let quote = Piece::Quote(b'"');
    let comment = Piece::Comment(none());
    let instruction = Piece::Instruction(b"p".as_slice(), none(), none());
    let doctype = Piece::Doctype(none());
    let cdata = Piece::Cdata(none());
    let entity = Piece::Entity(b"lt".as_slice());
    for pieces in [
        [open("a"), shut].as_slice(),
        [open("a"), go, close("a")].as_slice(),
        [run(" \t\r\n"), open("a"), shut, run("\n")].as_slice(),
        [
            comment,
            instruction,
            run(" "),
            doctype,
            run(" "),
            comment,
            instruction,
            open("a"),
            shut,
            comment,
            run(" "),
            instruction,
        ]
        .as_slice(),
        [
            open("a"),
            attribute("k"),
            quote,
            attribute("l"),
            run("v"),
            entity,
            quote,
            shut,
        ]
        .as_slice(),
        [
            open("a"),
            go,
            run("x"),
            entity,
            Piece::Decimal(b"65".as_slice()),
            Piece::Hexadecimal(b"41".as_slice()),
            cdata,
            comment,
            instruction,
            close("a"),
        ]
        .as_slice(),
        [
            open("a"),
            go,
            open("b"),
            attribute("k"),
            quote,
            shut,
            open("b"),
            attribute("k"),
            quote,
            go,
            close("b"),
            close("a"),
        ]
        .as_slice(),
    ] {
        assert_eq!(rt; left(rt.alloc(), pieces)?, (0, true));
    }
    Ok(())
}

// Of each row the last piece is refused.
#[test]
fn refuses_other_orders(rt: HostRuntime) -> Result<(), Fail> {
    let go = Piece::Go(none());
    let shut = Piece::Shut(none());
    let quote = Piece::Quote(b'"');
    let comment = Piece::Comment(none());
    let doctype = Piece::Doctype(none());
    let cdata = Piece::Cdata(none());
    let entity = Piece::Entity(b"lt".as_slice());
    for pieces in [
        // two roots
        [open("a"), shut, open("b")].as_slice(),
        // an end tag of another name, or of none
        [open("a"), go, open("b"), go, close("a")].as_slice(),
        [close("a")].as_slice(),
        // text, a reference and a CDATA section outside the root
        [run(" x")].as_slice(),
        [open("a"), shut, run(" x")].as_slice(),
        [entity].as_slice(),
        [cdata].as_slice(),
        [open("a"), shut, cdata].as_slice(),
        // two DOCTYPEs, one behind the root, and one in it
        [doctype, comment, doctype].as_slice(),
        [open("a"), shut, doctype].as_slice(),
        [open("a"), go, doctype].as_slice(),
        // two attributes of one name
        [
            open("a"),
            attribute("k"),
            quote,
            attribute("l"),
            quote,
            attribute("k"),
        ]
        .as_slice(),
        // a value that ends with another quote
        [open("a"), attribute("k"), Piece::Quote(b'\'')].as_slice(),
    ] {
        assert_eq!(rt; left(rt.alloc(), pieces)?, (1, false));
    }
    Ok(())
}

#[test]
fn ends_where_the_root_does(rt: HostRuntime) -> Result<(), Fail> {
    let go = Piece::Go(none());
    for pieces in [
        [].as_slice(),
        [run(" ")].as_slice(),
        [Piece::Doctype(none())].as_slice(),
        [open("a")].as_slice(),
        [open("a"), go].as_slice(),
        [open("a"), attribute("k")].as_slice(),
        [open("a"), go, open("b"), go, close("b")].as_slice(),
    ] {
        assert_eq!(rt; left(rt.alloc(), pieces)?, (0, false));
    }
    Ok(())
}

// A tag with an attribute of each name, and one more of the name at a place, if there is one.
fn tag_with_names<'a>(
    alloc: Global,
    names: &'a [String],
    twice: usize,
) -> Result<Vec<Piece<'a>>, AllocError> {
    let mut pieces = Vec::new(alloc);
    pieces.push(open("a"))?;
    for name in names.iter().chain(names.get(twice)) {
        pieces.push(attribute(name.as_str()))?;
        pieces.push(Piece::Quote(b'"'))?;
    }
    Ok(pieces)
}

#[test]
fn compares_forty_attributes(rt: HostRuntime) -> Result<(), Fail> {
    let mut names = Vec::new(rt.alloc());
    for number in 0..40 {
        names.push(format!(in rt.alloc(); "k{number}")?)?;
    }
    let pieces = tag_with_names(rt.alloc(), &names, 40)?;
    assert_eq!(rt; left(rt.alloc(), &pieces)?, (0, false));
    for twice in [0, 15, 16, 17, 39] {
        let pieces = tag_with_names(rt.alloc(), &names, twice)?;
        // the last attribute, and the quote behind it
        assert_eq!(rt; left(rt.alloc(), &pieces)?, (2, false), "at {twice}");
    }
    Ok(())
}

#[test]
fn says_where_the_next_piece_is_read(rt: HostRuntime) -> Result<(), Fail> {
    let mut control = Control::begin(rt.alloc());
    assert!(rt; matches!(control.place(), Place::Content));
    let _open = control.step(open("a"))?;
    assert!(rt; matches!(control.place(), Place::Tag));
    let _attribute = control.step(attribute("k"))?;
    assert!(rt; matches!(control.place(), Place::Value(b'"')));
    Ok(())
}

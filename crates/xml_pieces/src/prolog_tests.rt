use super::*;
use std::str;

fn text_of(bytes: &[u8]) -> &str {
    str::from_utf8(bytes).unwrap_or("?")
}

// Where the encoding of a declaration stands, or 0.
fn place_of(declaration: Declaration) -> usize {
    match declaration.encoding {
        Some(encoding) => encoding.at,
        None => 0,
    }
}

// Its name, or none.
fn name_of(declaration: Declaration) -> &str {
    match declaration.encoding {
        Some(encoding) => text_of(encoding.name),
        None => "",
    }
}

#[test]
fn reads_declarations(rt: HostRuntime) {
    for (text, at, name, rest) in [
        ("<?xml version='1.0'?>", 0, "", ""),
        ("<?xml version=\"1.0\"?><a/>", 0, "", "<a/>"),
        ("<?xml version='1.1'?> ", 0, "", " "),
        ("<?xml version='1.000'?>x", 0, "", "x"),
        ("<?xml\tversion = '1.0' \r\n?>", 0, "", ""),
        ("<?xml version='1.0' encoding='UTF-8'?>a", 30, "UTF-8", "a"),
        (
            "<?xml version='1.0'\nencoding\t=\n\"utf-8\"?>",
            32,
            "utf-8",
            "",
        ),
        (
            "<?xml version='1.25' encoding='ISO-8859-1' ?>",
            31,
            "ISO-8859-1",
            "",
        ),
        ("<?xml version='1.0' encoding='a._-9'?>", 30, "a._-9", ""),
        ("<?xml version='1.0' standalone='yes'?>", 0, "", ""),
        ("<?xml version='1.0' standalone = \"no\" ?>", 0, "", ""),
        (
            "<?xml version='1.0' encoding='x' standalone='yes'?>b",
            30,
            "x",
            "b",
        ),
        (
            "<?xml version='1.0'  encoding='x'\tstandalone='no' ?>",
            31,
            "x",
            "",
        ),
    ] {
        match read_declaration(text.as_bytes()) {
            Some((declaration, after)) => {
                assert_eq!(rt; place_of(declaration), at, "at {text:?}");
                assert_eq!(rt; name_of(declaration), name, "at {text:?}");
                assert_eq!(rt; text_of(after), rest, "behind {text:?}");
            }
            None => assert_eq!(rt; "nothing", rest, "at {text:?}"),
        }
    }
}

#[test]
fn refuses_declarations(rt: HostRuntime) {
    for text in [
        "",
        "<?xml",
        "<?xml?>",
        "<?xml ?>",
        " <?xml version='1.0'?>",
        "<?XML version='1.0'?>",
        "<?xml-style version='1.0'?>",
        "<?xmlversion='1.0'?>",
        "<?xml Version='1.0'?>",
        "<?xml version='1.0'>",
        "<?xml version='1.0' ",
        "<?xml version=1.0?>",
        "<?xml version='1.0\"?>",
        "<?xml version='2.0'?>",
        "<?xml version='1.'?>",
        "<?xml version='1'?>",
        "<?xml version='1,0'?>",
        "<?xml version='1.0a'?>",
        "<?xml version='1.0 '?>",
        "<?xml version=''?>",
        "<?xml encoding='UTF-8'?>",
        "<?xml encoding='UTF-8' version='1.0'?>",
        "<?xml standalone='yes'?>",
        "<?xml version='1.0'encoding='UTF-8'?>",
        "<?xml version='1.0' encoding=''?>",
        "<?xml version='1.0' encoding='8859'?>",
        "<?xml version='1.0' encoding='-a'?>",
        "<?xml version='1.0' encoding='UTF 8'?>",
        "<?xml version='1.0' encoding='UTF-8'standalone='yes'?>",
        "<?xml version='1.0' encoding='UTF-8' encoding='UTF-8'?>",
        "<?xml version='1.0' standalone='maybe'?>",
        "<?xml version='1.0' standalone='YES'?>",
        "<?xml version='1.0' standalone=''?>",
        "<?xml version='1.0' standalone='yes' encoding='UTF-8'?>",
        "<?xml version='1.0' standalone='yes' standalone='yes'?>",
        "<?xml version='1.0' a='b'?>",
        "<?xml version='1.0' ? >",
    ] {
        assert!(rt; read_declaration(text.as_bytes()).is_none(), "at {text:?}");
    }
}

#[test]
fn finds_other_encodings(rt: HostRuntime) {
    for (text, at) in [
        ("<?xml version='1.0' encoding='ISO-8859-1'?><a/>", 30),
        ("\u{feff}<?xml version='1.0' encoding='UTF-16'?>", 33),
        ("<?xml version='1.0' encoding='utf8'?>", 30),
        ("<?xml version='1.0' encoding='utf-8x'?>", 30),
    ] {
        assert_eq!(rt; other_encoding(text.as_bytes()), Some(at), "at {text:?}");
    }
    for text in [
        "",
        "<a/>",
        "\u{feff}<a/>",
        "<?xml version='1.0'?>",
        "<?xml version='1.0' encoding='UTF-8'?>",
        "<?xml version='1.0' encoding='utf-8'?>",
        "\u{feff}<?xml version='1.0' encoding='uTf-8' standalone='no'?>",
        " <?xml version='1.0' encoding='UTF-16'?>",
        "<?xml version='1.0' encoding='UTF-16'>",
        "\u{feff}\u{feff}<?xml version='1.0' encoding='UTF-16'?>",
    ] {
        assert!(rt; other_encoding(text.as_bytes()).is_none(), "at {text:?}");
    }
}

#[test]
fn tells_utf_8(rt: HostRuntime) {
    for name in ["utf-8", "UTF-8", "Utf-8", "uTF-8"] {
        assert!(rt; is_utf_8_name(name.as_bytes()), "at {name:?}");
    }
    for name in ["", "utf8", "utf-", "utf-8 ", "utf-9", "UTF_8", "UTF-16"] {
        assert!(rt; !is_utf_8_name(name.as_bytes()), "at {name:?}");
    }
}

#[test]
fn skips_the_mark(rt: HostRuntime) {
    for (bytes, marked, rest) in [
        (b"\xef\xbb\xbfa".as_slice(), true, b"a".as_slice()),
        (b"\xef\xbb\xbf\xef\xbb\xbf", true, b"\xef\xbb\xbf"),
        (b"\xef\xbb\xbf", true, b""),
        (b"\xef\xbb", false, b"\xef\xbb"),
        (b"\xfe\xff", false, b"\xfe\xff"),
        (b"<a/>", false, b"<a/>"),
        (b"", false, b""),
    ] {
        let (found, after) = skip_mark(bytes);
        assert_eq!(rt; found, marked, "at {bytes:?}");
        assert!(rt; after == rest, "behind {bytes:?}");
    }
}

#[test]
fn reads_doctypes(rt: HostRuntime) {
    for (text, rest) in [
        ("DOCTYPE a>b", ">b"),
        ("DOCTYPE a>", ">"),
        ("DOCTYPE\t\r\na:b \n>", ">"),
        ("DOCTYPE a[<!ENTITY b 'c'>]>", "[<!ENTITY b 'c'>]>"),
        ("DOCTYPE a [", "["),
        ("DOCTYPE \u{e9}>", ">"),
        ("DOCTYPE a SYSTEM 'b'>", ">"),
        ("DOCTYPE a SYSTEM \"it's <>&[\" >", ">"),
        ("DOCTYPE a SYSTEM ''>", ">"),
        ("DOCTYPE a SYSTEM\n'b'[]>", "[]>"),
        ("DOCTYPE a PUBLIC 'b' 'c'>", ">"),
        (
            "DOCTYPE a PUBLIC \"-//A//B's C 1.0//EN\"\n\"http://d/e.dtd\"\n>",
            ">",
        ),
        ("DOCTYPE a PUBLIC '' \"\" [", "["),
        ("DOCTYPE a PUBLIC 'a-9 \r\n()+,./:=?;!*#@$_%' 'c'>", ">"),
        // what isn't read is left
        ("DOCTYPE a SYSTEM>", "SYSTEM>"),
        ("DOCTYPE a SYSTEM'b'>", "SYSTEM'b'>"),
        ("DOCTYPE a SYSTEM 'b\">", "SYSTEM 'b\">"),
        ("DOCTYPE a system 'b'>", "system 'b'>"),
        ("DOCTYPE a PUBLIC 'b'>", "PUBLIC 'b'>"),
        ("DOCTYPE a PUBLIC 'b''c'>", "PUBLIC 'b''c'>"),
        ("DOCTYPE a PUBLIC \"b<c\" 'd'>", "PUBLIC \"b<c\" 'd'>"),
        ("DOCTYPE a PUBLIC 'b\tc' 'd'>", "PUBLIC 'b\tc' 'd'>"),
        ("DOCTYPE a b>", "b>"),
        ("DOCTYPE a", ""),
    ] {
        match doctype_front(text.as_bytes()) {
            Some(after) => assert_eq!(rt; text_of(after), rest, "behind {text:?}"),
            None => assert_eq!(rt; "nothing", rest, "at {text:?}"),
        }
    }
}

#[test]
fn refuses_doctypes(rt: HostRuntime) {
    for text in [
        "",
        "DOCTYP",
        "DOCTYPE",
        "DOCTYPE>",
        "DOCTYPE >",
        "DOCTYPEa>",
        "doctype a>",
        " DOCTYPE a>",
        "DOCTYPE 1>",
        "DOCTYPE a:b:c>",
        "DOCTYPE :a>",
        "DOCTYPE [",
        "DOCTYPE 'a'>",
    ] {
        assert!(rt; doctype_front(text.as_bytes()).is_none(), "at {text:?}");
    }
}

#[test]
fn tells_chars(rt: HostRuntime) {
    for text in [
        "",
        "a",
        "\t\r\n ",
        "\u{7f}\u{80}\u{85}",
        "\u{d7ff}\u{e000}\u{fffd}",
        "\u{ff5e}\u{ffc2}\u{feff}",
        "\u{10000}\u{1fffe}\u{10ffff}",
        "a text of more than one block of bytes, whose characters are all of ASCII, and then \u{fffd}.",
    ] {
        assert!(rt; are_chars(text.as_bytes()), "at {text:?}");
    }
    for text in [
        "\0",
        "\x01",
        "\x08",
        "\x0b",
        "\x0c",
        "\x0e",
        "\x1f",
        "a\u{fffe}",
        "\u{ffff}b",
        "\u{fffd}\u{fffe}",
        "a text of more than one block of bytes, whose characters are all of ASCII, and then \x1b.",
        "a text of more than one block of bytes, whose last character stands in two of them\u{ffff}\u{ffff}",
        "a text whose noncharacter stands in two blocks of bytes, 1234\u{ffff}5",
        "a text whose noncharacter stands in two blocks of bytes, 12345\u{fffe}",
        "a text whose noncharacter stands in two blocks of bytes, 123456\u{ffff}",
    ] {
        assert!(rt; !are_chars(text.as_bytes()), "at {text:?}");
    }
}

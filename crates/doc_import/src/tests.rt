// What texts are read as. The answers are those of XML 1.0 and of Namespaces in XML 1.0.
use crate::{Built, import};
use std::alloc::Global;
use std::fmt::Write;
use std::process::Abort;
use std::str;
use std::test::Fail;
use tree_model::Row;

// A row in words: its kind, dist, size and asize, the URI, prefix and local part of its name, and its value.
fn write_row(out: &mut String, built: &Built, row: &Row) -> Result<(), Fail> {
    let end = built.heap.mark();
    if row.name >= built.names.len() || row.val.at > end || row.val.len > end - row.val.at {
        return Err(Fail::from("a row isn't placed"));
    }
    let name = built.names.name(row.name);
    let (uri, prefix, local) = (name.uri.as_str(), name.prefix.as_str(), name.local.as_str());
    let value = str::from_utf8(built.heap.get(row.val)).unwrap_or("no text");
    let (kind, dist, size, asize) = (row.kind, row.dist, row.size, row.asize);
    writeln!(
        out,
        "{kind:?} {dist} {size} {asize} {uri}|{prefix}|{local} |{value}|"
    )?;
    Ok(())
}

// The rows that a text is read as, or its fault.
fn answer(alloc: Global, text: &[u8], strip: bool) -> Result<String, Fail> {
    match import(alloc, text, strip) {
        Ok(built) => {
            let mut out = String::new(alloc);
            for row in built.rows.as_slice() {
                write_row(&mut out, &built, row)?;
            }
            Ok(out)
        }
        Err(fault) => Ok(format!(in alloc; "{fault:?}")?),
    }
}

// Each text of the table has this answer.
fn expect(rt: &impl Abort, alloc: Global, strip: bool, table: &[(&str, &str)]) -> Result<(), Fail> {
    for (text, want) in table {
        let found = answer(alloc, text.as_bytes(), strip)?;
        assert_eq!(rt; found.as_str(), *want, "at {text:?}");
    }
    Ok(())
}

// No text of the list is well formed.
fn expect_malformed(rt: &impl Abort, alloc: Global, texts: &[&str]) -> Result<(), Fail> {
    for text in texts {
        let found = answer(alloc, text.as_bytes(), false)?;
        assert_eq!(rt; found.as_str(), "Malformed", "at {text:?}");
    }
    Ok(())
}

// Each text of the list is a document with one element and nothing else.
fn expect_element(rt: &impl Abort, alloc: Global, texts: &[&str]) -> Result<(), Fail> {
    for text in texts {
        let found = answer(alloc, text.as_bytes(), false)?;
        assert_eq!(rt;
            found.as_str(),
            "Doc 0 2 1 || ||\nElem 1 1 1 ||a ||\n",
            "at {text:?}"
        );
    }
    Ok(())
}

// No text that ends before the last byte of this one is well formed.
fn expect_cuts_malformed(rt: &impl Abort, alloc: Global, text: &str) -> Result<(), Fail> {
    let bytes = text.as_bytes();
    for len in 0..bytes.len() {
        let found = answer(alloc, bytes.split_at(len).0, false)?;
        assert_eq!(rt;
            found.as_str(),
            "Malformed",
            "the first {len} bytes of {text:?}"
        );
    }
    Ok(())
}

// Each text of the table, in UTF-8 or not, has this answer.
fn expect_bytes(rt: &impl Abort, alloc: Global, table: &[(&[u8], &str)]) -> Result<(), Fail> {
    for (text, want) in table {
        let found = answer(alloc, text, false)?;
        assert_eq!(rt; found.as_str(), *want, "at {text:?}");
    }
    Ok(())
}

#[test]
fn heads_of_every_form(rt: HostRuntime) -> Result<(), Fail> {
    expect_element(
        &rt,
        rt.alloc(),
        &[
            "<a/>",
            "<a></a>",
            "<a ></a\n>",
            "\u{feff}<a/>",
            "<?xml version='1.0'?><a/>",
            "\u{feff}<?xml version='1.0'?>\n<a/>\n",
            "<?xml version=\"1.1\"?><a/>",
            "<?xml version='1.99'?><a/>",
            "<?xml version='1.0' encoding='UTF-8'?><a/>",
            "<?xml version='1.0' encoding=\"utf-8\"?><a/>",
            "<?xml version='1.0' encoding='uTf-8' ?><a/>",
            "<?xml\r\nversion\t=\n'1.0' standalone = \"yes\"?><a/>",
            "<?xml version='1.0' encoding='UTF-8' standalone='no'?><a/>",
            "<!DOCTYPE a><a/>",
            "<!DOCTYPE b ><a/>",
            "<!DOCTYPE p:a SYSTEM ''><a/>",
            "<!DOCTYPE a SYSTEM \"'\u{e9}[>\" ><a/>",
            "<!DOCTYPE\na\tPUBLIC\r\"-//A//b (c) 'd'?//EN\" 'a.dtd'><a/>",
            "<?xml version='1.0'?> <!DOCTYPE a PUBLIC '' ''> <a/> ",
            "<a><![CDATA[]]></a>",
            "<a xmlns:xml='http://www.w3.org/XML/1998/namespace'/>",
        ],
    )
}

#[test]
fn whole_documents(rt: HostRuntime) -> Result<(), Fail> {
    expect(
        &rt,
        rt.alloc(),
        false,
        &[
            (
                "<!--c\r\nd--> <?t  d ? ?>\n<a/><?u?>\n",
                "Doc 0 5 1 || ||\nComm 1 1 1 || |c\nd|\nPi 2 1 1 ||t |d ? |\nElem 3 1 1 ||a ||\nPi 4 1 1 ||u ||\n",
            ),
            (
                "<a b=' p\tq\r\nr\rs&#10;&#13;&#x9;t  '/>",
                "Doc 0 3 1 || ||\nElem 1 2 2 ||a ||\nAttr 1 1 1 ||b | p q r s\n\r\tt  |\n",
            ),
            (
                "<a>1\r\n2\r3\n4&#13;5\r\r\n6\u{85}\u{2028}</a>",
                "Doc 0 3 1 || ||\nElem 1 2 1 ||a ||\nText 1 1 1 || |1\n2\n3\n4\r5\n\n6\u{85}\u{2028}|\n",
            ),
            (
                "<a>x&lt;<![CDATA[<&amp;\r]]>&#x41;&amp;y<!--c-->z<b/></a>",
                "Doc 0 6 1 || ||\nElem 1 5 1 ||a ||\nText 1 1 1 || |x<<&amp;\nA&y|\nComm 2 1 1 || |c|\nText 3 1 1 || |z|\nElem 4 1 1 ||b ||\n",
            ),
            (
                "<a b='&lt;&gt;&amp;&quot;&apos;'>&lt;&gt;&amp;&quot;&apos;</a>",
                "Doc 0 4 1 || ||\nElem 1 3 2 ||a ||\nAttr 1 1 1 ||b |<>&\"'|\nText 2 1 1 || |<>&\"'|\n",
            ),
            (
                "<p:a xmlns='d' xmlns:p='u' p:x='1' x='2'><b><c xmlns=''/></b></p:a>",
                "Doc 0 6 1 || ||\nElem 1 5 3 u|p|a |\0d\0p\0u\0|\nAttr 1 1 1 u|p|x |1|\nAttr 2 1 1 ||x |2|\nElem 3 2 1 d||b ||\nElem 1 1 1 ||c |\0\0|\n",
            ),
            (
                "<a xml:lang='en'>\u{e9}&#x10FFFF;\u{feff}</a>",
                "Doc 0 4 1 || ||\nElem 1 3 2 ||a ||\nAttr 1 1 1 http://www.w3.org/XML/1998/namespace|xml|lang |en|\nText 2 1 1 || |\u{e9}\u{10ffff}\u{feff}|\n",
            ),
            (
                "<a> <b>\n</b>\r\n<c> d </c>&#32;<e><![CDATA[\t]]></e><!--f--> &#xA0;</a>",
                "Doc 0 13 1 || ||\nElem 1 12 1 ||a ||\nText 1 1 1 || | |\nElem 2 2 1 ||b ||\nText 1 1 1 || |\n|\nText 4 1 1 || |\n|\nElem 5 2 1 ||c ||\nText 1 1 1 || | d |\nText 7 1 1 || | |\nElem 8 2 1 ||e ||\nText 1 1 1 || |\t|\nComm 10 1 1 || |f|\nText 11 1 1 || | \u{a0}|\n",
            ),
        ],
    )
}

#[test]
fn declarations_are_kept(rt: HostRuntime) -> Result<(), Fail> {
    expect(
        &rt,
        rt.alloc(),
        false,
        &[
            (
                "<a xmlns:p=\"u\" xmlns=\"v\"/>",
                "Doc 0 2 1 || ||\nElem 1 1 1 v||a |p\0u\0\0v\0|\n",
            ),
            (
                "<a xmlns=\"\"/>",
                "Doc 0 2 1 || ||\nElem 1 1 1 ||a |\0\0|\n",
            ),
            (
                "<a b='1' xmlns:q=' &amp;\n' c='2'/>",
                "Doc 0 4 1 || ||\nElem 1 3 3 ||a |q\0 & \0|\nAttr 1 1 1 ||b |1|\nAttr 2 1 1 ||c |2|\n",
            ),
        ],
    )
}

#[test]
fn texts_of_white_space_are_dropped(rt: HostRuntime) -> Result<(), Fail> {
    expect(
        &rt,
        rt.alloc(),
        true,
        &[
            (
                "<a> <b>\n</b>\r\n<c> d </c>&#32;<e><![CDATA[\t]]></e><!--f--> &#xA0;</a>",
                "Doc 0 8 1 || ||\nElem 1 7 1 ||a ||\nElem 1 1 1 ||b ||\nElem 2 2 1 ||c ||\nText 1 1 1 || | d |\nElem 4 1 1 ||e ||\nComm 5 1 1 || |f|\nText 6 1 1 || | \u{a0}|\n",
            ),
            (
                "<a b=' '> <!-- --><?s  ?>&#x20;</a>",
                "Doc 0 5 1 || ||\nElem 1 4 2 ||a ||\nAttr 1 1 1 ||b | |\nComm 2 1 1 || | |\nPi 3 1 1 ||s ||\n",
            ),
            ("<a> &b; </a>", "UnknownEntity { at: 4 }"),
        ],
    )
}

#[test]
fn bytes_that_are_no_text(rt: HostRuntime) -> Result<(), Fail> {
    expect_bytes(
        &rt,
        rt.alloc(),
        &[
            (b"\x80".as_slice(), "NotUtf8 { at: 0 }"),
            (b"<a>\xff</a>".as_slice(), "NotUtf8 { at: 3 }"),
            (b"\xef\xbb\xbf<a>\xc3</a>".as_slice(), "NotUtf8 { at: 6 }"),
            (b"<a>\xed\xa0\x80</a>".as_slice(), "NotUtf8 { at: 3 }"),
            (b"<a>\xc0\x80</a>".as_slice(), "NotUtf8 { at: 3 }"),
            (b"<a>\xf4\x90\x80\x80</a>".as_slice(), "NotUtf8 { at: 3 }"),
            (b"<a/>\xe2\x82".as_slice(), "NotUtf8 { at: 4 }"),
            (b"\xff\xfe<\x00".as_slice(), "NotUtf8 { at: 0 }"),
            (b"\xef\xbb<a/>".as_slice(), "NotUtf8 { at: 0 }"),
            (
                b"<?xml version='1.0' encoding='latin1'?><a>\xe9</a>".as_slice(),
                "NotUtf8 { at: 42 }",
            ),
            (b"<!DOCTYPE a[\xf8".as_slice(), "NotUtf8 { at: 12 }"),
            (b"<p:a>\xc3\xa9&b;\xbf</c>".as_slice(), "NotUtf8 { at: 10 }"),
        ],
    )
}

#[test]
fn other_encodings(rt: HostRuntime) -> Result<(), Fail> {
    expect(
        &rt,
        rt.alloc(),
        false,
        &[
            (
                "<?xml version='1.0' encoding='ISO-8859-1'?><a/>",
                "Encoding { at: 30 }",
            ),
            (
                "\u{feff}<?xml version='1.0' encoding=\"utf8\" standalone='yes'?><a/>",
                "Encoding { at: 33 }",
            ),
            (
                "<?xml\tversion = \"1.1\"\r\nencoding =  'UTF-16' ?><a/>",
                "Encoding { at: 36 }",
            ),
            ("<?xml version='1.0' encoding='x'?>", "Encoding { at: 30 }"),
            (
                "<?xml version='1.0' encoding='x'?><a>\u{1}",
                "Encoding { at: 30 }",
            ),
            (
                "<?xml version='1.0' encoding='x'?><!DOCTYPE a[",
                "Encoding { at: 30 }",
            ),
            (
                "<?xml version='1.0' encoding='x'?><p:a>&b;</p:a>",
                "Encoding { at: 30 }",
            ),
        ],
    )
}

#[test]
fn no_other_encoding(rt: HostRuntime) -> Result<(), Fail> {
    expect_malformed(
        &rt,
        rt.alloc(),
        &[
            "<?xml version='1.0' encoding='x'><a/>",
            " <?xml version='1.0' encoding='x'?><a/>",
            "<?xml encoding='x'?><a/>",
            "<?xml version='1.0' encoding=''?><a/>",
            "<?xml version='1.0' encoding='1'?><a/>",
            "<?xml version='1.0' standalone='no' encoding='x'?><a/>",
            "<?xml version='1.0' encoding='x' encoding='y'?><a/>",
            "<!--c--><?xml version='1.0' encoding='x'?><a/>",
        ],
    )
}

#[test]
fn internal_subsets(rt: HostRuntime) -> Result<(), Fail> {
    expect(
        &rt,
        rt.alloc(),
        false,
        &[
            ("<!DOCTYPE a[", "InternalSubset { at: 11 }"),
            ("<!DOCTYPE a []><a/>", "InternalSubset { at: 12 }"),
            (
                "<!DOCTYPE a [<!ENTITY b 'c'>]><a>&b;</a>",
                "InternalSubset { at: 12 }",
            ),
            (
                "<!DOCTYPE p:a\tSYSTEM \"a.dtd\" []><a/>",
                "InternalSubset { at: 29 }",
            ),
            (
                "<!DOCTYPE a PUBLIC '-//a' \"a.dtd\"[",
                "InternalSubset { at: 33 }",
            ),
            (
                "\u{feff}<?xml version='1.0' encoding='utf-8'?>\n<!--c--><?s h?> <!DOCTYPE a [",
                "InternalSubset { at: 70 }",
            ),
            (
                "<!--\u{e9}--><!DOCTYPE a[\u{1}\"]]>&<",
                "InternalSubset { at: 20 }",
            ),
        ],
    )
}

#[test]
fn no_internal_subset(rt: HostRuntime) -> Result<(), Fail> {
    expect_malformed(
        &rt,
        rt.alloc(),
        &[
            "<!DOCTYPE [",
            "<!DOCTYPE a b[",
            "<!DOCTYPE a:b:c[",
            "<!DOCTYPE a SYSTEM[",
            "<!DOCTYPE a PUBLIC 'p'[",
            "<!doctype a[",
            "<!DOCTYPEa[",
            "x<!DOCTYPE a[",
            "<a><!DOCTYPE a[",
            "<a/><!DOCTYPE a[",
            "<!DOCTYPE a><!DOCTYPE a[",
            "<!--\u{1}--><!DOCTYPE a[",
            "<!--\u{fffe}--><!DOCTYPE a[",
            "<!DOCTYPE a SYSTEM '\u{1}'[",
            "<!DOCTYPE a PUBLIC '\u{e9}' 's'[",
            "<?xml version='2.0'?><!DOCTYPE a[",
            "<![CDATA[",
            "<a b='<!DOCTYPE a['/>",
        ],
    )
}

#[test]
fn not_one_root(rt: HostRuntime) -> Result<(), Fail> {
    expect_malformed(
        &rt,
        rt.alloc(),
        &[
            "",
            " ",
            "a",
            "<",
            "<!--c-->",
            "<?s h?>",
            "<!DOCTYPE a>",
            "\u{feff}",
            "\u{feff}\u{feff}<a/>",
            "<?xml version='1.0'?>",
            "<a/><b/>",
            "<a/>b",
            "b<a/>",
            "<a/>&lt;",
            "&#32;<a/>",
            "<![CDATA[]]><a/>",
            "<a/><![CDATA[ ]]>",
            "<a/></a>",
            "</a>",
            "<a>",
            "<a><b></a>",
            "<a></b>",
            "<a></A>",
            "<p:a xmlns:p='u' xmlns:q='u'></q:a>",
            "<a><b></a></b>",
            "<a/><!DOCTYPE a>",
            "<!DOCTYPE a><!DOCTYPE a><a/>",
            "<a><!DOCTYPE a></a>",
        ],
    )
}

#[test]
fn tags_that_are_malformed(rt: HostRuntime) -> Result<(), Fail> {
    expect_malformed(
        &rt,
        rt.alloc(),
        &[
            "<a b='1' b='2'/>",
            "<a b='1' c='2' b='3'/>",
            "<a xmlns:p='u' p:b='1' p:b='2'/>",
            "<a xmlns='u' xmlns='u'/>",
            "<a b='<'/>",
            "<a b='&'/>",
            "<a b='&c'/>",
            "<a b='&#0;'/>",
            "<a b/>",
            "<a b=/>",
            "<a b=1/>",
            "<a b='1'c='2'/>",
            "<a b='1\"/>",
            "<a / >",
            "<a/ >",
            "< a/>",
            "<a></ a>",
            "<a></a b='1'>",
            "<1/>",
            "<-a/>",
            "<a 1='b'/>",
            "<:a/>",
            "<a:/>",
            "<a:b:c/>",
            "<a:1/>",
            "<a :b='1'/>",
            "<a b:='1'/>",
            "<a b:c:d='1'/>",
            "<\u{d7}/>",
        ],
    )
}

#[test]
fn texts_that_are_malformed(rt: HostRuntime) -> Result<(), Fail> {
    expect_malformed(
        &rt,
        rt.alloc(),
        &[
            "<a>]]></a>",
            "<a>b]]>c</a>",
            "<a>&</a>",
            "<a>& b;</a>",
            "<a>&b</a>",
            "<a>&;</a>",
            "<a>&1;</a>",
            "<a>&b:c;</a>",
            "<a>&#;</a>",
            "<a>&#x;</a>",
            "<a>&#0;</a>",
            "<a>&#8;</a>",
            "<a>&#x1F;</a>",
            "<a>&#xD800;</a>",
            "<a>&#xDFFF;</a>",
            "<a>&#xFFFE;</a>",
            "<a>&#65535;</a>",
            "<a>&#x110000;</a>",
            "<a>&#18446744073709551681;</a>",
            "<a>&#X41;</a>",
            "<a>\u{0}</a>",
            "<a>\u{b}</a>",
            "<a>\u{fffe}</a>",
            "<a b='\u{ffff}'/>",
            "<a><![CDATA[\u{1f}]]></a>",
            "<!--\u{8}--><a/>",
            "<a/><?s \u{fffe}?>",
            "<a><![CDATA[b]]</a>",
            "<a><![cdata[b]]></a>",
        ],
    )
}

#[test]
fn markup_that_is_malformed(rt: HostRuntime) -> Result<(), Fail> {
    expect_malformed(
        &rt,
        rt.alloc(),
        &[
            "<!-- b -- c --><a/>",
            "<a/><!-- b --->",
            "<a><!--></a>",
            "<a><!-- b -></a>",
            "<?xMl b?><a/>",
            "<a><?XML?></a>",
            "<a/><?xml version='1.0'?>",
            "\n<?xml version='1.0'?><a/>",
            "<?xml version='1.0'?><?xml version='1.0'?><a/>",
            "<?xml?><a/>",
            "<?xml version='2.0'?><a/>",
            "<?xml version='1.'?><a/>",
            "<?xml version=1.0?><a/>",
            "<?xml version='1.0' standalone='maybe'?><a/>",
            "<?xml version='1.0' standalone='YES'?><a/>",
            "<?xml standalone='yes' version='1.0'?><a/>",
            "<?xml version='1.0'encoding='utf-8'?><a/>",
            "<?XML version='1.0'?><a/>",
            "<?b:c?><a/>",
            "<? b?><a/>",
            "<?b+?><a/>",
            "<?b><a/>",
            "<!DOCTYPE><a/>",
            "<!DOCTYPE a:><a/>",
            "<!DOCTYPE a SYSTEM><a/>",
            "<!DOCTYPE a SYSTEM b><a/>",
            "<!DOCTYPE a PUBLIC 'b'><a/>",
            "<!DOCTYPE a PUBLIC 'b''c'><a/>",
            "<!DOCTYPE a PUBLIC '{' 'c'><a/>",
            "<!DOCTYPE a 'b'><a/>",
            "<!doctype a><a/>",
            "<!ELEMENT a ANY><a/>",
        ],
    )
}

#[test]
fn unknown_entities(rt: HostRuntime) -> Result<(), Fail> {
    expect(
        &rt,
        rt.alloc(),
        false,
        &[
            ("<a>&nbsp;</a>", "UnknownEntity { at: 3 }"),
            ("<a>&LT;</a>", "UnknownEntity { at: 3 }"),
            ("\u{feff}<a>&b;</a>", "UnknownEntity { at: 6 }"),
            (
                "<?xml version='1.0'?><a>\u{e9}&b;&c;</a>",
                "UnknownEntity { at: 26 }",
            ),
            ("<a>&lt;&#65;&\u{e9};</a>", "UnknownEntity { at: 12 }"),
            ("<a b='1&c;'/>", "UnknownEntity { at: 7 }"),
            (
                "<a b='&lt;' c = \"&gt;&d;\"></a>",
                "UnknownEntity { at: 21 }",
            ),
            (
                "<!DOCTYPE a SYSTEM 'a.dtd'><a><!--&b;--><?s &b;?><![CDATA[&b;]]>&b;</a>",
                "UnknownEntity { at: 64 }",
            ),
        ],
    )
}

#[test]
fn faults_of_namespaces(rt: HostRuntime) -> Result<(), Fail> {
    expect(
        &rt,
        rt.alloc(),
        false,
        &[
            ("<p:a/>", "Namespace { at: 0 }"),
            ("<a p:b='1'/>", "Namespace { at: 0 }"),
            ("\u{feff}<r>\u{e9}<p:a/></r>", "Namespace { at: 8 }"),
            (
                "<!--c--><a><b xmlns:p='u'/><p:c/></a>",
                "Namespace { at: 27 }",
            ),
            ("<p:a xmlns:P='u'/>", "Namespace { at: 0 }"),
            (
                "<a xmlns:p='u' xmlns:q='u' p:b='1' q:b='2'/>",
                "Namespace { at: 0 }",
            ),
            (
                "<a xmlns:p='u'><b xmlns:q='u' p:c='1' c='2' q:c='3'/></a>",
                "Namespace { at: 15 }",
            ),
            ("<a xmlns:p=''/>", "Namespace { at: 0 }"),
            ("<a xmlns:p='u'><b xmlns:p=''/></a>", "Namespace { at: 15 }"),
            ("<a xmlns:xmlns='u'/>", "Namespace { at: 0 }"),
            (
                "<a xmlns:xmlns='http://www.w3.org/2000/xmlns/'/>",
                "Namespace { at: 0 }",
            ),
            (
                "<a xmlns:p='http://www.w3.org/2000/xmlns/'/>",
                "Namespace { at: 0 }",
            ),
            (
                "<a xmlns='http://www.w3.org/2000/xmlns/'/>",
                "Namespace { at: 0 }",
            ),
            ("<a xmlns:xml='u'/>", "Namespace { at: 0 }"),
            (
                "<a xmlns:p='http://www.w3.org/XML/1998/namespace'/>",
                "Namespace { at: 0 }",
            ),
            (
                "<a xmlns='http://www.w3.org/XML/1998/namespace'/>",
                "Namespace { at: 0 }",
            ),
            ("<xmlns:a/>", "Namespace { at: 0 }"),
        ],
    )
}

#[test]
fn the_first_fault(rt: HostRuntime) -> Result<(), Fail> {
    expect(
        &rt,
        rt.alloc(),
        false,
        &[
            ("<a>&b;<p:c/></a>", "UnknownEntity { at: 3 }"),
            ("<a><p:b/>&c;</a>", "Namespace { at: 3 }"),
            ("<p:a b='&c;'/>", "Namespace { at: 0 }"),
            ("<a b='&c;'><p:d/></a>", "UnknownEntity { at: 6 }"),
            ("<a xmlns:p='&b;' p:c='1'/>", "UnknownEntity { at: 12 }"),
            ("<a>&b;</c>", "Malformed"),
            ("<p:a>", "Malformed"),
            ("<a>&b;\u{1}</a>", "Malformed"),
            ("<!DOCTYPE a[]><p:a>&b;</a>", "InternalSubset { at: 11 }"),
        ],
    )
}

#[test]
fn cut_texts(rt: HostRuntime) -> Result<(), Fail> {
    for text in [
        "<a k='&lt;&#65;'>x&amp;y<![CDATA[<]]></a>",
        "<?xml version=\"1.0\"?><!DOCTYPE a SYSTEM \"a.dtd\"><?s h?><a/>",
        "<!--c--><p:a xmlns:p=\"u\" p:b='1'><?d e?><!-- - --></p:a >",
    ] {
        expect_cuts_malformed(&rt, rt.alloc(), text)?;
    }
    Ok(())
}

#[test]
fn a_text_too_long(rt: HostRuntime) -> Result<(), Fail> {
    let alloc = rt.alloc();
    let text = vec![in alloc; b' '; (1 << 26) + 1]?;
    let found = answer(alloc, text.as_slice(), false)?;
    assert_eq!(rt; found.as_str(), "TooLong");
    Ok(())
}

// Elements inside one another, each with a prefix of its own.
fn nested(alloc: Global, count: u32) -> Result<String, Fail> {
    let mut text = String::new(alloc);
    for number in 0..count {
        write!(&mut text, "<a xmlns:p{number}='u'>")?;
    }
    for _ in 0..count {
        text.push_str("</a>")?;
    }
    Ok(text)
}

// Ends at once only where a search among many prefixes takes no longer than among few.
#[test]
fn many_prefixes_in_scope(rt: HostRuntime) -> Result<(), Fail> {
    let text = nested(rt.alloc(), 200_000)?;
    let rows = match import(rt.alloc(), text.as_bytes(), false) {
        Ok(built) => built.rows.len(),
        Err(_) => 0,
    };
    assert_eq!(rt; rows, 200_001);
    Ok(())
}

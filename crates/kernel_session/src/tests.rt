use super::*;
use frame_pool::Meter;
use outer_io::{CalmFiles, FileEntry, MemFiles, MemSink, MemSource, ReadStep, Source};
use std::test::Fail;

// The status of a session with this script and no words, and what it writes, in pieces of so many bytes.
fn session(rt: &HostRuntime, script: &[u8], piece: usize) -> Result<(u8, Vec<u8>), Fail> {
    let words: Vec<String> = Vec::new(rt.alloc());
    let mut source = MemSource::new(rt.alloc(), script, piece.max(1), &[])?;
    let mut sink = MemSink::new(rt.alloc(), 1000, piece.max(1), &[])?;
    let mut kernel = Kernel::new(rt.alloc());
    let mut files = CalmFiles::new(Vec::new(rt.alloc()))?;
    let mut meter = Meter::new();
    let status = run(
        rt.alloc(),
        &words,
        &mut source,
        &mut sink,
        &mut files,
        &mut kernel,
        &mut meter,
    );
    Ok((status, sink.bytes().to_vec(rt.alloc())?))
}

// Whether a script is answered so, in pieces of one byte, of some bytes and as a whole.
fn is_answered(rt: &HostRuntime, script: &[u8], output: &[u8], status: u8) -> Result<bool, Fail> {
    for piece in [1, 7, 4096] {
        let (got, written) = session(rt, script, piece)?;
        if got != status || written.as_slice() != output {
            return Ok(false);
        }
    }
    Ok(true)
}

#[test]
fn tables_are_answered(rt: HostRuntime) -> Result<(), Fail> {
    assert!(rt; is_answered(&rt, b"", b"", 0)?);
    assert!(rt;
        is_answered(
            &rt,
            b"TABLE <a><b/>t</a>",
            b"ok 70\n0 0 4 1 0 doc table\n1 1 3 1 1 elem a\n2 1 1 1 2 elem b\n3 2 1 1 3 text t\n",
            0,
        )?
    );
    assert!(rt;
        is_answered(
            &rt,
            b" \t\r\n\n table   <a/> \r\n",
            b"ok 36\n0 0 2 1 0 doc table\n1 1 1 1 1 elem a\n",
            0,
        )?
    );
    Ok(())
}

#[test]
fn refusals_are_answered(rt: HostRuntime) -> Result<(), Fail> {
    assert!(rt; is_answered(&rt, b"TABLE <a>\n", b"err XKXM0002\n", 1)?);
    assert!(rt; is_answered(&rt, b"TABLE\n", b"err XKCM0001\n", 1)?);
    assert!(rt; is_answered(&rt, b"TABLE f.xml\n", b"err XKFI0001\n", 1)?);
    assert!(rt; is_answered(&rt, b"TABLE a b\n", b"err XKCM0001\n", 1)?);
    assert!(rt; is_answered(&rt, b"XQUERY 1\n", b"err XKCM0002\n", 1)?);
    assert!(rt; is_answered(&rt, b"FOO\n", b"err XKCM0001\n", 1)?);
    assert!(rt; is_answered(&rt, b"TABLE <a>\xff</a>\n", b"err XKCM0001\n", 1)?);
    Ok(())
}

#[test]
fn one_database_is_answered(rt: HostRuntime) -> Result<(), Fail> {
    assert!(rt;
        is_answered(
            &rt,
            b"CREATE DB d <a><b>x</b><b/>y</a>\nLIST\nINFO STORAGE 1 2\nINFO STORAGE 4 999999999\nINFO STORAGE 3 3\nINFO STORAGE\nEXIT\nLIST\n",
            b"ok 0\n\nok 5\nd 1 6\nok 16\n1 1 5 1 1 elem a\nok 33\n4 3 1 1 4 elem b\n5 4 1 1 5 text y\nok 0\n\nok 104\n0 0 6 1 0 doc d.xml\n1 1 5 1 1 elem a\n2 1 2 1 2 elem b\n3 1 1 1 3 text x\n4 3 1 1 4 elem b\n5 4 1 1 5 text y\nok 0\n\n",
            0,
        )?
    );
    assert!(rt; is_answered(&rt, b"EXIT", b"ok 0\n\n", 0)?);
    assert!(rt; is_answered(&rt, b"FOO\nexit \r\nFOO\n", b"err XKCM0001\nok 0\n\n", 1)?);
    Ok(())
}

#[test]
fn databases_are_made_anew(rt: HostRuntime) -> Result<(), Fail> {
    assert!(rt;
        is_answered(
            &rt,
            b"LIST\nINFO STORAGE\nCREATE DB a\nCREATE DB b <x/>\nCREATE DB a <y/>\nLIST\nINFO STORAGE\n",
            b"ok 0\n\nerr XKDB0001\nok 0\n\nok 0\n\nok 0\n\nok 11\nb 1 2\na 1 2\nok 36\n0 0 2 1 0 doc a.xml\n1 1 1 1 1 elem y\n",
            1,
        )?
    );
    Ok(())
}

#[test]
fn refused_databases_change_nothing(rt: HostRuntime) -> Result<(), Fail> {
    assert!(rt;
        is_answered(
            &rt,
            b"CREATE DB a <y/>\nCREATE DB a <y>\nCREATE DB a.b <y>\nCREATE DB a.b <y>&lt;</y>\nCREATE DB a f.xml\nCREATE DB a f!\nCREATE DB <a/>\nCREATE DB\nINFO STORAGE 1\nLIST a\nEXIT x\nLIST\n",
            b"ok 0\n\nerr XKXM0002\nerr XKDB0003\nerr XKDB0003\nerr XKFI0001\nerr XKCM0001\nerr XKDB0003\nerr XKCM0001\nerr XKCM0001\nerr XKCM0002\nerr XKCM0001\nok 5\na 1 2\n",
            1,
        )?
    );
    Ok(())
}

#[test]
fn paths_are_answered(rt: HostRuntime) -> Result<(), Fail> {
    assert!(rt;
        is_answered(
            &rt,
            b"XQUERY /a\nXQUERY 1\nXQUERY\nCREATE DB d <a><b>x</b><b/>y</a>\nXQUERY /a/b\nXQUERY /a/text()\nxquery  /a/b/text() \nXQUERY //b\nXQUERY /a/\nXQUERY /a b\nXQUERY /z\nXQUERY /a\n",
            b"err XPDY0002\nerr XKCM0002\nerr XKCM0001\nok 0\n\nok 13\n<b>x</b>\n<b/>\nok 1\ny\nok 1\nx\nok 13\n<b>x</b>\n<b/>\nerr XPST0003\nerr XPST0003\nok 0\n\nok 20\n<a><b>x</b><b/>y</a>\n",
            1,
        )?
    );
    Ok(())
}

#[test]
fn axes_are_answered(rt: HostRuntime) -> Result<(), Fail> {
    assert!(rt;
        is_answered(
            &rt,
            b"CREATE DB d <a><b k=\"1\"/>t</a>\nXQUERY //@k/ancestor::*\nXQUERY //@k/following::node()\nXQUERY //@k\nXQUERY /\nCREATE DB e <r><a/><b/><c/></r>\nXQUERY //c/preceding-sibling::*\nXQUERY //c/..\n",
            b"ok 0\n\nok 29\n<a><b k=\"1\"/>t</a>\n<b k=\"1\"/>\nok 1\nt\nok 5\nk=\"1\"\nok 18\n<a><b k=\"1\"/>t</a>\nok 0\n\nok 9\n<a/>\n<b/>\nok 19\n<r><a/><b/><c/></r>\n",
            0,
        )?
    );
    Ok(())
}

#[test]
fn written_paths_are_read(rt: HostRuntime) -> Result<(), Fail> {
    assert!(rt;
        is_answered(
            &rt,
            b"CREATE DB d <r><\xc3\xa9/><a/></r>\nXQUERY r/a\nXQUERY / r (: in (: all :) :) /  a\nXQUERY //\xc3\xa9\nXQUERY r//\nXQUERY (: r\n",
            b"ok 0\n\nok 4\n<a/>\nok 4\n<a/>\nok 5\n<\xc3\xa9/>\nerr XPST0003\nerr XPST0003\n",
            1,
        )?
    );
    Ok(())
}

#[test]
fn line_of_too_many_bytes(rt: HostRuntime) -> Result<(), Fail> {
    let mut script = vec![in rt.alloc(); b'x'; (1 << 24) + 1]?;
    script.extend_from_slice(b"\nTABLE <a/>")?;
    let (status, written) = session(&rt, &script, 1 << 16)?;
    assert_eq!(rt; status, 1);
    assert_eq!(rt;
        written.as_slice(),
        b"err XKLM0001\nok 36\n0 0 2 1 0 doc table\n1 1 1 1 1 elem a\n".as_slice()
    );
    Ok(())
}

#[test]
fn write_that_fails(rt: HostRuntime) -> Result<(), Fail> {
    let words: Vec<String> = Vec::new(rt.alloc());
    let mut source = MemSource::new(rt.alloc(), b"TABLE <a/>\nTABLE <a/>\n", 4096, &[])?;
    let mut sink = MemSink::new(rt.alloc(), 1000, 5, &[2])?;
    let mut kernel = Kernel::new(rt.alloc());
    let mut files = CalmFiles::new(Vec::new(rt.alloc()))?;
    let mut meter = Meter::new();
    let status = run(
        rt.alloc(),
        &words,
        &mut source,
        &mut sink,
        &mut files,
        &mut kernel,
        &mut meter,
    );
    assert_eq!(rt; status, 4);
    assert_eq!(rt; sink.bytes(), b"ok 36".as_slice());
    Ok(())
}

#[test]
fn read_that_fails(rt: HostRuntime) -> Result<(), Fail> {
    let words: Vec<String> = Vec::new(rt.alloc());
    let mut source = MemSource::new(rt.alloc(), b"TABLE <a/>\n", 4096, &[1])?;
    let mut sink = MemSink::new(rt.alloc(), 1000, 4096, &[])?;
    let mut kernel = Kernel::new(rt.alloc());
    let mut files = CalmFiles::new(Vec::new(rt.alloc()))?;
    let mut meter = Meter::new();
    let status = run(
        rt.alloc(),
        &words,
        &mut source,
        &mut sink,
        &mut files,
        &mut kernel,
        &mut meter,
    );
    assert_eq!(rt; status, 3);
    assert_eq!(rt; sink.bytes(), b"".as_slice());
    Ok(())
}

#[test]
fn words_are_refused(rt: HostRuntime) -> Result<(), Fail> {
    let mut words: Vec<String> = Vec::new(rt.alloc());
    words.push(String::from_str(rt.alloc(), "--plain")?)?;
    let mut source = MemSource::new(rt.alloc(), b"TABLE <a/>\n", 4096, &[])?;
    let mut sink = MemSink::new(rt.alloc(), 1000, 4096, &[])?;
    let mut kernel = Kernel::new(rt.alloc());
    let mut files = CalmFiles::new(Vec::new(rt.alloc()))?;
    let mut meter = Meter::new();
    let status = run(
        rt.alloc(),
        &words,
        &mut source,
        &mut sink,
        &mut files,
        &mut kernel,
        &mut meter,
    );
    assert_eq!(rt; status, 2);
    assert_eq!(rt; sink.bytes(), b"".as_slice());
    let mut buffer = [0u8; 4];
    assert_eq!(rt; source.read(&mut buffer), ReadStep::Got(4));
    Ok(())
}

#[test]
fn all_of_xml_is_read(rt: HostRuntime) -> Result<(), Fail> {
    assert!(rt;
        is_answered(
            &rt,
            b"TABLE <a k='&lt;&#65;'>x&amp;y<![CDATA[<]]></a>\nTABLE <!--c--><a k=\"1\"/>\nTABLE <!DOCTYPE a SYSTEM \"a.dtd\"><?s h?><a/>\n",
            b"ok 78\n0 0 4 1 0 doc table\n1 1 3 2 1 elem a\n2 1 1 1 2 attr k=\"<A\"\n3 2 1 1 3 text x&y<\nok 74\n0 0 4 1 0 doc table\n1 1 1 1 1 comm c\n2 2 2 2 2 elem a\n3 1 1 1 3 attr k=\"1\"\nok 53\n0 0 3 1 0 doc table\n1 1 1 1 1 pi s h\n2 2 1 1 2 elem a\n",
            0,
        )?
    );
    Ok(())
}

#[test]
fn faults_of_xml_are_answered(rt: HostRuntime) -> Result<(), Fail> {
    assert!(rt;
        is_answered(
            &rt,
            b"TABLE <a>&x;</a>\nTABLE <a></b>\nTABLE <p:a/>\nTABLE <a b=\"1\" b=\"2\"/>\nTABLE <a>]]></a>\nTABLE <!DOCTYPE a [<!ENTITY x \"y\">]><a/>\nTABLE <?xml version=\"1.0\" encoding=\"ISO-8859-1\"?><a/>\n",
            b"err XKXM0004\nerr XKXM0002\nerr XKXM0005\nerr XKXM0002\nerr XKXM0002\nerr XKXM0003\nerr XKXM0006\n",
            1,
        )?
    );
    Ok(())
}

// Whether each script is answered so, without a refusal.
fn are_answered(rt: &HostRuntime, table: &[(&str, &str)]) -> Result<bool, Fail> {
    for (script, output) in table {
        if !is_answered(rt, script.as_bytes(), output.as_bytes(), 0)? {
            return Ok(false);
        }
    }
    Ok(true)
}

#[test]
fn declarations_are_kept(rt: HostRuntime) -> Result<(), Fail> {
    let table = [
        (
            "CREATE DB d <a/>\nXQUERY /\nXQUERY //*/*\nCREATE DB e <a/>\nXQUERY /\n",
            "ok 0\n\nok 4\n<a/>\nok 0\n\nok 0\n\nok 4\n<a/>\n",
        ),
        (
            "CREATE DB d <a xmlns=\"\"/>\nXQUERY /\nXQUERY //*/*\nCREATE DB e <a xmlns=\"\"/>\nXQUERY /\n",
            "ok 0\n\nok 13\n<a xmlns=\"\"/>\nok 0\n\nok 0\n\nok 13\n<a xmlns=\"\"/>\n",
        ),
        (
            "CREATE DB d <a xmlns=\"u\"/>\nXQUERY /\nXQUERY //*/*\nCREATE DB e <a xmlns=\"u\"/>\nXQUERY /\n",
            "ok 0\n\nok 14\n<a xmlns=\"u\"/>\nok 0\n\nok 0\n\nok 14\n<a xmlns=\"u\"/>\n",
        ),
        (
            "CREATE DB d <a xmlns=\"u\" xmlns:p=\"v\"/>\nXQUERY /\nXQUERY //*/*\nCREATE DB e <a xmlns=\"u\" xmlns:p=\"v\"/>\nXQUERY /\n",
            "ok 0\n\nok 26\n<a xmlns=\"u\" xmlns:p=\"v\"/>\nok 0\n\nok 0\n\nok 26\n<a xmlns=\"u\" xmlns:p=\"v\"/>\n",
        ),
        (
            "CREATE DB d <a xmlns:p=\"v\" xmlns=\"u\"/>\nXQUERY /\nXQUERY //*/*\nCREATE DB e <a xmlns:p=\"v\" xmlns=\"u\"/>\nXQUERY /\n",
            "ok 0\n\nok 26\n<a xmlns:p=\"v\" xmlns=\"u\"/>\nok 0\n\nok 0\n\nok 26\n<a xmlns:p=\"v\" xmlns=\"u\"/>\n",
        ),
        (
            "CREATE DB d <p:a xmlns:p=\"u\"/>\nXQUERY /\nXQUERY //*/*\nCREATE DB e <p:a xmlns:p=\"u\"/>\nXQUERY /\n",
            "ok 0\n\nok 18\n<p:a xmlns:p=\"u\"/>\nok 0\n\nok 0\n\nok 18\n<p:a xmlns:p=\"u\"/>\n",
        ),
        (
            "CREATE DB d <a xmlns:p=\"u\"/>\nXQUERY /\nXQUERY //*/*\nCREATE DB e <a xmlns:p=\"u\"/>\nXQUERY /\n",
            "ok 0\n\nok 16\n<a xmlns:p=\"u\"/>\nok 0\n\nok 0\n\nok 16\n<a xmlns:p=\"u\"/>\n",
        ),
        (
            "CREATE DB d <a xmlns:p=\"u\" xmlns:q=\"u\"/>\nXQUERY /\nXQUERY //*/*\nCREATE DB e <a xmlns:p=\"u\" xmlns:q=\"u\"/>\nXQUERY /\n",
            "ok 0\n\nok 28\n<a xmlns:p=\"u\" xmlns:q=\"u\"/>\nok 0\n\nok 0\n\nok 28\n<a xmlns:p=\"u\" xmlns:q=\"u\"/>\n",
        ),
        (
            "CREATE DB d <p:a xmlns:p=\"u\" xmlns:q=\"u\" q:k=\"1\"/>\nXQUERY /\nXQUERY //*/*\nCREATE DB e <p:a xmlns:p=\"u\" xmlns:q=\"u\" q:k=\"1\"/>\nXQUERY /\n",
            "ok 0\n\nok 38\n<p:a xmlns:p=\"u\" xmlns:q=\"u\" q:k=\"1\"/>\nok 0\n\nok 0\n\nok 38\n<p:a xmlns:p=\"u\" xmlns:q=\"u\" q:k=\"1\"/>\n",
        ),
        (
            "CREATE DB d <a xmlns=\"u\"><b/></a>\nXQUERY /\nXQUERY //*/*\nCREATE DB e <a xmlns=\"u\"><b/></a>\nXQUERY /\n",
            "ok 0\n\nok 21\n<a xmlns=\"u\"><b/></a>\nok 14\n<b xmlns=\"u\"/>\nok 0\n\nok 21\n<a xmlns=\"u\"><b/></a>\n",
        ),
        (
            "CREATE DB d <a xmlns=\"u\"><b xmlns=\"u\"/></a>\nXQUERY /\nXQUERY //*/*\nCREATE DB e <a xmlns=\"u\"><b xmlns=\"u\"/></a>\nXQUERY /\n",
            "ok 0\n\nok 31\n<a xmlns=\"u\"><b xmlns=\"u\"/></a>\nok 14\n<b xmlns=\"u\"/>\nok 0\n\nok 31\n<a xmlns=\"u\"><b xmlns=\"u\"/></a>\n",
        ),
        (
            "CREATE DB d <a xmlns=\"u\"><b xmlns=\"\"/></a>\nXQUERY /\nXQUERY //*/*\nCREATE DB e <a xmlns=\"u\"><b xmlns=\"\"/></a>\nXQUERY /\n",
            "ok 0\n\nok 30\n<a xmlns=\"u\"><b xmlns=\"\"/></a>\nok 13\n<b xmlns=\"\"/>\nok 0\n\nok 30\n<a xmlns=\"u\"><b xmlns=\"\"/></a>\n",
        ),
        (
            "CREATE DB d <a xmlns=\"u\"><b xmlns=\"\"><c/></b><d/></a>\nXQUERY /\nXQUERY //*/*\nCREATE DB e <a xmlns=\"u\"><b xmlns=\"\"><c/></b><d/></a>\nXQUERY /\n",
            "ok 0\n\nok 41\n<a xmlns=\"u\"><b xmlns=\"\"><c/></b><d/></a>\nok 40\n<b xmlns=\"\"><c/></b>\n<c/>\n<d xmlns=\"u\"/>\nok 0\n\nok 41\n<a xmlns=\"u\"><b xmlns=\"\"><c/></b><d/></a>\n",
        ),
        (
            "CREATE DB d <a xmlns=\"u\"><b xmlns=\"v\"><c xmlns=\"u\"/></b></a>\nXQUERY /\nXQUERY //*/*\nCREATE DB e <a xmlns=\"u\"><b xmlns=\"v\"><c xmlns=\"u\"/></b></a>\nXQUERY /\n",
            "ok 0\n\nok 48\n<a xmlns=\"u\"><b xmlns=\"v\"><c xmlns=\"u\"/></b></a>\nok 46\n<b xmlns=\"v\"><c xmlns=\"u\"/></b>\n<c xmlns=\"u\"/>\nok 0\n\nok 48\n<a xmlns=\"u\"><b xmlns=\"v\"><c xmlns=\"u\"/></b></a>\n",
        ),
        (
            "CREATE DB d <p:a xmlns:p=\"u\"><p:b xmlns:p=\"v\"><p:c/></p:b><p:d/></p:a>\nXQUERY /\nXQUERY //*/*\nCREATE DB e <p:a xmlns:p=\"u\"><p:b xmlns:p=\"v\"><p:c/></p:b><p:d/></p:a>\nXQUERY /\n",
            "ok 0\n\nok 58\n<p:a xmlns:p=\"u\"><p:b xmlns:p=\"v\"><p:c/></p:b><p:d/></p:a>\nok 67\n<p:b xmlns:p=\"v\"><p:c/></p:b>\n<p:c xmlns:p=\"v\"/>\n<p:d xmlns:p=\"u\"/>\nok 0\n\nok 58\n<p:a xmlns:p=\"u\"><p:b xmlns:p=\"v\"><p:c/></p:b><p:d/></p:a>\n",
        ),
        (
            "CREATE DB d <p:a xmlns:p=\"u\"><p:b xmlns:p=\"v\"><p:c xmlns:p=\"u\"/></p:b><p:d/></p:a>\nXQUERY /\nXQUERY //*/*\nCREATE DB e <p:a xmlns:p=\"u\"><p:b xmlns:p=\"v\"><p:c xmlns:p=\"u\"/></p:b><p:d/></p:a>\nXQUERY /\n",
            "ok 0\n\nok 70\n<p:a xmlns:p=\"u\"><p:b xmlns:p=\"v\"><p:c xmlns:p=\"u\"/></p:b><p:d/></p:a>\nok 79\n<p:b xmlns:p=\"v\"><p:c xmlns:p=\"u\"/></p:b>\n<p:c xmlns:p=\"u\"/>\n<p:d xmlns:p=\"u\"/>\nok 0\n\nok 70\n<p:a xmlns:p=\"u\"><p:b xmlns:p=\"v\"><p:c xmlns:p=\"u\"/></p:b><p:d/></p:a>\n",
        ),
        (
            "CREATE DB d <a xmlns:xml=\"http://www.w3.org/XML/1998/namespace\"/>\nXQUERY /\nXQUERY //*/*\nCREATE DB e <a/>\nXQUERY /\n",
            "ok 0\n\nok 4\n<a/>\nok 0\n\nok 0\n\nok 4\n<a/>\n",
        ),
        (
            "CREATE DB d <a xmlns:xml=\"http://www.w3.org/XML/1998/namespace\" xmlns:p=\"u\" xml:lang=\"en\"/>\nXQUERY /\nXQUERY //*/*\nCREATE DB e <a xmlns:p=\"u\" xml:lang=\"en\"/>\nXQUERY /\n",
            "ok 0\n\nok 30\n<a xmlns:p=\"u\" xml:lang=\"en\"/>\nok 0\n\nok 0\n\nok 30\n<a xmlns:p=\"u\" xml:lang=\"en\"/>\n",
        ),
        (
            "CREATE DB d <xml:a/>\nXQUERY /\nXQUERY //*/*\nCREATE DB e <xml:a/>\nXQUERY /\n",
            "ok 0\n\nok 8\n<xml:a/>\nok 0\n\nok 0\n\nok 8\n<xml:a/>\n",
        ),
        (
            "CREATE DB d <a xml:space=\"preserve\"> </a>\nXQUERY /\nXQUERY //*/*\nCREATE DB e <a xml:space=\"preserve\"> </a>\nXQUERY /\n",
            "ok 0\n\nok 29\n<a xml:space=\"preserve\"> </a>\nok 0\n\nok 0\n\nok 29\n<a xml:space=\"preserve\"> </a>\n",
        ),
        (
            "CREATE DB d <a xmlns:p=\"u\"><p:b/><b p:k=\"1\"/></a>\nXQUERY /\nXQUERY //*/*\nCREATE DB e <a xmlns:p=\"u\"><p:b/><b p:k=\"1\"/></a>\nXQUERY /\n",
            "ok 0\n\nok 37\n<a xmlns:p=\"u\"><p:b/><b p:k=\"1\"/></a>\nok 43\n<p:b xmlns:p=\"u\"/>\n<b xmlns:p=\"u\" p:k=\"1\"/>\nok 0\n\nok 37\n<a xmlns:p=\"u\"><p:b/><b p:k=\"1\"/></a>\n",
        ),
        (
            "CREATE DB d <a xmlns:p=\"u\"><b xmlns:p=\"u\"><c p:k=\"\"/></b></a>\nXQUERY /\nXQUERY //*/*\nCREATE DB e <a xmlns:p=\"u\"><b xmlns:p=\"u\"><c p:k=\"\"/></b></a>\nXQUERY /\n",
            "ok 0\n\nok 49\n<a xmlns:p=\"u\"><b xmlns:p=\"u\"><c p:k=\"\"/></b></a>\nok 54\n<b xmlns:p=\"u\"><c p:k=\"\"/></b>\n<c xmlns:p=\"u\" p:k=\"\"/>\nok 0\n\nok 49\n<a xmlns:p=\"u\"><b xmlns:p=\"u\"><c p:k=\"\"/></b></a>\n",
        ),
        (
            "CREATE DB d <a><b xmlns:p=\"1\"/><b xmlns:p=\"2\"/></a>\nXQUERY /\nXQUERY //*/*\nCREATE DB e <a><b xmlns:p=\"1\"/><b xmlns:p=\"2\"/></a>\nXQUERY /\n",
            "ok 0\n\nok 39\n<a><b xmlns:p=\"1\"/><b xmlns:p=\"2\"/></a>\nok 33\n<b xmlns:p=\"1\"/>\n<b xmlns:p=\"2\"/>\nok 0\n\nok 39\n<a><b xmlns:p=\"1\"/><b xmlns:p=\"2\"/></a>\n",
        ),
        (
            "CREATE DB d <a><p:b xmlns:p=\"1\"/><p:b xmlns:p=\"2\"/></a>\nXQUERY /\nXQUERY //*/*\nCREATE DB e <a><p:b xmlns:p=\"1\"/><p:b xmlns:p=\"2\"/></a>\nXQUERY /\n",
            "ok 0\n\nok 43\n<a><p:b xmlns:p=\"1\"/><p:b xmlns:p=\"2\"/></a>\nok 37\n<p:b xmlns:p=\"1\"/>\n<p:b xmlns:p=\"2\"/>\nok 0\n\nok 43\n<a><p:b xmlns:p=\"1\"/><p:b xmlns:p=\"2\"/></a>\n",
        ),
        (
            "CREATE DB d <a xmlns:a=\"x\"><a:a a:a=\"y\"/></a>\nXQUERY /\nXQUERY //*/*\nCREATE DB e <a xmlns:a=\"x\"><a:a a:a=\"y\"/></a>\nXQUERY /\n",
            "ok 0\n\nok 33\n<a xmlns:a=\"x\"><a:a a:a=\"y\"/></a>\nok 26\n<a:a xmlns:a=\"x\" a:a=\"y\"/>\nok 0\n\nok 33\n<a xmlns:a=\"x\"><a:a a:a=\"y\"/></a>\n",
        ),
        (
            "CREATE DB d <a xmlns:p=\"u\" k=\"1\" xmlns:q=\"v\" l=\"2\"/>\nXQUERY /\nXQUERY //*/*\nCREATE DB e <a xmlns:p=\"u\" xmlns:q=\"v\" k=\"1\" l=\"2\"/>\nXQUERY /\n",
            "ok 0\n\nok 40\n<a xmlns:p=\"u\" xmlns:q=\"v\" k=\"1\" l=\"2\"/>\nok 0\n\nok 0\n\nok 40\n<a xmlns:p=\"u\" xmlns:q=\"v\" k=\"1\" l=\"2\"/>\n",
        ),
        (
            "CREATE DB d <a p:k=\"1\" xmlns:p=\"u\"/>\nXQUERY /\nXQUERY //*/*\nCREATE DB e <a xmlns:p=\"u\" p:k=\"1\"/>\nXQUERY /\n",
            "ok 0\n\nok 24\n<a xmlns:p=\"u\" p:k=\"1\"/>\nok 0\n\nok 0\n\nok 24\n<a xmlns:p=\"u\" p:k=\"1\"/>\n",
        ),
        (
            "CREATE DB d <a xmlns:p=\"u&amp;v\"/>\nXQUERY /\nXQUERY //*/*\nCREATE DB e <a xmlns:p=\"u&amp;v\"/>\nXQUERY /\n",
            "ok 0\n\nok 22\n<a xmlns:p=\"u&amp;v\"/>\nok 0\n\nok 0\n\nok 22\n<a xmlns:p=\"u&amp;v\"/>\n",
        ),
        (
            "CREATE DB d <a xmlns:p=\"&lt;&gt;&quot;\"/>\nXQUERY /\nXQUERY //*/*\nCREATE DB e <a xmlns:p=\"&lt;&gt;&quot;\"/>\nXQUERY /\n",
            "ok 0\n\nok 29\n<a xmlns:p=\"&lt;&gt;&quot;\"/>\nok 0\n\nok 0\n\nok 29\n<a xmlns:p=\"&lt;&gt;&quot;\"/>\n",
        ),
        (
            "CREATE DB d <a xmlns:p='\"'/>\nXQUERY /\nXQUERY //*/*\nCREATE DB e <a xmlns:p=\"&quot;\"/>\nXQUERY /\n",
            "ok 0\n\nok 21\n<a xmlns:p=\"&quot;\"/>\nok 0\n\nok 0\n\nok 21\n<a xmlns:p=\"&quot;\"/>\n",
        ),
        (
            "CREATE DB d <a xmlns:p=\"a&#9;b&#10;c&#13;d\"/>\nXQUERY /\nXQUERY //*/*\nCREATE DB e <a xmlns:p=\"a&#9;b&#10;c&#13;d\"/>\nXQUERY /\n",
            "ok 0\n\nok 33\n<a xmlns:p=\"a&#9;b&#10;c&#13;d\"/>\nok 0\n\nok 0\n\nok 33\n<a xmlns:p=\"a&#9;b&#10;c&#13;d\"/>\n",
        ),
        (
            "CREATE DB d <a xmlns:p=\"a\tb\"/>\nXQUERY /\nXQUERY //*/*\nCREATE DB e <a xmlns:p=\"a b\"/>\nXQUERY /\n",
            "ok 0\n\nok 18\n<a xmlns:p=\"a b\"/>\nok 0\n\nok 0\n\nok 18\n<a xmlns:p=\"a b\"/>\n",
        ),
        (
            "CREATE DB d <a xmlns=\"u\" xmlns:p=\"u\"><p:b><c/></p:b></a>\nXQUERY /\nXQUERY //*/*\nCREATE DB e <a xmlns=\"u\" xmlns:p=\"u\"><p:b><c/></p:b></a>\nXQUERY /\n",
            "ok 0\n\nok 44\n<a xmlns=\"u\" xmlns:p=\"u\"><p:b><c/></p:b></a>\nok 52\n<p:b xmlns:p=\"u\"><c xmlns=\"u\"/></p:b>\n<c xmlns=\"u\"/>\nok 0\n\nok 44\n<a xmlns=\"u\" xmlns:p=\"u\"><p:b><c/></p:b></a>\n",
        ),
        (
            "CREATE DB d <p:a xmlns:p=\"u\" xmlns=\"v\"><b p:k=\"1\"/></p:a>\nXQUERY /\nXQUERY //*/*\nCREATE DB e <p:a xmlns:p=\"u\" xmlns=\"v\"><b p:k=\"1\"/></p:a>\nXQUERY /\n",
            "ok 0\n\nok 45\n<p:a xmlns:p=\"u\" xmlns=\"v\"><b p:k=\"1\"/></p:a>\nok 34\n<b xmlns=\"v\" xmlns:p=\"u\" p:k=\"1\"/>\nok 0\n\nok 45\n<p:a xmlns:p=\"u\" xmlns=\"v\"><b p:k=\"1\"/></p:a>\n",
        ),
        (
            "CREATE DB d <!--c--><a xmlns:p=\"u\"><?s h?>t<!--d--><p:b>x</p:b>y</a><?e?>\nXQUERY /\nXQUERY //*/*\nCREATE DB e <!--c--><a xmlns:p=\"u\"><?s h?>t<!--d--><p:b>x</p:b>y</a><?e?>\nXQUERY /\n",
            "ok 0\n\nok 61\n<!--c--><a xmlns:p=\"u\"><?s h?>t<!--d--><p:b>x</p:b>y</a><?e?>\nok 24\n<p:b xmlns:p=\"u\">x</p:b>\nok 0\n\nok 61\n<!--c--><a xmlns:p=\"u\"><?s h?>t<!--d--><p:b>x</p:b>y</a><?e?>\n",
        ),
        (
            "CREATE DB d <a xmlns=\"u\">x<b xmlns=\"\">y<c xmlns=\"u\">z</c></b></a>\nXQUERY /\nXQUERY //*/*\nCREATE DB e <a xmlns=\"u\">x<b xmlns=\"\">y<c xmlns=\"u\">z</c></b></a>\nXQUERY /\n",
            "ok 0\n\nok 53\n<a xmlns=\"u\">x<b xmlns=\"\">y<c xmlns=\"u\">z</c></b></a>\nok 54\n<b xmlns=\"\">y<c xmlns=\"u\">z</c></b>\n<c xmlns=\"u\">z</c>\nok 0\n\nok 53\n<a xmlns=\"u\">x<b xmlns=\"\">y<c xmlns=\"u\">z</c></b></a>\n",
        ),
        (
            "CREATE DB d <a xmlns:p1=\"u\" xmlns:p2=\"u\" xmlns:p3=\"u\" p1:x=\"\" p2:y=\"\" p3:z=\"\"/>\nXQUERY /\nXQUERY //*/*\nCREATE DB e <a xmlns:p1=\"u\" xmlns:p2=\"u\" xmlns:p3=\"u\" p1:x=\"\" p2:y=\"\" p3:z=\"\"/>\nXQUERY /\n",
            "ok 0\n\nok 67\n<a xmlns:p1=\"u\" xmlns:p2=\"u\" xmlns:p3=\"u\" p1:x=\"\" p2:y=\"\" p3:z=\"\"/>\nok 0\n\nok 0\n\nok 67\n<a xmlns:p1=\"u\" xmlns:p2=\"u\" xmlns:p3=\"u\" p1:x=\"\" p2:y=\"\" p3:z=\"\"/>\n",
        ),
        (
            "CREATE DB d <r><a xmlns=\"1\"><b xmlns=\"2\"><c xmlns=\"3\"/></b></a><a/></r>\nXQUERY /\nXQUERY //*/*\nCREATE DB e <r><a xmlns=\"1\"><b xmlns=\"2\"><c xmlns=\"3\"/></b></a><a/></r>\nXQUERY /\n",
            "ok 0\n\nok 59\n<r><a xmlns=\"1\"><b xmlns=\"2\"><c xmlns=\"3\"/></b></a><a/></r>\nok 100\n<a xmlns=\"1\"><b xmlns=\"2\"><c xmlns=\"3\"/></b></a>\n<b xmlns=\"2\"><c xmlns=\"3\"/></b>\n<c xmlns=\"3\"/>\n<a/>\nok 0\n\nok 59\n<r><a xmlns=\"1\"><b xmlns=\"2\"><c xmlns=\"3\"/></b></a><a/></r>\n",
        ),
        (
            "CREATE DB d <r xmlns:p=\"1\"><p:a><p:b xmlns:p=\"2\" p:k=\"\"/></p:a><p:c p:k=\"\"/></r>\nXQUERY /\nXQUERY //*/*\nCREATE DB e <r xmlns:p=\"1\"><p:a><p:b xmlns:p=\"2\" p:k=\"\"/></p:a><p:c p:k=\"\"/></r>\nXQUERY /\n",
            "ok 0\n\nok 68\n<r xmlns:p=\"1\"><p:a><p:b xmlns:p=\"2\" p:k=\"\"/></p:a><p:c p:k=\"\"/></r>\nok 100\n<p:a xmlns:p=\"1\"><p:b xmlns:p=\"2\" p:k=\"\"/></p:a>\n<p:b xmlns:p=\"2\" p:k=\"\"/>\n<p:c xmlns:p=\"1\" p:k=\"\"/>\nok 0\n\nok 68\n<r xmlns:p=\"1\"><p:a><p:b xmlns:p=\"2\" p:k=\"\"/></p:a><p:c p:k=\"\"/></r>\n",
        ),
        (
            "CREATE DB d <r xmlns:é=\"ü\"><é:a é:k=\"ö\"/></r>\nXQUERY /\nXQUERY //*/*\nCREATE DB e <r xmlns:é=\"ü\"><é:a é:k=\"ö\"/></r>\nXQUERY /\n",
            "ok 0\n\nok 38\n<r xmlns:é=\"ü\"><é:a é:k=\"ö\"/></r>\nok 31\n<é:a xmlns:é=\"ü\" é:k=\"ö\"/>\nok 0\n\nok 38\n<r xmlns:é=\"ü\"><é:a é:k=\"ö\"/></r>\n",
        ),
        (
            "CREATE DB d <r xmlns=\"u\"><s xmlns:xsi=\"w\" xsi:type=\"t\"><xsi:t/></s></r>\nXQUERY /\nXQUERY //*/*\nCREATE DB e <r xmlns=\"u\"><s xmlns:xsi=\"w\" xsi:type=\"t\"><xsi:t/></s></r>\nXQUERY /\n",
            "ok 0\n\nok 59\n<r xmlns=\"u\"><s xmlns:xsi=\"w\" xsi:type=\"t\"><xsi:t/></s></r>\nok 75\n<s xmlns:xsi=\"w\" xmlns=\"u\" xsi:type=\"t\"><xsi:t/></s>\n<xsi:t xmlns:xsi=\"w\"/>\nok 0\n\nok 59\n<r xmlns=\"u\"><s xmlns:xsi=\"w\" xsi:type=\"t\"><xsi:t/></s></r>\n",
        ),
        (
            "CREATE DB d <a xmlns=\"u\"><b xmlns=\"v\" xmlns:p=\"u\"><p:c/><c/></b></a>\nXQUERY /\nXQUERY //*/*\nCREATE DB e <a xmlns=\"u\"><b xmlns=\"v\" xmlns:p=\"u\"><p:c/><c/></b></a>\nXQUERY /\n",
            "ok 0\n\nok 56\n<a xmlns=\"u\"><b xmlns=\"v\" xmlns:p=\"u\"><p:c/><c/></b></a>\nok 73\n<b xmlns=\"v\" xmlns:p=\"u\"><p:c/><c/></b>\n<p:c xmlns:p=\"u\"/>\n<c xmlns=\"v\"/>\nok 0\n\nok 56\n<a xmlns=\"u\"><b xmlns=\"v\" xmlns:p=\"u\"><p:c/><c/></b></a>\n",
        ),
    ];
    assert!(rt; are_answered(&rt, &table)?);
    Ok(())
}

#[test]
fn rows_show_declarations(rt: HostRuntime) -> Result<(), Fail> {
    assert!(rt;
        is_answered(
            &rt,
            b"TABLE <a xmlns:p=\"u\"/>\nTABLE <p:a xmlns='' xmlns:p='u&#10;v\\'/>\n",
            b"ok 48\n0 0 2 1 0 doc table\n1 1 1 1 1 elem a xmlns:p=\"u\"\nok 72\n0 0 2 1 0 doc table\n1 1 1 1 1 elem {u\\nv\\\\}p:a xmlns=\"\" xmlns:p=\"u\\nv\\\\\"\n",
            0,
        )?
    );
    Ok(())
}

// Files of these names and bytes, whose calls of these numbers fail.
fn files(rt: &HostRuntime, name: &str, bytes: &[u8], fails: &[u64]) -> Result<MemFiles, Fail> {
    let entry = FileEntry {
        name: String::from_str(rt.alloc(), name)?,
        bytes: bytes.to_vec(rt.alloc())?,
    };
    Ok(MemFiles::new(rt.alloc(), vec![in rt.alloc(); entry]?, fails)?)
}

// What a session with these files writes.
fn written(rt: &HostRuntime, script: &[u8], files: &mut MemFiles) -> Result<Vec<u8>, Fail> {
    let words: Vec<String> = Vec::new(rt.alloc());
    let mut source = MemSource::new(rt.alloc(), script, 4096, &[])?;
    let mut sink = MemSink::new(rt.alloc(), 1000, 4096, &[])?;
    let mut kernel = Kernel::new(rt.alloc());
    let mut meter = Meter::new();
    run(
        rt.alloc(),
        &words,
        &mut source,
        &mut sink,
        files,
        &mut kernel,
        &mut meter,
    );
    Ok(sink.bytes().to_vec(rt.alloc())?)
}

#[test]
fn files_are_read_and_written(rt: HostRuntime) -> Result<(), Fail> {
    let mut files = files(
        &rt,
        "in/f.xml",
        b"<?xml version=\"1.0\"?>\r\n<a>\r\n</a>",
        &[],
    )?;
    let output = written(
        &rt,
        b"CREATE DB d in/f.xml\nEXPORT f.xml g.xml\nEXPORT q.xml g.xml\nCREATE DB x no.xml\nLIST\n",
        &mut files,
    )?;
    assert_eq!(rt;
        output.as_slice(),
        b"ok 0\n\nok 0\n\nerr XKDB0004\nerr XKFI0001\nok 5\nd 1 3\n".as_slice()
    );
    assert_eq!(rt; files.get("g.xml"), Some(b"<a>\n</a>".as_slice()));
    Ok(())
}

#[test]
fn faults_of_files_change_no_database(rt: HostRuntime) -> Result<(), Fail> {
    let mut files = files(&rt, "f.xml", b"<b/>", &[1, 3])?;
    let output = written(
        &rt,
        b"CREATE DB d f.xml\nCREATE DB d f.xml\nEXPORT f.xml g.xml\nEXPORT f.xml g.xml\nEXPORT f.xml\nEXPORT /f.xml g.xml\nLIST\n",
        &mut files,
    )?;
    assert_eq!(rt;
        output.as_slice(),
        b"err XKFI0002\nok 0\n\nerr XKFI0002\nok 0\n\nerr XKCM0001\nerr XKCM0001\nok 5\nd 1 2\n".as_slice()
    );
    assert_eq!(rt; files.get("g.xml"), Some(b"<b/>".as_slice()));
    Ok(())
}

#[test]
fn kernel_of_a_database(rt: HostRuntime) -> Result<(), Fail> {
    let kernel = Kernel::of(Vec::new(rt.alloc()), None);
    assert_eq!(rt; kernel.open(), None);
    assert_eq!(rt; kernel.databases().len(), 0);
    Ok(())
}

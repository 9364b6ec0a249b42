use super::*;
use std::test::Fail;
use tree_model::{Refusal, code_text};

fn text_of(refusal: Refusal) -> &'static str {
    match refusal {
        Refusal::Code(code) => code_text(code),
        Refusal::NoMemory => "no memory",
    }
}

// What a line is read as, in a word or two, or the code of its refusal.
fn kind_of(line: &[u8]) -> &'static str {
    match read_command(without_return(line)) {
        Ok(Command::Table(Input::Text(_))) => "table of a text",
        Ok(Command::Table(Input::File(_))) => "table of a file",
        Ok(Command::CreateDb { name: _, document }) => match document {
            None => "new",
            Some(DocumentInput::Text(_)) => "new with a text",
            Some(DocumentInput::File(_)) => "new with a file",
        },
        Ok(Command::InfoStorage(None)) => "all rows",
        Ok(Command::InfoStorage(Some(_))) => "some rows",
        Ok(Command::List) => "list",
        Ok(Command::Query(_)) => "query",
        Ok(Command::Export { path: _, file: _ }) => "export",
        Ok(Command::Exit) => "exit",
        Ok(Command::NotBuilt) => "not built",
        Err(refusal) => text_of(refusal),
    }
}

// Whether each line of a table is read so.
fn are_read(table: &[(&str, &str)]) -> bool {
    table
        .iter()
        .all(|(line, kind)| kind_of(line.as_bytes()) == *kind)
}

#[test]
fn forms_are_read(rt: HostRuntime) -> Result<(), Fail> {
    let table = [
        ("TABLE <a/>", "table of a text"),
        ("TABLE in/f!", "table of a file"),
        ("CREATE DB d", "new"),
        ("CREATE DB a.b <a/> <b/>", "new with a text"),
        ("CREATE DB d in/f.xml", "new with a file"),
        ("INFO STORAGE", "all rows"),
        ("INFO STORAGE 0 999999999", "some rows"),
        ("LIST", "list"),
        ("XQUERY 1 + 1", "query"),
        ("EXPORT a/b.xml out/f!", "export"),
        ("EXIT", "exit"),
    ];
    assert!(rt; are_read(&table));
    Ok(())
}

#[test]
fn later_forms_are_known(rt: HostRuntime) -> Result<(), Fail> {
    let table = [
        ("CHECK d", "not built"),
        ("OPEN d", "not built"),
        ("CLOSE CURSOR 1", "not built"),
        ("DROP DB d", "not built"),
        ("ADD TO p <a/>", "not built"),
        ("DELETE p", "not built"),
        ("REPLACE p <a/>", "not built"),
        ("RENAME p q", "not built"),
        ("EXPLAIN 1", "not built"),
        ("CREATE INDEX TEXT", "not built"),
        ("DROP INDEX TEXT", "not built"),
        ("OPTIMIZE ALL", "not built"),
        ("INFO DB", "not built"),
        ("INFO INDEX PATH", "not built"),
        ("LIST d", "not built"),
    ];
    assert!(rt; are_read(&table));
    Ok(())
}

#[test]
fn blanks_and_letter_case_are_free(rt: HostRuntime) -> Result<(), Fail> {
    let table = [
        (" \tcReAtE\t \tdB  d \t <a/> \r", "new with a text"),
        ("info\tstorage\t1 \t2", "some rows"),
        ("xQuery\té ", "query"),
        ("\texit\r", "exit"),
        ("EXIT\r\r", "XKCM0001"),
        ("EXIT\u{a0}", "XKCM0001"),
        (" \t", "XKCM0001"),
    ];
    assert!(rt; are_read(&table));
    assert!(rt; is_blank_line(b" \t "));
    assert!(rt; is_blank_line(b""));
    assert!(rt; !is_blank_line(b"\t\r "));
    Ok(())
}

#[test]
fn lines_without_a_form_are_refused(rt: HostRuntime) -> Result<(), Fail> {
    let table = [
        ("", "XKCM0001"),
        ("TABLE", "XKCM0001"),
        ("TABLE a b", "XKCM0001"),
        ("CREATE DB", "XKCM0001"),
        ("CREATE DB d f!", "XKCM0001"),
        ("CREATE DB d in/", "XKCM0001"),
        ("CREATEDB d", "XKCM0001"),
        ("INFO STORAGE 1", "XKCM0001"),
        ("INFO STORAGE 1 2 3", "XKCM0001"),
        ("INFO STORAGE 1 1234567890", "XKCM0001"),
        ("XQUERY", "XKCM0001"),
        ("EXPORT a//b f", "XKCM0001"),
        ("EXPORT /a f", "XKCM0001"),
        ("EXPORT a/ f", "XKCM0001"),
        ("EXPORT a", "XKCM0001"),
        ("EXIT x", "XKCM0001"),
        ("TABLE\u{feff}", "XKCM0001"),
    ];
    assert!(rt; are_read(&table));
    assert_eq!(rt; kind_of(b"TABLE <a>\xff</a>"), "XKCM0001");
    Ok(())
}

// Tables of texts with their first fault, and what is answered for them.
use crate::good_texts::GOOD;
use crate::read_query;
use crate::texts::{FAULTS, NO_QUERIES};
use query_syntax::parse;
use query_terms::{Query, SyntaxFault};
use static_rules::check;
use std::alloc::Global;
use std::process::Abort;
use std::rt::HostRuntime;
use std::test::Fail;
use tree_model::{Refusal, code_text};

fn refused_as(refusal: Refusal) -> &'static str {
    match refusal {
        Refusal::Code(code) => code_text(code),
        Refusal::NoMemory => "no memory",
    }
}

fn first_fault(alloc: Global, query: Query) -> &'static str {
    let refusal = match check(alloc, query) {
        Ok(_) => return "ok",
        Err(refusal) => refusal,
    };
    refused_as(refusal)
}

fn outcome(alloc: Global, text: &str) -> &'static str {
    let query = match parse(alloc, text) {
        Ok(query) => query,
        Err(SyntaxFault::NoReading) => return "XPST0003",
        Err(SyntaxFault::TooDeep) => return "XKLM0004",
        Err(SyntaxFault::NoMemory) => return "no memory",
    };
    first_fault(alloc, query)
}

fn asked(alloc: Global, text: &str) -> &'static str {
    let refusal = match read_query(alloc, text) {
        Ok(_) => return "ok",
        Err(refusal) => refusal,
    };
    refused_as(refusal)
}

// Whether each text has this outcome.
fn all_have(alloc: Global, texts: &[&'static str], wanted: &str) -> bool {
    for text in texts {
        if outcome(alloc, text) != wanted {
            return false;
        }
    }
    true
}

fn each_has(alloc: Global, texts: &[(&'static str, &'static str)]) -> bool {
    for entry in texts {
        let (text, wanted) = *entry;
        if outcome(alloc, text) != wanted {
            return false;
        }
    }
    true
}

#[test]
fn texts_without_a_reading(rt: HostRuntime) -> Result<(), Fail> {
    assert!(rt; all_have(rt.alloc(), &NO_QUERIES, "XPST0003"));
    Ok(())
}

#[test]
fn queries_without_a_fault(rt: HostRuntime) -> Result<(), Fail> {
    assert!(rt; all_have(rt.alloc(), &GOOD, "ok"));
    Ok(())
}

#[test]
fn queries_with_their_first_fault(rt: HostRuntime) -> Result<(), Fail> {
    assert!(rt; each_has(rt.alloc(), &FAULTS));
    Ok(())
}

fn is_update(alloc: Global, text: &str) -> Option<bool> {
    let query = match parse(alloc, text) {
        Ok(query) => query,
        Err(_) => return None,
    };
    match check(alloc, query) {
        Ok(checked) => Some(checked.is_updating()),
        Err(_) => None,
    }
}

#[test]
fn some_queries_update(rt: HostRuntime) -> Result<(), Fail> {
    let alloc = rt.alloc();
    assert_eq!(rt; is_update(alloc, "7"), Some(false));
    assert_eq!(rt;
        is_update(alloc, "if (1) then delete node /a else ()"),
        Some(true)
    );
    Ok(())
}

#[test]
fn queries_are_paths_or_not_valued_yet(rt: HostRuntime) -> Result<(), Fail> {
    let alloc = rt.alloc();
    assert_eq!(rt; asked(alloc, "/a//b/@c"), "ok");
    assert_eq!(rt; asked(alloc, "/a[1]"), "XKCM0002");
    assert_eq!(rt; asked(alloc, "$x"), "XKCM0002");
    assert_eq!(rt; asked(alloc, "/a["), "XPST0003");
    assert_eq!(rt; asked(alloc, "/processing-instruction('&#0;')"), "XQST0090");
    Ok(())
}

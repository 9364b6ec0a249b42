// Strings with references to no character, and comments however deep.
use crate::{QuerySource, comment_ends};
use std::alloc::Global;
use std::process::Abort;
use std::rt::HostRuntime;
use std::test::Fail;

fn source<'a>(query: &'a str, comment_ends: &'a [usize]) -> QuerySource<'a> {
    QuerySource {
        query,
        comment_ends,
        room: 200,
    }
}

#[test]
fn a_bad_reference_keeps_its_place(rt: HostRuntime) -> Result<(), Fail> {
    let alloc = rt.alloc();
    let query = "'a&#0;&lt;&#1;'";
    let source = source(query, &[]);
    let Some((found, after)) = source.string(query) else {
        return Err(Fail::from("no string"));
    };
    let literal = source.store_string(alloc, found)?;
    assert_eq!(rt; literal.text.as_str(), "a\u{fffd}<\u{fffd}");
    assert_eq!(rt; literal.bad_reference, Some(2));
    assert_eq!(rt; after, "");
    Ok(())
}

// A text so many times.
fn repeated(alloc: Global, text: &str, times: usize) -> Result<String, Fail> {
    let mut out = String::new(alloc);
    for _ in 0..times {
        out.push_str(text)?;
    }
    Ok(out)
}

#[test]
fn deep_comments_end(rt: HostRuntime) -> Result<(), Fail> {
    let alloc = rt.alloc();
    let opened = repeated(alloc, "(:", 100_000)?;
    let closed = repeated(alloc, ":)", 100_000)?;
    let nested = format!(in alloc; "{opened}{closed}a")?;
    let ends = comment_ends(alloc, nested.as_str())?;
    let source = source(nested.as_str(), ends.as_slice());
    assert_eq!(rt; source.blanks(nested.as_str()), "a");
    Ok(())
}

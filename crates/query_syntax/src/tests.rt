// How deep nests may stand, and long texts.
use crate::parse;
use query_terms::SyntaxFault;
use std::alloc::Global;
use std::process::Abort;
use std::rt::HostRuntime;
use std::test::Fail;

// What a nest begins with, what stands innermost, what it ends with, and how many of it are not too deep.
const NESTS: [(&str, &str, &str, usize); 28] = [
    ("(", "1", ")", 199),
    ("<a>", "", "</a>", 198),
    ("<a>", "x", "</a>", 198),
    ("<a>{", "1", "}</a>", 99),
    ("a[", "1", "]", 199),
    ("f(", "1", ")", 199),
    ("f(", "", ")", 198),
    ("element a {", "1", "}", 199),
    ("element {", "1", "} {}", 198),
    ("text {", "1", "}", 199),
    ("if (1) then ", "1", " else 1", 199),
    ("if (", "1", ") then 1 else 1", 199),
    ("for $x in ", "1", " return 1", 199),
    ("let $x := ", "1", " return 1", 199),
    ("for $x in 1 where ", "1", " return 1", 199),
    ("for $x in 1 order by ", "1", " return 1", 199),
    ("for $x in 1 return ", "1", "", 199),
    ("some $x in ", "1", " satisfies 1", 199),
    ("every $x in 1 satisfies ", "1", "", 199),
    ("insert node ", "1", " into a", 198),
    ("insert node 1 into ", "a", "", 198),
    ("delete node ", "a", "", 198),
    ("replace node a with ", "1", "", 198),
    ("rename node a as ", "1", "", 198),
    ("-(", "1", ")", 199),
    ("1 + (", "1", ")", 199),
    ("processing-instruction {", "'a'", "} {}", 198),
    ("/a[", "b", "]", 198),
];

fn outcome(alloc: Global, text: &str) -> &'static str {
    match parse(alloc, text) {
        Ok(_) => "ok",
        Err(SyntaxFault::NoReading) => "XPST0003",
        Err(SyntaxFault::TooDeep) => "XKLM0004",
        Err(SyntaxFault::NoMemory) => "no memory",
    }
}

// A text so many times.
fn repeated(alloc: Global, text: &str, times: usize) -> Result<String, Fail> {
    let mut out = String::new(alloc);
    for _ in 0..times {
        out.push_str(text)?;
    }
    Ok(out)
}

fn nested(
    alloc: Global,
    begin: &str,
    inner: &str,
    end: &str,
    times: usize,
) -> Result<String, Fail> {
    let mut out = repeated(alloc, begin, times)?;
    out.push_str(inner)?;
    let ends = repeated(alloc, end, times)?;
    out.push_str(ends.as_str())?;
    Ok(out)
}

fn nest_ends(
    alloc: Global,
    nest: &(&'static str, &'static str, &'static str, usize),
) -> Result<bool, Fail> {
    let (begin, inner, end, times) = *nest;
    let deepest = nested(alloc, begin, inner, end, times)?;
    let too_deep = nested(alloc, begin, inner, end, times.saturating_add(1))?;
    Ok(outcome(alloc, deepest.as_str()) == "ok" && outcome(alloc, too_deep.as_str()) == "XKLM0004")
}

#[test]
fn each_nest_has_its_limit(rt: HostRuntime) -> Result<(), Fail> {
    let alloc = rt.alloc();
    for nest in &NESTS {
        if !nest_ends(alloc, nest)? {
            return Err(Fail::from("a nest ends elsewhere"));
        }
    }
    Ok(())
}

#[test]
fn an_element_is_tried_at_the_end_too(rt: HostRuntime) -> Result<(), Fail> {
    let alloc = rt.alloc();
    let open = repeated(alloc, "<a>", 198)?;
    assert_eq!(rt; outcome(alloc, open.as_str()), "XPST0003");
    let deeper = repeated(alloc, "<a>", 199)?;
    assert_eq!(rt; outcome(alloc, deeper.as_str()), "XKLM0004");
    Ok(())
}

#[test]
fn deep_comments_end(rt: HostRuntime) -> Result<(), Fail> {
    let alloc = rt.alloc();
    let text = nested(alloc, "(:", "", ":)", 100_000)?;
    let closed = format!(in alloc; "{text}1")?;
    assert_eq!(rt; outcome(alloc, closed.as_str()), "ok");
    let open = repeated(alloc, "(:", 100_000)?;
    assert_eq!(rt; outcome(alloc, open.as_str()), "XPST0003");
    Ok(())
}

#[test]
fn long_queries_end(rt: HostRuntime) -> Result<(), Fail> {
    let alloc = rt.alloc();
    let digits = repeated(alloc, "1", 131_072)?;
    assert_eq!(rt; outcome(alloc, digits.as_str()), "ok");
    let parentheses = repeated(alloc, "(", 131_072)?;
    assert_eq!(rt; outcome(alloc, parentheses.as_str()), "XKLM0004");
    let commas = repeated(alloc, ",", 131_072)?;
    assert_eq!(rt; outcome(alloc, commas.as_str()), "XPST0003");
    let items = repeated(alloc, "1,", 65_535)?;
    let list = format!(in alloc; "{items}1")?;
    assert_eq!(rt; outcome(alloc, list.as_str()), "ok");
    let letters = repeated(alloc, "a", 131_070)?;
    let string = format!(in alloc; "\"{letters}\"")?;
    assert_eq!(rt; outcome(alloc, string.as_str()), "ok");
    Ok(())
}

use super::*;
use std::alloc::Global;
use std::test::Fail;
use tree_model::{Name, NoMemory, Text};

// A name whose three parts are `uri`, `prefix` and `a`.
fn name(alloc: Global, uri: &str, prefix: &str) -> Result<Name, NoMemory> {
    Ok(Name {
        uri: Text::of(alloc, uri)?,
        prefix: Text::of(alloc, prefix)?,
        local: Text::of(alloc, "a")?,
    })
}

// The number of such a name.
fn number(pool: &mut NamePool, alloc: Global, uri: &str, prefix: &str) -> Result<u64, NoMemory> {
    let name = name(alloc, uri, prefix)?;
    pool.intern(&name)
}

// The prefix of the name with a number.
fn prefix_of(pool: &NamePool, n: u64) -> &str {
    if n < pool.len() {
        pool.name(n).prefix.as_str()
    } else {
        "?"
    }
}

#[test]
fn names_by_number(rt: HostRuntime) -> Result<(), Fail> {
    let mut pool = NamePool::new(rt.alloc());
    assert_eq!(rt; number(&mut pool, rt.alloc(), "", "")?, 0);
    assert_eq!(rt; number(&mut pool, rt.alloc(), "u", "p")?, 1);
    assert_eq!(rt; number(&mut pool, rt.alloc(), "u", "q")?, 2);
    assert_eq!(rt; number(&mut pool, rt.alloc(), "u", "p")?, 1);
    assert_eq!(rt; prefix_of(&pool, 1), "p");
    let last = name(rt.alloc(), "u", "q")?;
    assert_eq!(rt; pool.find(&last), Some(2));
    Ok(())
}

#[test]
fn back_to_a_mark(rt: HostRuntime) -> Result<(), Fail> {
    let mut pool = NamePool::new(rt.alloc());
    assert_eq!(rt; pool.intern_parts("", "", "a")?, 0);
    pool.back_to(0);
    assert!(rt; pool.is_empty());
    assert_eq!(rt; pool.mark(), 0);
    Ok(())
}

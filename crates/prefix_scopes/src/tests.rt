use super::*;
use std::alloc::{AllocError, Global};
use std::test::Fail;

// The bindings of a text: each letter is a prefix, whose number is its place.
fn bind_letters<'a>(alloc: Global, text: &'a [u8]) -> Result<PrefixScopes<'a>, AllocError> {
    let mut scopes = PrefixScopes::new(alloc);
    for (number, letter) in text.chunks(1).enumerate() {
        scopes.bind(letter, number)?;
    }
    Ok(scopes)
}

// What the letters of a text are found as.
fn find_letters(
    alloc: Global,
    scopes: &PrefixScopes<'_>,
    text: &[u8],
) -> Result<Vec<Option<usize>>, AllocError> {
    let mut found = Vec::new(alloc);
    for letter in text.chunks(1) {
        found.push(scopes.find(letter))?;
    }
    Ok(found)
}

// Goes back to so many bindings, unless there are fewer.
fn shorten(scopes: &mut PrefixScopes<'_>, len: usize) {
    if len <= scopes.len() {
        scopes.back_to(len);
    }
}

#[test]
fn finds_the_innermost(rt: HostRuntime) -> Result<(), Fail> {
    let mut scopes = bind_letters(rt.alloc(), b"abcabcdefghijkaxk".as_slice())?;
    for (len, want) in [
        (
            17,
            [Some(14), Some(4), Some(12), Some(16), Some(15), None].as_slice(),
        ),
        (
            14,
            [Some(3), Some(4), Some(12), Some(13), None, None].as_slice(),
        ),
        (
            13,
            [Some(3), Some(4), Some(12), None, None, None].as_slice(),
        ),
        (12, [Some(3), Some(4), None, None, None, None].as_slice()),
        (4, [Some(3), Some(1), None, None, None, None].as_slice()),
        (1, [Some(0), None, None, None, None, None].as_slice()),
        (0, [None, None, None, None, None, None].as_slice()),
    ] {
        shorten(&mut scopes, len);
        assert_eq!(rt; scopes.len(), len);
        assert_eq!(rt;
            find_letters(rt.alloc(), &scopes, b"abjkxy".as_slice())?.as_slice(),
            want,
            "at {len}"
        );
    }
    Ok(())
}

#[test]
fn takes_prefixes_up_again(rt: HostRuntime) -> Result<(), Fail> {
    let mut scopes = bind_letters(rt.alloc(), b"abcdefghijkl".as_slice())?;
    shorten(&mut scopes, 9);
    scopes.bind(b"j".as_slice(), 40)?;
    scopes.bind(b"a".as_slice(), 41)?;
    let found = find_letters(rt.alloc(), &scopes, b"ajk".as_slice())?;
    assert_eq!(rt; found.as_slice(), [Some(41), Some(40), None].as_slice());
    shorten(&mut scopes, 10);
    let found = find_letters(rt.alloc(), &scopes, b"ajk".as_slice())?;
    assert_eq!(rt; found.as_slice(), [Some(0), Some(40), None].as_slice());
    Ok(())
}

// Prefixes of which no two are alike.
fn many_prefixes(alloc: Global, count: u32) -> Result<Vec<[u8; 4]>, AllocError> {
    let mut prefixes = Vec::new(alloc);
    for number in 0..count {
        prefixes.push(number.to_be_bytes())?;
    }
    Ok(prefixes)
}

// Binds each prefix inside those before it, and says whether the first one is found each time, and an unbound one never.
fn nest<'a>(scopes: &mut PrefixScopes<'a>, prefixes: &'a [[u8; 4]]) -> Result<bool, AllocError> {
    let first = 0u32.to_be_bytes();
    let mut is_found = true;
    for (number, prefix) in prefixes.iter().enumerate() {
        scopes.bind(prefix.as_slice(), number)?;
        is_found &= scopes.find(first.as_slice()) == Some(0);
        is_found &= scopes.find(b"".as_slice()).is_none();
    }
    Ok(is_found)
}

// Ends at once only where a search takes no longer in a deep scope.
#[test]
fn nests_deep(rt: HostRuntime) -> Result<(), Fail> {
    let prefixes = many_prefixes(rt.alloc(), 200_000)?;
    let mut scopes = PrefixScopes::new(rt.alloc());
    assert!(rt; nest(&mut scopes, prefixes.as_slice())?);
    assert_eq!(rt; scopes.find(7_000u32.to_be_bytes().as_slice()), Some(7_000));
    shorten(&mut scopes, 7_000);
    assert_eq!(rt; scopes.find(7_000u32.to_be_bytes().as_slice()), None);
    assert_eq!(rt; scopes.find(6_999u32.to_be_bytes().as_slice()), Some(6_999));
    Ok(())
}

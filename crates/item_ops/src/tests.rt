ghost use Rattle.std.specs.Prelude.{◌≡◌};

use super::*;
use std::alloc::Global;
use std::cmp::Ordering;
use std::test::Fail;
use tree_model::{ArithOp, Code, CompOp, Item, NoMemory, NodeRef, Num, Text, TreeRef};

// What an item is made of. Numbers are whole.
#[derive(Clone, Copy, Debug)]
enum Of {
    Node,
    Str(&'static str),
    Untyped(&'static str),
    Number(i32),
    Bool(bool),
}

fn whole(n: i32) -> Num {
    Num(i64::from(n) * 1_000_000)
}

fn item(alloc: Global, of: Of) -> Result<Item, NoMemory> {
    Ok(match of {
        Of::Node => Item::Node(NodeRef {
            tree: TreeRef::Stored(0),
            id: 0,
        }),
        Of::Str(text) => Item::Str(Text::of(alloc, text)?),
        Of::Untyped(text) => Item::Untyped(Text::of(alloc, text)?),
        Of::Number(n) => Item::Number(whole(n)),
        Of::Bool(value) => Item::Bool(value),
    })
}

fn items(alloc: Global, all: &[Of]) -> Result<Vec<Item>, NoMemory> {
    let mut items = Vec::new(alloc);
    for of in all {
        items.push(item(alloc, *of)?)?;
    }
    Ok(items)
}

#[test]
fn pairs_by_type(rt: HostRuntime) -> Result<(), Fail> {
    let table = [
        (
            Of::Untyped("n/a"),
            CompOp::Gt,
            Of::Number(1),
            Err(Code::FORG0001),
        ),
        (Of::Untyped(" 10 "), CompOp::Gt, Of::Number(9), Ok(true)),
        (Of::Untyped("10"), CompOp::Gt, Of::Untyped("9"), Ok(false)),
        (Of::Untyped("10"), CompOp::Gt, Of::Str("9"), Ok(false)),
        (Of::Str("9"), CompOp::Ge, Of::Untyped("10"), Ok(true)),
        (Of::Number(9), CompOp::Lt, Of::Untyped("10"), Ok(true)),
        (Of::Number(1), CompOp::Eq, Of::Untyped("1.0"), Ok(true)),
        (Of::Untyped("1.0"), CompOp::Eq, Of::Untyped("1"), Ok(false)),
        (
            Of::Untyped("1000000000000"),
            CompOp::Ne,
            Of::Number(1),
            Err(Code::FOAR0002),
        ),
        (
            Of::Number(1),
            CompOp::Le,
            Of::Untyped(""),
            Err(Code::FORG0001),
        ),
        (Of::Untyped("true"), CompOp::Eq, Of::Bool(true), Ok(true)),
        (Of::Untyped("1"), CompOp::Eq, Of::Bool(true), Ok(true)),
        (Of::Untyped("0"), CompOp::Ne, Of::Bool(false), Ok(false)),
        (
            Of::Untyped(" false\n"),
            CompOp::Lt,
            Of::Bool(true),
            Ok(true),
        ),
        (
            Of::Untyped("TRUE"),
            CompOp::Eq,
            Of::Bool(true),
            Err(Code::FORG0001),
        ),
        (
            Of::Untyped(""),
            CompOp::Eq,
            Of::Bool(false),
            Err(Code::FORG0001),
        ),
        (
            Of::Bool(false),
            CompOp::Ge,
            Of::Untyped("2"),
            Err(Code::FORG0001),
        ),
        (Of::Bool(true), CompOp::Ge, Of::Untyped("\t1"), Ok(true)),
        (Of::Bool(false), CompOp::Lt, Of::Bool(true), Ok(true)),
        (Of::Bool(true), CompOp::Le, Of::Bool(false), Ok(false)),
        (
            Of::Number(1),
            CompOp::Eq,
            Of::Bool(true),
            Err(Code::XPTY0004),
        ),
        (
            Of::Str("true"),
            CompOp::Eq,
            Of::Bool(true),
            Err(Code::XPTY0004),
        ),
        (
            Of::Str("10"),
            CompOp::Lt,
            Of::Number(9),
            Err(Code::XPTY0004),
        ),
        (Of::Number(1), CompOp::Ne, Of::Str("1"), Err(Code::XPTY0004)),
        (Of::Str("a"), CompOp::Lt, Of::Str("b"), Ok(true)),
        (Of::Str("Z"), CompOp::Lt, Of::Str("a"), Ok(true)),
        (Of::Str(""), CompOp::Lt, Of::Str("a"), Ok(true)),
        (Of::Str("\u{e9}"), CompOp::Gt, Of::Str("z"), Ok(true)),
        (Of::Str("a"), CompOp::Ne, Of::Str("a "), Ok(true)),
        (Of::Number(2), CompOp::Ne, Of::Number(2), Ok(false)),
        (Of::Number(-1), CompOp::Le, Of::Number(0), Ok(true)),
        (Of::Node, CompOp::Eq, Of::Node, Err(Code::XPTY0004)),
        (Of::Untyped("a"), CompOp::Eq, Of::Node, Err(Code::XPTY0004)),
        (Of::Node, CompOp::Ne, Of::Untyped("a"), Err(Code::XPTY0004)),
    ];
    for (left, op, right, expected) in &table {
        let a = items(rt.alloc(), &[*left])?;
        let b = items(rt.alloc(), &[*right])?;
        assert_eq!(rt;
            general(*op, &a, &b),
            *expected,
            "{left:?} {op:?} {right:?}"
        );
    }
    Ok(())
}

#[test]
fn pairs_of_sequences(rt: HostRuntime) -> Result<(), Fail> {
    let left = items(rt.alloc(), &[Of::Untyped("1"), Of::Untyped("x")])?;
    let none = items(rt.alloc(), &[])?;
    let mixed = [
        Of::Number(2),
        Of::Bool(false),
        Of::Str("x"),
        Of::Number(3),
        Of::Bool(true),
        Of::Node,
    ];
    let right = items(rt.alloc(), &mixed)?;
    let numbers = items(rt.alloc(), &[Of::Number(2), Of::Number(3)])?;
    let words = items(rt.alloc(), &[Of::Str("2"), Of::Str("x")])?;
    assert_eq!(rt;
        general(CompOp::Eq, &left, &right),
        Ok(true),
        "the first item is true as a boolean"
    );
    assert_eq!(rt;
        general(CompOp::Eq, &left, &numbers),
        Err(Code::FORG0001),
        "the second item is no number"
    );
    assert_eq!(rt;
        general(CompOp::Lt, &left, &numbers),
        Ok(true),
        "the first pair holds"
    );
    assert_eq!(rt;
        general(CompOp::Eq, &left, &words),
        Ok(true),
        "the last pair holds"
    );
    assert_eq!(rt; general(CompOp::Eq, &none, &right), Ok(false));
    assert_eq!(rt; general(CompOp::Eq, &left, &none), Ok(false));
    Ok(())
}

#[test]
fn truth_of_sequences(rt: HostRuntime) -> Result<(), Fail> {
    let table = [
        ([Of::Node, Of::Number(0)], Ok(true), Ok(true)),
        ([Of::Number(0), Of::Node], Ok(false), Err(Code::FORG0006)),
        (
            [Of::Number(1), Of::Number(2)],
            Ok(true),
            Err(Code::FORG0006),
        ),
        ([Of::Str(""), Of::Str("a")], Ok(false), Err(Code::FORG0006)),
        ([Of::Str("false"), Of::Node], Ok(true), Err(Code::FORG0006)),
        (
            [Of::Untyped("0"), Of::Bool(true)],
            Ok(true),
            Err(Code::FORG0006),
        ),
        (
            [Of::Untyped(""), Of::Bool(true)],
            Ok(false),
            Err(Code::FORG0006),
        ),
        (
            [Of::Bool(false), Of::Bool(true)],
            Ok(false),
            Err(Code::FORG0006),
        ),
    ];
    assert_eq!(rt; truth(&items(rt.alloc(), &[])?), Ok(false));
    for (all, of_first, of_all) in &table {
        let sequence = items(rt.alloc(), all)?;
        let first = items(rt.alloc(), &all[..1])?;
        assert_eq!(rt; truth(&first), *of_first, "{all:?}");
        assert_eq!(rt; truth(&sequence), *of_all, "{all:?}");
    }
    Ok(())
}

#[test]
fn single_items(rt: HostRuntime) -> Result<(), Fail> {
    let none = items(rt.alloc(), &[])?;
    let number = items(rt.alloc(), &[Of::Number(1)])?;
    let untyped = items(rt.alloc(), &[Of::Untyped("1")])?;
    let text = items(rt.alloc(), &[Of::Str("10")])?;
    let two = items(rt.alloc(), &[Of::Number(1), Of::Number(1)])?;
    assert_eq!(rt; single(CompOp::Eq, &none, &two), Ok(None));
    assert_eq!(rt; single(CompOp::Eq, &two, &none), Ok(None));
    assert_eq!(rt; single(CompOp::Eq, &two, &number), Err(Code::XPTY0004));
    assert_eq!(rt; single(CompOp::Eq, &number, &two), Err(Code::XPTY0004));
    assert_eq!(rt;
        single(CompOp::Eq, &untyped, &number),
        Err(Code::XPTY0004),
        "untyped is a string"
    );
    assert_eq!(rt; single(CompOp::Lt, &untyped, &text), Ok(Some(true)));
    assert_eq!(rt; single(CompOp::Ge, &number, &number), Ok(Some(true)));
    Ok(())
}

#[test]
fn arithmetic_of_one_item_each(rt: HostRuntime) -> Result<(), Fail> {
    let table = [
        (Of::Untyped("3"), ArithOp::Add, Of::Number(4), Ok(whole(7))),
        (
            Of::Number(3),
            ArithOp::Sub,
            Of::Untyped(" -4"),
            Ok(whole(7)),
        ),
        (Of::Number(3), ArithOp::Mul, Of::Number(-4), Ok(whole(-12))),
        (
            Of::Number(10),
            ArithOp::Div,
            Of::Number(4),
            Ok(Num(2_500_000)),
        ),
        (Of::Number(-7), ArithOp::Idiv, Of::Number(2), Ok(whole(-3))),
        (Of::Number(-7), ArithOp::Mod, Of::Number(2), Ok(whole(-1))),
        (
            Of::Number(1),
            ArithOp::Mod,
            Of::Number(0),
            Err(Code::FOAR0001),
        ),
        (
            Of::Str("1"),
            ArithOp::Add,
            Of::Number(1),
            Err(Code::XPTY0004),
        ),
        (
            Of::Untyped("x"),
            ArithOp::Add,
            Of::Str("1"),
            Err(Code::FORG0001),
        ),
        (
            Of::Bool(true),
            ArithOp::Add,
            Of::Untyped("x"),
            Err(Code::XPTY0004),
        ),
        (Of::Number(1), ArithOp::Add, Of::Node, Err(Code::XPTY0004)),
        (
            Of::Untyped("1000000000000"),
            ArithOp::Sub,
            Of::Number(1),
            Err(Code::FOAR0002),
        ),
    ];
    for (left, op, right, expected) in &table {
        let a = items(rt.alloc(), &[*left])?;
        let b = items(rt.alloc(), &[*right])?;
        let expected = match expected {
            Ok(number) => Ok(Some(*number)),
            Err(code) => Err(*code),
        };
        assert_eq!(rt;
            arithmetic(*op, &a, &b),
            expected,
            "{left:?} {op:?} {right:?}"
        );
    }
    Ok(())
}

#[test]
fn arithmetic_of_sequences(rt: HostRuntime) -> Result<(), Fail> {
    let none = items(rt.alloc(), &[])?;
    let text = items(rt.alloc(), &[Of::Str("a")])?;
    let untyped = items(rt.alloc(), &[Of::Untyped("n")])?;
    let two = items(rt.alloc(), &[Of::Number(1), Of::Number(1)])?;
    assert_eq!(rt; arithmetic(ArithOp::Add, &none, &text), Ok(None));
    assert_eq!(rt; arithmetic(ArithOp::Div, &two, &none), Ok(None));
    assert_eq!(rt;
        arithmetic(ArithOp::Add, &untyped, &two),
        Err(Code::FORG0001)
    );
    assert_eq!(rt;
        arithmetic(ArithOp::Add, &two, &untyped),
        Err(Code::XPTY0004)
    );
    Ok(())
}

#[test]
fn order_of_one_type(rt: HostRuntime) -> Result<(), Fail> {
    let a = Item::Untyped(Text::of(rt.alloc(), "10")?);
    let b = Item::Str(Text::of(rt.alloc(), "9")?);
    assert_eq!(rt; order(&a, &b), Ordering::Less);
    assert_eq!(rt;
        order(&Item::Number(whole(10)), &Item::Number(whole(9))),
        Ordering::Greater
    );
    assert_eq!(rt;
        order(&Item::Bool(false), &Item::Bool(true)),
        Ordering::Less
    );
    Ok(())
}

use super::*;
use std::alloc::Global;
use std::test::Fail;
use tree_model::{Code, Num};

#[test]
fn texts_of_numbers(rt: HostRuntime) -> Result<(), Fail> {
    for (number, expected) in [
        (0, "0"),
        (1, "0.000001"),
        (-1, "-0.000001"),
        (1_000_000, "1"),
        (-1_500_000, "-1.5"),
        (100_000_000, "100"),
        (10_020_000, "10.02"),
        (999_999_999_999_999_999, "999999999999.999999"),
        (-999_999_999_999_999_999, "-999999999999.999999"),
    ] {
        let text = text(rt.alloc(), Num(number))?;
        assert_eq!(rt; text.as_str(), expected);
    }
    Ok(())
}

#[test]
fn two_thirds(rt: HostRuntime) -> Result<(), Fail> {
    let quotient = div(Num(2_000_000), Num(3_000_000)).map_err(|_| "no quotient")?;
    assert_eq!(rt; text(rt.alloc(), quotient)?.as_str(), "0.666666");
    let mut out = b"x = ".to_vec(rt.alloc())?;
    push_text(quotient, &mut out)?;
    assert_eq!(rt; out.as_slice(), b"x = 0.666666".as_slice());
    Ok(())
}

#[test]
fn read_numbers(rt: HostRuntime) -> Result<(), Fail> {
    for (text, millionths) in [
        ("0", 0),
        ("-0", 0),
        ("1", 1_000_000),
        ("1.", 1_000_000),
        (".5", 500_000),
        ("+.5", 500_000),
        ("-.5", -500_000),
        (" 1 ", 1_000_000),
        ("\t\r\n -1.25\n", -1_250_000),
        ("0.123456", 123_456),
        ("0.1234560000", 123_456),
        ("00000000000000000000000000000000000000001.5", 1_500_000),
        ("999999999999.999999", 999_999_999_999_999_999),
        ("-999999999999.999999", -999_999_999_999_999_999),
    ] {
        assert_eq!(rt; read(text.as_bytes()), Ok(Num(millionths)), "{text}");
    }
    Ok(())
}

#[test]
fn texts_that_are_no_numbers(rt: HostRuntime) -> Result<(), Fail> {
    for text in [
        "",
        " ",
        ".",
        "+",
        "-",
        "-.",
        "--1",
        "+-1",
        "1 2",
        "- 1",
        "1.2.3",
        "1e3",
        "x",
        "0.1234567",
        "1\x0c",
        "99999999999999999999999x",
    ] {
        assert_eq!(rt; read(text.as_bytes()), Err(NumFault::BadText), "{text}");
    }
    for text in [
        "1000000000000",
        "-1000000000000",
        "99999999999999999999999999999999999.0",
    ] {
        assert_eq!(rt; read(text.as_bytes()), Err(NumFault::Range), "{text}");
    }
    Ok(())
}

#[test]
fn results_at_the_edges(rt: HostRuntime) -> Result<(), Fail> {
    let greatest = Num(999_999_999_999_999_999);
    let whole = Num(999_999_999_999_000_000);
    assert_eq!(rt; add(greatest, Num(1)), Err(Code::FOAR0002));
    assert_eq!(rt; add(greatest, Num(0)), Ok(greatest));
    assert_eq!(rt;
        sub(Num(-999_999_999_999_999_999), Num(1)),
        Err(Code::FOAR0002)
    );
    assert_eq!(rt; idiv(whole, Num(1)), Err(Code::FOAR0002));
    assert_eq!(rt; modulo(whole, Num(1)), Ok(Num(0)));
    assert_eq!(rt;
        modulo(Num(-7_500_000), Num(2_000_000)),
        Ok(Num(-1_500_000))
    );
    assert_eq!(rt; mul(Num(-1_500_000), Num(1)), Ok(Num(-1)));
    assert_eq!(rt; idiv(Num(-7_500_000), Num(2_000_000)), Ok(Num(-3_000_000)));
    assert_eq!(rt; div(whole, Num(0)), Err(Code::FOAR0001));
    assert_eq!(rt; idiv(whole, Num(0)), Err(Code::FOAR0001));
    assert_eq!(rt; modulo(whole, Num(0)), Err(Code::FOAR0001));
    Ok(())
}

#[test]
fn rounded_numbers(rt: HostRuntime) -> Result<(), Fail> {
    for (number, expected) in [
        (-500_000, 0),
        (500_000, 1_000_000),
        (-1_500_000, -1_000_000),
        (-1_500_001, -2_000_000),
        (2_499_999, 2_000_000),
    ] {
        assert_eq!(rt; round(Num(number)), Ok(Num(expected)));
    }
    assert_eq!(rt; round(Num(999_999_999_999_500_000)), Err(Code::FOAR0002));
    Ok(())
}

#[test]
fn long_texts(rt: HostRuntime) -> Result<(), Fail> {
    let mut text = vec![in rt.alloc(); b'0'; 1_000_000]?;
    text.push(b'7')?;
    assert_eq!(rt; read(&text), Ok(Num(7_000_000)));
    text.push(b'.')?;
    text.extend_from_slice(&vec![in rt.alloc(); b'0'; 1_000_000]?)?;
    assert_eq!(rt; read(&text), Ok(Num(7_000_000)));
    text.push(b'x')?;
    assert_eq!(rt; read(&text), Err(NumFault::BadText));
    Ok(())
}

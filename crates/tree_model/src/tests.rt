use super::*;
use std::test::Fail;

#[test]
fn texts_and_their_copies(rt: HostRuntime) -> Result<(), Fail> {
    let text = Text::of(rt.alloc(), "ab")?;
    assert_eq!(rt; text.as_str(), "ab");
    assert_eq!(rt; text.copy()?.as_str(), "ab");
    let name = Name {
        uri: Text::of(rt.alloc(), "u")?,
        prefix: Text::of(rt.alloc(), "p")?,
        local: text,
    };
    let copy = name.copy()?;
    assert_eq!(rt; copy.uri.as_str(), "u");
    assert_eq!(rt; copy.prefix.as_str(), "p");
    assert_eq!(rt; copy.local.as_str(), "ab");
    Ok(())
}

#[test]
fn codes_of_queries(rt: HostRuntime) {
    let codes = [
        (Code::XPST0003, "XPST0003"),
        (Code::XPST0008, "XPST0008"),
        (Code::XPST0017, "XPST0017"),
        (Code::XPST0081, "XPST0081"),
        (Code::XPDY0002, "XPDY0002"),
        (Code::XPDY0050, "XPDY0050"),
        (Code::XPTY0004, "XPTY0004"),
        (Code::XPTY0018, "XPTY0018"),
        (Code::XPTY0019, "XPTY0019"),
        (Code::XPTY0020, "XPTY0020"),
        (Code::XQST0022, "XQST0022"),
        (Code::XQST0033, "XQST0033"),
        (Code::XQST0040, "XQST0040"),
        (Code::XQST0066, "XQST0066"),
        (Code::XQST0070, "XQST0070"),
        (Code::XQST0071, "XQST0071"),
        (Code::XQST0085, "XQST0085"),
        (Code::XQST0089, "XQST0089"),
        (Code::XQST0090, "XQST0090"),
        (Code::XQTY0024, "XQTY0024"),
        (Code::XQDY0025, "XQDY0025"),
        (Code::XQDY0026, "XQDY0026"),
        (Code::XQDY0041, "XQDY0041"),
        (Code::XQDY0044, "XQDY0044"),
        (Code::XQDY0064, "XQDY0064"),
        (Code::XQDY0072, "XQDY0072"),
        (Code::XQDY0074, "XQDY0074"),
        (Code::FORG0001, "FORG0001"),
        (Code::FORG0006, "FORG0006"),
        (Code::FOAR0001, "FOAR0001"),
        (Code::FOAR0002, "FOAR0002"),
        (Code::FODC0002, "FODC0002"),
    ];
    for (code, text) in codes {
        assert_eq!(rt; code_text(code), text);
    }
}

#[test]
fn codes_of_updates(rt: HostRuntime) {
    let codes = [
        (Code::XUST0001, "XUST0001"),
        (Code::XUST0002, "XUST0002"),
        (Code::XUTY0004, "XUTY0004"),
        (Code::XUTY0005, "XUTY0005"),
        (Code::XUTY0006, "XUTY0006"),
        (Code::XUTY0007, "XUTY0007"),
        (Code::XUTY0008, "XUTY0008"),
        (Code::XUTY0010, "XUTY0010"),
        (Code::XUTY0011, "XUTY0011"),
        (Code::XUTY0012, "XUTY0012"),
        (Code::XUTY0013, "XUTY0013"),
        (Code::XUTY0022, "XUTY0022"),
        (Code::XUDY0009, "XUDY0009"),
        (Code::XUDY0014, "XUDY0014"),
        (Code::XUDY0015, "XUDY0015"),
        (Code::XUDY0016, "XUDY0016"),
        (Code::XUDY0017, "XUDY0017"),
        (Code::XUDY0021, "XUDY0021"),
        (Code::XUDY0023, "XUDY0023"),
        (Code::XUDY0024, "XUDY0024"),
        (Code::XUDY0025, "XUDY0025"),
        (Code::XUDY0027, "XUDY0027"),
        (Code::XUDY0029, "XUDY0029"),
        (Code::XUDY0030, "XUDY0030"),
    ];
    for (code, text) in codes {
        assert_eq!(rt; code_text(code), text);
    }
}

#[test]
fn codes_of_the_kernel(rt: HostRuntime) {
    let codes = [
        (Code::XKCM0001, "XKCM0001"),
        (Code::XKCM0002, "XKCM0002"),
        (Code::XKDB0001, "XKDB0001"),
        (Code::XKDB0002, "XKDB0002"),
        (Code::XKDB0003, "XKDB0003"),
        (Code::XKDB0004, "XKDB0004"),
        (Code::XKDB0005, "XKDB0005"),
        (Code::XKDB0006, "XKDB0006"),
        (Code::XKFI0001, "XKFI0001"),
        (Code::XKFI0002, "XKFI0002"),
        (Code::XKXM0001, "XKXM0001"),
        (Code::XKXM0002, "XKXM0002"),
        (Code::XKXM0003, "XKXM0003"),
        (Code::XKXM0004, "XKXM0004"),
        (Code::XKXM0005, "XKXM0005"),
        (Code::XKXM0006, "XKXM0006"),
        (Code::XKLM0001, "XKLM0001"),
        (Code::XKLM0002, "XKLM0002"),
        (Code::XKLM0003, "XKLM0003"),
        (Code::XKLM0004, "XKLM0004"),
        (Code::XKLM0005, "XKLM0005"),
        (Code::XKLM0006, "XKLM0006"),
        (Code::XKLM0007, "XKLM0007"),
        (Code::XKUP0001, "XKUP0001"),
        (Code::XKCN0001, "XKCN0001"),
    ];
    for (code, text) in codes {
        assert_eq!(rt; code_text(code), text);
    }
}

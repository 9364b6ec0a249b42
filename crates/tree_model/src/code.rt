// The codes of refusals.
ghost use Rattle.std.specs.Prelude.{◌≡◌};
ghost use Rattle.tree_model.specs.CodeTexts.{text_of_code};

use std::alloc::AllocError;
use std::marker::Model;

/// Why a command is refused: a code of XQuery 1.0, of the XQuery Update Facility 1.0, or one of this kernel's own, which
/// begin with `XK`. Contracts see its number, which no reply shows.
#[derive(Clone, Copy, Debug, PartialEq, Eq)]
pub struct Code(u8);

impl Model for Code {
    ghost use Rattle.std.specs.Prelude.{ℕ, ◌<◌};

    ghost Value = { ℕ };

    ghost view = { λ c. c.0 };

    ghost invariant = { λ c. c.0 < 81 };

    ghost inverse = { λ n. record { 0 = n } };
}

impl Code {
    pub const XPST0003: Code = Code(0);

    pub const XPST0008: Code = Code(1);

    pub const XPST0017: Code = Code(2);

    pub const XPST0081: Code = Code(3);

    pub const XPDY0002: Code = Code(4);

    pub const XPDY0050: Code = Code(5);

    pub const XPTY0004: Code = Code(6);

    pub const XPTY0018: Code = Code(7);

    pub const XPTY0019: Code = Code(8);

    pub const XPTY0020: Code = Code(9);

    pub const XQST0022: Code = Code(10);

    pub const XQST0033: Code = Code(11);

    pub const XQST0040: Code = Code(12);

    pub const XQST0066: Code = Code(13);

    pub const XQST0070: Code = Code(14);

    pub const XQST0071: Code = Code(15);

    pub const XQST0085: Code = Code(16);

    pub const XQST0089: Code = Code(17);

    pub const XQST0090: Code = Code(18);

    pub const XQTY0024: Code = Code(19);

    pub const XQDY0025: Code = Code(20);

    pub const XQDY0026: Code = Code(21);

    pub const XQDY0041: Code = Code(22);

    pub const XQDY0044: Code = Code(23);

    pub const XQDY0064: Code = Code(24);

    pub const XQDY0072: Code = Code(25);

    pub const XQDY0074: Code = Code(26);

    pub const FORG0001: Code = Code(27);

    pub const FORG0006: Code = Code(28);

    pub const FOAR0001: Code = Code(29);

    pub const FOAR0002: Code = Code(30);

    pub const FODC0002: Code = Code(31);

    pub const XUST0001: Code = Code(32);

    pub const XUST0002: Code = Code(33);

    pub const XUTY0004: Code = Code(34);

    pub const XUTY0005: Code = Code(35);

    pub const XUTY0006: Code = Code(36);

    pub const XUTY0007: Code = Code(37);

    pub const XUTY0008: Code = Code(38);

    pub const XUTY0010: Code = Code(39);

    pub const XUTY0011: Code = Code(40);

    pub const XUTY0012: Code = Code(41);

    pub const XUTY0013: Code = Code(42);

    pub const XUTY0022: Code = Code(43);

    pub const XUDY0009: Code = Code(44);

    pub const XUDY0014: Code = Code(45);

    pub const XUDY0015: Code = Code(46);

    pub const XUDY0016: Code = Code(47);

    pub const XUDY0017: Code = Code(48);

    pub const XUDY0021: Code = Code(49);

    pub const XUDY0023: Code = Code(50);

    pub const XUDY0024: Code = Code(51);

    pub const XUDY0025: Code = Code(52);

    pub const XUDY0027: Code = Code(53);

    pub const XUDY0029: Code = Code(54);

    pub const XUDY0030: Code = Code(55);

    pub const XKDB0002: Code = Code(56);

    pub const XKDB0004: Code = Code(57);

    pub const XKDB0005: Code = Code(58);

    /// More than 2^24 nodes.
    pub const XKLM0003: Code = Code(59);

    pub const XKLM0004: Code = Code(60);

    pub const XKLM0005: Code = Code(61);

    pub const XKLM0006: Code = Code(62);

    pub const XKLM0007: Code = Code(63);

    pub const XKUP0001: Code = Code(64);

    pub const XKCN0001: Code = Code(65);

    /// A line has none of the commands' forms, or isn't UTF-8.
    pub const XKCM0001: Code = Code(66);

    /// A form that isn't built yet.
    pub const XKCM0002: Code = Code(67);

    pub const XKDB0001: Code = Code(68);

    pub const XKDB0003: Code = Code(69);

    pub const XKDB0006: Code = Code(70);

    pub const XKFI0001: Code = Code(71);

    pub const XKFI0002: Code = Code(72);

    pub const XKXM0001: Code = Code(73);

    /// The XML isn't well formed.
    pub const XKXM0002: Code = Code(74);

    pub const XKXM0003: Code = Code(75);

    pub const XKXM0004: Code = Code(76);

    pub const XKXM0005: Code = Code(77);

    pub const XKXM0006: Code = Code(78);

    /// A line of more than 2^24 bytes.
    pub const XKLM0001: Code = Code(79);

    /// An XML input of more than 2^26 bytes.
    pub const XKLM0002: Code = Code(80);
}

/// A refusal of a command: its code, or want of memory.
#[derive(Clone, Copy, Debug, PartialEq, Eq)]
pub enum Refusal {
    Code(Code),
    NoMemory,
}

impl From<AllocError> for Refusal {
    ghost use Rattle.std.specs.Prelude.{◌≡◌};
    ghost use Rattle.tree_model.specs.declared.code.Refusal.TheVariants.{NoMemory};

    ghost from_gives = { λ _ e. e ≡ NoMemory };

    fn from(_: AllocError) -> Refusal {
        Refusal::NoMemory
    }
}

/// The eight characters of a code.
pub fn code_text(code: Code) -> &'static str
    ensures { result.now ≡ text_of_code code }
{
    match code.0 {
        0 => "XPST0003",
        1 => "XPST0008",
        2 => "XPST0017",
        3 => "XPST0081",
        4 => "XPDY0002",
        5 => "XPDY0050",
        6 => "XPTY0004",
        7 => "XPTY0018",
        8 => "XPTY0019",
        9 => "XPTY0020",
        10 => "XQST0022",
        11 => "XQST0033",
        12 => "XQST0040",
        13 => "XQST0066",
        14 => "XQST0070",
        15 => "XQST0071",
        16 => "XQST0085",
        17 => "XQST0089",
        18 => "XQST0090",
        19 => "XQTY0024",
        20 => "XQDY0025",
        21 => "XQDY0026",
        22 => "XQDY0041",
        23 => "XQDY0044",
        24 => "XQDY0064",
        25 => "XQDY0072",
        26 => "XQDY0074",
        27 => "FORG0001",
        28 => "FORG0006",
        29 => "FOAR0001",
        30 => "FOAR0002",
        31 => "FODC0002",
        32 => "XUST0001",
        33 => "XUST0002",
        34 => "XUTY0004",
        35 => "XUTY0005",
        36 => "XUTY0006",
        37 => "XUTY0007",
        38 => "XUTY0008",
        39 => "XUTY0010",
        40 => "XUTY0011",
        41 => "XUTY0012",
        42 => "XUTY0013",
        43 => "XUTY0022",
        44 => "XUDY0009",
        45 => "XUDY0014",
        46 => "XUDY0015",
        47 => "XUDY0016",
        48 => "XUDY0017",
        49 => "XUDY0021",
        50 => "XUDY0023",
        51 => "XUDY0024",
        52 => "XUDY0025",
        53 => "XUDY0027",
        54 => "XUDY0029",
        55 => "XUDY0030",
        56 => "XKDB0002",
        57 => "XKDB0004",
        58 => "XKDB0005",
        59 => "XKLM0003",
        60 => "XKLM0004",
        61 => "XKLM0005",
        62 => "XKLM0006",
        63 => "XKLM0007",
        64 => "XKUP0001",
        65 => "XKCN0001",
        66 => "XKCM0001",
        67 => "XKCM0002",
        68 => "XKDB0001",
        69 => "XKDB0003",
        70 => "XKDB0006",
        71 => "XKFI0001",
        72 => "XKFI0002",
        73 => "XKXM0001",
        74 => "XKXM0002",
        75 => "XKXM0003",
        76 => "XKXM0004",
        77 => "XKXM0005",
        78 => "XKXM0006",
        79 => "XKLM0001",
        _ => "XKLM0002",
    }
}

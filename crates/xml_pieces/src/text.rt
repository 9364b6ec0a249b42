// Whether each character of a text is a Char.
ghost use Rattle.std.specs.Prelude.{◌≡◌, ◌<◌, ◌≤◌, ◌&&◌, IsTrue, drop, length};
ghost use Rattle.std.specs.List.{list_all};
ghost use Rattle.std.specs.Str.{IsUtf8, chars};
ghost use Rattle.tree_model.specs.XmlChars.{is_xml_char};
ghost use Rattle.xml_pieces.specs.CharBytes as char_bytes;

// How many bytes are tested at once.
const BLOCK_LEN: usize = 64;

fn is_no_control(byte: u8) -> bool
    ensures { result ≡ char_bytes.is_no_control byte }
{
    (32 <= byte) | (byte == b'\t') | (byte == b'\n') | (byte == b'\r')
}

fn is_plain_pair(byte: u8, after: u8) -> bool
    ensures { result ≡ char_bytes.is_plain_pair byte after }
{
    is_no_control(byte) & !((byte == 0xEF) & (after == 0xBF))
}

// Whether the first bytes pass for what each of them and the byte behind it is.
#[tactic(auto, using(crate::proofs::CharsAll::plain_step))]
fn is_plain_front(bytes: &[u8], len: usize) -> bool
    requires { len < length bytes.now }
    ensures { IsTrue result → char_bytes.each_passes bytes.now ≡ char_bytes.each_passes (drop len bytes.now) }
{
    let mut plain = true;
    for i in 0..len {
        plain &= is_plain_pair(bytes[i], bytes[i + 1]);
    }
    plain
}

fn begins_noncharacter(bytes: &[u8]) -> bool
    ensures { result ≡ char_bytes.begins_noncharacter bytes.now }
{
    match bytes {
        [first, second, third, ..] => {
            *first == 0xEF && *second == 0xBF && (*third == 0xBE || *third == 0xBF)
        }
        _ => false,
    }
}

fn front_passes(bytes: &[u8]) -> bool
    ensures { result ≡ char_bytes.front_passes bytes.now }
{
    match bytes {
        [first, ..] => is_no_control(*first) && !begins_noncharacter(bytes),
        [] => true,
    }
}

// Whether the first bytes pass, so many of them.
#[tactic(auto, using(crate::proofs::CharsAll::pass_step))]
fn front_bytes_pass(bytes: &[u8], len: usize) -> bool
    requires { len ≤ length bytes.now }
    ensures { char_bytes.each_passes bytes.now ≡ (result && char_bytes.each_passes (drop len bytes.now)) }
{
    for i in 0..len {
        if !front_passes(bytes.split_at(i).1) {
            return false;
        }
    }
    true
}

fn block_passes(bytes: &[u8], len: usize) -> bool
    requires { len ≤ length bytes.now }
    ensures { char_bytes.each_passes bytes.now ≡ (result && char_bytes.each_passes (drop len bytes.now)) }
{
    (len < bytes.len() && is_plain_front(bytes, len)) || front_bytes_pass(bytes, len)
}

fn each_passes(bytes: &[u8]) -> bool
    ensures { result ≡ char_bytes.each_passes bytes.now }
{
    let mut rest = bytes;
    while !rest.is_empty() {
        let len = rest.len().min(BLOCK_LEN);
        if !block_passes(rest, len) {
            return false;
        }
        rest = rest.split_at(len).1;
    }
    true
}

/// Whether each character of the text is a Char (XML 1.0, section 2.2).
#[tactic(auto, using(crate::proofs::CharsAll::each_char))]
pub fn are_chars(bytes: &[u8]) -> bool
    requires { IsUtf8 bytes.now }
    ensures { result ≡ list_all is_xml_char (chars bytes.now) }
{
    each_passes(bytes)
}

// Classes of bytes and characters.
ghost use Rattle.std.specs.Prelude.{◌≡◌, ◌≤◌, length};
ghost use Rattle.std.specs.List.{prefix_len, list_all};
ghost use Rattle.std.specs.Str as text_words;
ghost use Rattle.tree_model.specs.XmlChars as chars;

/// Whether a byte is white space.
pub fn is_space(byte: u8) -> bool
    ensures { result ≡ chars.is_space byte }
{
    byte == b' ' || byte == b'\t' || byte == b'\n' || byte == b'\r'
}

/// Whether each byte is white space.
pub fn all_space(bytes: &[u8]) -> bool
    ensures { result ≡ list_all chars.is_space bytes.now }
{
    bytes.iter().all(|byte| is_space(*byte))
}

/// How many bytes of white space stand at the front.
pub(crate) fn space_len(bytes: &[u8]) -> usize
    ensures len { result ≡ prefix_len chars.is_space bytes.now }
    ensures within { result ≤ length bytes.now }
{
    let mut len = 0;
    while len < bytes.len() && is_space(bytes[len]) {
        len += 1;
    }
    len
}

fn is_between(low: u32, high: u32, code: u32) -> bool
    ensures { result ≡ chars.is_between low high code }
{
    low <= code && code <= high
}

/// Whether a number is the code of a character that a document may hold.
pub fn is_xml_char(code: u32) -> bool
    ensures { result ≡ chars.is_xml_char code }
{
    code == 9
        || code == 10
        || code == 13
        || is_between(32, 0xD7FF, code)
        || is_between(0xE000, 0xFFFD, code)
        || is_between(0x1_0000, 0x10_FFFF, code)
}

/// Whether a name may begin with the character (Namespaces in XML 1.0, section 4: no colon).
#[tactic(auto, unfolding(tree_model::specs::XmlChars::is_name_start_char))]
pub fn is_name_start_char(character: char) -> bool
    ensures { result ≡ chars.is_name_start_char character }
{
    let code = character as u32;
    character.is_ascii_alphabetic()
        | (character == '_')
        | is_between(0xC0, 0xD6, code)
        | is_between(0xD8, 0xF6, code)
        | is_between(0xF8, 0x2FF, code)
        | is_between(0x370, 0x37D, code)
        | is_between(0x37F, 0x1FFF, code)
        | is_between(0x200C, 0x200D, code)
        | is_between(0x2070, 0x218F, code)
        | is_between(0x2C00, 0x2FEF, code)
        | is_between(0x3001, 0xD7FF, code)
        | is_between(0xF900, 0xFDCF, code)
        | is_between(0xFDF0, 0xFFFD, code)
        | is_between(0x1_0000, 0xE_FFFF, code)
}

/// Whether a name may go on with the character.
#[tactic(auto, unfolding(tree_model::specs::XmlChars::is_inner_name_char))]
pub fn is_inner_name_char(character: char) -> bool
    ensures { result ≡ chars.is_inner_name_char character }
{
    let code = character as u32;
    is_name_start_char(character)
        | character.is_ascii_digit()
        | (character == '-')
        | (character == '.')
        | (code == 0xB7)
        | is_between(0x300, 0x36F, code)
        | is_between(0x203F, 0x2040, code)
}

fn starts_name(text: &str) -> bool
    ensures { result ≡ chars.first_is chars.is_name_start_char (text_words.chars text.now) }
{
    match text.chars().next() {
        Some(first) => is_name_start_char(first),
        None => false,
    }
}

fn all_inner(text: &str) -> bool
    ensures { result ≡ list_all chars.is_inner_name_char (text_words.chars text.now) }
{
    text.chars().all(|character| is_inner_name_char(character))
}

/// Whether the characters are those of a name without a colon.
pub(crate) fn is_ncname_text(text: &str) -> bool
    ensures { result ≡ chars.is_ncname_text (text_words.chars text.now) }
{
    starts_name(text) && all_inner(text)
}

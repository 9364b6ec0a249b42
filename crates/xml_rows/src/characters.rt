// The characters that references stand for.
ghost use Rattle.std.specs.Prelude.{◌≡◌, true};
ghost use Rattle.tree_model.specs.XmlGood as good;
ghost use Rattle.tree_model.specs.XmlMeaning as meaning;

use xml_pieces::char_of;

/// The character of a predefined entity.
#[tactic(auto, unfolding(tree_model::specs::XmlMeaning::entity_char))]
pub fn entity_char(name: &[u8]) -> Option<u8>
    ensures { result ≡ meaning.entity_char name.now }
{
    if name == b"lt".as_slice() {
        Some(b'<')
    } else if name == b"gt".as_slice() {
        Some(b'>')
    } else if name == b"amp".as_slice() {
        Some(b'&')
    } else if name == b"quot".as_slice() {
        Some(b'"')
    } else if name == b"apos".as_slice() {
        Some(b'\'')
    } else {
        None
    }
}

/// The character of decimal digits.
pub fn decimal_char(digits: &[u8]) -> char
    requires { good.is_decimal digits.now ≡ true }
    ensures { result ≡ good.number_from 10 0 digits.now }
{
    char_of(10, digits)
}

/// The character of hexadecimal digits.
pub fn hexadecimal_char(digits: &[u8]) -> char
    requires { good.is_hexadecimal digits.now ≡ true }
    ensures { result ≡ good.number_from 16 0 digits.now }
{
    char_of(16, digits)
}

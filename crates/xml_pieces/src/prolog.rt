// What stands before the root: the byte order mark, the XML declaration and the DOCTYPE.
ghost use Rattle.std.specs.Prelude.{◌≡◌, ◌+◌, ◌<◌, ◌^◌, ◌++◌, ◌∷◌, [], length, codes};
ghost use Rattle.std.specs.Option.{option_map};
ghost use Rattle.tree_model.specs.XmlSource.{mark_text};
ghost use Rattle.tree_model.specs.XmlReads.{before_encoding};
ghost use Rattle.xml_pieces.specs.DeclarationView as declared;
ghost use Rattle.xml_pieces.specs.Prolog as read;
ghost use Rattle.xml_pieces.specs.PrologView.{setting_view, decl_view};

use crate::chars::space_len;
use crate::names::qname;
use crate::prolog_readers::{Setting, Settings, behind_optional_external, declaration, gap};
use crate::words::word;

/// The name of an encoding, and where it begins in the bytes that were read.
#[derive(Clone, Copy)]
pub struct EncodingName<'a> {
    pub at: usize,
    pub name: &'a [u8],
}

/// What an XML declaration says of a text.
#[derive(Clone, Copy)]
pub struct Declaration<'a> {
    pub encoding: Option<EncodingName<'a>>,
}

// How many bytes of a setting stand before its value.
fn len_before_value(word_len: usize, setting: &Setting) -> usize
    requires { length setting.now.gap.now + word_len + length setting.now.before.now + length setting.now.behind.now + 2 < 2 ^ 64 }
    ensures { result ≡ length setting.now.gap.now + word_len + length setting.now.before.now + length setting.now.behind.now + 2 }
{
    setting.gap.len() + word_len + setting.before.len() + setting.behind.len() + 2
}

#[tactic(auto, using(crate::proofs::PrologEncoding::before_encoding_len))]
fn encoding_at(settings: &Settings, encoding: &Setting) -> usize
    requires { length (before_encoding (decl_view settings.now) (setting_view encoding.now)) < 2 ^ 64 }
    ensures { result ≡ length (before_encoding (decl_view settings.now) (setting_view encoding.now)) }
{
    let version = &settings.version;
    let behind_version = 5 + len_before_value(7, version) + version.value.len() + 1;
    behind_version + len_before_value(8, encoding)
}

/// The XML declaration at the front, and what follows it (XML 1.0, section 2.8).
#[tactic(auto, using(crate::proofs::PrologEncoding::encoding_fits))]
pub fn read_declaration(bytes: &[u8]) -> Option<(Declaration<'_>, &[u8])>
    ensures { option_map declared.declaration_read result ≡ option_map declared.encoding_read (read.decl bytes.now) }
{
    let (settings, after) = declaration(bytes)?;
    let encoding = match settings.encoding {
        Some(encoding) => Some(EncodingName {
            at: encoding_at(&settings, &encoding),
            name: encoding.value,
        }),
        None => None,
    };
    Some((Declaration { encoding }, after))
}

/// Whether the name of an encoding is that of UTF-8, in any letter case.
#[tactic(auto, using(crate::proofs::PrologEncoding::utf_8_name))]
pub fn is_utf_8_name(name: &[u8]) -> bool
    ensures { result ≡ declared.is_utf_8_name name.now }
{
    name.eq_ignore_ascii_case(b"utf-8")
}

/// Whether a byte order mark stands first, and what follows it.
pub fn skip_mark(bytes: &[u8]) -> (bool, &[u8])
    ensures { (result.0, result.1.now) ≡ declared.behind_mark bytes.now }
{
    match bytes {
        [0xEF, 0xBB, 0xBF, after @ ..] => (true, after),
        _ => (false, bytes),
    }
}

fn mark_len(mark: bool) -> usize
    ensures { result ≡ length (mark_text mark) }
{
    if mark { 3 } else { 0 }
}

/// Where the name of the encoding begins, if a whole XML declaration stands first and its encoding isn't UTF-8.
#[tactic(auto, using(crate::proofs::PrologEncoding::mark_len_fits, crate::proofs::PrologEncoding::name_fits), unfolding(crate::specs::DeclarationView::other_encoding))]
pub fn other_encoding(text: &[u8]) -> Option<usize>
    ensures { result ≡ declared.other_encoding text.now }
{
    let (mark, bytes) = skip_mark(text);
    let (declaration, _) = read_declaration(bytes)?;
    let encoding = declaration.encoding?;
    if is_utf_8_name(encoding.name) {
        return None;
    }
    Some(mark_len(mark) + encoding.at)
}

/// What follows a DOCTYPE behind its `<!`, up to what ends it or begins its internal subset.
#[tactic(auto, unfolding(crate::specs::Prolog::doctype_front))]
pub fn doctype_front(bytes: &[u8]) -> Option<&[u8]>
    ensures { option_map (λ rest. rest.now) result ≡ option_map (λ x. x.1) (read.doctype_front bytes.now) }
{
    let after = word(bytes, b"DOCTYPE")?;
    let (_, after) = gap(after)?;
    let (_, after) = qname(after)?;
    let after = behind_optional_external(after);
    Some(after.split_at(space_len(after)).1)
}

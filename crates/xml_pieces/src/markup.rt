// Comments, CDATA sections, instructions, DOCTYPEs and end tags.
ghost use Rattle.std.specs.Prelude.{◌≡◌, ◌∷◌, ◌++◌, [], codes, bytes_eq, map};
ghost use Rattle.std.specs.Char.{to_ascii_lowercase};
ghost use Rattle.std.specs.Option.{option_map};
ghost use Rattle.tree_model.specs.XmlChars as chars;
ghost use Rattle.tree_model.specs.XmlGood as good;
ghost use Rattle.tree_model.specs.XmlSource.{doctype_text};
ghost use Rattle.xml_pieces.specs.Readers.{tested, span, as_read};
ghost use Rattle.xml_pieces.specs.Item as read;
ghost use Rattle.xml_pieces.specs.View.{two, view};

use crate::chars::space_len;
use crate::names::{is_xml_ncname, name_len, qname};
use crate::piece::Piece;
use crate::prolog::doctype_front;
use crate::words::{until, word};

// Behind `</`: the name, the white space behind it, and what follows the tag.
#[tactic(auto, unfolding(crate::specs::Item::close_tag))]
fn close_tag(bytes: &[u8]) -> Option<(&[u8], &[u8], &[u8])>
    ensures { option_map (λ x. ((x.0.now, (x.1.now, tt)), x.2.now)) result ≡ read.close_tag bytes.now }
{
    let (name, after) = qname(bytes)?;
    let (last, after) = after.split_at(space_len(after));
    let after = word(after, b">")?;
    Some((name, last, after))
}

// Behind `<!`.
#[tactic(auto, unfolding(crate::specs::Item::comment))]
fn comment(bytes: &[u8]) -> Option<(&[u8], &[u8])>
    ensures { option_map (λ x. ((tt, (x.0.now, tt)), x.1.now)) result ≡ read.comment bytes.now }
{
    let after = word(bytes, b"--")?;
    let (text, after) = until(after, b'-', b"-")?;
    let after = word(after, b">")?;
    Some((text, after))
}

// Behind `<!`.
#[tactic(auto, unfolding(crate::specs::Item::cdata_section))]
fn cdata_section(bytes: &[u8]) -> Option<(&[u8], &[u8])>
    ensures { option_map (λ x. ((tt, x.0.now), x.1.now)) result ≡ read.cdata_section bytes.now }
{
    let after = word(bytes, b"[CDATA[")?;
    let (text, after) = until(after, b']', b"]>")?;
    Some((text, after))
}

// A whole DOCTYPE, given also without its `<!`.
#[tactic(auto, unfolding(crate::specs::Item::doctype))]
fn doctype<'a>(whole: &'a [u8], bytes: &'a [u8]) -> Option<(&'a [u8], &'a [u8])>
    requires { whole.now ≡ codes "<!" ++ bytes.now }
    ensures { option_map two result ≡ as_read (λ x. doctype_text x.0) (read.doctype bytes.now) }
{
    let after = doctype_front(bytes)?;
    let after = word(after, b">")?;
    let (text, _) = whole.split_at(whole.len() - after.len());
    Some((text, after))
}

fn is_xml(target: &[u8]) -> bool
    ensures { result ≡ bytes_eq (map to_ascii_lowercase target.now) (codes "xml") }
{
    target.eq_ignore_ascii_case(b"xml")
}

#[tactic(auto, unfolding(tree_model::specs::XmlGood::is_pi_target))]
fn is_pi_target(target: &[u8]) -> bool
    ensures { result ≡ good.is_pi_target target.now }
{
    is_xml_ncname(target) && !is_xml(target)
}

fn pi_target(bytes: &[u8]) -> Option<(&[u8], &[u8])>
    ensures { option_map two result ≡ tested good.is_pi_target (span chars.is_name_byte bytes.now) }
{
    let (target, after) = bytes.split_at(name_len(bytes));
    if is_pi_target(target) {
        Some((target, after))
    } else {
        None
    }
}

// The rest behind white space. Without white space there is none.
fn pi_rest<'a>(gap: &[u8], bytes: &'a [u8]) -> Option<(&'a [u8], &'a [u8])>
    ensures { option_map two result ≡ read.pi_rest gap.now bytes.now }
{
    match gap {
        [] => {
            let after = word(bytes, b"?>")?;
            Some((&[], after))
        }
        _ => until(bytes, b'?', b">"),
    }
}

// Behind `<?`.
#[tactic(auto, unfolding(crate::specs::Item::instruction))]
fn instruction(bytes: &[u8]) -> Option<(&[u8], &[u8], &[u8], &[u8])>
    ensures { option_map (λ x. ((x.0.now, (x.1.now, x.2.now)), x.3.now)) result ≡ read.instruction bytes.now }
{
    let (target, after) = pi_target(bytes)?;
    let (gap, after) = after.split_at(space_len(after));
    let (rest, after) = pi_rest(gap, after)?;
    Some((target, gap, rest, after))
}

// A comment, a CDATA section or a DOCTYPE, given also without its `<!`.
#[tactic(auto, unfolding(crate::specs::Item::declaration))]
fn declaration<'a>(whole: &'a [u8], bytes: &'a [u8]) -> Option<(Piece<'a>, &'a [u8])>
    requires { whole.now ≡ codes "<!" ++ bytes.now }
    ensures { option_map view result ≡ read.declaration bytes.now }
{
    match bytes {
        [] => None,
        [b'-', ..] => {
            let (text, after) = comment(bytes)?;
            Some((Piece::Comment(text), after))
        }
        [b'[', ..] => {
            let (text, after) = cdata_section(bytes)?;
            Some((Piece::Cdata(text), after))
        }
        _ => {
            let (text, after) = doctype(whole, bytes)?;
            Some((Piece::Doctype(text), after))
        }
    }
}

/// Markup, given also without its `<`.
#[tactic(auto, unfolding(crate::specs::Item::markup))]
pub(crate) fn markup<'a>(whole: &'a [u8], bytes: &'a [u8]) -> Option<(Piece<'a>, &'a [u8])>
    requires { whole.now ≡ 60 ∷ bytes.now }
    ensures { option_map view result ≡ read.markup bytes.now }
{
    match bytes {
        [] => None,
        [b'/', after @ ..] => {
            let (name, last, after) = close_tag(after)?;
            Some((Piece::Close(name, last), after))
        }
        [b'!', after @ ..] => declaration(whole, after),
        [b'?', after @ ..] => {
            let (target, gap, rest, after) = instruction(after)?;
            Some((Piece::Instruction(target, gap, rest), after))
        }
        _ => {
            let (name, after) = qname(bytes)?;
            Some((Piece::Open(name), after))
        }
    }
}

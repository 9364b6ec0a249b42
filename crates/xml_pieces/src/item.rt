// The pieces of a text.
ghost use Rattle.std.specs.Prelude.{◌≡◌};
ghost use Rattle.std.specs.Option.{option_map};
ghost use Rattle.tree_model.specs.XmlChars as chars;
ghost use Rattle.tree_model.specs.XmlGood as good;
ghost use Rattle.xml_pieces.specs.Readers.{one};
ghost use Rattle.xml_pieces.specs.Item as read;
ghost use Rattle.xml_pieces.specs.View.{view, where_of};

use crate::chars::space_len;
use crate::front::{quote, starts_space};
use crate::markup::markup;
use crate::names::qname;
use crate::piece::{Piece, Place};
use crate::references::reference;
use crate::runs::{data_run, value_run};
use crate::words::word;

#[tactic(auto, unfolding(crate::specs::Item::in_content))]
fn in_content(bytes: &[u8]) -> Option<(Piece, &[u8])>
    ensures { option_map view result ≡ read.in_content bytes.now }
{
    match bytes {
        [] => None,
        [b'<', after @ ..] => markup(bytes, after),
        [b'&', after @ ..] => reference(after),
        _ => {
            let (run, after) = data_run(bytes)?;
            Some((Piece::Run(run), after))
        }
    }
}

// An attribute behind white space, up to the first quote of its value.
#[tactic(auto, unfolding(crate::specs::Item::attr_start))]
fn attr_start(bytes: &[u8]) -> Option<(&[u8], &[u8], &[u8], u8, &[u8])>
    ensures { option_map (λ x. ((x.0.now, (x.1.now, (tt, (x.2.now, x.3)))), x.4.now)) result ≡ read.attr_start bytes.now }
{
    let (name, after) = qname(bytes)?;
    let (before, after) = after.split_at(space_len(after));
    let after = word(after, b"=")?;
    let (behind, after) = after.split_at(space_len(after));
    let (delim, after) = quote(after)?;
    Some((name, before, behind, delim, after))
}

#[tactic(auto, unfolding(crate::specs::Item::behind_gap))]
fn behind_gap<'a>(gap: &'a [u8], bytes: &'a [u8]) -> Option<(Piece<'a>, &'a [u8])>
    ensures { option_map view result ≡ read.behind_gap gap.now bytes.now }
{
    match bytes {
        [] => None,
        [first, after @ ..] => {
            let byte = *first;
            if byte == b'>' {
                return Some((Piece::Go(gap), after));
            }
            if byte == b'/' {
                let after = word(after, b">")?;
                return Some((Piece::Shut(gap), after));
            }
            if !starts_space(gap) {
                return None;
            }
            let (name, before, behind, delim, after) = attr_start(bytes)?;
            Some((Piece::Attribute(gap, name, before, behind, delim), after))
        }
    }
}

#[tactic(auto, unfolding(crate::specs::Item::in_quotes))]
fn in_quotes(delim: u8, bytes: &[u8]) -> Option<(Piece, &[u8])>
    ensures { option_map view result ≡ read.in_quotes delim bytes.now }
{
    match bytes {
        [] => None,
        [first, after @ ..] => {
            let byte = *first;
            if byte == delim {
                return Some((Piece::Quote(delim), after));
            }
            if byte == b'&' {
                return reference(after);
            }
            let (run, after) = value_run(delim, bytes)?;
            Some((Piece::Run(run), after))
        }
    }
}

/// The piece at the front, and what follows it.
pub fn item_at(place: Place, bytes: &[u8]) -> Option<(Piece, &[u8])>
    ensures { option_map view result ≡ read.item (where_of place) bytes.now }
{
    match place {
        Place::Content => in_content(bytes),
        Place::Tag => {
            let (gap, after) = bytes.split_at(space_len(bytes));
            behind_gap(gap, after)
        }
        Place::Value(delim) => in_quotes(delim, bytes),
    }
}

// Names.
ghost use Rattle.std.specs.Prelude.{◌≡◌, ◌≤◌, ◌&&◌, length};
ghost use Rattle.std.specs.List.{prefix_len, list_all};
ghost use Rattle.std.specs.Option.{option_map};
ghost use Rattle.tree_model.specs.XmlChars as chars;
ghost use Rattle.xml_pieces.specs.Plain as plain;
ghost use Rattle.xml_pieces.specs.Item as read;
ghost use Rattle.xml_pieces.specs.View.{two};

use crate::chars::is_ncname_text;
use std::str;

// Whether a byte may stand in a name. Each byte of a character beyond ASCII may.
fn is_name_byte(byte: u8) -> bool
    ensures { result ≡ chars.is_name_byte byte }
{
    byte.is_ascii_alphabetic()
        || byte.is_ascii_digit()
        || byte == b'_'
        || byte == b'-'
        || byte == b'.'
        || byte == b':'
        || byte >= 128
}

/// How many bytes at the front may stand in a name.
pub(crate) fn name_len(bytes: &[u8]) -> usize
    ensures len { result ≡ prefix_len chars.is_name_byte bytes.now }
    ensures within { result ≤ length bytes.now }
{
    let mut len = 0;
    while len < bytes.len() && is_name_byte(bytes[len]) {
        len += 1;
    }
    len
}

fn starts_name_byte(bytes: &[u8]) -> bool
    ensures { result ≡ chars.first_is chars.is_name_byte bytes.now }
{
    match bytes {
        [first, ..] => is_name_byte(*first),
        [] => false,
    }
}

fn all_name_bytes(bytes: &[u8]) -> bool
    ensures { result ≡ list_all chars.is_name_byte bytes.now }
{
    bytes.iter().all(|byte| is_name_byte(*byte))
}

fn is_plain_start(byte: u8) -> bool
    ensures { result ≡ plain.is_plain_start byte }
{
    byte.is_ascii_alphabetic() || byte == b'_'
}

fn is_plain_inner(byte: u8) -> bool
    ensures { result ≡ plain.is_plain_inner byte }
{
    is_plain_start(byte) || byte.is_ascii_digit() || byte == b'-' || byte == b'.'
}

fn starts_plain(bytes: &[u8]) -> bool
    ensures { result ≡ chars.first_is plain.is_plain_start bytes.now }
{
    match bytes {
        [first, ..] => is_plain_start(*first),
        [] => false,
    }
}

fn all_plain(bytes: &[u8]) -> bool
    ensures { result ≡ list_all plain.is_plain_inner bytes.now }
{
    bytes.iter().all(|byte| is_plain_inner(*byte))
}

#[tactic(auto, unfolding(crate::specs::Plain::is_plain))]
fn is_plain(name: &[u8]) -> bool
    ensures { result ≡ plain.is_plain name.now }
{
    starts_plain(name) && all_plain(name)
}

// Whether the bytes are a name without a colon, by their characters.
#[tactic(auto, using(crate::proofs::Naming::decoded_yes, crate::proofs::Naming::decoded_no))]
fn is_decoded_ncname(name: &[u8]) -> bool
    ensures { result ≡ chars.is_xml_ncname name.now }
{
    match str::from_utf8(name) {
        Ok(text) => starts_name_byte(name) && all_name_bytes(name) && is_ncname_text(text),
        Err(_) => false,
    }
}

/// Whether the bytes are a name without a colon. Those of ASCII alone are tested as they are.
#[tactic(auto, using(crate::proofs::Naming::plain_yes, crate::proofs::Naming::plain_no))]
pub(crate) fn is_xml_ncname(name: &[u8]) -> bool
    ensures { result ≡ chars.is_xml_ncname name.now }
{
    is_plain(name) || (!name.is_ascii() && is_decoded_ncname(name))
}

// How many bytes stand before the first colon.
fn prefix_len_of(name: &[u8]) -> usize
    ensures len { result ≡ prefix_len chars.is_no_colon name.now }
    ensures within { result ≤ length name.now }
{
    let mut len = 0;
    while len < name.len() && name[len] != b':' {
        len += 1;
    }
    len
}

fn are_ncnames(prefix: &[u8], local: &[u8]) -> bool
    ensures { result ≡ (chars.is_xml_ncname prefix.now && chars.is_xml_ncname local.now) }
{
    is_xml_ncname(prefix) && is_xml_ncname(local)
}

/// Whether the bytes are a name, or two with a colon between.
#[tactic(auto, using(crate::proofs::Naming::qname_alone, crate::proofs::Naming::qname_two))]
pub(crate) fn is_xml_qname(name: &[u8]) -> bool
    ensures { result ≡ chars.is_xml_qname name.now }
{
    let (prefix, rest) = name.split_at(prefix_len_of(name));
    if rest.is_empty() {
        is_xml_ncname(prefix)
    } else {
        are_ncnames(prefix, rest.split_at(1).1)
    }
}

/// The name without a colon at the front, and what follows it.
pub(crate) fn ncname(bytes: &[u8]) -> Option<(&[u8], &[u8])>
    ensures { option_map two result ≡ read.ncname bytes.now }
{
    let (name, after) = bytes.split_at(name_len(bytes));
    if is_xml_ncname(name) {
        Some((name, after))
    } else {
        None
    }
}

// How many bytes at the front may go on a name of ASCII characters without a colon.
fn plain_len(bytes: &[u8]) -> usize
    ensures len { result ≡ prefix_len plain.is_plain_inner bytes.now }
    ensures within { result ≤ length bytes.now }
{
    let mut len = 0;
    while len < bytes.len() && is_plain_inner(bytes[len]) {
        len += 1;
    }
    len
}

fn any_qname(bytes: &[u8]) -> Option<(&[u8], &[u8])>
    ensures { option_map two result ≡ read.qname bytes.now }
{
    let (name, after) = bytes.split_at(name_len(bytes));
    if is_xml_qname(name) {
        Some((name, after))
    } else {
        None
    }
}

/// The name at the front, and what follows it. One of ASCII characters without a colon is read in one pass.
#[tactic(auto, using(crate::proofs::Naming::plain_qname, crate::proofs::Naming::no_qname))]
pub(crate) fn qname(bytes: &[u8]) -> Option<(&[u8], &[u8])>
    ensures { option_map two result ≡ read.qname bytes.now }
{
    let (name, after) = bytes.split_at(plain_len(bytes));
    if starts_name_byte(after) {
        return any_qname(bytes);
    }
    if starts_plain(name) {
        Some((name, after))
    } else {
        None
    }
}

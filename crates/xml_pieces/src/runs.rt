// Runs of characters, in content and in the values of attributes.
ghost use Rattle.std.specs.Prelude.{◌≡◌, ◌≤◌, length, take, true};
ghost use Rattle.std.specs.List.{prefix_len, list_all};
ghost use Rattle.std.specs.Option.{option_map};
ghost use Rattle.tree_model.specs.XmlChars as chars;
ghost use Rattle.tree_model.specs.XmlGood as good;
ghost use Rattle.xml_pieces.specs.Item as read;
ghost use Rattle.xml_pieces.specs.View.{two};

use crate::words::has_word;

/// How many bytes of a run are tested at once.
const BLOCK: usize = 32;

fn in_data(byte: u8) -> bool
    ensures { result ≡ good.in_data byte }
{
    !((byte == b'<') | (byte == b'&'))
}

fn in_value(delim: u8, byte: u8) -> bool
    ensures { result ≡ good.in_value delim byte }
{
    !((byte == b'<') | (byte == b'&') | (byte == delim))
}

// Whether each byte passes. None is skipped, so that the compiler tests many at once.
fn all_data(bytes: &[u8]) -> bool
    ensures { result ≡ list_all good.in_data bytes.now }
{
    let mut all = true;
    for byte in bytes {
        all &= in_data(*byte);
    }
    all
}

fn all_value(delim: u8, bytes: &[u8]) -> bool
    ensures { result ≡ list_all (good.in_value delim) bytes.now }
{
    let mut all = true;
    for byte in bytes {
        all &= in_value(delim, *byte);
    }
    all
}

// The length of a front that passes, in whole blocks.
fn data_blocks(bytes: &[u8]) -> usize
    ensures passes { list_all good.in_data (take result bytes.now) ≡ true }
    ensures within { result ≤ length bytes.now }
{
    let mut len = 0;
    while bytes.len() - len >= BLOCK && all_data(&bytes[len..len + BLOCK]) {
        len += BLOCK;
    }
    len
}

fn value_blocks(delim: u8, bytes: &[u8]) -> usize
    ensures passes { list_all (good.in_value delim) (take result bytes.now) ≡ true }
    ensures within { result ≤ length bytes.now }
{
    let mut len = 0;
    while bytes.len() - len >= BLOCK && all_value(delim, &bytes[len..len + BLOCK]) {
        len += BLOCK;
    }
    len
}

#[tactic(auto, using(crate::proofs::Blocks::behind_data))]
fn data_len(bytes: &[u8]) -> usize
    ensures len { result ≡ prefix_len good.in_data bytes.now }
    ensures within { result ≤ length bytes.now }
{
    let mut len = data_blocks(bytes);
    while len < bytes.len() && in_data(bytes[len]) {
        len += 1;
    }
    len
}

#[tactic(auto, using(crate::proofs::Blocks::behind_value))]
fn value_len(delim: u8, bytes: &[u8]) -> usize
    ensures len { result ≡ prefix_len (good.in_value delim) bytes.now }
    ensures within { result ≤ length bytes.now }
{
    let mut len = value_blocks(delim, bytes);
    while len < bytes.len() && in_value(delim, bytes[len]) {
        len += 1;
    }
    len
}

fn starts_data(bytes: &[u8]) -> bool
    ensures { result ≡ chars.first_is good.in_data bytes.now }
{
    match bytes {
        [first, ..] => in_data(*first),
        [] => false,
    }
}

fn starts_value(delim: u8, bytes: &[u8]) -> bool
    ensures { result ≡ chars.first_is (good.in_value delim) bytes.now }
{
    match bytes {
        [first, ..] => in_value(delim, *first),
        [] => false,
    }
}

/// A run in content, and what follows it.
#[tactic(auto, unfolding(crate::specs::Item::data_run))]
pub(crate) fn data_run(bytes: &[u8]) -> Option<(&[u8], &[u8])>
    ensures { option_map two result ≡ read.data_run bytes.now }
{
    let (run, after) = bytes.split_at(data_len(bytes));
    if starts_data(run) && !has_word(run, b']', b"]>") {
        Some((run, after))
    } else {
        None
    }
}

/// A run in a value between two quotes, and what follows it.
#[tactic(auto, unfolding(crate::specs::Item::value_run))]
pub(crate) fn value_run(delim: u8, bytes: &[u8]) -> Option<(&[u8], &[u8])>
    ensures { option_map two result ≡ read.value_run delim bytes.now }
{
    let (run, after) = bytes.split_at(value_len(delim, bytes));
    if starts_value(delim, run) {
        Some((run, after))
    } else {
        None
    }
}

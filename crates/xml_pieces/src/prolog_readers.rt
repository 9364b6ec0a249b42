// The parts of an XML declaration and of a DOCTYPE.
ghost use Rattle.std.specs.Prelude.{◌≡◌, ◌≤◌, ◌==◌, length};
ghost use Rattle.std.specs.List.{prefix_len, list_all, list_any};
ghost use Rattle.std.specs.Option.{option_map};
ghost use Rattle.tree_model.specs.XmlGood as good;
ghost use Rattle.xml_pieces.specs.Prolog as read;
ghost use Rattle.xml_pieces.specs.Readers.{maybe};
ghost use Rattle.xml_pieces.specs.PrologView.{word_of_kind, test_of_kind, setting_view, setting_read, settings_read, literal_test};
ghost use Rattle.std.specs.Char.{is_ascii_digit, is_ascii_alphabetic};
ghost use Rattle.tree_model.specs.XmlChars.{first_is};
ghost use Rattle.xml_pieces.specs.View.{two};

use crate::chars::space_len;
use crate::front::{byte, quote, starts_space};
use crate::words::word;

/// What an XML declaration sets.
#[derive(Clone, Copy)]
pub(crate) enum SettingKind {
    Version,
    Encoding,
    Standalone,
}

/// White space, a word, `=` and a value between two quotes. The word isn't kept.
#[derive(Clone, Copy)]
pub(crate) struct Setting<'a> {
    pub(crate) gap: &'a [u8],
    pub(crate) before: &'a [u8],
    pub(crate) behind: &'a [u8],
    pub(crate) delim: u8,
    pub(crate) value: &'a [u8],
}

/// An XML declaration.
#[derive(Clone, Copy)]
pub(crate) struct Settings<'a> {
    pub(crate) version: Setting<'a>,
    pub(crate) encoding: Option<Setting<'a>>,
    pub(crate) standalone: Option<Setting<'a>>,
    pub(crate) gap: &'a [u8],
}

/// A literal of an external identifier.
#[derive(Clone, Copy)]
pub(crate) enum LiteralKind {
    Pubid,
    System,
}

fn setting_word(kind: SettingKind) -> &'static [u8]
    ensures { result.now ≡ word_of_kind kind }
{
    match kind {
        SettingKind::Version => b"version",
        SettingKind::Encoding => b"encoding",
        SettingKind::Standalone => b"standalone",
    }
}

fn all_digits(bytes: &[u8]) -> bool
    ensures { result ≡ list_all is_ascii_digit bytes.now }
{
    bytes.iter().all(|byte| byte.is_ascii_digit())
}

// A version is `1.` and some digits.
#[tactic(auto, unfolding(tree_model::specs::XmlGood::is_version))]
fn is_version(value: &[u8]) -> bool
    ensures { result ≡ good.is_version value.now }
{
    match value {
        [major, point, minor, digits @ ..] => {
            *major == b'1' && *point == b'.' && minor.is_ascii_digit() && all_digits(digits)
        }
        _ => false,
    }
}

fn is_encoding_char(byte: u8) -> bool
    ensures { result ≡ good.is_encoding_char byte }
{
    byte.is_ascii_alphabetic()
        || byte.is_ascii_digit()
        || byte == b'.'
        || byte == b'_'
        || byte == b'-'
}

fn all_encoding_chars(bytes: &[u8]) -> bool
    ensures { result ≡ list_all good.is_encoding_char bytes.now }
{
    bytes.iter().all(|byte| is_encoding_char(*byte))
}

fn starts_letter(bytes: &[u8]) -> bool
    ensures { result ≡ first_is is_ascii_alphabetic bytes.now }
{
    match bytes {
        [first, ..] => first.is_ascii_alphabetic(),
        [] => false,
    }
}

// The name of an encoding begins with a letter.
#[tactic(auto, unfolding(tree_model::specs::XmlGood::is_encoding))]
fn is_encoding(value: &[u8]) -> bool
    ensures { result ≡ good.is_encoding value.now }
{
    starts_letter(value) && all_encoding_chars(value)
}

#[tactic(auto, unfolding(tree_model::specs::XmlGood::is_yes_or_no))]
fn is_yes_or_no(value: &[u8]) -> bool
    ensures { result ≡ good.is_yes_or_no value.now }
{
    value == b"yes".as_slice() || value == b"no".as_slice()
}

fn setting_passes(kind: SettingKind, value: &[u8]) -> bool
    ensures { result ≡ test_of_kind kind value.now }
{
    match kind {
        SettingKind::Version => is_version(value),
        SettingKind::Encoding => is_encoding(value),
        SettingKind::Standalone => is_yes_or_no(value),
    }
}

// How many bytes stand before a quote.
fn len_up_to(delim: u8, bytes: &[u8]) -> usize
    ensures len { result ≡ prefix_len (read.up_to delim) bytes.now }
    ensures within { result ≤ length bytes.now }
{
    let mut len = 0;
    while len < bytes.len() && bytes[len] != delim {
        len += 1;
    }
    len
}

/// White space at the front, and what follows it.
pub(crate) fn gap(bytes: &[u8]) -> Option<(&[u8], &[u8])>
    ensures { option_map two result ≡ read.gap_of bytes.now }
{
    let (space, after) = bytes.split_at(space_len(bytes));
    if starts_space(space) {
        Some((space, after))
    } else {
        None
    }
}

// A value that passes, between two quotes that are alike.
fn quoted(kind: SettingKind, bytes: &[u8]) -> Option<(u8, &[u8], &[u8])>
    ensures { option_map (λ x. ((x.0, (x.1.now, tt)), x.2.now)) result ≡ read.quoted (test_of_kind kind) bytes.now }
{
    let (delim, after) = quote(bytes)?;
    let (value, after) = after.split_at(len_up_to(delim, after));
    if !setting_passes(kind, value) {
        return None;
    }
    let after = byte(after, delim)?;
    Some((delim, value, after))
}

#[tactic(auto, unfolding(crate::specs::Prolog::setting))]
pub(crate) fn read_setting(kind: SettingKind, bytes: &[u8]) -> Option<(Setting, &[u8])>
    ensures { option_map setting_read result ≡ read.setting (word_of_kind kind) (test_of_kind kind) bytes.now }
{
    let (gap, after) = gap(bytes)?;
    let after = word(after, setting_word(kind))?;
    let (before, after) = after.split_at(space_len(after));
    let after = byte(after, b'=')?;
    let (behind, after) = after.split_at(space_len(after));
    let (delim, value, after) = quoted(kind, after)?;
    let setting = Setting {
        gap,
        before,
        behind,
        delim,
        value,
    };
    Some((setting, after))
}

/// A setting that may be left out.
pub(crate) fn optional_setting(kind: SettingKind, bytes: &[u8]) -> (Option<Setting>, &[u8])
    ensures { Some (option_map setting_view result.0, result.1.now) ≡ maybe (read.setting (word_of_kind kind) (test_of_kind kind)) bytes.now }
{
    match read_setting(kind, bytes) {
        Some((setting, after)) => (Some(setting), after),
        None => (None, bytes),
    }
}

/// The XML declaration at the front, and what follows it.
#[tactic(auto, unfolding(crate::specs::Prolog::decl))]
pub(crate) fn declaration(bytes: &[u8]) -> Option<(Settings, &[u8])>
    ensures { option_map settings_read result ≡ read.decl bytes.now }
{
    let after = word(bytes, b"<?xml")?;
    let (version, after) = read_setting(SettingKind::Version, after)?;
    let (encoding, after) = optional_setting(SettingKind::Encoding, after);
    let (standalone, after) = optional_setting(SettingKind::Standalone, after);
    let (gap, after) = after.split_at(space_len(after));
    let after = word(after, b"?>")?;
    let settings = Settings {
        version,
        encoding,
        standalone,
        gap,
    };
    Some((settings, after))
}

// ---- literals

fn is_among(byte: u8, others: &[u8]) -> bool
    ensures { result ≡ list_any (λ other. byte == other) others.now }
{
    others.iter().any(|other| byte == *other)
}

// A character of a public identifier.
#[tactic(auto, unfolding(tree_model::specs::XmlGood::is_pubid_char))]
fn is_pubid_char(byte: u8) -> bool
    ensures { result ≡ good.is_pubid_char byte }
{
    byte.is_ascii_alphabetic()
        || byte.is_ascii_digit()
        || is_among(byte, b" \r\n-'()+,./:=?;!*#@$_%")
}

fn literal_passes(kind: LiteralKind, byte: u8) -> bool
    ensures { result ≡ literal_test kind byte }
{
    match kind {
        LiteralKind::Pubid => is_pubid_char(byte),
        LiteralKind::System => true,
    }
}

fn in_literal(kind: LiteralKind, delim: u8, byte: u8) -> bool
    ensures { result ≡ read.in_literal (literal_test kind) delim byte }
{
    literal_passes(kind, byte) && byte != delim
}

fn literal_len(kind: LiteralKind, delim: u8, bytes: &[u8]) -> usize
    ensures len { result ≡ prefix_len (read.in_literal (literal_test kind) delim) bytes.now }
    ensures within { result ≤ length bytes.now }
{
    let mut len = 0;
    while len < bytes.len() && in_literal(kind, delim, bytes[len]) {
        len += 1;
    }
    len
}

// What follows white space and a literal between two quotes.
#[tactic(auto, unfolding(crate::specs::Prolog::literal))]
fn behind_literal(kind: LiteralKind, bytes: &[u8]) -> Option<&[u8]>
    ensures { option_map (λ rest. rest.now) result ≡ option_map (λ x. x.1) (read.literal (literal_test kind) bytes.now) }
{
    let (_, after) = gap(bytes)?;
    let (delim, after) = quote(after)?;
    let after = after.split_at(literal_len(kind, delim, after)).1;
    byte(after, delim)
}

// What follows SYSTEM, or PUBLIC and a literal.
#[tactic(auto, unfolding(crate::specs::Prolog::pubid))]
fn behind_pubid(bytes: &[u8]) -> Option<&[u8]>
    ensures { option_map (λ rest. rest.now) result ≡ option_map (λ x. x.1) (read.pubid bytes.now) }
{
    if let Some(after) = word(bytes, b"SYSTEM") {
        return Some(after);
    }
    let after = word(bytes, b"PUBLIC")?;
    behind_literal(LiteralKind::Pubid, after)
}

#[tactic(auto, unfolding(crate::specs::Prolog::external))]
fn behind_external(bytes: &[u8]) -> Option<&[u8]>
    ensures { option_map (λ rest. rest.now) result ≡ option_map (λ x. x.1) (read.external bytes.now) }
{
    let (_, after) = gap(bytes)?;
    let after = behind_pubid(after)?;
    behind_literal(LiteralKind::System, after)
}

/// What follows an external identifier, which may be left out.
pub(crate) fn behind_optional_external(bytes: &[u8]) -> &[u8]
    ensures { Some result.now ≡ option_map (λ x. x.1) (maybe read.external bytes.now) }
{
    match behind_external(bytes) {
        Some(after) => after,
        None => bytes,
    }
}

//! Cuts the text of an XML document into pieces.
#![tactic(auto)]

mod chars;
mod front;
mod item;
mod markup;
mod names;
mod piece;
mod prolog;
mod prolog_readers;
mod references;
mod runs;
mod text;
mod words;

pub use chars::{all_space, is_inner_name_char, is_name_start_char, is_space, is_xml_char};
pub use item::item_at;
pub use piece::{Piece, Place};
pub use prolog::{
    Declaration, EncodingName, doctype_front, is_utf_8_name, other_encoding, read_declaration,
    skip_mark,
};
pub use references::{char_of, is_char_number};
pub use text::are_chars;

#[cfg(test)]
mod prolog_tests;
#[cfg(test)]
mod tests;

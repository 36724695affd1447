//! What every text is compared with: the newline rule over the plain decoding of all the bytes at once.
//!
//! Here are the definitions (`specs/`): the first unit of some bytes, what a handler makes of a refused range, items
//! and the plain decoding, the encoding of a text, and the newline rule. Beside them is the plain slow program that decodes
//! a whole list, and `Newlines`, which looks for line ends in a text. `py_plain_text` has the places in a text and the step of each call, on these.
#![tactic(auto)]

mod character_bytes;
mod decoded;
mod encoding;
mod escapes;
mod examples;
mod find_newline;
mod handler;
mod laws;
mod line;
mod newlines;
mod one_byte;
mod pieces;
mod plain_encode;
mod replacement;
mod unit;
mod utf16;
mod utf8;

pub use character_bytes::{has_bytes, push_character};
pub use decoded::{Decoded, FirstItem, decode, first_item};
pub use encoding::Encoding;
pub use examples::{a_line_end_is_told_by_the_place_behind_it, arguments_stand_for_rules};
pub use find_newline::ends_with_cr;
pub use handler::Handler;
pub use laws::{characters_and_their_bytes, items_decode_alone, utf8_units};
pub use line::{Line, first_line};
pub use newlines::{Newlines, translate};
pub use pieces::pieces_decode_as_one;
pub use plain_encode::{EncodedText, encode, push_replacement_text};
pub use replacement::push_replacement;
pub use unit::{Unit, first_unit};

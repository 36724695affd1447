//! Codecs and handlers: texts from bytes and bytes from texts, in five encodings.
//!
//! A decoding is the items of the whole list of bytes, from its front: characters, and refused ranges as a handler
//! treats them. An encoding is the bytes of each character, and runs without bytes as a handler treats them. One engine
//! decodes and one encodes, for all encodings and handlers, over runs of characters that `py_blocks` takes at once;
//! `py_plain` has the definitions and the plain slow program.
#![tactic(auto)]

mod decoding;
mod encoding;
mod error_handler;
mod front;
mod handler_ref;
mod laws;
mod named_decoding;
mod named_encoding;
mod no_handler;
mod refusing;
mod replacing;
mod steps;
mod substituting;

pub use decoding::decode;
pub use encoding::encode;
pub use error_handler::{EncodeReplace, ErrorHandler, HandlerRefusal};
pub use front::{FrontDecoded, FrontStop, decode_front, front_text};
pub use handler_ref::HandlerRef;
pub use laws::{a_text_encodes_and_decodes_back, four_handlers_write_every_text, no_byte_is_lost};
pub use named_decoding::{
    ascii_decode, latin_1_decode, utf_8_decode, utf_16_be_decode, utf_16_le_decode,
};
pub use named_encoding::{
    ascii_encode, latin_1_encode, utf_8_encode, utf_16_be_encode, utf_16_le_encode,
};
pub use no_handler::NoHandler;
pub use py_blocks::first_character;
pub use py_flat::IoFault;
pub use py_plain::{Encoding, Handler, items_decode_alone, pieces_decode_as_one};
pub use refusing::first_refusal;
pub use steps::Steps;

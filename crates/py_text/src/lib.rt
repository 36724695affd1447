//! Parts of a text stream that know no stream, and a text as the bytes that it is written as.
//!
//! Here are the newline rule over a text that comes in pieces, sizes of texts in bytes and characters, and the codec and
//! the handler that a text stream has by their names in a registry, with its other settings. The functions of `laws` and
//! `examples` do nothing: their contracts are a law of these definitions and what they come to in worked examples.
//!
//! Where nothing of a text is refused, each character of it has bytes of its own or those that a handler gives for it, and
//! the text is written as these bytes, one after the other (`specs/EachWritten.antt`). So lengths add up, and a text may be cut anywhere.
#![tactic(auto)]

mod coder;
mod cutting;
mod examples;
mod finding;
mod laws;
mod line_ends;
mod measuring;
mod newline_decoder;
mod own_bytes;
mod pushing;
mod reading;
mod reconfigure;
mod sizes;
mod text_settings;
mod utf8_size;

pub use coder::Coder;
pub use examples::{
    a_coder_has_a_codec_that_is_built_in_and_a_handler_of_its_directions,
    a_cr_waits_for_what_follows,
};
pub use finding::{find_coder, is_of_stream};
pub use laws::newline_pieces_read_as_one;
pub use line_ends::has_line_end;
pub use measuring::{WrittenSize, character_count, short_bound, written_size};
pub use newline_decoder::IncrementalNewlineDecoder;
pub use pushing::push_written_text;
pub use py_codec::IoFault;
pub use py_plain::{Encoding, Handler, Newlines};
pub use py_registry::{CodecsRegistry, SearchFunction};
pub use reading::read_so_far;
pub use reconfigure::Reconfigure;
pub use text_settings::TextSettings;
pub use utf8_size::Utf8size;

//! Codecs for texts and bytes that come in pieces, one after another.
//!
//! A decoder holds the bytes of a sequence that the end of a piece cuts, and decodes them with the next: the texts of the
//! pieces, joined, are the text of the joined pieces, wherever they are cut. An encoder keeps nothing between pieces. Each
//! piece is decoded and encoded by the engines of `py_codec`.
#![tactic(auto)]

mod decoder_state;
mod held;
mod incremental_decoder;
mod incremental_encoder;
mod laws;

pub use decoder_state::DecoderState;
pub use incremental_decoder::IncrementalDecoder;
pub use incremental_encoder::IncrementalEncoder;
pub use laws::a_decoder_reads_the_pieces_joined;
pub use py_flat::{Data, IoFault};
pub use py_plain::{Encoding, Handler};

//! Callers that are proved: one of two streams, one of a session, one of a codec, two of streams in memory. docs/CALLING.md goes
//! through them.
//!
//! They are examples to begin from; nothing stands on this crate but tests.
#![tactic(auto)]

mod copying;
mod decoding;
mod lending;
mod line_of_raw;
mod marking;

pub use copying::copy_all;
pub use decoding::decode_replacing;
pub use lending::buffer_of_stream;
pub use line_of_raw::{FirstLine, first_line};
pub use marking::mark_first;

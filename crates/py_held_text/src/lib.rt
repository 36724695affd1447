//! What a text stream has in hand: characters that it knows, and bytes that it took and hasn't decoded yet.
//!
//! `HeldText` knows no stream: bytes are put into it, and it says whether the characters that it knows are the whole
//! answer of a call. Fronts of them are given.
#![tactic(auto)]

mod answer;
mod base;
mod decoding;
mod held_stop;
mod held_text;
mod known_text;
mod line_search;
mod plain_text;
mod reach;
mod wanted;

pub use base::{BaseMove, Mark};
pub use decoding::decoded_alone;
pub use held_stop::HeldStop;
pub use held_text::{HeldText, drop_front};
pub use py_blocks::TextFront as HeldFront;
pub use py_codec::IoFault;
pub use py_plain::Newlines;
pub use py_telling::Told;
pub use py_text::Coder;
pub use reach::FIRST_SIZE;
pub use wanted::Wanted;

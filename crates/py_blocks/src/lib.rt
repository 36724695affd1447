//! Many characters at once: read from bytes and written as bytes in five encodings, and counted.
//!
//! A run is the characters that some bytes begin with, as many as are found at once; what is written of a text is a front
//! of it, up to a character without bytes. Neither knows handlers: `py_codec` treats what stands between runs.
#![tactic(auto)]

mod ascii;
mod counting;
mod fronts;
mod runs;
mod utf16;
mod utf16_blocks;
mod writing;

pub use counting::count_starts;
pub use fronts::{TextFront, front_of};
pub use runs::{LEAST, next_most, push_run, utf8_front, window};
pub use writing::{first_character, push_written, split_ascii};

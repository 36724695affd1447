//! The part of a text that reads, over any buffered stream: characters and lines, decoded as they are asked for.
//!
//! `ReadText` asks a live buffer for chunks and answers from the characters that it knows. Its calls are for the text that is a user's
//! (`py_textio`), which sees to lives and abilities, and stands on it to write. `Answers` is the one clause of all calls of both.
#![tactic(auto)]

mod faults;
mod looking;
mod opening;
mod read_text;
mod seeking;

pub use faults::{is_raw_fault, is_wait};
pub use opening::{place_of, refusal};
pub use read_text::{Answer, ReadText};

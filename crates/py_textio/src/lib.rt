//! Text over any buffered stream: characters and lines that are decoded as they are asked for, and texts that are written.
//!
//! `TextIOWrapper` is seen as the text over what its buffer is seen as, and each of its calls has the one clause `Answers`, its `detach` too.
//! The part that reads is `py_read_text`, what a text is written as `py_text`.
#![tactic(auto)]

mod attached_text;
mod laws;
mod text_detached;
mod text_io_wrapper;
mod text_left;
mod written_text;

pub use laws::no_answer_hangs_on_the_sizes;
pub use py_plain_text::TextIOCookie;
pub use text_detached::TextDetached;
pub use text_io_wrapper::TextIOWrapper;

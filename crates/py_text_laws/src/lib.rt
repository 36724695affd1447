//! What a text gives back of what was written in it: laws of the definitions of texts, in each encoding.
//!
//! Each law is what a function without effect ensures. Here are their words (`specs/`): which texts need no handler, and which a
//! newline rule keeps.
#![tactic(auto)]

mod examples;
mod laws;

pub use examples::{other_texts_are_read_as_they_were_written, written_texts_are_read_back};
pub use laws::{
    a_cookie_brings_back_the_rest, a_written_text_is_read_back, a_written_text_is_sought_and_read,
    texts_that_need_no_handler,
};

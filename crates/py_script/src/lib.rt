//! The words of a program that runs scripts of calls: what a script, a reply's line and the command line mean.
//!
//! A script is read into calls (`parse_script`), replies and refusals are written as lines (`push_reply_line`, `push_refused_line`), and
//! the command line's words are told apart (`parse_words`), with a text that tells how they are used (`help_text`). Nothing here opens,
//! reads or prints. The rest are laws and worked examples: no two replies are printed alike (`reply_lines_tell`), and what a reply answered
//! is written by a script, or sought, as it stands (`answered_bytes_can_be_written`, `answered_cookies_can_be_sought`).
#![tactic(auto)]

mod command;
mod decimal;
mod examples;
mod fault_line;
mod help;
mod hex_words;
mod laws;
mod line_call;
mod options;
mod pieces;
mod reply_law;
mod reply_line;
mod script;
mod settings;

pub use command::{Command, parse_words};
pub use decimal::parse_decimal;
pub use examples::{
    examples_of_commands, examples_of_malformed_lines, examples_of_moves, examples_of_no_options,
    examples_of_no_settings, examples_of_options, examples_of_plain_lines, examples_of_refusals,
    examples_of_replies, examples_of_scripts, examples_of_settings, examples_of_sized_lines,
    examples_of_texts, examples_of_writes,
};
pub use fault_line::{fault_name, push_refused_line};
pub use help::{help_text, version_text};
pub use laws::{
    an_option_stands_once, answered_bytes_can_be_written, answered_cookies_can_be_sought,
    answered_lines_can_be_written, answered_texts_can_be_written, every_text_has_its_hex,
    options_stand_in_any_order,
};
pub use reply_law::reply_lines_tell;
pub use reply_line::push_reply_line;
pub use script::{parse_line, parse_script};

//! What is asked for: the calls of a session and its replies, and what they mean in the models of a text and of a binary stream; and
//! the mode and the arguments of an opening, and the plan that they make.
//!
//! `Session::call` of `py_open` says which of the calls a session has, and which replies come of which call. `plan_open` decides before any
//! raw stream is asked: it says which mode, and whether a text, a stream of bytes through a buffer or the bare raw is opened, of a text what
//! it decodes and encodes by, as a registry finds it by name, and its settings; or why the opening is refused. `Mode` is read from its text
//! by `parse`.
#![tactic(auto)]

mod call;
mod examples;
mod laws;
mod letters;
mod mode;
mod open_args;
mod plan;
mod reply;

pub use call::Call;
pub use examples::{
    a_mode_is_refused_before_any_argument, a_text_has_the_codec_and_the_handler_of_its_names,
    a_text_is_read_through_a_buffer, a_text_is_written_through_a_buffer,
    a_text_that_appends_is_not_read, an_argument_is_refused_before_what_is_not_opened,
    binary_modes_are_opened, bytes_are_read_and_written, modes_are_taken_apart,
    the_first_letter_that_offends_decides,
};
pub use laws::{
    an_accepted_binary_mode_has_no_text_argument, an_accepted_plan_is_what_was_asked,
    an_accepted_text_has_a_buffer_a_coder_and_settings,
};
pub use mode::{EncodeMode, FileMode, Mode};
pub use open_args::{OpenArgs, text_encoding};
pub use plan::{DEFAULT_BUFFER_SIZE, OpenPlan, PlanKind, TextPlan, plan_open};
pub use py_flat::{Chars, IoFault, ParseModeError};
pub use py_plain_text::TextIOCookie;
pub use py_text::{CodecsRegistry, Coder, Reconfigure, SearchFunction, TextSettings};
pub use reply::Reply;

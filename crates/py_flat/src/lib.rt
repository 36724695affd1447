//! What every binary stream is compared with: the flat file, a list of bytes with a place.
//!
//! Here are the definitions (`specs/`): how bytes are laid on, the exact step of each call, what a wait, a
//! fault or running out of memory may leave, the bytes that are owed, and when a count of the outside rose. Beside
//! them are the small types that these speak of: the faults, the lives, and lists of bytes, characters and lines.
//!
//! The functions of `laws` and `examples` do nothing: their contracts are the laws of these definitions and what they
//! come to in worked examples, and a check proves them.
#![tactic(auto)]

mod chars;
mod conversions;
mod data;
mod examples;
mod fault;
mod laws;
mod life;
mod lines;
mod mode_error;
mod positions;
mod whence;

pub use chars::Chars;
pub use data::Data;
pub use examples::{
    a_reader_gives_what_comes_next, abilities_refuse_next, bytes_are_laid_on,
    detaching_tells_the_place, line_ends_differ_at_cr_lf, lines_are_ended_by_an_end_or_a_limit,
    lines_end_at_line_feeds_and_limits, lives_refuse_first, reads_and_writes_share_a_place,
    seeks_are_tried_by_whence_then_by_target, truncations_cut_and_lengthen,
};
pub use fault::IoFault;
pub use laws::{
    a_first_line_is_a_front, a_laying_resumes_from_within_its_front, a_settled_refusal_leaves_all,
    a_settled_reply_blames_nobody, a_smooth_step_is_settled, counts_rise_or_stand_at_their_end,
    equal_lists_are_the_same, laying_behind_is_laying_both, laying_lengthens_to_its_end,
    laying_nothing_changes_nothing, laying_over_hides_what_was_laid, lines_joined_are_the_whole,
    nothing_owed_is_the_raw, what_was_laid_is_read_back,
};
pub use life::Life;
pub use lines::Lines;
pub use mode_error::{ModeError, ParseModeError};
pub use whence::Whence;

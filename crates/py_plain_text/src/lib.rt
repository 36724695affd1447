//! What a text stream is compared with: a list of bytes that is a text, a place in it, and what each call answers and leaves.
//!
//! Here are the definitions (`specs/`): the place in a text and what is left from it, cookies, the refusals and the step of each
//! call, and what a wait, a fault and running out of memory leave. Beside them is the plain slow text that decodes the whole list
//! anew at each call.
#![tactic(auto)]

mod examples;
mod laws;
mod plain_changes;
mod plain_place;
mod plain_seek;
mod plain_tell;
mod plain_text;
mod plain_write;
mod text_cookie;

pub use examples::{
    a_range_is_refused_from_its_first_ascii_byte, cookies_are_built_as_their_bytes,
    cookies_tell_where_a_text_stands, forged_cookies_are_tried_against_the_bytes,
    hostile_cookies_are_refused, refused_ranges_take_nothing,
    runs_are_refused_by_their_places_in_the_text, settings_are_changed_where_a_text_is_clean,
    text_seeks_are_tried_in_order, texts_are_read_by_their_lines,
    texts_are_written_where_they_stand, texts_refuse_by_life_and_ability,
    what_more_bytes_may_change_is_not_left_yet,
};
pub use laws::{
    a_text_is_sought_back_to_where_it_told, built_cookies_are_parsed,
    calls_leave_texts_where_cookies_tell, plain_steps, told_boundaries_give_the_rest,
    told_places_give_the_rest, what_is_surely_left_stays,
};
pub use plain_changes::PlainChanges;
pub use plain_place::{PlainFront, PlainPlace, PlainSettings, left};
pub use plain_seek::seek_fault;
pub use plain_text::PlainText;
pub use plain_write::{laid, written};
pub use text_cookie::TextIOCookie;

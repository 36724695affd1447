//! Where a text stands, told by the bytes that are in hand.
//!
//! `told_among` walks the bytes from a place on and says where a text stands of which so many characters were given since, and how far
//! it walked, from where the next walk goes on; `restores` says whether a cookie that skips characters fits the bytes that lie at its
//! start. Both take no memory. What is told from a later byte is what is told from the text's own (`told_from_a_base`).
#![tactic(auto)]

mod laws;
mod plain_run;
mod restoring;
mod seen_item;
mod told;
mod walked;

pub use laws::{told_behind_a_front, told_from_a_base};
pub use py_plain_text::TextIOCookie;
pub use restoring::restores;
pub use told::{Told, told_among};
pub use walked::Walked;

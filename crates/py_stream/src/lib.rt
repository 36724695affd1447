//! What the buffered streams share: what each is seen as, the one clause of all their calls, their opening, and what they hand
//! back.
#![tactic(auto)]

mod access;
mod buffered_stream;
mod detached;
mod laws;
mod live_raw;
mod moves;
mod moving;
mod new_refused;
mod opening;
mod piecewise;
mod reading_on;
mod stop;

pub use access::Access;
pub use buffered_stream::BufferedStream;
pub use detached::Detached;
pub use laws::{
    a_reader_stands_where_its_reads_brought_it, a_seek_to_the_told_place_keeps_all,
    a_smooth_line_is_the_first_that_is_left, a_smooth_read_gives_what_comes_next,
    a_smooth_single_transfer_gives_a_front, a_smooth_write_takes_all,
    a_stream_answers_as_a_buffered_one,
};
pub use live_raw::LiveRaw;
pub use moves::{Moves, end, refuse, seek, tell, truncate};
pub use moving::{end_of_lines, life_fault, moved_by};
pub use new_refused::NewRefused;
pub use opening::{first_place, refused_at_first, refused_raw};
pub use piecewise::{TakesPieces, write_lines};
pub use py_flat::Whence;
pub use reading_on::{ReadsOn, read_into, read_line, read_lines, read_rest};
pub use stop::{Progress, Step, Stop};

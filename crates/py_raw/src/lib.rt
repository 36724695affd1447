//! Raw streams, and what opens them: the traits, and what an opener's mode says. And where a program reads its script, and where it prints its
//! replies: sources and sinks.
//!
//! Each is a trait whose clauses say all that the layers above may rest on: what moves, when it may fail or block, and which counts
//! rise then. What an outside doesn't tell (a real file tells no content) is claimed of none. The streams themselves are elsewhere:
//! `py_raw_memory` has those in memory, `py_raw_files` those of the system.
//!
//! Of sources and sinks there is one in memory, which tells its bytes and fails where it is told to, and one over any reader or writer, as
//! standard input and output, which tells none.
#![tactic(auto)]

mod again;
mod conversions;
mod laying;
mod mem_sink;
mod mem_source;
mod mode_letters;
mod opener;
mod raw_error;
mod raw_flags;
mod raw_mode;
mod raw_stream;
mod read_source;
mod reads;
mod sink;
mod source;
mod write_sink;
mod zeros;

pub use again::flush_again;
pub use laying::{fill_front, lay_on};
pub use mem_sink::MemSink;
pub use mem_source::MemSource;
pub use mode_letters::compute_mode;
pub use opener::{OpenError, Opener};
pub use py_flat::{Chars, Data, IoFault, Life, Lines, ModeError, ParseModeError};
pub use raw_error::RawError;
pub use raw_flags::RawFlags;
pub use raw_mode::{file_letter, is_raw_mode, misses, mode_flags, mode_reads, mode_writes};
pub use raw_stream::{GREATEST_PLACE, RawStream};
pub use read_source::ReadSource;
pub use reads::Reads;
pub use sink::Sink;
pub use source::{Failed, Source};
pub use write_sink::WriteSink;
pub use zeros::lengthen;

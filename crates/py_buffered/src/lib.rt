//! Buffered streams over raw ones: one buffer, filled in one piece and given out bit by bit, or filled bit by bit and passed on, or both.
//! A reader and a writer over two raw streams are one stream, too (`BufferedRWPair`): the two ends of a pipe, a socket's two halves.
#![tactic(auto)]

mod buffered_over;
mod buffered_random;
mod buffered_reader;
mod buffered_writer;
mod kind;
mod lines;
mod pair;

pub use buffered_over::BufferedOver;
pub use buffered_random::BufferedRandom;
pub use buffered_reader::BufferedReader;
pub use buffered_writer::BufferedWriter;
pub use kind::{
    AlsoRead, BufferedKind, NotRead, ReadOnly, ReadWrite, ReadsToo, WriteOnly, WritingKind, Written,
};
pub use lines::BufferedLines;
pub use pair::BufferedRWPair;
pub use py_stream::{Detached, NewRefused, Whence, a_seek_to_the_told_place_keeps_all};

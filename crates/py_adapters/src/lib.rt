//! Streams as others take them: as std's readers, writers and seekers; as whatever is read line by line (`LineSource`), also by an iterator
//! (`SourceLines`); and as whatever text is written to (`Write`), which strings and sinks are, too, or by std's `fmt` (`FmtWriter`).
//!
//! What takes an `std::io::Read`, `BufRead`, `Write` or `Seek` takes a `StdStream` of one. The other way, a raw stream over whatever is a
//! reader or a writer of std's, is `ReadRaw` and `WriteRaw` of `py_raw_files`.
#![tactic(auto)]

mod answers;
mod chopping;
mod file_line;
mod fmt_writer;
mod io_writer;
mod lend_held;
mod line_source;
mod line_value;
mod py_writer;
mod read_once;
mod source_lines;
mod std_stream;
mod write;

pub use file_line::file_readline;
pub use fmt_writer::FmtWriter;
pub use io_writer::{IoWriter, IoWriterRef};
pub use lend_held::LendHeld;
pub use line_source::LineSource;
pub use line_value::LineValue;
pub use py_flat::{Chars, Data, IoFault};
pub use py_plain::Newlines;
pub use py_raw::{Failed, Sink};
pub use py_textio::TextIOWrapper;
pub use py_writer::PyWriter;
pub use read_once::ReadOnce;
pub use source_lines::{LineEnds, SourceLines};
pub use std_stream::StdStream;
pub use write::Write;

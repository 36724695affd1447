//! Times a text that is read from a file, or written to one: prints what came, and the best time of some rounds to standard error.
//!
//! `bench/text` makes the files that are read, runs this program, and does the same by CPython and by Rust's std.
#![tactic(auto)]

mod reading;
mod sought;
mod task;
mod writing;

use py_bench::{Counts, FileTask, best_of};
use py_buffered::{BufferedReader, BufferedWriter};
use py_codec::{Encoding, Handler};
use py_raw::Opener;
use py_raw_files::FileOpener;
use py_text::{Coder, TextSettings};
use py_textio::TextIOWrapper;
use reading::Reading;
use std::io;
use task::Task;
use writing::{Writing, mixed_piece};

/// What Python's `open` takes for its buffer.
const BUFFER_SIZE: usize = 8192;

/// How the files are read and written: UTF-8, in which nothing is replaced.
const CODER: Coder = Coder {
    encoding: Encoding::Utf8,
    errors: Handler::Strict,
};

/// Reads a file; nothing where it can't be read.
fn read_file(rt: &HostRuntime, reading: Reading, path: &str) -> Option<Counts> {
    let mut opener = FileOpener::new(rt);
    let raw = opener.open_raw(rt.alloc(), path, "rb").ok()?;
    let buffer = BufferedReader::new(rt.alloc(), raw, BUFFER_SIZE).ok()?;
    let mut text = TextIOWrapper::new(rt.alloc(), buffer, CODER, TextSettings::default()).ok()?;
    reading.run(rt.alloc(), &mut text).ok()
}

/// Writes a file; nothing where it can't be written.
fn write_file(rt: &HostRuntime, writing: Writing, piece: &str, path: &str) -> Option<Counts> {
    let mut settings = TextSettings::default();
    settings.newline = writing.newline();
    let mut opener = FileOpener::new(rt);
    let raw = opener.open_raw(rt.alloc(), path, "wb").ok()?;
    let buffer = BufferedWriter::new(rt.alloc(), raw, BUFFER_SIZE).ok()?;
    let mut text = TextIOWrapper::new(rt.alloc(), buffer, CODER, settings).ok()?;
    writing.run(rt.alloc(), piece, &mut text).ok()
}

/// Does a task once over a file that is opened for it; nothing where that failed.
fn once(rt: &HostRuntime, task: Task, piece: &str, path: &str) -> Option<Counts> {
    match task {
        Task::Reads(reading) => read_file(rt, reading, path),
        Task::Writes(writing) => write_file(rt, writing, piece, path),
    }
}

fn main(rt: HostRuntime) -> io::Result<()> {
    let Some(asked) = FileTask::from_command_line(&rt, Task::from_word)? else {
        return rt.println(
            "usage: py_text_bench whole|lines|pieces|long|told|sought|writes-ascii[-crlf]|writes-mixed[-crlf]|large-mixed <path> <rounds>",
        );
    };
    let piece = mixed_piece(rt.alloc())?;
    let (counts, best) = best_of(
        &rt,
        asked.rounds,
        || (),
        |_| once(&rt, asked.task, piece.as_str(), asked.path.as_str()),
    )?;
    match counts.flatten() {
        Some(counts) => println!(rt;
            "answers {} {} {}",
            counts.answers,
            asked.task.units(),
            counts.units
        )?,
        None => rt.println("the file was not read or written")?,
    }
    eprintln!(rt; "{}", best.as_micros())
}

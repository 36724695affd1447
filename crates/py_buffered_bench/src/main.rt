//! Times a buffered reader or writer over a file, by its own calls and by std's traits: prints what came, and the best time of some
//! rounds to standard error.
//!
//! `bench/buffered` makes the file that is read, runs this program, and does the same by CPython and by Rust's std.
#![tactic(auto)]

mod reading;
mod seeking;
mod task;
mod writing;

use py_adapters::StdStream;
use py_bench::{Counts, FileTask, best_of};
use py_buffered::{BufferedReader, BufferedWriter};
use py_raw::Opener;
use py_raw_files::FileOpener;
use reading::{
    Reading, read_lent, read_lent_by_std, read_lines_by_std, read_small, read_small_by_std,
};
use seeking::{seek_small, seek_small_by_std};
use std::io;
use task::Task;
use writing::{write_short, write_short_by_std};

/// What Python's `open` takes for its buffer.
const BUFFER_SIZE: usize = 8192;

/// Reads a file; nothing where it can't be read.
fn read_file(rt: &HostRuntime, reading: Reading, path: &str) -> Option<Counts> {
    let mut opener = FileOpener::new(rt);
    let raw = opener.open_raw(rt.alloc(), path, "rb").ok()?;
    let mut reader = BufferedReader::new(rt.alloc(), raw, BUFFER_SIZE).ok()?;
    match reading {
        Reading::Small => read_small(&mut reader).ok(),
        Reading::SmallByStd => read_small_by_std(&mut StdStream::new(reader)).ok(),
        Reading::LinesByStd => read_lines_by_std(rt.alloc(), &mut StdStream::new(reader)).ok(),
        Reading::Lent => read_lent(&mut reader).ok(),
        Reading::LentByStd => read_lent_by_std(&mut StdStream::new(reader)).ok(),
        Reading::Seeks => seek_small(&mut reader).ok(),
        Reading::SeeksByStd => seek_small_by_std(&mut StdStream::new(reader)).ok(),
        Reading::Asked(asked) => asked.run(rt.alloc(), &mut reader).ok(),
    }
}

/// Writes a file, by std's `write` or the writer's own; nothing where it can't be written.
fn write_file(rt: &HostRuntime, by_std: bool, path: &str) -> Option<Counts> {
    let mut opener = FileOpener::new(rt);
    let raw = opener.open_raw(rt.alloc(), path, "wb").ok()?;
    let mut writer = BufferedWriter::new(rt.alloc(), raw, BUFFER_SIZE).ok()?;
    if by_std {
        return write_short_by_std(&mut StdStream::new(writer)).ok();
    }
    write_short(&mut writer).ok()
}

/// Does a task once over a file that is opened for it; nothing where that failed.
fn once(rt: &HostRuntime, task: Task, path: &str) -> Option<Counts> {
    match task {
        Task::Reads(reading) => read_file(rt, reading, path),
        Task::Writes { by_std } => write_file(rt, by_std, path),
    }
}

fn main(rt: HostRuntime) -> io::Result<()> {
    let Some(asked) = FileTask::from_command_line(&rt, Task::from_word)? else {
        return rt.println(
            "usage: py_buffered_bench lines|pieces|whole|small|small-by-std|lines-by-std|lent|lent-by-std|seeks|seeks-by-std|writes|writes-by-std <path> <rounds>",
        );
    };
    let (counts, best) = best_of(
        &rt,
        asked.rounds,
        || (),
        |_| once(&rt, asked.task, asked.path.as_str()),
    )?;
    match counts.flatten() {
        Some(counts) => println!(rt; "answers {} bytes {}", counts.answers, counts.units)?,
        None => rt.println("the file was not read or written")?,
    }
    eprintln!(rt; "{}", best.as_micros())
}

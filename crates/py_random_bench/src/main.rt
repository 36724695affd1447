//! Times a stream that is read and written all over a file: prints what was read, and the best time of some rounds to standard error.
//!
//! `bench/random` makes the file, runs this program, and does the same by CPython and by Rust's std.
#![tactic(auto)]

mod offsets;
mod sum;
mod task;

use offsets::offsets_of;
use py_bench::best_of;
use py_buffered::{BufferedRandom, Whence};
use py_raw::Opener;
use py_raw_files::{FileOpener, FileRaw};
use std::time::Duration;
use std::{env, io};
use sum::Sum;
use task::Task;

/// The size of the stream's buffer, in bytes.
const BUFFER_SIZE: usize = 8192;

/// What the words of the command line ask for.
#[derive(Drop)]
struct Asked {
    task: Task,
    path: String,
    steps: u32,
    rounds: u32,
}

/// The words `<task> <path> <steps> <rounds>`.
fn command_words(rt: &HostRuntime) -> io::Result<Option<Asked>> {
    let mut words = env::args(rt)?.skip(1);
    let (Some(task), Some(path), Some(steps), Some(rounds), None) = (
        words.next(),
        words.next(),
        words.next(),
        words.next(),
        words.next(),
    ) else {
        return Ok(None);
    };
    match (
        Task::from_word(task.as_str()),
        steps.parse(),
        rounds.parse(),
    ) {
        (Some(task), Ok(steps), Ok(rounds)) => Ok(Some(Asked {
            task,
            path,
            steps,
            rounds,
        })),
        _ => Ok(None),
    }
}

/// Opens a file to be read and written; nothing where it can't be.
fn open(rt: &HostRuntime, path: &str) -> Option<BufferedRandom<FileRaw>> {
    let mut opener = FileOpener::new(rt);
    let raw = opener.open_raw(rt.alloc(), path, "rb+").ok()?;
    BufferedRandom::new(rt.alloc(), raw, BUFFER_SIZE).ok()
}

/// How many bytes a file has; nothing where that can't be asked.
fn size_of(rt: &HostRuntime, path: &str) -> Option<u64> {
    let mut stream = open(rt, path)?;
    stream.seek(0, Whence::End.into()).ok()
}

/// Does a task once over a file that is opened for it; nothing where that failed.
fn once(rt: &HostRuntime, asked: &Asked, offsets: &[i64], sum: &mut Option<Sum>) -> Option<()> {
    let mut stream = open(rt, asked.path.as_str())?;
    asked.task.run(rt.alloc(), &mut stream, offsets, sum).ok()
}

/// What a task reads, as a checksum, and its best time; nothing where it failed. The checksum is made in a round of its own, before the
/// clock begins.
fn summed_and_timed(rt: &HostRuntime, asked: &Asked) -> io::Result<Option<(Sum, Duration)>> {
    let Some(size) = size_of(rt, asked.path.as_str()) else {
        return Ok(None);
    };
    let Some(offsets) = offsets_of(rt.alloc(), asked.task, asked.steps, size) else {
        return Ok(None);
    };
    let mut sum = Some(Sum::new());
    if once(rt, asked, &offsets, &mut sum).is_none() {
        return Ok(None);
    }
    let (done, best) = best_of(
        rt,
        asked.rounds,
        || (),
        |_| once(rt, asked, &offsets, &mut None),
    )?;
    Ok(done.flatten().and(sum).map(|sum| (sum, best)))
}

fn main(rt: HostRuntime) -> io::Result<()> {
    let Some(asked) = command_words(&rt)? else {
        return rt.println(
            "usage: py_random_bench anywhere|back|back-into|update <path> <steps> <rounds>",
        );
    };
    let Some((sum, best)) = summed_and_timed(&rt, &asked)? else {
        return rt.println("the file was not read or written");
    };
    println!(rt; "steps {} sum {}", asked.steps, sum.value())?;
    eprintln!(rt; "{}", best.as_micros())
}

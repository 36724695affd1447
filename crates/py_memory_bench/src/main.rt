//! Times a stream in memory: prints what came, and the best time of some rounds to standard error.
//!
//! `bench/memory` runs this program, and does the same by CPython and by Rust's std.
#![tactic(auto)]

mod filled;
mod task;

use filled::Stream;
use py_bench::{Counts, best_of};
use std::{env, io};
use task::Task;

/// What the words of the command line ask for.
#[derive(Drop)]
struct Asked {
    task: Task,
    count: u32,
    rounds: u32,
}

/// The words `<task> <count> <rounds>`.
fn command_words(rt: &HostRuntime) -> io::Result<Option<Asked>> {
    let mut words = env::args(rt)?.skip(1);
    let (Some(task), Some(count), Some(rounds), None) = (
        words.next(),
        words.next(),
        words.next(),
        words.next(),
    ) else {
        return Ok(None);
    };
    match (
        Task::from_word(task.as_str()),
        count.parse(),
        rounds.parse(),
    ) {
        (Some(task), Ok(count), Ok(rounds)) => Ok(Some(Asked {
            task,
            count,
            rounds,
        })),
        _ => Ok(None),
    }
}

/// Does a task once over a stream that is made for it; nothing where memory ran out.
fn once(rt: &HostRuntime, asked: &Asked, stream: Option<Stream>) -> Option<Counts> {
    let mut stream = stream?;
    asked.task.run(rt.alloc(), asked.count, &mut stream).ok()
}

fn main(rt: HostRuntime) -> io::Result<()> {
    let Some(asked) = command_words(&rt)? else {
        return rt.println(
            "usage: py_memory_bench writes|lines|pieces|appends|text-lines <count> <rounds>",
        );
    };
    let (counts, best) = best_of(
        &rt,
        asked.rounds,
        || asked.task.prepare(rt.alloc(), asked.count).ok(),
        |stream| once(&rt, &asked, stream),
    )?;
    match counts.flatten() {
        Some(counts) => println!(rt; "answers {} units {}", counts.answers, counts.units)?,
        None => rt.println("out of memory")?,
    }
    eprintln!(rt; "{}", best.as_micros())
}

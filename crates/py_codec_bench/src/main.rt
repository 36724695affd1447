//! Times the codecs over a file: prints what was made, and the best time of some rounds to standard error.
//!
//! `bench/codecs` makes the files, runs this program, and does the same by CPython's codecs and by Rust's std.
#![tactic(auto)]

mod task;

use py_bench::{FileTask, best_of};
use std::{fs, io};
use task::{Made, Task};

fn main(rt: HostRuntime) -> io::Result<()> {
    let Some(asked) = FileTask::from_command_line(&rt, Task::from_word)? else {
        return rt.println("usage: py_codec_bench <task> <path> <rounds>");
    };
    let bytes = fs::read(&rt, asked.path.as_str())?;
    let text = simdutf8::basic::from_utf8(&bytes).unwrap_or("");
    let (made, best) = best_of(
        &rt,
        asked.rounds,
        || (),
        |_| asked.task.run(rt.alloc(), &bytes, text),
    )?;
    let made = made.unwrap_or(Made::none());
    println!(rt; "used {} made {}", made.used, made.made)?;
    eprintln!(rt; "{}", best.as_micros())
}

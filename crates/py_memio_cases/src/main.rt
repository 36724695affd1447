//! Runs lists of calls of streams in memory that stand as text in data/, and counts what comes otherwise than CPython answered.
//!
//! The words are the paths of files of lists, which vectors/make_memory made. A line `text HEX` or `bytes HEX` begins a list by a
//! stream's first content, and each line after it is a call, ` = ` and the answer. Each file is run twice: the second time the calls that
//! every buffered stream has are made of streams of bytes through their trait. `stdout` has what must come.
#![tactic(auto)]

mod answers;
mod buffered_calls;
mod bytes_calls;
mod lists;
mod text_calls;
mod words;

use anyhow::Result;
use lists::run_file;
use std::{env, fs};

fn main(rt: HostRuntime) -> Result<()> {
    for path in env::args(&rt)?.skip(1) {
        let bytes = fs::read(&rt, path.as_str())?;
        for (buffered, how) in [(false, "as they are"), (true, "as buffered streams")] {
            let tally = run_file(&rt, str::from_utf8(&bytes)?, buffered)?;
            println!(rt;
                "{path} {how}: {} lists, {} calls, {} answered otherwise",
                tally.lists, tally.calls, tally.differ
            )?;
        }
    }
    Ok(())
}

//! Reads texts beside the plain slow text, in every encoding, by every handler and newline rule, in chunks and through buffers of
//! many sizes, over raw streams that move a byte at a time, wait before any transfer or fail at any call, by one call over and over;
//! and by all calls in turn, through a reader, through a stream that is written too, and in memory; and long texts by lines. Behind each
//! call a text is asked where it stands, as at its start, but of the long ones; for this it reads besides all short strings of telling
//! bytes, and texts behind ASCII. It prints how many answers came and how many places were told, and ends at the first that differs.
//! Before that it runs the cases of the files that are its words. `stdout` has what must come.
//!
//! Nothing here is clever: it is code to be read and trusted, and only its safety is proved.
#![tactic(auto)]

mod cases;
mod places;
mod runs;
mod samples;
mod sweep;

use anyhow::Result;
use runs::Sweep;
use std::{env, fs};
use sweep::read_each;

/// The sweeps, in the order in which they are made.
const SWEEPS: [Sweep; 9] = [
    Sweep::Sizes,
    Sweep::Waits,
    Sweep::Faults,
    Sweep::Mixed,
    Sweep::ReadWrite,
    Sweep::Memory,
    Sweep::Long,
    Sweep::Telling,
    Sweep::Behind,
];

/// Runs the cases of a file, and prints each line and what came.
fn run_file(rt: &HostRuntime, text: &str) -> Result<()> {
    for line in text.lines() {
        if line.is_empty() || line.starts_with('#') {
            continue;
        }
        let came = cases::run(rt.alloc(), line)?;
        println!(rt; "{line}: {came}")?;
    }
    Ok(())
}

fn main(rt: HostRuntime) -> Result<()> {
    for path in env::args(&rt)?.skip(1) {
        let bytes = fs::read(&rt, path.as_str())?;
        println!(rt; "{path}")?;
        run_file(&rt, str::from_utf8(&bytes)?)?;
    }
    for which in SWEEPS {
        let counts = read_each(rt.alloc(), which)?;
        println!(rt;
            "{}: {} texts, {} answers, {} short, {} faults, {} tells",
            which.name(),
            counts.texts,
            counts.answers,
            counts.short,
            counts.faults,
            counts.tells
        )?;
    }
    Ok(())
}

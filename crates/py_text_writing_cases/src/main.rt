//! Writes texts beside the plain slow text, in every encoding, by every handler and newline rule, in pieces of many sizes, in chunks and
//! through buffers of many sizes, by themselves and as sessions, over raw streams that move a byte at a time, wait before any transfer,
//! fail at any call or run out of memory, up to a flush, a close, a detach or none of these, and prints how many answers came; it ends at
//! the first that differs. Before that it runs the cases of the files that are its words. `stdout` has what must come.
//!
//! Nothing here is clever: it is code to be read and trusted, and only its safety is proved.
#![tactic(auto)]

mod calls;
mod cases;
mod handed_over;
mod runs;
mod starved;
mod sweep;
mod writing;

use anyhow::Result;
use runs::Sweep;
use std::{env, fs};

/// Runs the cases of a file, and prints each line and what came.
fn run_file(rt: &HostRuntime, text: &str) -> Result<()> {
    for line in text.lines() {
        if line.is_empty() || line.starts_with('#') {
            continue;
        }
        let came = cases::run(rt.alloc(), line)?;
        println!(rt; "{line}: {came}")?;
    }
    Ok(())
}

/// Makes the texts of a sweep, and prints how many there were and what came.
fn run_sweep(rt: &HostRuntime, which: Sweep) -> Result<()> {
    let counts = sweep::write_each(rt.alloc(), which)?;
    println!(rt;
        "{}: {} texts, {} answers, {} refused, {} waits, {} faults",
        which.name(),
        counts.texts,
        counts.answers,
        counts.refused,
        counts.waits,
        counts.faults
    )?;
    Ok(())
}

fn main(rt: HostRuntime) -> Result<()> {
    for path in env::args(&rt)?.skip(1) {
        let bytes = fs::read(&rt, path.as_str())?;
        println!(rt; "{path}")?;
        run_file(&rt, str::from_utf8(&bytes)?)?;
    }
    for which in [
        Sweep::Sizes,
        Sweep::Appended,
        Sweep::Waits,
        Sweep::Faults,
        Sweep::Read,
        Sweep::Sessions,
        Sweep::Changed,
    ] {
        run_sweep(&rt, which)?;
    }
    let counts = starved::starve_each(rt.alloc())?;
    println!(rt;
        "starved: {} texts, {} answers, {} refused, {} starved, {} failed",
        counts.texts, counts.answers, counts.refused, counts.waits, counts.faults
    )?;
    Ok(())
}

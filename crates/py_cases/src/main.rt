//! Runs cases that stand as text in data/, and prints what came; `stdout` has what must come (docs/TESTS.md).
//!
//! The words are the paths of files of cases. Nothing here is clever: it is code to be read and trusted, and only its safety
//! is proved.
#![tactic(auto)]

mod beside;
mod flat_file;
mod plain;
mod program;
mod report;
mod session;
mod sweep;

use anyhow::Result;
use plain::{run_plain_block, run_units_block};
use program::run_program_block;
use py_case_sessions::{Block, blocks};
use report::Report;
use session::run_session_block;
use std::{env, fs};
use sweep::run_sweep_block;

/// Runs a case, and adds what came to a report.
fn run_block(block: &Block<'_>, report: &mut Report) -> Result<()> {
    match block.head.word {
        "session" => run_session_block(block, report),
        "program" => run_program_block(block, report),
        "sweep" => run_sweep_block(block, report),
        "plain" => run_plain_block(block, report),
        _ => run_units_block(block, report),
    }
}

/// Runs the cases of a file one by one, and prints the name of each and what came.
fn run_file(rt: &HostRuntime, text: &str) -> Result<()> {
    for block in &blocks(rt.alloc(), text)? {
        println!(rt; "{} {}", block.head.word, block.head.rest)?;
        let mut report = Report::new(rt.alloc());
        let ended = run_block(block, &mut report);
        report.print(rt)?;
        if let Err(error) = ended {
            println!(rt; "{error}")?;
        }
    }
    Ok(())
}

fn main(rt: HostRuntime) -> Result<()> {
    for path in env::args(&rt)?.skip(1) {
        let bytes = fs::read(&rt, path.as_str())?;
        println!(rt; "{path}")?;
        if let Err(error) = run_file(&rt, str::from_utf8(&bytes)?) {
            println!(rt; "{error}")?;
        }
    }
    Ok(())
}

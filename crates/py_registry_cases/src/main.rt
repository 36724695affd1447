//! Runs cases of the registry that stand as text in data/, and prints what came; `stdout` has what must come.
//!
//! The words are the paths of files of cases. A line `case NAME` begins a case with a registry of its own, and each line
//! after it is a call (`calls`). Nothing here is clever: it is code to be read and trusted, and only its safety is proved.
#![tactic(auto)]

mod calls;
mod finds;
mod shown;

use anyhow::Result;
use calls::Case;
use std::{env, fs};

/// Runs the cases of a file one by one, and prints each line and what came.
fn run_file(rt: &HostRuntime, text: &str) -> Result<()> {
    let mut case = Case::new(rt.alloc())?;
    for line in text.lines() {
        if line.is_empty() || line.starts_with('#') {
            continue;
        }
        if line.starts_with("case ") {
            case = Case::new(rt.alloc())?;
            rt.println(line)?;
        } else {
            let came = case.run(rt.alloc(), line)?;
            println!(rt; "{line}: {came}")?;
        }
    }
    Ok(())
}

fn main(rt: HostRuntime) -> Result<()> {
    for path in env::args(&rt)?.skip(1) {
        let bytes = fs::read(&rt, path.as_str())?;
        println!(rt; "{path}")?;
        run_file(&rt, str::from_utf8(&bytes)?)?;
    }
    Ok(())
}

//! Runs cases of the parts of a text stream that stand as text in data/, and prints what came; `stdout` has what must come.
//!
//! The words are the paths of files of cases. Each line is a call (`calls`). Nothing here is clever: it is code to be read
//! and trusted, and only its safety is proved.
#![tactic(auto)]

mod calls;

use anyhow::Result;
use std::{env, fs};

/// Makes the calls of a file one by one, and prints each line and what came.
fn run_file(rt: &HostRuntime, text: &str) -> Result<()> {
    for line in text.lines() {
        if line.is_empty() || line.starts_with('#') {
            continue;
        }
        let came = calls::run(rt.alloc(), line)?;
        println!(rt; "{line}: {came}")?;
    }
    Ok(())
}

fn main(rt: HostRuntime) -> Result<()> {
    for path in env::args(&rt)?.skip(1) {
        let bytes = fs::read(&rt, path.as_str())?;
        println!(rt; "{path}")?;
        run_file(&rt, str::from_utf8(&bytes)?)?;
    }
    Ok(())
}

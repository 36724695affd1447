//! Prints how many lines a file has, and how many bytes the longest of them.
#![tactic(auto)]

use anyhow::bail;
use py_buffered::BufferedReader;
use py_raw::{IoFault, Opener, RawStream};
use py_raw_files::FileOpener;
use std::alloc::Global;
use std::env;

/// Goes over all lines of a reader, to its end.
fn count<R: RawStream>(
    alloc: Global,
    reader: &mut BufferedReader<R>,
) -> Result<(u64, usize), IoFault> {
    let mut longest = 0;
    for lines in 0..u64::MAX {
        let Some(line) = reader.readline(alloc, None)? else {
            return Err(IoFault::WouldBlock { taken: 0 }); // not ready, which a file of the disk never is
        };
        if line.is_empty() {
            return Ok((lines, longest));
        }
        longest = longest.max(line.len());
    }
    Ok((u64::MAX, longest))
}

fn main(rt: HostRuntime) -> anyhow::Result<()> {
    let alloc = rt.alloc();
    let Some(path) = env::args(&rt)?.nth(1) else {
        return Ok(println!(rt; "usage: count_lines <path>")?);
    };
    let mut opener = FileOpener::new(&rt);
    let Ok(raw) = opener.open_raw(alloc, path.as_str(), "rb") else {
        match opener.last_error() {
            Some(kind) => bail!("{path} can't be opened: {kind}"), // the system's reason
            None => bail!("out of memory"),
        }
    };
    let mut reader = BufferedReader::new(alloc, raw, 8192)?; // refused, the raw is dropped with nothing read
    let (lines, longest) = count(alloc, &mut reader)?;
    Ok(println!(rt; "{lines} lines, the longest of {longest} bytes")?)
}

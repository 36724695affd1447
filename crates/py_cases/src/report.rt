//! What is printed of a case.

use anyhow::Result;
use py_flat::IoFault;
use py_open::Reply;
use py_script::{push_refused_line, push_reply_line};
use std::alloc::Global;
use std::io;

/// Lines to be printed. Ten and more equal ones that follow one another are printed once, with how many they are.
#[derive(Drop)]
pub(crate) struct Report {
    pub(crate) alloc: Global,
    lines: Vec<Vec<u8>>,
}

impl Report {
    pub(crate) fn new(alloc: Global) -> Self {
        let lines = Vec::new(alloc);
        Report { alloc, lines }
    }

    /// Adds a line, without its LF.
    pub(crate) fn line(&mut self, line: &str) -> Result<()> {
        Ok(
            self.lines
                .push(Vec::from_slice(self.alloc, line.as_bytes())?)?,
        )
    }

    /// Adds the line of a reply, and ` short` where a wait cut the answer short.
    pub(crate) fn reply(&mut self, reply: &Reply, short: bool) -> Result<()> {
        let mut line = Vec::new(self.alloc);
        push_reply_line(self.alloc, &mut line, reply)?;
        line.pop();
        if short {
            line.extend_from_slice(b" short")?;
        }
        Ok(self.lines.push(line)?)
    }

    /// Adds the line of a refused opening.
    pub(crate) fn refused(&mut self, fault: IoFault) -> Result<()> {
        let mut line = Vec::new(self.alloc);
        push_refused_line(self.alloc, &mut line, fault)?;
        line.pop();
        Ok(self.lines.push(line)?)
    }

    /// Prints the lines.
    pub(crate) fn print(&self, rt: &HostRuntime) -> io::Result<()> {
        let mut times = 0usize;
        for (index, line) in self.lines.iter().enumerate() {
            times = times.saturating_add(1);
            if self.lines.get(index.saturating_add(1)) == Some(line) {
                continue;
            }
            let text = str::from_utf8(line).unwrap_or("(no UTF-8)");
            match times {
                10.. => println!(rt; "{text} ({times} times)")?,
                _ => {
                    for _ in 0..times {
                        println!(rt; "{text}")?;
                    }
                }
            }
            times = 0;
        }
        Ok(())
    }
}

/// Bytes in hex, or `-` where there are none.
pub(crate) fn hex_of(alloc: Global, bytes: &[u8]) -> Result<String> {
    match bytes {
        [] => Ok(String::from_str(alloc, "-")?),
        bytes => Ok(hex::encode(alloc, bytes)?),
    }
}

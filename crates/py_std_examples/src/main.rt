//! The examples of docs/ECOSYSTEM.md: each answers a line, which is printed. `stdout` has what must come.
#![tactic(auto)]

mod coded;
mod faults;
mod formatting;
mod lines;
mod places;
mod tables;
mod waits;

use anyhow::Result;

/// A line that an example answers.
fn print(rt: &HostRuntime, line: Result<String>) -> Result<()> {
    let line = line?;
    Ok(rt.println(line.as_str())?)
}

fn main(rt: HostRuntime) -> Result<()> {
    let alloc = rt.alloc();
    print(&rt, tables::copied(alloc))?;
    print(&rt, tables::moved(alloc))?;
    print(&rt, tables::over_waits(alloc))?;
    print(&rt, tables::written_over_waits(alloc))?;
    print(&rt, waits::read_over_waits(alloc))?;
    print(&rt, waits::exactly(alloc))?;
    print(&rt, waits::written_over_waits(alloc))?;
    print(&rt, places::replaced(alloc))?;
    print(&rt, places::among(alloc))?;
    print(&rt, places::lent(alloc))?;
    print(&rt, places::rewritten(alloc))?;
    print(&rt, places::refused(alloc))?;
    print(&rt, faults::failed(alloc))?;
    print(&rt, faults::waited(alloc))?;
    print(&rt, faults::cut_short(alloc))?;
    print(&rt, places::pieces(alloc))?;
    print(&rt, coded::numbers(alloc))?;
    print(&rt, coded::decoded(alloc))?;
    print(&rt, coded::hashed(alloc))?;
    print(&rt, lines::dropped(alloc))?;
    print(&rt, lines::of_random(alloc))?;
    print(&rt, lines::of_text(alloc))?;
    print(&rt, lines::kept(alloc))?;
    print(&rt, lines::lent(alloc))?;
    print(&rt, formatting::formatted(alloc))?;
    print(&rt, formatting::told(alloc))
}

//! The examples of docs/TEXTS.md and docs/COOKIES.md: each answers a line, which is printed. `stdout` has what must come.
#![tactic(auto)]

mod indexing;
mod line_ends;
mod lines;
mod making;
mod reading;
mod shown;
mod starving;
mod stopping;
mod writers;
mod writing;

use anyhow::Result;

/// A line that an example answers.
fn print(rt: &HostRuntime, line: Result<String>) -> Result<()> {
    let line = line?;
    Ok(rt.println(line.as_str())?)
}

fn main(rt: HostRuntime) -> Result<()> {
    let alloc = rt.alloc();
    print(&rt, making::read_by_hand(alloc))?;
    print(&rt, making::read_by_names(alloc))?;
    print(&rt, making::read_and_detached(alloc))?;
    print(&rt, making::refused(alloc))?;
    print(&rt, reading::characters_and_lines(alloc))?;
    print(&rt, reading::counted(alloc))?;
    print(&rt, stopping::bad_bytes(alloc))?;
    print(&rt, stopping::other_settings(alloc))?;
    print(&rt, stopping::waits(alloc))?;
    print(&rt, stopping::fails(alloc))?;
    print(&rt, stopping::closed(alloc))?;
    print(&rt, line_ends::pieces(alloc))?;
    print(&rt, line_ends::found(alloc))?;
    print(&rt, lines::of_both(alloc))?;
    print(&rt, indexing::indexed(alloc))?;
    print(&rt, indexing::unfit(alloc))?;
    print(&rt, writing::written(alloc))?;
    print(&rt, writing::many_lines(alloc))?;
    print(&rt, writing::read_in_part(alloc))?;
    print(&rt, writing::by_lines(alloc))?;
    print(&rt, starving::starves(alloc))?;
    print(&rt, writers::to_a_string(alloc))?;
    print(&rt, writers::to_a_sink(alloc))?;
    print(&rt, writers::to_a_lent_sink(alloc))?;
    print(&rt, writers::to_a_text(alloc))?;
    print(&rt, writers::to_a_raw(alloc))
}

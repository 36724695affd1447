//! Runs lists of calls of a reader and a writer as one stream, and prints what each call answers. `stdout` has what must come.
#![tactic(auto)]

mod lists;

use anyhow::Result;

fn main(rt: HostRuntime) -> Result<()> {
    lists::reads_and_writes(&rt)?;
    lists::waits_at_the_close(&rt)?;
    lists::fails_at_the_close(&rt)?;
    lists::both_fail_at_the_close(&rt)?;
    lists::refused(&rt)
}

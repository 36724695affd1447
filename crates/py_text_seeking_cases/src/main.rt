//! Puts texts at places, beside the plain slow text, in every encoding, by every handler and newline rule: at each of their characters, which
//! a cookie told, and back there once they were read on, over raw streams that wait before each transfer or fail at any call; by calls in no
//! order, of texts that are written too; and where forged cookies say. It prints how many answers came, of what kinds, and ends at the
//! first that differs. `stdout` has what must come.
//!
//! Nothing here is clever: it is code to be read and trusted, and only its safety is proved.
#![tactic(auto)]

mod forged;
mod numbers;
mod put;
mod seeking;
mod steps;

use anyhow::Result;
use put::{put_by_forged, put_each};
use seeking::Seeking;
use steps::Counts;

/// The sweeps of texts that are put at places.
const SEEKINGS: [Seeking; 6] = [
    Seeking::Back,
    Seeking::Waits,
    Seeking::Faults,
    Seeking::Written,
    Seeking::WrittenWaits,
    Seeking::WrittenFaults,
];

/// Prints what came of texts that were put at places.
fn print_counts(rt: &HostRuntime, name: &str, counts: Counts) -> Result<()> {
    println!(rt;
        "{name}: {} texts, {} answers, {} tells, {} seeks ({} inside), {} invalid, {} that don't fit, {} waits ({} of seeks), {} faults",
        counts.texts,
        counts.answers,
        counts.tells,
        counts.seeks,
        counts.inside,
        counts.invalid,
        counts.unfit,
        counts.waits,
        counts.waits_of_seeks,
        counts.faults
    )?;
    Ok(())
}

fn main(rt: HostRuntime) -> Result<()> {
    for which in SEEKINGS {
        print_counts(&rt, which.name(), put_each(rt.alloc(), which)?)?;
    }
    let counts = put_by_forged(rt.alloc())?;
    print_counts(&rt, "8 cookies each", counts)?;
    println!(rt; "{} of these cookies aren't the told one", counts.forged)?;
    Ok(())
}

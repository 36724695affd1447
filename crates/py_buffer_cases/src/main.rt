//! Tries descriptors and buffers, and prints what came; `stdout` has what must come (docs/TESTS.md).
//!
//! First come worked examples, then every descriptor of up to three dimensions with shapes 0 to 3 and strides -4 to 4, and
//! with shapes 0 to 2, strides -1 to 2 and suboffsets 0 to 2, compared with a plain walk over its items.
#![tactic(auto)]

mod compare;
mod examples;
mod plain;
mod sweep;
mod writable;

use anyhow::Result;
use sweep::Kind;

fn main(rt: HostRuntime) -> Result<()> {
    examples::print_segments(&rt)?;
    examples::print_pairs(&rt)?;
    examples::print_positions(&rt)?;
    examples::print_buffers(&rt)?;
    examples::print_owned(&rt)?;
    examples::print_borrowed(&rt)?;
    examples::print_arguments(&rt)?;
    writable::print_buffer(&rt)?;
    writable::print_contiguous(&rt)?;
    writable::print_refused(&rt)?;
    writable::print_argument(&rt)?;
    writable::print_argument_apart(&rt)?;
    writable::print_argument_back(&rt)?;
    writable::print_apart(&rt)?;
    writable::print_given_back(&rt)?;
    writable::print_lent(&rt)?;
    writable::print_faults(&rt)?;
    writable::print_refusals(&rt)?;
    writable::print_owned(&rt)?;
    writable::print_readonly(&rt)?;
    writable::print_described(&rt)?;
    for kind in [Kind::Strides, Kind::Suboffsets] {
        for itemsize in 1..3 {
            for dimensions in 1..4 {
                let tally = sweep::sweep(rt.alloc(), kind, itemsize, dimensions)?;
                tally.print(&rt, kind, itemsize, dimensions)?;
            }
        }
    }
    Ok(())
}

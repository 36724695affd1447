//! Raw streams in memory, which tell all that they hold and move, wait and fail by a plan, and what opens them by paths.
//!
//! They show what the layers above do over any cutting of transfers, and are what tests stand on.
#![tactic(auto)]

mod cut;
mod entries;
mod mem_opener;
mod mem_raw;

pub use cut::Cut;
pub use mem_opener::MemOpener;
pub use mem_raw::MemRaw;

//! A raw stream of one's own: a queue of bytes in memory, which would block where it is empty. docs/OWN_RAW.md goes through it.
#![tactic(auto)]

mod queue;
mod queue_raw;

pub use queue::Queue;
pub use queue_raw::QueueRaw;

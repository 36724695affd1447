//! The window of a buffered stream: the bytes that its buffer holds, with the stream's place among them, and those that the raw is owed.
//!
//! The engine above sees a window by its model alone, so that its bytes may lie in the buffer otherwise with no other crate changed.
#![tactic(auto)]

mod window;

pub use window::{Filled, Window};

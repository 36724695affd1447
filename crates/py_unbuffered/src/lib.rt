//! Binary streams without a buffer: each call goes to the raw stream below at once.
#![tactic(auto)]

mod data;
mod unbuffered_stream;

pub use py_stream::{Access, Detached, NewRefused, Whence};
pub use unbuffered_stream::UnbufferedStream;

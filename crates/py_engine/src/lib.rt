//! The engine under the buffered streams: a raw stream, one window on its bytes, and what became of the stream.
//!
//! One window has the bytes held, the stream's place among them, and those that the raw is owed. By what the stream is opened for,
//! the engine reads ahead or owes; what each of its calls answers is the one clause of all streams.
#![tactic(auto)]

mod data;

pub use data::BufferedData;

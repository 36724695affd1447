//! Binary sessions: a stream of bytes, buffered or not, on which calls are made as values.
//!
//! `BinarySession` opens a raw stream for reading, writing, both of them or appending, and answers each call by the one clause of all
//! binary streams. A `detach` hands over what the stream owes; the raw stays with the session, for `into_parts`.
#![tactic(auto)]

mod binary_session;
mod buffered;
mod buffered_calls;
mod kind;
mod replies;
mod space;
mod unbuffered_calls;

pub use binary_session::BinarySession;
pub use py_stream::Access;

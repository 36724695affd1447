//! A buffered stream over its engine, whatever it is opened for, until its raw is handed back. Its public types stand above, in
//! `py_buffered`.
#![tactic(auto)]

mod as_buffered;
mod buffered;

pub use buffered::Buffered;

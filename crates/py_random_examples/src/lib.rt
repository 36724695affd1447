//! The examples of docs/ of streams that are read and written, each a test: what a page shows is a part of one of these, and
//! `.ci/docs_examples` compares them.
//!
//! A file has the examples of one subject. `py_example_streams` makes the streams that they begin from.
#![tactic(auto)]

#[cfg(test)]
mod random;
#[cfg(test)]
mod random_faults;
#[cfg(test)]
mod random_mending;
#[cfg(test)]
mod random_write_faults;
#[cfg(test)]
mod records;

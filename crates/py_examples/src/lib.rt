//! The examples of README and of docs/, each a test: what a page shows is a part of one of these, and `.ci/docs_examples`
//! compares them.
//!
//! A file has the examples of one subject. `py_example_streams` makes the streams that they begin from; those of streams that are read
//! and written are `py_random_examples`.
#![tactic(auto)]

#[cfg(test)]
mod buffered;
#[cfg(test)]
mod buffers;
#[cfg(test)]
mod callers;
#[cfg(test)]
mod codecs;
#[cfg(test)]
mod faults;
#[cfg(test)]
mod files;
#[cfg(test)]
mod layers;
#[cfg(test)]
mod paths;
#[cfg(test)]
mod queue;
#[cfg(test)]
mod refusals;
#[cfg(test)]
mod sessions;
#[cfg(test)]
mod shown;
#[cfg(test)]
mod texts;

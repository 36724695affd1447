//! The program, but for `main`: from its words to the lines that it prints and the status that it ends with.
//!
//! `run_program` speaks to an opener, a source and a sink, so that it can be tried over those in memory; `py_io_cli` gives
//! it files of the system, standard input and standard output (docs/PROGRAM.md).
#![tactic(auto)]

mod laws;
mod printing;
mod program;
mod script;
mod status;

pub use laws::{a_smooth_run_prints_the_exact_replies, a_smooth_run_prints_what_settles};
pub use program::run_program;
pub use status::Status;

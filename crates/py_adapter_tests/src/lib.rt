//! Tests of what no list of cases reaches of the system: the thin adapters over files, readers and writers, over fakes and over real
//! files.
//!
//! The sessions and programs over them have their cases in `py_cases`; what needs no system is tested in `py_small_tests`.
#![tactic(auto)]

#[cfg(test)]
mod calls;
#[cfg(test)]
mod failing_files;
#[cfg(test)]
mod fake;
#[cfg(test)]
mod file_opener;
#[cfg(test)]
mod file_raw;
#[cfg(test)]
mod paths;
#[cfg(test)]
mod read_write_raw;
#[cfg(test)]
mod source_sink;

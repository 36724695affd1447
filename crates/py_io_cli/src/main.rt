//! A program that opens a file and runs a script of calls on it, printing each reply (docs/PROGRAM.md).
#![tactic(auto)]

mod complaint;
mod noting;

use complaint::complaint;
use noting::Noting;
use py_program::{Status, run_program};
use py_raw::{ReadSource, WriteSink};
use py_raw_files::FileOpener;
use std::fs::Files;
use std::io::ErrorKind;
use std::process::ExitCode;
use std::{env, fs, io};

/// The words of the command line without the program's own name: `WordsMalformed` where one isn't UTF-8, `NoMemory` where there
/// is none.
fn command_words(rt: &HostRuntime) -> Result<Vec<String>, Status> {
    match env::args(rt) {
        Ok(args) => {
            let mut words = Vec::new(rt.alloc());
            for word in args.skip(1) {
                if words.push(word).is_err() {
                    return Err(Status::NoMemory);
                }
            }
            Ok(words)
        }
        Err(error) => match error.kind() {
            ErrorKind::OutOfMemory => Err(Status::NoMemory),
            _ => Err(Status::WordsMalformed),
        },
    }
}

/// A handle of a folder, which can be neither read nor written. Where a standard stream is closed, its number goes to what is opened
/// next: to such a handle, and not to the file of the words, into which the replies would be written.
fn stand_in<R: Files>(files: &R) -> io::Result<R::File> {
    fs::open(files, "/")
}

/// Says a line on standard error, where there is one. That this fails changes no status.
fn say(rt: &HostRuntime, line: &str) {
    if !line.is_empty() {
        let _ = eprintln!(rt; "py_io_cli: {line}");
    }
}

/// Runs words with files of the system, standard input and standard output, and says what is amiss.
fn run(rt: &HostRuntime, words: &[String]) -> u8 {
    let alloc = rt.alloc();
    let mut opener = FileOpener::new(rt);
    let mut script = Noting::new(alloc, ReadSource::new(rt.stdin()));
    let mut out = WriteSink::new(rt.stdout());
    let code = run_program(alloc, words, &mut opener, &mut script, &mut out);
    match complaint(alloc, code, words, &opener, &script) {
        Ok(line) => say(rt, line.as_str()),
        Err(_) => say(rt, "out of memory"),
    }
    code
}

/// Runs the words of the command line, and ends with the status.
fn main(rt: HostRuntime) -> ExitCode {
    // One for each of standard input, output and error.
    let _held = (stand_in(&rt), stand_in(&rt), stand_in(&rt));
    match command_words(&rt) {
        Ok(words) => ExitCode::from(run(&rt, &words)),
        Err(status) => {
            let why = match status {
                Status::NoMemory => "out of memory",
                _ => "a word is not UTF-8",
            };
            say(&rt, why);
            ExitCode::from(status.code())
        }
    }
}

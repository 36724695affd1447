//! What is said on standard error where the program doesn't end with 0, or the system failed a call of the file: one line, for a person
//! who has to act on it.

use crate::noting::Noting;
use py_calls::{OpenArgs, plan_open};
use py_program::Status;
use py_raw::{IoFault, Source};
use py_raw_files::FileOpener;
use py_registry::{CodecsRegistry, NoHandler, NoSearch};
use py_script::{Command, parse_line, parse_words};
use std::alloc::{AllocError, Global};
use std::fs::Files;

/// The line of a status; for 0 nothing, unless the system said why a call of the file failed.
pub fn complaint<R: Files, S: Source>(
    alloc: Global,
    code: u8,
    words: &[String],
    opener: &FileOpener<'_, R>,
    script: &Noting<S>,
) -> Result<String, AllocError>
where
    R::File: Send,
{
    let path = words.get(1).map_or("", |word| word.as_str());
    match code {
        0 => match opener.last_file_error() {
            Some(kind) => format!(in alloc; "a call of {path:?} failed: {kind}"),
            None => String::from_str(alloc, ""),
        },
        2 => words_complaint(alloc, words),
        3 => script_complaint(alloc, script.seen()),
        4 => match opener.last_file_error() {
            Some(kind) => format!(in alloc; "the opening of {path:?} is refused: {kind}"),
            None => refused_complaint(alloc, words, path),
        },
        5 => String::from_str(alloc, "the script can't be read from standard input"),
        6 => String::from_str(alloc, "standard output can't be written"),
        8 => match opener.last_error() {
            Some(kind) => format!(in alloc; "{path:?} can't be opened: {kind}"),
            None => format!(in alloc; "{path:?} can't be closed"),
        },
        _ => String::from_str(alloc, "out of memory"),
    }
}

/// Which word is malformed: the last of the shortest front of the words that is malformed, once a command, a path and a mode are there.
fn words_complaint(alloc: Global, words: &[String]) -> Result<String, AllocError> {
    if let Some(word) = words.first() {
        if matches!(word.as_str(), "--help" | "--version") {
            return format!(in alloc; "{word} stands alone");
        }
    }
    if words.len() < 3 {
        return String::from_str(
            alloc,
            "the words are malformed: run PATH MODE [OPTION ..], or --help",
        );
    }
    for count in 3..=words.len() {
        let front = words.get(..count).unwrap_or(words);
        if let (None, Some(word)) = (parse_words(alloc, front)?, front.last()) {
            let word = if count == 3 { &words[0] } else { word };
            return format!(in alloc; "the word {word:?} is malformed: try --help");
        }
    }
    String::from_str(alloc, "a word is not UTF-8")
}

/// Whether the plan of the program refuses an opening.
fn is_refused(alloc: Global, mode: &str, args: &OpenArgs) -> Result<bool, AllocError> {
    match CodecsRegistry::<NoSearch, NoHandler>::new(alloc) {
        Ok(mut registry) => match plan_open(&mut registry, alloc, mode, args) {
            Ok(_) => Ok(false),
            Err(IoFault::NoMemory) => Err(AllocError),
            Err(_) => Ok(true),
        },
        Err(_) => Err(AllocError),
    }
}

/// Why an opening was refused of which the system said nothing: the mode and the options refuse it, which opens nothing; or else the
/// file that was opened failed.
fn refused_complaint(alloc: Global, words: &[String], path: &str) -> Result<String, AllocError> {
    if let Some(Command::Run { mode, args, .. }) = parse_words(alloc, words)? {
        if is_refused(alloc, mode, &args)? {
            return format!(in alloc;
                "the mode {mode:?} or an option is refused for {path:?}, by the name that was printed: try --help"
            );
        }
    }
    format!(in alloc; "{path:?} can't be opened: the system gave no reason")
}

/// Why a script is malformed: it is too long, and was read no further then, so that its last line is cut; or which of its lines is,
/// from 1 on.
fn script_complaint(alloc: Global, script: &[u8]) -> Result<String, AllocError> {
    if script.len() > 1_048_576 {
        return String::from_str(alloc, "the script has more than 1048576 bytes");
    }
    for (index, line) in script.split(|byte| *byte == b'\n').enumerate() {
        let is_skipped = line.is_empty() || line.starts_with(b"#");
        if !is_skipped && parse_line(alloc, line)?.is_none() {
            let number = index.saturating_add(1);
            return format!(in alloc; "line {number} of the script is malformed");
        }
    }
    String::from_str(alloc, "the script is malformed") // a piece of it for which there was no memory isn't among what was seen
}

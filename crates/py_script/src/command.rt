ghost use Rattle.std.specs.Prelude.{◌≡◌, map, string_bytes, IfOk, option_map};
ghost use Rattle.py_script.specs.CommandWords.{command_shown, lone_command, command_of};

use crate::options::parse_options;
use py_calls::OpenArgs;
use std::alloc::{AllocError, Global};

/// What the words of a command line ask for.
#[derive(Debug, Drop)]
pub enum Command<'a> {
    /// `run`: a script of calls on a file.
    Run {
        /// Where the file is: any text.
        path: &'a str,
        /// The mode of the opening: any text, which the opening judges.
        mode: &'a str,
        /// The arguments of the opening, at their defaults where no option gives one.
        args: OpenArgs,
    },
    /// `--help`: how the program is used.
    Help,
    /// `--version`: which program this is, by name and version.
    Version,
}

/// What the words of a command line ask for, without the program's own name; `None` where they are malformed, `Err` when out of memory.
///
/// A form is `--help` alone, `--version` alone, or `run`, a path, a mode and options, each at most once and in any order: `buffering=` and
/// one or more decimal digits after at most one `-`, from -9223372036854775808 to 9223372036854775807; `encoding=` and `errors=`, each with
/// any text; `newline=` and the UTF-8 of a text in hex of either case, two digits to a byte; `chunk=` and one or more decimal digits, up to
/// 18446744073709551615. Leading zeros are allowed, `+` is not. Where no option gives an argument, it is as in `OpenArgs::default`.
pub fn parse_words<'a>(
    alloc: Global,
    words: &'a [String],
) -> Result<Option<Command<'a>>, AllocError>
    ensures { IfOk result (λ command. option_map command_shown command ≡ command_of (map string_bytes words.now)) }
{
    match words {
        [word] => Ok(lone_command(word)),
        [word, path, mode, options @ ..] if word.as_str() == "run" => {
            match parse_options(alloc, options)? {
                Some(args) => Ok(Some(Command::Run { path, mode, args })),
                None => Ok(None),
            }
        }
        _ => Ok(None),
    }
}

/// What a word asks for that stands alone.
fn lone_command(word: &str) -> Option<Command<'_>>
    ensures { option_map command_shown result ≡ lone_command word.now }
{
    match word {
        "--help" => Some(Command::Help),
        "--version" => Some(Command::Version),
        _ => None,
    }
}

ghost use Rattle.std.specs.Prelude.{◌≡◌, map, string_bytes, IfOk};
ghost use Rattle.py_script.specs.Options.{named_option, option_of, given_with, arguments_by, arguments_of};

use crate::decimal::{parse_decimal, parse_integer};
use crate::hex_words::hex_text;
use py_calls::OpenArgs;
use py_flat::Chars;
use std::alloc::{AllocError, Global};

/// An option of the command line.
#[derive(Debug, Drop)]
enum WordOption {
    /// The buffer's size.
    Buffering(i64),
    /// The encoding's name.
    Encoding(Chars),
    /// The handler's name.
    Errors(Chars),
    /// The newline argument.
    Newline(Chars),
    /// The chunk size.
    ChunkSize(usize),
}

/// The options that were given so far.
#[derive(Debug, Default, Drop)]
struct Given {
    buffering: Option<i64>,
    encoding: Option<Chars>,
    errors: Option<Chars>,
    newline: Option<Chars>,
    chunk_size: Option<usize>,
}

/// The arguments of an opening by the words of its options, or `None` where one is no option or is given twice; `Err` when out of memory.
pub(crate) fn parse_options(alloc: Global, words: &[String]) -> Result<Option<OpenArgs>, AllocError>
    ensures { IfOk result (λ args. args ≡ arguments_of (map string_bytes words.now)) }
{
    let mut given = Given::default();
    for word in words {
        let Some(option) = parse_option(alloc, word)? else {
            return Ok(None);
        };
        let Some(more) = given_with(given, option) else {
            return Ok(None);
        };
        given = more;
    }
    Ok(Some(arguments_by(given)))
}

/// The options with one more, or `None` where it was given before.
fn given_with(given: Given, option: WordOption) -> Option<Given>
    ensures { result ≡ given_with given option }
{
    match option {
        WordOption::Buffering(size) if given.buffering.is_none() => Some(Given {
            buffering: Some(size),
            ..given
        }),
        WordOption::Encoding(name) if given.encoding.is_none() => Some(Given {
            encoding: Some(name),
            ..given
        }),
        WordOption::Errors(name) if given.errors.is_none() => Some(Given {
            errors: Some(name),
            ..given
        }),
        WordOption::Newline(text) if given.newline.is_none() => Some(Given {
            newline: Some(text),
            ..given
        }),
        WordOption::ChunkSize(size) if given.chunk_size.is_none() => Some(Given {
            chunk_size: Some(size),
            ..given
        }),
        _ => None,
    }
}

/// The arguments of an opening by some options, at their defaults where none is given.
fn arguments_by(given: Given) -> OpenArgs
    ensures { result ≡ arguments_by given }
{
    let defaults = OpenArgs::default();
    OpenArgs {
        buffering: given.buffering.unwrap_or(defaults.buffering),
        encoding: given.encoding,
        errors: given.errors,
        newline: given.newline,
        chunk_size: given.chunk_size.unwrap_or(defaults.chunk_size),
    }
}

/// The option of a word, a name, `=` and a value, or `None` where it is none; `Err` when out of memory.
fn parse_option(alloc: Global, word: &str) -> Result<Option<WordOption>, AllocError>
    ensures { IfOk result (λ option. option ≡ option_of word.now) }
{
    match word.split_once('=') {
        Some((name, value)) => named_option(alloc, name, value),
        None => Ok(None),
    }
}

/// The option of a name and its value, or `None` where there is none; `Err` when out of memory.
fn named_option(alloc: Global, name: &str, value: &str) -> Result<Option<WordOption>, AllocError>
    ensures { IfOk result (λ option. option ≡ named_option name.now value.now) }
{
    match name {
        "buffering" => Ok(parse_integer(value.as_bytes()).map(WordOption::Buffering)),
        "encoding" => Ok(Some(WordOption::Encoding(Chars::from_text(alloc, value)?))),
        "errors" => Ok(Some(WordOption::Errors(Chars::from_text(alloc, value)?))),
        "newline" => Ok(hex_text(alloc, value)?.map(WordOption::Newline)),
        "chunk" => Ok(parse_decimal(value.as_bytes()).map(WordOption::ChunkSize)),
        _ => Ok(None),
    }
}

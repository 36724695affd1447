//! The arguments of an opening.
ghost use Rattle.std.specs.Prelude.{◌≡◌, chars, option_map, codes, bytes_eq};
ghost use Rattle.py_registry.specs.Answers.{name_or_strict};
ghost use Rattle.py_calls.specs.OpenArgs.{default_args};
ghost use Rattle.py_calls.specs.Names.{text_encoding, encoding_name};

use py_flat::Chars;
use py_registry::DEFAULT_ENCODING;

/// The arguments of an opening beside path and mode, as Python's `open` takes them, and the chunk size of its texts.
/// A binary mode takes no encoding, errors and newline argument, whatever they say; `plan_open` says what is refused.
#[derive(Debug, Drop)]
pub struct OpenArgs {
    /// The buffer's size in bytes; 0 is unbuffered, which a text can't be; 1 or a negative number means 8192. With 1 a text is also
    /// flushed after each write that has a line end.
    pub buffering: i64,
    /// The encoding's name, which the registry finds; `None` and `locale`, letter for letter, stand for utf-8.
    pub encoding: Option<Chars>,
    /// The handler's name, which the registry finds letter for letter; `None` is the name `strict`.
    pub errors: Option<Chars>,
    /// The newline argument: `None` reads CR LF, CR and LF as LF, and the empty text reads them as they are; of LF, CR and CR LF each
    /// ends lines by itself. `None`, the empty text and LF are written as they are, and CR and CR LF for each LF. No other text is one.
    pub newline: Option<Chars>,
    /// How many bytes a text asks its buffer for at once, at least 1, also where a binary mode makes no use of it.
    pub chunk_size: usize,
}

impl Default for OpenArgs {
    /// Python's defaults: `buffering` -1, no names, no newline argument, and chunks of 8192 bytes.
    fn default() -> Self
        ensures { result ≡ default_args }
    {
        OpenArgs {
            buffering: -1,
            encoding: None,
            errors: None,
            newline: None,
            chunk_size: 8192,
        }
    }
}

/// The encoding's name of texts that an argument gives: `utf-8` for `None`, else the name itself, whatever it is.
pub fn text_encoding(encoding: Option<&str>) -> &str
    ensures { chars result.now ≡ text_encoding (option_map (λ name. chars name.now) encoding.entry) }
{
    match encoding {
        Some(name) => name,
        None => DEFAULT_ENCODING,
    }
}

/// Whether a name is that of the locale, letter for letter.
fn is_locale(name: &str) -> bool
    ensures { result ≡ bytes_eq (chars name.now) (codes "locale") }
{
    name == "locale"
}

/// The name that is looked for as a text's encoding; that of the locale is utf-8.
pub(crate) fn encoding_name(encoding: &Option<Chars>) -> &str
    ensures { chars result.now ≡ encoding_name encoding.now }
{
    match encoding {
        Some(name) => {
            let name = name.as_str();
            if is_locale(name) {
                DEFAULT_ENCODING
            } else {
                name
            }
        }
        None => DEFAULT_ENCODING,
    }
}

/// The name that is looked for as a text's handler.
pub(crate) fn handler_name(errors: &Option<Chars>) -> &str
    ensures { chars result.now ≡ name_or_strict errors.now }
{
    match errors {
        Some(name) => name.as_str(),
        None => "strict",
    }
}

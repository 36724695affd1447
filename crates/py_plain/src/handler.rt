ghost use Rattle.std.specs.Prelude.{◌≡◌};
ghost use Rattle.py_plain.specs.Names.{handler_name};
ghost use Rattle.py_plain.specs.Handlers.{reads_texts};

/// What is made of bytes that spell no character, and of characters that have no bytes.
///
/// A *refused range* is bytes that a decoding can't read; a *run* is characters, as many as stand together, that an
/// encoding has no bytes for. Python's documentation of `codecs` has the rules ("Error Handlers").
#[derive(Clone, Copy, Debug, PartialEq, Eq)]
pub enum Handler {
    /// Refuses both: the call that would have to pass them answers a `UnicodeDecodeError` or `UnicodeEncodeError`.
    Strict,
    /// Gives nothing for either.
    Ignore,
    /// Gives U+FFFD for a range, and `?` for each character of a run.
    Replace,
    /// Gives `&#`, the decimal number and `;` for each character of a run; refuses a range.
    XmlCharRefReplace,
    /// Gives `\x` and two hexadecimal digits for each byte of a range; for each character of a run so below U+0100,
    /// `\u` and four digits below U+10000, else `\U` and eight.
    BackslashReplace,
    /// Gives `\x` and the hexadecimal number of a surrogate whose bytes in the form of UTF-8 or UTF-16 begin at the
    /// range, and uses those bytes; refuses all else.
    SurrogatePass,
    /// Gives `#` and the decimal number 56320 + byte for each byte of a range up to the first ASCII one, and goes on at
    /// that; refuses a range that begins with ASCII, and runs.
    SurrogateEscape,
}

impl Handler {
    /// The name by which Python's documentation of `codecs` knows it.
    pub fn name(&self) -> &'static str
        ensures { result.now ≡ handler_name self.now }
    {
        match self {
            Handler::Strict => "strict",
            Handler::Ignore => "ignore",
            Handler::Replace => "replace",
            Handler::XmlCharRefReplace => "xmlcharrefreplace",
            Handler::BackslashReplace => "backslashreplace",
            Handler::SurrogatePass => "surrogatepass",
            Handler::SurrogateEscape => "surrogateescape",
        }
    }

    /// Whether it is one of the five that texts are read with: strict, ignore, replace, backslashreplace and
    /// surrogateescape. They look at nothing but the refused range.
    pub fn reads_texts(&self) -> bool
        ensures { result ≡ reads_texts self.now }
    {
        match self {
            Handler::Strict
            | Handler::Ignore
            | Handler::Replace
            | Handler::BackslashReplace
            | Handler::SurrogateEscape => true,
            Handler::XmlCharRefReplace | Handler::SurrogatePass => false,
        }
    }
}

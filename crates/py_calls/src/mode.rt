//! The mode of an opening, parsed.
ghost use Rattle.std.specs.Prelude.{◌≡◌};
ghost use Rattle.py_raw.specs.RawMode.{IsRawMode, raw_mode_text};
ghost use Rattle.py_calls.specs.Mode.{mode_of, letter_of, is_read, is_append, is_text, reads, writes};

use crate::letters::Letters;
use py_flat::ParseModeError;
use std::str::FromStr;

/// What is done with the file of a path.
#[derive(Clone, Copy, Debug, PartialEq, Eq)]
pub enum FileMode {
    /// `r`: an existing file, from its start.
    Read,
    /// `w`: an empty file.
    Write,
    /// `x`: a new file.
    Exclusive,
    /// `a`: an existing or a new file, at its end.
    Append,
}

impl FileMode {
    /// Whether an existing file is opened, from its start.
    pub fn is_read(self) -> bool
        ensures { result ≡ is_read self }
    {
        match self {
            FileMode::Read => true,
            FileMode::Write | FileMode::Exclusive | FileMode::Append => false,
        }
    }

    /// Whether the file is written at its end alone.
    pub fn is_append(self) -> bool
        ensures { result ≡ is_append self }
    {
        matches!(self, FileMode::Append)
    }
}

/// Whether calls speak of characters or of bytes.
#[derive(Clone, Copy, Debug, PartialEq, Eq)]
pub enum EncodeMode {
    /// `t`, or neither letter.
    Text,
    /// `b`.
    Bytes,
}

impl EncodeMode {
    /// Whether calls speak of characters.
    pub fn is_text(self) -> bool
        ensures { result ≡ is_text self }
    {
        match self {
            EncodeMode::Text => true,
            EncodeMode::Bytes => false,
        }
    }
}

/// The mode of an opening, as Python's `open` takes it.
///
/// It is read from its text by `parse`: `"rb+".parse::<Mode>()` reads and writes bytes.
#[derive(Clone, Copy, Debug, PartialEq, Eq)]
pub struct Mode {
    /// What is done with the file.
    pub file: FileMode,
    /// Whether it is read and written as text.
    pub encode: EncodeMode,
    /// `+`: both read and written.
    pub plus: bool,
}

impl Mode {
    /// Whether the file is read.
    pub fn reads(&self) -> bool
        ensures { result ≡ reads self.now }
    {
        self.plus || self.file.is_read()
    }

    /// Whether the file is written.
    pub fn writes(&self) -> bool
        ensures { result ≡ writes self.now }
    {
        self.plus || !self.file.is_read()
    }

    /// The mode by which the raw stream under a session of this mode is opened: the file letter, then `b`, then a `+`
    /// where there is one. It is one of the eight modes that an opener takes, `rb`, `rb+`, `wb`, `wb+`, `xb`, `xb+`, `ab`
    /// and `ab+`; a text is opened by its bytes as well.
    pub fn rawmode(&self) -> &'static str
        ensures text { result.now ≡ raw_mode_text (letter_of self.now.file) self.now.plus }
        ensures raw_mode { IsRawMode result.now }
    {
        match (self.file, self.plus) {
            (FileMode::Read, false) => "rb",
            (FileMode::Read, true) => "rb+",
            (FileMode::Write, false) => "wb",
            (FileMode::Write, true) => "wb+",
            (FileMode::Exclusive, false) => "xb",
            (FileMode::Exclusive, true) => "xb+",
            (FileMode::Append, false) => "ab",
            (FileMode::Append, true) => "ab+",
        }
    }
}

/// Reads the letters `r`, `w`, `x`, `a`, `t`, `b` and `+` from left to right, in any order (Python's documentation of
/// `open`): exactly one of `r`, `w`, `x` and `a`, at most one of `t` and `b`, where neither stands for `t`, and at most
/// one `+`.
///
/// The first letter that offends decides: `InvalidMode` for a letter that stood before and for any other character,
/// `MultipleFile` for a second, different one of `r`, `w`, `x` and `a`, `MultipleEncode` for `t` and `b` together. Where no
/// letter offends and none of `r`, `w`, `x` and `a` stood, it is `NoFile`.
impl FromStr for Mode {
    type Err = ParseModeError;

    ghost from_str_gives = { λ text answer. answer ≡ mode_of text };

    fn from_str(text: &str) -> Result<Mode, ParseModeError> {
        let mut said = Letters::none();
        for letter in text.as_bytes() {
            said = said.with(*letter)?;
        }
        said.mode()
    }
}

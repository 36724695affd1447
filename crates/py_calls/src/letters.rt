//! What the letters of a mode say, one after another.
ghost use Rattle.std.specs.Prelude.{◌≡◌};
ghost use Rattle.py_calls.specs.Mode.{no_letters, with_letter, with_file, with_encode, with_plus, mode_said};

use crate::{EncodeMode, FileMode, Mode};
use py_flat::ParseModeError;

/// What the letters of a mode said so far.
#[derive(Clone, Copy)]
pub(crate) struct Letters {
    file: Option<FileMode>,
    encode: Option<EncodeMode>,
    plus: bool,
}

impl Letters {
    /// What is said before the first letter: nothing.
    pub(crate) fn none() -> Self
        ensures { result ≡ no_letters }
    {
        Letters {
            file: None,
            encode: None,
            plus: false,
        }
    }

    /// The letters with one more, or how it offends.
    pub(crate) fn with(self, letter: u8) -> Result<Self, ParseModeError>
        ensures { result ≡ with_letter self letter }
    {
        match letter {
            b'r' => self.with_file(FileMode::Read),
            b'w' => self.with_file(FileMode::Write),
            b'x' => self.with_file(FileMode::Exclusive),
            b'a' => self.with_file(FileMode::Append),
            b't' => self.with_encode(EncodeMode::Text),
            b'b' => self.with_encode(EncodeMode::Bytes),
            b'+' => self.with_plus(),
            _ => Err(ParseModeError::InvalidMode),
        }
    }

    /// The letters with a file letter more: it is the first, or one that stood before, or another.
    fn with_file(self, file: FileMode) -> Result<Self, ParseModeError>
        ensures { result ≡ with_file self file }
    {
        match self.file {
            None => Ok(Letters {
                file: Some(file),
                ..self
            }),
            Some(before) if before == file => Err(ParseModeError::InvalidMode),
            Some(_) => Err(ParseModeError::MultipleFile),
        }
    }

    /// The letters with `t` or `b` more: the first of either is taken; the same again, or `t` and `b` together, is
    /// refused.
    fn with_encode(self, encode: EncodeMode) -> Result<Self, ParseModeError>
        ensures { result ≡ with_encode self encode }
    {
        match self.encode {
            None => Ok(Letters {
                encode: Some(encode),
                ..self
            }),
            Some(before) if before == encode => Err(ParseModeError::InvalidMode),
            Some(_) => Err(ParseModeError::MultipleEncode),
        }
    }

    /// The letters with a plus more.
    fn with_plus(self) -> Result<Self, ParseModeError>
        ensures { result ≡ with_plus self }
    {
        if self.plus {
            return Err(ParseModeError::InvalidMode);
        }
        Ok(Letters { plus: true, ..self })
    }

    /// The mode that the letters name when no further one comes, or that there is no file letter.
    pub(crate) fn mode(self) -> Result<Mode, ParseModeError>
        ensures { result ≡ mode_said self }
    {
        Ok(Mode {
            file: self.file.ok_or(ParseModeError::NoFile)?,
            encode: self.encode.unwrap_or(EncodeMode::Text),
            plus: self.plus,
        })
    }
}

//! From where a seek counts, by name.
ghost use Rattle.std.specs.Prelude.{◌≡◌};
ghost use Rattle.py_flat.specs.Whence.{number_of};

/// From where a `seek` counts its offset. A seek takes the number of Python's `io` (`SEEK_SET`, `SEEK_CUR`, `SEEK_END`), which
/// `into` gives: `stream.seek(0, Whence::End.into())`.
#[derive(Clone, Copy, Debug, PartialEq, Eq)]
pub enum Whence {
    /// The start of the stream: 0.
    Start,
    /// The place where the stream stands: 1.
    Current,
    /// The end of the stream: 2.
    End,
}

impl From<Whence> for i32 {
    ghost from_gives = { λ whence number. number ≡ number_of whence };

    fn from(whence: Whence) -> i32 {
        match whence {
            Whence::Start => 0,
            Whence::Current => 1,
            Whence::End => 2,
        }
    }
}

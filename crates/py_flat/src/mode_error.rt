ghost use Rattle.std.specs.Prelude.{◌≡◌, IfOk, string_bytes};
ghost use Rattle.py_flat.specs.ModeError.{message_of, raw_message_of};

use std::alloc::{AllocError, Global};
use thiserror::Error;

/// Why a text names no mode of a raw stream (`compute_mode`).
#[derive(Clone, Copy, Debug, PartialEq, Eq, Error)]
pub enum ModeError {
    /// A letter other than `r`, `w`, `x`, `a`, `b` and `+`.
    #[error("invalid mode")]
    Invalid,
    /// No file letter, a second one, or a second plus.
    #[error("Must have exactly one of create/read/write/append mode and at most one plus")]
    BadRwa,
}

impl ModeError {
    /// The message of Python's raw files for a mode that is refused for this reason, or `AllocError` when out of memory.
    /// `mode` is the text that was refused; only the message of `Invalid` shows it.
    pub fn error_msg(&self, alloc: Global, mode: &str) -> Result<String, AllocError>
        ensures { IfOk result (λ message. string_bytes message ≡ raw_message_of self.now mode.now) }
    {
        match self {
            ModeError::Invalid => format!(in alloc; "invalid mode: {mode}"),
            ModeError::BadRwa => String::from_str(
                alloc,
                "Must have exactly one of create/read/write/append mode and at most one plus",
            ),
        }
    }
}

/// Why a text names no mode of `io_open`, by its first letter that offends or, at last, by its end.
#[derive(Clone, Copy, Debug, PartialEq, Eq, Error)]
pub enum ParseModeError {
    /// A letter that no mode has, the same letter twice, or a second plus.
    #[error("invalid mode")]
    InvalidMode,
    /// A second, different letter among `r`, `w`, `x` and `a`.
    #[error("must have exactly one of create/read/write/append mode")]
    MultipleFile,
    /// Both `t` and `b`.
    #[error("can't have text and binary mode at once")]
    MultipleEncode,
    /// None of `r`, `w`, `x` and `a`.
    #[error("Must have exactly one of create/read/write/append mode and at most one plus")]
    NoFile,
}

impl ParseModeError {
    /// The message of Python's `open` for a mode that is refused for this reason, or `AllocError` when out of memory.
    /// `mode` is the text that was refused; only the message of `InvalidMode` shows it.
    pub fn error_msg(&self, alloc: Global, mode: &str) -> Result<String, AllocError>
        ensures { IfOk result (λ message. string_bytes message ≡ message_of self.now mode.now) }
    {
        match self {
            ParseModeError::InvalidMode => format!(in alloc; "invalid mode: '{mode}'"),
            ParseModeError::MultipleFile => String::from_str(
                alloc,
                "must have exactly one of create/read/write/append mode",
            ),
            ParseModeError::MultipleEncode => {
                String::from_str(alloc, "can't have text and binary mode at once")
            }
            ParseModeError::NoFile => String::from_str(
                alloc,
                "Must have exactly one of create/read/write/append mode and at most one plus",
            ),
        }
    }
}

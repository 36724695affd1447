ghost use Rattle.std.specs.Prelude.{◌≡◌};
ghost use Rattle.py_text.specs.Settings.{default_settings};

use py_plain::Newlines;

/// How a text stream treats line ends, and when it hands its buffer what was written.
///
/// The default is that of Python's `io.TextIOWrapper`: the universal rule, no line buffering, no write through, and chunks
/// of 8192 bytes.
#[derive(Clone, Copy, Debug, PartialEq, Eq)]
pub struct TextSettings {
    /// The rule of the line ends.
    pub newline: Newlines,
    /// Whether a text that has a line end is flushed once it is written.
    pub line_buffering: bool,
    /// Whether the stream keeps nothing of what is written, and hands all of it to its buffer.
    pub write_through: bool,
    /// How many bytes are read at once, and below how many the stream may keep of what is written.
    pub chunk_size: usize,
}

impl Default for TextSettings {
    ghost is_default = { λ settings. settings ≡ default_settings };

    fn default() -> TextSettings {
        TextSettings {
            newline: Newlines::Universal,
            line_buffering: false,
            write_through: false,
            chunk_size: 8192,
        }
    }
}

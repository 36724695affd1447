ghost use Rattle.std.specs.Prelude.{◌≡◌, unwrap_or};
ghost use Rattle.py_plain_text.specs.TextCalls.{changes_reading};
ghost use Rattle.py_text.specs.Settings.{no_changes, changes_of};

use crate::{Coder, TextSettings};
use py_plain::{Encoding, Handler, Newlines};

/// Settings that a text stream is given while it lives: those that are `None` stay as they are.
///
/// The default gives none.
#[derive(Clone, Copy, Debug, PartialEq, Eq)]
pub struct Reconfigure {
    /// The encoding of its bytes, from its place on.
    pub encoding: Option<Encoding>,
    /// The handler of bytes that spell no character, and of characters that have no bytes.
    pub errors: Option<Handler>,
    /// The rule of the line ends.
    pub newline: Option<Newlines>,
    /// Whether a text that has a line end is flushed once it is written.
    pub line_buffering: Option<bool>,
    /// Whether the stream keeps nothing of what is written, and hands all of it to its buffer. What it kept before it keeps until the next
    /// call that hands bytes on.
    pub write_through: Option<bool>,
}

impl Default for Reconfigure {
    ghost is_default = { λ changes. changes ≡ no_changes };

    fn default() -> Reconfigure {
        Reconfigure {
            encoding: None,
            errors: None,
            newline: None,
            line_buffering: None,
            write_through: None,
        }
    }
}

impl Reconfigure {
    /// Whether it says how a text is read: by its encoding, its handler or its newline rule.
    pub fn changes_reading(&self) -> bool
        ensures { result ≡ changes_reading (changes_of self.now) }
    {
        self.encoding.is_some() || self.errors.is_some() || self.newline.is_some()
    }

    /// What a text decodes and encodes by from here on.
    pub fn coder_after(&self, coder: Coder) -> Coder
        ensures encoding { result.encoding ≡ unwrap_or self.now.encoding coder.encoding }
        ensures errors { result.errors ≡ unwrap_or self.now.errors coder.errors }
    {
        Coder {
            encoding: self.encoding.unwrap_or(coder.encoding),
            errors: self.errors.unwrap_or(coder.errors),
        }
    }

    /// The other settings of a text from here on. The size of its chunks stays.
    pub fn settings_after(&self, settings: TextSettings) -> TextSettings
        ensures newline { result.newline ≡ unwrap_or self.now.newline settings.newline }
        ensures lines { result.line_buffering ≡ unwrap_or self.now.line_buffering settings.line_buffering }
        ensures through { result.write_through ≡ unwrap_or self.now.write_through settings.write_through }
        ensures chunk { result.chunk_size ≡ settings.chunk_size }
    {
        TextSettings {
            newline: self.newline.unwrap_or(settings.newline),
            line_buffering: self.line_buffering.unwrap_or(settings.line_buffering),
            write_through: self.write_through.unwrap_or(settings.write_through),
            chunk_size: settings.chunk_size,
        }
    }
}

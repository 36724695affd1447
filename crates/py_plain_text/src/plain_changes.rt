ghost use Rattle.std.specs.Prelude.{◌≡◌};
ghost use Rattle.py_plain_text.specs.TextCalls.{changes_reading};
ghost use Rattle.py_plain_text.specs.TextRefusals.{fits_handler};
ghost use Rattle.py_plain_text.specs.PlainSteps.{plain_abilities, changes_shown};

use py_plain::{Encoding, Handler, Newlines};

/// Settings that a plain text is given. Those that are `None` stay.
#[derive(Clone, Copy, Debug, Default, PartialEq, Eq)]
pub struct PlainChanges {
    /// What its characters are in bytes.
    pub encoding: Option<Encoding>,
    /// What stands for bytes that are no character, and for characters without bytes.
    pub handler: Option<Handler>,
    /// The rule of its line ends.
    pub newline: Option<Newlines>,
    /// Whether a write that has a line end is handed down at once. The plain text keeps nothing back, so that it only keeps the setting.
    pub line_buffering: Option<bool>,
    /// Whether each write is handed down at once. The plain text keeps nothing back, so that it only keeps the setting.
    pub write_through: Option<bool>,
}

impl PlainChanges {
    /// Whether the settings given say how a text is read: the encoding, the handler or the newline rule is among them.
    pub(crate) fn changes_reading(&self) -> bool
        ensures { result ≡ changes_reading (changes_shown self.now) }
    {
        self.encoding.is_some() || self.handler.is_some() || self.newline.is_some()
    }
}

/// Whether a handler is one of both directions, as a text needs it that is read and written.
pub(crate) fn fits_both(handler: Handler) -> bool
    ensures { result ≡ fits_handler plain_abilities handler }
{
    match handler {
        Handler::Strict
        | Handler::Ignore
        | Handler::Replace
        | Handler::BackslashReplace
        | Handler::SurrogateEscape => true,
        Handler::XmlCharRefReplace | Handler::SurrogatePass => false,
    }
}

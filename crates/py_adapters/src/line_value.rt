ghost use Rattle.std.specs.Prelude.{◌≡◌, ◌≢◌, true, false, []};
ghost use Rattle.py_plain.specs.NewlineRule.{line_end};
ghost use Rattle.py_adapters.specs.Lines.{units_of, chopped};

use crate::chopping::{chop_bytes, chop_text};
use py_flat::{Chars, Data};
use py_plain::Newlines;

/// A line, of bytes or of text.
#[derive(Debug, Drop, PartialEq, Eq)]
pub enum LineValue {
    /// A line of a stream of bytes.
    Bytes(Data),
    /// A line of a text.
    Text(Chars),
}

impl LineValue {
    /// Whether it has nothing, as a line at the end of its source.
    pub fn is_empty(&self) -> bool
        ensures none { result ≡ true → units_of self.now ≡ [] }
        ensures some { result ≡ false → units_of self.now ≢ [] }
    {
        match self {
            LineValue::Bytes(bytes) => bytes.is_empty(),
            LineValue::Text(text) => text.as_str().chars().next().is_none(),
        }
    }

    /// The line without the line end that it ends with by a rule, where it ends with one: LF, of the universal rule too; CR; CR LF; or, by
    /// the rule of the empty text, CR LF, CR or LF, the longest of them. It takes no memory.
    pub fn without_end(self, rule: Newlines) -> Self
        ensures { result ≡ chopped (line_end rule) self }
    {
        match self {
            LineValue::Bytes(bytes) => LineValue::Bytes(chop_bytes(bytes, rule)),
            LineValue::Text(text) => LineValue::Text(chop_text(text, rule)),
        }
    }
}

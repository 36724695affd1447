use crate::reading::Reading;
use crate::writing::Writing;

/// What is timed.
#[derive(Clone, Copy, Debug, PartialEq, Eq)]
pub(crate) enum Task {
    /// A file is read to its end.
    Reads(Reading),
    /// A file is written anew.
    Writes(Writing),
}

impl Task {
    pub(crate) fn from_word(word: &str) -> Option<Self> {
        match word {
            "whole" => Some(Task::Reads(Reading::Whole)),
            // One line that is the whole file is read as lines are.
            "lines" | "long" => Some(Task::Reads(Reading::Lines)),
            "pieces" => Some(Task::Reads(Reading::Pieces)),
            "told" => Some(Task::Reads(Reading::Told)),
            "sought" => Some(Task::Reads(Reading::Sought)),
            "writes-ascii" => Some(Task::Writes(Writing::AsciiLines)),
            "writes-mixed" => Some(Task::Writes(Writing::MixedLines)),
            "writes-ascii-crlf" => Some(Task::Writes(Writing::AsciiCrlf)),
            "writes-mixed-crlf" => Some(Task::Writes(Writing::MixedCrlf)),
            "large-mixed" => Some(Task::Writes(Writing::MixedPieces)),
            _ => None,
        }
    }

    /// What its answers are counted in.
    pub(crate) fn units(self) -> &'static str {
        match self {
            Task::Reads(_) => "bytes",
            Task::Writes(_) => "characters",
        }
    }
}

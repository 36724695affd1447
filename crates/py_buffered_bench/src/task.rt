use crate::reading::{Asked, Reading};

/// What is timed.
#[derive(Clone, Copy, Debug, PartialEq, Eq)]
pub(crate) enum Task {
    /// A file is read, to its end or behind seeks.
    Reads(Reading),
    /// A file is written anew, by std's trait or the writer's own calls.
    Writes { by_std: bool },
}

impl Task {
    pub(crate) fn from_word(word: &str) -> Option<Self> {
        match word {
            "lines" => Some(Task::Reads(Reading::Asked(Asked::Lines))),
            "pieces" => Some(Task::Reads(Reading::Asked(Asked::Pieces))),
            "whole" => Some(Task::Reads(Reading::Asked(Asked::Whole))),
            "small" => Some(Task::Reads(Reading::Small)),
            "small-by-std" => Some(Task::Reads(Reading::SmallByStd)),
            "lines-by-std" => Some(Task::Reads(Reading::LinesByStd)),
            "lent" => Some(Task::Reads(Reading::Lent)),
            "lent-by-std" => Some(Task::Reads(Reading::LentByStd)),
            "seeks" => Some(Task::Reads(Reading::Seeks)),
            "seeks-by-std" => Some(Task::Reads(Reading::SeeksByStd)),
            "writes" => Some(Task::Writes { by_std: false }),
            "writes-by-std" => Some(Task::Writes { by_std: true }),
            _ => None,
        }
    }
}

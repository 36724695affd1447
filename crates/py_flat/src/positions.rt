//! How a message names the places of a range.
ghost use Rattle.std.specs.Prelude.{Some};
ghost use Rattle.py_flat.specs.Positions.{positions_text};

use std::fmt;

/// The bytes or characters of a range, as the messages of Python's codecs name them: `byte in position 2` for one, and
/// `bytes in position 2-4` for three from 2 on. So the second number is the place of the last one, and not the one after it.
#[derive(Clone, Copy, Debug)]
pub(crate) struct Positions {
    /// What one byte or character of the range is called.
    pub unit: &'static str,
    /// The place of the first.
    pub start: u64,
    /// The place after the last.
    pub end: u64,
}

impl fmt::Display for Positions {
    ghost output = { λ p. Some (positions_text p.unit.now p.start p.end) };

    fn fmt<W: fmt::Write>(&self, f: &mut fmt::Formatter<W>) -> fmt::Result {
        let unit = self.unit;
        let start = self.start;
        let last = self.end.saturating_sub(1);
        if last <= start {
            write!(f, "{unit} in position {start}")
        } else {
            write!(f, "{unit}s in position {start}-{last}")
        }
    }
}

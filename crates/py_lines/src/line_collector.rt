ghost use Rattle.std.specs.Prelude.{◌≡◌, [], length};
ghost use Rattle.py_lines.specs.Collecting.{line_wanted, LineIsOpen, EndsIn, FitsLimit, TakesBytes};

use crate::{Collected, Collector, line_end};
use std::alloc::{AllocError, Global};
use std::marker::Model;

/// Collects one line: the bytes of a stream up to and with the first LF, at most a limit of them; all of them where
/// neither comes.
///
/// Contracts see the bytes of the line so far and its limit.
#[derive(Debug, Drop)]
pub struct LineCollector {
    line: Vec<u8>,
    left: Option<usize>,
    limit: Option<usize>,
}

impl Model for LineCollector {
    ghost use Rattle.std.specs.Prelude.{vec_len, ◌≡◌};
    ghost use Rattle.py_lines.specs.Collecting.{LineView, limit_left, WithinLimit};

    ghost Value = { LineView };

    ghost view = { λ l. record { line = l.line.items; limit = l.limit } };

    ghost invariant = { λ l. (l.left ≡ limit_left l.limit (vec_len l.line)) × WithinLimit l.limit (vec_len l.line) };
}

impl LineCollector {
    /// A collector that has nothing so far, of a line of at most `limit` bytes, its LF among them; without a limit the line
    /// ends by its LF alone. It takes no memory.
    pub fn new(alloc: Global, limit: Option<usize>) -> Self
        ensures new { result ≡ record { line = []; limit = limit } }
        ensures open { LineIsOpen result }
    {
        LineCollector {
            line: Vec::new(alloc),
            left: limit,
            limit,
        }
    }

    /// The bytes of the line so far: once `collect` answered `Enough`, or the stream ended, the whole line. It takes no
    /// memory.
    pub fn into_line(self) -> Vec<u8>
        ensures { result.items ≡ self.line }
    {
        let LineCollector {
            line,
            left: _,
            limit: _,
        } = self;
        line
    }
}

impl Collector for LineCollector {
    ghost collected = { λ l. l.line };

    ghost wanted = { line_wanted };

    ghost is_open = { LineIsOpen };

    fn collect(&mut self, bytes: &[u8]) -> Result<Collected, AllocError> {
        match self.end_in(bytes) {
            Some(used) => {
                self.take(&bytes[..used])?;
                Ok(Collected::Enough(used))
            }
            None => {
                self.take(bytes)?;
                Ok(Collected::All)
            }
        }
    }
}

impl LineCollector {
    /// Where the line ends in a piece. Nothing is taken.
    fn end_in(&self, bytes: &[u8]) -> Option<usize>
        requires { LineIsOpen self.now }
        ensures { EndsIn self.now bytes.now result }
    {
        line_end(bytes, self.left)
    }

    /// Puts bytes after the line, no more than the limit leaves.
    fn take(&mut self, bytes: &[u8]) -> Result<(), AllocError>
        requires { FitsLimit self.old (length bytes.now) }
        ensures { TakesBytes self.old bytes.now result self.new }
    {
        self.line.extend_from_slice(bytes)?;
        if let Some(left) = self.left {
            self.left = Some(left - bytes.len());
        }
        Ok(())
    }
}

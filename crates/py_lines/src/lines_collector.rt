ghost use Rattle.std.specs.Prelude.{◌≡◌, false};
ghost use Rattle.py_flat.specs.Lines.{Lf, has_end_after, lines_of, joined};
ghost use Rattle.py_lines.specs.Collecting.{lines_collected, lines_wanted, all_lines, IsNewLines, IsOneLine, LinesAreOpen, TakesLine, EndLineOutcome, KeepOutcome};

use crate::{Collected, Collector};
use memchr::memchr;
use py_flat::{Data, Lines};
use std::alloc::{AllocError, Global};
use std::marker::Model;
use std::mem;

/// Collects lines, each with its LF: those of a stream up to the one with which they have more bytes than a hint, all of
/// them where none does. The last of the stream may lack its LF.
///
/// Contracts see the lines that are ended, the bytes after the last end, the hint, and how many bytes it still allows.
#[derive(Debug, Drop)]
pub struct LinesCollector {
    alloc: Global,
    // There is room for one line more wherever `part` has bytes, so that they are made a line without memory.
    lines: Vec<Data>,
    part: Vec<u8>,
    left: Option<usize>,
    hint: Option<usize>,
}

impl Model for LinesCollector {
    ghost use Rattle.py_lines.specs.Collecting.{LinesView, AreCut, HasRoomForPart};

    ghost Value = { LinesView };

    ghost view = { λ l. record { lines = l.lines.items; part = l.part.items; hint = l.hint; left = l.left } };

    ghost invariant = { λ l. AreCut l.lines.items l.part.items × HasRoomForPart l.lines l.part.items };
}

impl LinesCollector {
    /// A collector that has nothing so far, of lines until their total is above `hint` bytes; without a hint, and for 0, of
    /// all lines. It takes no memory. The rule is that of `readlines` of Python's `io.IOBase`.
    pub fn new(alloc: Global, hint: Option<usize>) -> Self
        ensures new { IsNewLines hint result }
        ensures open { LinesAreOpen result }
    {
        let left = match hint {
            Some(0) => None,
            other => other,
        };
        LinesCollector {
            alloc,
            lines: Vec::new(alloc),
            part: Vec::new(alloc),
            left,
            hint,
        }
    }

    /// The lines so far, of which the last may lack its LF: once `collect` answered `Enough`, or the stream ended, all that
    /// are wanted. It takes no memory.
    pub fn into_lines(self) -> Lines
        ensures lines { result ≡ all_lines self }
        ensures all { joined result ≡ lines_collected self }
        ensures cut { lines_of (joined result) ≡ result }
    {
        let LinesCollector {
            alloc: _,
            lines,
            part,
            left: _,
            hint: _,
        } = self;
        let mut lines = lines;
        if !part.is_empty() {
            lines.push(Data::from_vec(part)).unwrap();
        }
        Lines::from_vec(lines)
    }

    /// The line that was begun, with the bytes up to its end. Nothing is begun then.
    fn take_line(&mut self, rest: &[u8]) -> Result<Vec<u8>, AllocError>
        requires { IsOneLine rest.now }
        ensures { TakesLine self.old rest.now result self.new }
    {
        if self.part.is_empty() {
            return Vec::from_slice(self.alloc, rest);
        }
        self.part.extend_from_slice(rest)?;
        Ok(mem::replace(&mut self.part, Vec::new(self.alloc)))
    }

    /// Ends the line that was begun with the bytes up to its end. Whether the lines are enough then.
    fn end_line(&mut self, rest: &[u8]) -> Result<bool, AllocError>
        requires one { IsOneLine rest.now }
        requires open { LinesAreOpen self.old }
        ensures { EndLineOutcome self.old rest.now result self.new }
    {
        let line = self.take_line(rest)?;
        let length = line.len();
        self.lines.push(Data::from_vec(line))?;
        match self.left {
            None => Ok(false),
            Some(left) => {
                self.left = Some(left.saturating_sub(length));
                Ok(length > left)
            }
        }
    }

    /// Keeps bytes that end no line.
    fn keep(&mut self, bytes: &[u8]) -> Result<(), AllocError>
        requires { has_end_after Lf false bytes.now ≡ false }
        ensures { KeepOutcome self.old bytes.now result self.new }
    {
        // What holds of every collector is known from here on.
        let _ = &self.part;
        if bytes.is_empty() {
            return Ok(());
        }
        self.lines.reserve(1)?;
        self.part.extend_from_slice(bytes)?;
        Ok(())
    }
}

impl Collector for LinesCollector {
    ghost collected = { lines_collected };

    ghost wanted = { lines_wanted };

    ghost is_open = { LinesAreOpen };

    fn collect(&mut self, bytes: &[u8]) -> Result<Collected, AllocError> {
        let mut used = 0;
        loop {
            match memchr(b'\n', &bytes[used..]) {
                Some(at) => {
                    let enough = self.end_line(&bytes[used..used + at + 1])?;
                    used += at + 1;
                    if enough {
                        return Ok(Collected::Enough(used));
                    }
                }
                None => {
                    self.keep(&bytes[used..])?;
                    return Ok(Collected::All);
                }
            }
        }
    }
}

//! The lines of a reader as an iterator.
ghost use Rattle.std.specs.Prelude.{◌≡◌};
ghost use Rattle.std.specs.Iterator.{at_most};
ghost use Rattle.py_buffered.specs.Lines.{GivesLine};

use crate::BufferedReader;
use py_raw::{IoFault, RawStream};
use std::alloc::Global;

/// The lines that a reader has left, which `BufferedReader::lines` gives. Each item is what `readline` answers without a limit:
/// a line with its LF, which the last may lack; `None` where the raw would have blocked; or a refusal.
///
/// A wait doesn't end it: the next item goes on, and after a line that the wait cut short it is the rest of that line. It ends
/// where nothing is left, after a refusal, which is its last item, and after 18446744073709551615 items, so that every loop over
/// it ends. Once it ended it calls the reader no more. What stands in the reader then, `readline` says; `lines` may be
/// called again.
#[derive(Debug, Drop)]
pub struct BufferedLines<'a, R: RawStream> {
    reader: &'a mut BufferedReader<R>,
    alloc: Global,
    /// How many items may still come: none once it ended.
    left: u64,
}

impl<'a, R: RawStream> BufferedLines<'a, R> {
    /// The lines of a reader, from where it stands.
    pub(crate) fn new(reader: &'a mut BufferedReader<R>, alloc: Global) -> Self
        ensures same_reference { result.reader.ghost_name ≡ reader.entry.ghost_name }
        ensures reader { result.reader.now ≡ reader.old }
        ensures left { result.left ≡ 18446744073709551615 }
    {
        BufferedLines {
            reader,
            alloc,
            left: u64::MAX,
        }
    }
}

impl<'a, R: RawStream> Iterator for BufferedLines<'a, R> {
    type Item = Result<Option<Vec<u8>>, IoFault>;

    ghost next_gives = { λ lines item rest. (rest.reader.ghost_name ≡ lines.reader.ghost_name) × GivesLine lines.reader.now lines.left item rest.reader.now rest.left };

    ghost remaining = { λ lines. at_most lines.left };

    fn next(&mut self) -> Option<Result<Option<Vec<u8>>, IoFault>> {
        if self.left == 0 {
            return None;
        }
        match self.reader.readline(self.alloc, None) {
            Ok(Some(line)) => {
                if line.is_empty() {
                    self.left = 0;
                    return None;
                }
                self.left -= 1;
                Some(Ok(Some(line)))
            }
            Ok(None) => {
                self.left -= 1;
                Some(Ok(None))
            }
            Err(fault) => {
                self.left = 0;
                Some(Err(fault))
            }
        }
    }
}

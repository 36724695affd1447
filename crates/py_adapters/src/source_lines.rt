//! The lines of a source as an iterator.
ghost use Rattle.std.specs.Prelude.{◌≡◌};
ghost use Rattle.std.specs.Iterator.{at_most};
ghost use Rattle.py_plain.specs.NewlineRule.{line_end};
ghost use Rattle.py_adapters.specs.Items.{in_ends, GivesItem};

use crate::{LineSource, LineValue};
use py_flat::IoFault;
use py_plain::Newlines;
use std::alloc::Global;

/// Whether lines come with the line end that they end with.
#[derive(Clone, Copy, Debug, PartialEq, Eq)]
pub enum LineEnds {
    /// Each line has its end, which the last may lack.
    Kept,
    /// No line has the end that the rule of its source ends lines by: an LF of a stream of bytes, and of a text whose rule is universal or
    /// LF, so that a CR before it stays; a CR, or a CR LF, of a text by these rules; and a CR LF, CR or LF of one whose rule is the empty
    /// text.
    Dropped,
}

/// The lines that a source has left: a `BufferedReader`, a `BufferedRandom` or a `TextIOWrapper`. Each item is what its `readline`
/// answers without a limit: a line, with its end or without; `None` where the raw would have blocked; or a refusal.
///
/// A wait doesn't end it: the next item goes on, and after a line that the wait cut short it is the rest of that line, also where line
/// ends are dropped; of a CR LF that the wait cut in two each half is dropped where it is an end by itself. It ends where nothing is left,
/// after a refusal, which is its last item, and after 18446744073709551615 items, so that every loop over it ends. Once it ended it
/// calls the source no more. What stands in the source then, its `readline` says. A loop over it that stops early loses nothing.
#[derive(Debug, Drop)]
pub struct SourceLines<'a, S: LineSource> {
    source: &'a mut S,
    alloc: Global,
    ends: LineEnds,
    /// How many items may still come: none once it ended.
    left: u64,
}

impl<'a, S: LineSource> SourceLines<'a, S> {
    /// The lines of a source, from where it stands.
    pub fn new(alloc: Global, source: &'a mut S, ends: LineEnds) -> Self
        ensures same_reference { result.source.ghost_name ≡ source.entry.ghost_name }
        ensures source { result.source.now ≡ source.old }
        ensures ends { result.ends ≡ ends }
        ensures left { result.left ≡ 18446744073709551615 }
    {
        SourceLines {
            source,
            alloc,
            ends,
            left: u64::MAX,
        }
    }
}

/// A line with its end or without.
fn in_ends(line: LineValue, ends: LineEnds, rule: Newlines) -> LineValue
    ensures { result ≡ in_ends ends (line_end rule) line }
{
    match ends {
        LineEnds::Kept => line,
        LineEnds::Dropped => line.without_end(rule),
    }
}

impl<'a, S: LineSource> Iterator for SourceLines<'a, S> {
    type Item = Result<Option<LineValue>, IoFault>;

    ghost next_gives = { λ lines item rest. (rest.source.ghost_name ≡ lines.source.ghost_name) × GivesItem S.answers S.rule lines.ends lines.source.now lines.left item rest.source.now rest.left × (rest.ends ≡ lines.ends) };

    ghost remaining = { λ lines. at_most lines.left };

    fn next(&mut self) -> Option<Result<Option<LineValue>, IoFault>> {
        if self.left == 0 {
            return None;
        }
        let rule = self.source.newline();
        match self.source.readline(self.alloc, None) {
            Ok(Some(line)) => {
                if line.is_empty() {
                    self.left = 0;
                    return None;
                }
                self.left -= 1;
                Some(Ok(Some(in_ends(line, self.ends, rule))))
            }
            Ok(None) => {
                self.left -= 1;
                Some(Ok(None))
            }
            Err(fault) => {
                self.left = 0;
                Some(Err(fault))
            }
        }
    }
}

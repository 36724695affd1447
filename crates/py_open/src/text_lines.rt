//! The lines of a text as an iterator.
ghost use Rattle.std.specs.Prelude.{◌≡◌, ◌≢◌, true, false, []};
ghost use Rattle.std.specs.Iterator.{at_most};
ghost use Rattle.py_open.specs.TextLines.{GivesLine};

use crate::TextSession;
use py_flat::{Chars, IoFault};
use py_raw::RawStream;
use std::alloc::Global;

/// The lines that a text has left, which `TextSession::lines` gives. Each item is what `readline` answers without a limit: a
/// line with its LF, which the last may lack; `None` where the raw would have blocked; or a refusal.
///
/// A wait doesn't end it: the next item goes on, and after a line that the wait cut short it is the rest of that line. It ends
/// where nothing is left, after a refusal, which is its last item, and after 18446744073709551615 items, so that every loop over
/// it ends. Once it ended it calls the text no more. What stands then in the text, `readline` says; `lines` may be called
/// again, and after a `UnicodeDecodeError` begins with the same line.
#[derive(Debug, Drop)]
pub struct TextLines<'a, R: RawStream> {
    text: &'a mut TextSession<R>,
    alloc: Global,
    /// How many items may still come: none once it ended.
    left: u64,
}

/// Whether a text has no characters.
fn has_none(text: &Chars) -> bool
    ensures none { result ≡ true → text.now ≡ [] }
    ensures some { result ≡ false → text.now ≢ [] }
{
    text.as_str().chars().next().is_none()
}

impl<'a, R: RawStream> TextLines<'a, R> {
    /// The lines of a text, from its place on.
    pub(crate) fn new(text: &'a mut TextSession<R>, alloc: Global) -> Self
        ensures same_reference { result.text.ghost_name ≡ text.entry.ghost_name }
        ensures text { result.text.now ≡ text.old }
        ensures left { result.left ≡ 18446744073709551615 }
    {
        TextLines {
            text,
            alloc,
            left: u64::MAX,
        }
    }
}

impl<'a, R: RawStream> Iterator for TextLines<'a, R> {
    type Item = Result<Option<Chars>, IoFault>;

    ghost next_gives = { λ lines item rest. (rest.text.ghost_name ≡ lines.text.ghost_name) × GivesLine lines.text.now lines.left item rest.text.now rest.left };

    ghost remaining = { λ lines. at_most lines.left };

    fn next(&mut self) -> Option<Result<Option<Chars>, IoFault>> {
        if self.left == 0 {
            return None;
        }
        match self.text.readline(self.alloc, None) {
            Ok(Some(line)) => {
                if has_none(&line) {
                    self.left = 0;
                    return None;
                }
                self.left -= 1;
                Some(Ok(Some(line)))
            }
            Ok(None) => {
                self.left -= 1;
                Some(Ok(None))
            }
            Err(fault) => {
                self.left = 0;
                Some(Err(fault))
            }
        }
    }
}

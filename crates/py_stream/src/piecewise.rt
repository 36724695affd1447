//! Pieces of a caller's bytes that a stream takes, one after the other.
ghost use Rattle.std.specs.Prelude.{◌≡◌, ◌+◌, ◌≤◌, true, length, IfOk};
ghost use Rattle.py_flat.specs.declared.life.Life.TheVariants.{Live};
ghost use Rattle.py_flat.specs.Limits.{greatest_place};
ghost use Rattle.py_flat.specs.Lines.{joined};
ghost use Rattle.py_stream.specs.Stream.{Stream};
ghost use Rattle.py_stream.specs.Keeping.{IsSound};
ghost use Rattle.py_stream.specs.Writing.{OwesBehind};
ghost use Rattle.py_stream.specs.Taking.{BeginsWriting, PutsOutcome, KeepsWhatFits};
ghost use Rattle.py_flat.specs.Calls.{WriteLines};
ghost use Rattle.py_stream.specs.Answers.{Answers};
ghost use Rattle.py_stream.specs.Replies.{done_reply};

use crate::end_of_lines;
use py_raw::{IoFault, Lines};

/// A stream that takes a caller's bytes, piece by piece.
pub trait TakesPieces {
    /// What the stream is seen as.
    ghost shows: { Self → Stream };

    /// When a call that gives bytes may begin.
    ghost may_begin: { Self → Type 0 };

    /// What holds of a stream while it takes the pieces of a call.
    ghost takes: { Self → Type 0 };

    /// Begins a call that gives bytes, or refuses it, with all as it was. No answer is short yet.
    fn begin_writing(&mut self) -> Result<(), IoFault>
        requires may { may_begin self.old }
        ensures begins { BeginsWriting (shows self.old) result (shows self.new) }
        ensures takes { IfOk result (λ done. takes self.new) };

    /// The stream's place, in bytes from the start of the file; pending writes count.
    fn next_place(&self) -> u64
        ensures { result ≡ (shows self.now).place };

    /// Notes that a wait cut the answer short.
    fn note_short(&mut self)
        ensures { shows self.new ≡ record (shows self.old) { short = true } };

    /// Takes a piece for a call that began at a place; false where the raw would have blocked, and some of it is left over.
    fn take_piece(&mut self, piece: &[u8], start: u64) -> Result<bool, IoFault>
        requires live { (shows self.old).life ≡ Live }
        requires takes { takes self.old }
        requires start { start ≤ (shows self.old).place }
        requires within { (shows self.old).place + length piece.now ≤ greatest_place }
        ensures outcome { PutsOutcome (shows self.old) piece.now start result (shows self.new) }
        ensures room { KeepsWhatFits (shows self.old) piece.now result (shows self.new) }
        ensures takes { takes self.new };
}

/// Takes each line, for a call that begins here; false where some of them are left over.
fn take_lines<S: TakesPieces>(stream: &mut S, lines: &Lines, start: u64) -> Result<bool, IoFault>
    requires live { (S.shows stream.old).life ≡ Live }
    requires takes { S.takes stream.old }
    requires sound { IsSound (S.shows stream.old) }
    requires behind { OwesBehind (S.shows stream.old) }
    requires start { start ≡ (S.shows stream.old).place }
    requires within { start + length (joined lines.now) ≤ greatest_place }
    ensures outcome { PutsOutcome (S.shows stream.old) (joined lines.now) start result (S.shows stream.new) }
    ensures room { KeepsWhatFits (S.shows stream.old) (joined lines.now) result (S.shows stream.new) }
{
    for line in lines.as_slice() {
        if !stream.take_piece(line.as_slice(), start)? {
            return Ok(false);
        }
    }
    Ok(true)
}

/// Takes lines, as one write of them joined.
pub fn write_lines<S: TakesPieces>(stream: &mut S, lines: &Lines) -> Result<(), IoFault>
    requires may { S.may_begin stream.old }
    ensures { Answers (S.shows stream.old) (WriteLines lines.now) (done_reply result) (S.shows stream.new) }
{
    stream.begin_writing()?;
    let start = stream.next_place();
    if end_of_lines(start, lines).is_none() {
        return Err(IoFault::TooFar);
    }
    if take_lines(stream, lines, start)? {
        return Ok(());
    }
    stream.note_short();
    Err(IoFault::WouldBlock {
        taken: stream.next_place() - start,
    })
}

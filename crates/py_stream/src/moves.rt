//! Where a stream stands, moving it, and giving its bytes a size, of any stream over a raw.
ghost use Rattle.std.specs.Prelude.{◌≡◌, ◌≤◌, ℕ, true, false, [], IfOk};
ghost use Rattle.py_flat.specs.declared.life.Life.TheVariants.{Live};
ghost use Rattle.py_flat.specs.Limits.{greatest_place};
ghost use Rattle.py_flat.specs.Calls.{FileCall, Seek, Tell, Truncate, Refused};
ghost use Rattle.py_stream.specs.Stream.{Stream};
ghost use Rattle.py_stream.specs.Keeping.{IsSound};
ghost use Rattle.py_stream.specs.Access.{can_of};
ghost use Rattle.py_stream.specs.Answers.{Answers, KeepsStream, RefusesAlone};
ghost use Rattle.py_stream.specs.Replies.{place_reply};
ghost use Rattle.py_stream.specs.Moving.{Begins, keeps_pending, OwesBy, SettlesBy, TargetOutcome, EndOutcome, StepsTo, GoOutcome};
ghost use Rattle.py_stream.specs.Sizing.{ResizeOutcome};
ghost use Rattle.py_stream.specs.Writing.{StandsBare};
ghost use Rattle.py_stream.specs.Buffer.{buffer_of, TellsPlace, AnswersEnd};

use crate::{LiveRaw, moved_by};
use py_raw::{GREATEST_PLACE, IoFault, RawStream};

/// A stream that may be moved, and whose bytes may be given a size.
pub trait Moves {
    /// The raw stream under the stream.
    type Raw: RawStream;

    /// What the stream is seen as.
    ghost shows: { Self → Stream };

    /// What holds of a stream that is settled.
    ghost rests: { Self → Type 0 };

    /// Begins a call: the life refuses it, or it may go on. No answer is short yet, and nothing else changes.
    fn begin_call(&mut self) -> Result<(), IoFault>
        ensures begins { Begins (shows self.old) result (shows self.new) }
        ensures sound { IsSound (shows self.old) }
        ensures owes { OwesBy (keeps_pending (shows self.old)) (shows self.old) };

    /// The stream's raw, lent, and what the stream is opened for.
    fn live(&self) -> &LiveRaw<Self::Raw>
        ensures { can_of result.now.access result.now.raw.seekable ≡ (shows self.now).can };

    /// The stream's place, in bytes from the start of the file; pending writes count.
    fn stands_at(&self) -> u64
        ensures { result ≡ (shows self.now).place };

    /// Where the stream ends, in bytes from the start of the file, with what it owes. `RawFault` fails the stream; `NoMemory` leaves all
    /// as it was.
    fn end(&mut self) -> Result<u64, IoFault>
        requires live { (shows self.old).life ≡ Live }
        requires can { (shows self.old).can.seekable ≡ true }
        ensures { EndOutcome (shows self.old) result (shows self.new) };

    /// Passes on all that is owed, and keeps the place. `RawFault` fails the stream, `WouldBlock` and `NoMemory` leave it live; each
    /// leaves what wasn't passed on owed.
    fn pass_on(&mut self) -> Result<(), IoFault>
        requires live { (shows self.old).life ≡ Live }
        requires whole { (shows self.old).short ≡ false }
        ensures { SettlesBy (keeps_pending (shows self.old)) (shows self.old) result (shows self.new) };

    /// Passes on all that is owed, and keeps the place, as `pass_on` does; of a stream that writes the raw then stands at the place, and
    /// nothing is held.
    fn settle(&mut self) -> Result<(), IoFault>
        requires live { (shows self.old).life ≡ Live }
        requires whole { (shows self.old).short ≡ false }
        ensures settles { SettlesBy (keeps_pending (shows self.old)) (shows self.old) result (shows self.new) }
        ensures bare { IfOk result (λ done. (shows self.old).can.writable ≡ true → StandsBare (shows self.new)) }
        ensures rests { IfOk result (λ done. rests self.new) };

    /// Moves to a place, in bytes from the start of the file, without a call of the raw, where the stream is read and holds bytes so far;
    /// else it stays, and answers false.
    fn step_to(&mut self, target: u64) -> bool
        requires live { (shows self.old).life ≡ Live }
        ensures { StepsTo (shows self.old) target result (shows self.new) };

    /// Moves to a place, in bytes from the start of the file, where nothing is owed. `RawFault` fails the stream; `NoMemory` leaves all as
    /// it was.
    fn go_to(&mut self, target: u64) -> Result<(), IoFault>
        requires live { (shows self.old).life ≡ Live }
        requires can { (shows self.old).can.seekable ≡ true }
        requires none { (shows self.old).owed.bytes ≡ [] }
        requires within { target ≤ greatest_place }
        ensures { GoOutcome (shows self.old) target result (shows self.new) };

    /// Gives the raw's bytes a size in bytes, where nothing is owed. The place is kept. `RawFault`: the stream is failed, and the bytes
    /// are as they were or have the size. `NoMemory`: with all as it was.
    fn resize(&mut self, size: u64) -> Result<(), IoFault>
        requires live { (shows self.old).life ≡ Live }
        requires writes { (shows self.old).can.writable ≡ true }
        requires none { (shows self.old).owed.bytes ≡ [] }
        requires rests { rests self.old }
        requires within { size ≤ greatest_place }
        ensures { ResizeOutcome (shows self.old) size result (shows self.new) };
}

/// Where a seek goes.
fn target<S: Moves>(stream: &mut S, offset: i64, whence: i32) -> Result<u64, IoFault>
    requires live { (S.shows stream.old).life ≡ Live }
    requires can { (S.shows stream.old).can.seekable ≡ true }
    requires far { (S.shows stream.old).place ≤ greatest_place }
    ensures { TargetOutcome (S.shows stream.old) offset whence result (S.shows stream.new) }
{
    match whence {
        0 => moved_by(0, offset),
        1 => moved_by(stream.stands_at(), offset),
        2 => {
            let end = stream.end()?;
            moved_by(end, offset)
        }
        _ => Err(IoFault::BadWhence),
    }
}

/// Moves a stream by an offset from the start (0), the place (1) or the end (2), and answers the new place: among the bytes held, where it
/// is read and they go so far; else once nothing is owed.
pub fn seek<S: Moves>(stream: &mut S, offset: i64, whence: i32) -> Result<u64, IoFault>
    ensures { Answers (S.shows stream.old) (Seek offset whence) (place_reply result) (S.shows stream.new) }
{
    stream.begin_call()?;
    if !stream.live().is_movable() {
        return Err(IoFault::Unsupported);
    }
    let target = target(stream, offset, whence)?;
    if stream.step_to(target) {
        return Ok(target);
    }
    stream.pass_on()?;
    stream.go_to(target)?;
    Ok(target)
}

/// The place, where the stream's raw can seek.
pub fn tell<S: Moves>(stream: &mut S) -> Result<u64, IoFault>
    ensures answers { Answers (S.shows stream.old) Tell (place_reply result) (S.shows stream.new) }
    ensures tells { (taken : ℕ) → TellsPlace (buffer_of (S.shows stream.old) taken) result (buffer_of (S.shows stream.new) taken) }
{
    stream.begin_call()?;
    if !stream.live().seekable() {
        return Err(IoFault::Unsupported);
    }
    Ok(stream.stands_at())
}

/// Where a stream ends, in bytes from the start of the file, with what it owes. The place is kept.
///
/// It is refused as `tell` is, with all as it was. `RawFault` fails the stream; `NoMemory`, of a raw that takes some, leaves all as it was.
pub fn end<S: Moves>(stream: &mut S) -> Result<u64, IoFault>
    ensures answers { (taken : ℕ) → AnswersEnd (buffer_of (S.shows stream.old) taken) result (buffer_of (S.shows stream.new) taken) }
    ensures keeps { KeepsStream (S.shows stream.old) (S.shows stream.new) }
{
    stream.begin_call()?;
    if !stream.live().seekable() {
        return Err(IoFault::Unsupported);
    }
    stream.end()
}

/// Cuts a stream's bytes to a size in bytes, or lengthens them by zeros; without a size to the place, which is kept. What is owed is
/// passed on first. The answer is the size.
///
/// The life refuses it, then `Unsupported` (of a stream that doesn't write, or may not be moved), then `TooFar` (a size past the greatest
/// place): each leaves all as it was. What stops the passing on is answered next: `WouldBlock { taken: 0 }` and `NoMemory` leave the
/// stream live, `RawFault` fails it, and what wasn't passed on is owed still. Where the raw fails at the size, its bytes are as they were
/// or have the size, and the stream is failed.
pub fn truncate<S: Moves>(stream: &mut S, size: Option<u64>) -> Result<u64, IoFault>
    ensures { Answers (S.shows stream.old) (Truncate size) (place_reply result) (S.shows stream.new) }
{
    stream.begin_call()?;
    if !stream.live().is_truncatable() {
        return Err(IoFault::Unsupported);
    }
    let size = size.unwrap_or(stream.stands_at());
    if size > GREATEST_PLACE {
        return Err(IoFault::TooFar);
    }
    stream.settle()?;
    stream.resize(size)?;
    Ok(size)
}

/// Refuses a call by the life, or as one that the stream lacks.
pub fn refuse<S: Moves>(stream: &mut S) -> IoFault
    ensures answers { (call : FileCall) → RefusesAlone (S.shows stream.old) call → Answers (S.shows stream.old) call (Refused result) (S.shows stream.new) }
    ensures same { S.shows stream.new ≡ record (S.shows stream.old) { short = false } }
{
    match stream.begin_call() {
        Ok(()) => IoFault::Unsupported,
        Err(fault) => fault,
    }
}

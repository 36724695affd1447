//! Sessions: what a plan opens over a raw stream, and on which calls are made.
ghost use Rattle.std.specs.Prelude.{◌≡◌};
ghost use Rattle.py_stream.specs.Opening.{StandsAtStart, first_refusal};
ghost use Rattle.py_open.specs.Session.{Answers, ClosesRaw, life_of, short_of, raw_of, owed_of};
ghost use Rattle.py_calls.specs.Plan.{IsPlanned, buffer_of};
ghost use Rattle.py_open.specs.Kinds.{seen, IsSession};
ghost use Rattle.py_open.specs.Laws.{IsReached, GoesBackBy};
ghost use Rattle.py_open.specs.Opening.{SessionOutcome, access_of, suits_plan, place_handed};

use crate::text_calls::answer_text;
use crate::{Call, FileMode, Mode, OpenPlan, PlanKind, Reply, TextPlan, TextSession};
use py_binary::{Access, BinarySession};
use py_flat::{IoFault, Life};
use py_raw::RawStream;
use py_stream::{Detached, NewRefused, refused_at_first};
use std::alloc::Global;
use std::marker::Model;

/// What a session calls.
#[derive(Debug, Drop)]
pub(crate) enum Kind<R: RawStream> {
    /// A text that is read or written, or both.
    Text(TextSession<R>),
    /// A stream of bytes.
    Binary(BinarySession<R>),
}

/// A stream that was opened, and on which calls are made one by one: a text, or a stream of bytes with a buffer or without, that is read,
/// written, both read and written, or appended to.
///
/// It is seen as a text's state or as a stream: the flat file, the raw under it, its buffer's size, whether its last answer was
/// short, and the bytes that it owes the raw. A session that is dropped drops its raw, and what it owes;
/// `finish` hands both back.
#[derive(Debug, Drop)]
pub struct Session<R: RawStream> {
    kind: Kind<R>,
}

impl<R: RawStream> Model for Session<R> {
    ghost use Rattle.py_open.specs.Session.{SessionView};
    ghost use Rattle.py_open.specs.Kinds.{seen, IsSession};

    ghost Value = { SessionView };

    ghost view = { λ s. seen s.kind };

    ghost invariant = { λ s. IsSession s.kind };
}

impl<R: RawStream> Session<R> {
    /// A session as it is planned, over a raw that is opened for it. It begins where the raw stands, one that appends at the
    /// end, to which a raw that can seek is moved; one that can't stands at place 0.
    ///
    /// Refused, the raw is handed back with nothing read or written: `Closed`, then `Unsupported` where it can't do what it is opened for
    /// (one that is both read and written through a buffer has to seek), `NoMemory`, and `RawFault` where it fails to say where it stands or
    /// ends, or to move there. But for the last one that tells still stands where it stood.
    pub(crate) fn open(alloc: Global, raw: R, plan: OpenPlan) -> Result<Self, NewRefused<R>>
        requires planned { IsPlanned plan }
        requires start { StandsAtStart (R.shows raw) }
        ensures { SessionOutcome R.shows raw plan result }
    {
        let access = access_of(plan.mode);
        match plan.kind {
            PlanKind::Text(text) => {
                let TextPlan {
                    buffer_size,
                    coder,
                    settings,
                } = text;
                match TextSession::new(alloc, raw, access, buffer_size, coder, settings) {
                    Ok(text) => Ok(Session {
                        kind: Kind::Text(text),
                    }),
                    Err(refused) => Err(refused),
                }
            }
            PlanKind::Buffered(_) | PlanKind::Bare => {
                match BinarySession::new(alloc, raw, access, plan.kind.buffer_size()) {
                    Ok(session) => Ok(Session {
                        kind: Kind::Binary(session),
                    }),
                    Err(refused) => Err(refused),
                }
            }
        }
    }

    /// Makes one call.
    ///
    /// A text has `Read`, `ReadLine`, `WriteText`, as far as it reads and writes, `SeekText` and `Tell`, as far as it can be moved,
    /// `SetChunkSize`, `Reconfigure`, `Flush`, `Close` and `Detach`; a stream of bytes all but the calls of texts, as far as it reads, writes
    /// and can be moved, and without a buffer no `Read1`, `ReadInto1`, `Peek` and `Detach`. The four questions `Readable`, `Writable`,
    /// `Seekable` and `Closed` are answered by a `Flag` in every life, and so are a text's `ChunkSize` by a `Count` of bytes, `Encoding` and
    /// `Errors` by a `Name`, or `NoMemory` for that.
    ///
    /// - Readings answer bytes, lines or characters, as many as asked for, or all that are left; fewer come only at the end.
    ///   `Read1`, `ReadInto1`, `Peek` and, without a buffer, `Read` of a size and `ReadInto` answer what one transfer of the raw gives,
    ///   none only where none is asked for or left. Where the raw would have blocked, what came by then is answered, never nothing, or it is
    ///   `NotReady` with nothing taken; `short` says so. Of a stream that is both read and written through a buffer, a reading that the bytes
    ///   held don't answer passes on first what is owed: it is `NotReady` too where that would have blocked, with the place as it was.
    /// - `Write` answers how many bytes were taken: all, or without a buffer those of one transfer; `WriteLines` is `Done`. `WriteText`
    ///   answers how many characters the text has: it is written whole, by the text's newline rule, or not at all. With line buffering a text
    ///   that has LF or CR is passed on at once.
    /// - `SetChunkSize` and `Reconfigure` are `Done`. `Seek` and `Tell` answer the place, a text's `Tell` a `Cookie` of it, which calls no
    ///   raw, takes no memory and leaves all as it was. `SeekText` passes on what was written, puts the text where a cookie says (0), or, by
    ///   zeros, where it stands (1) or its bytes end (2), and answers the cookie that it went by. `Truncate` answers the size, `Flush` and
    ///   `Close` `Done`. `Detach` answers what is unwritten, and its place; the raw stays with the session, and every call is `Detached` from
    ///   then on, but the questions.
    ///
    /// A write without a buffer whose raw would have blocked is `NotReady`, with nothing taken. Else a call is `Refused`:
    ///
    /// - `Failed` once a fault or running out of memory failed the session (a text and a stream with a buffer may still be detached),
    ///   `Closed` after a `Close` (which may be made again), `Detached` after a `Detach`; then `Unsupported` to a call that the session
    ///   lacks, `BadWhence`, `InvalidCookie`, `NegativeSeek` and `TooFar`: no raw is called, but for a seek from the end, and all stays as it
    ///   was. `ChunkSize`, `Encoding` and `Errors` are `Unsupported` in every life of a stream of bytes.
    /// - `BadArgument` for a chunk size of 0, `SeekFirst` where a text is written, or given an encoding, a handler or a newline rule to be
    ///   read by, once a reading that asked for characters was answered, also by none at the end; after a `Read` of all that was answered in
    ///   full, and after a `SeekText` that skips nothing, it may be written, and given them, again, `UnknownHandler` where a text is given a
    ///   handler that it isn't read or written with, `TooFar` where a write would end past the greatest place: with all as it was.
    /// - `UnicodeDecodeError`, with byte places from the start of the stream, where a range that the text's handler refuses stands before the
    ///   end of its answer: place and life stay, and a shorter read gives the characters before it. `UnicodeEncodeError`, with places in
    ///   characters, where a `WriteText` has a character that its encoding hasn't and its handler refuses: nothing is written.
    /// - `WouldBlock` where the raw would have blocked and the rest of a `Write` had no room in the buffer, or some of `WriteLines` wasn't
    ///   taken: the first `taken` bytes were; of a `WriteText` all its bytes, which later calls pass on. Of a `Seek`, `SeekText`, `Truncate`,
    ///   `Flush`, `Close` or `Detach` none were, and it may be made again; a `SeekText` may leave the text at the start of a cookie that
    ///   skips characters, clean.
    /// - `CannotRestore` to a `SeekText` whose cookie skips characters that the bytes at its start don't give: the text stands there, clean.
    /// - `RawFault` where the raw failed: the session is failed from then on; after `Close` it is closed.
    /// - `NoMemory`: place and life stay, but for a `SeekText` as above, and the call may be made again; but a `Read`, `ReadInto`, `ReadLine`
    ///   or `ReadLines` of bytes fails the session once bytes left the raw, a write of bytes once the raw took some of its bytes, a call of
    ///   a text where its buffer failed once the raw had some of the bytes that the text had kept or was given, and a `WriteText` with line
    ///   buffering also once the raw had some of its bytes.
    ///
    /// A `Close` of a live session that is `Done` has closed the raw, of every kind of session, and leaves nothing owed. Over a raw
    /// that tells, a `SeekText` by a cookie that a text of this session, or of another over the same bytes, told brings back what was left there
    /// (`a_text_goes_back_to_where_it_told` says when).
    ///
    /// The rules are those of Python's `io`; what waits, faults and refused ranges leave is this project's choice
    /// (docs/DECISIONS.md).
    pub fn call(&mut self, alloc: Global, call: &Call) -> Reply
        ensures answers { Answers self.old call.now result self.new }
        ensures closes { ClosesRaw self.old call.now result self.new }
        ensures reached { IsReached self.old → IsReached self.new }
        ensures goes_back { GoesBackBy self.old call.now result self.new }
    {
        answer_kind(alloc, &mut self.kind, call)
    }

    /// Whether the raw would have blocked before the last call was answered in full: its answer is what came by then, or was taken,
    /// or `NotReady`. It is false before the first call, and after a call that the wait didn't cut short.
    pub fn short(&self) -> bool
        ensures { result ≡ short_of self.now }
    {
        match &self.kind {
            Kind::Text(text) => text.short(),
            Kind::Binary(session) => session.short(),
        }
    }

    /// What became of the session: live from its opening on, failed by a fault of the raw or running out of memory, closed by
    /// `Close`, or detached by `Detach`.
    pub fn life(&self) -> Life
        ensures { result ≡ life_of self.now }
    {
        match &self.kind {
            Kind::Text(text) => text.life(),
            Kind::Binary(session) => session.life(),
        }
    }

    /// Hands the raw back, in every life, with the bytes that it isn't known to have, and the place of the first of them: with none unwritten
    /// a stream's own place, and of a text the byte from which its place counts characters: where it was opened or sought to, behind what was
    /// written last, or the end once all was read. No place comes where the raw can't seek, nor of a session that was detached, whose reply
    /// had what was unwritten. The raw is closed where a `Close` closed it, and else stands wherever its last call left it. What was read and
    /// not taken is dropped. It takes no memory.
    pub fn finish(self) -> Detached<R>
        ensures raw { R.shows result.raw ≡ raw_of self }
        ensures unwritten { result.unwritten.items ≡ owed_of self }
        ensures place { result.place ≡ place_handed self }
    {
        let Session { kind } = self;
        match kind {
            Kind::Text(text) => text.into_parts(),
            Kind::Binary(session) => session.into_parts(),
        }
    }
}

/// Makes one call on what a session calls.
fn answer_kind<R: RawStream>(alloc: Global, kind: &mut Kind<R>, call: &Call) -> Reply
    requires kept { IsSession kind.old }
    ensures answers { Answers (seen kind.old) call.now result (seen kind.new) }
    ensures kept { IsSession kind.new }
    ensures closes { ClosesRaw (seen kind.old) call.now result (seen kind.new) }
{
    match kind {
        Kind::Text(text) => answer_text(alloc, text, call),
        Kind::Binary(session) => session.call(alloc, call),
    }
}

/// What a mode opens a raw for; an opener has made the file by then.
fn access_of(mode: Mode) -> Access
    ensures { result ≡ access_of mode }
{
    match (mode.file, mode.plus) {
        (FileMode::Append, _) => Access::Append,
        (_, true) => Access::Update,
        (FileMode::Read, false) => Access::Read,
        (FileMode::Write | FileMode::Exclusive, false) => Access::Write,
    }
}

/// Why a plan's opening refuses a raw before it is asked for anything: `Closed` where it is closed, then `Unsupported` where it
/// can't do what the mode needs, then `BadArgument` for a buffer of 0 bytes. `None` where nothing refuses it.
pub(crate) fn raw_refusal<R: RawStream>(raw: &R, plan: OpenPlan) -> Option<IoFault>
    ensures { result ≡ first_refusal (suits_plan plan (R.shows raw.now)) (R.shows raw.now) (buffer_of plan.kind) }
{
    let buffer_size = plan.kind.buffer_size();
    let able = access_of(plan.mode).suits(buffer_size, raw);
    refused_at_first(raw, able, buffer_size)
}

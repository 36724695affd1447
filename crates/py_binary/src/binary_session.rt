//! The binary session.
ghost use Rattle.std.specs.Prelude.{◌≡◌, ◌≢◌, None, false, IsTrue, IfErr};
ghost use Rattle.py_flat.specs.Calls.{Detach, Refused};
ghost use Rattle.py_flat.specs.Refusals.{is_getter, is_other_getter};
ghost use Rattle.py_stream.specs.Handing.{PartsOutcome};
ghost use Rattle.py_stream.specs.Opening.{StandsAtStart, NewOutcome};
ghost use Rattle.py_stream.specs.Access.{can_of, is_able};
ghost use Rattle.py_calls.specs.Calls.{file_call, said};
ghost use Rattle.py_binary.specs.Binary.{AnswersBinary, AnswersCall, detached_fault, place_left};
ghost use Rattle.py_binary.specs.Kinds.{shown, IsServed, DetachesKind};

use crate::buffered::Buffered;
use crate::buffered_calls::answer_buffered;
use crate::kind::Kind;
use crate::unbuffered_calls::answer_unbuffered;
use py_calls::{Call, Reply};
use py_raw::{Data, IoFault, Life, RawStream};
use py_stream::{Access, Detached, NewRefused};
use py_unbuffered::UnbufferedStream;
use std::alloc::Global;
use std::marker::Model;
use std::mem;

/// A stream of bytes over a raw stream, on which calls are made as values.
///
/// It is seen as a `Stream`: what its raw shows, its place, what it can do, its life, the buffer's size (none without a
/// buffer), whether its last answer was short, and the bytes that it owes the raw, with the place of the first of them.
/// After a `Detach` nothing is left but the raw, the abilities and the buffer's size. A session that is dropped drops its raw,
/// and what it owes; `into_parts` hands both back.
#[derive(Debug, Drop)]
pub struct BinarySession<R: RawStream> {
    alloc: Global,
    stream: Kind<R>,
    raw: Option<R>,
}

impl<R: RawStream> Model for BinarySession<R> {
    ghost use Rattle.py_stream.specs.Stream.{Stream};
    ghost use Rattle.py_binary.specs.Kinds.{seen, IsSession};

    ghost Value = { Stream };

    ghost view = { λ s. seen R.shows s.stream s.raw };

    ghost invariant = { λ s. IsSession s.stream s.raw };
}

impl<R: RawStream> BinarySession<R> {
    /// A session over a raw that is read, written, both read and written, or appended to, with a buffer of `buffer_size` bytes, or
    /// none. It begins where the raw stands, one that appends at the end, to which a raw that can seek is moved. A raw that can't seek
    /// stands at place 0.
    ///
    /// Refused, the raw is handed back with nothing read or written: `Closed` where it is closed, then `Unsupported` where it
    /// can't do what it is opened for (what is both read and written through a buffer has to seek), `BadArgument` for a buffer of no
    /// bytes, `NoMemory`, and `RawFault` where it failed to say where it stands or ends, or to move there. Without a buffer `NoMemory`
    /// comes only of a raw that takes some.
    pub fn new(
        alloc: Global,
        raw: R,
        access: Access,
        buffer_size: Option<usize>,
    ) -> Result<Self, NewRefused<R>>
        requires start { StandsAtStart (R.shows raw) }
        ensures outcome { NewOutcome R.shows (is_able access buffer_size) (can_of access) raw buffer_size result }
        ensures memory { buffer_size ≡ None → IfErr result (λ refused. refused.fault ≡ IoFault.NoMemory → IsTrue (R.shows raw).takes_memory) }
    {
        match buffer_size {
            Some(size) => match Buffered::new(alloc, raw, access, size) {
                Ok(stream) => Ok(BinarySession::over(alloc, Kind::Buffered(stream))),
                Err(refused) => Err(refused),
            },
            None => match UnbufferedStream::new(raw, access) {
                Ok(stream) => Ok(BinarySession::over(alloc, Kind::Unbuffered(stream))),
                Err(refused) => Err(refused),
            },
        }
    }

    /// A session that calls this stream.
    fn over(alloc: Global, stream: Kind<R>) -> Self
        requires { IsServed stream }
        ensures { result ≡ shown stream }
    {
        BinarySession {
            alloc,
            stream,
            raw: None,
        }
    }

    /// Makes one call.
    ///
    /// A call of the stream is answered as its own type says (`BufferedReader`, `BufferedWriter`, `BufferedRandom`,
    /// `UnbufferedStream`), with the bytes that `ReadInto`, `ReadInto1` and `Peek` give as bytes of the reply, for which these may want memory. The four questions
    /// (`Readable`, `Writable`, `Seekable`, `Closed`) are answered in every life.
    ///
    /// A call that the stream lacks is refused by the life, else `Unsupported`; so are the calls of texts.
    /// `ChunkSize`, `Encoding` and `Errors` are `Unsupported` in every life.
    ///
    /// `Detach` answers `Unwritten`, the bytes that the stream still owed (none of a live one, which passes them on first) and the
    /// place of the first of them (`None` where the raw can't seek); the raw stays with the session, and every call is `Detached`
    /// from then on, but the four questions, and those three.
    pub fn call(&mut self, alloc: Global, call: &Call) -> Reply
        ensures { AnswersBinary self.old call.now result self.new }
    {
        match call {
            Call::Readable => {
                let value = self.stream.readable();
                self.flag(value)
            }
            Call::Writable => {
                let value = self.stream.writable();
                self.flag(value)
            }
            Call::Seekable => {
                let value = self.stream.seekable();
                self.flag(value)
            }
            Call::Closed => {
                let value = matches!(self.stream.life(), Life::Closed);
                self.flag(value)
            }
            Call::Detach => self.detach(),
            _ => self.answer(alloc, call),
        }
    }

    /// Answers a question.
    fn flag(&mut self, value: bool) -> Reply
        ensures reply { result ≡ Reply.Flag value }
        ensures whole { self.new ≡ record self.old { short = false } }
    {
        self.stream.forget_wait();
        Reply::Flag(value)
    }

    /// Makes a call that is no question and no `Detach`.
    fn answer(&mut self, alloc: Global, call: &Call) -> Reply
        requires asks { is_getter (file_call call.now) ≡ false }
        requires stays { file_call call.now ≢ Detach }
        ensures { AnswersCall self.old (file_call call.now) (said result) self.new }
    {
        if self.raw.is_some() {
            return refuse_detached(call);
        }
        answer_stream(alloc, &mut self.stream, call)
    }

    /// Detaches the stream: what it owes is handed over, and the raw stays.
    fn detach(&mut self) -> Reply
        ensures { AnswersCall self.old Detach (said result) self.new }
    {
        if self.raw.is_some() {
            return Reply::Refused(IoFault::Detached);
        }
        match detach_stream(&mut self.stream) {
            Ok(detached) => {
                let Detached {
                    raw,
                    unwritten,
                    place,
                } = detached;
                match mem::replace(&mut self.raw, Some(raw)) {
                    None => {}
                    Some(_) => unreachable!(),
                }
                Reply::Unwritten {
                    bytes: Data::from_vec(unwritten),
                    place,
                }
            }
            Err(fault) => Reply::Refused(fault),
        }
    }

    /// What became of the session.
    pub fn life(&self) -> Life
        ensures { result ≡ self.now.life }
    {
        self.stream.life()
    }

    /// Whether a wait of the raw cut the last call short.
    pub fn short(&self) -> bool
        ensures { result ≡ self.now.short }
    {
        self.stream.short()
    }

    /// The raw, what is owed, and the place of the first byte of that (`None` where the raw can't seek), in every life; of a
    /// detached session the raw alone. It calls no raw and takes no memory.
    pub fn into_parts(self) -> Detached<R>
        ensures raw { R.shows result.raw ≡ self.raw }
        ensures unwritten { result.unwritten.items ≡ self.owed.bytes }
        ensures place { result.place ≡ place_left self.life self }
    {
        let BinarySession { alloc, stream, raw } = self;
        let parts = parts_of(alloc, stream);
        match (raw, parts) {
            (None, Some(parts)) => parts,
            (Some(raw), None) => Detached {
                raw,
                unwritten: Vec::new(alloc),
                place: None,
            },
            _ => unreachable!(),
        }
    }
}

/// What a stream hands back, or nothing once it was detached.
fn parts_of<R: RawStream>(alloc: Global, stream: Kind<R>) -> Option<Detached<R>>
    ensures { PartsOutcome R.shows (shown stream) result }
{
    match stream {
        Kind::Buffered(stream) => stream.into_parts(),
        Kind::Unbuffered(stream) => Some(stream.into_parts(alloc)),
    }
}

/// Makes a call that is no question and no `Detach` on a stream.
fn answer_stream<R: RawStream>(alloc: Global, stream: &mut Kind<R>, call: &Call) -> Reply
    requires served { IsServed stream.old }
    requires asks { is_getter (file_call call.now) ≡ false }
    requires stays { file_call call.now ≢ Detach }
    ensures answers { AnswersCall (shown stream.old) (file_call call.now) (said result) (shown stream.new) }
    ensures served { IsServed stream.new }
{
    match call {
        Call::ChunkSize | Call::Encoding | Call::Errors => {
            stream.forget_wait();
            Reply::Refused(IoFault::Unsupported)
        }
        _ => answer_kind(alloc, stream, call),
    }
}

/// Makes a call that is no question, of bytes or of texts, and no `Detach` on a stream.
fn answer_kind<R: RawStream>(alloc: Global, stream: &mut Kind<R>, call: &Call) -> Reply
    requires served { IsServed stream.old }
    requires asks { is_getter (file_call call.now) ≡ false }
    requires known { is_other_getter (file_call call.now) ≡ false }
    requires stays { file_call call.now ≢ Detach }
    ensures answers { AnswersCall (shown stream.old) (file_call call.now) (said result) (shown stream.new) }
    ensures served { IsServed stream.new }
{
    match stream {
        Kind::Buffered(stream) => answer_buffered(alloc, stream, call),
        Kind::Unbuffered(stream) => answer_unbuffered(alloc, stream, call),
    }
}

/// The refusal of a call that is no question, once the stream was detached.
fn refuse_detached(call: &Call) -> Reply
    requires asks { is_getter (file_call call.now) ≡ false }
    ensures { said result ≡ Refused (detached_fault (file_call call.now)) }
{
    match call {
        Call::ChunkSize | Call::Encoding | Call::Errors => Reply::Refused(IoFault::Unsupported),
        _ => Reply::Refused(IoFault::Detached),
    }
}

/// Detaches a stream, or refuses to. A stream without a buffer is never detached.
fn detach_stream<R: RawStream>(stream: &mut Kind<R>) -> Result<Detached<R>, IoFault>
    requires served { IsServed stream.old }
    ensures { DetachesKind R.shows stream.old result stream.new }
{
    match stream {
        Kind::Buffered(stream) => stream.detach(),
        Kind::Unbuffered(stream) => Err(stream.refuse()),
    }
}

//! A text over a raw stream: a text over a buffered stream of it.
ghost use Rattle.std.specs.Prelude.{◌≡◌, ◌≢◌, ◌<◌, ◌≤◌, ◌-◌, ◌++◌, true, false, [], length, chars, vec_len, vec_capacity, option_map, IfSome, IfOk};
ghost use Rattle.py_flat.specs.Calls.{Refused};
ghost use Rattle.py_flat.specs.ExactStep.{is_closed};
ghost use Rattle.py_plain_text.specs.TextCalls.{Read, ReadLine, WriteText, SeekText, Tell, SetChunkSize, Flush, Close, OtherKind};
ghost use Rattle.py_plain_text.specs.TextCalls as text_call;
ghost use Rattle.py_plain_text.specs.Cookie.{is_buildable};
ghost use Rattle.py_plain_text.specs.CookieView.{cookie_shown};
ghost use Rattle.py_plain_text.specs.TextRefusals.{fits_handler};
ghost use Rattle.py_text.specs.Settings.{changes_of};
ghost use Rattle.py_stream.specs.Access.{can_of};
ghost use Rattle.py_stream.specs.Opening.{StandsAtStart};
ghost use Rattle.py_stream.specs.Replies.{count_reply, done_reply};
ghost use Rattle.py_read_text.specs.TextState.{settings_of};
ghost use Rattle.py_read_text.specs.Owing.{all_owed};
ghost use Rattle.py_read_text.specs.Answers as over;
ghost use Rattle.py_read_text.specs.Answers.{Answers, cookie_reply};
ghost use Rattle.py_open.specs.TextAnswers.{text_reply};
ghost use Rattle.py_buffered_core.specs.Buffered.{as_buffer};
ghost use Rattle.py_textio.specs.Handing.{HasRoomBehind};
ghost use Rattle.py_open.specs.TextHanding.{place_handed, unwritten_reply, AnswersCall};
ghost use Rattle.py_open.specs.TextOpening.{TextOutcome};
ghost use Rattle.py_open.specs.TextSession.{IsHeld, IsTextSession, IsInReach};

use crate::{TextLines, TextUnwritten};
use py_buffered_core::Buffered;
use py_flat::{Chars, IoFault, Life};
use py_plain::{Encoding, Handler, Newlines};
use py_plain_text::TextIOCookie;
use py_raw::RawStream;
use py_stream::{Access, Detached, NewRefused};
use py_text::{Coder, Reconfigure, TextSettings};
use py_textio::{TextDetached, TextIOWrapper};
use std::alloc::Global;
use std::marker::Model;
use std::mem;

/// A text that is read or written, or both, over a raw stream, as Python's `io.TextIOWrapper` over a buffered stream.
///
/// It is seen as the text over what its buffer is seen as (`TextState` of `py_read_text`), and whether its last answer was short. Sizes
/// and limits are characters; the sizes of the buffer and of chunks, and places from the start of the stream, are bytes.
///
/// Each call first answers by the life, with all as it was and no raw called: `Failed` once a fault or running out of memory failed it (but a
/// `detach`), `Closed` after a `close` (which may be called again), `Detached` after a `detach`; then it is `Unsupported` where the text isn't
/// opened for it. Else, where the raw failed in the call, it is `RawFault`: the text is failed from then on; after `close` it is closed.
/// `NoMemory` means out of memory: place and life stay, but for a `seek` (there), and the call may be made again; but a text that is written
/// is failed by it where its buffer failed once the raw had some of the bytes that the text had kept, or, by a `write` with line buffering,
/// once the raw had some of that write's.
///
/// The rules are those of Python's `io.TextIOWrapper`; what waits, faults and refused ranges leave is this project's choice
/// (docs/DECISIONS.md). A session that is dropped drops its raw, and what it owes; `into_parts` hands both back. After a `detach` nothing
/// is left of it but its raw, its settings, what it could do and its buffer's size; its place is 0.
#[derive(Debug, Drop)]
pub struct TextSession<R: RawStream> {
    alloc: Global,
    text: TextIOWrapper<Buffered<R>>,
    /// Whether it appends, which a detached text doesn't keep.
    appends: bool,
    /// How many bytes its buffer holds, or held.
    buffer_size: usize,
    /// The raw, once the text was detached.
    raw: Option<R>,
}

// A function's proof knows what holds of the text where the function uses a field: so some begin with `let _ = &self.text;`.
impl<R: RawStream> Model for TextSession<R> {
    ghost use Rattle.py_read_text.specs.TextState.{TextState};
    ghost use Rattle.py_open.specs.TextSession.{seen, IsSession};

    ghost Value = { TextState };

    ghost view = { λ s. seen R.shows s.text s.appends s.buffer_size s.raw };

    ghost invariant = { λ s. IsSession R.shows s.text s.appends s.buffer_size s.raw };
}

/// An answer as characters.
fn as_chars(answer: Result<Option<String>, IoFault>) -> Result<Option<Chars>, IoFault>
    ensures { text_reply result ≡ over.text_reply answer }
{
    match answer {
        Ok(Some(text)) => Ok(Some(Chars::from_string(text))),
        Ok(None) => Ok(None),
        Err(fault) => Err(fault),
    }
}

impl<R: RawStream> TextSession<R> {
    /// A text over a raw that is read, written, both read and written, or appended to, from where it stands, with a buffer of
    /// `buffer_size` bytes; one that appends begins at the end, to which a raw that can seek is moved. A raw that can't seek stands at
    /// place 0. The handler is one of those that texts are read with, and written with, as far as the text is.
    ///
    /// Refused, the raw is handed back with nothing read or written: `Closed` where it is closed, then `Unsupported` where it can't do
    /// what it is opened for (what is both read and written has to seek), `NoMemory`, and `RawFault` where it failed to say where it
    /// stands or ends, or to move there. But for the last it is as it was.
    pub fn new(
        alloc: Global,
        raw: R,
        access: Access,
        buffer_size: usize,
        coder: Coder,
        settings: TextSettings,
    ) -> Result<Self, NewRefused<R>>
        requires buffer { 0 < buffer_size }
        requires chunk { 0 < settings.chunk_size }
        requires handler { fits_handler (can_of access (R.shows raw).seekable) coder.errors ≡ true }
        requires start { StandsAtStart (R.shows raw) }
        ensures { TextOutcome R.shows raw access buffer_size (settings_of coder settings) result }
    {
        let buffer = match Buffered::new(alloc, raw, buffer_size, access) {
            Ok(buffer) => buffer,
            Err(refused) => return Err(refused),
        };
        match TextIOWrapper::new(alloc, buffer, coder, settings) {
            Ok(text) => Ok(TextSession {
                alloc,
                text,
                appends: access.appends(),
                buffer_size,
                raw: None,
            }),
            Err(refused) => {
                let NewRefused { raw: buffer, fault } = refused;
                let Detached {
                    raw,
                    unwritten: _,
                    place: _,
                } = buffer.into_parts().unwrap();
                Err(NewRefused { raw, fault })
            }
        }
    }

    /// Reads the next `size` characters, or all that are left for `None`; fewer come only at the end.
    ///
    /// Where the raw would have blocked, what came by then is answered, never nothing, or it is `None` with nothing taken; `short`
    /// says so. Where nothing is owed a wait hides nothing: then each character that the bytes taken from the raw so far surely give has been
    /// answered, and no refused range stands among them.
    ///
    /// `UnicodeDecodeError`, with byte places from the start of the stream, where a range that the handler refuses stands before the
    /// end of the answer: place and life stay, and a shorter read gives the characters before it.
    pub fn read(&mut self, alloc: Global, size: Option<usize>) -> Result<Option<Chars>, IoFault>
        ensures { Answers self.old (Read size) (text_reply result) self.new }
    {
        as_chars(self.text.read(alloc, size))
    }

    /// Reads the characters up to and with the next line end, at most `limit`; the last line may lack its end.
    ///
    /// A wait and a range that the handler refuses are answered as by `read`.
    pub fn readline(
        &mut self,
        alloc: Global,
        limit: Option<usize>,
    ) -> Result<Option<Chars>, IoFault>
        ensures { Answers self.old (ReadLine limit) (text_reply result) self.new }
    {
        as_chars(self.text.readline(alloc, limit))
    }

    /// The lines from the place on, one by one, as an iterator of what `readline` answers: it ends where nothing is left, and after
    /// a refusal; `None` among its items is a wait. A loop over it that stops early loses nothing.
    pub fn lines(&mut self, alloc: Global) -> TextLines<'_, R>
        ensures same_reference { result.text.ghost_name ≡ self.entry.ghost_name }
        ensures text { result.text.now ≡ self.old }
        ensures left { result.left ≡ 18446744073709551615 }
    {
        TextLines::new(self, alloc)
    }

    /// Writes a text at the place, by the newline rule and the encoding, and answers how many characters it has. The text is written whole,
    /// or not at all: until its buffer takes its bytes they are the text's own, fewer than a chunk after an answer, and none with write
    /// through. With line buffering a text that has LF or CR is passed on at once.
    ///
    /// `SeekFirst` where the text was read since it was placed or a `read` of all came to its end; `UnicodeEncodeError`, by places of the
    /// argument, where the handler refuses a run of characters; `TooFar` where the bytes would end past 9223372036854775807: with all as it
    /// was, and no memory taken. `WouldBlock` says how many bytes the text is written as: all are taken, and later calls pass them on.
    /// `RawFault`: the text is failed; all of the argument is taken, and what the raw isn't known to have is in `into_parts`, or none,
    /// where the raw failed as a buffer that was read ahead went back. `NoMemory`: nothing of the argument is
    /// written; but where the buffer failed once the raw had some of the bytes that the text had kept or was given, or, with line buffering,
    /// once the raw had some of those that it was given, the text is failed, too, with all of the argument taken.
    pub fn write(&mut self, alloc: Global, text: &str) -> Result<usize, IoFault>
        ensures { Answers self.old (WriteText (chars text.now)) (count_reply result) self.new }
    {
        self.text.write(alloc, text)
    }

    /// Where the text stands, as a cookie of 25 bytes that `TextIOCookie::build` gives: the least boundary between characters from which the
    /// text goes on as it does, or where there is none, inside the characters that stand for one range that its handler replaces. It calls
    /// no raw, takes no memory and changes nothing but that `short` is false.
    ///
    /// `Unsupported` where its raw can't be moved.
    pub fn tell(&mut self) -> Result<TextIOCookie, IoFault>
        ensures answers { Answers self.old Tell (cookie_reply result) self.new }
        ensures builds { IfOk result (λ cookie. is_buildable (cookie_shown cookie) ≡ true) }
    {
        self.text.tell()
    }

    /// Puts the text where a cookie says, for whence 0; or, by a cookie of zeros or none, where it stands, for 1, or where its bytes end, for 2.
    /// What was written is passed on first, and the cookie that it went by is answered. The text is clean then, but behind one that skips: that
    /// puts it, dirty, inside the characters that stand for the range that it feeds, behind those skipped.
    ///
    /// `Unsupported` where its raw can't be moved, where it appends, or by another cookie for whence 1 or 2; `BadWhence`; `InvalidCookie` for
    /// more than 25 bytes, a negative field or an order: with all as it was. `CannotRestore` where a cookie that skips doesn't fit the bytes at
    /// its start: the text stands there, clean. `WouldBlock`: the text stands where it stood, or, where the bytes fed were being read, clean at
    /// the cookie's start; so too after `NoMemory`, there only over a raw that takes memory; where the buffer failed
    /// once the raw had some of the text's own bytes, the text is failed.
    pub fn seek(
        &mut self,
        alloc: Global,
        cookie: &[u8],
        whence: i32,
    ) -> Result<TextIOCookie, IoFault>
        ensures answers { Answers self.old (SeekText cookie.now whence) (cookie_reply result) self.new }
        ensures builds { IfOk result (λ cookie. is_buildable (cookie_shown cookie) ≡ true) }
    {
        self.text.seek(alloc, cookie, whence)
    }

    /// Asks its buffer for at most n bytes at once from here on, and keeps fewer than n of what is written once the next `write` is answered.
    /// Where the raw neither waits nor fails no answer hangs on it.
    ///
    /// `BadArgument` for 0.
    pub fn set_chunksize(&mut self, size: usize) -> Result<(), IoFault>
        ensures { Answers self.old (SetChunkSize size) (done_reply result) self.new }
    {
        self.text.set_chunksize(size)
    }

    /// Gives it other settings: those that aren't given stay. It calls no raw, and takes no memory.
    ///
    /// From its place on the text is read by the new ones: also what was decoded by the old ones and not given, as after a read that was
    /// refused. What was written by then keeps its bytes, and what the session owes of them it owes still.
    ///
    /// `SeekFirst` where encoding, errors or newline are given and the text was read since it was placed, or since a `read` of all came to
    /// its end; `UnknownHandler` where the handler isn't one of those that the text is read and written with, as far as it is: with all as
    /// it was.
    pub fn reconfigure(&mut self, changes: Reconfigure) -> Result<(), IoFault>
        ensures { Answers self.old (text_call.Reconfigure (changes_of changes)) (done_reply result) self.new }
    {
        self.text.reconfigure(changes)
    }

    /// Passes on all that was written: the raw has it then.
    ///
    /// `WouldBlock`: the raw would have blocked before all was passed on; what is left is owed still. `NoMemory` comes only of a raw that
    /// takes memory; the text stays live, or fails with its buffer, once the raw had some of its own bytes.
    pub fn flush(&mut self) -> Result<(), IoFault>
        ensures { Answers self.old Flush (done_reply result) self.new }
    {
        self.text.flush()
    }

    /// Passes on all that was written, and closes the raw; the text stays closed after `RawFault` too. A closed one may be closed again,
    /// which calls no raw.
    ///
    /// `WouldBlock`: the raw would have blocked before all was passed on, and the text stays live. `NoMemory` comes only of a raw that
    /// takes memory; the text stays live, or fails with its buffer, once the raw had some of its own bytes.
    pub fn close(&mut self) -> Result<(), IoFault>
        ensures { Answers self.old Close (done_reply result) self.new }
    {
        self.text.close()
    }

    /// The refusal of a call that texts don't have: by the life, else `Unsupported`, with all as it was. It calls no raw. It is
    /// for those who take calls as values.
    pub fn refuse(&mut self) -> IoFault
        ensures { Answers self.old OtherKind (Refused result) self.new }
    {
        self.text.refuse()
    }

    /// Whether it is opened to be read.
    pub fn readable(&self) -> bool
        ensures { result ≡ self.now.text.buffer.can.readable }
    {
        self.text.readable()
    }

    /// Whether it is opened to be written.
    pub fn writable(&self) -> bool
        ensures { result ≡ self.now.text.buffer.can.writable }
    {
        self.text.writable()
    }

    /// Whether its raw can be moved, so that the text tells where it stands, and may be put elsewhere, unless it appends.
    pub fn seekable(&self) -> bool
        ensures { result ≡ self.now.text.buffer.can.seekable }
    {
        self.text.seekable()
    }

    /// Whether it was closed.
    pub fn closed(&self) -> bool
        ensures { result ≡ is_closed self.now.text.life }
    {
        self.text.closed()
    }

    /// What became of it: live at first, failed by a fault of the raw or, of one that is written, by running out of memory, closed, or
    /// detached.
    pub fn life(&self) -> Life
        ensures life { result ≡ self.now.text.life }
        ensures holds { IsHeld self.now }
        ensures attached { self.now.text.life ≢ Life.Detached → IsTextSession self.now }
    {
        self.text.life()
    }

    /// It has no more bytes than a stream can have, which its raw is looked at for, and not called.
    pub(crate) fn stays_in_reach(&self)
        ensures { IsInReach self.now }
    {
        if self.raw.is_some() {
            return;
        }
        let _raw = match self.text.buffer() {
            Some(buffer) => buffer.raw(),
            None => None,
        };
    }

    /// Whether the raw would have blocked before the last call was answered in full: its answer is the characters that came by
    /// then, or `None`, or a refusal that says so. It is false before the first call, and after a call that the wait didn't cut short.
    pub fn short(&self) -> bool
        ensures { result ≡ self.now.short }
    {
        self.text.short()
    }

    /// Forgets that a wait cut the last call short. It is for those who answer a call by themselves, which then is the last one.
    pub fn forget_wait(&mut self)
        ensures { self.new ≡ record self.old { short = false } }
    {
        self.text.forget_wait();
    }

    /// The encoding of its bytes.
    pub fn encoding(&self) -> Encoding
        ensures { result ≡ self.now.text.settings.encoding }
    {
        self.text.encoding()
    }

    /// The handler of bytes that spell no character, and of characters that have no bytes.
    pub fn errors(&self) -> Handler
        ensures { result ≡ self.now.text.settings.handler }
    {
        self.text.errors()
    }

    /// The rule of its line ends.
    pub fn newline(&self) -> Newlines
        ensures { result ≡ self.now.text.settings.newline }
    {
        self.text.newline()
    }

    /// How many bytes it asks its buffer for at once.
    pub fn chunksize(&self) -> usize
        ensures { result ≡ self.now.text.settings.chunk_size }
    {
        self.text.chunksize()
    }

    /// Detaches the text, as Python's `detach` does: of a live one all is passed on that was written, as by `flush`, and nothing is
    /// unwritten; of a failed one it answers at once what its raw isn't known to have, with the place of that, and calls no raw. The raw
    /// stays with the session, for `into_parts`. From then on the getters tell what the text could do and its settings, and every other call
    /// is `Detached`. It takes no memory but its raw's.
    ///
    /// `WouldBlock`: the raw would have blocked before all was passed on, and the text stays live. `RawFault`: the text is failed, and may be
    /// detached as such. `NoMemory` comes only of a raw that takes memory; the text stays live, or fails with its buffer, once the raw had some of
    /// its own bytes. `Closed` of a closed text, `Detached` of a detached one: with all as it was.
    pub fn detach(&mut self) -> Result<TextUnwritten, IoFault>
        ensures { AnswersCall self.old text_call.Detach (unwritten_reply result) self.new }
    {
        match self.text.detach() {
            Ok(parts) => {
                let Detached {
                    raw,
                    unwritten,
                    place,
                } = taken_apart(parts);
                match mem::replace(&mut self.raw, Some(raw)) {
                    None => {}
                    Some(_) => unreachable!(),
                }
                Ok(TextUnwritten {
                    bytes: unwritten,
                    place,
                })
            }
            Err(fault) => Err(fault),
        }
    }

    /// Hands the raw back, in every life, with the bytes that it isn't known to have, those of its buffer and behind them the text's own;
    /// and, where it can seek, with the place where they begin: without any the byte of the text place, where the text was opened or sought
    /// to, or behind what was written last, or where a `read` of all came to the end. Of a session that was detached, whose reply had both,
    /// it hands back the raw alone, with nothing unwritten and no place. The raw isn't moved: it is closed where `close` closed it, and else
    /// stands wherever its last call left it. What was read and not taken is dropped. It takes no memory.
    pub fn into_parts(self) -> Detached<R>
        ensures raw { R.shows result.raw ≡ self.text.buffer.raw }
        ensures unwritten { result.unwritten.items ≡ all_owed self.text }
        ensures place { result.place ≡ place_handed self.text }
    {
        let TextSession {
            alloc,
            text,
            appends: _,
            buffer_size: _,
            raw,
        } = self;
        let parts = text.into_parts();
        match (raw, parts) {
            (None, Some(parts)) => taken_apart(parts),
            (Some(raw), None) => Detached {
                raw,
                unwritten: Vec::new(alloc),
                place: None,
            },
            _ => unreachable!(),
        }
    }
}

/// The parts of a text's buffer, with the bytes that the buffer hadn't behind those that it owes.
fn taken_apart<R: RawStream>(parts: TextDetached<Buffered<R>>) -> Detached<R>
    requires attached { (as_buffer parts.buffer).life ≢ Life.Detached }
    requires room { HasRoomBehind as_buffer parts }
    requires place { IfSome parts.place (λ at. length (as_buffer parts.buffer).owed.bytes ≤ at) }
    ensures raw { R.shows result.raw ≡ (as_buffer parts.buffer).raw }
    ensures unwritten { result.unwritten.items ≡ (as_buffer parts.buffer).owed.bytes ++ parts.unwritten.items }
    ensures place { result.place ≡ option_map (λ at. at - length (as_buffer parts.buffer).owed.bytes) parts.place }
{
    let TextDetached {
        buffer,
        unwritten: own,
        place,
    } = parts;
    let Detached {
        raw,
        unwritten,
        place: _,
    } = buffer.into_parts().unwrap();
    let place = before(place, unwritten.len());
    Detached {
        raw,
        unwritten: joined(unwritten, own),
        place,
    }
}

/// The place that lies n bytes before another, of none none.
fn before(place: Option<u64>, count: usize) -> Option<u64>
    requires { IfSome place (λ at. count ≤ at) }
    ensures { result ≡ option_map (λ at. at - count) place }
{
    match place {
        Some(at) => Some(at - count as u64),
        None => None,
    }
}

/// Bytes before others, which have room for them where there are some. It takes no memory.
fn joined(front: Vec<u8>, behind: Vec<u8>) -> Vec<u8>
    requires room { behind.items ≢ [] → length front.items ≤ vec_capacity behind - vec_len behind }
    ensures { result.items ≡ front.items ++ behind.items }
{
    if behind.is_empty() {
        return front;
    }
    let mut all = behind;
    let _ = all.extend_from_slice(&front);
    all.rotate_right(front.len());
    all
}

//! A text over any buffered stream, which has its buffer or, once that was handed back, what is left of the text.
ghost use Rattle.std.specs.Prelude.{◌≡◌, true, false, chars, IfOk, IfSome};
ghost use Rattle.py_flat.specs.Calls.{Refused};
ghost use Rattle.py_flat.specs.ExactStep.{is_closed};
ghost use Rattle.py_plain_text.specs.TextCalls.{Read, ReadLine, WriteText, SeekText, Tell, SetChunkSize, Flush, Close, OtherKind};
ghost use Rattle.py_plain_text.specs.TextCalls as text_call;
ghost use Rattle.py_plain_text.specs.Cookie.{is_buildable};
ghost use Rattle.py_plain_text.specs.CookieView.{cookie_shown};
ghost use Rattle.py_text.specs.Settings.{changes_of};
ghost use Rattle.py_stream.specs.Replies.{count_reply, done_reply};
ghost use Rattle.py_stream.specs.Writing.{OwesUpTo};
ghost use Rattle.py_read_text.specs.Opening.{WrapOutcome};
ghost use Rattle.py_read_text.specs.Answers.{Answers, text_reply, cookie_reply};
ghost use Rattle.py_textio.specs.Handing.{DetachOutcome, PartsOutcome, LendsBuffer, HasRoomBehind, BeginsDetach};

use crate::TextDetached;
use crate::attached_text::AttachedText;
use crate::text_left::TextLeft;
use py_flat::{IoFault, Life};
use py_held_text::{Coder, Wanted};
use py_plain::{Encoding, Handler, Newlines};
use py_plain_text::TextIOCookie;
use py_stream::{BufferedStream, NewRefused};
use py_text::{Reconfigure, TextSettings};
use std::alloc::Global;
use std::marker::Model;

/// A text over a buffered stream, as Python's `io.TextIOWrapper`.
///
/// It is seen as the text over what its buffer is seen as (`TextOver`), and whether its last answer was short. Sizes and limits are
/// characters; the chunk size and places from the start of the stream are bytes.
///
/// Each call first answers by the life, with all as it was and the buffer not called: `Failed` once a fault or running out of memory failed
/// it (but a `detach`), `Closed` after a `close` (which may be called again), `Detached` after a `detach`; then it is `Unsupported` where the
/// buffer lacks what the call needs. Else, where the raw failed in the call, it is `RawFault`: the text is failed from then on; after `close`
/// it is closed. `NoMemory` means out of memory: place and life stay, and the call may be made again; but a `seek` by a cookie that skips may
/// leave the text, clean, at the cookie's start, and a text that is written is failed where its buffer failed once the raw had some of the
/// bytes that the text had kept, or, by a `write` with line buffering, once the raw had some of that write's. A getter is never refused.
#[derive(Debug, Drop)]
pub struct TextIOWrapper<B: BufferedStream> {
    attached: Option<AttachedText<B>>,
    left: TextLeft,
}

impl<B: BufferedStream> Model for TextIOWrapper<B> {
    ghost use Rattle.py_read_text.specs.TextState.{TextState};
    ghost use Rattle.py_textio.specs.Handing.{seen_as, IsAttached};

    ghost Value = { TextState };

    ghost view = { λ w. seen_as w.attached w.left };

    ghost invariant = { λ w. IsAttached w.attached };
}

/// Whether the buffer may be handed back: of a live text once all was passed on, and of a failed one.
fn begin_detach<B: BufferedStream>(attached: &mut Option<AttachedText<B>>) -> Result<(), IoFault>
    ensures { BeginsDetach attached.old result attached.new }
{
    match attached {
        Some(text) => text.begin_detach(),
        None => Err(IoFault::Detached),
    }
}

impl<B: BufferedStream> TextIOWrapper<B> {
    /// A text over a buffer, from where that stands, by a codec and a handler, in chunks of the settings' size.
    ///
    /// Refused, the buffer is handed back as it was: `Failed`, `Closed` or `Detached` by its life, then `BadArgument` for chunks of no
    /// bytes, `BufferError` where bytes of it are lent out, and `UnknownHandler` where the handler isn't one of its directions. It takes
    /// no memory.
    pub fn new(
        alloc: Global,
        buffer: B,
        coder: Coder,
        settings: TextSettings,
    ) -> Result<Self, NewRefused<B>>
        requires start { (B.shows buffer).can.seekable ≡ false → (B.shows buffer).place ≡ 0 }
        requires owes { OwesUpTo (B.shows buffer).owed (B.shows buffer).place }
        ensures { WrapOutcome B.shows buffer coder settings result }
    {
        match AttachedText::new(alloc, buffer, coder, settings) {
            Ok(text) => {
                let left = text.left();
                Ok(TextIOWrapper {
                    attached: Some(text),
                    left,
                })
            }
            Err(refused) => Err(refused),
        }
    }

    /// Reads the next `size` characters, or all that are left for `None`; fewer come only at the end.
    ///
    /// Where the raw would have blocked, what came by then is answered, never nothing, or it is `None` with nothing taken; `short`
    /// says so. Where nothing is owed a wait hides nothing: then each character that the bytes taken from the raw so far surely give has been
    /// answered, and no refused range stands among them.
    ///
    /// `UnicodeDecodeError`, with byte places from the start of the stream, where a range that the handler refuses stands before the
    /// end of the answer: place and life stay, and a shorter read gives the characters before it.
    pub fn read(&mut self, alloc: Global, size: Option<usize>) -> Result<Option<String>, IoFault>
        ensures { Answers self.old (Read size) (text_reply result) self.new }
    {
        match &mut self.attached {
            Some(text) => text.take(alloc, Wanted::Characters(size)),
            None => Err(IoFault::Detached),
        }
    }

    /// Reads the characters up to and with the next line end, at most `limit`; the last line may lack its end.
    ///
    /// A wait and a range that the handler refuses are answered as by `read`.
    pub fn readline(
        &mut self,
        alloc: Global,
        limit: Option<usize>,
    ) -> Result<Option<String>, IoFault>
        ensures { Answers self.old (ReadLine limit) (text_reply result) self.new }
    {
        match &mut self.attached {
            Some(text) => text.take(alloc, Wanted::Line(limit)),
            None => Err(IoFault::Detached),
        }
    }

    /// Asks its buffer for at most n bytes at once from here on, and keeps fewer than n of what is written once the next `write` is answered.
    /// Where the raw neither waits nor fails no answer hangs on it.
    ///
    /// `BadArgument` for 0.
    pub fn set_chunksize(&mut self, size: usize) -> Result<(), IoFault>
        ensures { Answers self.old (SetChunkSize size) (done_reply result) self.new }
    {
        match &mut self.attached {
            Some(text) => text.set_chunksize(size),
            None => Err(IoFault::Detached),
        }
    }

    /// Gives it other settings: those that aren't given stay. It calls no raw, and takes no memory.
    ///
    /// From its place on the text is read by the new ones: also what was decoded by the old ones and not given, as after a read that was
    /// refused. What was written by then keeps its bytes, and what the text owes of them it owes still.
    ///
    /// `SeekFirst` where encoding, errors or newline are given and the text was read since it was placed, or since a `read` of all came to
    /// its end; `UnknownHandler` where the handler isn't one of the directions of its buffer: with all as it was.
    pub fn reconfigure(&mut self, changes: Reconfigure) -> Result<(), IoFault>
        ensures { Answers self.old (text_call.Reconfigure (changes_of changes)) (done_reply result) self.new }
    {
        match &mut self.attached {
            Some(text) => text.reconfigure(changes),
            None => Err(IoFault::Detached),
        }
    }

    /// Writes a text at the place, by the newline rule and the encoding, and answers how many characters it has. The text is written whole,
    /// or not at all: until its buffer takes its bytes they are the text's own, fewer than a chunk after an answer, and none with write
    /// through. With line buffering a text that has LF or CR is passed on by the buffer at once.
    ///
    /// `SeekFirst` where the text was read since it was placed or a `read` of all came to its end; `UnicodeEncodeError`, by places of the
    /// argument, where the handler refuses a run of characters; `TooFar` where the bytes would end past 9223372036854775807: with all as it
    /// was, and no memory taken. `WouldBlock` says how many bytes the text is written as: all are taken, and later calls pass them on.
    /// `RawFault`: the text is failed; all of the argument is taken, and what the buffer hasn't comes by `detach`, or none, where the raw
    /// failed as a buffer that was read ahead went back. `NoMemory`: nothing of the argument is
    /// written; but where the buffer failed once the raw had some of the bytes that the text had kept or was given, or, with line buffering,
    /// once the raw had some of those that it was given, the text is failed, too, with all of the argument taken.
    pub fn write(&mut self, alloc: Global, text: &str) -> Result<usize, IoFault>
        ensures { Answers self.old (WriteText (chars text.now)) (count_reply result) self.new }
    {
        match &mut self.attached {
            Some(attached) => attached.write(alloc, text),
            None => Err(IoFault::Detached),
        }
    }

    /// Where the text stands, as a cookie of 25 bytes that `TextIOCookie::build` gives: the least boundary between characters from which the
    /// text goes on as it does, or where there is none, inside the characters that stand for one range that its handler replaces. It calls
    /// no raw, takes no memory and changes nothing but that `short` is false.
    ///
    /// `Unsupported` where its buffer can't be moved.
    pub fn tell(&mut self) -> Result<TextIOCookie, IoFault>
        ensures answers { Answers self.old Tell (cookie_reply result) self.new }
        ensures builds { IfOk result (λ cookie. is_buildable (cookie_shown cookie) ≡ true) }
    {
        match &mut self.attached {
            Some(text) => text.tell(),
            None => Err(IoFault::Detached),
        }
    }

    /// Puts the text where a cookie says, for whence 0; or, by a cookie of zeros or none, where it stands, for 1, or where its bytes end, for 2.
    /// What was written is passed on first, and the cookie that it went by is answered. The text is clean then, but behind one that skips: that
    /// puts it, dirty, inside the characters that stand for the range that it feeds, behind those skipped.
    ///
    /// `Unsupported` where the buffer can't be moved or appends, or by another cookie for whence 1 or 2; `BadWhence`; `InvalidCookie` for more
    /// than 25 bytes, a negative field or an order: with all as it was. `CannotRestore` where a cookie that skips doesn't fit the bytes at its
    /// start: the text stands there, clean. `WouldBlock`: the text stands where it stood, or, where the bytes fed were being read, clean at the
    /// cookie's start; so too after `NoMemory`, there only over a raw that takes memory; where the buffer failed
    /// once the raw had some of the text's own bytes, the text is failed.
    pub fn seek(
        &mut self,
        alloc: Global,
        cookie: &[u8],
        whence: i32,
    ) -> Result<TextIOCookie, IoFault>
        ensures answers { Answers self.old (SeekText cookie.now whence) (cookie_reply result) self.new }
        ensures builds { IfOk result (λ cookie. is_buildable (cookie_shown cookie) ≡ true) }
    {
        match &mut self.attached {
            Some(text) => text.seek(alloc, cookie, whence),
            None => Err(IoFault::Detached),
        }
    }

    /// Passes on all that was written: the raw has it then.
    ///
    /// `WouldBlock`: the raw would have blocked before all was passed on; what is left is owed still. `NoMemory` comes only of a raw that
    /// takes memory; the text stays live, or fails with its buffer, once the raw had some of its own bytes.
    pub fn flush(&mut self) -> Result<(), IoFault>
        ensures { Answers self.old Flush (done_reply result) self.new }
    {
        match &mut self.attached {
            Some(text) => text.flush(),
            None => Err(IoFault::Detached),
        }
    }

    /// Passes on all that was written, and closes the buffer; the text stays closed after `RawFault` too. A closed one may be closed
    /// again, which calls no raw.
    ///
    /// `WouldBlock`: the raw would have blocked before all was passed on, and the text stays live. `NoMemory` comes only of a raw that
    /// takes memory; the text stays live, or fails with its buffer, once the raw had some of its own bytes.
    pub fn close(&mut self) -> Result<(), IoFault>
        ensures { Answers self.old Close (done_reply result) self.new }
    {
        match &mut self.attached {
            Some(text) => text.close(),
            None => Err(IoFault::Detached),
        }
    }

    /// Hands the buffer back, as Python's `detach` does: of a live text once all that was written was passed on, as by `flush`, so that
    /// nothing is unwritten; of a failed one at once, with the bytes that the buffer hasn't, and no raw is called. The place comes with it,
    /// as from `into_parts`; the buffer isn't moved, but by what it takes of the text. From then on the getters tell what the text could do
    /// and its settings, and every other call is `Detached`.
    ///
    /// `WouldBlock`: the raw would have blocked before all was passed on, and the text stays live. `RawFault`: the text is failed, and may be
    /// detached as such. `NoMemory` comes only of a raw that takes memory; the text stays live, or fails with its
    /// buffer, once the raw had some of its own bytes. `Closed` of a closed text, `Detached` of a detached one: with all as it was.
    pub fn detach(&mut self) -> Result<TextDetached<B>, IoFault>
        ensures outcome { DetachOutcome B.shows self.old result self.new }
        ensures room { IfOk result (λ parts. HasRoomBehind B.shows parts) }
    {
        begin_detach(&mut self.attached)?;
        match self.attached.take() {
            Some(text) => {
                self.left = text.left();
                Ok(text.into_parts())
            }
            None => Err(IoFault::Detached),
        }
    }

    /// The refusal of a call that texts don't have: by the life, else `Unsupported`, with all as it was. It is for those who take calls
    /// as values.
    pub fn refuse(&mut self) -> IoFault
        ensures { Answers self.old OtherKind (Refused result) self.new }
    {
        match &mut self.attached {
            Some(text) => text.refuse(),
            None => IoFault::Detached,
        }
    }

    /// Whether its buffer can be read, or could be.
    pub fn readable(&self) -> bool
        ensures { result ≡ self.now.text.buffer.can.readable }
    {
        match &self.attached {
            Some(attached) => attached.text.readable(),
            None => self.left.readable,
        }
    }

    /// Whether its buffer can be written, or could be.
    pub fn writable(&self) -> bool
        ensures { result ≡ self.now.text.buffer.can.writable }
    {
        match &self.attached {
            Some(attached) => attached.text.writable(),
            None => self.left.writable,
        }
    }

    /// Whether its buffer can be moved, or could be.
    pub fn seekable(&self) -> bool
        ensures { result ≡ self.now.text.buffer.can.seekable }
    {
        match &self.attached {
            Some(attached) => attached.text.seekable(),
            None => self.left.seekable,
        }
    }

    /// Whether it was closed.
    pub fn closed(&self) -> bool
        ensures { result ≡ is_closed self.now.text.life }
    {
        match &self.attached {
            Some(attached) => matches!(attached.text.life(), Life::Closed),
            None => false,
        }
    }

    /// What became of it: live at first, failed by a fault of the raw or, of one that is written, by running out of memory, closed, or detached.
    pub fn life(&self) -> Life
        ensures { result ≡ self.now.text.life }
    {
        match &self.attached {
            Some(attached) => attached.text.life(),
            None => Life::Detached,
        }
    }

    /// Whether the raw would have blocked before the last call was answered in full: its answer is the characters that came by
    /// then, or `None`, or a refusal that says so. It is false before the first call, and after a call that the wait didn't cut short.
    pub fn short(&self) -> bool
        ensures { result ≡ self.now.short }
    {
        match &self.attached {
            Some(text) => text.short(),
            None => false,
        }
    }

    /// Forgets that a wait cut the last call short. It is for those who answer a call by themselves, which then is the last one.
    pub fn forget_wait(&mut self)
        ensures { self.new ≡ record self.old { short = false } }
    {
        if let Some(text) = &mut self.attached {
            text.forget_wait();
        }
    }

    /// The encoding of its bytes.
    pub fn encoding(&self) -> Encoding
        ensures { result ≡ self.now.text.settings.encoding }
    {
        match &self.attached {
            Some(attached) => attached.text.coder().encoding,
            None => self.left.coder.encoding,
        }
    }

    /// The handler of bytes that spell no character, and of characters that have no bytes.
    pub fn errors(&self) -> Handler
        ensures { result ≡ self.now.text.settings.handler }
    {
        match &self.attached {
            Some(attached) => attached.text.coder().errors,
            None => self.left.coder.errors,
        }
    }

    /// The rule of its line ends.
    pub fn newline(&self) -> Newlines
        ensures { result ≡ self.now.text.settings.newline }
    {
        match &self.attached {
            Some(attached) => attached.text.settings().newline,
            None => self.left.settings.newline,
        }
    }

    /// How many bytes it asks its buffer for at once, or asked for.
    pub fn chunksize(&self) -> usize
        ensures { result ≡ self.now.text.settings.chunk_size }
    {
        match &self.attached {
            Some(attached) => attached.text.settings().chunk_size,
            None => self.left.settings.chunk_size,
        }
    }

    /// Hands the buffer back, in every life but detached, where it was handed back before, with the bytes that were written and that it
    /// hasn't, behind those that it owes itself; and, where it can seek, with the place where they begin: without any the byte of the text
    /// place, where the text was made, where a `seek` put it (by a cookie that skips behind the bytes that it feeds), behind what was written
    /// last, or where a `read` of all came to the end; how many characters were taken since isn't told. The buffer isn't moved: where bytes
    /// were read since then, it stands behind the last of them. What was read and not taken is dropped.
    /// Bytes that the buffer hasn't come with room for as many more as the buffer holds. It takes no memory.
    pub fn into_parts(self) -> Option<TextDetached<B>>
        ensures parts { PartsOutcome B.shows self result }
        ensures room { IfSome result (λ parts. HasRoomBehind B.shows parts) }
    {
        let TextIOWrapper { attached, left: _ } = self;
        match attached {
            Some(text) => Some(text.into_parts()),
            None => None,
        }
    }

    /// The buffer, lent; `None` exactly where it was handed back.
    pub fn buffer(&self) -> Option<&B>
        ensures { LendsBuffer B.shows self.now result }
    {
        match &self.attached {
            Some(attached) => Some(attached.text.buffer()),
            None => None,
        }
    }
}

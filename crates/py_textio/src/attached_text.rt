//! A text that has its buffer: each call is refused by its life or an ability, or answered by the text below.
ghost use Rattle.std.specs.Prelude.{◌≡◌, ◌≢◌, ◌≤◌, ◌-◌, true, false, [], Some, None, chars, length, unwrap_or, vec_len, vec_capacity, if◌then◌else◌, IfOk};
ghost use Rattle.py_flat.specs.Calls.{Refused};
ghost use Rattle.py_flat.specs.ExactStep.{is_closed};
ghost use Rattle.py_plain_text.specs.TextCalls.{WriteText, SeekText, Tell, SetChunkSize, Flush, Close, OtherKind};
ghost use Rattle.py_plain_text.specs.TextCalls as text_call;
ghost use Rattle.py_plain_text.specs.Cookie.{is_buildable};
ghost use Rattle.py_plain_text.specs.CookieView.{cookie_shown};
ghost use Rattle.py_text.specs.Settings.{changes_of};
ghost use Rattle.py_stream.specs.Kinds.{says_wait};
ghost use Rattle.py_stream.specs.Replies.{count_reply, done_reply};
ghost use Rattle.py_stream.specs.Writing.{OwesUpTo};
ghost use Rattle.py_stream.specs.Buffer.{size_shown};
ghost use Rattle.py_read_text.specs.Reading.{call_of};
ghost use Rattle.py_read_text.specs.Opening.{WrapOutcome};
ghost use Rattle.py_read_text.specs.Owing.{IsJoined};
ghost use Rattle.py_read_text.specs.Answers.{Answers, text_reply, cookie_reply};
ghost use Rattle.py_read_text.specs.TextState.{settings_of};
ghost use Rattle.py_textio.specs.Handing.{can_of, kept_abilities, BeginsDetachIn};

use crate::TextDetached;
use crate::text_left::TextLeft;
use crate::written_text::WrittenText;
use py_flat::{IoFault, Life};
use py_held_text::{Coder, Wanted};
use py_plain_text::TextIOCookie;
use py_read_text::{Answer, ReadText, is_wait, place_of, refusal};
use py_stream::{BufferedStream, NewRefused};
use py_text::{Reconfigure, TextSettings};
use std::alloc::Global;
use std::marker::Model;

/// Whether an answer says that the raw would have blocked.
fn would_block(answer: &Result<(), IoFault>) -> bool
    ensures { result ≡ says_wait (done_reply answer.now) }
{
    matches!(answer, Err(IoFault::WouldBlock { .. }))
}

/// Whether an answer to a seek says that the raw would have blocked.
fn seek_would_block(answer: &Result<TextIOCookie, IoFault>) -> bool
    ensures { result ≡ says_wait (cookie_reply answer.now) }
{
    matches!(answer, Err(IoFault::WouldBlock { .. }))
}

/// A text that has its buffer: a user's text as long as it isn't detached.
#[derive(Debug, Drop)]
pub(crate) struct AttachedText<B: BufferedStream> {
    pub(crate) text: WrittenText<B>,
    short: bool,
}

// A function's proof knows what the text is seen as where the function uses a field: so some begin with `let _ = &self.text;`.
impl<B: BufferedStream> Model for AttachedText<B> {
    ghost use Rattle.py_read_text.specs.TextState.{TextState};
    ghost use Rattle.py_textio.specs.Written.{state_of};

    ghost Value = { TextState };

    ghost view = { λ w. state_of w.text w.short };
}

impl<B: BufferedStream> AttachedText<B> {
    /// A text over a buffer, from where that stands; refused, the buffer is handed back as it was.
    pub fn new(
        alloc: Global,
        buffer: B,
        coder: Coder,
        settings: TextSettings,
    ) -> Result<Self, NewRefused<B>>
        requires start { (B.shows buffer).can.seekable ≡ false → (B.shows buffer).place ≡ 0 }
        requires owes { OwesUpTo (B.shows buffer).owed (B.shows buffer).place }
        ensures { WrapOutcome B.shows buffer coder settings result }
    {
        if let Some(fault) = refusal(&buffer, coder, settings) {
            return Err(NewRefused { raw: buffer, fault });
        }
        let mut buffer = buffer;
        let place = place_of(&mut buffer);
        Ok(AttachedText {
            text: WrittenText::new(alloc, ReadText::new(alloc, buffer, coder, settings, place)),
            short: false,
        })
    }

    /// Asks its buffer for at most n bytes at once from here on.
    pub fn set_chunksize(&mut self, size: usize) -> Result<(), IoFault>
        ensures { Answers self.old (SetChunkSize size) (done_reply result) self.new }
    {
        self.short = false;
        match self.text.life() {
            Life::Live => {
                if size == 0 {
                    return Err(IoFault::BadArgument);
                }
                self.text.set_chunksize(size);
                Ok(())
            }
            Life::Failed => Err(IoFault::Failed),
            Life::Closed => Err(IoFault::Closed),
            Life::Detached => Err(IoFault::Detached),
        }
    }

    /// Gives it other settings.
    pub fn reconfigure(&mut self, changes: Reconfigure) -> Result<(), IoFault>
        ensures { Answers self.old (text_call.Reconfigure (changes_of changes)) (done_reply result) self.new }
    {
        self.short = false;
        match self.text.life() {
            Life::Live => self.text.reconfigure(changes),
            Life::Failed => Err(IoFault::Failed),
            Life::Closed => Err(IoFault::Closed),
            Life::Detached => Err(IoFault::Detached),
        }
    }

    /// Writes a text at the place.
    pub fn write(&mut self, alloc: Global, text: &str) -> Result<usize, IoFault>
        ensures { Answers self.old (WriteText (chars text.now)) (count_reply result) self.new }
    {
        self.short = false;
        match self.text.life() {
            Life::Live if self.text.writable() => match self.text.write(alloc, text) {
                Ok(count) => Ok(count),
                Err(fault) => {
                    self.short = is_wait(fault);
                    Err(fault)
                }
            },
            Life::Live => Err(IoFault::Unsupported),
            Life::Failed => Err(IoFault::Failed),
            Life::Closed => Err(IoFault::Closed),
            Life::Detached => Err(IoFault::Detached),
        }
    }

    /// Where it stands.
    pub fn tell(&mut self) -> Result<TextIOCookie, IoFault>
        ensures answers { Answers self.old Tell (cookie_reply result) self.new }
        ensures builds { IfOk result (λ cookie. is_buildable (cookie_shown cookie) ≡ true) }
    {
        self.short = false;
        match self.text.life() {
            Life::Live if self.text.seekable() => Ok(self.text.tell()),
            Life::Live => Err(IoFault::Unsupported),
            Life::Failed => Err(IoFault::Failed),
            Life::Closed => Err(IoFault::Closed),
            Life::Detached => Err(IoFault::Detached),
        }
    }

    /// Puts it where a cookie says, by whence 0; where it stands, by 1; or at its end, by 2.
    pub fn seek(
        &mut self,
        alloc: Global,
        cookie: &[u8],
        whence: i32,
    ) -> Result<TextIOCookie, IoFault>
        ensures answers { Answers self.old (SeekText cookie.now whence) (cookie_reply result) self.new }
        ensures builds { IfOk result (λ cookie. is_buildable (cookie_shown cookie) ≡ true) }
    {
        self.short = false;
        match self.text.life() {
            Life::Live if self.text.is_movable() => {
                let sought = self.text.seek(alloc, cookie, whence);
                self.short = seek_would_block(&sought);
                sought
            }
            Life::Live => Err(IoFault::Unsupported),
            Life::Failed => Err(IoFault::Failed),
            Life::Closed => Err(IoFault::Closed),
            Life::Detached => Err(IoFault::Detached),
        }
    }

    /// Passes on all that was written.
    pub fn flush(&mut self) -> Result<(), IoFault>
        ensures { Answers self.old Flush (done_reply result) self.new }
    {
        self.short = false;
        match self.text.life() {
            Life::Live => {
                let flushed = self.text.flush();
                self.short = would_block(&flushed);
                flushed
            }
            Life::Failed => Err(IoFault::Failed),
            Life::Closed => Err(IoFault::Closed),
            Life::Detached => Err(IoFault::Detached),
        }
    }

    /// Passes on all that was written, and closes the buffer.
    pub fn close(&mut self) -> Result<(), IoFault>
        ensures { Answers self.old Close (done_reply result) self.new }
    {
        self.short = false;
        match self.text.life() {
            Life::Live => {
                let closed = self.text.close();
                self.short = would_block(&closed);
                closed
            }
            Life::Closed => Ok(()),
            Life::Failed => Err(IoFault::Failed),
            Life::Detached => Err(IoFault::Detached),
        }
    }

    /// Passes on all that was written, before the buffer is handed back: of a failed text nothing.
    pub fn begin_detach(&mut self) -> Result<(), IoFault>
        ensures { BeginsDetachIn self.old.text.life self.old result self.new }
    {
        match self.text.life() {
            Life::Failed => {
                self.short = false;
                Ok(())
            }
            _ => self.flush(),
        }
    }

    /// The refusal of a call that texts don't have.
    pub fn refuse(&mut self) -> IoFault
        ensures { Answers self.old OtherKind (Refused result) self.new }
    {
        self.short = false;
        match self.text.life() {
            Life::Live => IoFault::Unsupported,
            Life::Failed => IoFault::Failed,
            Life::Closed => IoFault::Closed,
            Life::Detached => IoFault::Detached,
        }
    }

    /// Whether a wait cut the last answer short.
    pub fn short(&self) -> bool
        ensures { result ≡ self.now.short }
    {
        self.short
    }

    /// Forgets that a wait cut the last call short.
    pub fn forget_wait(&mut self)
        ensures { self.new ≡ record self.old { short = false } }
    {
        self.short = false;
    }

    /// What is left of it once its buffer is handed back.
    pub fn left(&self) -> TextLeft
        ensures can { can_of result ≡ kept_abilities self.now.text.buffer.can }
        ensures settings { settings_of result.coder result.settings ≡ self.now.text.settings }
    {
        TextLeft {
            coder: self.text.coder(),
            settings: self.text.settings(),
            readable: self.text.readable(),
            writable: self.text.writable(),
            seekable: self.text.seekable(),
        }
    }

    /// The buffer, the bytes that it hasn't, with room for as many more as it holds, and the place where they begin.
    pub fn into_parts(self) -> TextDetached<B>
        ensures buffer { B.shows result.buffer ≡ self.text.buffer }
        ensures unwritten { result.unwritten.items ≡ self.text.owed }
        ensures room { result.unwritten.items ≢ [] → unwrap_or (size_shown self.text.buffer.buffering) 0 ≤ vec_capacity result.unwritten - vec_len result.unwritten }
        ensures joined { IsJoined self.text }
        ensures place { result.place ≡ (if self.text.buffer.can.seekable then Some (self.text.place.at - length self.text.owed) else None) }
    {
        let AttachedText { text, short: _ } = self;
        let seekable = text.seekable();
        let (buffer, unwritten, at) = text.into_parts();
        TextDetached {
            buffer,
            unwritten,
            place: if seekable { Some(at) } else { None },
        }
    }

    /// Takes what is wanted, unless the life refuses it, or the buffer can't be read.
    pub fn take(&mut self, alloc: Global, wanted: Wanted) -> Result<Option<String>, IoFault>
        ensures { Answers self.old (call_of wanted) (text_reply result) self.new }
    {
        self.short = false;
        match self.text.life() {
            Life::Live if self.text.readable() => self.answer(alloc, wanted),
            Life::Live => Err(IoFault::Unsupported),
            Life::Failed => Err(IoFault::Failed),
            Life::Closed => Err(IoFault::Closed),
            Life::Detached => Err(IoFault::Detached),
        }
    }

    fn answer(&mut self, alloc: Global, wanted: Wanted) -> Result<Option<String>, IoFault>
        requires short { self.old.short ≡ false }
        requires live { self.old.text.life ≡ Life.Live }
        requires reads { self.old.text.buffer.can.readable ≡ true }
        ensures { Answers self.old (call_of wanted) (text_reply result) self.new }
    {
        match self.text.read(alloc, wanted) {
            Ok(Answer::Whole(text)) => Ok(Some(text)),
            Ok(Answer::Short(text)) => Ok(self.cut_short(Some(text))),
            Ok(Answer::NotReady) => Ok(self.cut_short(None)),
            Err(fault) => Err(fault),
        }
    }

    /// Remembers that a wait cut this answer short.
    fn cut_short(&mut self, answer: Option<String>) -> Option<String>
        ensures answer { result ≡ answer }
        ensures short { self.new ≡ record self.old { short = true } }
    {
        self.short = true;
        answer
    }
}

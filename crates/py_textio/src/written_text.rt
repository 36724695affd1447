//! The text under a user's: it reads, and keeps what was written until its buffer takes it. Its calls are for a live text.
ghost use Rattle.std.specs.Prelude.{◌≡◌, ◌≢◌, ◌+◌, ◌-◌, ◌<◌, ◌≤◌, ◌⊎◌, ◌&&◌, not, Bool, true, false, None, [], ◌++◌, length, take, chars, vec_len, vec_capacity, OnOk, OnErr, IfOk, IfErr, IfSome, pos};
ghost use Rattle.py_flat.specs.Limits.{greatest_place};
ghost use Rattle.py_plain_text.specs.Cookie.{is_buildable};
ghost use Rattle.py_plain_text.specs.CookieView.{cookie_shown};
ghost use Rattle.py_plain_text.specs.TextCalls.{WriteText, SeekText, Flush, Close};
ghost use Rattle.py_plain_text.specs.TextCalls as text_call;
ghost use Rattle.py_plain_text.specs.TextRefusals.{changes_refusal};
ghost use Rattle.py_text.specs.Settings.{changes_of};
ghost use Rattle.py_plain_text.specs.TextWriting.{writes_texts, written_bytes, written_refusal};
ghost use Rattle.py_flat.specs.Calls.{Refused};
ghost use Rattle.py_stream.specs.Kinds.{says_wait};
ghost use Rattle.py_stream.specs.Replies.{count_reply, done_reply};
ghost use Rattle.py_stream.specs.Writing.{OwesBehind};
ghost use Rattle.py_stream.specs.Buffer.{stream_shown};
ghost use Rattle.py_read_text.specs.Reading.{call_of, asks_none, reply_of, waited_in};
ghost use Rattle.py_read_text.specs.Owing.{IsJoined, has_line_end};
ghost use Rattle.py_read_text.specs.Knowing.{over_of as read_of};
ghost use Rattle.py_read_text.specs.Answers.{refused_here, Answers, cookie_reply};
ghost use Rattle.py_textio.specs.Seeking.{CanMove, EndOutcome, CanSeekBy, AnswersSeeks};
ghost use Rattle.py_textio.specs.Written.{over_of, state_of, file_now, place_now, HasRoom, StandsToWrite, SettleOutcome, stopped_reply, with_taken, RoomFor, IsKept, TellsPlace, BackOutcome, ReadyOutcome, GivesOutcome, PassOutcome, HandOutcome, KeepsOwed, HandsOnOnce};

use py_flat::{IoFault, Life};
use py_held_text::{Coder, Wanted, drop_front};
use py_plain_text::{TextIOCookie, seek_fault};
use py_raw::GREATEST_PLACE;
use py_read_text::{Answer, ReadText, is_raw_fault, is_wait};
use py_stream::BufferedStream;
use py_telling::Told;
use py_text::{
    Reconfigure, TextSettings, WrittenSize, character_count, has_line_end, is_of_stream,
    push_written_text, short_bound, written_size,
};
use std::alloc::Global;
use std::marker::Model;

/// Whether no character is asked for.
fn asks_none(wanted: Wanted) -> bool
    ensures { result ≡ asks_none wanted }
{
    matches!(wanted, Wanted::Characters(Some(0)) | Wanted::Line(Some(0)))
}

/// What a reading answers where what is owed couldn't be handed on.
fn unready(fault: IoFault) -> Result<Answer, IoFault>
    ensures reply { reply_of result ≡ stopped_reply fault }
    ensures waits { waited_in result ≡ says_wait (Refused fault) }
{
    match fault {
        IoFault::WouldBlock { .. } => Ok(Answer::NotReady),
        other => Err(other),
    }
}

/// A refusal, which counts so many bytes as taken where the raw would have blocked.
fn with_taken(fault: IoFault, taken: u64) -> IoFault
    ensures { result ≡ with_taken fault taken }
{
    match fault {
        IoFault::WouldBlock { .. } => IoFault::WouldBlock { taken },
        other => other,
    }
}

/// A text that reads, with the bytes that were written and that its buffer hasn't taken: they begin where the buffer stands.
#[derive(Debug, Drop)]
pub(crate) struct WrittenText<B: BufferedStream> {
    text: ReadText<B>,
    pending: Vec<u8>,
    life: Life,
}

impl<B: BufferedStream> Model for WrittenText<B> {
    ghost use Rattle.std.specs.Prelude.{◌-◌, vec_len, vec_capacity};
    ghost use Rattle.py_textio.specs.Written.{WrittenView, IsWritten, HasRoom};

    ghost Value = { WrittenView };

    ghost view = { λ w. record { text = w.text; pending = w.pending.items; room = vec_capacity w.pending - vec_len w.pending; life = w.life } };

    ghost invariant = { λ w. IsWritten w.text w.pending.items w.life × HasRoom w.text.buffer w.pending.items (vec_capacity w.pending - vec_len w.pending) };
}

impl<B: BufferedStream> WrittenText<B> {
    /// What became of the text.
    pub fn life(&self) -> Life
        ensures life { result ≡ self.now.life }
        ensures joined { IsJoined (over_of self.now) }
        ensures lives { self.now.life ≡ Life.Live → self.now.text.buffer.life ≡ Life.Live }
    {
        self.life
    }

    /// A live text that was written nothing.
    pub fn new(alloc: Global, text: ReadText<B>) -> Self
        requires live { text.buffer.life ≡ Life.Live }
        requires kept { text.buffer.exported ≡ false }
        requires asks { 0 < text.settings.chunk_size }
        requires clean { text.taken ≡ 0 }
        requires front { text.front ≡ None }
        requires handler { text.buffer.can.writable ≡ true → writes_texts text.settings.handler ≡ true }
        requires joined { IsJoined (read_of text) }
        ensures text { result.text ≡ text }
        ensures pending { result.pending ≡ [] }
        ensures life { result.life ≡ Life.Live }
        ensures joined { IsJoined (over_of result) }
    {
        WrittenText {
            text,
            pending: Vec::new(alloc),
            life: Life::Live,
        }
    }

    /// Whether the buffer can be read.
    pub fn readable(&self) -> bool
        ensures { result ≡ self.now.text.buffer.can.readable }
    {
        self.text.readable()
    }

    /// Whether the buffer can be written.
    pub fn writable(&self) -> bool
        ensures { result ≡ self.now.text.buffer.can.writable }
    {
        self.text.writable()
    }

    /// Whether the buffer can be moved.
    pub fn seekable(&self) -> bool
        ensures { result ≡ self.now.text.buffer.can.seekable }
    {
        self.text.seekable()
    }

    /// Whether the text can be put elsewhere: where the buffer can be moved, and doesn't append.
    pub fn is_movable(&self) -> bool
        ensures { result ≡ (self.now.text.buffer.can.seekable && not self.now.text.buffer.can.appending) }
    {
        self.text.seekable() && !self.text.appending()
    }

    /// The settings, but for the encoding and the handler.
    pub fn settings(&self) -> TextSettings
        ensures newline { result.newline ≡ self.now.text.settings.newline }
        ensures lines { result.line_buffering ≡ self.now.text.settings.line_buffering }
        ensures through { result.write_through ≡ self.now.text.settings.write_through }
        ensures chunk { result.chunk_size ≡ self.now.text.settings.chunk_size }
    {
        self.text.settings()
    }

    /// What the bytes are decoded and encoded by.
    pub fn coder(&self) -> Coder
        ensures encoding { result.encoding ≡ self.now.text.settings.encoding }
        ensures errors { result.errors ≡ self.now.text.settings.handler }
    {
        self.text.coder()
    }

    /// The buffer, lent.
    pub fn buffer(&self) -> &B
        ensures { B.shows result.now ≡ self.now.text.buffer }
    {
        self.text.buffer()
    }

    /// Where the live text stands: one that owes bytes clean behind them. It calls no raw, and takes no memory.
    pub fn tell(&mut self) -> TextIOCookie
        requires live { self.old.life ≡ Life.Live }
        ensures tells { TellsPlace self.old result }
        ensures joined { IsJoined (over_of self.old) }
        ensures same { self.new ≡ self.old }
    {
        // What holds of every text is known from here on.
        let _ = &self.life;
        if self.pending.is_empty() {
            return self.text.tell().cookie();
        }
        let told = Told {
            start: self.text.at() + self.pending.len() as u64,
            length: 0,
            skipped: 0,
        };
        told.cookie()
    }

    /// Asks for chunks of another size from here on.
    pub fn set_chunksize(&mut self, size: usize)
        requires { 0 < size }
        ensures { self.new ≡ record self.old { text = record self.old.text { settings = record self.old.text.settings { chunk_size = size } } } }
    {
        self.text.set_chunksize(size);
    }

    /// What refuses other settings, if anything does.
    fn refuses(&self, changes: Reconfigure) -> Option<IoFault>
        ensures { result ≡ changes_refusal (file_now self.now) (changes_of changes) }
    {
        if changes.changes_reading() && self.text.is_dirty() {
            return Some(IoFault::SeekFirst);
        }
        let handler = changes.errors?;
        if is_of_stream(self.readable(), self.writable(), handler) {
            return None;
        }
        Some(IoFault::UnknownHandler)
    }

    /// Changes settings; those that aren't given stay.
    pub fn reconfigure(&mut self, changes: Reconfigure) -> Result<(), IoFault>
        requires live { self.old.life ≡ Life.Live }
        ensures { Answers (state_of self.old false) (text_call.Reconfigure (changes_of changes)) (done_reply result) (state_of self.new false) }
    {
        // What holds of every text is known from here on.
        let _ = self.life();
        if let Some(fault) = self.refuses(changes) {
            return Err(fault);
        }
        self.text.reconfigure(changes);
        Ok(())
    }

    /// The buffer, the bytes that it hasn't taken, where there are some with room for as many more as the buffer holds, and the place where
    /// they begin: without any, the byte of the text place.
    pub fn into_parts(self) -> (B, Vec<u8>, u64)
        ensures buffer { B.shows result.0 ≡ self.text.buffer }
        ensures unwritten { result.1.items ≡ self.pending }
        ensures room { HasRoom self.text.buffer self.pending (vec_capacity result.1 - vec_len result.1) }
        ensures place { result.2 ≡ self.text.at }
        ensures joined { IsJoined (over_of self) }
    {
        let WrittenText {
            text,
            pending,
            life: _,
        } = self;
        let (buffer, at) = text.into_buffer();
        (buffer, pending, at)
    }

    /// Hands the buffer the bytes that the text owes it. What it didn't take is owed still.
    fn settle(&mut self) -> Result<(), IoFault>
        requires live { self.old.life ≡ Life.Live }
        requires owes { self.old.pending ≢ [] }
        ensures outcome { SettleOutcome self.old result self.new }
        ensures joined { IsJoined (over_of self.new) }
        ensures writes { self.old.text.buffer.can.writable ≡ true }
        ensures stood { self.old.text.at ≡ self.old.text.buffer.place }
        ensures there { self.new.text.at ≡ self.new.text.buffer.place }
    {
        // What holds of every text is known from here on.
        let _ = &self.life;
        let answer = self.text.pass(&self.pending);
        drop_front(&mut self.pending, self.text.taken() as usize);
        match answer {
            Ok(_) => Ok(()),
            Err(fault) => {
                self.life = self.text.life();
                Err(fault)
            }
        }
    }

    /// The characters that were asked for. What the text owes is handed to the buffer first.
    pub fn read(&mut self, alloc: Global, wanted: Wanted) -> Result<Answer, IoFault>
        requires live { self.old.life ≡ Life.Live }
        requires reads { self.old.text.buffer.can.readable ≡ true }
        ensures { Answers (state_of self.old false) (call_of wanted) (reply_of result) (state_of self.new (waited_in result)) }
    {
        // What holds of every text is known from here on.
        let _ = self.life();
        if self.pending.is_empty() {
            return self.read_on(alloc, wanted);
        }
        if asks_none(wanted) {
            return Ok(Answer::Whole(String::new(alloc)));
        }
        self.settle_and_read(alloc, wanted)
    }

    /// The characters that were asked for, once the buffer has taken what the text owes.
    fn settle_and_read(&mut self, alloc: Global, wanted: Wanted) -> Result<Answer, IoFault>
        requires live { self.old.life ≡ Life.Live }
        requires reads { self.old.text.buffer.can.readable ≡ true }
        requires owes { self.old.pending ≢ [] }
        requires some { asks_none wanted ≡ false }
        ensures { Answers (state_of self.old false) (call_of wanted) (reply_of result) (state_of self.new (waited_in result)) }
    {
        // What holds of every text is known from here on.
        let _ = self.life();
        match self.settle() {
            Ok(()) => self.read_on(alloc, wanted),
            Err(fault) => unready(fault),
        }
    }

    /// The characters that were asked for, of a text that owes nothing itself.
    fn read_on(&mut self, alloc: Global, wanted: Wanted) -> Result<Answer, IoFault>
        requires live { self.old.life ≡ Life.Live }
        requires reads { self.old.text.buffer.can.readable ≡ true }
        requires none { self.old.pending ≡ [] }
        ensures { Answers (state_of self.old false) (call_of wanted) (reply_of result) (state_of self.new (waited_in result)) }
    {
        let answer = self.text.answer(alloc, wanted);
        self.life = self.text.life();
        answer
    }

    /// Hands the buffer what the text owes, and sees to it that the buffer passes on all.
    pub fn flush(&mut self) -> Result<(), IoFault>
        requires live { self.old.life ≡ Life.Live }
        ensures { Answers (state_of self.old false) Flush (done_reply result) (state_of self.new (says_wait (done_reply result))) }
    {
        // What holds of every text is known from here on.
        let _ = &self.life;
        if self.pending.is_empty() {
            return self.flush_on();
        }
        self.settle_and_flush()
    }

    /// Sees to it that the buffer passes on all, once it has taken what the text owes.
    fn settle_and_flush(&mut self) -> Result<(), IoFault>
        requires live { self.old.life ≡ Life.Live }
        requires owes { self.old.pending ≢ [] }
        ensures { Answers (state_of self.old false) Flush (done_reply result) (state_of self.new (says_wait (done_reply result))) }
    {
        // What holds of every text is known from here on.
        let _ = self.life();
        match self.settle() {
            Ok(()) => self.flush_on(),
            Err(fault) => Err(with_taken(fault, 0)),
        }
    }

    /// Sees to it that the buffer passes on all, of a text that owes nothing itself.
    fn flush_on(&mut self) -> Result<(), IoFault>
        requires live { self.old.life ≡ Life.Live }
        requires none { self.old.pending ≡ [] }
        ensures { Answers (state_of self.old false) Flush (done_reply result) (state_of self.new (says_wait (done_reply result))) }
    {
        let flushed = self.text.flush();
        self.life = self.text.life();
        flushed
    }

    /// Where the bytes of the text end: those of its buffer, or its own behind them. The text stays as it is.
    fn bytes_end(&mut self) -> Result<u64, IoFault>
        requires moves { CanMove self.old }
        ensures outcome { EndOutcome self.old result self.new }
        ensures joined { IsJoined (over_of self.new) }
    {
        let _ = &self.life;
        match self.text.end() {
            Ok(end) => {
                if self.pending.is_empty() {
                    return Ok(end);
                }
                Ok(end.max(self.text.at() + self.pending.len() as u64))
            }
            Err(fault) => {
                self.life = self.text.life();
                Err(fault)
            }
        }
    }

    /// Puts the text where a cookie says, where it stands or where its bytes end, by whence 0, 1 and 2, unless an argument refuses it.
    pub fn seek(
        &mut self,
        alloc: Global,
        cookie: &[u8],
        whence: i32,
    ) -> Result<TextIOCookie, IoFault>
        requires moves { CanMove self.old }
        ensures answers { Answers (state_of self.old false) (SeekText cookie.now whence) (cookie_reply result) (state_of self.new (says_wait (cookie_reply result))) }
        ensures builds { IfOk result (λ cookie. is_buildable (cookie_shown cookie) ≡ true) }
    {
        let _ = self.life();
        if let Some(fault) = seek_fault(&[], cookie, i64::from(whence)) {
            return Err(fault);
        }
        match whence {
            1 => {
                let here = self.tell();
                self.seek_to(alloc, here)
            }
            2 => self.seek_end(alloc, cookie),
            _ => match TextIOCookie::parse(cookie) {
                Some(goal) => self.seek_to(alloc, goal),
                None => Err(IoFault::InvalidCookie),
            },
        }
    }

    /// Puts the text where its bytes end.
    fn seek_end(&mut self, alloc: Global, cookie: &[u8]) -> Result<TextIOCookie, IoFault>
        requires moves { CanMove self.old }
        requires accepted { refused_here (file_now self.old) (SeekText cookie.now (pos 2)) ≡ None }
        ensures answers { Answers (state_of self.old false) (SeekText cookie.now (pos 2)) (cookie_reply result) (state_of self.new (says_wait (cookie_reply result))) }
        ensures builds { IfOk result (λ cookie. is_buildable (cookie_shown cookie) ≡ true) }
    {
        let _ = self.life();
        match self.bytes_end() {
            Ok(end) => {
                let there = Told {
                    start: end,
                    length: 0,
                    skipped: 0,
                };
                self.seek_to(alloc, there.cookie())
            }
            Err(fault) => Err(fault),
        }
    }

    /// Puts the text where a cookie says, which it answers. What the text owes is handed to the buffer first.
    fn seek_to(&mut self, alloc: Global, goal: TextIOCookie) -> Result<TextIOCookie, IoFault>
        requires moves { CanMove self.old }
        requires sound { CanSeekBy (cookie_shown goal) }
        ensures answers { AnswersSeeks (state_of self.old false) (cookie_shown goal) (cookie_reply result) (state_of self.new (says_wait (cookie_reply result))) }
        ensures goal { IfOk result (λ cookie. cookie ≡ goal) }
    {
        // What holds of every text is known from here on.
        let _ = self.life();
        if self.pending.is_empty() {
            return self.seek_on(alloc, goal);
        }
        match self.settle() {
            Ok(()) => self.seek_on(alloc, goal),
            Err(fault) => Err(with_taken(fault, 0)),
        }
    }

    /// Puts the text where a cookie says, of a text that owes nothing itself.
    fn seek_on(&mut self, alloc: Global, goal: TextIOCookie) -> Result<TextIOCookie, IoFault>
        requires moves { CanMove self.old }
        requires none { self.old.pending ≡ [] }
        requires sound { CanSeekBy (cookie_shown goal) }
        ensures answers { AnswersSeeks (state_of self.old false) (cookie_shown goal) (cookie_reply result) (state_of self.new (says_wait (cookie_reply result))) }
        ensures goal { IfOk result (λ cookie. cookie ≡ goal) }
    {
        let sought = self.text.seek_to(alloc, &goal);
        self.life = self.text.life();
        match sought {
            Ok(()) => Ok(goal),
            Err(fault) => Err(fault),
        }
    }

    /// Hands the buffer what the text owes, and closes the buffer.
    pub fn close(&mut self) -> Result<(), IoFault>
        requires live { self.old.life ≡ Life.Live }
        ensures { Answers (state_of self.old false) Close (done_reply result) (state_of self.new (says_wait (done_reply result))) }
    {
        // What holds of every text is known from here on.
        let _ = &self.life;
        if self.pending.is_empty() {
            return self.close_on();
        }
        self.settle_and_close()
    }

    /// Closes the buffer, once it has taken what the text owes. Where it failed it isn't asked to close.
    fn settle_and_close(&mut self) -> Result<(), IoFault>
        requires live { self.old.life ≡ Life.Live }
        requires owes { self.old.pending ≢ [] }
        ensures { Answers (state_of self.old false) Close (done_reply result) (state_of self.new (says_wait (done_reply result))) }
    {
        // What holds of every text is known from here on.
        let _ = self.life();
        match self.settle() {
            Ok(()) => self.close_on(),
            Err(fault) => {
                if is_raw_fault(fault) {
                    self.end();
                    return Err(IoFault::RawFault);
                }
                Err(with_taken(fault, 0))
            }
        }
    }

    /// Closes the text, whose buffer failed.
    fn end(&mut self)
        requires { self.old.text.buffer.can.writable ≡ true }
        ensures { self.new ≡ record self.old { life = Life.Closed } }
    {
        self.life = Life::Closed;
    }

    /// Closes the buffer, of a text that owes nothing itself.
    fn close_on(&mut self) -> Result<(), IoFault>
        requires live { self.old.life ≡ Life.Live }
        requires none { self.old.pending ≡ [] }
        ensures { Answers (state_of self.old false) Close (done_reply result) (state_of self.new (says_wait (done_reply result))) }
    {
        let closed = self.text.close();
        self.life = self.text.life();
        closed
    }

    /// How many bytes more there can be behind the text's place.
    fn room(&self) -> u64
        ensures { (place_now self.now).at + result ≡ greatest_place }
    {
        // What holds of every text is known from here on.
        let _ = &self.life;
        GREATEST_PLACE - (self.text.at() + self.pending.len() as u64)
    }

    /// How many bytes there are, where they end no further than a stream can.
    fn room_for(&self, bytes: u128) -> Option<usize>
        ensures { RoomFor self.now bytes result }
    {
        // What holds of every text is known from here on.
        let _ = &self.life;
        if bytes <= u128::from(self.room()) {
            Some(bytes as usize)
        } else {
            None
        }
    }

    /// Moves the buffer of a clean text back to where what is owed begins, where bytes were read ahead of it.
    fn go_back(&mut self) -> Result<(), IoFault>
        requires live { self.old.life ≡ Life.Live }
        requires writes { self.old.text.buffer.can.writable ≡ true }
        requires clean { self.old.text.dirty ≡ false }
        ensures outcome { BackOutcome self.old result self.new }
        ensures joined { IsJoined (over_of self.new) }
    {
        // What holds of every text is known from here on.
        let _ = &self.life;
        match self.text.return_to_place() {
            Ok(()) => Ok(()),
            Err(fault) => {
                self.life = self.text.life();
                Err(fault)
            }
        }
    }

    /// Puts the bytes of a text, which has at most so many, behind those that are owed, and answers how many it has. There is room then for
    /// as many more as the buffer holds.
    #[inline(always)]
    fn put(&mut self, alloc: Global, text: &str, most: usize) -> Result<usize, IoFault>
        requires live { self.old.life ≡ Life.Live }
        requires stands { StandsToWrite self.old.text }
        requires writes { self.old.text.buffer.can.writable ≡ true }
        requires whole { written_refusal self.old.text.settings (chars text.now) ≡ None }
        requires most { length (written_bytes self.old.text.settings (chars text.now)) ≤ most }
        requires far { (place_now self.old).at + most ≤ greatest_place }
        ensures count { IfOk result (λ count. count ≡ length (written_bytes self.old.text.settings (chars text.now))) }
        ensures put { OnOk result (self.new ≡ record self.old { pending = self.old.pending ++ written_bytes self.old.text.settings (chars text.now); room = self.new.room }) }
        ensures memory { IfErr result (λ why. why ≡ IoFault.NoMemory) }
        ensures same { OnErr result (self.new ≡ record self.old { room = self.new.room }) }
    {
        // What holds of every text is known from here on.
        let _ = &self.life;
        let Some(room) = most.checked_add(self.text.buffer().buffer_size()) else {
            return Err(IoFault::NoMemory);
        };
        let coder = self.text.coder();
        let newline = self.text.settings().newline;
        let owed = self.pending.len();
        self.pending.reserve(room)?;
        push_written_text(alloc, coder, newline, text, &mut self.pending)?;
        Ok(self.pending.len() - owed)
    }

    /// Lets go of the last n of the bytes that are owed.
    fn let_go(&mut self, count: usize)
        requires { count ≤ length self.old.pending }
        ensures left { self.new ≡ record self.old { pending = take (length self.old.pending - count) self.old.pending; room = self.new.room } }
        ensures joined { IsJoined (over_of self.new) }
    {
        // What holds of every text is known from here on.
        let _ = &self.life;
        self.pending.truncate(self.pending.len() - count);
    }

    /// Whether a text is passed on by the buffer once it is written: with line buffering one that has a line end. Without it none is looked
    /// for.
    fn flushes(&self, text: &str) -> bool
        ensures { result ≡ (self.now.text.settings.line_buffering && has_line_end (chars text.now)) }
    {
        self.text.settings().line_buffering && has_line_end(text)
    }

    /// Hands the buffer what is owed, where that has to be: with write through, from a chunk on, and where the buffer is to pass on all then.
    /// The last n bytes are the text's that is being written.
    fn hand_on(&mut self, count: usize, flushes: bool) -> Result<(), IoFault>
        requires live { self.old.life ≡ Life.Live }
        requires stands { StandsToWrite self.old.text }
        requires writes { self.old.text.buffer.can.writable ≡ true }
        requires count { count ≤ length self.old.pending }
        requires some { flushes ≡ true → 0 < count }
        ensures outcome { HandOutcome self.old count flushes result self.new }
        ensures keeps { KeepsOwed self.old flushes result self.new }
        ensures once { HandsOnOnce self.old flushes result self.new }
        ensures joined { IsJoined (over_of self.new) }
    {
        // What holds of every text is known from here on.
        let _ = &self.life;
        let settings = self.text.settings();
        if flushes {
            return self.prepare_and_pass(count);
        }
        if !settings.write_through && self.pending.len() < settings.chunk_size {
            return Ok(());
        }
        if self.pending.is_empty() {
            return Ok(());
        }
        self.settle_or_let_go(count)
    }

    /// Hands the buffer what is owed. Where it takes nothing for want of memory, the last n bytes are let go of: those of the text that is
    /// being written.
    fn settle_or_let_go(&mut self, count: usize) -> Result<(), IoFault>
        requires live { self.old.life ≡ Life.Live }
        requires owes { self.old.pending ≢ [] }
        requires count { count ≤ length self.old.pending }
        ensures outcome { GivesOutcome self.old count result self.new }
        ensures joined { IsJoined (over_of self.new) }
        ensures there { self.new.text.at ≡ self.new.text.buffer.place }
    {
        // What holds of every text is known from here on.
        let _ = self.life();
        match self.settle() {
            Ok(()) => Ok(()),
            Err(fault) => {
                if matches!(fault, IoFault::NoMemory) && matches!(self.life, Life::Live) {
                    self.let_go(count);
                    return Err(IoFault::NoMemory);
                }
                Err(with_taken(fault, count as u64))
            }
        }
    }

    /// Sees to it that the raw stands where what the buffer owes begins, so that a flush writes at once. The text stays as it is.
    fn prepare(&mut self) -> Result<(), IoFault>
        requires live { self.old.life ≡ Life.Live }
        requires writes { self.old.text.buffer.can.writable ≡ true }
        ensures outcome { ReadyOutcome self.old result self.new }
        ensures joined { IsJoined (over_of self.new) }
    {
        // What holds of every text is known from here on.
        let _ = &self.life;
        match self.text.prepare_flush() {
            Ok(()) => Ok(()),
            Err(fault) => {
                self.life = self.text.life();
                Err(fault)
            }
        }
    }

    /// Hands the buffer what is owed, and sees to it that it passes on all. For want of memory the last n bytes, those of the text that is
    /// being written, are let go of, unless the raw has some of them.
    fn prepare_and_pass(&mut self, count: usize) -> Result<(), IoFault>
        requires live { self.old.life ≡ Life.Live }
        requires stands { StandsToWrite self.old.text }
        requires writes { self.old.text.buffer.can.writable ≡ true }
        requires count { count ≤ length self.old.pending }
        requires some { 0 < count }
        ensures outcome { HandOutcome self.old count true result self.new }
        ensures joined { IsJoined (over_of self.new) }
    {
        // What holds of every text is known from here on.
        let _ = self.life();
        match self.prepare() {
            Ok(()) => self.settle_and_pass(count),
            Err(fault) => {
                if matches!(fault, IoFault::NoMemory) {
                    self.let_go(count);
                    return Err(IoFault::NoMemory);
                }
                Err(fault)
            }
        }
    }

    /// Hands the buffer, whose raw stands where what it owes begins, what is owed, and sees to it that it passes on all.
    fn settle_and_pass(&mut self, count: usize) -> Result<(), IoFault>
        requires live { self.old.life ≡ Life.Live }
        requires stands { StandsToWrite self.old.text }
        requires writes { self.old.text.buffer.can.writable ≡ true }
        requires behind { OwesBehind (stream_shown self.old.text.buffer) }
        requires count { count ≤ length self.old.pending }
        requires some { 0 < count }
        ensures outcome { HandOutcome self.old count true result self.new }
        ensures joined { IsJoined (over_of self.new) }
    {
        // What holds of every text is known from here on.
        let _ = &self.life;
        match self.settle_or_let_go(count) {
            Ok(()) => self.pass_on(count),
            Err(fault) => Err(fault),
        }
    }

    /// Sees to it that the buffer passes on all, of a text that owes nothing itself. For want of memory the buffer takes back the last n
    /// bytes, those of the text that is being written; where the raw has some of them, the text fails.
    fn pass_on(&mut self, count: usize) -> Result<(), IoFault>
        requires live { self.old.life ≡ Life.Live }
        requires none { self.old.pending ≡ [] }
        requires stands { StandsToWrite self.old.text }
        requires writes { self.old.text.buffer.can.writable ≡ true }
        requires behind { self.old.text.buffer.owed.bytes ≢ [] → OwesBehind (stream_shown self.old.text.buffer) }
        requires some { 0 < count }
        ensures outcome { PassOutcome self.old count result self.new }
        ensures joined { IsJoined (over_of self.new) }
    {
        // What holds of every text is known from here on.
        let _ = &self.life;
        match self.text.flush() {
            Ok(()) => Ok(()),
            Err(fault) => {
                if is_wait(fault) {
                    return Err(with_taken(fault, count as u64));
                }
                if is_raw_fault(fault) {
                    self.life = Life::Failed;
                    return Err(IoFault::RawFault);
                }
                if self.text.take_back(count) {
                    return Err(IoFault::NoMemory);
                }
                self.life = Life::Failed;
                Err(fault)
            }
        }
    }

    /// Whether it is seen at once that a text of at most so many bytes is only kept, behind others that are owed: all come to less than a
    /// chunk then, and nothing is passed on at once.
    fn is_kept(&self, most: usize) -> bool
        requires few { most ≤ 8192 }
        ensures { result ≡ true → IsKept self.now most }
    {
        // What holds of every text is known from here on.
        let _ = &self.life;
        let settings = self.text.settings();
        let end = self.pending.len() + most;
        !self.pending.is_empty()
            && !settings.line_buffering
            && !settings.write_through
            && end < settings.chunk_size
            && self.text.at() + end as u64 <= GREATEST_PLACE
    }

    /// At most how many bytes a text is written as, where it is seen at once that it is only kept.
    fn kept_bound(&self, text: &str) -> Option<usize>
        ensures kept { IfSome result (λ most. IsKept self.now most) }
        ensures whole { IfSome result (λ most. written_refusal self.now.text.settings (chars text.now) ≡ None) }
        ensures most { IfSome result (λ most. length (written_bytes self.now.text.settings (chars text.now)) ≤ most) }
    {
        let most = short_bound(self.text.coder(), self.text.settings().newline, text)?;
        self.is_kept(most).then_some(most)
    }

    /// Keeps a text of at most so many bytes behind those that are owed, which the buffer isn't given.
    fn keep(&mut self, alloc: Global, text: &str, most: usize) -> Result<usize, IoFault>
        requires live { self.old.life ≡ Life.Live }
        requires writes { self.old.text.buffer.can.writable ≡ true }
        requires clean { self.old.text.dirty ≡ false }
        requires kept { IsKept self.old most }
        requires whole { written_refusal self.old.text.settings (chars text.now) ≡ None }
        requires most { length (written_bytes self.old.text.settings (chars text.now)) ≤ most }
        ensures { Answers (state_of self.old false) (WriteText (chars text.now)) (count_reply result) (state_of self.new (says_wait (count_reply result))) }
    {
        // What holds of every text is known from here on.
        let _ = self.life();
        match self.put(alloc, text, most) {
            Ok(_) => {
                // What holds of every text is known of it as it is now.
                let _ = self.life();
                Ok(character_count(text))
            }
            Err(fault) => Err(fault),
        }
    }

    /// Writes a text: its bytes are the text's own, until its buffer takes them. With line buffering a text that has a line end is flushed.
    pub fn write(&mut self, alloc: Global, text: &str) -> Result<usize, IoFault>
        requires live { self.old.life ≡ Life.Live }
        requires writes { self.old.text.buffer.can.writable ≡ true }
        ensures { Answers (state_of self.old false) (WriteText (chars text.now)) (count_reply result) (state_of self.new (says_wait (count_reply result))) }
    {
        // What holds of every text is known from here on.
        let _ = self.life();
        if self.text.is_dirty() {
            return Err(IoFault::SeekFirst);
        }
        match self.kept_bound(text) {
            Some(most) => self.keep(alloc, text, most),
            None => self.measure_and_write(alloc, text),
        }
    }

    /// Writes a text, once it is known what it comes to.
    #[inline(never)]
    fn measure_and_write(&mut self, alloc: Global, text: &str) -> Result<usize, IoFault>
        requires live { self.old.life ≡ Life.Live }
        requires writes { self.old.text.buffer.can.writable ≡ true }
        requires clean { self.old.text.dirty ≡ false }
        ensures { Answers (state_of self.old false) (WriteText (chars text.now)) (count_reply result) (state_of self.new (says_wait (count_reply result))) }
    {
        // What holds of every text is known from here on.
        let _ = self.life();
        let coder = self.text.coder();
        match written_size(
            coder,
            self.text.settings().newline,
            text,
            u128::from(self.room()),
        ) {
            Ok(size) => self.write_sized(alloc, text, size),
            Err(fault) => Err(fault),
        }
    }

    /// Writes a text of a size, none of which is refused.
    fn write_sized(
        &mut self,
        alloc: Global,
        text: &str,
        size: WrittenSize,
    ) -> Result<usize, IoFault>
        requires live { self.old.life ≡ Life.Live }
        requires writes { self.old.text.buffer.can.writable ≡ true }
        requires clean { self.old.text.dirty ≡ false }
        requires whole { written_refusal self.old.text.settings (chars text.now) ≡ None }
        requires chars { size.chars ≡ length (chars text.now) }
        requires most { length (written_bytes self.old.text.settings (chars text.now)) ≤ size.bytes }
        requires bytes { ((place_now self.old).at + size.bytes ≤ greatest_place) ⊎ (size.bytes ≡ length (written_bytes self.old.text.settings (chars text.now))) }
        ensures { Answers (state_of self.old false) (WriteText (chars text.now)) (count_reply result) (state_of self.new (says_wait (count_reply result))) }
    {
        // What holds of every text is known from here on.
        let _ = self.life();
        let Some(most) = self.room_for(size.bytes) else {
            return Err(IoFault::TooFar);
        };
        let flushes = self.flushes(text);
        match self.go_back() {
            Ok(()) => match self.put(alloc, text, most) {
                Ok(bytes) => match self.hand_on(bytes, flushes) {
                    Ok(()) => Ok(size.chars),
                    Err(fault) => Err(fault),
                },
                Err(fault) => Err(fault),
            },
            Err(fault) => Err(fault),
        }
    }
}

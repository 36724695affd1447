//! The text over a buffered stream: it asks for chunks, decodes what it has in hand, and answers from the characters that it knows. It holds
//! what an answer has and a chunk behind it: of a `read` of all the whole rest, also where that is refused. It holds the
//! bytes of what it knows, too, and of the last characters that it gave, and those that gave none since.
ghost use Rattle.std.specs.Prelude.{◌≡◌, ℕ, ℤ, List, Bool, ◌<◌, ◌≤◌, ◌+◌, ◌||◌, true, false, [], length, take, drop, pos, None, OnErr, IfOk, IfErr, IfSome, MatchResult};
ghost use Rattle.py_flat.specs.Calls as binary;
ghost use Rattle.py_flat.specs.Calls.{Write};
ghost use Rattle.py_plain_text.specs.TextCalls.{SeekText, Flush, Close, changes_reading, changed};
ghost use Rattle.py_stream.specs.Kinds.{says_wait};
ghost use Rattle.py_stream.specs.Replies.{count_reply, done_reply};
ghost use Rattle.py_flat.specs.Limits.{greatest_place};
ghost use Rattle.py_plain.specs.Handlers.{reads_texts};
ghost use Rattle.py_text.specs.Settings.{changes_of};
ghost use Rattle.py_read_text.specs.TextState.{settings_of};
ghost use Rattle.py_codec.specs.Answers.{text_of};
ghost use Rattle.py_plain_text.specs.TextStep.{asks_any};
ghost use Rattle.py_stream.specs.Writing.{OwesUpTo, Takes};
ghost use Rattle.py_stream.specs.Buffer.{WhereShown, flat_of, stream_shown, AnswersAsBuffer, EndsAt, TakesBack};
ghost use Rattle.py_held_text.specs.Finding.{IsFrontOf, answer_of};
ghost use Rattle.py_read_text.specs.Ahead.{ReadsOn};
ghost use Rattle.py_read_text.specs.Reading.{size_of, asks_all, KeepsPlace, FetchOutcome, GatherOutcome, GathersAsNeeded, asks_none, GiveOutcome, GiveAllOutcome, GatheredAt, Finishes, OnlyWhereWaits, WaitsOrLacks, reply_of, call_of, waited_in};
ghost use Rattle.py_plain_text.specs.Telling.{told};
ghost use Rattle.py_telling.specs.ToldView.{told_shown, IsTold};
ghost use Rattle.py_read_text.specs.Knowing.{over_of, state_of, shown_file, IsClean, IsSetTo};
ghost use Rattle.py_read_text.specs.Writing.{StandsBehind, ReturnOutcome, PrepareOutcome};
ghost use Rattle.py_plain_text.specs.CookieView.{cookie_shown};
ghost use Rattle.py_plain_text.specs.Landing.{start_of, skips};
ghost use Rattle.py_read_text.specs.Seeking.{Seeks, TextGoes, SeekOutcome, sought_reply};
ghost use Rattle.py_read_text.specs.Owing.{begins, IsJoined};
ghost use Rattle.py_read_text.specs.Answers.{Answers};

use crate::looking::{Gathered, look, look_at_end};
use crate::opening::reading_coder;
use crate::seeking::{Landing, MOST_FED, go_to, land, skips, start_of};
use py_flat::{IoFault, Life};
use py_held_text::{Coder, FIRST_SIZE, HeldFront, HeldText, Wanted};
use py_plain::Newlines;
use py_plain_text::TextIOCookie;
use py_stream::BufferedStream;
use py_telling::Told;
use py_text::{Reconfigure, TextSettings};
use std::alloc::Global;
use std::fmt;
use std::marker::Model;

/// How many bytes the buffer is asked for at once at most, however large the chunks are: space is taken for as many before they come.
const MOST_SIZE: usize = 65536;

/// What a read of the buffer brought.
#[derive(Clone, Copy)]
pub(crate) enum Chunk {
    /// Some bytes.
    More,
    /// Nothing, at the end.
    End,
    /// Nothing yet.
    Waits,
}

/// What a call answers.
pub enum Answer {
    /// All that was asked for and is there.
    Whole(String),
    /// Some of it, since the raw would have blocked.
    Short(String),
    /// Nothing yet.
    NotReady,
}

/// Whether all that is left is asked for.
fn asks_all(wanted: Wanted) -> bool
    ensures { result ≡ asks_all wanted }
{
    matches!(wanted, Wanted::Characters(None))
}

/// Whether anything is asked for.
fn asks_any(wanted: Wanted) -> bool
    ensures { result ≡ asks_any (size_of wanted) }
{
    match wanted {
        Wanted::Characters(size) | Wanted::Line(size) => size != Some(0),
    }
}

/// Whether characters were asked for, by a call or before it.
fn dirtied(dirty: bool, asks: bool) -> bool
    ensures { result ≡ (dirty || asks) }
{
    dirty || asks
}

/// Where a text stands inside an item of which so many characters were taken behind those that are skipped.
fn further(inside: Told, taken: u128) -> Told
    requires few { inside.skipped + taken ≤ 24 }
    ensures start { result.start ≡ inside.start }
    ensures length { result.length ≡ inside.length }
    ensures skipped { result.skipped ≡ inside.skipped + taken }
{
    Told {
        skipped: inside.skipped + taken as usize,
        ..inside
    }
}

/// A text over a buffered stream, as far as it reads: a layer above sees to lives and abilities.
///
/// It is seen as what its buffer is seen as, what it has in hand, its place and its settings. It may have been put inside an item: then what
/// is left of that comes first, and the text behind it. Only a dirty text stands so.
#[derive(Drop)]
pub struct ReadText<B: BufferedStream> {
    buffer: B,
    held: HeldText,
    coder: Coder,
    settings: TextSettings,
    /// Where the text was put inside an item, with the characters that are skipped: it goes on behind that item.
    inside: Option<Told>,
    at: u64,
    taken: u128,
    dirty: bool,
}

impl<B: BufferedStream> Model for ReadText<B> {
    ghost use Rattle.py_read_text.specs.TextState.{settings_of};
    ghost use Rattle.py_read_text.specs.Knowing.{TextView, IsText, front_shown};

    ghost Value = { TextView };

    ghost view = { λ t. record {
      buffer = B.shows t.buffer;
      held = t.held;
      front = front_shown t.inside;
      at = t.at;
      taken = t.taken;
      dirty = t.dirty;
      settings = settings_of t.coder t.settings;
    } };

    ghost invariant = { λ t. IsText (B.shows t.buffer) t.held (front_shown t.inside) t.at t.taken t.dirty (settings_of t.coder t.settings) };
}

// Only how much is in hand, and not what: thousands of characters would hide all else.
impl<B: BufferedStream + fmt::Debug> fmt::Debug for ReadText<B> {
    fn fmt<W: fmt::Write>(&self, f: &mut fmt::Formatter<W>) -> fmt::Result {
        f.debug_struct("ReadText")
            .field("buffer", &self.buffer)
            .field("held", &self.held)
            .field("coder", &self.coder)
            .field("settings", &self.settings)
            .field("at", &self.at)
            .finish_non_exhaustive()
    }
}

impl<B: BufferedStream> ReadText<B> {
    /// A text over a buffer that stands at a place.
    pub fn new(alloc: Global, buffer: B, coder: Coder, settings: TextSettings, place: u64) -> Self
        requires reads { (B.shows buffer).can.readable ≡ true → reads_texts coder.errors ≡ true }
        requires asks { 0 < settings.chunk_size }
        requires kept { (B.shows buffer).exported ≡ false }
        requires owes { OwesUpTo (B.shows buffer).owed (B.shows buffer).place }
        requires stands { place ≡ (B.shows buffer).place }
        requires far { place ≤ greatest_place }
        ensures buffer { result.buffer ≡ B.shows buffer }
        ensures front { result.front ≡ None }
        ensures at { result.at ≡ place }
        ensures taken { result.taken ≡ 0 }
        ensures dirty { result.dirty ≡ false }
        ensures settings { result.settings ≡ settings_of coder settings }
        ensures joined { IsJoined (over_of result) }
    {
        // What holds of every buffered stream is known from here on.
        let _ = buffer.buffer_size();
        let reading = reading_coder(buffer.readable(), coder);
        ReadText {
            buffer,
            held: HeldText::new(alloc, reading, settings.newline, place),
            coder,
            settings,
            inside: None,
            at: place,
            taken: 0,
            dirty: false,
        }
    }

    /// What became of the buffer, and so of the text.
    pub fn life(&self) -> Life
        ensures life { result ≡ self.now.buffer.life }
        ensures joined { IsJoined (over_of self.now) }
    {
        self.buffer.life()
    }

    /// Whether the buffer can be read.
    pub fn readable(&self) -> bool
        ensures { result ≡ self.now.buffer.can.readable }
    {
        self.buffer.readable()
    }

    /// Whether the buffer can be written.
    pub fn writable(&self) -> bool
        ensures { result ≡ self.now.buffer.can.writable }
    {
        self.buffer.writable()
    }

    /// Whether the buffer can be moved.
    pub fn seekable(&self) -> bool
        ensures { result ≡ self.now.buffer.can.seekable }
    {
        self.buffer.seekable()
    }

    /// Whether each write of the buffer goes to the end.
    pub fn appending(&self) -> bool
        ensures { result ≡ self.now.buffer.can.appending }
    {
        self.buffer.appending()
    }

    /// The settings, but for the encoding and the handler.
    pub fn settings(&self) -> TextSettings
        ensures newline { result.newline ≡ self.now.settings.newline }
        ensures lines { result.line_buffering ≡ self.now.settings.line_buffering }
        ensures through { result.write_through ≡ self.now.settings.write_through }
        ensures chunk { result.chunk_size ≡ self.now.settings.chunk_size }
    {
        self.settings
    }

    /// What the bytes are decoded by.
    pub fn coder(&self) -> Coder
        ensures encoding { result.encoding ≡ self.now.settings.encoding }
        ensures errors { result.errors ≡ self.now.settings.handler }
    {
        self.coder
    }

    /// Asks for chunks of another size from here on.
    pub fn set_chunksize(&mut self, size: usize)
        requires { 0 < size }
        ensures { self.new ≡ record self.old { settings = record self.old.settings { chunk_size = size } } }
    {
        self.settings.chunk_size = size;
    }

    /// Changes settings; those that aren't given stay. How a text is read may change only while it is clean.
    pub fn reconfigure(&mut self, changes: Reconfigure)
        requires clean { changes_reading (changes_of changes) ≡ true → IsClean self.old }
        requires reads { self.old.buffer.can.readable ≡ true → IfSome changes.errors (λ handler. reads_texts handler ≡ true) }
        ensures changed { IsSetTo (changed self.old.settings (changes_of changes)) self.old self.new }
        ensures joined { IsJoined (over_of self.new) }
    {
        // The handler of what is in hand is one that texts are read with.
        let _ = self.held.coder();
        let coder = changes.coder_after(self.coder);
        let settings = changes.settings_after(self.settings);
        if changes.changes_reading() {
            self.read_as(coder, settings.newline);
        }
        self.write_as(settings.line_buffering, settings.write_through);
    }

    /// Reads by another codec and rule from the place of a clean text on: what was decoded is decoded anew.
    fn read_as(&mut self, coder: Coder, newline: Newlines)
        requires clean { IsClean self.old }
        requires reads { self.old.buffer.can.readable ≡ true → reads_texts coder.errors ≡ true }
        ensures { IsSetTo (record self.old.settings { encoding = coder.encoding; handler = coder.errors; newline = newline }) self.old self.new }
    {
        let reading = reading_coder(self.buffer.readable(), coder);
        self.held.read_anew(reading, newline);
        self.coder = coder;
        self.settings.newline = newline;
    }

    /// Hands the buffer what is written by other settings from here on.
    fn write_as(&mut self, line_buffering: bool, write_through: bool)
        ensures set { self.new ≡ record self.old { settings = record self.old.settings { line_buffering = line_buffering; write_through = write_through } } }
        ensures joined { IsJoined (over_of self.new) }
    {
        self.settings.line_buffering = line_buffering;
        self.settings.write_through = write_through;
    }

    /// Closes the live buffer.
    pub fn close(&mut self) -> Result<(), IoFault>
        requires { self.old.buffer.life ≡ Life.Live }
        ensures { Answers (state_of self.old false) Close (done_reply result) (state_of self.new (says_wait (done_reply result))) }
    {
        // What holds of every text is known from here on.
        let _ = &self.held;
        self.buffer.close()
    }

    /// The buffer, lent.
    pub fn buffer(&self) -> &B
        ensures { B.shows result.now ≡ self.now.buffer }
    {
        &self.buffer
    }

    /// Where the buffer stands: behind the bytes in hand.
    fn buffer_place(&self) -> u64
        ensures { result ≡ self.now.buffer.place }
    {
        self.held.place() + self.held.undecoded() as u64
    }

    /// The byte of the text place.
    pub fn at(&self) -> u64
        ensures { result ≡ self.now.at }
    {
        self.at
    }

    /// Whether characters were asked for since the text was last placed.
    pub fn is_dirty(&self) -> bool
        ensures { result ≡ self.now.dirty }
    {
        self.dirty
    }

    /// Where the live text stands. It calls no raw, and takes no memory.
    pub fn tell(&mut self) -> Told
        requires live { self.old.buffer.life ≡ Life.Live }
        ensures told { WhereShown self.old.buffer (told_shown result ≡ told (shown_file self.old)) }
        ensures forth { begins self.old.front self.old.at ≤ result.start }
        ensures fits { result.start + result.length ≤ self.old.buffer.place }
        ensures within { IsTold result }
        ensures same { self.new ≡ self.old }
    {
        // The handler of what is in hand is one that texts are read with.
        let _ = self.held.coder();
        let put = self.inside.unwrap_or(Told {
            start: self.at,
            length: 0,
            skipped: 0,
        });
        if self.held.front() > 0 {
            return further(put, self.taken);
        }
        if self.inside.is_none() && self.taken == 0 {
            return put;
        }
        self.held.tell()
    }

    /// Goes to a byte place, clean.
    fn go(&mut self, place: u64) -> Result<(), IoFault>
        requires live { self.old.buffer.life ≡ Life.Live }
        requires seeks { self.old.buffer.can.seekable ≡ true }
        requires appends { self.old.buffer.can.appending ≡ false }
        requires near { place ≤ greatest_place }
        ensures outcome { TextGoes self.old place result self.new }
        ensures joined { IsJoined (over_of self.new) }
    {
        // What holds of every text is known from here on.
        let _ = &self.held;
        match go_to(&mut self.buffer, place) {
            Ok(()) => {
                self.held.clear(place);
                self.inside = None;
                self.at = place;
                self.taken = 0;
                self.dirty = false;
                Ok(())
            }
            Err(fault) => Err(fault),
        }
    }

    /// Goes where a cookie that skips characters says.
    fn go_inside(&mut self, alloc: Global, cookie: &TextIOCookie) -> Result<(), IoFault>
        requires live { self.old.buffer.life ≡ Life.Live }
        requires seeks { self.old.buffer.can.seekable ≡ true }
        requires appends { self.old.buffer.can.appending ≡ false }
        requires near { start_of (cookie_shown cookie.now) ≤ greatest_place }
        requires flags { (cookie_shown cookie.now).dec_flags ≡ pos 0 }
        requires skips { skips (cookie_shown cookie.now) ≡ true }
        ensures outcome { SeekOutcome self.old (cookie_shown cookie.now) result self.new }
        ensures joined { IsJoined (over_of self.new) }
    {
        let start = start_of(cookie);
        let from = self.buffer_place();
        let coder = self.held.coder();
        self.held.reserve(MOST_FED)?;
        let mut fed = Vec::new(alloc);
        fed.reserve(MOST_FED)?;
        match land(&mut self.buffer, alloc, coder, cookie, from, &mut fed) {
            Landing::Inside(text, skipped) => {
                let at = start + fed.len() as u64;
                self.held.stand_behind(at, text, skipped);
                self.inside = Some(Told {
                    start,
                    length: fed.len(),
                    skipped: skipped.chars,
                });
                self.at = at;
                self.taken = 0;
                self.dirty = true;
                Ok(())
            }
            Landing::Start(fault) => {
                self.held.clear(start);
                self.held.push(&fed);
                self.inside = None;
                self.at = start;
                self.taken = 0;
                self.dirty = false;
                Err(fault)
            }
            Landing::Back(fault) => Err(fault),
        }
    }

    /// Goes where a cookie says.
    fn go_by(&mut self, alloc: Global, cookie: &TextIOCookie) -> Result<(), IoFault>
        requires live { self.old.buffer.life ≡ Life.Live }
        requires seeks { self.old.buffer.can.seekable ≡ true }
        requires appends { self.old.buffer.can.appending ≡ false }
        requires near { start_of (cookie_shown cookie.now) ≤ greatest_place }
        requires flags { (cookie_shown cookie.now).dec_flags ≡ pos 0 }
        ensures outcome { SeekOutcome self.old (cookie_shown cookie.now) result self.new }
        ensures joined { IsJoined (over_of self.new) }
    {
        if skips(cookie) {
            return self.go_inside(alloc, cookie);
        }
        self.go(start_of(cookie))
    }

    /// Puts the live text where a cookie says: at the byte where it begins, clean; or, where it skips characters, inside the item that it feeds,
    /// behind those.
    ///
    /// `CannotRestore` where a cookie that skips doesn't fit the bytes that lie at its start, or the buffer can't be read: the text stands there,
    /// clean. `WouldBlock`: the raw would have blocked as its buffer passed on what it owes, and the text stands where it stood; or as the bytes fed
    /// were read: then it stands, clean, at the cookie's start. `NoMemory` leaves the text where it stood; but over a raw that takes memory it
    /// stands, clean, at the start of a cookie that skips, where memory ran out as the bytes fed were read, and again on the way back. `RawFault`:
    /// the raw failed, and the text with it, where it stood or, where the bytes fed were being read, clean at the cookie's start.
    pub fn seek_to(&mut self, alloc: Global, cookie: &TextIOCookie) -> Result<(), IoFault>
        requires live { self.old.buffer.life ≡ Life.Live }
        requires seeks { self.old.buffer.can.seekable ≡ true }
        requires appends { self.old.buffer.can.appending ≡ false }
        requires near { start_of (cookie_shown cookie.now) ≤ greatest_place }
        requires flags { (cookie_shown cookie.now).dec_flags ≡ pos 0 }
        ensures outcome { SeekOutcome self.old (cookie_shown cookie.now) result self.new }
        ensures joined { IsJoined (over_of self.new) }
        ensures answers { (sought : List ℕ) (whence : ℤ) → Seeks (state_of self.old false) sought whence (cookie_shown cookie.now)
            → Answers (state_of self.old false) (SeekText sought whence) (sought_reply (cookie_shown cookie.now) result)
            (state_of self.new (says_wait (sought_reply (cookie_shown cookie.now) result))) }
    {
        // What holds of every text is known from here on.
        let _ = self.life();
        self.go_by(alloc, cookie)
    }

    /// How many bytes there are. The text stays as it is.
    pub fn end(&mut self) -> Result<u64, IoFault>
        requires live { self.old.buffer.life ≡ Life.Live }
        requires seeks { self.old.buffer.can.seekable ≡ true }
        ensures ends { EndsAt self.old.buffer result self.new.buffer }
        ensures keeps { KeepsPlace self.old self.new }
        ensures joined { IsJoined (over_of self.new) }
    {
        // What holds of every text is known from here on.
        let _ = &self.held;
        self.buffer.end()
    }

    /// How many bytes the buffer took of the last that were written to it.
    pub fn taken(&self) -> u64
        ensures { result ≡ self.now.buffer.taken }
    {
        self.buffer.taken()
    }

    /// Moves the buffer back to the place of a clean text, where bytes were read ahead of it. What is in hand is let go of then.
    pub fn return_to_place(&mut self) -> Result<(), IoFault>
        requires live { self.old.buffer.life ≡ Life.Live }
        requires clean { IsClean self.old }
        requires writes { self.old.buffer.can.writable ≡ true }
        ensures keeps { KeepsPlace self.old self.new }
        ensures joined { IsJoined (over_of self.new) }
        ensures outcome { ReturnOutcome self.old result self.new }
    {
        // What holds of every text is known from here on.
        let _ = &self.held;
        let _ = (self.buffer.buffer_size(), self.buffer.seekable());
        if self.buffer_place() == self.at {
            return Ok(());
        }
        match self.buffer.seek(self.at as i64, 0) {
            Ok(_) => {
                self.held.clear(self.at);
                Ok(())
            }
            Err(fault) => Err(fault),
        }
    }

    /// Writes bytes to the buffer at the place of a clean text, where the buffer stands; the text then stands, clean, behind those that were
    /// taken, whatever it answers.
    pub fn pass(&mut self, bytes: &[u8]) -> Result<usize, IoFault>
        requires live { self.old.buffer.life ≡ Life.Live }
        requires clean { IsClean self.old }
        requires stands { self.old.at ≡ self.old.buffer.place }
        ensures answers { AnswersAsBuffer self.old.buffer (Write bytes.now) (count_reply result) self.new.buffer }
        ensures takes { Takes (stream_shown self.old.buffer) bytes.now (stream_shown self.new.buffer) }
        ensures stands { StandsBehind self.old self.new }
        ensures joined { IsJoined (over_of self.new) }
    {
        let answer = self.buffer.write(bytes);
        self.at += self.buffer.taken();
        self.held.clear(self.at);
        answer
    }

    /// Sees to it that the buffer passes on what it owes.
    pub fn flush(&mut self) -> Result<(), IoFault>
        requires live { self.old.buffer.life ≡ Life.Live }
        ensures answers { AnswersAsBuffer self.old.buffer binary.Flush (done_reply result) self.new.buffer }
        ensures keeps { KeepsPlace self.old self.new }
        ensures text { Answers (state_of self.old false) Flush (done_reply result) (state_of self.new (says_wait (done_reply result))) }
    {
        // What holds of every text is known from here on.
        let _ = &self.held;
        self.buffer.flush()
    }

    /// Sees to it that the raw stands where what the buffer owes begins, so that a flush writes at once. The text stays as it is.
    pub fn prepare_flush(&mut self) -> Result<(), IoFault>
        requires live { self.old.buffer.life ≡ Life.Live }
        ensures outcome { PrepareOutcome self.old result self.new }
        ensures keeps { KeepsPlace self.old self.new }
        ensures joined { IsJoined (over_of self.new) }
    {
        // What holds of every text is known from here on.
        let _ = &self.held;
        self.buffer.prepare_flush()
    }

    /// Takes back the last n bytes that the buffer owes, of a clean text that stands where its buffer stands, and answers whether it did: the
    /// text then stands, clean, before them. Else all is as it was.
    pub fn take_back(&mut self, count: usize) -> bool
        requires clean { IsClean self.old }
        requires stands { self.old.at ≡ self.old.buffer.place }
        ensures takes { TakesBack self.old.buffer count result self.new.buffer }
        ensures stands { StandsBehind self.old self.new }
        ensures joined { IsJoined (over_of self.new) }
    {
        // What holds of every text is known from here on.
        let _ = &self.held;
        if !self.buffer.take_back(count) {
            return false;
        }
        self.at -= count as u64;
        self.held.clear(self.at);
        true
    }

    /// The buffer, in every life, and the byte of the text place.
    pub fn into_buffer(self) -> (B, u64)
        ensures buffer { B.shows result.0 ≡ self.buffer }
        ensures at { result.1 ≡ self.at }
    {
        let ReadText {
            buffer,
            held: _,
            coder: _,
            settings: _,
            inside: _,
            at,
            taken: _,
            dirty: _,
        } = self;
        (buffer, at)
    }

    /// How many bytes the buffer is asked for next: a chunk, but never more than `MOST_SIZE`, and no more than `FIRST_SIZE` where none were read
    /// since the text was put where it is. From the first byte of a stream on it is asked for whole chunks, since such a text is mostly read on.
    fn next_size(&self) -> usize
        ensures some { 0 < result }
        ensures few { result ≤ self.now.settings.chunk_size }
    {
        let chunk = self.settings.chunk_size.min(MOST_SIZE);
        if self.at > 0 && self.buffer_place() == self.at {
            return chunk.min(FIRST_SIZE);
        }
        chunk
    }

    /// Asks the buffer for a chunk, or for less, and puts what comes behind the bytes in hand. Space is taken before anything is read.
    fn fetch(&mut self, alloc: Global) -> Result<Chunk, IoFault>
        requires live { self.old.buffer.life ≡ Life.Live }
        requires reads { self.old.buffer.can.readable ≡ true }
        ensures keeps { KeepsPlace self.old self.new }
        ensures outcome { FetchOutcome self.old result self.new }
    {
        let size = self.next_size();
        self.held.reserve(size)?;
        match self.buffer.read1(alloc, Some(size)) {
            Ok(Some(part)) => {
                if part.is_empty() {
                    return Ok(Chunk::End);
                }
                self.held.push(&part);
                Ok(Chunk::More)
            }
            Ok(None) => Ok(Chunk::Waits),
            Err(fault) => Err(fault),
        }
    }

    /// Reads on until the known characters are enough, or all that come.
    fn gather(&mut self, alloc: Global, wanted: Wanted) -> Result<Gathered, IoFault>
        requires live { self.old.buffer.life ≡ Life.Live }
        requires reads { self.old.buffer.can.readable ≡ true }
        ensures keeps { KeepsPlace self.old self.new }
        ensures outcome { GatherOutcome self.old wanted result self.new }
        ensures nothing { asks_none wanted ≡ true → self.new.buffer ≡ self.old.buffer }
        ensures needs { GathersAsNeeded self.old wanted self.new }
        ensures brings { ReadsOn self.old.buffer self.new.buffer }
    {
        // What holds of every text is known from here on.
        let _ = &self.held;
        loop {
            if let Some(stop) = look(&mut self.held, alloc, wanted)? {
                return Ok(stop);
            }
            match self.fetch(alloc)? {
                Chunk::More => {}
                Chunk::End => return look_at_end(&mut self.held, alloc, wanted),
                Chunk::Waits => return Ok(Gathered::Waits),
            }
        }
    }

    /// Gives a front of the known characters, which are taken then.
    fn give(&mut self, alloc: Global, front: HeldFront, asks: bool) -> Result<String, IoFault>
        requires { IsFrontOf self.old.held.known front }
        ensures { GiveOutcome self.old front.chars asks result self.new }
    {
        let text = self.held.give(alloc, front)?;
        self.taken += front.chars as u128;
        self.dirty = dirtied(self.dirty, asks);
        Ok(text)
    }

    /// Gives all the known characters, which are the last, and stands clean at the end.
    fn give_all(&mut self, alloc: Global) -> Result<String, IoFault>
        requires empty { self.old.held.bytes ≡ [] }
        requires whole { self.old.held.cr ≡ false }
        requires end { WhereShown self.old.buffer (drop self.old.buffer.place (flat_of self.old.buffer).bytes ≡ []) }
        ensures { GiveAllOutcome self.old result self.new }
    {
        let text = self.held.give_rest(alloc)?;
        self.inside = None;
        self.at = self.held.place();
        self.taken = 0;
        self.dirty = false;
        Ok(text)
    }

    /// The answer where the bytes end.
    fn finish_at_end(&mut self, alloc: Global, wanted: Wanted) -> Result<Answer, IoFault>
        requires live { self.old.buffer.life ≡ Life.Live }
        requires reads { self.old.buffer.can.readable ≡ true }
        requires stands { GatheredAt self.old wanted Gathered.Ends }
        ensures finishes { Finishes self.old wanted result self.new }
        ensures waits { waited_in result ≡ false }
    {
        // What holds of every text is known from here on.
        let _ = &self.held;
        if asks_all(wanted) {
            let text = self.give_all(alloc)?;
            return Ok(Answer::Whole(text));
        }
        let front = self.held.find_last(wanted);
        let text = self.give(alloc, front, asks_any(wanted))?;
        Ok(Answer::Whole(text))
    }

    /// The answer where the raw would have blocked: all known characters, if there are any.
    fn finish_short(&mut self, alloc: Global, wanted: Wanted) -> Result<Answer, IoFault>
        requires live { self.old.buffer.life ≡ Life.Live }
        requires reads { self.old.buffer.can.readable ≡ true }
        requires stands { GatheredAt self.old wanted Gathered.Waits }
        ensures finishes { Finishes self.old wanted result self.new }
        ensures lacks { WaitsOrLacks Gathered.Waits result }
    {
        let front = self.held.find_last(Wanted::Characters(None));
        if front.chars == 0 {
            return Ok(Answer::NotReady);
        }
        let text = self.give(alloc, front, true)?;
        Ok(Answer::Short(text))
    }

    /// The answer of what was gathered.
    fn finish(
        &mut self,
        alloc: Global,
        wanted: Wanted,
        gathered: Gathered,
    ) -> Result<Answer, IoFault>
        requires live { self.old.buffer.life ≡ Life.Live }
        requires reads { self.old.buffer.can.readable ≡ true }
        requires stands { GatheredAt self.old wanted gathered }
        ensures finishes { Finishes self.old wanted result self.new }
        ensures waits { OnlyWhereWaits gathered (waited_in result) }
        ensures lacks { WaitsOrLacks gathered result }
    {
        // What holds of every text is known from here on.
        let _ = &self.held;
        match gathered {
            Gathered::Enough(front) => {
                let text = self.give(alloc, front, asks_any(wanted))?;
                Ok(Answer::Whole(text))
            }
            Gathered::Before(front) => {
                let text = self.give(alloc, front, asks_any(wanted))?;
                Ok(Answer::Whole(text))
            }
            Gathered::Refuses { start, end } => Err(IoFault::UnicodeDecodeError { start, end }),
            Gathered::Ends => self.finish_at_end(alloc, wanted),
            Gathered::Waits => self.finish_short(alloc, wanted),
        }
    }

    /// The characters that were asked for, as far as they come. Where the raw would have blocked, all that came are given.
    pub fn answer(&mut self, alloc: Global, wanted: Wanted) -> Result<Answer, IoFault>
        requires live { self.old.buffer.life ≡ Life.Live }
        requires reads { self.old.buffer.can.readable ≡ true }
        ensures { Answers (state_of self.old false) (call_of wanted) (reply_of result) (state_of self.new (waited_in result)) }
    {
        // What holds of every text is known from here on, and again below.
        let _ = self.life();
        let gathered = self.gather(alloc, wanted);
        let _ = &self.held;
        match gathered {
            Ok(gathered) => {
                let answer = self.finish(alloc, wanted, gathered);
                let _ = &self.held;
                answer
            }
            Err(fault) => Err(fault),
        }
    }
}

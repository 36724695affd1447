//! A buffered stream, which is its engine or, once its raw was handed back, what is left of it.
ghost use Rattle.std.specs.Prelude.{◌≡◌, ◌≢◌, ◌≤◌, ◌-◌, true, false, Some, None, IfOk, IfSome, length, vec_len, if◌then◌else◌};
ghost use Rattle.py_flat.specs.Lines.{joined};
ghost use Rattle.py_flat.specs.Calls.{FileCall, Read, Read1, ReadLine, ReadLines, Peek, ReadInto, ReadInto1, Write, WriteLines, Seek, Tell, Truncate, Flush, Close, Refused};
ghost use Rattle.py_stream.specs.Access.{can_of, is_able};
ghost use Rattle.py_stream.specs.Answers.{Answers, RefusesAlone};
ghost use Rattle.py_stream.specs.Stream.{size_of};
ghost use Rattle.py_stream.specs.Replies.{bytes_reply, into_reply, CountFits, KeepsBuffer, KeepsUnread, look_reply, lines_reply, count_reply, place_reply, done_reply};
ghost use Rattle.py_stream.specs.Taken.{taken_of};
ghost use Rattle.py_stream.specs.Buffer.{buffer_of, OwesAsItCan, TellsPlace, AnswersEnd, Prepares, TakesBack};
ghost use Rattle.py_stream.specs.Opening.{StandsAtStart, MayOpen, NewOutcome, opened_as};
ghost use Rattle.py_stream.specs.Handing.{DetachOutcome, PartsOutcome, LendsRaw};
ghost use Rattle.py_buffered_core.specs.Buffered.{seen_of, as_buffer, held_of, BeginsDetach};
ghost use Rattle.py_engine.specs.Engine.{stream_of};
ghost use Rattle.py_engine.specs.Ahead.{LendsAhead, PassesOver};

use py_engine::BufferedData;
use py_raw::{IoFault, Life, Lines, RawStream};
use py_stream::{
    Access, Detached, NewRefused, end, first_place, refuse, refused_at_first, refused_raw, seek,
    tell, truncate,
};
use std::alloc::Global;
use std::marker::Model;

/// The engine is gone once the raw was handed back. What is kept beside it says then still what the stream could do. `taken` is how
/// many bytes of the last write were taken.
#[derive(Debug, Drop)]
pub struct Buffered<R: RawStream> {
    data: Option<BufferedData<R>>,
    pub(crate) access: Access,
    seekable: bool,
    size: usize,
    pub(crate) taken: u64,
}

impl<R: RawStream> Model for Buffered<R> {
    ghost use Rattle.py_buffered_core.specs.Buffered.{BufferedView, IsBuffered};

    ghost Value = { BufferedView };

    ghost view = { λ b. record { engine = b.data; access = b.access; seekable = b.seekable; size = b.size; taken = b.taken } };

    ghost invariant = { λ b. IsBuffered b.data b.access b.seekable b.size };
}

impl<R: RawStream> Buffered<R> {
    /// A stream over a raw one, from where that stands, with a buffer of `size` bytes; one that appends begins at the end.
    pub fn new(alloc: Global, raw: R, size: usize, access: Access) -> Result<Self, NewRefused<R>>
        requires start { StandsAtStart (R.shows raw) }
        ensures outcome { NewOutcome R.shows (is_able access (Some size)) (can_of access) raw (Some size) (opened_as seen_of result) }
        ensures taken { IfOk result (λ stream. stream.taken ≡ 0) }
    {
        if let Some(fault) = refused_at_first(&raw, access.suits(Some(size), &raw), Some(size)) {
            return Err(NewRefused { raw, fault });
        }
        match vec![in alloc; 0u8; size] {
            Ok(buffer) => Buffered::over(raw, buffer, access),
            Err(_) => Err(NewRefused {
                raw,
                fault: IoFault::NoMemory,
            }),
        }
    }

    /// A stream with this buffer.
    fn over(raw: R, buffer: Vec<u8>, access: Access) -> Result<Self, NewRefused<R>>
        requires start { StandsAtStart (R.shows raw) }
        requires may { MayOpen (is_able access (Some (vec_len buffer))) (R.shows raw) (Some (vec_len buffer)) }
        ensures outcome { NewOutcome R.shows (is_able access (Some (vec_len buffer))) (can_of access) raw (Some (vec_len buffer)) (opened_as seen_of result) }
        ensures taken { IfOk result (λ stream. stream.taken ≡ 0) }
    {
        let mut raw = raw;
        let seekable = raw.seekable();
        let size = buffer.len();
        match first_place(&mut raw, access.appends()) {
            Ok(place) => Ok(Buffered {
                data: Some(BufferedData::new(raw, buffer, place, access)),
                access,
                seekable,
                size,
                taken: 0,
            }),
            Err(error) => Err(refused_raw(raw, error)),
        }
    }

    /// Reads n bytes, or all that are left.
    pub fn read(&mut self, alloc: Global, size: Option<usize>) -> Result<Option<Vec<u8>>, IoFault>
        requires reads { (seen_of self.old).can.readable ≡ true }
        ensures answers { Answers (seen_of self.old) (Read size) (bytes_reply result) (seen_of self.new) }
        ensures taken { self.new.taken ≡ self.old.taken }
    {
        match &mut self.data {
            Some(data) => data.read(alloc, size),
            None => Err(IoFault::Detached),
        }
    }

    /// Reads at most n bytes, or a buffer's size, by at most one transfer.
    pub fn read1(&mut self, alloc: Global, size: Option<usize>) -> Result<Option<Vec<u8>>, IoFault>
        requires reads { (seen_of self.old).can.readable ≡ true }
        ensures answers { Answers (seen_of self.old) (Read1 size) (bytes_reply result) (seen_of self.new) }
        ensures taken { self.new.taken ≡ self.old.taken }
    {
        match &mut self.data {
            Some(data) => data.read1(alloc, size),
            None => Err(IoFault::Detached),
        }
    }

    /// Sees to it that some of the bytes that come next are held; else the raw would have blocked.
    pub fn look(&mut self) -> Result<bool, IoFault>
        requires reads { (seen_of self.old).can.readable ≡ true }
        ensures answers { Answers (seen_of self.old) Peek (look_reply result (held_of self.new.engine)) (seen_of self.new) }
        ensures lends { IfOk result (λ shown. shown ≡ true → LendsAhead (seen_of self.new) (held_of self.new.engine)) }
        ensures taken { self.new.taken ≡ self.old.taken }
    {
        match &mut self.data {
            Some(data) => data.look(),
            None => Err(IoFault::Detached),
        }
    }

    /// The bytes that are held from the place on, lent.
    pub fn held(&self) -> &[u8]
        ensures bytes { result.now ≡ held_of self.now.engine }
        ensures lends { (seen_of self.now).can.readable ≡ true → (seen_of self.now).life ≡ Life.Live → LendsAhead (seen_of self.now) result.now }
    {
        match &self.data {
            Some(data) => data.ahead(),
            None => &[],
        }
    }

    /// The bytes that are held from the place on, lent; none of a stream that doesn't live.
    pub fn lent(&self) -> &[u8]
        requires reads { (seen_of self.now).can.readable ≡ true }
        ensures { LendsAhead (seen_of self.now) result.now }
    {
        match self.life() {
            Life::Live => self.held(),
            _ => &[],
        }
    }

    /// Moves the place past n of the bytes held, or past all where fewer are, and answers how many.
    pub fn consume(&mut self, amount: usize) -> Result<usize, IoFault>
        requires reads { (seen_of self.old).can.readable ≡ true }
        ensures passes { PassesOver (seen_of self.old) amount result (seen_of self.new) }
        ensures taken { self.new.taken ≡ self.old.taken }
    {
        match &mut self.data {
            Some(data) => data.consume(amount),
            None => Err(IoFault::Detached),
        }
    }

    /// Reads into a buffer until it is full.
    pub fn readinto(&mut self, buffer: &mut [u8]) -> Result<Option<usize>, IoFault>
        requires reads { (seen_of self.old).can.readable ≡ true }
        ensures answers { Answers (seen_of self.old) (ReadInto (length buffer.old)) (into_reply result buffer.new) (seen_of self.new) }
        ensures taken { self.new.taken ≡ self.old.taken }
        ensures length { length buffer.new ≡ length buffer.old }
        ensures fits { CountFits result buffer.new }
        ensures refused { KeepsBuffer result buffer.old buffer.new }
    {
        match &mut self.data {
            Some(data) => data.readinto(buffer),
            None => Err(IoFault::Detached),
        }
    }

    /// Reads at most as many bytes as a buffer is long, by at most one transfer.
    pub fn readinto1(&mut self, buffer: &mut [u8]) -> Result<Option<usize>, IoFault>
        requires reads { (seen_of self.old).can.readable ≡ true }
        ensures answers { Answers (seen_of self.old) (ReadInto1 (length buffer.old)) (into_reply result buffer.new) (seen_of self.new) }
        ensures taken { self.new.taken ≡ self.old.taken }
        ensures length { length buffer.new ≡ length buffer.old }
        ensures fits { CountFits result buffer.new }
        ensures unread { KeepsUnread result buffer.old buffer.new }
    {
        match &mut self.data {
            Some(data) => data.readinto1(buffer),
            None => Err(IoFault::Detached),
        }
    }

    /// Reads a line with its end, at most n bytes of it.
    pub fn readline(
        &mut self,
        alloc: Global,
        limit: Option<usize>,
    ) -> Result<Option<Vec<u8>>, IoFault>
        requires reads { (seen_of self.old).can.readable ≡ true }
        ensures answers { Answers (seen_of self.old) (ReadLine limit) (bytes_reply result) (seen_of self.new) }
        ensures taken { self.new.taken ≡ self.old.taken }
    {
        match &mut self.data {
            Some(data) => data.readline(alloc, limit),
            None => Err(IoFault::Detached),
        }
    }

    /// Reads lines until their total is above the hint, or all.
    pub fn readlines(
        &mut self,
        alloc: Global,
        hint: Option<usize>,
    ) -> Result<Option<Lines>, IoFault>
        requires reads { (seen_of self.old).can.readable ≡ true }
        ensures answers { Answers (seen_of self.old) (ReadLines hint) (lines_reply result) (seen_of self.new) }
        ensures taken { self.new.taken ≡ self.old.taken }
    {
        match &mut self.data {
            Some(data) => data.readlines(alloc, hint),
            None => Err(IoFault::Detached),
        }
    }

    /// Takes bytes, and passes on what the buffer has no room for.
    pub fn write(&mut self, bytes: &[u8]) -> Result<usize, IoFault>
        requires writes { (seen_of self.old).can.writable ≡ true }
        ensures answers { Answers (seen_of self.old) (Write bytes.now) (count_reply result) (seen_of self.new) }
        ensures taken { self.new.taken ≡ taken_of bytes.now (count_reply result) (seen_of self.old).place (seen_of self.new).place }
    {
        let _ = self.buffer_size(); // by its clause there is a buffer, so that a write takes all that it is given
        let start = self.place();
        let answer = self.put(bytes);
        self.count_from(start);
        answer
    }

    /// Takes lines, as one write of them joined.
    pub fn writelines(&mut self, lines: &Lines) -> Result<(), IoFault>
        requires writes { (seen_of self.old).can.writable ≡ true }
        ensures answers { Answers (seen_of self.old) (WriteLines lines.now) (done_reply result) (seen_of self.new) }
        ensures taken { self.new.taken ≡ taken_of (joined lines.now) (done_reply result) (seen_of self.old).place (seen_of self.new).place }
    {
        let _ = self.buffer_size(); // by its clause there is a buffer, so that a write takes all that it is given
        let start = self.place();
        let answer = self.put_lines(lines);
        self.count_from(start);
        answer
    }

    /// Takes bytes, and doesn't count them.
    fn put(&mut self, bytes: &[u8]) -> Result<usize, IoFault>
        requires writes { (seen_of self.old).can.writable ≡ true }
        ensures { Answers (seen_of self.old) (Write bytes.now) (count_reply result) (seen_of self.new) }
    {
        match &mut self.data {
            Some(data) => data.write(bytes),
            None => Err(IoFault::Detached),
        }
    }

    /// Takes lines, and doesn't count them.
    fn put_lines(&mut self, lines: &Lines) -> Result<(), IoFault>
        requires writes { (seen_of self.old).can.writable ≡ true }
        ensures { Answers (seen_of self.old) (WriteLines lines.now) (done_reply result) (seen_of self.new) }
    {
        match &mut self.data {
            Some(data) => data.writelines(lines),
            None => Err(IoFault::Detached),
        }
    }

    /// Counts the bytes that a write took, which began at a place.
    fn count_from(&mut self, start: u64)
        requires { start ≤ (seen_of self.old).place }
        ensures { self.new ≡ record self.old { taken = (seen_of self.old).place - start } }
    {
        self.taken = self.place() - start;
    }

    /// The stream's place, whether it can be moved or not; 0 once the raw was handed back. One that isn't written owes nothing there.
    pub(crate) fn place(&self) -> u64
        ensures place { result ≡ (seen_of self.now).place }
        ensures unwritten { OwesAsItCan (buffer_of (seen_of self.now) self.now.taken) }
    {
        match &self.data {
            Some(data) => data.place(),
            None => 0,
        }
    }

    /// How many bytes of the last write were taken: 0 before the first.
    pub fn taken(&self) -> u64
        ensures { result ≡ self.now.taken }
    {
        self.taken
    }

    /// Moves by an offset from the start (0), the place (1) or the end (2).
    pub fn seek(&mut self, offset: i64, whence: i32) -> Result<u64, IoFault>
        ensures answers { Answers (seen_of self.old) (Seek offset whence) (place_reply result) (seen_of self.new) }
        ensures taken { self.new.taken ≡ self.old.taken }
    {
        match &mut self.data {
            Some(data) => seek(data, offset, whence),
            None => Err(IoFault::Detached),
        }
    }

    /// The place, where the stream can be moved.
    pub fn tell(&mut self) -> Result<u64, IoFault>
        ensures answers { Answers (seen_of self.old) Tell (place_reply result) (seen_of self.new) }
        ensures tells { TellsPlace (as_buffer self.old) result (as_buffer self.new) }
        ensures taken { self.new.taken ≡ self.old.taken }
    {
        match &mut self.data {
            Some(data) => tell(data),
            None => Err(IoFault::Detached),
        }
    }

    /// Where the stream ends, with what it owes; the place is kept.
    pub fn end(&mut self) -> Result<u64, IoFault>
        ensures answers { AnswersEnd (as_buffer self.old) result (as_buffer self.new) }
        ensures can { (seen_of self.new).can ≡ (seen_of self.old).can }
        ensures taken { self.new.taken ≡ self.old.taken }
    {
        match &mut self.data {
            Some(data) => end(data),
            None => Err(IoFault::Detached),
        }
    }

    /// Cuts the bytes to a size, or lengthens them by zeros; without a size to the place, which is kept.
    pub fn truncate(&mut self, size: Option<u64>) -> Result<u64, IoFault>
        ensures answers { Answers (seen_of self.old) (Truncate size) (place_reply result) (seen_of self.new) }
        ensures taken { self.new.taken ≡ self.old.taken }
    {
        match &mut self.data {
            Some(data) => truncate(data, size),
            None => Err(IoFault::Detached),
        }
    }

    /// Refuses a call by the life, or as one that the stream lacks.
    pub fn refuse(&mut self) -> IoFault
        ensures answers { (call : FileCall) → RefusesAlone (seen_of self.old) call → Answers (seen_of self.old) call (Refused result) (seen_of self.new) }
        ensures same { seen_of self.new ≡ record (seen_of self.old) { short = false } }
        ensures taken { self.new.taken ≡ self.old.taken }
    {
        match &mut self.data {
            Some(data) => refuse(data),
            None => IoFault::Detached,
        }
    }

    /// Passes on all that is owed.
    pub fn flush(&mut self) -> Result<(), IoFault>
        ensures answers { Answers (seen_of self.old) Flush (done_reply result) (seen_of self.new) }
        ensures taken { self.new.taken ≡ self.old.taken }
    {
        match &mut self.data {
            Some(data) => data.flush(),
            None => Err(IoFault::Detached),
        }
    }

    /// Sees to it that the raw stands where a flush begins to write.
    pub fn prepare_flush(&mut self) -> Result<(), IoFault>
        ensures prepares { Prepares (as_buffer self.old) result (as_buffer self.new) }
        ensures can { (seen_of self.new).can ≡ (seen_of self.old).can }
        ensures taken { self.new.taken ≡ self.old.taken }
    {
        match &mut self.data {
            Some(data) => data.prepare_flush(),
            None => Err(IoFault::Detached),
        }
    }

    /// Takes back the last n bytes that are owed, and answers whether it did.
    pub fn take_back(&mut self, count: usize) -> bool
        ensures takes { TakesBack (as_buffer self.old) count result (as_buffer self.new) }
        ensures can { (seen_of self.new).can ≡ (seen_of self.old).can }
        ensures taken { self.new.taken ≡ self.old.taken }
    {
        match &mut self.data {
            Some(data) => data.take_back(count),
            None => false,
        }
    }

    /// Passes on all that is owed, and closes the raw.
    pub fn close(&mut self) -> Result<(), IoFault>
        ensures answers { Answers (seen_of self.old) Close (done_reply result) (seen_of self.new) }
        ensures taken { self.new.taken ≡ self.old.taken }
    {
        match &mut self.data {
            Some(data) => data.close(),
            None => Err(IoFault::Detached),
        }
    }

    /// Hands the raw back, of a live stream once all is passed on.
    pub fn detach(&mut self) -> Result<Detached<R>, IoFault>
        ensures outcome { DetachOutcome R.shows (seen_of self.old) result (seen_of self.new) }
        ensures taken { self.new.taken ≡ self.old.taken }
    {
        begin_detach(&mut self.data)?;
        match self.data.take() {
            Some(engine) => Ok(hand_over(engine, self.seekable)),
            None => Err(IoFault::Detached),
        }
    }

    /// Hands the raw back, with what it is owed, no more than its buffer holds, in every life.
    pub fn into_parts(self) -> Option<Detached<R>>
        ensures parts { PartsOutcome R.shows (seen_of self) result }
        ensures fits { IfSome result (λ parts. length parts.unwritten.items ≤ size_of (seen_of self)) }
    {
        let Buffered {
            data,
            access: _,
            seekable,
            size: _,
            taken: _,
        } = self;
        match data {
            Some(data) => Some(hand_over(data, seekable)),
            None => None,
        }
    }

    /// Whether it can be moved, but for one that appends: where its raw can. One that is read and written can, and doesn't append.
    pub fn seekable(&self) -> bool
        ensures says { result ≡ (seen_of self.now).can.seekable }
        ensures moves { (seen_of self.now).can.readable ≡ true → (seen_of self.now).can.writable ≡ true → ((seen_of self.now).can.seekable ≡ true) × ((seen_of self.now).can.appending ≡ false) }
    {
        self.seekable
    }

    /// What became of it.
    pub fn life(&self) -> Life
        ensures { result ≡ (seen_of self.now).life }
    {
        match &self.data {
            Some(data) => data.life(),
            None => Life::Detached,
        }
    }

    /// How many bytes its buffer holds.
    pub fn buffer_size(&self) -> usize
        ensures { (seen_of self.now).buffer ≡ Some result }
    {
        self.size
    }

    /// Whether a wait of the raw cut the last call short.
    pub fn short(&self) -> bool
        ensures { result ≡ (seen_of self.now).short }
    {
        match &self.data {
            Some(data) => data.short(),
            None => false,
        }
    }

    /// Forgets that a wait cut the last call short.
    pub fn forget_wait(&mut self)
        ensures whole { seen_of self.new ≡ record (seen_of self.old) { short = false } }
        ensures taken { self.new.taken ≡ self.old.taken }
    {
        if let Some(data) = &mut self.data {
            data.forget_wait();
        }
    }

    /// The raw, lent; `None` exactly where it was handed back.
    pub fn raw(&self) -> Option<&R>
        ensures { LendsRaw R.shows (seen_of self.now) result }
    {
        match &self.data {
            Some(data) => Some(data.raw()),
            None => None,
        }
    }
}

/// Whether the raw may be handed back: of a live stream once nothing is owed, and of a failed one.
fn begin_detach<R: RawStream>(engine: &mut Option<BufferedData<R>>) -> Result<(), IoFault>
    ensures { BeginsDetach engine.old result engine.new }
{
    match engine {
        Some(engine) => engine.begin_detach(),
        None => Err(IoFault::Detached),
    }
}

/// What an engine hands back.
fn hand_over<R: RawStream>(engine: BufferedData<R>, seekable: bool) -> Detached<R>
    ensures raw { R.shows result.raw ≡ engine.raw }
    ensures unwritten { result.unwritten.items ≡ (stream_of engine).owed.bytes }
    ensures fits { length result.unwritten.items ≤ engine.window.size }
    ensures place { result.place ≡ (if seekable then Some (stream_of engine).owed.place else None) }
    ensures attached { engine.life ≢ Life.Detached }
{
    let (raw, unwritten, place) = engine.into_parts();
    Detached {
        raw,
        unwritten,
        place: if seekable { Some(place) } else { None },
    }
}

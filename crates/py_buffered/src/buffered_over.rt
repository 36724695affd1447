//! A buffered stream of any kind: its calls that don't read, which reader, writer and the stream that is read and written have alike.
ghost use Rattle.std.specs.Prelude.{◌≡◌, Some, true, false};
ghost use Rattle.py_flat.specs.Lines.{joined};
ghost use Rattle.py_flat.specs.Calls.{Write, WriteLines, Seek, Tell, Truncate, Flush, Close};
ghost use Rattle.py_flat.specs.ExactStep.{is_closed};
ghost use Rattle.py_stream.specs.Answers.{Answers};
ghost use Rattle.py_stream.specs.Replies.{count_reply, place_reply, done_reply};
ghost use Rattle.py_stream.specs.Taken.{taken_of};
ghost use Rattle.py_stream.specs.Buffer.{buffer_of};
ghost use Rattle.py_stream.specs.Handing.{DetachOutcome, PartsOutcome, LendsRaw};

use crate::{BufferedKind, WritingKind};
use py_buffered_core::Buffered;
use py_raw::{IoFault, Life, Lines, RawStream};
use py_stream::{BufferedStream, Detached};
use std::alloc::Global;
use std::marker::{Model, PhantomData};

/// A buffered stream over a raw one, of a kind: `BufferedReader`, `BufferedWriter` and `BufferedRandom` are its three, and say what a
/// stream of theirs is. The calls that all of them have, or all that write, are here.
#[derive(Debug, Drop)]
pub struct BufferedOver<R: RawStream, K: BufferedKind> {
    pub(crate) inner: Buffered<R>,
    pub(crate) kind: PhantomData<K>,
}

// A function's proof knows the invariant where the function uses a field: so some begin with `let _ = &self.inner;`.
impl<R: RawStream, K: BufferedKind> Model for BufferedOver<R, K> {
    ghost use Rattle.std.specs.Prelude.{◌≡◌, false};
    ghost use Rattle.py_buffered_core.specs.Buffered.{seen_of};

    ghost Value = { K };

    ghost view = { λ b. K.seen (seen_of b.inner) b.inner.taken };

    ghost invariant = { λ b. ((seen_of b.inner).can.readable ≡ K.READS) × ((seen_of b.inner).can.writable ≡ K.WRITES) × (K.WRITES ≡ false → b.inner.taken ≡ 0) };
}

impl<R: RawStream, K: BufferedKind> BufferedOver<R, K> {
    /// Moves to `offset` bytes from the start (`whence` 0), the place (1) or the end (2), past the end too, and answers the new
    /// place. `Whence` has names for the three: `seek(0, Whence::End.into())`.
    ///
    /// What a writer owes is passed on before; nothing is owed then. A stream that is read and written calls no raw by 0 and 1 to a
    /// place among the bytes held, or right behind them, and what is owed is still owed; so it is by 2, once the raw was asked where
    /// it ends. Else what is owed is passed on before.
    ///
    /// `Unsupported` where the raw can't seek, and of a writer that appends; `BadWhence` for another `whence`, `NegativeSeek` and
    /// `TooFar` for a target below 0 or past 9223372036854775807: all is as it was. From the end, the raw is asked first where that is,
    /// and may fail. `WouldBlock { taken: 0 }` and `NoMemory` leave place and life, and what isn't passed on yet is still owed. It takes
    /// no memory: `NoMemory` comes only of a raw that takes some.
    pub fn seek(&mut self, offset: i64, whence: i32) -> Result<u64, IoFault>
        ensures answers { Answers (K.stream self.old) (Seek offset whence) (place_reply result) (K.stream self.new) }
        ensures taken { K.taken self.new ≡ K.taken self.old }
    {
        self.inner.seek(offset, whence)
    }

    /// The place. `Unsupported` where the raw can't seek; nothing else refuses it but the life. It calls no raw.
    pub fn tell(&mut self) -> Result<u64, IoFault>
        ensures answers { Answers (K.stream self.old) Tell (place_reply result) (K.stream self.new) }
        ensures taken { K.taken self.new ≡ K.taken self.old }
    {
        self.inner.tell()
    }

    /// Passes on all that is owed: then the raw has it, and stands at the place. A reader owes nothing: of one it does nothing, calls no
    /// raw, and only the life refuses it.
    ///
    /// `WouldBlock { taken: 0 }` and `NoMemory` leave what isn't passed on yet owed; call it again. `RawFault`: the stream is
    /// failed.
    pub fn flush(&mut self) -> Result<(), IoFault>
        ensures answers { Answers (K.stream self.old) Flush (done_reply result) (K.stream self.new) }
        ensures taken { K.taken self.new ≡ K.taken self.old }
    {
        self.inner.flush()
    }

    /// Passes on all that is owed, and closes the raw. A closed stream may be closed again, which calls no raw.
    ///
    /// `WouldBlock { taken: 0 }` and `NoMemory` leave the stream live, and what isn't passed on yet owed; call it again. After
    /// `RawFault` the stream is closed; where the raw failed to take what was owed, or to be moved to the place, it isn't asked to
    /// close, and `into_parts` hands back what is owed. It takes no memory: `NoMemory` comes only of a raw that takes some.
    pub fn close(&mut self) -> Result<(), IoFault>
        ensures answers { Answers (K.stream self.old) Close (done_reply result) (K.stream self.new) }
        ensures taken { K.taken self.new ≡ K.taken self.old }
    {
        self.inner.close()
    }

    /// Passes on all that is owed, and hands the raw back, with nothing unwritten, and the place (`None` where the raw can't
    /// seek). Of a failed stream it hands back at once what is owed, and the place of the first byte of that: the raw isn't
    /// called. The raw of a reader isn't called at all: it stands after what was last read from it, and after a fault anywhere.
    ///
    /// Refused as `flush` is; a closed stream can't be detached. It takes no memory.
    pub fn detach(&mut self) -> Result<Detached<R>, IoFault>
        ensures outcome { DetachOutcome R.shows (K.stream self.old) result (K.stream self.new) }
        ensures taken { K.taken self.new ≡ K.taken self.old }
    {
        self.inner.detach()
    }

    /// The raw, what is owed (nothing of a reader), and the place of the first byte of that, in every life; `None` exactly where the raw
    /// was handed back already. It calls no raw and takes no memory.
    pub fn into_parts(self) -> Option<Detached<R>>
        ensures { PartsOutcome R.shows (K.stream self) result }
    {
        self.inner.into_parts()
    }

    /// Whether it reads: a writer never, whatever its raw can; the others always.
    pub fn readable(&self) -> bool
        ensures { result ≡ (K.stream self.now).can.readable }
    {
        let _ = &self.inner;
        K::READS
    }

    /// Whether it writes: a reader never, whatever its raw can; the others always.
    pub fn writable(&self) -> bool
        ensures { result ≡ (K.stream self.now).can.writable }
    {
        let _ = &self.inner;
        K::WRITES
    }

    /// Whether it can be moved: where its raw can. A writer that appends isn't moved, whatever its raw can.
    pub fn seekable(&self) -> bool
        ensures { result ≡ (K.stream self.now).can.seekable }
    {
        self.inner.seekable()
    }

    /// Whether it was closed. A detached stream wasn't.
    pub fn closed(&self) -> bool
        ensures { result ≡ is_closed (K.stream self.now).life }
    {
        matches!(self.life(), Life::Closed)
    }

    /// What became of it: live at first, failed by a fault, closed, or detached.
    pub fn life(&self) -> Life
        ensures { result ≡ (K.stream self.now).life }
    {
        self.inner.life()
    }

    /// How many bytes its buffer holds.
    pub fn buffer_size(&self) -> usize
        ensures { (K.stream self.now).buffer ≡ Some result }
    {
        self.inner.buffer_size()
    }

    /// Whether a wait of the raw cut the last call short: of one that reads, its answer is what came by then, or `None`; any other was
    /// refused.
    pub fn short(&self) -> bool
        ensures { result ≡ (K.stream self.now).short }
    {
        self.inner.short()
    }

    /// Forgets that a wait cut the last call short. It is for those who answer a call by themselves, which then is the last one.
    pub fn forget_wait(&mut self)
        ensures { self.new ≡ K.seen (record (K.stream self.old) { short = false }) (K.taken self.old) }
    {
        self.inner.forget_wait();
    }

    /// The raw, lent; `None` exactly where it was handed back.
    pub fn raw(&self) -> Option<&R>
        ensures { LendsRaw R.shows (K.stream self.now) result }
    {
        self.inner.raw()
    }
}

impl<R: RawStream, K: WritingKind> BufferedOver<R, K> {
    /// Takes `bytes`, to be written at the place, and answers how many: all. What the buffer has no room for is passed on to the
    /// raw; once nothing is owed, more than the buffer holds go there straight. Of a stream that is read too they lie over those that are
    /// there, in the buffer where it has room at the place, also over bytes that were read ahead.
    ///
    /// `TooFar` where they would end past 9223372036854775807: all is as it was. `WouldBlock { taken }` where the raw would have
    /// blocked and the rest has no room: the first `taken` bytes were taken, and the buffer of a writer is full; go on after them.
    /// `RawFault`: the stream is failed, and owes none of `bytes`: those that went straight to the raw are told by the place.
    /// `NoMemory`, of a raw that takes some, takes nothing, unless the raw has some of `bytes` already: then the stream is failed, as by
    /// a fault.
    pub fn write(&mut self, bytes: &[u8]) -> Result<usize, IoFault>
        ensures answers { Answers (K.stream self.old) (Write bytes.now) (count_reply result) (K.stream self.new) }
        ensures taken { K.taken self.new ≡ taken_of bytes.now (count_reply result) (K.stream self.old).place (K.stream self.new).place }
    {
        self.inner.write(bytes)
    }

    /// Takes lines as they are, as one `write` of them joined; refused as that is, with `taken` counted over all of them; but after
    /// a fault a stream that is read too may owe some of its own lines.
    pub fn writelines(&mut self, lines: &Lines) -> Result<(), IoFault>
        ensures answers { Answers (K.stream self.old) (WriteLines lines.now) (done_reply result) (K.stream self.new) }
        ensures taken { K.taken self.new ≡ taken_of (joined lines.now) (done_reply result) (K.stream self.old).place (K.stream self.new).place }
    {
        self.inner.writelines(lines)
    }

    /// Cuts the bytes to a size, or lengthens them by zeros, and answers it; without a size to the place. The place is kept, and may lie
    /// past the end then. What is owed is passed on before; nothing is owed then.
    ///
    /// `Unsupported` where the raw can't seek, and of a writer that appends; `TooFar` for a size past 9223372036854775807: all is as
    /// it was. `WouldBlock { taken: 0 }` and `NoMemory` leave the stream live and its place as it was, and what isn't passed on yet is
    /// still owed. After `RawFault` the stream is failed: what isn't passed on yet is still owed, or, where all was, the raw's bytes may
    /// have the size, or not. It takes no memory: `NoMemory` comes only of a raw that takes some.
    pub fn truncate(&mut self, size: Option<u64>) -> Result<u64, IoFault>
        ensures answers { Answers (K.stream self.old) (Truncate size) (place_reply result) (K.stream self.new) }
        ensures taken { K.taken self.new ≡ K.taken self.old }
    {
        self.inner.truncate(size)
    }

    /// How many bytes of its argument the last `write` or `writelines` took, of `writelines` of the lines joined: all of them where it
    /// was done, as many as it said where it was `WouldBlock`, none where it was refused with all as it was. After a `RawFault` or
    /// `NoMemory` it is how many the raw answered for or the buffer kept, which nothing else tells of a raw that can't seek. 0
    /// before the first; other calls leave it.
    pub fn taken(&self) -> u64
        ensures { result ≡ K.taken self.now }
    {
        self.inner.taken()
    }
}

// As the layer above asks for it: no write of a reader takes anything.
impl<R: RawStream, K: BufferedKind> BufferedStream for BufferedOver<R, K> {
    ghost shows = { λ view. buffer_of (K.stream view) (K.taken view) };

    ghost own = { λ old call reply new. Answers (K.stream old) call reply (K.stream new) };

    fn read1(&mut self, alloc: Global, size: Option<usize>) -> Result<Option<Vec<u8>>, IoFault> {
        BufferedStream::read1(&mut self.inner, alloc, size)
    }

    fn write(&mut self, bytes: &[u8]) -> Result<usize, IoFault> {
        BufferedStream::write(&mut self.inner, bytes)
    }

    fn seek(&mut self, offset: i64, whence: i32) -> Result<u64, IoFault> {
        BufferedStream::seek(&mut self.inner, offset, whence)
    }

    fn tell(&mut self) -> Result<u64, IoFault> {
        BufferedStream::tell(&mut self.inner)
    }

    fn end(&mut self) -> Result<u64, IoFault> {
        BufferedStream::end(&mut self.inner)
    }

    fn flush(&mut self) -> Result<(), IoFault> {
        BufferedStream::flush(&mut self.inner)
    }

    fn prepare_flush(&mut self) -> Result<(), IoFault> {
        BufferedStream::prepare_flush(&mut self.inner)
    }

    fn take_back(&mut self, count: usize) -> bool {
        BufferedStream::take_back(&mut self.inner, count)
    }

    fn close(&mut self) -> Result<(), IoFault> {
        BufferedStream::close(&mut self.inner)
    }

    fn readable(&self) -> bool {
        BufferedStream::readable(&self.inner)
    }

    fn writable(&self) -> bool {
        BufferedStream::writable(&self.inner)
    }

    fn seekable(&self) -> bool {
        BufferedStream::seekable(&self.inner)
    }

    fn appending(&self) -> bool {
        BufferedStream::appending(&self.inner)
    }

    fn closed(&self) -> bool {
        BufferedStream::closed(&self.inner)
    }

    fn short(&self) -> bool {
        BufferedStream::short(&self.inner)
    }

    fn exported(&self) -> bool {
        BufferedStream::exported(&self.inner)
    }

    fn life(&self) -> Life {
        BufferedStream::life(&self.inner)
    }

    fn buffer_size(&self) -> usize {
        BufferedStream::buffer_size(&self.inner)
    }

    fn taken(&self) -> u64 {
        BufferedStream::taken(&self.inner)
    }
}

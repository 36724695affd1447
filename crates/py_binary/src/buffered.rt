//! The buffered streams that a binary session may call, as one.
ghost use Rattle.std.specs.Prelude.{◌≡◌, Some, false, length};
ghost use Rattle.py_flat.specs.Calls.{FileCall, Read, Read1, ReadLine, ReadLines, ReadInto, ReadInto1, Peek, Write, WriteLines, Seek, Tell, Truncate, Flush, Close, Refused};
ghost use Rattle.py_stream.specs.Access.{can_of, is_able};
ghost use Rattle.py_stream.specs.Answers.{Answers, AnswersWith, RefusesAlone};
ghost use Rattle.py_stream.specs.Handing.{DetachOutcome, PartsOutcome};
ghost use Rattle.py_stream.specs.Opening.{StandsAtStart, NewOutcome, opened_as};
ghost use Rattle.py_stream.specs.Replies.{bytes_reply, into_reply, CountFits, lines_reply, count_reply, place_reply, done_reply};
ghost use Rattle.py_calls.specs.Calls.{said};
ghost use Rattle.py_binary.specs.Binary.{has_reply_room};
ghost use Rattle.py_binary.specs.Kinds.{buffered_as};

use crate::replies::copy_reply;
use py_buffered::{BufferedRandom, BufferedReader, BufferedWriter};
use py_calls::Reply;
use py_raw::{IoFault, Life, Lines, RawStream};
use py_stream::{Access, Detached, NewRefused};
use std::alloc::Global;

/// A buffered stream, by what it was opened for. A call that one of them lacks it refuses.
#[derive(Debug, Drop)]
pub(crate) enum Buffered<R: RawStream> {
    /// One that is read.
    Reader(BufferedReader<R>),
    /// One that is written, or appended to.
    Writer(BufferedWriter<R>),
    /// One that is read and written.
    Random(BufferedRandom<R>),
}

impl<R: RawStream> Buffered<R> {
    /// A stream over a raw one, with a buffer of `size` bytes.
    pub fn new(alloc: Global, raw: R, access: Access, size: usize) -> Result<Self, NewRefused<R>>
        requires start { StandsAtStart (R.shows raw) }
        ensures { NewOutcome R.shows (is_able access (Some size)) (can_of access) raw (Some size) (opened_as buffered_as result) }
    {
        match access {
            Access::Read => match BufferedReader::new(alloc, raw, size) {
                Ok(reader) => Ok(Buffered::Reader(reader)),
                Err(refused) => Err(refused),
            },
            Access::Write => match BufferedWriter::new(alloc, raw, size) {
                Ok(writer) => Ok(Buffered::Writer(writer)),
                Err(refused) => Err(refused),
            },
            Access::Append => match BufferedWriter::append(alloc, raw, size) {
                Ok(writer) => Ok(Buffered::Writer(writer)),
                Err(refused) => Err(refused),
            },
            Access::Update => match BufferedRandom::new(alloc, raw, size) {
                Ok(random) => Ok(Buffered::Random(random)),
                Err(refused) => Err(refused),
            },
        }
    }

    /// Reads n bytes, or all that are left.
    pub fn read(&mut self, alloc: Global, size: Option<usize>) -> Result<Option<Vec<u8>>, IoFault>
        ensures { Answers (buffered_as self.old) (Read size) (bytes_reply result) (buffered_as self.new) }
    {
        match self {
            Buffered::Reader(reader) => reader.read(alloc, size),
            Buffered::Writer(writer) => Err(writer.refuse()),
            Buffered::Random(random) => random.read(alloc, size),
        }
    }

    /// Reads at most n bytes, or a buffer's size, by at most one transfer.
    pub fn read1(&mut self, alloc: Global, size: Option<usize>) -> Result<Option<Vec<u8>>, IoFault>
        ensures { Answers (buffered_as self.old) (Read1 size) (bytes_reply result) (buffered_as self.new) }
    {
        match self {
            Buffered::Reader(reader) => reader.read1(alloc, size),
            Buffered::Writer(writer) => Err(writer.refuse()),
            Buffered::Random(random) => random.read1(alloc, size),
        }
    }

    /// Reads a line with its end, at most n bytes of it.
    pub fn readline(
        &mut self,
        alloc: Global,
        limit: Option<usize>,
    ) -> Result<Option<Vec<u8>>, IoFault>
        ensures { Answers (buffered_as self.old) (ReadLine limit) (bytes_reply result) (buffered_as self.new) }
    {
        match self {
            Buffered::Reader(reader) => reader.readline(alloc, limit),
            Buffered::Writer(writer) => Err(writer.refuse()),
            Buffered::Random(random) => random.readline(alloc, limit),
        }
    }

    /// Reads lines until their total is above the hint, or all.
    pub fn readlines(
        &mut self,
        alloc: Global,
        hint: Option<usize>,
    ) -> Result<Option<Lines>, IoFault>
        ensures { Answers (buffered_as self.old) (ReadLines hint) (lines_reply result) (buffered_as self.new) }
    {
        match self {
            Buffered::Reader(reader) => reader.readlines(alloc, hint),
            Buffered::Writer(writer) => Err(writer.refuse()),
            Buffered::Random(random) => random.readlines(alloc, hint),
        }
    }

    /// A copy of some of the bytes that come next.
    pub fn peek(&mut self, alloc: Global) -> Reply
        ensures { AnswersWith has_reply_room (buffered_as self.old) Peek (said result) (buffered_as self.new) }
    {
        match self {
            Buffered::Reader(reader) => copy_reply(alloc, reader.peek()),
            Buffered::Writer(writer) => Reply::Refused(writer.refuse()),
            Buffered::Random(random) => copy_reply(alloc, random.peek()),
        }
    }

    /// Reads into a buffer until it is full.
    pub fn readinto(&mut self, buffer: &mut [u8]) -> Result<Option<usize>, IoFault>
        ensures answers { Answers (buffered_as self.old) (ReadInto (length buffer.old)) (into_reply result buffer.new) (buffered_as self.new) }
        ensures length { length buffer.new ≡ length buffer.old }
        ensures fits { CountFits result buffer.new }
    {
        match self {
            Buffered::Reader(reader) => reader.readinto(buffer),
            Buffered::Writer(writer) => Err(writer.refuse()),
            Buffered::Random(random) => random.readinto(buffer),
        }
    }

    /// Reads at most as many bytes as a buffer is long, by at most one transfer.
    pub fn readinto1(&mut self, buffer: &mut [u8]) -> Result<Option<usize>, IoFault>
        ensures answers { Answers (buffered_as self.old) (ReadInto1 (length buffer.old)) (into_reply result buffer.new) (buffered_as self.new) }
        ensures length { length buffer.new ≡ length buffer.old }
        ensures fits { CountFits result buffer.new }
    {
        match self {
            Buffered::Reader(reader) => reader.readinto1(buffer),
            Buffered::Writer(writer) => Err(writer.refuse()),
            Buffered::Random(random) => random.readinto1(buffer),
        }
    }

    /// Takes bytes, to be written at the place.
    pub fn write(&mut self, bytes: &[u8]) -> Result<usize, IoFault>
        ensures { Answers (buffered_as self.old) (Write bytes.now) (count_reply result) (buffered_as self.new) }
    {
        match self {
            Buffered::Reader(reader) => Err(reader.refuse()),
            Buffered::Writer(writer) => writer.write(bytes),
            Buffered::Random(random) => random.write(bytes),
        }
    }

    /// Takes lines, as one write of them joined.
    pub fn writelines(&mut self, lines: &Lines) -> Result<(), IoFault>
        ensures { Answers (buffered_as self.old) (WriteLines lines.now) (done_reply result) (buffered_as self.new) }
    {
        match self {
            Buffered::Reader(reader) => Err(reader.refuse()),
            Buffered::Writer(writer) => writer.writelines(lines),
            Buffered::Random(random) => random.writelines(lines),
        }
    }

    /// Moves by an offset from the start (0), the place (1) or the end (2).
    pub fn seek(&mut self, offset: i64, whence: i32) -> Result<u64, IoFault>
        ensures { Answers (buffered_as self.old) (Seek offset whence) (place_reply result) (buffered_as self.new) }
    {
        match self {
            Buffered::Reader(reader) => reader.seek(offset, whence),
            Buffered::Writer(writer) => writer.seek(offset, whence),
            Buffered::Random(random) => random.seek(offset, whence),
        }
    }

    /// The place, where the stream can be moved.
    pub fn tell(&mut self) -> Result<u64, IoFault>
        ensures { Answers (buffered_as self.old) Tell (place_reply result) (buffered_as self.new) }
    {
        match self {
            Buffered::Reader(reader) => reader.tell(),
            Buffered::Writer(writer) => writer.tell(),
            Buffered::Random(random) => random.tell(),
        }
    }

    /// Cuts the bytes to a size, or lengthens them by zeros; without a size to the place, which is kept.
    pub fn truncate(&mut self, size: Option<u64>) -> Result<u64, IoFault>
        ensures { Answers (buffered_as self.old) (Truncate size) (place_reply result) (buffered_as self.new) }
    {
        match self {
            Buffered::Reader(reader) => Err(reader.refuse()),
            Buffered::Writer(writer) => writer.truncate(size),
            Buffered::Random(random) => random.truncate(size),
        }
    }

    /// Passes on all that is owed.
    pub fn flush(&mut self) -> Result<(), IoFault>
        ensures { Answers (buffered_as self.old) Flush (done_reply result) (buffered_as self.new) }
    {
        match self {
            Buffered::Reader(reader) => reader.flush(),
            Buffered::Writer(writer) => writer.flush(),
            Buffered::Random(random) => random.flush(),
        }
    }

    /// Passes on all that is owed, and closes the raw.
    pub fn close(&mut self) -> Result<(), IoFault>
        ensures { Answers (buffered_as self.old) Close (done_reply result) (buffered_as self.new) }
    {
        match self {
            Buffered::Reader(reader) => reader.close(),
            Buffered::Writer(writer) => writer.close(),
            Buffered::Random(random) => random.close(),
        }
    }

    /// Hands the raw back, of a live stream once all is passed on.
    pub fn detach(&mut self) -> Result<Detached<R>, IoFault>
        ensures { DetachOutcome R.shows (buffered_as self.old) result (buffered_as self.new) }
    {
        match self {
            Buffered::Reader(reader) => reader.detach(),
            Buffered::Writer(writer) => writer.detach(),
            Buffered::Random(random) => random.detach(),
        }
    }

    /// Hands the raw back, with what it is owed, in every life.
    pub fn into_parts(self) -> Option<Detached<R>>
        ensures { PartsOutcome R.shows (buffered_as self) result }
    {
        match self {
            Buffered::Reader(reader) => reader.into_parts(),
            Buffered::Writer(writer) => writer.into_parts(),
            Buffered::Random(random) => random.into_parts(),
        }
    }

    /// Refuses a call by the life, or as one that the stream lacks.
    pub fn refuse(&mut self) -> IoFault
        ensures { (call : FileCall) → RefusesAlone (buffered_as self.old) call → Answers (buffered_as self.old) call (Refused result) (buffered_as self.new) }
    {
        match self {
            Buffered::Reader(reader) => reader.refuse(),
            Buffered::Writer(writer) => writer.refuse(),
            Buffered::Random(random) => random.refuse(),
        }
    }

    /// Whether it reads.
    pub fn readable(&self) -> bool
        ensures { result ≡ (buffered_as self.now).can.readable }
    {
        match self {
            Buffered::Reader(reader) => reader.readable(),
            Buffered::Writer(writer) => writer.readable(),
            Buffered::Random(random) => random.readable(),
        }
    }

    /// Whether it writes.
    pub fn writable(&self) -> bool
        ensures { result ≡ (buffered_as self.now).can.writable }
    {
        match self {
            Buffered::Reader(reader) => reader.writable(),
            Buffered::Writer(writer) => writer.writable(),
            Buffered::Random(random) => random.writable(),
        }
    }

    /// Whether its raw can be moved.
    pub fn seekable(&self) -> bool
        ensures { result ≡ (buffered_as self.now).can.seekable }
    {
        match self {
            Buffered::Reader(reader) => reader.seekable(),
            Buffered::Writer(writer) => writer.seekable(),
            Buffered::Random(random) => random.seekable(),
        }
    }

    /// What became of it.
    pub fn life(&self) -> Life
        ensures { result ≡ (buffered_as self.now).life }
    {
        match self {
            Buffered::Reader(reader) => reader.life(),
            Buffered::Writer(writer) => writer.life(),
            Buffered::Random(random) => random.life(),
        }
    }

    /// Whether a wait of the raw cut the last call short.
    pub fn short(&self) -> bool
        ensures { result ≡ (buffered_as self.now).short }
    {
        match self {
            Buffered::Reader(reader) => reader.short(),
            Buffered::Writer(writer) => writer.short(),
            Buffered::Random(random) => random.short(),
        }
    }

    /// Forgets that a wait cut the last call short.
    pub fn forget_wait(&mut self)
        ensures { buffered_as self.new ≡ record (buffered_as self.old) { short = false } }
    {
        match self {
            Buffered::Reader(reader) => reader.forget_wait(),
            Buffered::Writer(writer) => writer.forget_wait(),
            Buffered::Random(random) => random.forget_wait(),
        }
    }
}

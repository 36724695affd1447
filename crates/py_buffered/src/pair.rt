//! The pair: a reader and a writer, each over a raw stream of its own.
ghost use Rattle.std.specs.Prelude.{◌≡◌, true, length};
ghost use types.Logic.{sem};
ghost use Rattle.std.specs.Io.BufRead.{Rests};
ghost use Rattle.py_flat.specs.declared.life.Life.TheVariants.{Live};
ghost use Rattle.py_flat.specs.Lines.{joined};
ghost use Rattle.py_flat.specs.Calls.{Read, Read1, ReadLine, ReadLines, Peek, ReadInto, ReadInto1, Write, WriteLines, Flush};
ghost use Rattle.py_flat.specs.ExactStep.{is_closed};
ghost use Rattle.py_stream.specs.Answers.{Answers};
ghost use Rattle.py_stream.specs.Opening.{StandsAtStart};
ghost use Rattle.py_stream.specs.Replies.{bytes_reply, into_reply, CountFits, KeepsBuffer, KeepsUnread, lent_reply, lines_reply, count_reply, done_reply};
ghost use Rattle.py_stream.specs.Taken.{taken_of};
ghost use Rattle.py_buffered.specs.Pair.{PairOutcome, had_to_wait, ClosesBoth, HandsBoth};

use crate::{BufferedReader, BufferedWriter};
use py_raw::{IoFault, Lines, RawStream};
use py_stream::{Detached, NewRefused};
use std::alloc::Global;
use std::marker::Model;

/// A reader and a writer, each over a raw stream of its own, as Python's `io.BufferedRWPair`: what is read comes from the one, what is
/// written goes to the other, and neither touches the other's bytes, place or life. It can't be moved; `reader` and `writer` lend the two.
#[derive(Debug, Drop)]
pub struct BufferedRWPair<R: RawStream, W: RawStream> {
    reader: BufferedReader<R>,
    writer: BufferedWriter<W>,
}

impl<R: RawStream, W: RawStream> Model for BufferedRWPair<R, W> {
    ghost use Rattle.py_buffered.specs.Pair.{PairView};

    ghost Value = { PairView };

    ghost view = { λ p. record { reader = p.reader; writer = p.writer } };
}

/// The raw of a live reader.
fn raw_of<R: RawStream>(reader: BufferedReader<R>) -> R
    requires live { reader.life ≡ Live }
    ensures { R.shows result ≡ reader.raw }
{
    match reader.into_parts() {
        Some(parts) => parts.raw,
        None => unreachable!(),
    }
}

/// Whether a close would have blocked.
fn had_to_wait(closed: &Result<(), IoFault>) -> bool
    ensures { result ≡ had_to_wait closed.now }
{
    matches!(closed, Err(IoFault::WouldBlock { .. }))
}

impl<R: RawStream, W: RawStream> BufferedRWPair<R, W> {
    ghost use Rattle.py_buffered.specs.contracts.pair.BufferedRWPair.{the_row};

    /// A reader of the one raw stream and a writer to the other, each from where that stands, with a buffer of `buffer_size` bytes.
    ///
    /// Refused, both raws are handed back: where `BufferedReader::new` refuses the one, which is tried first, the other is as it was; where
    /// `BufferedWriter::new` refuses the other, nothing was read from the one.
    pub fn new(
        alloc: Global,
        reader: R,
        writer: W,
        buffer_size: usize,
    ) -> Result<Self, NewRefused<(R, W)>>
        requires reads_from_start { StandsAtStart (R.shows reader) }
        requires writes_from_start { StandsAtStart (W.shows writer) }
        ensures { PairOutcome R.shows W.shows reader writer buffer_size result }
    {
        let reader = match BufferedReader::new(alloc, reader, buffer_size) {
            Ok(reader) => reader,
            Err(refused) => {
                let NewRefused { raw, fault } = refused;
                return Err(NewRefused {
                    raw: (raw, writer),
                    fault,
                });
            }
        };
        match BufferedWriter::new(alloc, writer, buffer_size) {
            Ok(writer) => Ok(BufferedRWPair { reader, writer }),
            Err(refused) => {
                let NewRefused { raw, fault } = refused;
                Err(NewRefused {
                    raw: (raw_of(reader), raw),
                    fault,
                })
            }
        }
    }

    /// `read` of the reader.
    pub fn read(&mut self, alloc: Global, size: Option<usize>) -> Result<Option<Vec<u8>>, IoFault>
        ensures reads { Answers self.old.reader (Read size) (bytes_reply result) self.new.reader }
        ensures writer { self.new.writer ≡ self.old.writer }
    {
        self.reader.read(alloc, size)
    }

    /// `read1` of the reader.
    pub fn read1(&mut self, alloc: Global, size: Option<usize>) -> Result<Option<Vec<u8>>, IoFault>
        ensures reads { Answers self.old.reader (Read1 size) (bytes_reply result) self.new.reader }
        ensures writer { self.new.writer ≡ self.old.writer }
    {
        self.reader.read1(alloc, size)
    }

    /// `peek` of the reader.
    pub fn peek(&mut self) -> Result<Option<&[u8]>, IoFault>
        ensures* { sem 𝓛 (Rests (the_row R.row W.row R.RawStream W.RawStream) self.entry (λ new. Answers self.old.reader Peek (lent_reply result) new.reader × (new.writer ≡ self.old.writer))) }
    {
        self.reader.peek()
    }

    /// `readinto` of the reader.
    pub fn readinto(&mut self, buffer: &mut [u8]) -> Result<Option<usize>, IoFault>
        ensures reads { Answers self.old.reader (ReadInto (length buffer.old)) (into_reply result buffer.new) self.new.reader }
        ensures length { length buffer.new ≡ length buffer.old }
        ensures fits { CountFits result buffer.new }
        ensures refused { KeepsBuffer result buffer.old buffer.new }
        ensures writer { self.new.writer ≡ self.old.writer }
    {
        self.reader.readinto(buffer)
    }

    /// `readinto1` of the reader.
    pub fn readinto1(&mut self, buffer: &mut [u8]) -> Result<Option<usize>, IoFault>
        ensures reads { Answers self.old.reader (ReadInto1 (length buffer.old)) (into_reply result buffer.new) self.new.reader }
        ensures length { length buffer.new ≡ length buffer.old }
        ensures fits { CountFits result buffer.new }
        ensures unread { KeepsUnread result buffer.old buffer.new }
        ensures writer { self.new.writer ≡ self.old.writer }
    {
        self.reader.readinto1(buffer)
    }

    /// `readline` of the reader.
    pub fn readline(
        &mut self,
        alloc: Global,
        limit: Option<usize>,
    ) -> Result<Option<Vec<u8>>, IoFault>
        ensures reads { Answers self.old.reader (ReadLine limit) (bytes_reply result) self.new.reader }
        ensures writer { self.new.writer ≡ self.old.writer }
    {
        self.reader.readline(alloc, limit)
    }

    /// `readlines` of the reader.
    pub fn readlines(
        &mut self,
        alloc: Global,
        hint: Option<usize>,
    ) -> Result<Option<Lines>, IoFault>
        ensures reads { Answers self.old.reader (ReadLines hint) (lines_reply result) self.new.reader }
        ensures writer { self.new.writer ≡ self.old.writer }
    {
        self.reader.readlines(alloc, hint)
    }

    /// `write` of the writer.
    pub fn write(&mut self, bytes: &[u8]) -> Result<usize, IoFault>
        ensures writes { Answers self.old.writer.stream (Write bytes.now) (count_reply result) self.new.writer.stream }
        ensures taken { self.new.writer.taken ≡ taken_of bytes.now (count_reply result) self.old.writer.stream.place self.new.writer.stream.place }
        ensures reader { self.new.reader ≡ self.old.reader }
    {
        self.writer.write(bytes)
    }

    /// `writelines` of the writer.
    pub fn writelines(&mut self, lines: &Lines) -> Result<(), IoFault>
        ensures writes { Answers self.old.writer.stream (WriteLines lines.now) (done_reply result) self.new.writer.stream }
        ensures taken { self.new.writer.taken ≡ taken_of (joined lines.now) (done_reply result) self.old.writer.stream.place self.new.writer.stream.place }
        ensures reader { self.new.reader ≡ self.old.reader }
    {
        self.writer.writelines(lines)
    }

    /// `flush` of the writer.
    pub fn flush(&mut self) -> Result<(), IoFault>
        ensures writes { Answers self.old.writer.stream Flush (done_reply result) self.new.writer.stream }
        ensures taken { self.new.writer.taken ≡ self.old.writer.taken }
        ensures reader { self.new.reader ≡ self.old.reader }
    {
        self.writer.flush()
    }

    /// Closes the writer and then the reader, and answers the first fault. Where the writer would have blocked (`WouldBlock`) the reader
    /// stays open: close the pair again. A closed pair may be closed again, which calls no raw.
    pub fn close(&mut self) -> Result<(), IoFault>
        ensures { ClosesBoth self.old result self.new }
    {
        let first = self.writer.close();
        if had_to_wait(&first) {
            return first;
        }
        let second = self.reader.close();
        first.and(second)
    }

    /// Both raws, each with what its stream owes it and the place of that, in every life; `None` of one that was handed back already. It
    /// calls no raw and takes no memory.
    pub fn into_parts(self) -> (Option<Detached<R>>, Option<Detached<W>>)
        ensures { HandsBoth R.shows W.shows self result.0 result.1 }
    {
        let BufferedRWPair { reader, writer } = self;
        (reader.into_parts(), writer.into_parts())
    }

    /// Whether it reads: always.
    pub fn readable(&self) -> bool
        ensures { result ≡ true }
    {
        true
    }

    /// Whether it writes: always.
    pub fn writable(&self) -> bool
        ensures { result ≡ true }
    {
        true
    }

    /// Whether its writer was closed.
    pub fn closed(&self) -> bool
        ensures { result ≡ is_closed self.now.writer.stream.life }
    {
        self.writer.closed()
    }

    /// The reader, lent.
    pub fn reader(&self) -> &BufferedReader<R>
        ensures { result.now ≡ self.now.reader }
    {
        &self.reader
    }

    /// The writer, lent.
    pub fn writer(&self) -> &BufferedWriter<W>
        ensures { result.now ≡ self.now.writer }
    {
        &self.writer
    }
}

//! A stream as a reader, a writer and a seeker of std's.
ghost use Rattle.std.specs.Prelude.{◌≡◌};

use crate::answers::{
    io_ended, io_moved, io_past_all, io_refused, io_refused_write, io_result, io_would_block,
};
use crate::{LendHeld, ReadOnce};
use py_flat::IoFault;
use py_stream::BufferedStream;
use std::io;
use std::io::{BufRead, Read, Seek, SeekFrom, Write};
use std::marker::Model;

/// A stream as std's traits have it. Its calls are the stream's own: nothing is kept beside it, so that a stream that is taken out again
/// goes on where it stands.
///
/// It reads, and lends what is held, where the stream is a `BufferedReader`, a `BufferedRandom` or a `BytesIO`, and writes and seeks where
/// it is any `BufferedStream`; what a stream can't do is refused as `Unsupported`. Where the raw would have blocked, the error is of the
/// kind `WouldBlock`; a fault is one of its kind, with the fault's text; no error is of the kind `Interrupted`, so that std's loops end.
///
/// Contracts see the stream itself.
#[derive(Debug, Drop)]
pub struct StdStream<S> {
    stream: S,
}

impl<S> Model for StdStream<S> {
    ghost Value = { S };

    ghost view = { λ adapter. adapter.stream };
}

impl<S> StdStream<S> {
    /// A stream, from where it stands.
    pub fn new(stream: S) -> Self
        ensures { result ≡ stream }
    {
        StdStream { stream }
    }

    /// The stream, lent.
    pub fn stream(&self) -> &S
        ensures { result.now ≡ self.now }
    {
        &self.stream
    }

    /// The stream, where it stands. What a stream owes its raw it owes still: close, flush or detach it.
    pub fn into_inner(self) -> S
        ensures { result ≡ self }
    {
        self.stream
    }
}

/// As the stream's `readinto1`: some of the next bytes, by at most one reading of the raw. A `BufferedRandom` that owes bytes and holds
/// nothing ahead passes on first all that it owes.
impl<S: ReadOnce> Read for StdStream<S> {
    ghost use Rattle.std.specs.Prelude.{length, OnOk, IfErr};
    ghost use Rattle.std.specs.Io.{ReadsAtMost};
    ghost use Rattle.std.specs.Io.KnownBytes.{Consumes, ReadConsumes};
    ghost use Rattle.py_stream.specs.Replies.{into_reply};
    ghost use Rattle.py_adapters.specs.Known.{GivesFront};
    ghost use Rattle.py_adapters.specs.Answers.{AnsweredBy, SaysRead, LeavesBehind, FillsInTurn, IsntInterrupted};

    ghost remaining = { λ stream. S.left stream };

    /// Reads some of the next bytes into the front of `buf`, and answers how many: 0 only where `buf` is empty or nothing is left. What
    /// `buf` has after them stays.
    ///
    /// `WouldBlock`: the raw would have blocked before any byte. Every other error is that of a refusal of `readinto1`. They leave `buf`
    /// and what is left as they were.
    #[inline(always)]
    fn read(&mut self, buf: &mut [u8]) -> io::Result<usize>
        ensures bound { ReadsAtMost result buf.new }
        ensures bytes { ReadConsumes (S.left self.old) (S.left self.new) result buf.new }
        ensures answers { AnsweredBy (λ came. S.answers self.old (length buf.old) (into_reply came buf.new) self.new) (λ came. SaysRead came result) }
        ensures behind { LeavesBehind result buf.old buf.new }
        ensures retried { IsntInterrupted result }
    {
        match self.stream.read_once(buf) {
            Ok(Some(count)) => Ok(count),
            Ok(None) => Err(io_would_block()),
            Err(fault) => Err(io_refused(fault)),
        }
    }

    /// Fills `buf` with the next bytes, by as many readings as that takes. `UnexpectedEof`: fewer are left, as a reading that gave none said.
    ///
    /// Every other error is that of the last reading: `WouldBlock` where the raw would have blocked, else that of its refusal. Those bytes that
    /// came before an error stand at the front of `buf`, and are no longer to be read; how many they are isn't told, as of std's own: where
    /// that matters, `read`.
    fn read_exact(&mut self, buf: &mut [u8]) -> io::Result<()>
        ensures bytes { OnOk result (Consumes (S.left self.old) (S.left self.new) buf.new) }
        ensures part { IfErr result (λ error. GivesFront (S.left self.old) buf.old buf.new (S.left self.new)) }
        ensures turns { FillsInTurn S.answers (length buf.old) buf.old buf.new self.old result self.new }
        ensures retried { IsntInterrupted result }
    {
        let mut at = 0;
        while at < buf.len() {
            let count = self.read(&mut buf[at..])?;
            if count == 0 {
                return Err(io_ended());
            }
            at += count;
        }
        Ok(())
    }
}

/// As the stream's `peek`: the bytes that it holds are lent from its own buffer.
impl<S: LendHeld> BufRead for StdStream<S> {
    ghost use Rattle.std.specs.Prelude.{ℕ, Some, IfOk, IfSome, length, Result, []};
    ghost use types.Logic.{sem};
    ghost use Rattle.std.specs.Io.{StartsWith};
    ghost use Rattle.std.specs.Io.BufRead.{Rests, FillKeeps, DropsConsumable};
    ghost use Rattle.py_adapters.specs.contracts.std_stream.StdStream.{the_row};
    ghost use Rattle.py_adapters.specs.Answers.{AnsweredBy, SaysLent, IsntInterrupted};

    ghost consumable_len = { λ stream. Some (S.lends stream) };

    /// Lends the bytes that are held from the place on; where none are, one reading of the raw brings some, of a `BufferedRandom` after all
    /// that is owed was passed on. None are lent exactly where nothing is left. The place stays. It takes no memory, but a raw may.
    ///
    /// `WouldBlock`: the raw would have blocked before any byte. Every other error is that of a refusal of the stream's `peek`. They leave
    /// what is left as it was.
    #[inline(always)]
    fn fill_buf(&mut self) -> io::Result<&[u8]>
        ensures front { IfSome (S.left self.old) (λ xs. IfOk result (λ lent. StartsWith xs lent.now)) }
        ensures end { IfSome (S.left self.old) (λ xs. IfOk result (λ lent. length lent.now ≡ 0 → xs ≡ [])) }
        ensures* after_borrow { sem 𝓛 (Rests (the_row S.row) self.entry (λ new. FillKeeps (S.left self.old) (S.left new) (Some (S.lends new)) result × AnsweredBy (λ came. S.looks self.old came new) (λ came. SaysLent came (S.lends new) result))) }
        ensures retried { IsntInterrupted result }
    {
        match self.stream.fill() {
            Ok(true) => Ok(self.stream.held()),
            Ok(false) => Err(io_would_block()),
            Err(fault) => Err(io_refused(fault)),
        }
    }

    /// Moves the place past the next `amount` of the bytes that `fill_buf` lends, or past all of them where they are fewer. It calls no
    /// raw, and takes no memory. A stream that doesn't live lends none, and stays as it is.
    fn consume(&mut self, amount: usize)
        ensures bytes { DropsConsumable (S.left self.old) (S.left self.new) (Some (S.lends self.old)) amount }
        ensures passes { AnsweredBy (λ came. S.passes self.old amount came self.new) (λ came. Unit {0}) }
    {
        let _ = self.stream.consume(amount);
    }
}

/// As the stream's `write` and `flush`.
impl<S: BufferedStream> Write for StdStream<S> {
    ghost use Rattle.std.specs.Prelude.{OnOk, IfErr};
    ghost use Rattle.std.specs.Io.{WritesAtMost};
    ghost use Rattle.std.specs.Io.KnownBytes.{Keeps, Appends, WriteAppends};
    ghost use Rattle.py_flat.specs.Calls.{Write as WriteCall, Flush};
    ghost use Rattle.py_stream.specs.Replies.{count_reply, done_reply};
    ghost use Rattle.py_adapters.specs.Known.{written_in, TakesFront};
    ghost use Rattle.py_adapters.specs.Answers.{AnsweredBy, MadeBy, Says, SaysWritten, MovesInTurn, TakesPart, EndsWriting, IsntInterrupted};

    ghost contents = { λ stream. written_in (S.shows stream) };

    /// Takes bytes at the place, and answers how many: all of them but where the raw would have blocked or failed, or memory ran out, once
    /// some were taken.
    ///
    /// An error took none: `WouldBlock` where the raw would have blocked, else that of a refusal of the stream's `write`. Where the raw failed
    /// or memory ran out after some bytes, the next call tells, as std has it, that the stream failed. A wait after some isn't told: the next
    /// call is made to wait, or goes on.
    #[inline(always)]
    fn write(&mut self, buf: &[u8]) -> io::Result<usize>
        ensures bound { WritesAtMost result buf.now }
        ensures bytes { WriteAppends (written_in (S.shows self.old)) (written_in (S.shows self.new)) result buf.now }
        ensures answers { AnsweredBy (λ came. MadeBy S.shows S.own self.old (WriteCall buf.now) (count_reply came) self.new) (λ came. SaysWritten came (S.shows self.new).taken result) }
        ensures retried { IsntInterrupted result }
    {
        match self.stream.write(buf) {
            Ok(count) => Ok(count),
            Err(fault) => io_refused_write(fault, self.stream.taken()),
        }
    }

    /// Takes all of `buf`, by as many writes as that takes.
    ///
    /// Every error is that of the last write, which took none. The writes before it may have taken some of the bytes; how many isn't told, as
    /// of std's own: where that matters, `write`.
    fn write_all(&mut self, buf: &[u8]) -> io::Result<()>
        ensures bytes { OnOk result (Appends (written_in (S.shows self.old)) (written_in (S.shows self.new)) buf.now) }
        ensures part { IfErr result (λ error. TakesFront (written_in (S.shows self.old)) buf.now (written_in (S.shows self.new))) }
        ensures turns { MovesInTurn (TakesPart S.shows S.own buf.now) (EndsWriting S.shows S.own buf.now) buf.now self.old result self.new }
        ensures retried { IsntInterrupted result }
    {
        let mut rest = buf;
        while !rest.is_empty() {
            let count = self.write(rest)?;
            rest = &rest[count..];
        }
        Ok(())
    }

    /// Passes on what the stream owes.
    ///
    /// Every error is that of a refusal of the stream's `flush`: `WouldBlock` where the raw would have blocked. What isn't passed on yet
    /// is still owed.
    fn flush(&mut self) -> io::Result<()>
        ensures bytes { Keeps (written_in (S.shows self.old)) (written_in (S.shows self.new)) }
        ensures answers { AnsweredBy (λ came. MadeBy S.shows S.own self.old Flush (done_reply came) self.new) (λ came. Says came result) }
        ensures retried { IsntInterrupted result }
    {
        io_result(self.stream.flush())
    }
}

/// As the stream's `seek` and `tell`.
impl<S: BufferedStream> Seek for StdStream<S> {
    ghost use Rattle.std.specs.Prelude.{Some, IfSome, IfOk, pos};
    ghost use Rattle.std.specs.Io.KnownBytes.{Keeps};
    ghost use Rattle.std.specs.Io.Seek.{SeekMoves, StaysAt, MovesTo, MovesBy};
    ghost use Rattle.py_flat.specs.Calls.{Tell};
    ghost use Rattle.py_stream.specs.Buffer.{TellsPlace};
    ghost use Rattle.py_stream.specs.Replies.{place_reply};
    ghost use Rattle.py_adapters.specs.Known.{bytes_in};
    ghost use Rattle.py_adapters.specs.Answers.{AnsweredBy, Says, SeeksAs, MovedAs, IsntInterrupted};

    ghost stream_position = { λ stream. Some (S.shows stream).place };

    ghost stream_bytes = { λ stream. bytes_in (S.shows stream) };

    /// Moves to a place from the start, the end or the place itself, past the end too, and answers it.
    ///
    /// Every error leaves the place. It is that of a refusal of the stream's `seek`: `InvalidInput` of every place past
    /// 9223372036854775807, and below 0.
    fn seek(&mut self, to: SeekFrom) -> io::Result<u64>
        ensures moves { SeekMoves (Some (S.shows self.old).place) (Some (S.shows self.new).place) (bytes_in (S.shows self.old)) to result }
        ensures bytes { Keeps (bytes_in (S.shows self.old)) (bytes_in (S.shows self.new)) }
        ensures answers { SeeksAs S.shows S.own self.old to result self.new }
        ensures retried { IsntInterrupted result }
    {
        match to {
            SeekFrom::Start(place) => match i64::try_from(place) {
                Ok(offset) => io_result(self.stream.seek(offset, 0)),
                Err(_) => io_past_all(self.stream.seek(-1, 0)), // refused, as every place past all is
            },
            SeekFrom::Current(offset) => io_result(self.stream.seek(offset, 1)),
            SeekFrom::End(offset) => io_result(self.stream.seek(offset, 2)),
        }
    }

    /// Moves to the start. Every error is that of a refusal of the stream's `seek`, and leaves the place.
    fn rewind(&mut self) -> io::Result<()>
        ensures moves { MovesTo (Some (S.shows self.old).place) (Some (S.shows self.new).place) 0 result }
        ensures bytes { Keeps (bytes_in (S.shows self.old)) (bytes_in (S.shows self.new)) }
        ensures answers { MovedAs S.shows S.own self.old (pos 0) (pos 0) result self.new }
        ensures retried { IsntInterrupted result }
    {
        io_moved(self.stream.seek(0, 0))
    }

    /// Moves by so many bytes. Every error is that of a refusal of the stream's `seek`, and leaves the place.
    fn seek_relative(&mut self, offset: i64) -> io::Result<()>
        ensures moves { MovesBy (Some (S.shows self.old).place) (Some (S.shows self.new).place) offset result }
        ensures bytes { Keeps (bytes_in (S.shows self.old)) (bytes_in (S.shows self.new)) }
        ensures answers { MovedAs S.shows S.own self.old offset (pos 1) result self.new }
        ensures retried { IsntInterrupted result }
    {
        io_moved(self.stream.seek(offset, 1))
    }

    /// The place. It calls no raw, and all that is held stays. Every error is that of a refusal of the stream's `tell`.
    fn stream_position(&mut self) -> io::Result<u64>
        ensures value { IfSome (Some (S.shows self.old).place) (λ at. IfOk result (λ n. n ≡ at)) }
        ensures stays { StaysAt (Some (S.shows self.old).place) (Some (S.shows self.new).place) }
        ensures bytes { Keeps (bytes_in (S.shows self.old)) (bytes_in (S.shows self.new)) }
        ensures answers { AnsweredBy (λ came. S.own self.old Tell (place_reply came) self.new × TellsPlace (S.shows self.old) came (S.shows self.new)) (λ came. Says came result) }
        ensures retried { IsntInterrupted result }
    {
        io_result(self.stream.tell())
    }
}

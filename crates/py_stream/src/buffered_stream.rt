//! What the layer above asks of a buffered stream.
ghost use Rattle.std.specs.Prelude.{◌≡◌, true, false, unwrap_or};
ghost use Rattle.py_flat.specs.Calls.{FileCall, FileReply, Read1, Write, Seek, Tell, Flush, Close};
ghost use Rattle.py_flat.specs.Refusals.{is_unbuffered};
ghost use Rattle.py_flat.specs.ExactStep.{is_closed};
ghost use Rattle.py_stream.specs.Replies.{bytes_reply, count_reply, place_reply, done_reply};
ghost use Rattle.py_stream.specs.Buffer.{Buffer, size_shown, TellsPlace, AnswersEnd, AnswersAsBuffer, Prepares, TakesBack};

use py_raw::{IoFault, Life};
use std::alloc::Global;

/// A stream of bytes with a buffer, over a raw stream or in memory: all that a layer above may know of what is below it.
///
/// A call answers in one of four ways, as the clause of all calls says: as the flat file does; short, or not at all, where the raw would
/// have blocked; with `RawFault`, where the raw failed; or with `NoMemory`. What was written and isn't known to have reached the raw is
/// owed.
pub trait BufferedStream {
    /// What the stream shows: its flat file, its counts of faults and waits, what it owes, and, where it tells them, the raw's bytes.
    ghost shows: { Self → Buffer };

    /// What the stream's own clause says of a call, beside what any such stream promises.
    ghost own: { Self → FileCall → FileReply → Self → Type 0 };

    /// Reads up to n bytes by at most one transfer; without a size as many as the buffer holds, and of a stream in memory all.
    ///
    /// `None`: the raw would have blocked before any byte.
    fn read1(&mut self, alloc: Global, size: Option<usize>) -> Result<Option<Vec<u8>>, IoFault>
        ensures buffer { AnswersAsBuffer (shows self.old) (Read1 size) (bytes_reply result) (shows self.new) }
        ensures own { own self.old (Read1 size) (bytes_reply result) self.new };

    /// Writes all bytes at the place, and answers how many there are. `WouldBlock`: as many were taken as it says.
    fn write(&mut self, bytes: &[u8]) -> Result<usize, IoFault>
        ensures buffer { AnswersAsBuffer (shows self.old) (Write bytes.now) (count_reply result) (shows self.new) }
        ensures own { own self.old (Write bytes.now) (count_reply result) self.new };

    /// Moves by an offset from the start (0), the place (1) or the end (2), and answers the new place.
    fn seek(&mut self, offset: i64, whence: i32) -> Result<u64, IoFault>
        ensures buffer { AnswersAsBuffer (shows self.old) (Seek offset whence) (place_reply result) (shows self.new) }
        ensures own { own self.old (Seek offset whence) (place_reply result) self.new };

    /// The place, without asking a raw.
    fn tell(&mut self) -> Result<u64, IoFault>
        ensures place { TellsPlace (shows self.old) result (shows self.new) }
        ensures own { own self.old Tell (place_reply result) self.new };

    /// How many bytes there are; the place is kept.
    fn end(&mut self) -> Result<u64, IoFault>
        ensures { AnswersEnd (shows self.old) result (shows self.new) };

    /// Passes on what is owed.
    fn flush(&mut self) -> Result<(), IoFault>
        ensures buffer { AnswersAsBuffer (shows self.old) Flush (done_reply result) (shows self.new) }
        ensures own { own self.old Flush (done_reply result) self.new };

    /// Sees to it that the raw stands where what is owed begins, with nothing owed at the place, so that a flush writes at once: what was
    /// written until then, and its flush doesn't reach for want of memory, can be taken back. No byte is passed on.
    ///
    /// It is refused as `flush` is, with all as it was. `RawFault` fails the stream; `NoMemory`, of a raw that takes some, leaves all as it
    /// was.
    fn prepare_flush(&mut self) -> Result<(), IoFault>
        ensures { Prepares (shows self.old) result (shows self.new) };

    /// Takes back the last n bytes that are owed, as though they had never been written, and answers whether it did: of a live stream that
    /// owes so many right before its place, whose raw stands where these begin. Else all is as it was. It calls no raw.
    fn take_back(&mut self, count: usize) -> bool
        ensures { TakesBack (shows self.old) count result (shows self.new) };

    /// Passes on what is owed, and closes the stream. A closed one stays so.
    fn close(&mut self) -> Result<(), IoFault>
        ensures buffer { AnswersAsBuffer (shows self.old) Close (done_reply result) (shows self.new) }
        ensures own { own self.old Close (done_reply result) self.new };

    /// Whether the stream can be read.
    fn readable(&self) -> bool
        ensures { result ≡ (shows self.now).can.readable };

    /// Whether the stream can be written.
    fn writable(&self) -> bool
        ensures { result ≡ (shows self.now).can.writable };

    /// Whether the stream can be moved. One that is both read and written can, and doesn't append.
    fn seekable(&self) -> bool
        ensures says { result ≡ (shows self.now).can.seekable }
        ensures moves { (shows self.now).can.readable ≡ true → (shows self.now).can.writable ≡ true → ((shows self.now).can.seekable ≡ true) × ((shows self.now).can.appending ≡ false) };

    /// Whether each write goes to the end, wherever the place is: such a stream isn't moved, though it may tell its place.
    fn appending(&self) -> bool
        ensures { result ≡ (shows self.now).can.appending };

    /// Whether the stream is closed.
    fn closed(&self) -> bool
        ensures { result ≡ is_closed (shows self.now).life };

    /// Whether a wait cut the last answer short.
    fn short(&self) -> bool
        ensures { result ≡ (shows self.now).short };

    /// Whether bytes of the stream are lent out, so that no call may change how many there are.
    fn exported(&self) -> bool
        ensures { result ≡ (shows self.now).exported };

    /// What became of the stream.
    fn life(&self) -> Life
        ensures { result ≡ (shows self.now).life };

    /// How many bytes the buffer holds; 0 of a stream in memory. No such stream is one without a buffer.
    fn buffer_size(&self) -> usize
        ensures size { result ≡ unwrap_or (size_shown (shows self.now).buffering) 0 }
        ensures buffered { is_unbuffered (shows self.now).buffering ≡ false };

    /// How many bytes of the last write were taken: after a fault those that the raw answered for or the buffer keeps.
    fn taken(&self) -> u64
        ensures { result ≡ (shows self.now).taken };
}

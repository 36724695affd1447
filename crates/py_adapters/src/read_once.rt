//! Streams that give bytes into a caller's buffer, by at most one reading of their raw.
ghost use Rattle.std.specs.Prelude.{◌≡◌, ℕ, List, Option, Some, length};
ghost use Rattle.py_flat.specs.Calls.{FileReply, ReadInto1};
ghost use Rattle.py_flat.specs.ExactStep.{rest};
ghost use Rattle.py_stream.specs.Answers.{Answers};
ghost use Rattle.py_stream.specs.Replies.{into_reply, CountFits, KeepsUnread};
ghost use Rattle.py_memio.specs.InMemory.{AnswersInMemory};
ghost use Rattle.py_memio.specs.BytesIO.{is_lent};
ghost use Rattle.py_adapters.specs.Known.{left_in, GivesNext};

use py_buffered::{BufferedRandom, BufferedReader};
use py_flat::IoFault;
use py_memio::BytesIO;
use py_raw::RawStream;

/// A stream that is read into a caller's buffer, by at most one reading of its raw. A `BufferedRandom` that owes bytes and holds nothing
/// ahead passes on first all that it owes, by as many writes as that takes.
pub trait ReadOnce {
    /// What such a reading of so many bytes may answer and leave: the clause of the stream's own `readinto1`.
    ghost answers: { Self → ℕ → FileReply → Self → Type 0 };

    /// The bytes that are left from the place on, where the stream tells them.
    ghost left: { Self → Option (List ℕ) };

    /// Reads some of the next bytes into the front of `buffer`, and answers how many: none only where `buffer` is empty or nothing is
    /// left. What `buffer` has after them stays. `None`: the raw would have blocked before any. It is refused as the stream's own
    /// `readinto1` is; `None` and refusals leave `buffer` and what is left as they were.
    fn read_once(&mut self, buffer: &mut [u8]) -> Result<Option<usize>, IoFault>
        ensures answers { answers self.old (length buffer.old) (into_reply result buffer.new) self.new }
        ensures length { length buffer.new ≡ length buffer.old }
        ensures fits { CountFits result buffer.new }
        ensures unread { KeepsUnread result buffer.old buffer.new }
        ensures gives { GivesNext (left self.old) (length buffer.old) (into_reply result buffer.new) (left self.new) };
}

impl<R: RawStream> ReadOnce for BufferedReader<R> {
    ghost answers = { λ before size reply after. Answers before (ReadInto1 size) reply after };

    ghost left = { λ stream. left_in stream };

    fn read_once(&mut self, buffer: &mut [u8]) -> Result<Option<usize>, IoFault> {
        BufferedReader::readinto1(self, buffer)
    }
}

impl<R: RawStream> ReadOnce for BufferedRandom<R> {
    ghost answers = { λ before size reply after. Answers before.stream (ReadInto1 size) reply after.stream × (after.taken ≡ before.taken) };

    ghost left = { λ view. left_in view.stream };

    fn read_once(&mut self, buffer: &mut [u8]) -> Result<Option<usize>, IoFault> {
        BufferedRandom::readinto1(self, buffer)
    }
}

impl ReadOnce for BytesIO {
    ghost answers = { λ before size reply after. AnswersInMemory (is_lent before) before.file (ReadInto1 size) reply after.file × (after.exports ≡ before.exports) × (after.taken ≡ before.taken) };

    ghost left = { λ view. Some (rest view.file) };

    fn read_once(&mut self, buffer: &mut [u8]) -> Result<Option<usize>, IoFault> {
        match BytesIO::readinto1(self, buffer) {
            Ok(count) => Ok(Some(count)),
            Err(fault) => Err(fault),
        }
    }
}

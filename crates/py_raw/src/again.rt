//! Calls of a reader or a writer that are made again where they were interrupted, as std's `write_all` writes again.
ghost use Rattle.std.specs.Prelude.{◌≡◌, false};
ghost use Rattle.std.specs.Io.{ReadsAtMost};
ghost use Rattle.std.specs.Io.KnownBytes.{Keeps, ReadConsumes};
ghost use Rattle.py_raw.specs.Again.{was_interrupted};

use std::io;
use std::io::{ErrorKind, Read, Write};

/// Whether an answer says that the call was interrupted.
fn was_interrupted<A>(answer: &io::Result<A>) -> bool
    ensures { result ≡ was_interrupted answer.now }
{
    match answer {
        Ok(_) => false,
        Err(error) => matches!(error.kind(), ErrorKind::Interrupted),
    }
}

/// Reads once, and again where that was interrupted. After 18446744073709551615 tries it fails.
pub(crate) fn read_again<R: Read>(reader: &mut R, buf: &mut [u8]) -> io::Result<usize>
    ensures bound { ReadsAtMost result buf.old }
    ensures bytes { ReadConsumes (R.remaining reader.old) (R.remaining reader.new) result buf.new }
    ensures again { was_interrupted result ≡ false }
{
    'tries: for _ in 0..u64::MAX {
        let answer = reader.read(buf);
        if !was_interrupted(&answer) {
            return answer;
        }
    }
    Err(io::Error::from(ErrorKind::TimedOut))
}

/// Flushes a writer, and again where that was interrupted, so that this is never the answer. After 18446744073709551615 tries it
/// fails.
pub fn flush_again<W: Write>(writer: &mut W) -> io::Result<()>
    ensures kept { Keeps (W.contents writer.old) (W.contents writer.new) }
    ensures again { was_interrupted result ≡ false }
{
    'tries: for _ in 0..u64::MAX {
        let answer = writer.flush();
        if !was_interrupted(&answer) {
            return answer;
        }
    }
    Err(io::Error::from(ErrorKind::TimedOut))
}

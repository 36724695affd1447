//! Lists of calls of the raw streams of the system, each with what it answers.
//!
//! One function makes and compares them for every test: what a test costs to prove is its asserts, and the more there are the more each.
ghost use Rattle.std.specs.Prelude.{◌≡◌, false, refl};
ghost use Rattle.py_raw.specs.RawStream.{Raw};

use py_raw::{GREATEST_PLACE, RawError, RawStream, Reads};
use py_raw_files::{Counts, FileRaw, ReadRaw, WriteRaw};
use std::fs::OpenFile;
use std::io::{ErrorKind, Read, Seek, Write};
use std::process::Abort;

/// What a call answers that moves bytes.
pub(crate) type Moved = Result<Option<usize>, RawError>;

/// A call of a raw stream, and what it must answer.
#[derive(Clone, Copy)]
pub(crate) enum Call<'a> {
    /// A reading into a buffer of points, and what that holds then.
    Read(Moved, &'a [u8]),
    /// A write of a piece.
    Write(&'a [u8], Moved),
    /// A seek to a place.
    Seek(u64, Result<(), RawError>),
    /// The place.
    Tell(Result<u64, RawError>),
    /// The end.
    End(Result<u64, RawError>),
    /// The guess of the end.
    EndHint(Option<u64>),
    /// A cut to a size.
    Truncate(u64, Result<(), RawError>),
    /// A close, after which the stream is closed.
    Close(Result<(), RawError>),
    /// How many transfers, bytes that writes answered for, faults and waits there were.
    Counted(u64, u64, u64, u64),
    /// What the reads brought.
    Brought(Reads),
    /// What the system said of the last fault.
    LastError(Option<ErrorKind>),
}

/// A raw stream of the system, which says what it counted and what the system said, and tells no place.
pub(crate) trait SystemRaw: RawStream {
    /// What was counted.
    fn counted(&self) -> Counts;

    /// What the system said of the last fault.
    fn last_said(&self) -> Option<ErrorKind>;

    /// So a write of any length fits.
    ghost untold: { (raw : Self) → (Self.shows raw).tells_place ≡ false };
}

impl<F: Read + Write + Seek + OpenFile + Drop> SystemRaw for FileRaw<F> {
    ghost untold = { λ raw. refl };

    fn counted(&self) -> Counts {
        self.counts()
    }

    fn last_said(&self) -> Option<ErrorKind> {
        self.last_error()
    }
}

impl<R: Read + Drop> SystemRaw for ReadRaw<R> {
    ghost untold = { λ raw. refl };

    fn counted(&self) -> Counts {
        self.counts()
    }

    fn last_said(&self) -> Option<ErrorKind> {
        self.last_error()
    }
}

impl<W: Write + Drop> SystemRaw for WriteRaw<W> {
    ghost untold = { λ raw. refl };

    fn counted(&self) -> Counts {
        self.counts()
    }

    fn last_said(&self) -> Option<ErrorKind> {
        self.last_error()
    }
}

/// Whether a reading into points answers so, and whether the buffer then holds that.
fn reads_as<R: RawStream>(raw: &mut R, answer: Moved, held: &[u8]) -> bool
    requires { (R.shows raw.old).closed ≡ false }
{
    let mut points = [b'.'; 5];
    let Some(buf) = points.get_mut(..held.len()) else {
        return false;
    };
    raw.readinto(buf) == answer && &*buf == held
}

/// Whether a call of a stream that must be open answers so.
fn answers_open<R: SystemRaw>(raw: &mut R, call: Call<'_>) -> bool
    requires { (R.shows raw.old).closed ≡ false }
{
    match call {
        Call::Read(answer, held) => reads_as(raw, answer, held),
        Call::Write(piece, answer) => raw.write(piece) == answer,
        Call::Seek(place, answer) => place <= GREATEST_PLACE && raw.seek(place) == answer,
        Call::Tell(answer) => raw.tell() == answer,
        Call::End(answer) => raw.end() == answer,
        Call::Truncate(size, answer) => size <= GREATEST_PLACE && raw.truncate(size) == answer,
        Call::Close(answer) => raw.close() == answer && raw.closed(),
        _ => false,
    }
}

/// Whether a call answers so.
fn answers<R: SystemRaw>(raw: &mut R, call: Call<'_>) -> bool {
    let counts = raw.counted();
    match call {
        Call::EndHint(hint) => raw.end_hint() == hint,
        Call::Counted(transfers, written, faults, waits) => {
            counts.transfers == transfers
                && counts.written == written
                && counts.faults == faults
                && counts.waits == waits
        }
        Call::Brought(reads) => counts.reads == reads,
        Call::LastError(error) => raw.last_said() == error,
        _ => !raw.closed() && answers_open(raw, call),
    }
}

/// Makes calls one after another, and compares what each answers. Of several lists the case says which one it is.
pub(crate) fn assert_answers<R: SystemRaw>(
    rt: &impl Abort,
    raw: &mut R,
    case: usize,
    calls: &[Call<'_>],
) {
    for (at, call) in calls.iter().enumerate() {
        assert!(rt; answers(raw, *call), "call {at} of list {case}");
    }
}

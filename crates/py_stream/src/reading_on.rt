//! Readings that go on until they have all that is wanted, of any stream that can go on so.
ghost use Rattle.std.specs.Prelude.{◌≡◌, ◌≢◌, ◌+◌, ◌^◌, ◌<◌, ◌≤◌, ℕ, List, [], false, None, IfOk, IfSome, OnOk, ◌++◌, length, take, drop, replicate, vec_len};
ghost use Rattle.py_flat.specs.declared.life.Life.TheVariants.{Live};
ghost use Rattle.py_flat.specs.Calls.{Read, ReadLine, ReadLines};
ghost use Rattle.py_stream.specs.Stream.{Stream};
ghost use Rattle.py_stream.specs.Answers.{Answers};
ghost use Rattle.py_stream.specs.LiveRaw.{starved};
ghost use Rattle.py_stream.specs.Reading.{GatherOutcome, RestOutcome, answered_at, has_answer};
ghost use Rattle.py_stream.specs.ReadingOn.{BeginsReading, MayRead, HeldOutcome, StepOutcome, ReadIntoOutcome, ReadMoreOutcome};
ghost use Rattle.py_stream.specs.Replies.{bytes_reply, lines_reply};

use crate::{Progress, Step, Stop};
use py_lines::{Collector, LineCollector, LinesCollector};
use py_raw::{IoFault, Lines};
use std::alloc::{AllocError, Global};

/// How many bytes a reading of all asks for in one turn, where it wants more: so few that the zeros which are written first are
/// still in the processor's cache when the transfer overwrites them.
const PIECE: usize = 256 * 1024;

/// How many zeros are written at once: longer runs are slower into memory that is new.
const RUN: usize = 1024;

/// A stream that reads on, transfer by transfer, until a reading has all that it wants.
pub trait ReadsOn {
    /// What the stream is seen as.
    ghost shows: { Self → Stream };

    /// What holds of a stream that reads on from the bytes that it holds.
    ghost reads: { Self → Type 0 };

    /// When a reading may begin.
    ghost may_begin: { Self → Type 0 };

    /// Begins a reading, or refuses it, with all as it was. No answer is short yet.
    fn begin_reading(&mut self) -> Result<(), IoFault>
        requires may { may_begin self.old }
        ensures begins { BeginsReading (shows self.old) result (shows self.new) }
        ensures reads { IfOk result (λ done. reads self.new) }
        ensures kept { reads self.old → reads self.new };

    /// Reads on until the collector has enough.
    fn gather<C: Collector>(&mut self, collector: &mut C) -> Result<Stop, IoFault>
        requires live { (shows self.old).life ≡ Live }
        requires reads { reads self.old }
        requires none { C.collected collector.old ≡ [] }
        requires open { C.is_open collector.old }
        requires ends { C.wanted collector.old [] ≡ [] }
        requires asks { (more : List ℕ) → more ≢ [] → C.wanted collector.old more ≢ [] }
        ensures outcome { GatherOutcome (C.wanted collector.old) (shows self.old) result (C.collected collector.new) (shows self.new) }
        ensures reads { reads self.new };

    /// How many bytes a reading of all asks for at first, by the raw's guess of its end: more than are held. `None` without a guess.
    fn guessed_more(&self) -> Option<usize>
        requires live { (shows self.now).life ≡ Live }
        requires reads { reads self.now }
        ensures { IfSome result (λ more. (shows self.now).raw_place < (shows self.now).place + more) };

    /// How many bytes a reading of all asks for at first where its raw has no guess, or there is no memory for so many: more than are
    /// held, so that bytes leave the raw before space is wanted again.
    fn first_more(&self) -> usize
        requires live { (shows self.now).life ≡ Live }
        requires reads { reads self.now }
        ensures { (shows self.now).raw_place < (shows self.now).place + result };

    /// Copies the front of what is held into the front of a buffer. Where that fills it, the place moves past these bytes.
    fn read_held(&mut self, buffer: &mut [u8]) -> Step
        requires live { (shows self.old).life ≡ Live }
        requires reads { reads self.old }
        ensures outcome { HeldOutcome (shows self.old) result buffer.new (shows self.new) }
        ensures length { length buffer.new ≡ length buffer.old }
        ensures reads { reads self.new };

    /// One transfer for what is left of a buffer, after the bytes held, which were all taken. `moved` tells whether bytes had
    /// moved in this call.
    fn read_on(&mut self, rest: &mut [u8], moved: bool) -> Result<Step, IoFault>
        requires live { (shows self.old).life ≡ Live }
        requires reads { reads self.old }
        requires asks { 0 < length rest.old }
        ensures outcome { StepOutcome (shows self.old) moved result rest.new (shows self.new) }
        ensures length { length rest.new ≡ length rest.old }
        ensures reads { reads self.new };

    /// Memory was wanting: the stream fails where bytes had moved in this call.
    fn starve(&mut self, moved: bool) -> IoFault
        ensures fault { result ≡ IoFault.NoMemory }
        ensures stream { shows self.new ≡ record (shows self.old) { life = starved moved (shows self.old).life } }
        ensures reads { reads self.old → reads self.new };

    /// Whether a reading has an answer: none where the raw would have blocked before anything came. A wait is remembered.
    fn answers(&mut self, stop: Stop, empty: bool) -> bool
        ensures answer { result ≡ has_answer stop empty }
        ensures stream { shows self.new ≡ answered_at stop (shows self.old) }
        ensures reads { reads self.old → reads self.new };
}

/// Reads into a buffer until it is full. `moved` tells whether bytes had moved in this call.
pub fn read_into<S: ReadsOn>(
    stream: &mut S,
    buffer: &mut [u8],
    moved: bool,
) -> Result<Progress, IoFault>
    requires may { MayRead (S.shows stream.old) }
    requires reads { S.reads stream.old }
    ensures outcome { ReadIntoOutcome (S.shows stream.old) moved result buffer.new (S.shows stream.new) }
    ensures length { length buffer.new ≡ length buffer.old }
    ensures reads { S.reads stream.new }
{
    let mut count = match stream.read_held(buffer) {
        Step::On(held) => held,
        Step::Stopped { count, stop } => return Ok(Progress { count, stop }),
    };
    let mut has_moved = moved;
    loop {
        match stream.read_on(&mut buffer[count..], has_moved)? {
            Step::On(more) => {
                count += more;
                has_moved = true;
            }
            Step::Stopped { count: more, stop } => {
                return Ok(Progress {
                    count: count + more,
                    stop,
                });
            }
        }
    }
}

/// Reads into a buffer after n bytes of it.
fn read_behind<S: ReadsOn>(
    stream: &mut S,
    buffer: &mut [u8],
    start: usize,
    moved: bool,
) -> Result<Progress, IoFault>
    requires may { MayRead (S.shows stream.old) }
    requires reads { S.reads stream.old }
    requires within { start ≤ length buffer.old }
    ensures outcome { ReadIntoOutcome (S.shows stream.old) moved result (drop start buffer.new) (S.shows stream.new) }
    ensures front { take start buffer.new ≡ take start buffer.old }
    ensures length { length buffer.new ≡ length buffer.old }
    ensures reads { S.reads stream.new }
{
    read_into(stream, &mut buffer[start..], moved)
}

/// Appends n zeros to a vector.
fn append_zeros(bytes: &mut Vec<u8>, more: usize) -> Result<(), AllocError>
    requires fits { vec_len bytes.old + more < 2 ^ 64 }
    ensures { OnOk result (bytes.new.items ≡ bytes.old.items ++ replicate more 0) }
{
    bytes.reserve(more)?;
    let mut left = more;
    while RUN < left {
        bytes.resize(bytes.len() + RUN, 0)?;
        left -= RUN;
    }
    bytes.resize(bytes.len() + left, 0)
}

/// Reads n bytes more after what a vector has, whose space is taken first. `moved` tells whether bytes had moved in this call.
fn read_more<S: ReadsOn>(
    stream: &mut S,
    bytes: &mut Vec<u8>,
    more: usize,
    moved: bool,
) -> Result<Stop, IoFault>
    requires may { MayRead (S.shows stream.old) }
    requires reads { S.reads stream.old }
    requires fits { vec_len bytes.old + more < 2 ^ 64 }
    ensures outcome { ReadMoreOutcome (S.shows stream.old) moved bytes.old.items more result bytes.new.items (S.shows stream.new) }
    ensures reads { S.reads stream.new }
{
    let length = bytes.len();
    if append_zeros(bytes, more).is_err() {
        return Err(stream.starve(moved));
    }
    let progress = read_behind(stream, bytes.as_mut_slice(), length, moved)?;
    bytes.truncate(length + progress.count);
    Ok(progress.stop)
}

/// How many bytes a reading of all wants at first: by the raw's guess of its end, where there is memory for so many. A vector that has
/// nothing yet is given the space.
fn first_space<S: ReadsOn>(stream: &S, bytes: &mut Vec<u8>) -> usize
    requires live { (S.shows stream.now).life ≡ Live }
    requires reads { S.reads stream.now }
    ensures past { (S.shows stream.now).raw_place < (S.shows stream.now).place + result }
    ensures bytes { bytes.new.items ≡ bytes.old.items }
{
    if let Some(more) = stream.guessed_more() {
        if bytes.reserve(more).is_ok() {
            return more;
        }
    }
    stream.first_more()
}

/// Reads all that is left into a vector that has nothing yet: what the stream wants at first, and then as much as came, until the end
/// is met, and each piece by piece.
fn read_all<S: ReadsOn>(stream: &mut S, bytes: &mut Vec<u8>) -> Result<Stop, IoFault>
    requires may { MayRead (S.shows stream.old) }
    requires reads { S.reads stream.old }
    requires none { bytes.old.items ≡ [] }
    ensures outcome { RestOutcome (S.shows stream.old) result bytes.new.items (S.shows stream.new) }
    ensures reads { S.reads stream.new }
{
    let piece = stream.first_more().max(PIECE);
    let mut wanted = first_space(stream, bytes);
    let mut moved = false;
    loop {
        let more = wanted.min(piece);
        match read_more(stream, bytes, more, moved)? {
            Stop::Enough => {
                moved = true;
                wanted = if more < wanted {
                    wanted - more
                } else {
                    bytes.len()
                };
            }
            stop => return Ok(stop),
        }
    }
}

/// Reads all that is left.
pub fn read_rest<S: ReadsOn>(stream: &mut S, alloc: Global) -> Result<Option<Vec<u8>>, IoFault>
    requires may { S.may_begin stream.old }
    ensures answers { Answers (S.shows stream.old) (Read None) (bytes_reply result) (S.shows stream.new) }
    ensures reads { S.reads stream.old → S.reads stream.new }
{
    stream.begin_reading()?;
    let mut bytes = Vec::new(alloc);
    let stop = read_all(stream, &mut bytes)?;
    if stream.answers(stop, bytes.is_empty()) {
        Ok(Some(bytes))
    } else {
        Ok(None)
    }
}

/// Reads a line with its end, at most n bytes of it.
pub fn read_line<S: ReadsOn>(
    stream: &mut S,
    alloc: Global,
    limit: Option<usize>,
) -> Result<Option<Vec<u8>>, IoFault>
    requires may { S.may_begin stream.old }
    ensures answers { Answers (S.shows stream.old) (ReadLine limit) (bytes_reply result) (S.shows stream.new) }
    ensures reads { S.reads stream.old → S.reads stream.new }
{
    stream.begin_reading()?;
    if limit == Some(0) {
        return Ok(Some(Vec::new(alloc)));
    }
    let mut collector = LineCollector::new(alloc, limit);
    let stop = stream.gather(&mut collector)?;
    let line = collector.into_line();
    if stream.answers(stop, line.is_empty()) {
        Ok(Some(line))
    } else {
        Ok(None)
    }
}

/// Reads lines until their total is above the hint, or all.
pub fn read_lines<S: ReadsOn>(
    stream: &mut S,
    alloc: Global,
    hint: Option<usize>,
) -> Result<Option<Lines>, IoFault>
    requires may { S.may_begin stream.old }
    ensures answers { Answers (S.shows stream.old) (ReadLines hint) (lines_reply result) (S.shows stream.new) }
    ensures reads { S.reads stream.old → S.reads stream.new }
{
    stream.begin_reading()?;
    let mut collector = LinesCollector::new(alloc, hint);
    let stop = stream.gather(&mut collector)?;
    let lines = collector.into_lines();
    if stream.answers(stop, lines.len() == 0) {
        Ok(Some(lines))
    } else {
        Ok(None)
    }
}

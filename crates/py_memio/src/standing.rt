//! What every stream in memory does alike: what a closed one refuses, where a seek goes, and what is left from a place on.
ghost use Rattle.std.specs.Prelude.{◌≡◌, ◌≤◌, take, drop, MatchOption};
ghost use Rattle.py_flat.specs.Limits.{greatest_place};
ghost use Rattle.py_memio.specs.InMemory.{life_of, OpenOutcome};
ghost use Rattle.py_memio.specs.Moving.{SeekOutcome, CutOutcome};

use py_flat::IoFault;
use py_raw::GREATEST_PLACE;
use py_stream::moved_by;

/// Every call of a closed stream but `close` is refused.
pub(crate) fn check_open(closed: bool) -> Result<(), IoFault>
    ensures { OpenOutcome (life_of closed) result }
{
    if closed { Err(IoFault::Closed) } else { Ok(()) }
}

/// Where a seek goes of a stream that stands at a place and has an end: by an offset from the start (0), the place (1) or the end (2).
pub(crate) fn seek_target(place: u64, end: u64, offset: i64, whence: i32) -> Result<u64, IoFault>
    requires place { place ≤ greatest_place }
    requires end { end ≤ greatest_place }
    ensures { SeekOutcome place end offset whence result }
{
    match whence {
        0 => moved_by(0, offset),
        1 => moved_by(place, offset),
        2 => moved_by(end, offset),
        _ => Err(IoFault::BadWhence),
    }
}

/// The size that a `truncate` cuts a stream to that stands at a place: the place, where none is asked for. `TooFar`: it lies past
/// 9223372036854775807.
pub(crate) fn cut_size(place: u64, size: Option<u64>) -> Result<u64, IoFault>
    requires { place ≤ greatest_place }
    ensures { CutOutcome place size result }
{
    match size {
        Some(size) if size > GREATEST_PLACE => Err(IoFault::TooFar),
        Some(size) => Ok(size),
        None => Ok(place),
    }
}

/// What is left of some items from a place on: nothing at their end and past it.
pub(crate) fn left_from<T>(items: &[T], place: u64) -> &[T]
    ensures { result.now ≡ drop place items.now }
{
    let start = items.len().min(place as usize);
    &items[start..]
}

/// The first items, at most as many as a size says; without one, all.
pub(crate) fn front<T>(items: &[T], size: Option<usize>) -> &[T]
    ensures { MatchOption size (result.now ≡ items.now) (λ n. result.now ≡ take n items.now) }
{
    match size {
        Some(size) if size < items.len() => &items[..size],
        _ => items,
    }
}

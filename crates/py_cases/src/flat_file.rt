//! A flat file written apart from the model and the streams: a list of bytes with a place, and what its stream is opened for.

use py_flat::{IoFault, Lines};
use py_open::{Call, Reply};
use std::alloc::{AllocError, Global};

#[derive(Drop)]
pub(crate) struct Flat {
    pub(crate) bytes: Vec<u8>,
    pub(crate) place: usize,
    pub(crate) reads: bool,
    pub(crate) writes: bool,
    /// Whether it is only written at its end.
    pub(crate) appends: bool,
    pub(crate) buffered: bool,
}

impl Flat {
    /// Whether the bytes that its stream holds and those that it owes lie in one buffer.
    pub(crate) fn holds_both(&self) -> bool {
        self.reads && self.writes && self.buffered
    }

    /// Lays bytes at the place, after zeros where that lies past the end.
    pub(crate) fn lay(&mut self, part: &[u8]) -> Result<(), AllocError> {
        if !part.is_empty() && self.bytes.len() < self.place {
            self.bytes.resize(self.place, 0)?;
        }
        for byte in part {
            match self.bytes.get_mut(self.place) {
                Some(old) => *old = *byte,
                None => self.bytes.push(*byte)?,
            }
            self.place = self.place.saturating_add(1);
        }
        Ok(())
    }

    /// The bytes that a call gives to the stream, joined.
    pub(crate) fn payload(alloc: Global, call: &Call) -> Result<Vec<u8>, AllocError> {
        let mut payload = Vec::new(alloc);
        match call {
            Call::Write(bytes) => payload.extend_from_slice(bytes.as_slice())?,
            Call::WriteLines(lines) => {
                for line in lines.as_slice() {
                    payload.extend_from_slice(line.as_slice())?;
                }
            }
            _ => {}
        }
        Ok(payload)
    }

    /// Whether the stream lacks what the call needs.
    fn lacks(&self, call: &Call) -> bool {
        match call {
            Call::Read(_) | Call::ReadLine(_) | Call::ReadLines(_) | Call::ReadInto(_) => {
                !self.reads
            }
            Call::Read1(_) | Call::ReadInto1(_) | Call::Peek => !self.reads || !self.buffered,
            Call::Write(_) | Call::WriteLines(_) => !self.writes,
            Call::Seek(_, _) => self.appends,
            Call::Truncate(_) => !self.writes || self.appends,
            Call::Tell | Call::Flush | Call::Close => false,
            _ => true,
        }
    }

    /// Whether the call is answered by what one transfer gives.
    pub(crate) fn is_single(&self, call: &Call) -> bool {
        match call {
            Call::Read1(_) | Call::ReadInto1(_) | Call::Peek => true,
            Call::Read(Some(_)) | Call::ReadInto(_) => !self.buffered,
            _ => false,
        }
    }

    /// The exact bytes of a reading call, or all of which a single transfer gives some; nothing of another call.
    pub(crate) fn wanted(&self, call: &Call) -> Option<&[u8]> {
        let rest = &self.bytes[self.place.min(self.bytes.len())..];
        match call {
            Call::Read(size) | Call::Read1(size) => Some(front(rest, *size)),
            Call::ReadInto(size) | Call::ReadInto1(size) => Some(front(rest, Some(*size))),
            Call::ReadLine(limit) => Some(front(first_line(rest), *limit)),
            Call::ReadLines(hint) => Some(first_lines(rest, *hint)),
            Call::Peek => Some(rest),
            _ => None,
        }
    }

    /// Takes bytes that a reading call answers. Whether it may: exactly those wanted, and some of them for a single transfer, or
    /// where a wait cut it short; none only where none are wanted.
    fn takes(&mut self, call: &Call, bytes: &[u8], short: bool) -> bool {
        let single = self.is_single(call);
        let is_right = match self.wanted(call) {
            None => false,
            Some(wanted) if short => !single && !bytes.is_empty() && wanted.starts_with(bytes),
            Some(wanted) if single => {
                wanted.starts_with(bytes) && bytes.is_empty() == wanted.is_empty()
            }
            Some(wanted) => bytes == wanted,
        };
        if *call != Call::Peek {
            self.place = self.place.saturating_add(bytes.len());
        }
        is_right
    }

    /// Where a call that answers a place stands then.
    fn moved(&self, call: &Call) -> Option<usize> {
        let (offset, base) = match call {
            Call::Tell => return Some(self.place),
            Call::Seek(offset, 0) => (*offset, 0),
            Call::Seek(offset, 1) => (*offset, self.place),
            Call::Seek(offset, _) => (*offset, self.bytes.len()),
            _ => return None,
        };
        let base = i64::try_from(base).unwrap_or(i64::MAX);
        Some(base.saturating_add(offset).max(0).unsigned_abs() as usize)
    }

    /// Whether a call may answer a place; goes on by it.
    fn goes(&mut self, call: &Call, place: u64) -> Result<bool, AllocError> {
        if let Call::Truncate(size) = call {
            return Ok(place == self.resize(*size)?);
        }
        let Some(moved) = self.moved(call) else {
            return Ok(false);
        };
        self.place = moved;
        Ok(place == moved as u64)
    }

    /// Cuts the bytes to a size, or lengthens them by zeros; without a size to the place. Answers the size.
    pub(crate) fn resize(&mut self, size: Option<u64>) -> Result<u64, AllocError> {
        let size = size.unwrap_or(self.place as u64);
        self.bytes.resize(size as usize, 0)?;
        Ok(size)
    }

    /// Whether a session may answer a call so; goes on by the answer. `short` says whether a wait cut it short.
    pub(crate) fn answers(
        &mut self,
        alloc: Global,
        call: &Call,
        reply: &Reply,
        short: bool,
    ) -> Result<bool, AllocError> {
        if self.lacks(call) {
            return Ok(*reply == Reply::Refused(IoFault::Unsupported) && !short);
        }
        let is_lines = matches!(call, Call::ReadLines(_));
        Ok(match reply {
            Reply::Bytes(bytes) => !is_lines && self.takes(call, bytes.as_slice(), short),
            Reply::Lines(lines) => match joined(alloc, lines)? {
                Some(bytes) => is_lines && self.takes(call, &bytes, short),
                None => false,
            },
            Reply::Place(place) => self.goes(call, *place)? && !short,
            Reply::NotReady => short && (self.wanted(call).is_some() || self.is_bare_write(call)),
            _ => self.writes(alloc, call, reply, short)?,
        })
    }

    /// Whether a call is a write without a buffer, which waits by `NotReady` and may take some of its bytes.
    fn is_bare_write(&self, call: &Call) -> bool {
        matches!(call, Call::Write(_)) && !self.buffered
    }

    /// Compares the answers to writing calls, and those that say no more than that all was done.
    fn writes(
        &mut self,
        alloc: Global,
        call: &Call,
        reply: &Reply,
        short: bool,
    ) -> Result<bool, AllocError> {
        let payload = Flat::payload(alloc, call)?;
        let all = payload.len();
        let (taken, is_right) = match reply {
            Reply::Count(count) => {
                let count = *count as usize;
                let is_some = self.is_bare_write(call) && count > 0 && count <= all;
                let is_write = matches!(call, Call::Write(_));
                (count, is_write && (count == all || is_some) && !short)
            }
            Reply::Done => {
                let has_done = matches!(call, Call::WriteLines(_) | Call::Flush | Call::Close);
                (all, has_done && !short)
            }
            Reply::Refused(IoFault::WouldBlock { taken }) => {
                let taken = *taken as usize;
                let waits = self.writes && !self.is_bare_write(call);
                (taken, waits && (taken < all || taken == 0) && short)
            }
            _ => (0, false),
        };
        self.lay(front(&payload, Some(taken)))?;
        Ok(is_right)
    }
}

fn front(bytes: &[u8], most: Option<usize>) -> &[u8] {
    match most {
        Some(most) => &bytes[..most.min(bytes.len())],
        None => bytes,
    }
}

fn first_line(rest: &[u8]) -> &[u8] {
    match rest.iter().position(|byte| *byte == b'\n') {
        Some(at) => &rest[..at + 1],
        None => rest,
    }
}

/// Lines until their total is above a hint; all for none and for 0.
fn first_lines(rest: &[u8], hint: Option<usize>) -> &[u8] {
    let mut total = 0;
    for _ in 0..rest.len() {
        let line = first_line(&rest[rest.len().min(total)..]);
        total = line.len().saturating_add(total);
        if line.is_empty() || matches!(hint, Some(hint) if hint > 0 && total > hint) {
            break;
        }
    }
    &rest[..rest.len().min(total)]
}

/// The lines of bytes, joined; nothing where one of them isn't a line, but the last, which may lack its end.
fn joined(alloc: Global, lines: &Lines) -> Result<Option<Vec<u8>>, AllocError> {
    let mut joined: Vec<u8> = Vec::new(alloc);
    for line in lines.as_slice() {
        let bytes = line.as_slice();
        let is_behind_an_end = joined.is_empty() || joined.ends_with(b"\n");
        if !is_behind_an_end || bytes.is_empty() || first_line(bytes) != bytes {
            return Ok(None);
        }
        joined.extend_from_slice(bytes)?;
    }
    Ok(Some(joined))
}

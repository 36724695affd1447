//! A text whose raw runs out of memory.
ghost use Rattle.std.proofs.Common.{rules};
ghost use Rattle.std.specs.Prelude.{true, false};
ghost use Rattle.py_raw.specs.RawStream.{Raw, untold};

use crate::making::STRICT;
use anyhow::Result;
use py_buffered::BufferedWriter;
use py_flat::IoFault;
use py_raw::{RawError, RawStream};
use py_text::TextSettings;
use py_textio::TextIOWrapper;
use std::alloc::Global;

/// Space for bytes, as a raw stream that is written: what doesn't fit any more is refused for want of memory.
#[derive(Debug, Drop)]
struct Space {
    bytes: Vec<u8>,
    room: usize,
    closed: bool,
    faults: u64,
}

impl RawStream for Space {
    ghost shows = { λ space. let raw : Raw = record (untold space.faults 0 space.closed false true false) { takes_memory = true } in raw };

    ghost told_length = { λ raw _. Prim.search rules };

    fn unsupported(&mut self) -> RawError {
        self.faults = self.faults.saturating_add(1);
        RawError::Fault
    }

    fn write(&mut self, piece: &[u8]) -> Result<Option<usize>, RawError> {
        if piece.len() > self.room {
            return Err(RawError::Memory);
        }
        match self.bytes.extend_from_slice(piece) {
            Ok(()) => {
                self.room -= piece.len();
                Ok(Some(piece.len()))
            }
            Err(_) => Err(RawError::Memory),
        }
    }

    fn close(&mut self) -> Result<(), RawError> {
        self.closed = true;
        Ok(())
    }

    fn closed(&self) -> bool {
        self.closed
    }

    fn readable(&self) -> bool {
        false
    }

    fn writable(&self) -> bool {
        true
    }

    fn seekable(&self) -> bool {
        false
    }
}

/// A text with line buffering whose buffer finds no memory to pass a line on: it is as though the line had not been written, and the text
/// goes on.
pub(crate) fn starves(alloc: Global) -> Result<String> {
    let mut text = text_into(alloc, 3)?;
    let goes_on = lent_starves(alloc, &mut text);
    let (has, owes) = parts_of(alloc, &mut text)?;
    Ok(format!(in alloc; "starves: {} {has:?} {owes:?}", goes_on?)?)
}

/// A text with line buffering over a writer into space for so many bytes.
fn text_into(alloc: Global, room: usize) -> Result<TextIOWrapper<BufferedWriter<Space>>> {
    let space = Space {
        bytes: Vec::new(alloc),
        room,
        closed: false,
        faults: 0,
    };
    let buffer = BufferedWriter::new(alloc, space, 8192)?;
    let mut settings = TextSettings::default();
    settings.line_buffering = true;
    Ok(TextIOWrapper::new(alloc, buffer, STRICT, settings)?)
}

/// The writing of `starves`, to a text that is lent.
fn lent_starves(
    alloc: Global,
    text: &mut TextIOWrapper<BufferedWriter<Space>>,
) -> Result<bool, IoFault> {
    text.write(alloc, "a\n")?; // the raw has "a\n" now
    let is_starved = text.write(alloc, "b\n") == Err(IoFault::NoMemory); // nothing of it is written
    let is_kept = text.write(alloc, "c") == Ok(1); // the text goes on
    Ok(is_starved && is_kept)
}

/// The bytes of the raw under a text, which is detached, and those that its buffer owes it.
fn parts_of(
    alloc: Global,
    text: &mut TextIOWrapper<BufferedWriter<Space>>,
) -> Result<(Vec<u8>, Vec<u8>), IoFault> {
    match text.detach()?.buffer.into_parts() {
        Some(parts) => Ok((parts.raw.bytes, parts.unwritten)),
        None => Ok((Vec::new(alloc), Vec::new(alloc))),
    }
}

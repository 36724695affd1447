//! Texts over a raw that runs out of memory at one of its calls.
ghost use Rattle.std.proofs.Common.{rules};
ghost use Rattle.std.specs.Prelude.{true, false};
ghost use Rattle.py_raw.specs.RawStream.{Raw, untold};

use crate::writing::Counts;
use anyhow::{Result, anyhow};
use py_buffered::{BufferedKind, BufferedOver, BufferedRandom, BufferedWriter};
use py_flat::{IoFault, Life};
use py_plain::Handler;
use py_plain_text::{PlainSettings, laid};
use py_raw::{GREATEST_PLACE, RawError, RawStream};
use py_text::{Coder, TextSettings};
use py_text_trials::{Came, ENCODINGS, Flat, Piece, RULES, WRITTEN_SAMPLES, pieces_of};
use py_textio::TextIOWrapper;
use std::alloc::{AllocError, Global};

/// The bytes of a raw stream, its place, and how many of its writes and moves there were.
#[derive(Debug, Drop)]
struct Tape {
    bytes: Vec<u8>,
    place: usize,
    calls: usize,
    lacks_at: usize,
}

impl Tape {
    /// Counts a write or a move, and answers whether it finds memory.
    fn finds(&mut self) -> bool {
        let number = self.calls;
        self.calls = self.calls.saturating_add(1);
        number != self.lacks_at
    }

    /// Puts bytes at the place, over those there.
    fn put(&mut self, piece: &[u8]) -> Result<(), AllocError> {
        for byte in piece {
            if self.place < self.bytes.len() {
                self.bytes[self.place] = *byte;
            } else {
                self.bytes.push(*byte)?;
            }
            self.place = self.place.saturating_add(1);
        }
        Ok(())
    }
}

/// A raw stream that is written, at most so many bytes by a transfer, or that is also read and moved; of its writes and moves the one of a
/// number finds no memory.
#[derive(Debug, Drop)]
struct Lacking {
    tape: Tape,
    step: usize,
    reads: bool,
    closed: bool,
    faults: u64,
}

impl RawStream for Lacking {
    ghost shows = { λ raw. let seen : Raw = record (untold raw.faults 0 raw.closed raw.reads true raw.reads) { takes_memory = true } in seen };

    ghost told_length = { λ raw _. Prim.search rules };

    fn unsupported(&mut self) -> RawError {
        self.faults = self.faults.saturating_add(1);
        RawError::Fault
    }

    fn readinto(&mut self, buf: &mut [u8]) -> Result<Option<usize>, RawError> {
        let from = self.tape.place.min(self.tape.bytes.len());
        let count = buf.len().min(self.tape.bytes.len() - from);
        buf[..count].copy_from_slice(&self.tape.bytes[from..from + count]);
        self.tape.place = from + count;
        Ok(Some(count))
    }

    fn write(&mut self, piece: &[u8]) -> Result<Option<usize>, RawError> {
        if !self.tape.finds() {
            return Err(RawError::Memory);
        }
        let count = piece.len().min(self.step.max(1));
        match self.tape.put(&piece[..count]) {
            Ok(()) => Ok(Some(count)),
            Err(_) => Err(RawError::Memory),
        }
    }

    fn seek(&mut self, place: u64) -> Result<(), RawError> {
        if !self.tape.finds() {
            return Err(RawError::Memory);
        }
        self.tape.place = place as usize;
        Ok(())
    }

    fn tell(&mut self) -> Result<u64, RawError> {
        Ok((self.tape.place as u64).min(GREATEST_PLACE))
    }

    fn end(&mut self) -> Result<u64, RawError> {
        Ok((self.tape.bytes.len() as u64).min(GREATEST_PLACE))
    }

    fn close(&mut self) -> Result<(), RawError> {
        self.closed = true;
        Ok(())
    }

    fn closed(&self) -> bool {
        self.closed
    }

    fn readable(&self) -> bool {
        self.reads
    }

    fn writable(&self) -> bool {
        true
    }

    fn seekable(&self) -> bool {
        self.reads
    }
}

/// A text over such a raw.
type Text<K> = TextIOWrapper<BufferedOver<Lacking, K>>;

/// What the raw of a text has that is also read.
const BYTES: &[u8] = b"wx\nz";

/// How many characters the pieces have.
const PIECES: [usize; 3] = [1, 2, 99];

/// A text that is tried: its settings, and which call of its raw finds no memory.
#[derive(Clone, Copy, Debug)]
struct Trial {
    settings: PlainSettings,
    line_buffering: bool,
    write_through: bool,
    chunk_size: usize,
    buffer_size: usize,
    step: usize,
    lacks_at: usize,
    reads: bool,
}

impl Trial {
    fn coder(self) -> Coder {
        Coder {
            encoding: self.settings.encoding,
            errors: self.settings.handler,
        }
    }

    fn text_settings(self) -> TextSettings {
        TextSettings {
            newline: self.settings.newline,
            line_buffering: self.line_buffering,
            write_through: self.write_through,
            chunk_size: self.chunk_size,
        }
    }

    /// The bytes that its raw has.
    fn bytes(self) -> &'static [u8] {
        if self.reads { BYTES } else { b"" }
    }

    /// Its raw.
    fn raw(self, alloc: Global) -> Result<Lacking, AllocError> {
        let tape = Tape {
            bytes: self.bytes().to_vec(alloc)?,
            place: 0,
            calls: 0,
            lacks_at: self.lacks_at,
        };
        Ok(Lacking {
            tape,
            step: self.step,
            reads: self.reads,
            closed: false,
            faults: 0,
        })
    }
}

/// What became of a write.
#[derive(Clone, Copy, Debug, PartialEq, Eq)]
enum Wrote {
    /// It was answered as that of the plain text, if need be once memory was there.
    Same,
    /// Memory ran out, and the text failed.
    Failed,
    Differs,
}

/// Writes a piece to a text and to the plain one. A text that lives after it ran out of memory is as it was, so that it is written again.
fn write<K: BufferedKind>(
    alloc: Global,
    text: &mut Text<K>,
    flat: &mut Flat,
    piece: &Piece,
    counts: &mut Counts,
) -> Wrote {
    let mut answer = text.write(alloc, piece.text.as_str());
    if answer == Err(IoFault::NoMemory) {
        counts.waits = counts.waits.saturating_add(1);
        if text.life() == Life::Failed {
            return match flat.came_of_write(alloc, piece, Err(IoFault::RawFault)) {
                Came::Faulted => Wrote::Failed,
                _ => Wrote::Differs,
            };
        }
        answer = text.write(alloc, piece.text.as_str());
    }
    let is_refused = answer.is_err();
    match flat.came_of_write(alloc, piece, answer) {
        Came::Same => {
            counts.answers = counts.answers.saturating_add(1);
            if is_refused {
                counts.refused = counts.refused.saturating_add(1);
            }
            Wrote::Same
        }
        _ => Wrote::Differs,
    }
}

/// Writes the pieces, and flushes what lives.
fn write_all<K: BufferedKind>(
    alloc: Global,
    text: &mut Text<K>,
    flat: &mut Flat,
    pieces: &[Piece],
    counts: &mut Counts,
) -> Wrote {
    for piece in pieces {
        let wrote = write(alloc, text, flat, piece, counts);
        if wrote != Wrote::Same {
            return wrote;
        }
    }
    let mut flushed = text.flush();
    if flushed == Err(IoFault::NoMemory) && text.life() == Life::Live {
        counts.waits = counts.waits.saturating_add(1);
        flushed = text.flush();
    }
    match flushed {
        Ok(()) => Wrote::Same,
        Err(IoFault::NoMemory) if text.life() == Life::Failed => Wrote::Failed,
        Err(_) => Wrote::Differs,
    }
}

/// Whether what stands once a text is detached is what must stand: the raw has all; of one that failed the raw has some of what was
/// written, and with what the buffer and then the text owe laid behind that it has all.
fn fits<K: BufferedKind>(
    alloc: Global,
    text: &mut Text<K>,
    flat: &Flat,
    wrote: Wrote,
) -> Result<bool> {
    let parts = text.detach()?;
    let Some(under) = parts.buffer.into_parts() else {
        return Ok(false);
    };
    let mut owed = under.unwritten;
    owed.extend_from_slice(&parts.unwritten)?;
    let from = flat.place_of(owed.len());
    let is_all = flat.has(&laid(alloc, &under.raw.tape.bytes, from, &owed)?);
    Ok(match wrote {
        Wrote::Same => owed.is_empty() && is_all,
        Wrote::Failed => !owed.is_empty() && from > 0 && is_all,
        Wrote::Differs => false,
    })
}

/// Writes the pieces, and compares what stands in the end.
fn write_and_fit<K: BufferedKind>(
    alloc: Global,
    text: &mut Text<K>,
    flat: &mut Flat,
    pieces: &[Piece],
    counts: &mut Counts,
) -> Result<bool> {
    let wrote = write_all(alloc, text, flat, pieces, counts);
    if wrote == Wrote::Failed {
        counts.faults = counts.faults.saturating_add(1);
    }
    fits(alloc, text, flat, wrote)
}

/// Reads a text to its end, and goes back to its beginning: where the buffer holds that, its raw stays behind it.
fn read_ahead<K: BufferedKind>(alloc: Global, text: &mut Text<K>) -> Result<(), IoFault> {
    text.read(alloc, None)?;
    if text.seek(alloc, b"", 0).is_err() {
        text.seek(alloc, b"", 0)?; // once memory is there
    }
    Ok(())
}

/// Tries a text.
fn try_one(alloc: Global, trial: Trial, pieces: &[Piece], counts: &mut Counts) -> Result<()> {
    let mut flat = Flat::new(alloc, trial.bytes(), trial.settings)?;
    let raw = trial.raw(alloc)?;
    let (coder, settings) = (trial.coder(), trial.text_settings());
    counts.texts = counts.texts.saturating_add(1);
    let fits = if trial.reads {
        let buffer = BufferedRandom::new(alloc, raw, trial.buffer_size)?;
        let mut text = TextIOWrapper::new(alloc, buffer, coder, settings)?;
        read_ahead(alloc, &mut text)?;
        write_and_fit(alloc, &mut text, &mut flat, pieces, counts)?
    } else {
        let buffer = BufferedWriter::new(alloc, raw, trial.buffer_size)?;
        let mut text = TextIOWrapper::new(alloc, buffer, coder, settings)?;
        write_and_fit(alloc, &mut text, &mut flat, pieces, counts)?
    };
    if fits {
        return Ok(());
    }
    Err(anyhow!("{trial:?} {pieces:?}"))
}

/// Tries the pieces in a setting, by each call that finds no memory.
fn try_setting(
    alloc: Global,
    settings: PlainSettings,
    pieces: &[Piece],
    counts: &mut Counts,
) -> Result<()> {
    for number in 0..96usize {
        let trial = Trial {
            settings,
            line_buffering: number % 2 == 0,
            write_through: number / 2 % 2 == 0,
            chunk_size: 1 + number % 7,
            buffer_size: 1 + number % 5,
            step: if number % 3 == 0 { 100 } else { 1 + number % 3 },
            lacks_at: number / 4 % 8,
            reads: number % 11 < 4,
        };
        try_one(alloc, trial, pieces, counts)?;
    }
    Ok(())
}

/// Writes each text in pieces of each size in each encoding and by each rule, over raws that run out of memory at one of their first calls.
pub(crate) fn starve_each(alloc: Global) -> Result<Counts> {
    let mut counts = Counts::none();
    for sample in WRITTEN_SAMPLES {
        for size in PIECES {
            let pieces = pieces_of(alloc, sample, size)?;
            for encoding in ENCODINGS {
                for newline in RULES {
                    let settings = PlainSettings {
                        encoding,
                        handler: Handler::Strict,
                        newline,
                    };
                    try_setting(alloc, settings, &pieces, &mut counts)?;
                }
            }
        }
    }
    Ok(counts)
}

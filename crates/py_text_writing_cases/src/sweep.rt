//! Texts over raw streams in memory, written by every setting.
ghost use Rattle.std.specs.Prelude.{IfOk};
ghost use Rattle.py_raw_memory.specs.MemRaw.{shown as raw_shown};
ghost use Rattle.py_stream.specs.Opening.{StandsAtStart};

use crate::handed_over::HandsOver;
use crate::runs::{End, GREATEST_CHUNK, Over, Run, Sweep};
use crate::writing::{Counts, finish, hand_over, is_ended, write_all};
use anyhow::{Result, anyhow};
use py_buffered::{BufferedRandom, BufferedWriter};
use py_flat::IoFault;
use py_open::{Access, TextSession};
use py_plain::{Encoding, Handler};
use py_plain_text::PlainSettings;
use py_raw::RawFlags;
use py_raw_memory::MemRaw;
use py_stream::NewRefused;
use py_text::{Coder, TextSettings};
use py_text_trials::{
    Apart, Came, ENCODINGS, Flat, HANDLERS, Piece, RULES, WRITTEN_SAMPLES, failing, pieces_of,
    raw_of, steps,
};
use py_textio::TextIOWrapper;
use std::alloc::{AllocError, Global};

/// How many characters the pieces have.
const PIECES: [usize; 4] = [1, 2, 3, 99];

/// The bytes that are there before a text is written.
const BYTES: &[u8] = b"wx\nz";

/// A text that is tried: its settings, its pieces, and what is varied.
#[derive(Clone, Copy)]
struct Trial<'t> {
    settings: PlainSettings,
    line_buffering: bool,
    write_through: bool,
    pieces: &'t [Piece],
    run: Run,
}

impl Trial<'_> {
    fn coder(self) -> Coder {
        Coder {
            encoding: self.settings.encoding,
            errors: self.settings.handler,
        }
    }

    fn text_settings(self) -> TextSettings {
        TextSettings {
            newline: self.settings.newline,
            line_buffering: self.line_buffering,
            write_through: self.write_through,
            chunk_size: self.run.chunk_size,
        }
    }

    /// A raw that moves as the run says.
    fn raw(self, alloc: Global, flags: RawFlags) -> Result<MemRaw, AllocError>
        ensures { IfOk result (λ raw. StandsAtStart (raw_shown raw)) }
    {
        let run = self.run;
        let plan = steps(alloc, 64, run.step, run.cut_at, run.cut)?;
        raw_of(alloc, BYTES, flags, plan, failing(alloc, run.fault)?)
    }

    /// Whether a text that was taken apart keeps no more than it may: less than a chunk, and nothing with write through; of one that
    /// changed, less than the greatest.
    fn keeps_little(self, apart: &Apart) -> bool {
        if self.run.cut_at.is_some() {
            return true;
        }
        let most = if self.run.changes {
            GREATEST_CHUNK
        } else if self.write_through {
            1
        } else {
            self.run.chunk_size
        };
        apart.unwritten.len() < most
    }

    /// Whether what stands once a text is taken apart is what must stand.
    fn fits(
        self,
        alloc: Global,
        flat: &Flat,
        came: Came,
        apart: &Apart,
    ) -> Result<bool, AllocError> {
        match came {
            Came::Differs => Ok(false),
            Came::Faulted => {
                if self.run.over.reads() && flat.was_held(alloc, apart)? {
                    return Ok(true);
                }
                flat.is_held(alloc, apart)
            }
            Came::Same => Ok(
                apart.owes_nothing()
                    && apart.held.is_closed == (self.run.end == End::Closed)
                    && flat.is_held(alloc, apart)?,
            ),
            Came::Short => Ok(self.keeps_little(apart) && flat.is_held(alloc, apart)?),
        }
    }
}

/// Makes the calls of a trial on a text and on the flat one, and answers what came of its end.
fn try_calls<T: HandsOver>(
    alloc: Global,
    text: &mut T,
    flat: &mut Flat,
    trial: Trial<'_>,
    counts: &mut Counts,
) -> Came {
    let came = write_all(alloc, text, flat, trial.pieces, trial.run, counts);
    let came = if came == Came::Same {
        finish(text, trial.run.end, counts)
    } else {
        came
    };
    if came == Came::Faulted && !is_ended(alloc, text) {
        return Came::Differs;
    }
    came
}

/// Makes the calls of a trial, and takes the text apart, or what a detach hands over.
fn try_text<T: HandsOver>(
    alloc: Global,
    text: T,
    flat: &mut Flat,
    trial: Trial<'_>,
    counts: &mut Counts,
) -> Result<(Came, Apart), AllocError> {
    let mut text = text;
    let came = try_calls(alloc, &mut text, flat, trial, counts);
    match trial.run.end {
        End::Detached => hand_over(alloc, text, came, counts),
        _ => Ok((came, text.take_apart(alloc)?)),
    }
}

/// Tries a text over a writer.
fn over_writer(
    alloc: Global,
    flat: &mut Flat,
    trial: Trial<'_>,
    counts: &mut Counts,
) -> Result<(Came, Apart)> {
    let raw = trial.raw(alloc, RawFlags::able(false, true, true))?;
    let buffer = BufferedWriter::new(alloc, raw, trial.run.buffer_size)?;
    let text = TextIOWrapper::new(alloc, buffer, trial.coder(), trial.text_settings())?;
    Ok(try_text(alloc, text, flat, trial, counts)?)
}

/// Tries a text over a writer that appends.
fn over_appender(
    alloc: Global,
    flat: &mut Flat,
    trial: Trial<'_>,
    counts: &mut Counts,
) -> Result<(Came, Apart)> {
    flat.go_to_end(alloc)?;
    let raw = trial.raw(alloc, RawFlags::able(false, true, true))?;
    let buffer = BufferedWriter::append(alloc, raw, trial.run.buffer_size)?;
    let text = TextIOWrapper::new(alloc, buffer, trial.coder(), trial.text_settings())?;
    Ok(try_text(alloc, text, flat, trial, counts)?)
}

/// Tries a text over a stream that is read and written.
fn over_random(
    alloc: Global,
    flat: &mut Flat,
    trial: Trial<'_>,
    counts: &mut Counts,
) -> Result<(Came, Apart)> {
    let raw = trial.raw(alloc, RawFlags::able(true, true, true))?;
    let buffer = BufferedRandom::new(alloc, raw, trial.run.buffer_size)?;
    let text = TextIOWrapper::new(alloc, buffer, trial.coder(), trial.text_settings())?;
    Ok(try_text(alloc, text, flat, trial, counts)?)
}

/// Tries a session. Its opening may be what the raw fails.
fn over_raw(
    alloc: Global,
    flat: &mut Flat,
    trial: Trial<'_>,
    access: Access,
    counts: &mut Counts,
) -> Result<(Came, Apart)> {
    if access == Access::Append {
        flat.go_to_end(alloc)?;
    }
    let size = trial.run.buffer_size;
    let settings = trial.text_settings();
    let coder = Coder {
        encoding: trial.settings.encoding,
        errors: trial.settings.handler,
    };
    if size == 0 || settings.chunk_size == 0 || coder.errors == Handler::SurrogatePass {
        return Err(anyhow!("a session without room: {:?}", trial.run));
    }
    if access.reads() && !coder.errors.reads_texts() {
        return Err(anyhow!("a session by no handler of readings: {coder:?}"));
    }
    let raw = trial.raw(alloc, RawFlags::able(true, true, true))?;
    match TextSession::new(alloc, raw, access, size, coder, settings) {
        Ok(text) => Ok(try_text(alloc, text, flat, trial, counts)?),
        Err(NewRefused { raw, fault }) => {
            if fault != IoFault::RawFault || raw.fault_count() != 1 {
                return Err(fault.into());
            }
            counts.faults = counts.faults.saturating_add(1);
            Ok((Came::Faulted, Apart::of_raw(alloc, raw)))
        }
    }
}

/// Tries a text, and compares what stands in the end.
fn try_one(alloc: Global, trial: Trial<'_>, counts: &mut Counts) -> Result<bool> {
    let mut flat = Flat::new(alloc, BYTES, trial.settings)?;
    counts.texts = counts.texts.saturating_add(1);
    let (came, apart) = match trial.run.over {
        Over::Writer => over_writer(alloc, &mut flat, trial, counts)?,
        Over::Appender => over_appender(alloc, &mut flat, trial, counts)?,
        Over::Random => over_random(alloc, &mut flat, trial, counts)?,
        Over::Session(access) => over_raw(alloc, &mut flat, trial, access, counts)?,
    };
    Ok(trial.fits(alloc, &flat, came, &apart)?)
}

/// Tries the pieces in a setting, by the runs of a sweep.
fn try_runs(
    alloc: Global,
    settings: PlainSettings,
    pieces: &[Piece],
    which: Sweep,
    counts: &mut Counts,
) -> Result<()> {
    for line_buffering in [false, true] {
        for write_through in [false, true] {
            for number in 0..which.runs() {
                if !which.has(number, pieces.len(), settings.handler) {
                    continue;
                }
                let run = which.run(number, pieces.len());
                let trial = Trial {
                    settings,
                    line_buffering,
                    write_through,
                    pieces,
                    run,
                };
                if !try_one(alloc, trial, counts)? {
                    return Err(anyhow!(
                        "{settings:?} {line_buffering} {write_through} {run:?} {pieces:?}"
                    ));
                }
            }
        }
    }
    Ok(())
}

/// Whether a text of an encoding meets no character that a handler is asked of.
fn has_all(encoding: Encoding) -> bool {
    matches!(
        encoding,
        Encoding::Utf8 | Encoding::Utf16Le | Encoding::Utf16Be
    )
}

/// Tries the pieces in each setting, by the runs of a sweep.
fn try_settings(alloc: Global, pieces: &[Piece], which: Sweep, counts: &mut Counts) -> Result<()> {
    for encoding in ENCODINGS {
        for handler in which.handlers() {
            if has_all(encoding) && which != Sweep::Read && *handler != Handler::Strict {
                continue;
            }
            for newline in RULES {
                let settings = PlainSettings {
                    encoding,
                    handler: *handler,
                    newline,
                };
                try_runs(alloc, settings, pieces, which, counts)?;
            }
        }
    }
    Ok(())
}

/// Writes each text in pieces of each size in each setting, by the runs of a sweep.
pub(crate) fn write_each(alloc: Global, which: Sweep) -> Result<Counts> {
    let mut counts = Counts::none();
    for text in WRITTEN_SAMPLES {
        for size in PIECES {
            let pieces = pieces_of(alloc, text, size)?;
            try_settings(alloc, &pieces, which, &mut counts)?;
        }
    }
    Ok(counts)
}

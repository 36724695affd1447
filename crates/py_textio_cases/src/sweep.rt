//! Texts over raw streams in memory, and over streams in memory, read by every setting.
ghost use Rattle.std.specs.Prelude.{IfOk};
ghost use Rattle.py_raw_memory.specs.MemRaw.{shown as raw_shown};
ghost use Rattle.py_stream.specs.Opening.{StandsAtStart};

use crate::places::{Places, tells_as};
use crate::runs::{Calls, ROUNDS, Run, Sweep};
use crate::samples::CALLS;
use anyhow::{Result, anyhow};
use py_buffered::{BufferedRandom, BufferedReader};
use py_flat::IoFault;
use py_memio::BytesIO;
use py_plain_text::{PlainPlace, PlainSettings, PlainText};
use py_raw::RawFlags;
use py_raw_memory::{Cut, MemRaw};
use py_stream::BufferedStream;
use py_text::{Coder, TextSettings};
use py_text_trials::{Came, ENCODINGS, HANDLERS, RULES, came_of, failing, raw_of, steps};
use py_textio::TextIOWrapper;
use std::alloc::{AllocError, Global};

/// What came of a sweep.
#[derive(Clone, Copy, Debug, PartialEq, Eq)]
pub(crate) struct Counts {
    pub texts: u64,
    pub answers: u64,
    pub short: u64,
    pub faults: u64,
    pub tells: u64,
}

/// Bytes that are read as a text, and what the plain text over them tells.
#[derive(Clone, Copy)]
struct Sample<'s> {
    settings: PlainSettings,
    bytes: &'s [u8],
    places: &'s Places,
}

/// Compares where a text tells that it stands with what the plain text tells at its place, and counts it.
fn tell_beside<B: BufferedStream>(
    text: &mut TextIOWrapper<B>,
    places: &Places,
    place: PlainPlace,
    counts: &mut Counts,
) -> Result<()> {
    if !places.are_asked() {
        return Ok(());
    }
    counts.tells = counts.tells.saturating_add(1);
    let expected = places.at(place);
    if tells_as(text, expected) {
        return Ok(());
    }
    let told = text.tell();
    Err(anyhow!("{told:?} is told, and not {expected:?}"))
}

/// Makes calls on a text and on the plain text, asks the text where it stands behind each, and counts what came.
fn ask_beside<B: BufferedStream>(
    alloc: Global,
    text: &mut TextIOWrapper<B>,
    plain: &mut PlainText,
    places: &Places,
    calls: Calls,
    counts: &mut Counts,
) -> Result<()> {
    for round in 0..ROUNDS {
        let asking = calls.of_round(round);
        let before = plain.place();
        let answer = asking.of(alloc, text);
        let short = text.short();
        match came_of(alloc, plain, asking, answer, short) {
            Came::Same => counts.answers = counts.answers.saturating_add(1),
            Came::Short => counts.short = counts.short.saturating_add(1),
            Came::Faulted => {
                counts.faults = counts.faults.saturating_add(1);
                return match (asking.of(alloc, text), text.tell()) {
                    (Err(IoFault::Failed), Err(IoFault::Failed)) => Ok(()),
                    _ => Err(anyhow!("a text that failed answered")),
                };
            }
            Came::Differs => return Err(anyhow!("round {round}: {asking:?}")),
        }
        let place = plain.place();
        if let Err(error) = tell_beside(text, places, place, counts) {
            return Err(anyhow!("round {round}: {asking:?}: {error}"));
        }
        if calls.end_at(before, place) {
            break;
        }
    }
    Ok(())
}

/// The coder of a setting.
fn coder_of(settings: PlainSettings) -> Coder {
    Coder {
        encoding: settings.encoding,
        errors: settings.handler,
    }
}

/// The settings of a text that is read in chunks of a size.
fn text_settings(settings: PlainSettings, chunk_size: usize) -> TextSettings {
    TextSettings {
        newline: settings.newline,
        line_buffering: false,
        write_through: false,
        chunk_size,
    }
}

/// Makes calls on a text, and on the plain text over the same bytes; both stand at their start.
fn read_beside<B: BufferedStream>(
    alloc: Global,
    sample: Sample<'_>,
    text: &mut TextIOWrapper<B>,
    calls: Calls,
    counts: &mut Counts,
) -> Result<()> {
    let mut plain = PlainText::new(sample.bytes.to_vec(alloc)?, sample.settings);
    counts.texts = counts.texts.saturating_add(1);
    tell_beside(text, sample.places, plain.place(), counts)?;
    ask_beside(alloc, text, &mut plain, sample.places, calls, counts)
}

/// The raw of a run over some bytes.
fn raw_for(alloc: Global, bytes: &[u8], is_written: bool, run: Run) -> Result<MemRaw, AllocError>
    ensures { IfOk result (λ raw. StandsAtStart (raw_shown raw)) }
{
    let flags = RawFlags::able(true, is_written, run.is_seekable);
    let plan = steps(alloc, 64, run.step, run.wait, Cut::Wait)?;
    raw_of(alloc, bytes, flags, plan, failing(alloc, run.fault)?)
}

/// Makes calls on a text over the stream of a sweep.
fn read_over(
    alloc: Global,
    sample: Sample<'_>,
    which: Sweep,
    run: Run,
    calls: Calls,
    counts: &mut Counts,
) -> Result<()> {
    let coder = coder_of(sample.settings);
    let own = text_settings(sample.settings, run.chunk_size);
    match which {
        Sweep::Memory => {
            let buffer = BytesIO::new(alloc, sample.bytes.to_vec(alloc)?);
            let mut text = TextIOWrapper::new(alloc, buffer, coder, own)?;
            read_beside(alloc, sample, &mut text, calls, counts)
        }
        Sweep::ReadWrite => {
            let raw = raw_for(alloc, sample.bytes, true, run)?;
            let buffer = BufferedRandom::new(alloc, raw, run.buffer_size)?;
            let mut text = TextIOWrapper::new(alloc, buffer, coder, own)?;
            read_beside(alloc, sample, &mut text, calls, counts)
        }
        _ => {
            let raw = raw_for(alloc, sample.bytes, false, run)?;
            let buffer = BufferedReader::new(alloc, raw, run.buffer_size)?;
            let mut text = TextIOWrapper::new(alloc, buffer, coder, own)?;
            read_beside(alloc, sample, &mut text, calls, counts)
        }
    }
}

/// Reads a text by the calls of a run of a sweep.
fn read_run(
    alloc: Global,
    sample: Sample<'_>,
    which: Sweep,
    number: usize,
    counts: &mut Counts,
) -> Result<()> {
    let run = which.run(number);
    if let Some(calls) = which.calls(number) {
        return read_over(alloc, sample, which, run, calls, counts);
    }
    for asking in CALLS {
        read_over(alloc, sample, which, run, Calls::Same(asking), counts)?;
    }
    Ok(())
}

/// Reads a text by the runs of a sweep.
fn read_sample(alloc: Global, sample: Sample<'_>, which: Sweep, counts: &mut Counts) -> Result<()> {
    for number in 0..which.runs() {
        if let Err(error) = read_run(alloc, sample, which, number, counts) {
            let Sample {
                settings,
                bytes,
                ..
            } = sample;
            return Err(anyhow!("{settings:?} {which:?} {number} {bytes:?}: {error}"));
        }
    }
    Ok(())
}

/// Reads each text of a sweep by its runs.
fn read_all(
    alloc: Global,
    settings: PlainSettings,
    which: Sweep,
    counts: &mut Counts,
) -> Result<()> {
    for number in 0..which.texts(settings.encoding) {
        let bytes = which.bytes_of(alloc, number)?;
        let places = which.places_of(alloc, settings, &bytes)?;
        let sample = Sample {
            settings,
            bytes: &bytes,
            places: &places,
        };
        read_sample(alloc, sample, which, counts)?;
    }
    Ok(())
}

/// Reads each text of a sweep in each setting.
pub(crate) fn read_each(alloc: Global, which: Sweep) -> Result<Counts> {
    let mut counts = Counts {
        texts: 0,
        answers: 0,
        short: 0,
        faults: 0,
        tells: 0,
    };
    for encoding in ENCODINGS {
        for handler in HANDLERS {
            for newline in RULES {
                let settings = PlainSettings {
                    encoding,
                    handler,
                    newline,
                };
                read_all(alloc, settings, which, &mut counts)?;
            }
        }
    }
    Ok(counts)
}

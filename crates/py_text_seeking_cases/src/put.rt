//! Texts over raw streams in memory, and over streams in memory, that are put at places.
ghost use Rattle.std.specs.Prelude.{IfOk};
ghost use Rattle.py_raw_memory.specs.MemRaw.{shown as raw_shown};
ghost use Rattle.py_stream.specs.Opening.{StandsAtStart};

use crate::forged::seek_forged;
use crate::numbers::Numbers;
use crate::seeking::{Over, Run, STEPS, Seeking};
use crate::steps::{Counts, Step, make_steps};
use anyhow::{Result, anyhow};
use py_buffered::{BufferedRandom, BufferedReader};
use py_memio::BytesIO;
use py_plain_text::{PlainPlace, PlainSettings, PlainText, left};
use py_raw::RawFlags;
use py_raw_memory::{Cut, MemRaw};
use py_stream::BufferedStream;
use py_text::{Coder, TextSettings};
use py_text_trials::{Asking, Came, ENCODINGS, HANDLERS, RULES, TELLING, failing, raw_of};
use py_textio::TextIOWrapper;
use std::alloc::{AllocError, Global};

/// How many texts are put where cookies at random say, eight each: more than a million of these, by whence 0, aren't the told one.
const FORGED: usize = 175_000;

/// How many transfers of a raw go by a plan that waits; past them all is moved.
const TRANSFERS: usize = 100;

/// Which calls are made on a text.
#[derive(Clone, Copy, Debug)]
enum Calls {
    /// For each number of characters from one to another: so many are read, the text is asked where it stands, all is read, the text is
    /// put back, asked and read again, and put at its start.
    Sizes(usize, usize),
    /// Calls in no order, by a number.
    Walk(u64),
    /// Seeks to forged cookies, by a number.
    Forged(u64),
}

/// A text that is tried.
#[derive(Clone, Copy)]
struct Trial<'t> {
    settings: PlainSettings,
    bytes: &'t [u8],
    run: Run,
    calls: Calls,
}

impl Trial<'_> {
    fn coder(self) -> Coder {
        Coder {
            encoding: self.settings.encoding,
            errors: self.settings.handler,
        }
    }

    fn text_settings(self) -> TextSettings {
        TextSettings {
            newline: self.settings.newline,
            line_buffering: false,
            write_through: false,
            chunk_size: self.run.chunk_size,
        }
    }

    /// The transfers of the raw.
    fn plan(self, alloc: Global) -> Result<Vec<Cut>, AllocError> {
        let mut plan = Vec::new(alloc);
        if self.run.wait_each == 0 {
            return Ok(plan);
        }
        for transfer in 0..TRANSFERS {
            if transfer.checked_rem(self.run.wait_each) == Some(0) {
                plan.push(Cut::Wait)?;
            }
            plan.push(Cut::Take(self.run.step))?;
        }
        Ok(plan)
    }

    /// A raw over the bytes.
    fn raw(self, alloc: Global, is_written: bool) -> Result<MemRaw, AllocError>
        ensures { IfOk result (λ raw. StandsAtStart (raw_shown raw)) }
    {
        let flags = RawFlags::able(true, is_written, true);
        let plan = self.plan(alloc)?;
        raw_of(
            alloc,
            self.bytes,
            flags,
            plan,
            failing(alloc, self.run.fault)?,
        )
    }
}

/// Goes to each of some numbers of characters, and back there.
fn go_back<B: BufferedStream>(
    alloc: Global,
    text: &mut TextIOWrapper<B>,
    plain: &mut PlainText,
    first: usize,
    last: usize,
    counts: &mut Counts,
) -> Result<()> {
    for size in first..=last {
        let steps = [
            Step::Read(Asking::Characters(size)),
            Step::Tell,
            Step::Read(Asking::Whole),
            Step::Back,
            Step::Tell,
            Step::Read(Asking::Whole),
            Step::Start,
        ];
        match make_steps(alloc, text, plain, &steps[..], counts) {
            Came::Same => {}
            Came::Faulted => return Ok(()),
            _ => return Err(anyhow!("behind {size} characters")),
        }
    }
    Ok(())
}

/// Makes sixteen calls in no order, and reads all from the start.
fn walk<B: BufferedStream>(
    alloc: Global,
    text: &mut TextIOWrapper<B>,
    plain: &mut PlainText,
    numbers: &mut Numbers,
    counts: &mut Counts,
) -> Result<()> {
    let mut steps = Vec::new(alloc);
    for _ in 0..16 {
        steps.push(STEPS[numbers.next() % STEPS.len()])?;
    }
    steps.push(Step::Start)?;
    steps.push(Step::Read(Asking::Whole))?;
    match make_steps(alloc, text, plain, &steps, counts) {
        Came::Same | Came::Faulted => Ok(()),
        _ => Err(anyhow!("{steps:?}")),
    }
}

/// Makes the calls of a trial on a text, and on the plain text over the same bytes; both stand at their start.
fn try_calls<B: BufferedStream>(
    alloc: Global,
    text: &mut TextIOWrapper<B>,
    trial: Trial<'_>,
    counts: &mut Counts,
) -> Result<()> {
    let mut plain = PlainText::new(trial.bytes.to_vec(alloc)?, trial.settings);
    counts.texts = counts.texts.saturating_add(1);
    match trial.calls {
        Calls::Sizes(first, last) => go_back(alloc, text, &mut plain, first, last, counts),
        Calls::Walk(seed) => walk(
            alloc,
            text,
            &mut plain,
            &mut Numbers::from_seed(seed),
            counts,
        ),
        Calls::Forged(seed) => seek_forged(
            alloc,
            text,
            &mut plain,
            &mut Numbers::from_seed(seed),
            counts,
        ),
    }
}

/// Makes the calls of a trial on a text over its stream.
fn try_over(alloc: Global, trial: Trial<'_>, counts: &mut Counts) -> Result<()> {
    let coder = trial.coder();
    let own = trial.text_settings();
    match trial.run.over {
        Over::Memory => {
            let buffer = BytesIO::new(alloc, trial.bytes.to_vec(alloc)?);
            let mut text = TextIOWrapper::new(alloc, buffer, coder, own)?;
            try_calls(alloc, &mut text, trial, counts)
        }
        Over::Random => {
            let buffer = BufferedRandom::new(
                alloc,
                trial.raw(alloc, true)?,
                trial.run.buffer_size,
            )?;
            let mut text = TextIOWrapper::new(alloc, buffer, coder, own)?;
            try_calls(alloc, &mut text, trial, counts)
        }
        Over::Reader => {
            let buffer = BufferedReader::new(
                alloc,
                trial.raw(alloc, false)?,
                trial.run.buffer_size,
            )?;
            let mut text = TextIOWrapper::new(alloc, buffer, coder, own)?;
            try_calls(alloc, &mut text, trial, counts)
        }
    }
}

/// Makes the calls of a trial, and names it where one is answered otherwise.
fn try_one(alloc: Global, trial: Trial<'_>, counts: &mut Counts) -> Result<()> {
    match try_over(alloc, trial, counts) {
        Ok(()) => Ok(()),
        Err(error) => {
            let Trial {
                settings,
                bytes,
                run,
                calls,
            } = trial;
            Err(anyhow!("{settings:?} {bytes:?} {run:?} {calls:?}: {error}"))
        }
    }
}

/// How many characters the plain text gives, up to its end or a range that is refused.
fn length_of(alloc: Global, settings: PlainSettings, bytes: &[u8]) -> Result<usize, AllocError> {
    let whole = left(alloc, settings, bytes, &PlainPlace::clean_at(0), true)?;
    Ok(whole.characters.len())
}

/// Tries a text by a run: each number of its characters by a text of its own where the raw fails, and one that it doesn't have.
fn try_run(
    alloc: Global,
    settings: PlainSettings,
    bytes: &[u8],
    which: Seeking,
    run: Run,
    counts: &mut Counts,
) -> Result<()> {
    let mut trial = Trial {
        settings,
        bytes,
        run,
        calls: Calls::Walk(counts.texts),
    };
    if which.walks() {
        return try_one(alloc, trial, counts);
    }
    let length = length_of(alloc, settings, bytes)?.saturating_add(1);
    if run.fault.is_none() {
        trial.calls = Calls::Sizes(0, length);
        return try_one(alloc, trial, counts);
    }
    for size in 0..=length {
        trial.calls = Calls::Sizes(size, size);
        try_one(alloc, trial, counts)?;
    }
    Ok(())
}

/// Tries each text in a setting.
fn try_texts(
    alloc: Global,
    settings: PlainSettings,
    which: Seeking,
    counts: &mut Counts,
) -> Result<()> {
    for number in 0..which.texts() {
        let bytes = which.bytes_of(alloc, number)?;
        for run in 0..which.runs(settings.encoding, number) {
            try_run(alloc, settings, &bytes, which, which.run(run), counts)?;
        }
    }
    Ok(())
}

/// Tries each text in each setting.
pub(crate) fn put_each(alloc: Global, which: Seeking) -> Result<Counts> {
    let mut counts = Counts::none();
    for encoding in ENCODINGS {
        for handler in HANDLERS {
            for newline in RULES {
                let settings = PlainSettings {
                    encoding,
                    handler,
                    newline,
                };
                try_texts(alloc, settings, which, &mut counts)?;
            }
        }
    }
    Ok(counts)
}

/// A string of one to six of the telling bytes.
fn any_telling(alloc: Global, numbers: &mut Numbers) -> Result<Vec<u8>, AllocError> {
    let mut bytes = Vec::new(alloc);
    for _ in 0..1 + numbers.next() % 6 {
        bytes.push(TELLING[numbers.next() % TELLING.len()])?;
    }
    Ok(bytes)
}

/// Settings in no order, mostly by a handler of which several characters stand for a byte.
fn any_settings(numbers: &mut Numbers) -> PlainSettings {
    let number = numbers.next() % 10;
    PlainSettings {
        encoding: ENCODINGS[numbers.next() % ENCODINGS.len()],
        handler: HANDLERS[if number < 5 { number } else { 3 + number % 2 }],
        newline: RULES[numbers.next() % RULES.len()],
    }
}

/// A run in no order, of a raw that moves all.
fn any_run(numbers: &mut Numbers) -> Run {
    Run {
        over: if numbers.next() % 2 == 0 {
            Over::Reader
        } else {
            Over::Memory
        },
        step: 100,
        wait_each: 0,
        fault: None,
        chunk_size: 1 + numbers.next() % 5,
        buffer_size: 1 + numbers.next() % 4,
    }
}

/// Puts texts where forged cookies say.
pub(crate) fn put_by_forged(alloc: Global) -> Result<Counts> {
    let mut counts = Counts::none();
    let mut numbers = Numbers::from_seed(1);
    for _ in 0..FORGED {
        let settings = any_settings(&mut numbers);
        let bytes = any_telling(alloc, &mut numbers)?;
        let run = any_run(&mut numbers);
        let trial = Trial {
            settings,
            bytes: &bytes,
            run,
            calls: Calls::Forged(numbers.next() as u64),
        };
        try_one(alloc, trial, &mut counts)?;
    }
    Ok(counts)
}

//! Calls that are made on a text and on the plain one, which are put at places too.
use py_flat::IoFault;
use py_plain_text::{PlainText, TextIOCookie};
use py_stream::BufferedStream;
use py_text_trials::{Asking, Came, came_of};
use py_textio::TextIOWrapper;
use std::alloc::{AllocError, Global};

/// How often a call is made whose raw would block.
const ROUNDS: usize = 200;

/// A call.
#[derive(Clone, Copy, Debug)]
pub(crate) enum Step {
    Read(Asking),
    Write(&'static str),
    /// Asks where the text stands, and keeps the cookie.
    Tell,
    /// Goes to the start of the bytes.
    Start,
    /// Goes to the cookie that was told last.
    Back,
    /// Goes to where the text stands.
    Here,
    /// Goes to the end of the bytes.
    End,
}

/// What came of texts that were put at places.
#[derive(Clone, Copy, Debug, PartialEq, Eq)]
pub(crate) struct Counts {
    pub texts: u64,
    /// Readings and writes that were answered as those of the plain text, refused ones too.
    pub answers: u64,
    pub tells: u64,
    /// Seeks that were answered with a cookie.
    pub seeks: u64,
    /// Of these, those that skip characters.
    pub inside: u64,
    /// Seeks to other cookies than the told one.
    pub forged: u64,
    /// Seeks whose arguments were refused.
    pub invalid: u64,
    /// Seeks whose skipped characters aren't those of one range there.
    pub unfit: u64,
    /// Calls in which the raw would have blocked: readings, writes, and seeks.
    pub waits: u64,
    pub waits_of_seeks: u64,
    /// Calls in which the raw failed.
    pub faults: u64,
}

impl Counts {
    pub(crate) fn none() -> Counts {
        Counts {
            texts: 0,
            answers: 0,
            tells: 0,
            seeks: 0,
            inside: 0,
            forged: 0,
            invalid: 0,
            unfit: 0,
            waits: 0,
            waits_of_seeks: 0,
            faults: 0,
        }
    }

    /// Counts a seek to a cookie that was forged.
    pub(crate) fn count_forged(&mut self) {
        self.forged = self.forged.saturating_add(1);
    }

    /// Counts a reading or a write.
    fn count(&mut self, came: Came) {
        match came {
            Came::Same => self.answers = self.answers.saturating_add(1),
            Came::Short => self.waits = self.waits.saturating_add(1),
            Came::Faulted => self.faults = self.faults.saturating_add(1),
            Came::Differs => {}
        }
    }

    /// Counts a seek that the plain text answers so, too.
    fn count_seek(&mut self, answer: Result<TextIOCookie, IoFault>) {
        match answer {
            Ok(cookie) => {
                self.seeks = self.seeks.saturating_add(1);
                if cookie.chars_to_skip != 0 {
                    self.inside = self.inside.saturating_add(1);
                }
            }
            Err(IoFault::CannotRestore) => self.unfit = self.unfit.saturating_add(1),
            Err(_) => self.invalid = self.invalid.saturating_add(1),
        }
    }
}

/// Reads from both, again where the raw would have blocked.
pub(crate) fn read<B: BufferedStream>(
    alloc: Global,
    text: &mut TextIOWrapper<B>,
    plain: &mut PlainText,
    asking: Asking,
    counts: &mut Counts,
) -> Came {
    for _ in 0..ROUNDS {
        let answer = asking.of(alloc, text);
        let short = text.short();
        let came = came_of(alloc, plain, asking, answer, short);
        counts.count(came);
        if came != Came::Short {
            return came;
        }
    }
    Came::Differs
}

/// The characters of a text as a list.
fn characters_of(alloc: Global, text: &str) -> Result<Vec<char>, AllocError> {
    let mut characters = Vec::new(alloc);
    for character in text.chars() {
        characters.push(character)?;
    }
    Ok(characters)
}

/// Writes to both. Where the raw would have blocked, as many bytes were taken as the plain text has more.
fn write<B: BufferedStream>(
    alloc: Global,
    text: &mut TextIOWrapper<B>,
    plain: &mut PlainText,
    piece: &str,
    counts: &mut Counts,
) -> Came {
    let Ok(characters) = characters_of(alloc, piece) else {
        return Came::Differs;
    };
    let answer = text.write(alloc, piece);
    let before = plain.place().at;
    let expected = plain.write(alloc, &characters);
    let bytes = plain.place().at.saturating_sub(before);
    let came = match (answer, expected) {
        (Err(IoFault::WouldBlock { taken }), Ok(_)) if taken == bytes as u64 => Came::Short,
        (Err(IoFault::RawFault), Ok(_)) => Came::Faulted,
        (Ok(count), Ok(expected)) if count == expected => Came::Same,
        (Err(fault), Err(expected)) if fault == expected => Came::Same,
        _ => Came::Differs,
    };
    counts.count(came);
    if came == Came::Short {
        Came::Same
    } else {
        came
    }
}

/// Asks both where they stand; none where one tells another place, or none.
pub(crate) fn tell<B: BufferedStream>(
    alloc: Global,
    text: &mut TextIOWrapper<B>,
    plain: &PlainText,
    counts: &mut Counts,
) -> Option<TextIOCookie> {
    let told = text.tell().ok()?;
    let expected = plain.tell(alloc).ok()?;
    if told != expected {
        return None;
    }
    counts.tells = counts.tells.saturating_add(1);
    Some(told)
}

/// The cookie of the byte to which a seek goes before it skips characters.
fn start_of(cookie: &[u8], whence: i32, told: TextIOCookie) -> Option<TextIOCookie> {
    let sought = match whence {
        0 => TextIOCookie::parse(cookie)?,
        _ => told,
    };
    Some(TextIOCookie {
        start_pos: sought.start_pos,
        ..TextIOCookie::default()
    })
}

/// Whether a text stands where it may once a seek waited: where it stood, or clean at the cookie's start, to which the plain text is put
/// then.
fn waits_in_place<B: BufferedStream>(
    alloc: Global,
    text: &mut TextIOWrapper<B>,
    plain: &mut PlainText,
    cookie: &[u8],
    whence: i32,
) -> Option<()> {
    let told = text.tell().ok()?;
    let stood = plain.tell(alloc).ok()?;
    if told == stood {
        return Some(());
    }
    let start = start_of(cookie, whence, stood)?;
    let bytes = start.build()?;
    plain.seek(alloc, &bytes[..], 0).ok()?;
    (told == start).then_some(())
}

/// Puts both where a cookie says, again where the raw would have blocked.
pub(crate) fn seek<B: BufferedStream>(
    alloc: Global,
    text: &mut TextIOWrapper<B>,
    plain: &mut PlainText,
    cookie: &[u8],
    whence: i32,
    counts: &mut Counts,
) -> Came {
    for _ in 0..ROUNDS {
        let answer = text.seek(alloc, cookie, whence);
        let short = text.short();
        match answer {
            Err(IoFault::WouldBlock { taken: 0 }) if short => {
                counts.waits_of_seeks = counts.waits_of_seeks.saturating_add(1);
                if waits_in_place(alloc, text, plain, cookie, whence).is_none() {
                    return Came::Differs;
                }
            }
            Err(IoFault::RawFault) => {
                counts.faults = counts.faults.saturating_add(1);
                return Came::Faulted;
            }
            answer => {
                let expected = plain.seek(alloc, cookie, i64::from(whence));
                if short || answer != expected {
                    return Came::Differs;
                }
                counts.count_seek(answer);
                return Came::Same;
            }
        }
    }
    Came::Differs
}

/// Makes a call on both; `kept` is the cookie that was told last.
fn make_step<B: BufferedStream>(
    alloc: Global,
    text: &mut TextIOWrapper<B>,
    plain: &mut PlainText,
    step: Step,
    kept: &mut [u8; 25],
    counts: &mut Counts,
) -> Came {
    match step {
        Step::Read(asking) => read(alloc, text, plain, asking, counts),
        Step::Write(piece) => write(alloc, text, plain, piece, counts),
        Step::Tell => match tell(alloc, text, plain, counts) {
            Some(cookie) => {
                *kept = cookie.build().unwrap_or([0xFF; 25]);
                Came::Same
            }
            None => Came::Differs,
        },
        Step::Start => seek(alloc, text, plain, &[], 0, counts),
        Step::Back => seek(alloc, text, plain, &kept[..], 0, counts),
        Step::Here => seek(alloc, text, plain, &[], 1, counts),
        Step::End => seek(alloc, text, plain, &[], 2, counts),
    }
}

/// Whether a text that the raw failed refuses calls so.
fn is_failed<B: BufferedStream>(alloc: Global, text: &mut TextIOWrapper<B>) -> bool {
    text.seek(alloc, &[], 0) == Err(IoFault::Failed) && text.tell() == Err(IoFault::Failed)
}

/// Makes calls on both, up to one that the raw fails, or that is answered otherwise.
pub(crate) fn make_steps<B: BufferedStream>(
    alloc: Global,
    text: &mut TextIOWrapper<B>,
    plain: &mut PlainText,
    steps: &[Step],
    counts: &mut Counts,
) -> Came {
    let mut kept = [0; 25];
    for step in steps {
        let came = make_step(alloc, text, plain, *step, &mut kept, counts);
        if came == Came::Faulted && !is_failed(alloc, text) {
            return Came::Differs;
        }
        if came != Came::Same {
            return came;
        }
    }
    Came::Same
}

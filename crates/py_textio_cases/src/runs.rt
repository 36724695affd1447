//! What is read in a sweep, by which calls, over which raws.
use crate::places::Places;
use crate::samples::{BLOCK, CALLS, FILLER};
use py_flat::IoFault;
use py_plain_text::{PlainPlace, PlainSettings};
use py_text::Encoding;
use py_text_trials::{Asking, SAMPLES, telling};
use std::alloc::{AllocError, Global};

/// How many calls are made on each text.
pub(crate) const ROUNDS: usize = 24;

/// How many strings of at most three of the telling bytes there are.
const STRINGS: usize = 585;

/// How many of at most four.
const LONGER_STRINGS: usize = 4681;

/// How many characters are read at once of a sample that is told behind ASCII: of UTF-16 its half, up to behind a block, and all.
const BEHIND: [usize; 2] = [35, 69];

/// What is varied besides the settings.
#[derive(Clone, Copy, Debug, PartialEq, Eq)]
pub(crate) enum Sweep {
    /// Chunks of 1 to 9 bytes and buffers of 1 to 5, over a raw that moves a byte at a time, and one that moves all.
    Sizes,
    /// A raw that would block before one of its first twelve transfers, read in chunks of each size from 1 to 9 bytes.
    Waits,
    /// A raw of which one of the first eight calls fails, read in chunks of each of these sizes.
    Faults,
    /// Every call in turn, from each of them on, in chunks of each of these sizes, over a raw that moves one to three bytes at a time and
    /// would block before one of its first seven transfers.
    Mixed,
    /// The same, through a stream that is written too.
    ReadWrite,
    /// The same, of a stream in memory, which never blocks.
    Memory,
    /// Lines, of each sample over and over, behind some ASCII each time, in one chunk: of more bytes than are decoded at once for a
    /// short line.
    Long,
    /// All strings of at most three telling bytes, of UTF-8 four, by characters and by lines, in chunks of 1 byte and in one; and by
    /// characters over a raw that can't be moved.
    Telling,
    /// Each sample behind more ASCII than is looked at at once to tell a place: a number of characters at first, and then one by one, in
    /// one chunk and in two.
    Behind,
}

/// Which calls are made on a text.
#[derive(Clone, Copy, Debug)]
pub(crate) enum Calls {
    /// One call, over and over.
    Same(Asking),
    /// Every call in turn, from the one of a number on.
    EachFrom(usize),
    /// One call, until nothing more comes.
    Until(Asking),
    /// So many characters, and then one by one, until nothing more comes.
    Behind(usize),
}

impl Calls {
    /// The call of a round.
    pub(crate) fn of_round(self, round: usize) -> Asking {
        match self {
            Calls::Same(asking) | Calls::Until(asking) => asking,
            Calls::EachFrom(first) => CALLS[first.wrapping_add(round) % CALLS.len()],
            Calls::Behind(size) if round == 0 => Asking::Characters(size),
            Calls::Behind(_) => Asking::Characters(1),
        }
    }

    /// Whether no more calls are made behind one that led from one place to another.
    pub(crate) fn end_at(self, before: PlainPlace, place: PlainPlace) -> bool {
        matches!(self, Calls::Until(_) | Calls::Behind(_)) && before == place
    }
}

/// A text that is read: what the raw does, and the sizes of chunk and buffer.
#[derive(Clone, Copy, Debug)]
pub(crate) struct Run {
    /// Bytes of each transfer.
    pub step: u32,
    /// The transfer before which the raw would block.
    pub wait: Option<usize>,
    /// The call that fails.
    pub fault: Option<u64>,
    pub chunk_size: usize,
    pub buffer_size: usize,
    pub is_seekable: bool,
}

impl Sweep {
    pub(crate) fn name(self) -> &'static str {
        match self {
            Sweep::Sizes => "sizes",
            Sweep::Waits => "waits",
            Sweep::Faults => "faults",
            Sweep::Mixed => "mixed",
            Sweep::ReadWrite => "mixed, through a stream that is written too",
            Sweep::Memory => "mixed, in memory",
            Sweep::Long => "long",
            Sweep::Telling => "telling",
            Sweep::Behind => "telling behind ASCII",
        }
    }

    /// How many texts are read in an encoding.
    pub(crate) fn texts(self, encoding: Encoding) -> usize {
        match self {
            Sweep::Telling if encoding == Encoding::Utf8 => LONGER_STRINGS,
            Sweep::Telling => STRINGS,
            _ => SAMPLES.len(),
        }
    }

    /// The bytes of a text by its number.
    pub(crate) fn bytes_of(self, alloc: Global, number: usize) -> Result<Vec<u8>, AllocError> {
        if self == Sweep::Telling {
            return telling(alloc, number);
        }
        let sample = SAMPLES[number % SAMPLES.len()];
        let mut bytes = Vec::new(alloc);
        match self {
            Sweep::Long => {
                for _ in 0..ROUNDS {
                    bytes.extend_from_slice(&FILLER)?;
                    bytes.extend_from_slice(sample)?;
                }
            }
            Sweep::Behind => {
                bytes.extend_from_slice(&BLOCK)?;
                bytes.extend_from_slice(sample)?;
            }
            _ => bytes.extend_from_slice(sample)?,
        }
        Ok(bytes)
    }

    /// What the plain text over some bytes tells at each of its places; long ones aren't asked, which would take it too long, nor those
    /// of `Waits`, which are many: texts that wait are told by `Mixed`.
    pub(crate) fn places_of(
        self,
        alloc: Global,
        settings: PlainSettings,
        bytes: &[u8],
    ) -> Result<Places, IoFault> {
        if matches!(self, Sweep::Long | Sweep::Waits) {
            return Ok(Places::unasked(alloc));
        }
        match bytes.to_vec(alloc) {
            Ok(bytes) => Places::of(alloc, settings, bytes),
            Err(_) => Err(IoFault::NoMemory),
        }
    }

    /// How many runs there are of a setting and a text.
    pub(crate) fn runs(self) -> usize {
        match self {
            Sweep::Sizes => 18,
            Sweep::Waits => 108,
            Sweep::Faults => 72,
            Sweep::Mixed | Sweep::ReadWrite | Sweep::Memory => 54,
            Sweep::Long => 1,
            Sweep::Telling => 5,
            Sweep::Behind => 8,
        }
    }

    /// The calls of a run by its number; none where there is a text for each call.
    pub(crate) fn calls(self, number: usize) -> Option<Calls> {
        match self {
            Sweep::Sizes | Sweep::Waits | Sweep::Faults => None,
            Sweep::Mixed | Sweep::ReadWrite | Sweep::Memory => Some(Calls::EachFrom(number / 9)),
            Sweep::Long => Some(Calls::Same(Asking::Line)),
            Sweep::Telling if number / 2 == 1 => Some(Calls::Until(Asking::Line)),
            Sweep::Telling => Some(Calls::Until(Asking::Characters(1))),
            Sweep::Behind => Some(Calls::Behind(BEHIND[number % BEHIND.len()])),
        }
    }

    /// A run by its number.
    pub(crate) fn run(self, number: usize) -> Run {
        match self {
            Sweep::Sizes => Run {
                step: if number < 9 { 1 } else { 100 },
                wait: None,
                fault: None,
                chunk_size: 1 + number % 9,
                buffer_size: 1 + number % 5,
                is_seekable: true,
            },
            Sweep::Waits => Run {
                step: 2,
                wait: Some(number / 9),
                fault: None,
                chunk_size: 1 + number % 9,
                buffer_size: 3,
                is_seekable: true,
            },
            Sweep::Faults => Run {
                step: 3,
                wait: None,
                fault: Some((number as u64 / 9).saturating_add(1)),
                chunk_size: 1 + number % 9,
                buffer_size: 2,
                is_seekable: true,
            },
            Sweep::Mixed | Sweep::ReadWrite | Sweep::Memory => Run {
                step: (1 + number % 3) as u32,
                wait: Some(number % 7),
                fault: None,
                chunk_size: 1 + number % 9,
                buffer_size: 1 + number % 5,
                is_seekable: true,
            },
            Sweep::Long => Run {
                step: 8192,
                wait: None,
                fault: None,
                chunk_size: 8192,
                buffer_size: 8192,
                is_seekable: true,
            },
            Sweep::Telling => Run {
                step: 4,
                wait: None,
                fault: None,
                chunk_size: if number % 2 == 0 { 1 } else { 8192 },
                buffer_size: 4,
                is_seekable: number < 4,
            },
            Sweep::Behind => Run {
                step: 200,
                wait: None,
                fault: None,
                chunk_size: if number < 4 { 8192 } else { 72 },
                buffer_size: 200,
                is_seekable: true,
            },
        }
    }
}

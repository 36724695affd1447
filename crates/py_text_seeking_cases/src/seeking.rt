//! What is varied of texts that are put at places.
use crate::steps::Step;
use py_text::Encoding;
use py_text_trials::{Asking, SAMPLES, telling};
use std::alloc::{AllocError, Global};

/// How many strings of at most four of the telling bytes there are.
const STRINGS: usize = 4681;

/// How many of at most three.
const SHORTER_STRINGS: usize = 585;

/// The calls of a walk.
pub(crate) const STEPS: [Step; 24] = [
    Step::Read(Asking::Characters(1)),
    Step::Read(Asking::Characters(1)),
    Step::Read(Asking::Characters(2)),
    Step::Read(Asking::Line),
    Step::Read(Asking::LineOf(2)),
    Step::Read(Asking::Whole),
    Step::Write("x"),
    Step::Write("a\nb"),
    Step::Write("\u{e9}\r"),
    Step::Write(""),
    Step::Tell,
    Step::Tell,
    Step::Tell,
    Step::Tell,
    Step::Back,
    Step::Back,
    Step::Back,
    Step::Start,
    Step::Start,
    Step::Here,
    Step::Here,
    Step::Here,
    Step::End,
    Step::End,
];

/// What is varied besides the settings.
#[derive(Clone, Copy, Debug, PartialEq, Eq)]
pub(crate) enum Seeking {
    /// All strings of at most four telling bytes in chunks of 1 byte, and in chunks of 3 those of at most three, of UTF-8 four: each is
    /// read up to each of its characters, asked where it stands, read on, put back there, and read on again.
    Back,
    /// Each sample so, over a raw that would block before each transfer, before every second or every third.
    Waits,
    /// Each sample so, from the start for each of its characters, over a raw of which one of the first twelve calls fails.
    Faults,
    /// Walks: calls in no order over a stream in memory, which is written too.
    Written,
    /// Walks through a stream that is read and written, over a raw that would block before each transfer, or every second or third.
    WrittenWaits,
    /// Walks through a stream that is read and written, over a raw of which one of the first sixteen calls fails.
    WrittenFaults,
}

/// Which stream a text is over.
#[derive(Clone, Copy, Debug, PartialEq, Eq)]
pub(crate) enum Over {
    Reader,
    Random,
    Memory,
}

/// What a raw does, and the sizes of chunk and buffer.
#[derive(Clone, Copy, Debug)]
pub(crate) struct Run {
    pub over: Over,
    /// Most bytes of each transfer.
    pub step: u32,
    /// Before each of so many transfers one would block; before none where it is 0.
    pub wait_each: usize,
    /// The call that fails.
    pub fault: Option<u64>,
    pub chunk_size: usize,
    pub buffer_size: usize,
}

impl Seeking {
    pub(crate) fn name(self) -> &'static str {
        match self {
            Seeking::Back => "put back",
            Seeking::Waits => "put back, with waits",
            Seeking::Faults => "put back, with faults",
            Seeking::Written => "walks in memory",
            Seeking::WrittenWaits => "walks, with waits",
            Seeking::WrittenFaults => "walks, with faults",
        }
    }

    /// How many texts there are.
    pub(crate) fn texts(self) -> usize {
        match self {
            Seeking::Back => STRINGS,
            _ => SAMPLES.len(),
        }
    }

    /// The bytes of a text by its number.
    pub(crate) fn bytes_of(self, alloc: Global, number: usize) -> Result<Vec<u8>, AllocError> {
        match self {
            Seeking::Back => telling(alloc, number),
            _ => SAMPLES[number % SAMPLES.len()].to_vec(alloc),
        }
    }

    /// Whether calls are made in no order.
    pub(crate) fn walks(self) -> bool {
        matches!(
            self,
            Seeking::Written | Seeking::WrittenWaits | Seeking::WrittenFaults
        )
    }

    /// How many runs there are of a text by its number.
    pub(crate) fn runs(self, encoding: Encoding, text: usize) -> usize {
        match self {
            Seeking::Back if encoding == Encoding::Utf8 || text < SHORTER_STRINGS => 2,
            Seeking::Back => 1,
            Seeking::Waits | Seeking::WrittenWaits => 6,
            Seeking::Faults => 12,
            Seeking::Written => 8,
            Seeking::WrittenFaults => 16,
        }
    }

    /// The stream under a text.
    fn over(self) -> Over {
        match self {
            Seeking::Written => Over::Memory,
            Seeking::WrittenWaits | Seeking::WrittenFaults => Over::Random,
            _ => Over::Reader,
        }
    }

    /// A run by its number.
    pub(crate) fn run(self, number: usize) -> Run {
        let is_waiting = matches!(self, Seeking::Waits | Seeking::WrittenWaits);
        let is_failing = matches!(self, Seeking::Faults | Seeking::WrittenFaults);
        Run {
            over: self.over(),
            step: if self == Seeking::Back { 4 } else { 2 },
            wait_each: if is_waiting { 1 + number / 2 % 3 } else { 0 },
            fault: is_failing.then_some((number as u64).saturating_add(1)),
            chunk_size: if number % 2 == 0 { 1 } else { 3 },
            buffer_size: if self == Seeking::Back { 4 } else { 3 },
        }
    }
}

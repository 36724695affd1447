//! What is varied of a text.
use py_open::Access;
use py_plain::Handler;
use py_raw_memory::Cut;
use py_text_trials::{Asking, HANDLERS};

/// What is varied besides the settings.
#[derive(Clone, Copy, Debug, PartialEq, Eq)]
pub(crate) enum Sweep {
    /// Chunks of 1 to 9 bytes and buffers of 1 to 5, over a raw that moves a byte at a time, and one that moves all.
    Sizes,
    /// The same of texts that append.
    Appended,
    /// A raw that would block before one of its first 12 transfers.
    Waits,
    /// A raw of which one of the calls after its opening fails, or that breaks off a transfer.
    Faults,
    /// Texts that are read between their writes, over all of these raws.
    Read,
    /// Sessions that write, append, or also read, over all of these raws.
    Sessions,
    /// Texts whose chunks, line buffering and write through change between their writes, over all of these raws.
    Changed,
}

/// How a text ends.
#[derive(Clone, Copy, Debug, PartialEq, Eq)]
pub(crate) enum End {
    /// It is taken apart as it stands.
    Apart,
    /// It is flushed before.
    Flushed,
    /// It is closed before.
    Closed,
    /// It is handed over by a detach, of a text that failed too.
    Detached,
}

/// Which stream a text is over.
#[derive(Clone, Copy, Debug, PartialEq, Eq)]
pub(crate) enum Over {
    Writer,
    Appender,
    Random,
    /// A session, over a raw.
    Session(Access),
}

/// A text that is written: what it is over, what its raw does, the sizes of chunk and buffer, what is read between the writes, and its end.
#[derive(Clone, Copy, Debug)]
pub(crate) struct Run {
    pub over: Over,
    /// Most bytes of each transfer.
    pub step: u32,
    /// What is made of one more transfer, before the one of that number.
    pub cut: Cut,
    pub cut_at: Option<usize>,
    /// The call that fails.
    pub fault: Option<u64>,
    pub chunk_size: usize,
    pub buffer_size: usize,
    /// Which readings are made between the writes, where the stream is read.
    pub readings: usize,
    /// Whether it has other sizes and settings behind each piece.
    pub changes: bool,
    pub end: End,
}

/// No chunk has more bytes.
pub(crate) const GREATEST_CHUNK: usize = 9;

/// The handlers that texts are written by.
const WRITING: [Handler; 6] = [
    Handler::Strict,
    Handler::Ignore,
    Handler::Replace,
    Handler::BackslashReplace,
    Handler::SurrogateEscape,
    Handler::XmlCharRefReplace,
];

const ENDS: [End; 4] = [End::Apart, End::Flushed, End::Closed, End::Detached];

/// A run by its number of 18: a raw that moves a byte at a time, and one that moves all.
fn by_sizes(number: usize) -> Run {
    Run {
        over: Over::Writer,
        step: if number < 9 { 1 } else { 100 },
        cut: Cut::Wait,
        cut_at: None,
        fault: None,
        chunk_size: 1 + number % 9,
        buffer_size: 1 + number % 5,
        readings: 0,
        changes: false,
        end: End::Apart,
    }
}

/// A run by its number of 12: the transfer before which the raw would block.
fn by_wait(number: usize) -> Run {
    Run {
        step: 2,
        cut_at: Some(number),
        chunk_size: 1 + number % 4,
        buffer_size: 3,
        ..by_sizes(0)
    }
}

/// A run by its number of 16: the call that fails, or the transfer that breaks off, after at most two bytes.
fn by_fault(number: usize) -> Run {
    if number < 8 {
        return Run {
            step: 3,
            fault: Some((number as u64).saturating_add(1)),
            chunk_size: 1 + number % 3,
            buffer_size: 2,
            ..by_sizes(0)
        };
    }
    Run {
        step: 3,
        cut: Cut::Break((number % 3) as u32),
        cut_at: Some(number - 8),
        chunk_size: 1 + number % 3,
        buffer_size: 2,
        ..by_sizes(0)
    }
}

/// A run by its number of 46: those of all three.
fn by_all(number: usize) -> Run {
    if number < 18 {
        return by_sizes(number);
    }
    if number < 30 {
        return by_wait(number - 18);
    }
    by_fault(number - 30)
}

impl Sweep {
    pub fn name(self) -> &'static str {
        match self {
            Sweep::Sizes => "sizes",
            Sweep::Appended => "appended",
            Sweep::Waits => "waits",
            Sweep::Faults => "faults",
            Sweep::Read => "read",
            Sweep::Sessions => "sessions",
            Sweep::Changed => "changed",
        }
    }

    /// How many runs there are of a setting and a text.
    pub fn runs(self) -> usize {
        match self {
            Sweep::Sizes | Sweep::Appended => 18,
            Sweep::Waits => 12,
            Sweep::Faults => 16,
            Sweep::Read | Sweep::Changed => 46,
            Sweep::Sessions => 138,
        }
    }

    /// The handlers of its texts: all that write, or those that also read.
    pub fn handlers(self) -> &'static [Handler] {
        match self {
            Sweep::Read => &HANDLERS,
            Sweep::Changed => &[Handler::Strict],
            _ => &WRITING,
        }
    }

    /// Whether it has a run of a number by a handler, of texts of a turn. Sessions by another one than strict, and texts that change, have a
    /// fifth of their runs, texts of other turns others, and none that reads by a handler that no text is read by.
    pub fn has(self, number: usize, turn: usize, handler: Handler) -> bool {
        if self == Sweep::Changed {
            return number.wrapping_add(turn) % 5 == 0;
        }
        if self != Sweep::Sessions || handler == Handler::Strict {
            return true;
        }
        let is_read = self.over(number).reads();
        number.wrapping_add(turn) % 5 == 0 && (!is_read || handler.reads_texts())
    }

    /// A run by its number. Texts of other turns have other ends and readings.
    pub fn run(self, number: usize, turn: usize) -> Run {
        let run = match self {
            Sweep::Sizes | Sweep::Appended => by_sizes(number),
            Sweep::Waits => by_wait(number),
            Sweep::Faults => by_fault(number),
            Sweep::Read | Sweep::Changed => by_all(number),
            Sweep::Sessions => by_all(number % 46),
        };
        let turned = number.wrapping_add(turn);
        Run {
            over: self.over(number),
            end: ENDS[turned % ENDS.len()],
            readings: turned / ENDS.len() % 3,
            changes: self == Sweep::Changed,
            ..run
        }
    }

    /// What its text of a number is over.
    fn over(self, number: usize) -> Over {
        match self {
            Sweep::Sessions => Over::Session(match number / 46 {
                0 => Access::Write,
                1 => Access::Append,
                _ => Access::Update,
            }),
            Sweep::Appended => Over::Appender,
            Sweep::Read => Over::Random,
            Sweep::Changed => match number % 3 {
                0 => Over::Random,
                1 => Over::Session(Access::Update),
                _ => Over::Writer,
            },
            _ => Over::Writer,
        }
    }
}

impl Over {
    /// Whether it is read, too.
    pub fn reads(self) -> bool {
        matches!(self, Over::Random | Over::Session(Access::Update))
    }
}

impl Run {
    /// What is read behind the piece of a number.
    pub fn reading(self, number: usize) -> Option<Asking> {
        if !self.over.reads() {
            return None;
        }
        match (self.readings, number % 4) {
            (0, 1) => Some(Asking::Whole),
            (1, 0) => Some(Asking::LineOf(2)),
            (1, 2) => Some(Asking::Whole),
            (2, 0) => Some(Asking::Characters(0)),
            (2, 1) => Some(Asking::Whole),
            (2, 3) => Some(Asking::Line),
            _ => None,
        }
    }
}

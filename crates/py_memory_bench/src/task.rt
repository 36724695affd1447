use crate::filled::{Stream, lines_of_bytes, lines_of_text};
use py_bench::Counts;
use py_memio::{BytesIO, IoFault, StringIO};
use std::alloc::Global;

/// What a write writes, and a line of a text: 10 bytes, which are 10 characters.
pub(crate) const SHORT: &str = "nine char\n";

/// How much a stream is asked for at once by `Pieces`.
const PIECE: usize = 65536;

/// What is timed.
#[derive(Clone, Copy, Debug, PartialEq, Eq)]
pub(crate) enum Task {
    /// Bytes are appended by short writes, as many as are asked for.
    Writes,
    /// Lines of bytes are read one by one.
    Lines,
    /// Lines of bytes are read piece by piece.
    Pieces,
    /// Short texts are appended, as many as are asked for.
    Appends,
    /// Short lines of a text are read one by one.
    TextLines,
}

impl Task {
    pub(crate) fn from_word(word: &str) -> Option<Self> {
        match word {
            "writes" => Some(Task::Writes),
            "lines" => Some(Task::Lines),
            "pieces" => Some(Task::Pieces),
            "appends" => Some(Task::Appends),
            "text-lines" => Some(Task::TextLines),
            _ => None,
        }
    }

    /// The stream that a task goes over.
    pub(crate) fn prepare(self, alloc: Global, count: u32) -> Result<Stream, IoFault> {
        match self {
            Task::Writes => Ok(Stream::Bytes(BytesIO::new(alloc, Vec::new(alloc)))),
            Task::Lines | Task::Pieces => lines_of_bytes(alloc, count),
            Task::Appends => Ok(Stream::Text(StringIO::new(alloc, "")?)),
            Task::TextLines => lines_of_text(alloc, count),
        }
    }

    /// Does a task over its stream, and counts what came.
    pub(crate) fn run(
        self,
        alloc: Global,
        count: u32,
        stream: &mut Stream,
    ) -> Result<Counts, IoFault> {
        match (self, stream) {
            (Task::Writes, Stream::Bytes(bytes)) => write_bytes(count, bytes),
            (Task::Pieces, Stream::Bytes(bytes)) => read_pieces(alloc, bytes),
            (_, Stream::Bytes(bytes)) => read_lines(alloc, bytes),
            (Task::Appends, Stream::Text(text)) => write_texts(count, text),
            (_, Stream::Text(text)) => read_text_lines(alloc, text),
        }
    }
}

/// Makes short writes of bytes.
fn write_bytes(count: u32, stream: &mut BytesIO) -> Result<Counts, IoFault> {
    let mut units = 0u64;
    for _ in 0..count {
        units = units.saturating_add(stream.write(SHORT.as_bytes())? as u64);
    }
    Ok(Counts {
        answers: count as u64,
        units,
    })
}

/// Makes short writes of texts.
fn write_texts(count: u32, stream: &mut StringIO) -> Result<Counts, IoFault> {
    let mut units = 0u64;
    for _ in 0..count {
        units = units.saturating_add(stream.write(SHORT)? as u64);
    }
    Ok(Counts {
        answers: count as u64,
        units,
    })
}

/// Reads piece by piece to the end.
fn read_pieces(alloc: Global, stream: &mut BytesIO) -> Result<Counts, IoFault> {
    let mut counts = Counts::new();
    for _ in 0..u64::MAX {
        let bytes = stream.read(alloc, Some(PIECE))?;
        if bytes.is_empty() {
            break;
        }
        counts.add(bytes.len());
    }
    Ok(counts)
}

/// Reads line by line to the end.
fn read_lines(alloc: Global, stream: &mut BytesIO) -> Result<Counts, IoFault> {
    let mut counts = Counts::new();
    for _ in 0..u64::MAX {
        let bytes = stream.readline(alloc, None)?;
        if bytes.is_empty() {
            break;
        }
        counts.add(bytes.len());
    }
    Ok(counts)
}

/// Reads a text line by line to its end; its characters are of ASCII, a byte each.
fn read_text_lines(alloc: Global, stream: &mut StringIO) -> Result<Counts, IoFault> {
    let mut counts = Counts::new();
    for _ in 0..u64::MAX {
        let line = stream.readline(alloc, None)?;
        if line.is_empty() {
            break;
        }
        counts.add(line.len());
    }
    Ok(counts)
}

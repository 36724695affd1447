use py_bench::Counts;
use py_flat::IoFault;
use py_stream::BufferedStream;
use py_text::Newlines;
use py_textio::TextIOWrapper;
use std::alloc::{AllocError, Global};

/// Lines of 10 characters, all of ASCII.
const ASCII: [&str; 5] = [
    "plain tex\n",
    "t to the \n",
    "end of a \n",
    "line, and\n",
    " the next\n",
];

/// Lines of 10 characters, of one to four bytes each.
const MIXED: [&str; 5] = [
    "größer al\n",
    "s früher:\n",
    " 5 € für \n",
    "日本語, прям\n",
    "о 😀 und w\n",
];

/// How often the lines are written: 2,000,000 writes.
const TIMES: u32 = 400_000;

/// How often the lines stand in a piece: 1,000,000 characters.
const TIMES_IN_PIECE: u32 = 20_000;

/// How often a piece is written: 99.4 MB of the mixed characters.
const PIECES: u32 = 71;

/// What is written: each line by a write of its own, as it stands or with CR LF for its LF, or many lines by one write.
#[derive(Clone, Copy, Debug, PartialEq, Eq)]
pub(crate) enum Writing {
    AsciiLines,
    MixedLines,
    AsciiCrlf,
    MixedCrlf,
    MixedPieces,
}

impl Writing {
    /// What an LF is written as.
    pub(crate) fn newline(self) -> Newlines {
        match self {
            Writing::AsciiCrlf | Writing::MixedCrlf => Newlines::Crlf,
            _ => Newlines::Lf,
        }
    }

    /// Writes all, flushes and closes, and counts the writes and the characters that were taken.
    pub(crate) fn run<B: BufferedStream>(
        self,
        alloc: Global,
        piece: &str,
        text: &mut TextIOWrapper<B>,
    ) -> Result<Counts, IoFault> {
        let counts = match self {
            Writing::AsciiLines | Writing::AsciiCrlf => write_over(alloc, &ASCII, TIMES, text)?,
            Writing::MixedLines | Writing::MixedCrlf => write_over(alloc, &MIXED, TIMES, text)?,
            Writing::MixedPieces => write_over(alloc, &[piece], PIECES, text)?,
        };
        text.flush()?;
        text.close()?;
        Ok(counts)
    }
}

/// Writes some texts one after the other, so many times over.
fn write_over<B: BufferedStream>(
    alloc: Global,
    texts: &[&str],
    times: u32,
    text: &mut TextIOWrapper<B>,
) -> Result<Counts, IoFault> {
    let mut counts = Counts::new();
    for _ in 0..times {
        for written in texts {
            counts.add(text.write(alloc, written)?);
        }
    }
    Ok(counts)
}

/// The mixed lines over and over, as one text.
pub(crate) fn mixed_piece(alloc: Global) -> Result<String, AllocError> {
    let mut piece = String::new(alloc);
    for _ in 0..TIMES_IN_PIECE {
        for line in MIXED {
            piece.push_str(line)?;
        }
    }
    Ok(piece)
}

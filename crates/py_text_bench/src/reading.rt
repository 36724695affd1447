use crate::sought::read_sought;
use py_bench::Counts;
use py_flat::IoFault;
use py_stream::BufferedStream;
use py_textio::TextIOWrapper;
use std::alloc::Global;

/// How many characters are asked for at once by `Pieces`.
const PIECE: usize = 4096;

/// How a text is read.
#[derive(Clone, Copy, Debug, PartialEq, Eq)]
pub(crate) enum Reading {
    Whole,
    Lines,
    Pieces,
    /// Lines, and after each of them where the text stands.
    Told,
    /// Lines in no order, each once a cookie put the text there.
    Sought,
}

impl Reading {
    /// Reads to the end, and counts the answers that aren't empty, and their bytes; where it is told, the places.
    pub(crate) fn run<B: BufferedStream>(
        self,
        alloc: Global,
        text: &mut TextIOWrapper<B>,
    ) -> Result<Counts, IoFault> {
        if self == Reading::Sought {
            return read_sought(alloc, text);
        }
        let mut counts = Counts::new();
        for _ in 0..u64::MAX {
            let answer = match self {
                Reading::Whole => text.read(alloc, None)?,
                Reading::Pieces => text.read(alloc, Some(PIECE))?,
                _ => text.readline(alloc, None)?,
            };
            let Some(answer) = answer else {
                continue;
            };
            if answer.is_empty() {
                break;
            }
            counts.add(match self {
                Reading::Told => text.tell()?.start_pos.unsigned_abs() as usize,
                _ => answer.len(),
            });
        }
        Ok(counts)
    }
}

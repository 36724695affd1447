//! Streams under a text, and what stands once both are taken apart.
use py_buffered::{BufferedRandom, BufferedReader, BufferedWriter};
use py_flat::IoFault;
use py_memio::BytesIO;
use py_plain_text::laid;
use py_raw::RawStream;
use py_raw_memory::MemRaw;
use py_stream::{BufferedStream, Detached};
use py_textio::{TextDetached, TextIOWrapper};
use std::alloc::{AllocError, Global};

/// What a stream under a text comes to.
#[derive(Debug, Drop)]
pub struct Held {
    /// The bytes of the raw, or of a stream in memory; none of a stream that hands nothing out.
    pub raw: Option<Vec<u8>>,
    pub is_closed: bool,
    /// The bytes that the stream owes, and where they begin.
    pub owed: Vec<u8>,
    pub owed_at: Option<u64>,
}

/// What a text and the stream under it come to.
#[derive(Debug, Drop)]
pub struct Apart {
    pub held: Held,
    /// The bytes that the text owes the stream, and where they begin.
    pub unwritten: Vec<u8>,
    pub at: Option<u64>,
}

/// A stream that a text is tried over.
pub trait Under: BufferedStream + Drop {
    /// What it comes to.
    fn take_apart(self, alloc: Global) -> Result<Held, AllocError>;
}

impl Held {
    /// What is left of a stream that was handed back before.
    fn nothing(alloc: Global) -> Held {
        Held {
            raw: None,
            is_closed: false,
            owed: Vec::new(alloc),
            owed_at: None,
        }
    }
}

/// What a buffered stream hands back.
fn handed_back(alloc: Global, parts: Option<Detached<MemRaw>>) -> Held {
    match parts {
        Some(parts) => Held {
            is_closed: parts.raw.closed(),
            raw: Some(parts.raw.into_bytes()),
            owed: parts.unwritten,
            owed_at: parts.place,
        },
        None => Held::nothing(alloc),
    }
}

impl Under for BufferedWriter<MemRaw> {
    fn take_apart(self, alloc: Global) -> Result<Held, AllocError> {
        Ok(handed_back(alloc, self.into_parts()))
    }
}

impl Under for BufferedRandom<MemRaw> {
    fn take_apart(self, alloc: Global) -> Result<Held, AllocError> {
        Ok(handed_back(alloc, self.into_parts()))
    }
}

impl Under for BufferedReader<MemRaw> {
    fn take_apart(self, alloc: Global) -> Result<Held, AllocError> {
        Ok(handed_back(alloc, self.into_parts()))
    }
}

impl Under for BytesIO {
    fn take_apart(self, alloc: Global) -> Result<Held, AllocError> {
        let raw = match self.getvalue(alloc) {
            Ok(bytes) => Some(bytes),
            Err(IoFault::NoMemory) => return Err(AllocError),
            Err(_) => None,
        };
        Ok(Held {
            raw,
            is_closed: self.closed(),
            owed: Vec::new(alloc),
            owed_at: None,
        })
    }
}

/// Takes a text apart, and the stream under it; of a detached one nothing is left.
pub fn take_text_apart<B: Under>(
    alloc: Global,
    text: TextIOWrapper<B>,
) -> Result<Apart, AllocError> {
    match text.into_parts() {
        Some(parts) => take_parts_apart(alloc, parts),
        None => Ok(Apart {
            held: Held::nothing(alloc),
            unwritten: Vec::new(alloc),
            at: None,
        }),
    }
}

/// Takes the stream apart that a text handed back.
pub fn take_parts_apart<B: Under>(
    alloc: Global,
    parts: TextDetached<B>,
) -> Result<Apart, AllocError> {
    let TextDetached {
        buffer,
        unwritten,
        place,
    } = parts;
    Ok(Apart {
        held: buffer.take_apart(alloc)?,
        unwritten,
        at: place,
    })
}

/// Some bytes with others laid at a place, where there is one, else behind them.
fn laid_at(
    alloc: Global,
    bytes: &[u8],
    place: Option<u64>,
    more: &[u8],
) -> Result<Vec<u8>, AllocError> {
    let place = match place {
        Some(place) => place as usize,
        None => bytes.len(),
    };
    laid(alloc, bytes, place, more)
}

impl Apart {
    /// A raw over which nothing was opened.
    pub fn of_raw(alloc: Global, raw: MemRaw) -> Apart {
        Apart {
            held: Held {
                is_closed: raw.closed(),
                raw: Some(raw.into_bytes()),
                owed: Vec::new(alloc),
                owed_at: None,
            },
            unwritten: Vec::new(alloc),
            at: None,
        }
    }

    /// The bytes of the raw, with those laid on that the stream owes, and then those that the text owes.
    pub fn all(&self, alloc: Global) -> Result<Vec<u8>, AllocError> {
        let raw = match &self.held.raw {
            Some(raw) => raw.as_slice(),
            None => &[],
        };
        let owed = laid_at(alloc, raw, self.held.owed_at, &self.held.owed)?;
        laid_at(alloc, &owed, self.at, &self.unwritten)
    }

    /// The place behind what the text owes; none where the stream can't be moved.
    pub fn end(&self) -> Option<u64> {
        self.at?.checked_add(self.unwritten.len() as u64)
    }

    /// Whether nothing is owed.
    pub fn owes_nothing(&self) -> bool {
        self.held.owed.is_empty() && self.unwritten.is_empty()
    }

    /// Whether what the text owes begins where what the stream owes ends.
    pub fn is_joined(&self) -> bool {
        if self.held.owed.is_empty() || self.unwritten.is_empty() {
            return true;
        }
        match (self.held.owed_at, self.at) {
            (Some(owed_at), Some(at)) => owed_at.checked_add(self.held.owed.len() as u64)
                == Some(at),
            (owed_at, at) => owed_at == at,
        }
    }
}

//! Texts and sessions that are handed over by a detach.
use crate::runs::GREATEST_CHUNK;
use py_flat::IoFault;
use py_open::{Reconfigure, TextSession, TextUnwritten};
use py_raw_memory::MemRaw;
use py_text_trials::{Apart, Held, Tried, Under, take_parts_apart};
use py_textio::TextIOWrapper;
use std::alloc::Global;

/// A text that is tried up to a detach.
pub(crate) trait HandsOver: Tried {
    /// Detaches it, and takes apart what that hands over: of a session all but the raw.
    fn hand_over(&mut self, alloc: Global) -> Result<Apart, IoFault>;

    /// Has chunks of so many bytes, and other settings.
    fn change(&mut self, chunk_size: usize, changes: Reconfigure) -> Result<(), IoFault>;
}

/// The chunk size and the settings of a text behind the piece of a number.
pub(crate) fn changed(number: usize) -> (usize, Reconfigure) {
    let mut changes = Reconfigure::default();
    changes.line_buffering = Some(number % 2 == 0);
    changes.write_through = Some(number % 3 == 0);
    (1 + number.wrapping_mul(5) % GREATEST_CHUNK, changes)
}

impl<B: Under> HandsOver for TextIOWrapper<B> {
    fn hand_over(&mut self, alloc: Global) -> Result<Apart, IoFault> {
        let parts = self.detach()?;
        Ok(take_parts_apart(alloc, parts)?)
    }

    fn change(&mut self, chunk_size: usize, changes: Reconfigure) -> Result<(), IoFault> {
        self.set_chunksize(chunk_size)?;
        self.reconfigure(changes)
    }
}

impl HandsOver for TextSession<MemRaw> {
    fn hand_over(&mut self, alloc: Global) -> Result<Apart, IoFault> {
        let TextUnwritten { bytes, place } = self.detach()?;
        let end = match place {
            Some(place) => place.checked_add(bytes.len() as u64),
            None => None,
        };
        Ok(Apart {
            held: Held {
                raw: None,
                is_closed: false,
                owed: bytes,
                owed_at: place,
            },
            unwritten: Vec::new(alloc),
            at: end,
        })
    }

    fn change(&mut self, chunk_size: usize, changes: Reconfigure) -> Result<(), IoFault> {
        self.set_chunksize(chunk_size)?;
        self.reconfigure(changes)
    }
}

/// What was handed over, with the raw where that stayed with the text.
pub(crate) fn with_raw(handed: Apart, rest: Apart) -> Apart {
    let mut handed = handed;
    let mut rest = rest;
    if handed.held.raw.is_none() {
        handed.held.raw = rest.held.raw.take();
        handed.held.is_closed = rest.held.is_closed;
    }
    handed
}

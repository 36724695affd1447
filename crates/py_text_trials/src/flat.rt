//! What a text is compared with: the plain slow text, and its bytes as a list.
use crate::apart::Apart;
use crate::asking::Asking;
use crate::beside::{Came, came_of};
use crate::pieces::Piece;
use py_flat::IoFault;
use py_plain::encode;
use py_plain_text::{PlainSettings, PlainText, laid, written};
use std::alloc::{AllocError, Global};
use std::mem;

/// A plain text, and where it stands: the same bytes as a list, and those before the last write.
#[derive(Debug, Drop)]
pub struct Flat {
    plain: PlainText,
    settings: PlainSettings,
    bytes: Vec<u8>,
    place: usize,
    bytes_before: Vec<u8>,
    place_before: usize,
}

impl Flat {
    /// A text of these bytes at its beginning.
    pub fn new(alloc: Global, bytes: &[u8], settings: PlainSettings) -> Result<Flat, AllocError> {
        Ok(Flat {
            plain: PlainText::new(bytes.to_vec(alloc)?, settings),
            settings,
            bytes: bytes.to_vec(alloc)?,
            place: 0,
            bytes_before: bytes.to_vec(alloc)?,
            place_before: 0,
        })
    }

    /// The bytes that some characters are written as.
    fn bytes_of(&self, alloc: Global, characters: &[char]) -> Result<Vec<u8>, AllocError> {
        let PlainSettings {
            encoding,
            handler,
            newline,
        } = self.settings;
        let characters = written(alloc, newline, characters)?;
        Ok(encode(alloc, encoding, handler, &characters)?.bytes)
    }

    /// Writes a piece, and answers how many characters and bytes it has.
    fn write(&mut self, alloc: Global, piece: &Piece) -> Result<(usize, usize), IoFault> {
        let count = self.plain.write(alloc, &piece.characters)?;
        let bytes = self.bytes_of(alloc, &piece.characters)?;
        let after = laid(alloc, &self.bytes, self.place, &bytes)?;
        self.bytes_before = mem::replace(&mut self.bytes, after);
        self.place_before = self.place;
        self.place = self.place.saturating_add(bytes.len());
        Ok((count, bytes.len()))
    }

    /// What came of a write, which is made here too. Where the raw would have blocked, as many bytes were taken as the piece has.
    pub fn came_of_write(
        &mut self,
        alloc: Global,
        piece: &Piece,
        answer: Result<usize, IoFault>,
    ) -> Came {
        let plain = self.write(alloc, piece);
        match (answer, plain) {
            (Ok(count), Ok((expected, _))) if count == expected => Came::Same,
            (Err(IoFault::WouldBlock { taken }), Ok((_, bytes))) if taken == bytes as u64 => {
                Came::Short
            }
            (Err(IoFault::RawFault), Ok(_)) => Came::Faulted,
            (Err(fault), Err(expected)) if fault == expected => Came::Same,
            _ => Came::Differs,
        }
    }

    /// What came of a reading, which is made here too. One of all that came to the end stands there.
    pub fn came_of_reading(
        &mut self,
        alloc: Global,
        asking: Asking,
        answer: Result<Option<String>, IoFault>,
        short: bool,
    ) -> Came {
        let is_answered = answer.is_ok();
        let came = came_of(alloc, &mut self.plain, asking, answer, short);
        if asking == Asking::Whole && is_answered && came == Came::Same {
            self.place = self.place.max(self.bytes.len());
        }
        came
    }

    /// Goes to the end, as a text that appends begins there.
    pub fn go_to_end(&mut self, alloc: Global) -> Result<(), IoFault> {
        self.plain.read(alloc, None)?;
        self.place = self.bytes.len();
        Ok(())
    }

    /// The place of the first of so many bytes up to where it stands.
    pub fn place_of(&self, count: usize) -> usize {
        self.place.saturating_sub(count)
    }

    /// Whether these are its bytes.
    pub fn has(&self, bytes: &[u8]) -> bool {
        bytes == self.bytes.as_slice()
    }

    /// Whether what stands once a text is taken apart is these bytes.
    pub fn is_held(&self, alloc: Global, apart: &Apart) -> Result<bool, AllocError> {
        Ok(apart.is_joined() && apart.all(alloc)?.as_slice() == self.bytes.as_slice())
    }

    /// Whether what stands is what stood before the last write, as where the raw failed before any of it was taken.
    pub fn was_held(&self, alloc: Global, apart: &Apart) -> Result<bool, AllocError> {
        Ok(
            apart.end() == Some(self.place_before as u64)
                && apart.is_joined()
                && apart.all(alloc)?.as_slice() == self.bytes_before.as_slice(),
        )
    }
}

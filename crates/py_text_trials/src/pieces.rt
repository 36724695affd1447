//! The texts that are written, cut into pieces.
use std::alloc::{AllocError, Global};
use std::mem;

/// Texts that are written: line ends of each kind, alone, cut, and at the front and the end; characters of one to four bytes; characters
/// that ascii and latin-1 lack, alone and in runs, between line ends too; and a line that is longer than each buffer and chunk.
pub const WRITTEN_SAMPLES: [&str; 6] = [
    "",
    "a\r\nb\rc\nd",
    "\n\r\r\n\n",
    "\u{e9}\n\u{20ac}\r\n\u{1f600}",
    "a\u{ff}\u{100}\n\u{101}\u{1f600}b",
    "a line of more than each buffer\r\nb",
];

/// A piece of a text.
#[derive(Debug, Drop)]
pub struct Piece {
    /// Its text.
    pub text: String,
    /// The characters of that text.
    pub characters: Vec<char>,
}

impl Piece {
    fn empty(alloc: Global) -> Piece {
        Piece {
            text: String::new(alloc),
            characters: Vec::new(alloc),
        }
    }

    fn push(&mut self, character: char) -> Result<(), AllocError> {
        self.text.push(character)?;
        self.characters.push(character)?;
        Ok(())
    }
}

/// A text cut into pieces of so many characters, of which the last may have fewer; of no characters one empty piece.
pub fn pieces_of(alloc: Global, text: &str, size: usize) -> Result<Vec<Piece>, AllocError> {
    let mut pieces = Vec::new(alloc);
    let mut piece = Piece::empty(alloc);
    for character in text.chars() {
        if piece.characters.len() == size {
            pieces.push(mem::replace(&mut piece, Piece::empty(alloc)))?;
        }
        piece.push(character)?;
    }
    pieces.push(piece)?;
    Ok(pieces)
}

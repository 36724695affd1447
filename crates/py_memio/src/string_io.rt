//! A stream of characters in memory.
ghost use Rattle.std.specs.Prelude.{◌≡◌, false, chars, IfOk, IfErr};
ghost use Rattle.py_flat.specs.declared.fault.IoFault.TheVariants as fault;
ghost use Rattle.py_flat.specs.ExactStep.{is_closed};
ghost use Rattle.py_memio.specs.InMemory.{file_in_memory};

mod moving;
mod reading;
mod writing;

use crate::characters::characters_of;
use py_flat::IoFault;
use std::alloc::Global;
use std::marker::Model;

/// Characters in memory that are read and written as a stream: Python's `io.StringIO`.
///
/// Places, sizes and counts are characters. A line ends at LF, and no text is rewritten. Contracts see the flat file, whose items
/// are the characters.
#[derive(Debug, Drop)]
pub struct StringIO {
    characters: Vec<char>,
    place: u64,
    closed: bool,
}

// A function's proof knows the invariant where the function uses a field: so some begin with `let _ = &self.characters;`.
impl Model for StringIO {
    ghost use Rattle.std.specs.Prelude.{◌≤◌};
    ghost use Rattle.py_flat.specs.FlatFile.{FlatFile};
    ghost use Rattle.py_flat.specs.Limits.{greatest_place};
    ghost use Rattle.py_memio.specs.InMemory.{file_in_memory};

    ghost Value = { FlatFile };

    ghost view = { λ s. file_in_memory s.characters.items s.place s.closed };

    ghost invariant = { λ s. s.place ≤ greatest_place };
}

impl StringIO {
    /// A live stream of the characters of a text, at its start. `NoMemory`: there is none for them.
    pub fn new(alloc: Global, text: &str) -> Result<Self, IoFault>
        ensures file { IfOk result (λ stream. stream ≡ file_in_memory (chars text.now) 0 false) }
        ensures err { IfErr result (λ why. why ≡ fault.NoMemory) }
    {
        let characters = characters_of(alloc, text)?;
        Ok(StringIO {
            characters,
            place: 0,
            closed: false,
        })
    }

    /// Whether the stream is closed.
    pub fn closed(&self) -> bool
        ensures { result ≡ is_closed self.now.life }
    {
        self.closed
    }

    /// Whether it can be read: always.
    pub fn readable(&self) -> bool
        ensures { result ≡ self.now.can.readable }
    {
        let _ = &self.characters;
        true
    }

    /// Whether it can be written: always.
    pub fn writable(&self) -> bool
        ensures { result ≡ self.now.can.writable }
    {
        let _ = &self.characters;
        true
    }

    /// Whether it can be moved: always.
    pub fn seekable(&self) -> bool
        ensures { result ≡ self.now.can.seekable }
    {
        let _ = &self.characters;
        true
    }
}

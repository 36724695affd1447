//! The bytes of a stream, lent to be written.
ghost use Rattle.std.specs.Borrow.{sem};
ghost use Rattle.std.specs.Prelude.{◌≡◌};
ghost use Rattle.py_memio.specs.LendingOut.{stream_of, bytes_of, WritesBytes, MayLend, StaysUnlessLent};
ghost use Rattle.py_memio.specs.BytesIO.{use_refusal};

use super::BytesIO;
use crate::Export;
use py_flat::IoFault;

/// The bytes that an export of a stream lends, to be written: as many as the stream has. What is written there is in the stream once they
/// come back, of which nothing else changes. Contracts see the borrowed stream (`stream_of`).
#[derive(Debug, Drop)]
pub struct LentBytes<'a> {
    stream: &'a mut BytesIO,
}

impl LentBytes<'_> {
    /// The bytes.
    pub fn as_slice(&self) -> &[u8]
        ensures { result.now ≡ bytes_of self.now }
    {
        self.stream.lent_bytes()
    }

    /// The bytes, to be written.
    pub fn as_mut_slice(&mut self) -> &mut [u8]
        ensures* writes_back { sem 𝓛 (WritesBytes self.entry result) }
        ensures value { result.now ≡ bytes_of self.old }
    {
        self.stream.bytes_mut()
    }
}

impl BytesIO {
    /// The bytes that an export lends, to be written; they keep their number. `BadArgument`: that number isn't out; the stream then stays
    /// as it was. It takes no memory.
    pub fn export_bytes_mut(&mut self, export: Export) -> Result<LentBytes<'_>, IoFault>
        ensures* unchanged { sem 𝓛 (StaysUnlessLent self.entry result) }
        ensures answer { MayLend (use_refusal self.old export.0) self.entry result }
    {
        self.place_of(export)?;
        Ok(LentBytes { stream: self })
    }
}

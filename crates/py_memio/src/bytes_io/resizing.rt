//! A stream whose length may change.
ghost use Rattle.std.specs.Prelude.{◌≡◌, ◌-◌};
ghost use Rattle.std.specs.Borrow.{sem};
ghost use Rattle.py_flat.specs.Calls.{Write, Truncate};
ghost use Rattle.py_stream.specs.Replies.{count_reply, place_reply};
ghost use Rattle.py_memio.specs.InMemory.{AnswersInMemory};
ghost use Rattle.py_memio.specs.BytesIO.{is_lent, resize_refusal};
ghost use Rattle.py_memio.specs.Resizing.{stream_of, IsSameBorrow, MayResize, MayResizeIf, StaysIfRefused, StaysIfNone};

use super::BytesIO;
use py_flat::IoFault;

/// A `BytesIO` that is open and has no export out, so that its length may change. Contracts see the borrowed stream
/// (`stream_of`), which ends as it was left.
#[derive(Debug, Drop)]
pub struct Resizable<'a> {
    stream: &'a mut BytesIO,
}

impl<'a> Resizable<'a> {
    /// `write` of the stream.
    pub fn write(&mut self, bytes: &[u8]) -> Result<usize, IoFault>
        ensures answer { AnswersInMemory (is_lent (stream_of self.old)) (stream_of self.old).file (Write bytes.now) (count_reply result) (stream_of self.new).file }
        ensures exports { (stream_of self.new).exports ≡ (stream_of self.old).exports }
        ensures taken { (stream_of self.new).taken ≡ (stream_of self.new).file.place - (stream_of self.old).file.place }
        ensures borrow { IsSameBorrow self.old self.new }
    {
        self.stream.write(bytes)
    }

    /// `truncate` of the stream.
    pub fn truncate(&mut self, size: Option<u64>) -> Result<u64, IoFault>
        ensures answer { AnswersInMemory (is_lent (stream_of self.old)) (stream_of self.old).file (Truncate size) (place_reply result) (stream_of self.new).file }
        ensures exports { (stream_of self.new).exports ≡ (stream_of self.old).exports }
        ensures taken { (stream_of self.new).taken ≡ (stream_of self.old).taken }
        ensures borrow { IsSameBorrow self.old self.new }
    {
        self.stream.truncate(size)
    }
}

impl BytesIO {
    /// The stream, to be changed in length: `Closed` where it is closed, `BufferError` where an export is out. Refused, it stays as it was.
    pub fn try_resizable(&mut self) -> Result<Resizable<'_>, IoFault>
        ensures* unchanged { sem 𝓛 (StaysIfRefused self.entry result) }
        ensures answer { MayResize (resize_refusal self.old) self.entry result }
    {
        self.check_resizable()?;
        Ok(Resizable { stream: self })
    }

    /// The stream, to be changed in length: `None` exactly where it is closed or an export is out, and it then stays as it was.
    pub fn try_resizable_opt(&mut self) -> Option<Resizable<'_>>
        ensures* unchanged { sem 𝓛 (StaysIfNone self.entry result) }
        ensures answer { MayResizeIf (resize_refusal self.old) self.entry result }
    {
        if self.check_resizable().is_err() {
            return None;
        }
        Some(Resizable { stream: self })
    }
}

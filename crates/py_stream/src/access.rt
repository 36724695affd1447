//! What a stream is opened for.
ghost use Rattle.std.specs.Prelude.{◌≡◌};
ghost use Rattle.py_stream.specs.Access.{is_able, is_read, is_written, is_appended};

use py_raw::RawStream;

/// What a stream is opened for: to be read, or written, or both.
#[derive(Clone, Copy, Debug, PartialEq, Eq)]
pub enum Access {
    /// The stream is read, from where its raw stands.
    Read,
    /// The stream is written, from where its raw stands.
    Write,
    /// The stream is written from the end on, and never moved.
    Append,
    /// The stream is read and written, from where its raw stands.
    Update,
}

impl Access {
    /// Whether the stream is read.
    pub fn reads(self) -> bool
        ensures { result ≡ is_read self }
    {
        matches!(self, Access::Read | Access::Update)
    }

    /// Whether the stream is written.
    pub fn writes(self) -> bool
        ensures { result ≡ is_written self }
    {
        !matches!(self, Access::Read)
    }

    /// Whether the stream is written from the end on, and never moved.
    pub fn appends(self) -> bool
        ensures { result ≡ is_appended self }
    {
        matches!(self, Access::Append)
    }

    /// Whether a raw is able to do what the stream is opened for, with a buffer of `buffer_size` bytes or none: to be read from, to be
    /// written to, and to be moved where the stream is read and written through a buffer.
    pub fn suits<R: RawStream>(self, buffer_size: Option<usize>, raw: &R) -> bool
        ensures { result ≡ is_able self buffer_size (R.shows raw.now) }
    {
        let moves = matches!(self, Access::Update) && buffer_size.is_some();
        (!self.reads() || raw.readable())
            && (!self.writes() || raw.writable())
            && (!moves || raw.seekable())
    }
}

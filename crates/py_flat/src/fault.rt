use crate::positions::Positions;
use crate::{ModeError, ParseModeError};
use thiserror::Error;

/// Why a call of a stream, a codec, a registry or an opening was refused.
///
/// Places are bytes from the start of the stream, or of the argument in one-shot calls of codecs, unless said
/// otherwise.
#[derive(Clone, Copy, Debug, PartialEq, Eq, Error)]
pub enum IoFault {
    /// An earlier `close` closed the stream, or the raw came closed.
    #[error("I/O operation on closed file")]
    Closed,
    /// An earlier `detach` handed the lower stream back.
    #[error("raw stream has been detached")]
    Detached,
    /// An earlier call failed the stream.
    #[error("an earlier fault left the stream unusable")]
    Failed,
    /// The stream lacks what the call needs: reading, writing or seeking, or the call itself.
    #[error("underlying stream does not support the operation")]
    Unsupported,
    /// The whence of a seek is none of 0, 1 and 2.
    #[error("invalid whence")]
    BadWhence,
    /// The target of a seek lies below 0.
    #[error("negative seek value")]
    NegativeSeek,
    /// A place, a size or the end of a write would lie past 9223372036854775807.
    #[error("position or size too large")]
    TooFar,
    /// An argument that the call can't have with the others.
    #[error("invalid argument")]
    BadArgument,
    /// The raw stream failed in this call.
    #[error("the raw stream failed")]
    RawFault,
    /// The raw stream would have blocked in this call; `taken` bytes of the argument were taken.
    #[error("write could not complete without blocking ({taken} bytes taken)")]
    WouldBlock { taken: u64 },
    /// There was no memory left.
    #[error("out of memory")]
    NoMemory,
    /// The handler refuses the bytes from `start` to before `end`.
    #[error("can't decode {}", Positions {unit: "byte", start: *.start, end: *.end})]
    UnicodeDecodeError { start: u64, end: u64 },
    /// The handler refuses the characters from `start` to before `end`, counted in characters.
    #[error("can't encode {}", Positions {unit: "character", start: *.start, end: *.end})]
    UnicodeEncodeError { start: u64, end: u64 },
    /// The text holds characters that were read past: seek first.
    #[error("a text that was read from must be sought before it is written")]
    SeekFirst,
    /// A text cookie is too long or has a field that no cookie has.
    #[error("invalid cookie")]
    InvalidCookie,
    /// The text at a cookie isn't what the cookie says.
    #[error("can't restore logical file position")]
    CannotRestore,
    /// No codec has that name.
    #[error("unknown encoding")]
    UnknownEncoding,
    /// No handler of decoding or encoding faults has that name.
    #[error("unknown error handler name")]
    UnknownHandler,
    /// The mode of an opening is malformed.
    #[error("{0}")]
    ParseMode(ParseModeError),
    /// An export of the buffer is out.
    #[error("existing exports of data: object cannot be re-sized")]
    BufferError,
    /// A custom handler restarts where it must not.
    #[error("position returned by the error handler is out of bounds")]
    BadRestart,
    /// There is no further line.
    #[error("EOF when reading a line")]
    EndOfFile,
    /// The mode of a raw stream is malformed.
    #[error("{0}")]
    ModeText(ModeError),
    /// The index in that dimension, the first that is so, is out of bounds.
    #[error("index out of bounds on dimension {dimension}")]
    IndexError { dimension: usize },
}

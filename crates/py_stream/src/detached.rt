//! What a stream hands back with its raw stream.

/// A raw stream that was under a buffered one, with what the buffered one had taken from its callers for it.
#[derive(Debug, Drop)]
pub struct Detached<R> {
    /// The raw stream.
    pub raw: R,
    /// The bytes that were taken from callers and that the raw isn't known to have taken.
    pub unwritten: Vec<u8>,
    /// The place of the first unwritten byte, in bytes from the start; with none unwritten the stream's own place, where the raw
    /// needn't stand. `None` where the raw can't seek.
    pub place: Option<u64>,
}

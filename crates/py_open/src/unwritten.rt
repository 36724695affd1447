//! What a detaching of a text session hands over.

/// The bytes that a text session had taken from its callers and that its raw isn't known to have when it was detached.
#[derive(Debug, Drop)]
pub struct TextUnwritten {
    /// The bytes: those of the buffer and behind them the text's own.
    pub bytes: Vec<u8>,
    /// The place of the first of them, in bytes from the start of the stream; with none the byte of the text place: where the text was
    /// opened or sought to, behind what was written last, or where a `read` of all came to the end. `None` where the raw can't seek.
    pub place: Option<u64>,
}

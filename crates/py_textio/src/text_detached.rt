//! What a text hands back with its buffer.

/// A buffer that was under a text, with what the text had taken from its callers for it.
#[derive(Debug, Drop)]
pub struct TextDetached<B> {
    /// The buffer.
    pub buffer: B,
    /// The bytes that were taken from callers and that the buffer hasn't.
    pub unwritten: Vec<u8>,
    /// The byte where `unwritten` begins, from the start of the stream; with nothing unwritten that of the text place: where the text was
    /// made, where a `seek` put it (by a cookie that skips behind the bytes that it feeds), where what was written last ends, or where a
    /// `read` of all came to the end. Bytes that were read since stand behind it. `None` where the buffer can't seek.
    pub place: Option<u64>,
}

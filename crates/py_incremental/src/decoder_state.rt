use py_flat::Data;

/// What an incremental decoder keeps between pieces, as `IncrementalDecoder::getstate` tells it.
#[derive(Debug, PartialEq, Eq, Drop)]
pub struct DecoderState {
    /// The bytes of a sequence that the end of the last piece cut: at most three.
    pub held: Data,
    /// Flags of the encoding: 0 for each of the five.
    pub flags: u64,
}

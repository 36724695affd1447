//! The exports of the bytes of a stream in memory.

/// The number of an export of the bytes of a `BytesIO`. Each `BytesIO` gives numbers of its own, 0, 1, 2 and on, and none twice.
#[derive(Clone, Copy, Debug, PartialEq, Eq)]
pub struct Export(pub u64);

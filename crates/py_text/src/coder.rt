use py_plain::{Encoding, Handler};

/// What a text stream decodes and encodes by.
#[derive(Clone, Copy, Debug, PartialEq, Eq)]
pub struct Coder {
    /// The encoding of its bytes.
    pub encoding: Encoding,
    /// The handler of bytes that spell no character, and of characters that have no bytes.
    pub errors: Handler,
}

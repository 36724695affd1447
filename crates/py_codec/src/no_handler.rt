ghost use Rattle.py_codec.specs.ErrorHandler.{DecodeRefused, EncodeRefused};

use crate::{EncodeReplace, ErrorHandler, HandlerRefusal};
use py_plain::Encoding;
use std::alloc::Global;

/// No handler of a user's own, for `HandlerRef<NoHandler>`: nobody can make a value of it.
#[derive(Clone, Copy, Debug, PartialEq, Eq)]
pub struct NoHandler {
    nobody: (),
}

impl ErrorHandler for NoHandler {
    ghost decodes = { λ handler encoding bytes start end. DecodeRefused };

    ghost encodes = { λ handler encoding text start end. EncodeRefused };

    fn on_decode(
        &self,
        alloc: Global,
        encoding: Encoding,
        bytes: &[u8],
        start: usize,
        end: usize,
    ) -> Result<(String, usize), HandlerRefusal> {
        Err(HandlerRefusal::Refuse)
    }

    fn on_encode(
        &self,
        alloc: Global,
        encoding: Encoding,
        text: &str,
        start: usize,
        end: usize,
    ) -> Result<(EncodeReplace, usize), HandlerRefusal> {
        Err(HandlerRefusal::Refuse)
    }
}

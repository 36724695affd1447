use py_codec::{EncodeReplace, Encoding, ErrorHandler, HandlerRefusal};
use std::alloc::Global;

/// A handler that puts one and the same text for each range and each run, and goes on after it.
#[derive(Clone, Copy, Debug, PartialEq, Eq)]
pub struct Marks {
    pub mark: &'static str,
}

impl ErrorHandler for Marks {
    ghost use Rattle.std.specs.Prelude.{chars};
    ghost use Rattle.py_codec.specs.ErrorHandler.{ReplacedBy, TextFor};

    ghost decodes = { λ marks encoding bytes start end. ReplacedBy (chars marks.mark.now) end };

    ghost encodes = { λ marks encoding text start end. TextFor (chars marks.mark.now) end };

    fn on_decode(
        &self,
        alloc: Global,
        encoding: Encoding,
        bytes: &[u8],
        start: usize,
        end: usize,
    ) -> Result<(String, usize), HandlerRefusal> {
        match String::from_str(alloc, self.mark) {
            Ok(text) => Ok((text, end)),
            Err(_) => Err(HandlerRefusal::Memory),
        }
    }

    fn on_encode(
        &self,
        alloc: Global,
        encoding: Encoding,
        text: &str,
        start: usize,
        end: usize,
    ) -> Result<(EncodeReplace, usize), HandlerRefusal> {
        match String::from_str(alloc, self.mark) {
            Ok(text) => Ok((EncodeReplace::Str(text), end)),
            Err(_) => Err(HandlerRefusal::Memory),
        }
    }
}

ghost use Rattle.std.specs.Prelude.{◌≡◌, ◌<◌, ◌≤◌, length, chars, IfOk, IfErr};
ghost use Rattle.std.specs.String.{string_bytes};
ghost use Rattle.py_codec.specs.declared.error_handler.HandlerRefusal.TheVariants.{Refuse};
ghost use Rattle.py_codec.specs.ErrorHandler.{DecodeMeaning, EncodeMeaning, ReplacedBy, DecodeRefused, EncodeRefused, encode_answer};

use py_plain::Encoding;
use std::alloc::Global;
use thiserror::Error;

/// Why a handler gives nothing.
#[derive(Clone, Copy, Debug, PartialEq, Eq, Error)]
pub enum HandlerRefusal {
    /// The handler refuses the range or run: the call answers a `UnicodeDecodeError` or `UnicodeEncodeError` with it.
    #[error("the handler refuses")]
    Refuse,
    /// Out of memory.
    #[error("out of memory")]
    Memory,
}

/// What a handler gives for a run of characters that have no bytes.
#[derive(Debug, PartialEq, Eq, Drop)]
pub enum EncodeReplace {
    /// A text, which is encoded in its turn: one with a character that has no bytes itself is refused.
    Str(String),
    /// Bytes, which are taken as they are.
    Bytes(Vec<u8>),
}

/// A handler of a user's own, beside those of `Handler`.
///
/// It is asked for each refused range or run, and answers what stands for it and where to go on: past the start of the
/// range, and no further than the end of the argument; another place makes the call answer `BadRestart`. All its answers
/// but running out of memory are settled by what it is asked with.
pub trait ErrorHandler: Copy {
    /// What it answers to a refused range of bytes.
    ghost decodes: { Self → DecodeMeaning };

    /// What it answers to a run of characters without bytes.
    ghost encodes: { Self → EncodeMeaning };

    /// Is asked for the bytes from `start` to before `end`, which spell no character; `bytes` is the whole argument.
    ///
    /// Answers the text that stands for them, and the byte place where decoding goes on.
    fn on_decode(
        &self,
        alloc: Global,
        encoding: Encoding,
        bytes: &[u8],
        start: usize,
        end: usize,
    ) -> Result<(String, usize), HandlerRefusal>
        requires range { start < end }
        requires within { end ≤ length bytes.now }
        ensures text { IfOk result (λ t. decodes self.now encoding bytes.now start end
            ≡ ReplacedBy (chars (string_bytes t.0)) t.1) }
        ensures refuses { IfErr result (λ why. why ≡ Refuse → decodes self.now encoding bytes.now start end
            ≡ DecodeRefused) };

    /// Is asked for the characters from `start` to before `end`, counted in characters, which have no bytes in the
    /// encoding; `text` is the whole argument.
    ///
    /// Answers what stands for them, and the place in characters where encoding goes on.
    fn on_encode(
        &self,
        alloc: Global,
        encoding: Encoding,
        text: &str,
        start: usize,
        end: usize,
    ) -> Result<(EncodeReplace, usize), HandlerRefusal>
        requires range { start < end }
        requires within { end ≤ length (chars text.now) }
        ensures given { IfOk result (λ t. encodes self.now encoding (chars text.now) start end
            ≡ encode_answer t.0 t.1) }
        ensures refuses { IfErr result (λ why. why ≡ Refuse → encodes self.now encoding (chars text.now) start end
            ≡ EncodeRefused) };
}

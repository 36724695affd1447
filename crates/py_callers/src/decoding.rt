//! A caller of codecs: bytes of UTF-8 are decoded, and what is none is replaced.
ghost use Rattle.std.specs.Prelude.{◌≡◌, IfOk, IfErr};
ghost use Rattle.py_codec.specs.Answers.{text_of};
ghost use Rattle.py_callers.specs.Decoding.{replacing};

use py_codec::{Handler, HandlerRef, NoHandler, utf_8_decode};
use py_flat::IoFault;
use std::alloc::Global;

/// The text of some bytes of UTF-8, with U+FFFD for each range that is none. Only `NoMemory` refuses it.
pub fn decode_replacing(alloc: Global, bytes: &[u8]) -> Result<String, IoFault>
    ensures text { IfOk result (λ text. text_of text ≡ replacing bytes.now) }
    ensures refused { IfErr result (λ fault. fault ≡ IoFault.NoMemory) }
{
    let replace = HandlerRef::<NoHandler>::Builtin(Handler::Replace);
    match utf_8_decode(alloc, bytes, replace, true) {
        Ok((text, _)) => Ok(text),
        Err(fault) => Err(fault),
    }
}

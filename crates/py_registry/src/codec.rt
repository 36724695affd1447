ghost use Rattle.std.specs.Prelude.{◌≡◌, true, chars};
ghost use Rattle.py_plain.specs.Handlers.{reads_texts};
ghost use Rattle.py_codec.specs.Answers.{text_of, bytes_of};
ghost use Rattle.py_codec.specs.Refusing.{RefusedFirst};
ghost use Rattle.py_registry.specs.Coding.{codec_encoding, codec_decoding, is_text, is_built_in, incremental_encoder, incremental_decoder, IsCoded};

use crate::{SearchFunction, SlotRefusal};
use py_codec::{Encoding, ErrorHandler, Handler, HandlerRef, IoFault, decode, encode};
use py_incremental::{IncrementalDecoder, IncrementalEncoder};
use std::alloc::Global;

/// A codec: a built-in one, or a slot of a search function, which a number tells from its other ones.
#[derive(Clone, Copy, Debug, PartialEq, Eq)]
pub enum PyCodec<S> {
    /// A built-in codec, by its encoding.
    Builtin(Encoding),
    /// A codec of a user's own.
    Slot(S, u32),
}

impl<S: SearchFunction> PyCodec<S> {
    /// Whether the codec makes bytes of texts: a built-in one always, and a slot as its search function says.
    pub fn is_text_codec(&self) -> bool
        ensures { result ≡ is_text S.text_slots self.now }
    {
        match self {
            PyCodec::Builtin(_) => true,
            PyCodec::Slot(owner, slot) => owner.text_slot(*slot),
        }
    }

    /// The bytes of a text.
    ///
    /// `UnicodeEncodeError` is the first run that the handler or the slot refuses, in characters; `BadRestart`: a
    /// handler's place to go on isn't past the start of its run, or is past the end; `NoMemory` means out of memory. A
    /// built-in codec refuses a text by strict and the two handlers of surrogates before memory is taken.
    pub fn encode<H: ErrorHandler>(
        &self,
        alloc: Global,
        text: &str,
        errors: HandlerRef<H>,
    ) -> Result<Vec<u8>, IoFault>
        ensures answer { IsCoded bytes_of result (codec_encoding S.slot_encodes H.decodes H.encodes (chars text.now) self.now errors) }
        ensures first { is_built_in self.now ≡ true
            → RefusedFirst errors (codec_encoding S.slot_encodes H.decodes H.encodes (chars text.now) self.now errors) result }
    {
        match self {
            PyCodec::Builtin(encoding) => {
                let (bytes, _) = encode(alloc, *encoding, text, errors)?;
                Ok(bytes)
            }
            PyCodec::Slot(owner, slot) => match owner.encode_slot(alloc, *slot, text, errors) {
                Ok(bytes) => Ok(bytes),
                Err(SlotRefusal::Refuse { start, end }) => {
                    Err(IoFault::UnicodeEncodeError { start, end })
                }
                Err(SlotRefusal::Memory) => Err(IoFault::NoMemory),
            },
        }
    }

    /// The text of some bytes, after which none follow.
    ///
    /// `UnicodeDecodeError` is the first range that the handler or the slot refuses, in bytes; `BadRestart`: a handler's
    /// place to go on isn't past the start of its range, or is past the end; `NoMemory` means out of memory.
    pub fn decode<H: ErrorHandler>(
        &self,
        alloc: Global,
        bytes: &[u8],
        errors: HandlerRef<H>,
    ) -> Result<String, IoFault>
        ensures { IsCoded text_of result (codec_decoding S.slot_decodes H.decodes H.encodes bytes.now self.now errors) }
    {
        match self {
            PyCodec::Builtin(encoding) => {
                let (text, _) = decode(alloc, *encoding, bytes, errors, true)?;
                Ok(text)
            }
            PyCodec::Slot(owner, slot) => match owner.decode_slot(alloc, *slot, bytes, errors) {
                Ok(text) => Ok(text),
                Err(SlotRefusal::Refuse { start, end }) => {
                    Err(IoFault::UnicodeDecodeError { start, end })
                }
                Err(SlotRefusal::Memory) => Err(IoFault::NoMemory),
            },
        }
    }

    /// An encoder of texts in pieces; `None` exactly for a slot.
    pub fn get_incremental_encoder(&self, handler: Handler) -> Option<IncrementalEncoder>
        ensures { result ≡ incremental_encoder self.now handler }
    {
        match self {
            PyCodec::Builtin(encoding) => Some(IncrementalEncoder::new(*encoding, handler)),
            PyCodec::Slot(_, _) => None,
        }
    }

    /// A decoder of bytes in pieces, by a handler that texts are read with; `None` exactly for a slot.
    pub fn get_incremental_decoder(&self, handler: Handler) -> Option<IncrementalDecoder>
        requires reads { reads_texts handler ≡ true }
        ensures { result ≡ incremental_decoder self.now handler }
    {
        match self {
            PyCodec::Builtin(encoding) => Some(IncrementalDecoder::new(*encoding, handler)),
            PyCodec::Slot(_, _) => None,
        }
    }
}

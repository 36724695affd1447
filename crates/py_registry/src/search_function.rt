ghost use Rattle.std.specs.Prelude.{◌≡◌, ℕ, Bool, List, Option, Ok, Err, chars, IfOk};
ghost use Rattle.py_codec.specs.Answers.{text_of};
ghost use Rattle.py_registry.specs.declared.codec.PyCodec.{PyCodec};
ghost use Rattle.py_registry.specs.declared.search_function.SlotRefusal.TheVariants.{Refuse};
ghost use Rattle.py_registry.specs.Slots.{SlotMeaning, meaning_of};

use crate::PyCodec;
use py_codec::{ErrorHandler, HandlerRef};
use std::alloc::Global;
use thiserror::Error;

/// Why a slot gives nothing.
#[derive(Clone, Copy, Debug, PartialEq, Eq, Error)]
pub enum SlotRefusal {
    /// The slot refuses the text from `start` to before `end`, in characters, or those bytes: the call answers a
    /// `UnicodeEncodeError` or `UnicodeDecodeError` with them. The range is the slot's own word: nothing holds it to what
    /// was given.
    #[error("the codec refuses {start} to {end}")]
    Refuse { start: u64, end: u64 },
    /// Out of memory.
    #[error("out of memory")]
    Memory,
}

/// A search function of a user's own, with the codecs that it finds: a codec is a slot of the function, by a number.
///
/// All its answers but running out of memory are settled by what it is asked with.
pub trait SearchFunction: Copy {
    /// The codec that the function finds for a name.
    ghost finds: { Self → List ℕ → Option (PyCodec Self) };

    /// Whether the codec of a number makes bytes of texts.
    ghost text_slots: { Self → ℕ → Bool };

    /// What the codec of a number makes of a text.
    ghost slot_encodes: { Self → SlotMeaning };

    /// What the codec of a number makes of bytes.
    ghost slot_decodes: { Self → SlotMeaning };

    /// The codec of a name; the name has dashes for its spaces and small letters for the capital ones of ASCII.
    fn search(&self, name: &str) -> Option<PyCodec<Self>>
        ensures { result ≡ finds self.now (chars name.now) };

    /// Whether the codec of a number makes bytes of texts, so that `encode_text` and `decode_text` take it.
    fn text_slot(&self, slot: u32) -> bool
        ensures { result ≡ text_slots self.now slot };

    /// The bytes of a text by the codec of a number.
    fn encode_slot<H: ErrorHandler>(
        &self,
        alloc: Global,
        slot: u32,
        text: &str,
        errors: HandlerRef<H>,
    ) -> Result<Vec<u8>, SlotRefusal>
        ensures bytes { IfOk result (λ bytes. slot_encodes self.now slot (chars text.now) (meaning_of H.decodes H.encodes errors)
            ≡ Ok bytes.items) }
        ensures refuses { (start end : ℕ) → result ≡ Err (Refuse start end)
            → slot_encodes self.now slot (chars text.now) (meaning_of H.decodes H.encodes errors) ≡ Err (start, end) };

    /// The text of some bytes by the codec of a number.
    fn decode_slot<H: ErrorHandler>(
        &self,
        alloc: Global,
        slot: u32,
        bytes: &[u8],
        errors: HandlerRef<H>,
    ) -> Result<String, SlotRefusal>
        ensures text { IfOk result (λ text. slot_decodes self.now slot bytes.now (meaning_of H.decodes H.encodes errors)
            ≡ Ok (text_of text)) }
        ensures refuses { (start end : ℕ) → result ≡ Err (Refuse start end)
            → slot_decodes self.now slot bytes.now (meaning_of H.decodes H.encodes errors) ≡ Err (start, end) };
}

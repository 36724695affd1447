ghost use Rattle.std.specs.Prelude.{◌≡◌, ◌∷◌, IfOk};

use py_registry::{ErrorHandler, HandlerRef, PyCodec, SearchFunction, SlotRefusal, same_name};
use std::alloc::{AllocError, Global};

/// A search function that finds one codec, `utf-8-marked`: the bytes of a text are EF BB BF and then those of UTF-8. It
/// reads nothing.
#[derive(Clone, Copy, Debug, PartialEq, Eq)]
pub struct Marked;

/// The bytes of a text after a mark.
fn mark_and_text(alloc: Global, text: &str) -> Result<Vec<u8>, AllocError>
    ensures { IfOk result (λ bytes. bytes.items ≡ 0xEF ∷ 0xBB ∷ 0xBF ∷ text.now) }
{
    let mut bytes = Vec::from_slice(alloc, b"\xEF\xBB\xBF")?;
    bytes.extend_from_slice(text.as_bytes())?;
    Ok(bytes)
}

impl SearchFunction for Marked {
    ghost use Rattle.std.specs.Prelude.{true, ◌∷◌, length, codes, chars, Some, None, Ok, Err, if◌then◌else◌};
    ghost use Rattle.std.specs.Str.{encode_utf8_all};
    ghost use Rattle.py_registry.specs.declared.codec.PyCodec.TheVariants.{Slot};
    ghost use Rattle.py_registry.specs.Names.{same_name};

    ghost finds = { λ function name. if same_name (chars (codes "utf-8-marked")) name then Some (Slot function 0) else None };

    ghost text_slots = { λ function slot. true };

    ghost slot_encodes = { λ function slot text errors. Ok (0xEF ∷ 0xBB ∷ 0xBF ∷ encode_utf8_all text) };

    ghost slot_decodes = { λ function slot bytes errors. Err (0, length bytes) };

    fn search(&self, name: &str) -> Option<PyCodec<Self>> {
        if same_name("utf-8-marked", name) {
            Some(PyCodec::Slot(*self, 0))
        } else {
            None
        }
    }

    fn text_slot(&self, slot: u32) -> bool {
        true
    }

    fn encode_slot<H: ErrorHandler>(
        &self,
        alloc: Global,
        slot: u32,
        text: &str,
        errors: HandlerRef<H>,
    ) -> Result<Vec<u8>, SlotRefusal> {
        match mark_and_text(alloc, text) {
            Ok(bytes) => Ok(bytes),
            Err(_) => Err(SlotRefusal::Memory),
        }
    }

    fn decode_slot<H: ErrorHandler>(
        &self,
        alloc: Global,
        slot: u32,
        bytes: &[u8],
        errors: HandlerRef<H>,
    ) -> Result<String, SlotRefusal> {
        Err(SlotRefusal::Refuse {
            start: 0,
            end: bytes.len() as u64,
        })
    }
}

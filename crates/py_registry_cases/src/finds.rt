use py_registry::{ErrorHandler, HandlerRef, PyCodec, SearchFunction, SlotRefusal};
use std::alloc::Global;

/// A search function that finds one codec, its slot, for every name, or none at all. Slot 7 is no codec for text. The
/// bytes of a text are those of UTF-8; no bytes are a text, so that each is refused from 1 to before 2.
#[derive(Clone, Copy, Debug, PartialEq, Eq, Drop)]
pub(crate) struct Finds {
    pub any: bool,
    pub slot: u32,
}

impl SearchFunction for Finds {
    ghost use Rattle.std.specs.Prelude.{nat_eq, not, Option, Some, None, Ok, Err, if◌then◌else◌};
    ghost use Rattle.std.specs.Str.{encode_utf8_all};
    ghost use Rattle.py_registry.specs.declared.codec.PyCodec.TheVariants.{Slot};

    ghost finds = { λ function name. if function.any then Some (Slot function function.slot) else None };

    ghost text_slots = { λ function slot. not (nat_eq slot 7) };

    ghost slot_encodes = { λ function slot text errors. Ok (encode_utf8_all text) };

    ghost slot_decodes = { λ function slot bytes errors. Err (1, 2) };

    fn search(&self, name: &str) -> Option<PyCodec<Self>> {
        if self.any {
            Some(PyCodec::Slot(*self, self.slot))
        } else {
            None
        }
    }

    fn text_slot(&self, slot: u32) -> bool {
        slot != 7
    }

    fn encode_slot<H: ErrorHandler>(
        &self,
        alloc: Global,
        slot: u32,
        text: &str,
        errors: HandlerRef<H>,
    ) -> Result<Vec<u8>, SlotRefusal> {
        match Vec::from_slice(alloc, text.as_bytes()) {
            Ok(bytes) => Ok(bytes),
            Err(_) => Err(SlotRefusal::Memory),
        }
    }

    fn decode_slot<H: ErrorHandler>(
        &self,
        alloc: Global,
        slot: u32,
        bytes: &[u8],
        errors: HandlerRef<H>,
    ) -> Result<String, SlotRefusal> {
        Err(SlotRefusal::Refuse { start: 1, end: 2 })
    }
}

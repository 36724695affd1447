ghost use Rattle.std.specs.Prelude.{false, None, Err};

use crate::{PyCodec, SearchFunction, SlotRefusal};
use py_codec::{ErrorHandler, HandlerRef};
use std::alloc::Global;

/// No search function, for a registry that has none: nobody can make a value of it.
#[derive(Clone, Copy, Debug, PartialEq, Eq)]
pub struct NoSearch {
    nobody: (),
}

impl SearchFunction for NoSearch {
    ghost finds = { λ function name. None };

    ghost text_slots = { λ function slot. false };

    ghost slot_encodes = { λ function slot text errors. Err (0, 0) };

    ghost slot_decodes = { λ function slot bytes errors. Err (0, 0) };

    fn search(&self, name: &str) -> Option<PyCodec<Self>> {
        None
    }

    fn text_slot(&self, slot: u32) -> bool {
        false
    }

    fn encode_slot<H: ErrorHandler>(
        &self,
        alloc: Global,
        slot: u32,
        text: &str,
        errors: HandlerRef<H>,
    ) -> Result<Vec<u8>, SlotRefusal> {
        Err(SlotRefusal::Refuse { start: 0, end: 0 })
    }

    fn decode_slot<H: ErrorHandler>(
        &self,
        alloc: Global,
        slot: u32,
        bytes: &[u8],
        errors: HandlerRef<H>,
    ) -> Result<String, SlotRefusal> {
        Err(SlotRefusal::Refuse { start: 0, end: 0 })
    }
}

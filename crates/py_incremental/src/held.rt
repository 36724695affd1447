//! The few bytes that a decoder keeps between pieces.
ghost use Rattle.std.specs.Prelude.{◌≡◌, ◌≤◌, [], length};

use std::marker::Model;

/// At most three bytes, which contracts see as a list. It takes no memory.
#[derive(Debug, Drop)]
pub(crate) struct Held {
    bytes: [u8; 3],
    length: usize,
}

impl Model for Held {
    ghost use Rattle.std.specs.Prelude.{List, ℕ, ◌≤◌, take};

    ghost Value = { List ℕ };

    ghost view = { λ h. take h.length h.bytes };

    ghost invariant = { λ h. h.length ≤ 3 };
}

impl Held {
    /// No bytes.
    pub(crate) fn new() -> Self
        ensures { result ≡ [] }
    {
        Held {
            bytes: [0; 3],
            length: 0,
        }
    }

    /// A copy of some bytes.
    pub(crate) fn from_slice(bytes: &[u8]) -> Self
        requires { length bytes.now ≤ 3 }
        ensures { result ≡ bytes.now }
    {
        let mut held = [0; 3];
        held[..bytes.len()].copy_from_slice(bytes);
        Held {
            bytes: held,
            length: bytes.len(),
        }
    }

    /// The bytes, lent.
    pub(crate) fn as_slice(&self) -> &[u8]
        ensures bytes { result.now ≡ self.now }
        ensures short { length self.now ≤ 3 }
    {
        &self.bytes[..self.length]
    }
}

//! Bytes that a buffer owns.
ghost use Rattle.std.specs.Borrow.{sem};
ghost use Rattle.std.specs.Prelude.{◌≡◌, [], true, length, MatchResult};
ghost use Rattle.py_buffer.specs.Buffers.{IsOver, IsSimple};
ghost use Rattle.py_buffer.specs.Lending.{WritesOwned};
ghost use Rattle.py_buffer.specs.Owned.{own_bytes, MayWrite, StaysIfNone, WritesBytes};

use crate::BufferDescriptor;
use std::marker::Model;
use std::mem;

/// A vector of bytes that can be made a buffer. Contracts see it as its bytes.
#[derive(Debug, Drop)]
pub struct VecBuffer {
    data: Vec<u8>,
}

impl Model for VecBuffer {
    ghost use Rattle.std.specs.Prelude.{List, ℕ};

    ghost Value = { List ℕ };

    ghost view = { λ b. b.data.items };
}

impl VecBuffer {
    /// The bytes of a vector. It takes no memory.
    pub fn from(data: Vec<u8>) -> Self
        ensures { result ≡ data.items }
    {
        VecBuffer { data }
    }

    /// The bytes as a vector; none are left. It takes no memory.
    pub fn take(&mut self) -> Vec<u8>
        ensures bytes { result.items ≡ self.old }
        ensures left { self.new ≡ [] }
    {
        let alloc = *self.data.allocator();
        mem::replace(&mut self.data, Vec::new(alloc))
    }

    /// A buffer of these bytes one by one; or, when out of memory, the bytes back.
    pub fn into_pybuffer(self, readonly: bool) -> Result<OwnedBuffer, VecBuffer>
        ensures { MatchResult result (λ b. (b.bytes ≡ self) × IsSimple b.desc (length self) readonly) (λ back. back ≡ self) }
    {
        let VecBuffer { data } = self;
        let alloc = *data.allocator();
        match BufferDescriptor::simple(alloc, data.len(), readonly) {
            Ok(desc) => Ok(OwnedBuffer { data, desc }),
            Err(_) => Err(VecBuffer { data }),
        }
    }

    /// A buffer of these bytes with that descriptor; or the bytes back, where `PyBuffer::new` would refuse them. It takes no
    /// memory.
    pub fn into_pybuffer_with_descriptor(
        self,
        desc: BufferDescriptor,
    ) -> Result<OwnedBuffer, VecBuffer>
        ensures { MatchResult result (λ b. (b.bytes ≡ self) × (b.desc ≡ desc) × IsOver desc self) (λ back. (back ≡ self) × (IsOver desc self → ⊥)) }
    {
        let VecBuffer { data } = self;
        if desc.is_valid() && desc.covers(data.len()) {
            Ok(OwnedBuffer { data, desc })
        } else {
            Err(VecBuffer { data })
        }
    }
}

/// Bytes that a buffer owns, with a descriptor whose segments lie within them.
#[derive(Debug, Drop)]
pub struct OwnedBuffer {
    data: Vec<u8>,
    desc: BufferDescriptor,
}

impl Model for OwnedBuffer {
    ghost use Rattle.py_buffer.specs.Buffers.{BufferView, IsOver};

    ghost Value = { BufferView };

    ghost view = { λ b. record { bytes = b.data.items; desc = b.desc } };

    ghost invariant = { λ b. IsOver b.desc b.data.items };
}

impl OwnedBuffer {
    /// A readonly buffer of a vector's bytes one by one; or, when out of memory, the bytes back.
    pub fn from_byte_vector(bytes: Vec<u8>) -> Result<Self, VecBuffer>
        ensures { MatchResult result (λ b. (b.bytes ≡ bytes.items) × IsSimple b.desc (length bytes.items) true) (λ back. back ≡ bytes.items) }
    {
        VecBuffer::from(bytes).into_pybuffer(true)
    }

    /// What the bytes hold.
    pub fn desc(&self) -> &BufferDescriptor
        ensures value { result.now ≡ self.now.desc }
        ensures over { IsOver self.now.desc self.now.bytes }
    {
        &self.desc
    }

    /// All bytes, lent.
    pub fn view(&self) -> &[u8]
        ensures { result.now ≡ self.now.bytes }
    {
        self.data.as_slice()
    }

    /// All bytes, lent to be written; they keep their number. `None` where the buffer is readonly, which then stays as it was.
    pub fn view_mut(&mut self) -> Option<OwnedBytes<'_>>
        ensures* unchanged { sem 𝓛 (StaysIfNone self.entry result) }
        ensures answer { MayWrite self.old.desc.readonly self.entry result }
    {
        if self.desc.readonly {
            return None;
        }
        Some(OwnedBytes { buffer: self })
    }

    /// All bytes, to be written; they keep their number.
    fn bytes_mut(&mut self) -> &mut [u8]
        ensures* writes_back { sem 𝓛 (WritesOwned self.entry result) }
        ensures value { result.now ≡ self.old.bytes }
    {
        self.data.as_mut_slice()
    }

    /// The bytes as a vector. It takes no memory.
    pub fn take(self) -> Vec<u8>
        ensures { result.items ≡ self.bytes }
    {
        let OwnedBuffer { data, desc: _ } = self;
        data
    }
}

/// The bytes of an owned buffer that isn't readonly, to be written: as many as it has. What is written there is in the buffer once they
/// come back, of which nothing else changes. Contracts see the borrowed buffer (`buffer_of`).
#[derive(Debug, Drop)]
pub struct OwnedBytes<'a> {
    buffer: &'a mut OwnedBuffer,
}

impl OwnedBytes<'_> {
    /// The bytes.
    pub fn as_slice(&self) -> &[u8]
        ensures { result.now ≡ own_bytes self.now }
    {
        self.buffer.view()
    }

    /// The bytes, to be written.
    pub fn as_mut_slice(&mut self) -> &mut [u8]
        ensures* writes_back { sem 𝓛 (WritesBytes self.entry result) }
        ensures value { result.now ≡ own_bytes self.old }
    {
        self.buffer.bytes_mut()
    }
}

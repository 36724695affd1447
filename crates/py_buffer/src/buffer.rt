//! Bytes that are lent to be read.
ghost use Rattle.std.specs.Prelude.{◌≡◌, ◌++◌, take, is_ok, IfOk, MatchOption, OnErr, if◌then◌else◌};
ghost use Rattle.std.specs.Fn.{FnOnceReturnsAt};
ghost use Rattle.py_flat.specs.declared.fault.IoFault.TheVariants as fault;
ghost use Rattle.py_buffer.specs.Descriptor.{IsContiguous};
ghost use Rattle.py_buffer.specs.Buffers.{IsOver, items_of};

use crate::BufferDescriptor;
use crate::lent::{append, contiguous, copied};
use py_flat::IoFault;
use std::alloc::Global;
use std::marker::Model;

/// Lent bytes, with a descriptor whose segments lie within them.
#[derive(Debug, Drop)]
pub struct PyBuffer<'a> {
    bytes: &'a [u8],
    desc: BufferDescriptor,
}

impl<'a> Model for PyBuffer<'a> {
    ghost use Rattle.py_buffer.specs.Buffers.{BufferView, IsOver};

    ghost Value = { BufferView };

    ghost view = { λ b. record { bytes = b.bytes.now; desc = b.desc } };

    ghost invariant = { λ b. IsOver b.desc b.bytes.now };
}

impl<'a> PyBuffer<'a> {
    /// A buffer of these bytes with that descriptor, or `None` where `validate` refuses it or a segment leaves the bytes.
    pub fn new(bytes: &'a [u8], desc: BufferDescriptor) -> Option<Self>
        ensures { MatchOption result (IsOver desc bytes.now → ⊥) (λ b. (b.bytes ≡ bytes.now) × (b.desc ≡ desc) × IsOver desc bytes.now) }
    {
        if desc.is_valid() && desc.covers(bytes.len()) {
            Some(PyBuffer { bytes, desc })
        } else {
            None
        }
    }

    /// What the bytes hold.
    pub fn desc(&self) -> &BufferDescriptor
        ensures value { result.now ≡ self.now.desc }
        ensures over { IsOver self.now.desc self.now.bytes }
    {
        &self.desc
    }

    /// All bytes that were lent, whatever the descriptor says.
    pub fn obj_bytes(&self) -> &[u8]
        ensures { result.now ≡ self.now.bytes }
    {
        self.bytes
    }

    /// The first `len` bytes, which are those of all items, or `None` where the descriptor isn't contiguous.
    pub fn as_contiguous(&self) -> Option<&[u8]>
        ensures { MatchOption result (IsContiguous self.now.desc → ⊥) (λ first. (first.now ≡ take self.now.desc.len self.now.bytes) × (first.now ≡ items_of self.now) × IsContiguous self.now.desc) }
    {
        contiguous(self.bytes, &self.desc)
    }

    /// Appends the bytes of all items, in row order; or nothing, with NoMemory.
    pub fn append_to(&self, buf: &mut Vec<u8>) -> Result<(), IoFault>
        ensures items { buf.new.items ≡ (if is_ok result then buf.old.items ++ items_of self.now else buf.old.items) }
        ensures err { OnErr result (result ≡ Err fault.NoMemory) }
    {
        append(self.bytes, &self.desc, buf)
    }

    /// What `f` answers of the bytes of all items, in row order; or NoMemory, where they had to be copied, as they aren't contiguous.
    pub fn contiguous_or_collect<R, F: FnOnce(&[u8]) -> R>(
        &self,
        alloc: Global,
        f: F,
    ) -> Result<R, IoFault>
        requires { F.IsAlwaysCallable f }
        ensures answer { IfOk result (λ r. FnOnceReturnsAt F.FnOnce f (items_of self.now) r) }
        ensures err { OnErr result (result ≡ Err fault.NoMemory) }
        ensures copied { OnErr result (IsContiguous self.now.desc → ⊥) }
    {
        match self.as_contiguous() {
            Some(first) => Ok(f(first)),
            None => copied(self.bytes, &self.desc, alloc, f),
        }
    }
}

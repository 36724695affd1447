//! Bytes that are lent to be read and written.
ghost use Rattle.std.specs.Prelude.{◌≡◌, ◌++◌, ℕ, List, length, take, false, is_ok, IfOk, MatchOption, MatchResult, OnErr, if◌then◌else◌};
ghost use Rattle.std.specs.Fn.{FnOnceReturnsAt, FnOnceReturnsAtMut};
ghost use Rattle.py_flat.specs.declared.fault.IoFault.TheVariants as fault;
ghost use Rattle.py_buffer.specs.Descriptor.{IsContiguous};
ghost use Rattle.py_buffer.specs.Buffers.{IsOver, IsWritable, LeavesFront, as_read, items_of};
ghost use Rattle.py_buffer.specs.Lending.{WritesAll};
ghost use Rattle.std.specs.Borrow.{sem};

use crate::BufferDescriptor;
use crate::lent::{append, contiguous, copied};
use crate::writing::called_on_front;
use py_flat::IoFault;
use std::alloc::Global;
use std::marker::Model;

/// Lent bytes that may be written, with a descriptor whose segments lie within them.
///
/// Bytes that are written keep their number, so the descriptor still doesn't leave them (docs/DECISIONS.md). Contracts see the borrow of
/// the bytes, by which a caller tells whose they are, and how many were lent (`size`).
#[derive(Debug, Drop)]
pub struct PyBufferMut<'a> {
    bytes: &'a mut [u8],
    size: usize,
    desc: BufferDescriptor,
}

impl<'a> Model for PyBufferMut<'a> {
    ghost use Rattle.py_buffer.specs.Buffers.{WrittenView, IsWritable};

    ghost Value = { WrittenView };

    ghost view = { λ b. record { borrow = b.bytes; size = b.size; desc = b.desc } };

    ghost invariant = { λ b. IsWritable b.desc b.size };
}

impl<'a> PyBufferMut<'a> {
    /// A buffer of these bytes with that descriptor, or `None` where `PyBuffer::new` would give none, or the descriptor is readonly. The
    /// bytes then stay as they were.
    pub fn new(bytes: &'a mut [u8], desc: BufferDescriptor) -> Option<Self>
        ensures { MatchOption result (IsOver desc bytes.old → desc.readonly ≡ false → ⊥) (λ b. (b.borrow ≡ bytes.entry) × (b.size ≡ length bytes.old) × (b.desc ≡ desc) × IsOver desc bytes.old × (desc.readonly ≡ false)) }
    {
        PyBufferMut::try_new(bytes, desc).ok()
    }

    /// As `new`, but that it gives the bytes back as they were where `new` gives `None`.
    pub fn try_new(bytes: &'a mut [u8], desc: BufferDescriptor) -> Result<Self, &'a mut [u8]>
        ensures { MatchResult result (λ b. (b.borrow ≡ bytes.entry) × (b.size ≡ length bytes.old) × (b.desc ≡ desc) × IsOver desc bytes.old × (desc.readonly ≡ false))
            (λ back. (back ≡ bytes.entry) × (IsOver desc bytes.old → desc.readonly ≡ false → ⊥)) }
    {
        let size = bytes.len();
        if !desc.readonly && desc.is_valid() && desc.covers(size) {
            Ok(PyBufferMut { bytes, size, desc })
        } else {
            Err(bytes)
        }
    }

    /// A buffer of these bytes, of which so many were lent, with that descriptor.
    pub(crate) fn over(bytes: &'a mut [u8], size: usize, desc: BufferDescriptor) -> Self
        requires { IsWritable desc size }
        ensures { result ≡ record { borrow = bytes.entry; size = size; desc = desc } }
    {
        PyBufferMut { bytes, size, desc }
    }

    /// What the bytes hold.
    pub fn desc(&self) -> &BufferDescriptor
        ensures value { result.now ≡ self.now.desc }
        ensures writable { IsWritable self.now.desc self.now.size }
    {
        &self.desc
    }

    /// All bytes that were lent, whatever the descriptor says.
    pub fn obj_bytes(&self) -> &[u8]
        ensures { result.now ≡ self.now.borrow.now }
    {
        &self.bytes[..]
    }

    /// All bytes that were lent, to be written: the buffer ends with what is left in them.
    pub fn obj_bytes_mut(&mut self) -> &mut [u8]
        ensures* writes_back { sem 𝓛 (WritesAll self.entry result) }
        ensures value { result.now ≡ self.old.borrow.now }
    {
        &mut *self.bytes
    }

    /// The first `len` bytes, which are those of all items, or `None` where the descriptor isn't contiguous.
    pub fn as_contiguous(&self) -> Option<&[u8]>
        ensures { MatchOption result (IsContiguous self.now.desc → ⊥) (λ first. (first.now ≡ take self.now.desc.len self.now.borrow.now) × (first.now ≡ items_of (as_read self.now)) × IsContiguous self.now.desc) }
    {
        contiguous(&self.bytes[..], &self.desc)
    }

    /// The first `len` bytes, to be written, or `None` where the descriptor isn't contiguous.
    pub fn as_contiguous_mut(&mut self) -> Option<&mut [u8]>
        ensures { MatchOption result (IsContiguous self.old.desc → ⊥) (λ first. (first.now ≡ take self.old.desc.len self.old.borrow.now) × IsContiguous self.old.desc) }
    {
        if self.desc.is_contiguous() {
            let len = self.desc.len.min(self.bytes.len());
            Some(&mut self.bytes[..len])
        } else {
            None
        }
    }

    /// What `f` answers of the first `len` bytes, which it may write: the buffer ends with what it left in them.
    pub(crate) fn call_on_front<R, F: FnOnce(&mut [u8]) -> R>(&mut self, f: F) -> R
        requires { F.IsAlwaysCallable f }
        ensures { (new : List ℕ) × FnOnceReturnsAtMut F.FnOnce f (take self.old.desc.len self.old.borrow.now) result new × LeavesFront self.old new self.new }
    {
        called_on_front(f, &mut *self.bytes, self.desc.len)
    }

    /// Appends the bytes of all items, in row order; or nothing, with NoMemory.
    pub fn append_to(&self, buf: &mut Vec<u8>) -> Result<(), IoFault>
        ensures items { buf.new.items ≡ (if is_ok result then buf.old.items ++ items_of (as_read self.now) else buf.old.items) }
        ensures err { OnErr result (result ≡ Err fault.NoMemory) }
    {
        if self.bytes.len() != self.size {
            return Err(IoFault::NoMemory); // never so: bytes that were lent keep their number
        }
        append(&self.bytes[..], &self.desc, buf)
    }

    /// What `f` answers of the bytes of all items, in row order; or NoMemory, where they had to be copied, as they aren't contiguous.
    pub fn contiguous_or_collect<R, F: FnOnce(&[u8]) -> R>(
        &self,
        alloc: Global,
        f: F,
    ) -> Result<R, IoFault>
        requires { F.IsAlwaysCallable f }
        ensures answer { IfOk result (λ r. FnOnceReturnsAt F.FnOnce f (items_of (as_read self.now)) r) }
        ensures err { OnErr result (result ≡ Err fault.NoMemory) }
        ensures copied { OnErr result (IsContiguous self.now.desc → ⊥) }
    {
        if let Some(first) = self.as_contiguous() {
            return Ok(f(first));
        }
        if self.bytes.len() != self.size {
            return Err(IoFault::NoMemory); // never so, as in `append_to`
        }
        copied(&self.bytes[..], &self.desc, alloc, f)
    }
}

//! Arguments that ask for bytes to be written.
ghost use Rattle.std.specs.Prelude.{◌≡◌, ◌↔◌, ℕ, List, length, take, IsTrue, MatchResult};
ghost use Rattle.std.specs.Fn.{FnOnceReturnsAtMut};
ghost use Rattle.py_buffer.specs.declared.arguments.ArgFault.TheVariants as arg_fault;
ghost use Rattle.py_buffer.specs.Descriptor.{IsValid, IsContiguous};
ghost use Rattle.py_buffer.specs.Segments.{Covers};
ghost use Rattle.py_buffer.specs.Arguments.{HoldsMemory, RefusesMemory};
ghost use Rattle.py_buffer.specs.Buffers.{LeavesFront};

use crate::writing::called_on_front;
use crate::{ArgFault, BufferDescriptor, PyBufferMut};
use std::marker::Model;
use thiserror::Error;

/// A contiguous buffer that is written. Contracts see the buffer.
#[derive(Debug, Drop)]
pub struct ArgMemoryBuffer<'a> {
    bytes: &'a mut [u8],
    size: usize,
    desc: BufferDescriptor,
}

impl<'a> Model for ArgMemoryBuffer<'a> {
    ghost use Rattle.py_buffer.specs.Descriptor.{IsContiguous};
    ghost use Rattle.py_buffer.specs.Buffers.{WrittenView, IsWritable};

    ghost Value = { WrittenView };

    ghost view = { λ a. record { borrow = a.bytes; size = a.size; desc = a.desc } };

    ghost invariant = { λ a. IsWritable a.desc a.size × IsContiguous a.desc };
}

/// Bytes that were to be written, as they were, and why they were refused. It is shown as its fault.
#[derive(Debug, Drop, Error)]
#[error("{fault}")]
pub struct ArgRefused<'a> {
    /// The bytes.
    pub bytes: &'a mut [u8],
    /// Why they were refused.
    pub fault: ArgFault,
}

impl<'a> ArgMemoryBuffer<'a> {
    /// A buffer of these bytes; or NotContiguous where the descriptor isn't contiguous, or else ReadOnly where it is readonly. The bytes
    /// then stay as they were.
    pub fn new(bytes: &'a mut [u8], desc: BufferDescriptor) -> Result<Self, ArgFault>
        requires valid { IsValid desc }
        requires covers { Covers desc (length bytes.old) }
        ensures { MatchResult result (λ argument. HoldsMemory bytes.entry desc argument) (λ fault. RefusesMemory desc fault) }
    {
        match ArgMemoryBuffer::try_new(bytes, desc) {
            Ok(argument) => Ok(argument),
            Err(refused) => Err(refused.fault),
        }
    }

    /// As `new`, but that a refusal gives the bytes back as they were.
    pub fn try_new(bytes: &'a mut [u8], desc: BufferDescriptor) -> Result<Self, ArgRefused<'a>>
        requires valid { IsValid desc }
        requires covers { Covers desc (length bytes.old) }
        ensures { MatchResult result (λ argument. HoldsMemory bytes.entry desc argument) (λ refused. RefusesMemory desc refused.fault × (refused.bytes ≡ bytes.entry)) }
    {
        if !desc.is_contiguous() {
            return Err(ArgRefused {
                bytes,
                fault: ArgFault::NotContiguous,
            });
        }
        if desc.readonly {
            return Err(ArgRefused {
                bytes,
                fault: ArgFault::ReadOnly,
            });
        }
        let size = bytes.len();
        Ok(ArgMemoryBuffer { bytes, size, desc })
    }

    /// The bytes of all items, lent to be written.
    pub fn borrow_buf_mut(&mut self) -> &mut [u8]
        ensures { result.now ≡ take self.old.desc.len self.old.borrow.now }
    {
        let len = self.desc.len.min(self.bytes.len());
        &mut self.bytes[..len]
    }

    /// What `f` answers of the bytes of all items, which it may write: the argument ends with what it left in them.
    pub fn with_ref<R, F: FnOnce(&mut [u8]) -> R>(&mut self, f: F) -> R
        requires { F.IsAlwaysCallable f }
        ensures { (new : List ℕ) × FnOnceReturnsAtMut F.FnOnce f (take self.old.desc.len self.old.borrow.now) result new × LeavesFront self.old new self.new }
    {
        called_on_front(f, &mut *self.bytes, self.desc.len)
    }

    /// How many bytes the argument has.
    pub fn len(&self) -> usize
        ensures { result ≡ self.now.desc.len }
    {
        self.desc.len
    }

    /// Whether the argument has no bytes.
    pub fn is_empty(&self) -> bool
        ensures { IsTrue result ↔ (self.now.desc.len ≡ 0) }
    {
        self.len() == 0
    }
}

impl<'a> From<ArgMemoryBuffer<'a>> for PyBufferMut<'a> {
    ghost from_gives = { λ argument buffer. buffer ≡ argument };

    fn from(argument: ArgMemoryBuffer<'a>) -> PyBufferMut<'a> {
        let ArgMemoryBuffer { bytes, size, desc } = argument;
        PyBufferMut::over(bytes, size, desc)
    }
}

/// What `f` answers of the bytes of a buffer, which it may write, or NotContiguous. The buffer ends with what `f` left in them.
pub fn try_rw_bytes_like<R, F: FnOnce(&mut [u8]) -> R>(
    buffer: &mut PyBufferMut<'_>,
    f: F,
) -> Result<R, ArgFault>
    requires { F.IsAlwaysCallable f }
    ensures { MatchResult result (λ r. (new : List ℕ) × FnOnceReturnsAtMut F.FnOnce f (take buffer.old.desc.len buffer.old.borrow.now) r new × LeavesFront buffer.old new buffer.new × IsContiguous buffer.old.desc)
        (λ refused. (refused ≡ arg_fault.NotContiguous) × (IsContiguous buffer.old.desc → ⊥) × (buffer.new ≡ buffer.old)) }
{
    if buffer.desc().is_contiguous() {
        Ok(buffer.call_on_front(f))
    } else {
        Err(ArgFault::NotContiguous)
    }
}

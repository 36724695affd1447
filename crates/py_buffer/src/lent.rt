//! The bytes of a descriptor's segments, among bytes that it doesn't leave.
ghost use Rattle.std.specs.Prelude.{◌≡◌, ◌++◌, length, take, is_ok, IfOk, MatchOption, OnErr, if◌then◌else◌};
ghost use Rattle.std.specs.Fn.{FnOnceReturnsAt};
ghost use Rattle.py_flat.specs.declared.fault.IoFault.TheVariants as fault;
ghost use Rattle.py_buffer.specs.Descriptor.{IsValid, IsContiguous};
ghost use Rattle.py_buffer.specs.Segments.{IsWithin, IsOrdered, lent, bytes_of};
ghost use Rattle.py_buffer.specs.Buffers.{IsOver};

use crate::BufferDescriptor;
use py_flat::IoFault;
use std::alloc::Global;
use std::ops::Range;

/// The first `len` bytes, or `None` where the descriptor isn't contiguous.
pub(crate) fn contiguous<'a>(bytes: &'a [u8], desc: &BufferDescriptor) -> Option<&'a [u8]>
    requires { IsValid desc.now }
    ensures { MatchOption result (IsContiguous desc.now → ⊥) (λ first. (first.now ≡ take desc.now.len bytes.now) × (first.now ≡ bytes_of desc.now bytes.now) × IsContiguous desc.now) }
{
    if desc.is_contiguous() {
        let len = desc.len.min(bytes.len());
        Some(&bytes[..len])
    } else {
        None
    }
}

/// Appends the bytes of one segment, and says whether there was memory for them.
fn append_segment(bytes: &[u8], segment: Range<isize>, buf: &mut Vec<u8>) -> bool
    requires within { IsWithin (length bytes.now) segment }
    requires ordered { IsOrdered segment }
    ensures { buf.new.items ≡ (if result then buf.old.items ++ lent bytes.now segment else buf.old.items) }
{
    let start = segment.start.unsigned_abs();
    let end = segment.end.unsigned_abs();
    buf.extend_from_slice(&bytes[start..end]).is_ok()
}

/// Appends the bytes of all items, in row order, or nothing when out of memory.
pub(crate) fn append(
    bytes: &[u8],
    desc: &BufferDescriptor,
    buf: &mut Vec<u8>,
) -> Result<(), IoFault>
    requires { IsOver desc.now bytes.now }
    ensures items { buf.new.items ≡ (if is_ok result then buf.old.items ++ bytes_of desc.now bytes.now else buf.old.items) }
    ensures err { OnErr result (result ≡ Err fault.NoMemory) }
{
    let before = buf.len();
    let mut segments = desc.segments(true);
    while let Some(segment) = segments.next() {
        if !append_segment(bytes, segment, buf) {
            buf.truncate(before);
            return Err(IoFault::NoMemory);
        }
    }
    Ok(())
}

/// What `f` answers of a copy of the bytes of all items, in row order; or NoMemory.
pub(crate) fn copied<R, F: FnOnce(&[u8]) -> R>(
    bytes: &[u8],
    desc: &BufferDescriptor,
    alloc: Global,
    f: F,
) -> Result<R, IoFault>
    requires over { IsOver desc.now bytes.now }
    requires calls { F.IsAlwaysCallable f }
    ensures answer { IfOk result (λ r. FnOnceReturnsAt F.FnOnce f (bytes_of desc.now bytes.now) r) }
    ensures err { OnErr result (result ≡ Err fault.NoMemory) }
{
    let mut all = Vec::new(alloc);
    match append(bytes, desc, &mut all) {
        Ok(()) => Ok(f(all.as_slice())),
        Err(_) => Err(IoFault::NoMemory),
    }
}

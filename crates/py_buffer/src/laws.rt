//! Laws of the segments and of bytes that are written. These functions do nothing: their contracts are the laws, and a check proves them.
ghost use Rattle.std.specs.Prelude.{◌≡◌, ◌≤◌, ℕ, true, false, List, length, take};
ghost use Rattle.py_buffer.specs.declared.descriptor.BufferDescriptor.{BufferDescriptor as Descriptor};
ghost use Rattle.py_buffer.specs.Descriptor.{IsValid, IsContiguous};
ghost use Rattle.py_buffer.specs.Segments.{Covers, segments_of, gathered, bytes_of};
ghost use Rattle.py_buffer.specs.Buffers.{BufferView, WrittenView, IsOver, IsWritable, refilled, with_bytes, with_front};

/// Where rows are joined, the bytes are the same as item by item.
pub fn joined_rows_have_the_bytes_of_their_items()
    ensures { (descriptor : Descriptor) (bytes : List ℕ) → IsValid descriptor → Covers descriptor (length bytes) → gathered bytes (segments_of descriptor true) ≡ gathered bytes (segments_of descriptor false) }
{}

/// Of a contiguous descriptor the bytes of all items are the first `len`; there are as many, whether it is contiguous or not.
pub fn contiguous_bytes_are_the_first()
    ensures first { (descriptor : Descriptor) (bytes : List ℕ) → IsValid descriptor → IsContiguous descriptor → bytes_of descriptor bytes ≡ take descriptor.len bytes }
    ensures many { (descriptor : Descriptor) (bytes : List ℕ) → IsValid descriptor → Covers descriptor (length bytes) → length (bytes_of descriptor bytes) ≡ descriptor.len }
{}

/// Writing lent bytes keeps their number. What was left in all bytes of a buffer, as many as were lent, or in its first ones, is what it has
/// then, as many bytes as before, which its descriptor doesn't leave; an owned buffer has as many as before whatever was left.
pub fn written_bytes_keep_their_number()
    ensures all { (buffer : WrittenView) (bytes : List ℕ) → IsWritable buffer.desc buffer.size → length bytes ≡ buffer.size → IsOver buffer.desc (with_bytes buffer bytes).borrow.now }
    ensures front { (buffer : WrittenView) (bytes : List ℕ) → length bytes ≤ length buffer.borrow.now → length (with_front buffer bytes).borrow.now ≡ length buffer.borrow.now }
    ensures owned { (buffer : BufferView) (bytes : List ℕ) → length (refilled buffer bytes).bytes ≡ length buffer.bytes }
    ensures written { (buffer : BufferView) (bytes : List ℕ) → length bytes ≡ length buffer.bytes → (refilled buffer bytes).bytes ≡ bytes }
{}

//! Descriptors, and what they say of themselves.
ghost use Rattle.std.specs.Prelude.{◌≡◌, ℕ, ◌/◌, ◌<◌, ◌≤◌, ◌^◌, ◌↔◌, pos, IsTrue, IfOk, MatchOption, ◌∷◌, [], length};
ghost use Rattle.py_flat.specs.declared.fault.IoFault.TheVariants as fault;
ghost use Rattle.std.specs.Prelude.{OnErr};
ghost use Rattle.py_buffer.specs.Descriptor.{IsValid, IsContiguous, HasNoItems};

use crate::measures::{are_row_major, are_sound, bound_within, items_of, reach_within};
use py_flat::IoFault;
use std::alloc::Global;

/// What some bytes hold: items of one size, in dimensions.
///
/// A dimension is its shape, its stride and its suboffset: how many entries it has, how many bytes lie from one to the
/// next, and how many are added once. Most calls ask for a descriptor that `validate` accepts.
#[derive(Debug, Drop)]
pub struct BufferDescriptor {
    /// How many bytes all items have.
    pub len: usize,
    /// Whether the bytes may only be read.
    pub readonly: bool,
    /// How many bytes an item has.
    pub itemsize: usize,
    /// What an item is, in the letters of Python's `struct`.
    pub format: &'static str,
    /// The shape, stride and suboffset of each dimension, the last two in bytes.
    pub dim_desc: Vec<(usize, isize, isize)>,
}

impl BufferDescriptor {
    /// Bytes one by one, in one dimension; or NoMemory.
    pub fn simple(alloc: Global, bytes_len: usize, readonly: bool) -> Result<Self, IoFault>
        ensures made { IfOk result (λ d. (d.len ≡ bytes_len) × (d.readonly ≡ readonly) × (d.itemsize ≡ 1) × (d.format.now ≡ 66 ∷ [])
            × (d.dim_desc.items ≡ (bytes_len, pos 1, pos 0) ∷ [])) }
        ensures err { OnErr result (result ≡ Err fault.NoMemory) }
    {
        BufferDescriptor::format(alloc, bytes_len, readonly, 1, "B")
    }

    /// Items of one size and format one after the other, in one dimension; or NoMemory.
    pub fn format(
        alloc: Global,
        bytes_len: usize,
        readonly: bool,
        itemsize: usize,
        format: &'static str,
    ) -> Result<Self, IoFault>
        requires some { 0 < itemsize }
        requires fits { itemsize < 2 ^ 63 }
        ensures made { IfOk result (λ d. (d.len ≡ bytes_len) × (d.readonly ≡ readonly) × (d.itemsize ≡ itemsize) × (d.format.now ≡ format.now)
            × (d.dim_desc.items ≡ (bytes_len / itemsize, pos itemsize, pos 0) ∷ [])) }
        ensures err { OnErr result (result ≡ Err fault.NoMemory) }
    {
        let mut dim_desc = Vec::new(alloc);
        if dim_desc
            .push((bytes_len / itemsize, itemsize as isize, 0))
            .is_err()
        {
            return Err(IoFault::NoMemory);
        }
        Ok(BufferDescriptor {
            len: bytes_len,
            readonly,
            itemsize,
            format,
            dim_desc,
        })
    }

    /// The descriptor itself, or `None` where its numbers don't belong together or don't fit.
    ///
    /// It is accepted where an item has bytes and there is a dimension; no stride is 0 and no suboffset is negative; the
    /// product of the shapes times the item's size is `len`; and the numbers fit: the product of the shapes, each 0 taken as
    /// 1, a `usize`, and how far an item may end from the base an `isize`.
    pub fn validate(self) -> Option<Self>
        ensures { MatchOption result (IsValid self → ⊥) (λ d. (d ≡ self) × IsValid d) }
    {
        if self.is_valid() { Some(self) } else { None }
    }

    /// Whether `validate` accepts the descriptor.
    pub(crate) fn is_valid(&self) -> bool
        ensures { IsTrue result ↔ IsValid self.now }
    {
        let dimensions = self.dim_desc.as_slice();
        if self.itemsize == 0 || dimensions.is_empty() || !are_sound(dimensions) {
            return false;
        }
        if !bound_within(dimensions) || !reach_within(dimensions, self.itemsize) {
            return false;
        }
        let len = self.len;
        match items_of(dimensions).checked_mul(self.itemsize) {
            Some(bytes) => bytes == len,
            None => false,
        }
    }

    /// How many dimensions the descriptor has.
    pub fn ndim(&self) -> usize
        ensures { result ≡ length self.now.dim_desc.items }
    {
        self.dim_desc.len()
    }

    /// Whether the descriptor's bytes are the first `len`, in their order.
    pub fn is_contiguous(&self) -> bool
        requires { IsValid self.now }
        ensures { IsTrue result ↔ IsContiguous self.now }
    {
        self.len == 0 || are_row_major(self.dim_desc.as_slice(), self.itemsize)
    }

    /// Whether some dimension has no entries, so that there are no items.
    pub fn is_zero_in_shape(&self) -> bool
        ensures { IsTrue result ↔ HasNoItems self.now.dim_desc.items }
    {
        let mut dimensions = self.dim_desc.as_slice();
        while let Some((dimension, rest)) = dimensions.split_first() {
            if dimension.0 == 0 {
                return true;
            }
            dimensions = rest;
        }
        false
    }

    /// A copy with the same fields, or NoMemory.
    pub fn clone(&self) -> Result<Self, IoFault>
        ensures made { IfOk result (λ d. (d.len ≡ self.now.len) × (d.readonly ≡ self.now.readonly) × (d.itemsize ≡ self.now.itemsize)
            × (d.format.now ≡ self.now.format.now) × (d.dim_desc.items ≡ self.now.dim_desc.items)) }
        ensures err { OnErr result (result ≡ Err fault.NoMemory) }
    {
        let Ok(dim_desc) = self.dim_desc.clone() else {
            return Err(IoFault::NoMemory);
        };
        Ok(BufferDescriptor {
            len: self.len,
            readonly: self.readonly,
            itemsize: self.itemsize,
            format: self.format,
            dim_desc,
        })
    }
}

//! Where an item begins.
ghost use Rattle.std.specs.Prelude.{◌≡◌, length};
ghost use Rattle.py_buffer.specs.Descriptor.{IsValid};
ghost use Rattle.py_buffer.specs.Position.{AreIndices, entry_at, position_of, indexed};

use crate::BufferDescriptor;
use crate::step::stepped;
use py_flat::IoFault;

/// The entry that an index means in a dimension of a shape, from the end where it is negative; `None` out of bounds.
fn entry(index: isize, shape: usize) -> Option<usize>
    ensures { result ≡ entry_at index shape }
{
    let distance = index.unsigned_abs();
    if index < 0 {
        shape.checked_sub(distance)
    } else if distance < shape {
        Some(distance)
    } else {
        None
    }
}

impl BufferDescriptor {
    /// Where the item of these indices begins, in bytes.
    pub fn fast_position(&self, indices: &[usize]) -> isize
        requires valid { IsValid self.now }
        requires within { AreIndices indices.now self.now.dim_desc.items }
        ensures { result ≡ position_of indices.now self.now.dim_desc.items }
    {
        let mut position = 0;
        let mut indices = indices;
        let mut dimensions = self.dim_desc.as_slice();
        while let (Some((index, others)), Some((dimension, rest))) = (
            indices.split_first(),
            dimensions.split_first(),
        ) {
            position = stepped(position, *index, dimension);
            indices = others;
            dimensions = rest;
        }
        position
    }

    /// Where the item of these indices begins, in bytes; a negative index counts from the end.
    ///
    /// IndexError comes of the first dimension whose index lies outside its shape.
    pub fn position(&self, indices: &[isize]) -> Result<isize, IoFault>
        requires valid { IsValid self.now }
        requires whole { length indices.now ≡ length self.now.dim_desc.items }
        ensures { result ≡ indexed indices.now self.now.dim_desc.items }
    {
        let mut position = 0;
        let mut number = 0;
        let mut indices = indices;
        let mut dimensions = self.dim_desc.as_slice();
        while let (Some((index, others)), Some((dimension, rest))) = (
            indices.split_first(),
            dimensions.split_first(),
        ) {
            let Some(index) = entry(*index, dimension.0) else {
                return Err(IoFault::IndexError { dimension: number });
            };
            position = stepped(position, index, dimension);
            number += 1;
            indices = others;
            dimensions = rest;
        }
        Ok(position)
    }
}

//! All descriptors of so many dimensions.

use crate::compare;
use py_buffer::BufferDescriptor;
use std::alloc::{AllocError, Global};
use std::io;

/// Which dimensions are tried: 36 of each kind.
#[derive(Clone, Copy, Drop)]
pub(crate) enum Kind {
    /// Shapes 0 to 3 and strides -4 to 4, without a suboffset.
    Strides,
    /// Shapes 0 to 2, strides -1 to 2 and suboffsets 0 to 2.
    Suboffsets,
}

impl Kind {
    /// What the program prints of it.
    fn name(self) -> &'static str {
        match self {
            Kind::Strides => "no suboffsets",
            Kind::Suboffsets => "suboffsets",
        }
    }

    /// The dimension of a number below 36: its shape, its stride and its suboffset.
    fn dimension(self, number: usize) -> (usize, isize, isize) {
        match self {
            Kind::Strides => (number % 4, (number / 4) as isize - 4, 0),
            Kind::Suboffsets => (
                number % 3,
                (number / 3 % 4) as isize - 1,
                (number / 12) as isize,
            ),
        }
    }
}

/// What was tried, and how much of it was which. A count stands still at its type's end.
#[derive(Drop)]
pub(crate) struct Tally {
    pub tried: u64,
    pub refused: u64,
    pub contiguous: u64,
    pub joined: u64,
    pub segments: u64,
    pub covered: u64,
    pub positions: u64,
    pub refusals: u64,
    pub differ: u64,
}

impl Tally {
    fn new() -> Self {
        Tally {
            tried: 0,
            refused: 0,
            contiguous: 0,
            joined: 0,
            segments: 0,
            covered: 0,
            positions: 0,
            refusals: 0,
            differ: 0,
        }
    }

    /// Prints the counts.
    pub(crate) fn print(
        &self,
        rt: &HostRuntime,
        kind: Kind,
        itemsize: usize,
        dimensions: usize,
    ) -> io::Result<()> {
        println!(rt;
            "{}, items of {itemsize}, dimensions {dimensions}: {} descriptors",
            kind.name(),
            self.tried
        )?;
        println!(rt;
            "  refused {}, contiguous {}, with rows to join {}",
            self.refused, self.contiguous, self.joined
        )?;
        println!(rt;
            "  segments {}, lengths covered {}",
            self.segments, self.covered
        )?;
        println!(rt;
            "  positions {}, index faults {}",
            self.positions, self.refusals
        )?;
        println!(rt; "  differ {}", self.differ)
    }
}

/// The descriptor of a number: each dimension is a digit to the base 36.
fn descriptor(
    alloc: Global,
    kind: Kind,
    itemsize: usize,
    dimensions: usize,
    number: usize,
) -> Result<BufferDescriptor, AllocError> {
    let mut dim_desc = Vec::new(alloc);
    let mut len = itemsize;
    let mut left = number;
    for _ in 0..dimensions {
        let dimension = kind.dimension(left % 36);
        left /= 36;
        len = len.wrapping_mul(dimension.0);
        dim_desc.push(dimension)?;
    }
    Ok(BufferDescriptor {
        len,
        readonly: true,
        itemsize,
        format: "x",
        dim_desc,
    })
}

/// Tries all descriptors of so many dimensions and items of this many bytes.
pub(crate) fn sweep(
    alloc: Global,
    kind: Kind,
    itemsize: usize,
    dimensions: usize,
) -> Result<Tally, AllocError> {
    let mut tally = Tally::new();
    let mut count = 1usize;
    for _ in 0..dimensions {
        count = count.saturating_mul(36);
    }
    for number in 0..count {
        tally.tried = tally.tried.saturating_add(1);
        match descriptor(alloc, kind, itemsize, dimensions, number)?.validate() {
            None => tally.refused = tally.refused.saturating_add(1),
            Some(descriptor) => {
                if !compare::agrees(alloc, &descriptor, &mut tally)? {
                    tally.differ = tally.differ.saturating_add(1);
                }
            }
        }
    }
    Ok(tally)
}

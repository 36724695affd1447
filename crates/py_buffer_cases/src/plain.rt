//! The plain walk: where items begin, by a list of all positions.

use std::alloc::{AllocError, Global};

/// Where the items of some dimensions begin, in row order.
pub(crate) fn positions(
    alloc: Global,
    dimensions: &[(usize, isize, isize)],
) -> Result<Vec<isize>, AllocError> {
    let mut all = Vec::new(alloc);
    all.push(0isize)?;
    for (shape, stride, suboffset) in dimensions {
        let mut next = Vec::new(alloc);
        for position in all.as_slice() {
            let mut here = position.wrapping_add(*suboffset);
            for _ in 0..*shape {
                next.push(here)?;
                here = here.wrapping_add(*stride);
            }
        }
        all = next;
    }
    Ok(all)
}

/// Whether so many bytes from each position on lie within the first `n`.
pub(crate) fn lie_within(positions: &[isize], width: usize, n: usize) -> bool {
    positions
        .iter()
        .all(|p| *p >= 0 && p.unsigned_abs().saturating_add(width) <= n)
}

/// Whether the positions are 0 and on, an item's size apart.
pub(crate) fn follow(positions: &[isize], itemsize: usize) -> bool {
    let mut place = 0usize;
    for position in positions {
        if *position < 0 || position.unsigned_abs() != place {
            return false;
        }
        place = place.saturating_add(itemsize);
    }
    true
}

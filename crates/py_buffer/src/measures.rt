//! What the dimensions of a descriptor come to.
ghost use Rattle.std.specs.Prelude.{◌≡◌, ◌+◌, ◌-◌, ◌*◌, ◌^◌, ◌<◌, ◌≤◌, ◌↔◌, IsTrue, pos, unsigned_abs, MatchOption};
ghost use Rattle.py_buffer.specs.Descriptor.{Each, IsSound, items_in, bound_of, reach_of, IsRowMajor};

/// Whether no stride is 0 and no suboffset is negative.
pub(crate) fn are_sound(dimensions: &[(usize, isize, isize)]) -> bool
    ensures { IsTrue result ↔ Each IsSound dimensions.now }
{
    let mut dimensions = dimensions;
    while let Some((dimension, rest)) = dimensions.split_first() {
        if dimension.1 == 0 || dimension.2 < 0 {
            return false;
        }
        dimensions = rest;
    }
    true
}

/// Whether the product of the shapes, each 0 taken as 1, fits a `usize`.
pub(crate) fn bound_within(dimensions: &[(usize, isize, isize)]) -> bool
    ensures { IsTrue result ↔ (bound_of dimensions.now < 2 ^ 64) }
{
    let mut dimensions = dimensions;
    let mut bound: usize = 1;
    while let Some((dimension, rest)) = dimensions.split_first() {
        match bound.checked_mul(dimension.0.max(1)) {
            Some(product) => bound = product,
            None => return false,
        }
        dimensions = rest;
    }
    true
}

/// How many bytes lie from a dimension's first entry to the last, whatever the sign of its stride, with its suboffset; or
/// `None` where that doesn't fit.
fn reach(dimension: &(usize, isize, isize)) -> Option<usize>
    ensures { MatchOption result (2 ^ 64 ≤ (dimension.now.0 - 1) * unsigned_abs dimension.now.1 + unsigned_abs dimension.now.2)
        (λ n. n ≡ (dimension.now.0 - 1) * unsigned_abs dimension.now.1 + unsigned_abs dimension.now.2) }
{
    let (shape, stride, suboffset) = *dimension;
    let along = shape.saturating_sub(1).checked_mul(stride.unsigned_abs())?;
    along.checked_add(suboffset.unsigned_abs())
}

/// Whether no item ends further from the base than an `isize` can say.
pub(crate) fn reach_within(dimensions: &[(usize, isize, isize)], itemsize: usize) -> bool
    ensures { IsTrue result ↔ (reach_of dimensions.now + itemsize < 2 ^ 63) }
{
    let mut dimensions = dimensions;
    let mut end = itemsize;
    while let Some((dimension, rest)) = dimensions.split_first() {
        let Some(more) = reach(dimension) else {
            return false;
        };
        match end.checked_add(more) {
            Some(sum) => end = sum,
            None => return false,
        }
        dimensions = rest;
    }
    end <= isize::MAX as usize
}

/// How many items there are.
pub(crate) fn items_of(dimensions: &[(usize, isize, isize)]) -> usize
    requires { bound_of dimensions.now < 2 ^ 64 }
    ensures { result ≡ items_in dimensions.now }
{
    let mut dimensions = dimensions;
    let mut items = 1;
    while let Some((dimension, rest)) = dimensions.split_first() {
        items *= dimension.0;
        dimensions = rest;
    }
    items
}

/// Whether the entries of a dimension lie one after the other, each of so many bytes.
fn follows(dimension: &(usize, isize, isize), bytes: usize) -> bool
    ensures { IsTrue result ↔ ((dimension.now.2 ≡ pos 0) × (1 < dimension.now.0 → dimension.now.1 ≡ pos bytes)) }
{
    let (shape, stride, suboffset) = *dimension;
    if suboffset != 0 {
        return false;
    }
    shape <= 1 || stride >= 0 && stride.unsigned_abs() == bytes
}

/// Whether items of this many bytes lie one after the other, where there are some.
pub(crate) fn are_row_major(dimensions: &[(usize, isize, isize)], itemsize: usize) -> bool
    requires bounded { bound_of dimensions.now < 2 ^ 64 }
    requires some { 0 < items_in dimensions.now * itemsize }
    requires fits { items_in dimensions.now * itemsize < 2 ^ 64 }
    ensures { IsTrue result ↔ IsRowMajor itemsize dimensions.now }
{
    let mut bytes = items_of(dimensions) * itemsize;
    let mut dimensions = dimensions;
    while let Some((dimension, rest)) = dimensions.split_first() {
        bytes /= dimension.0;
        if !follows(dimension, bytes) {
            return false;
        }
        dimensions = rest;
    }
    true
}

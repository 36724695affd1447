//! One descriptor beside the plain walk.
ghost use Rattle.std.specs.Prelude.{IsTrue};
ghost use Rattle.py_buffer.specs.Descriptor.{IsValid};
ghost use Rattle.py_buffer.specs.Position.{AreIndices};

use crate::plain;
use crate::sweep::Tally;
use py_buffer::BufferDescriptor;
use py_flat::IoFault;
use std::alloc::{AllocError, Global};

/// Compares the segments with ranges of one width that begin at these positions.
fn compare_segments(
    descriptor: &BufferDescriptor,
    joined: bool,
    positions: &[isize],
    width: usize,
) -> bool
    requires { IsValid descriptor.now }
{
    let mut left = positions;
    for segment in descriptor.segments(joined) {
        let Some((position, rest)) = left.split_first() else {
            return false;
        };
        if segment.start != *position
            || segment.end.wrapping_sub(segment.start).unsigned_abs() != width
        {
            return false;
        }
        left = rest;
    }
    left.is_empty()
}

/// Compares what the calls with a closure go over with the segments: their bytes together, and the first one alone where the closure says
/// to stop there.
fn compare_calls(descriptor: &BufferDescriptor, joined: bool) -> bool
    requires { IsValid descriptor.now }
{
    let mut bytes = 0isize;
    for segment in descriptor.segments(joined) {
        bytes = bytes.saturating_add(segment.end.saturating_sub(segment.start));
    }
    let mut called = 0isize;
    let told = descriptor.for_each_segment(joined, |segment| {
        called = called.saturating_add(segment.end.saturating_sub(segment.start));
        false
    });
    let apart = descriptor.zip_eq(descriptor, joined, |one, other| {
        one.start != other.start || one.end != other.end
    });
    let mut calls = 0usize;
    let stopped = descriptor.for_each_segment(joined, |_| {
        calls = calls.saturating_add(1);
        true
    });
    let has_some = descriptor.segments(joined).next().is_some();
    !told && called == bytes && !apart && stopped == has_some && calls == usize::from(has_some)
}

/// Whether there is an index for each dimension, and each lies below its shape.
fn are_indices(indices: &[usize], dimensions: &[(usize, isize, isize)]) -> bool
    ensures { IsTrue result → AreIndices indices.now dimensions.now }
{
    let mut indices = indices;
    let mut dimensions = dimensions;
    while let (Some((index, others)), Some((dimension, rest))) = (
        indices.split_first(),
        dimensions.split_first(),
    ) {
        if *index >= dimension.0 {
            return false;
        }
        indices = others;
        dimensions = rest;
    }
    indices.is_empty() && dimensions.is_empty()
}

/// Compares the position of one item by indices that are known to be in bounds.
fn compare_fast(descriptor: &BufferDescriptor, indices: &[usize], position: isize) -> bool
    requires { IsValid descriptor.now }
{
    are_indices(indices, descriptor.dim_desc.as_slice())
        && descriptor.fast_position(indices) == position
}

/// Compares the position of each item, its indices counted from the front, checked and unchecked, and from the end.
fn compare_positions(
    alloc: Global,
    descriptor: &BufferDescriptor,
    positions: &[isize],
    tally: &mut Tally,
) -> Result<bool, AllocError>
    requires { IsValid descriptor.now }
{
    let dimensions = descriptor.dim_desc.as_slice();
    for (number, position) in positions.iter().enumerate() {
        let mut left = number;
        let mut places = Vec::new(alloc);
        let mut indices = Vec::new(alloc);
        let mut ends = Vec::new(alloc);
        for (shape, _, _) in dimensions.iter().rev() {
            let index = left.checked_rem(*shape).unwrap_or(0);
            left = left.checked_div(*shape).unwrap_or(0);
            places.push(index)?;
            let index = isize::try_from(index).unwrap_or(0);
            indices.push(index)?;
            ends.push(index.wrapping_sub(isize::try_from(*shape).unwrap_or(0)))?;
        }
        places.as_mut_slice().reverse();
        indices.as_mut_slice().reverse();
        ends.as_mut_slice().reverse();
        if indices.len() != dimensions.len() || ends.len() != dimensions.len() {
            return Ok(false);
        }
        tally.positions = tally.positions.saturating_add(3);
        if descriptor.position(indices.as_slice()) != Ok(*position)
            || descriptor.position(ends.as_slice()) != Ok(*position)
            || !compare_fast(descriptor, places.as_slice(), *position)
        {
            return Ok(false);
        }
    }
    Ok(true)
}

/// Compares an index past each end, dimension by dimension, the others being 0.
fn compare_refusals(
    alloc: Global,
    descriptor: &BufferDescriptor,
    tally: &mut Tally,
) -> Result<bool, AllocError>
    requires { IsValid descriptor.now }
{
    let dimensions = descriptor.dim_desc.as_slice();
    let first_empty = dimensions.iter().position(|d| d.0 == 0);
    for (number, (shape, _, _)) in dimensions.iter().enumerate() {
        let past = isize::try_from(*shape).unwrap_or(0);
        for index in [past, (-1isize).wrapping_sub(past)] {
            let mut indices = Vec::new(alloc);
            for other in 0..dimensions.len() {
                indices.push(if other == number { index } else { 0 })?;
            }
            if indices.len() != dimensions.len() {
                return Ok(false);
            }
            tally.refusals = tally.refusals.saturating_add(1);
            let dimension = first_empty.unwrap_or(number).min(number);
            if descriptor.position(indices.as_slice()) != Err(IoFault::IndexError { dimension }) {
                return Ok(false);
            }
        }
    }
    Ok(true)
}

/// Whether all that a descriptor answers is what the plain walk says.
pub(crate) fn agrees(
    alloc: Global,
    descriptor: &BufferDescriptor,
    tally: &mut Tally,
) -> Result<bool, AllocError>
    requires { IsValid descriptor.now }
{
    let dimensions = descriptor.dim_desc.as_slice();
    let itemsize = descriptor.itemsize;
    let items = plain::positions(alloc, dimensions)?;
    let Some((last, outer)) = dimensions.split_last() else {
        return Ok(false);
    };
    let joins = last.1 == isize::try_from(itemsize).unwrap_or(0) && last.2 == 0;
    let rows = plain::positions(alloc, outer)?;
    let wide = last.0.saturating_mul(itemsize);
    let contiguous = descriptor.len == 0 || plain::follow(items.as_slice(), itemsize);
    tally.contiguous = tally.contiguous.saturating_add(u64::from(contiguous));
    tally.joined = tally.joined.saturating_add(u64::from(joins));
    tally.segments = tally.segments.saturating_add(items.len() as u64);
    let mut same = compare_segments(descriptor, false, items.as_slice(), itemsize)
        && descriptor.is_contiguous() == contiguous
        && descriptor.is_zero_in_shape() == items.is_empty()
        && compare_calls(descriptor, false)
        && compare_calls(descriptor, true);
    same &= if joins {
        compare_segments(descriptor, true, rows.as_slice(), wide)
    } else {
        compare_segments(descriptor, true, items.as_slice(), itemsize)
    };
    for n in 0..13 {
        let covered = plain::lie_within(items.as_slice(), itemsize, n)
            && (!joins || plain::lie_within(rows.as_slice(), wide, n));
        tally.covered = tally.covered.saturating_add(u64::from(covered));
        same &= descriptor.covers(n) == covered;
    }
    same &= compare_positions(alloc, descriptor, items.as_slice(), tally)?;
    same &= compare_refusals(alloc, descriptor, tally)?;
    Ok(same)
}

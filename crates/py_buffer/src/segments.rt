//! The ranges of bytes that hold the items of a descriptor, in row order.
ghost use Rattle.std.specs.Prelude.{◌≡◌, ◌+◌, ◌^◌, ◌<◌, ◌↔◌, ◌&&◌, IsTrue, map, ◌∷◌, []};
ghost use Rattle.py_buffer.specs.Descriptor.{IsValid, Each, IsSound, items_in, reach_of};
ghost use Rattle.py_buffer.specs.Segments.{segments_of, walked_of, width_of, rows_join, is_row, paired_segments, Covers};
ghost use Rattle.py_buffer.specs.Calls.{CallsUntil};

use crate::BufferDescriptor;
use crate::measures::items_of;
use crate::walk::{edge, place};
use std::marker::Model;
use std::ops::Range;

/// The ranges of bytes of a descriptor's segments, in row order. `BufferDescriptor::segments` makes it.
#[derive(Debug, Drop)]
pub struct Segments<'a> {
    dimensions: &'a [(usize, isize, isize)],
    width: usize,
    count: usize,
    given: usize,
}

impl<'a> Model for Segments<'a> {
    ghost use Rattle.std.specs.Prelude.{List};
    ghost use Rattle.py_buffer.specs.Segments.{Span};

    ghost Value = { List Span };

    ghost use Rattle.py_buffer.specs.Walk.{spans_left, IsWalk};

    ghost view = { spans_left };

    ghost invariant = { IsWalk };
}

impl<'a> Iterator for Segments<'a> {
    ghost use Rattle.std.specs.Iterator.{YieldsFirst, item_count};

    type Item = Range<isize>;

    ghost next_gives = { YieldsFirst (λ left. left) };

    ghost remaining = { item_count (λ left. left) };

    fn next(&mut self) -> Option<Range<isize>> {
        if self.given == self.count {
            return None;
        }
        let start = place(self.dimensions, self.count, self.given);
        self.given += 1;
        Some(start..start + self.width as isize)
    }
}

/// Whether the items of a row lie one after the other.
fn is_row(dimension: &(usize, isize, isize), itemsize: usize) -> bool
    requires { itemsize < 2 ^ 63 }
    ensures { result ≡ is_row itemsize (dimension.now ∷ []) }
{
    dimension.1 == itemsize as isize && dimension.2 == 0
}

impl BufferDescriptor {
    /// Whether each row can be joined to one segment.
    fn joins_rows(&self) -> bool
        requires { IsValid self.now }
        ensures { result ≡ rows_join self.now }
    {
        match self.dim_desc.as_slice().split_last() {
            Some((last, _)) => is_row(last, self.itemsize),
            None => false,
        }
    }

    /// Whether rows are to be joined, and those of both can be.
    fn joins_rows_beside(&self, other: &Self, try_conti: bool) -> bool
        requires valid { IsValid self.now }
        requires other_valid { IsValid other.now }
        ensures { result ≡ (try_conti && rows_join self.now && rows_join other.now) }
    {
        try_conti && self.joins_rows() && other.joins_rows()
    }

    /// The dimensions whose indices move from one segment to the next, how many bytes a segment has, and how many there are.
    fn walked(&self, try_conti: bool) -> (&[(usize, isize, isize)], usize, usize)
        requires { IsValid self.now }
        ensures dimensions { result.0.now ≡ walked_of (try_conti && rows_join self.now) self.now.dim_desc.items }
        ensures width { result.1 ≡ width_of (try_conti && rows_join self.now) self.now.itemsize self.now.dim_desc.items }
        ensures counted { result.2 ≡ items_in result.0.now }
        ensures sound { Each IsSound result.0.now }
        ensures fits { reach_of result.0.now + result.1 < 2 ^ 63 }
    {
        let dimensions = self.dim_desc.as_slice();
        if try_conti && self.joins_rows() {
            if let Some((last, outer)) = dimensions.split_last() {
                return (outer, last.0 * self.itemsize, items_of(outer));
            }
        }
        (dimensions, self.itemsize, items_of(dimensions))
    }

    /// The segments in row order: the range of each item, or, where `try_conti` asks for it and the items of a row lie one
    /// after the other, of each row.
    ///
    /// A row without entries is an empty range.
    pub fn segments(&self, try_conti: bool) -> Segments<'_>
        requires { IsValid self.now }
        ensures { result ≡ segments_of self.now try_conti }
    {
        let (dimensions, width, count) = self.walked(try_conti);
        Segments {
            dimensions,
            width,
            count,
            given: 0,
        }
    }

    /// Calls `f` with the segments, as `segments` gives them, up to the first answer that is true, and answers whether one was.
    pub fn for_each_segment<F: FnMut(Range<isize>) -> bool>(
        &self,
        try_conti: bool,
        mut f: F,
    ) -> bool
        requires valid { IsValid self.now }
        requires calls { F.IsAlwaysCallable f }
        ensures { (last : F) × CallsUntil (λ p x b q. F.step p x b q) f (segments_of self.now try_conti) result last }
    {
        let mut segments = self.segments(try_conti);
        while let Some(segment) = segments.next() {
            if f(segment) {
                return true;
            }
        }
        false
    }

    /// Calls `f` with the segments of two descriptors of the same shapes, side by side, up to the first answer that is true, and
    /// answers whether one was.
    ///
    /// Rows are joined where `try_conti` asks for it and those of both can be.
    pub fn zip_eq<F: FnMut(Range<isize>, Range<isize>) -> bool>(
        &self,
        other: &Self,
        try_conti: bool,
        mut f: F,
    ) -> bool
        requires valid { IsValid self.now }
        requires other_valid { IsValid other.now }
        requires same_shapes { map (λ d. d.0) self.now.dim_desc.items ≡ map (λ d. d.0) other.now.dim_desc.items }
        requires calls { F.IsAlwaysCallable f }
        ensures { (last : F) × CallsUntil (λ p x b q. F.step p x.0 x.1 b q) f (paired_segments self.now other.now try_conti) result last }
    {
        let joined = self.joins_rows_beside(other, try_conti);
        let mut segments = self.segments(joined);
        let mut others = other.segments(joined);
        while let Some(segment) = segments.next() {
            let Some(beside) = others.next() else {
                return false;
            };
            if f(segment, beside) {
                return true;
            }
        }
        false
    }

    /// Whether each segment, joined or single, an empty one too, lies within the first `bytes_len` bytes.
    pub fn covers(&self, bytes_len: usize) -> bool
        requires { IsValid self.now }
        ensures { IsTrue result ↔ Covers self.now bytes_len }
    {
        let (dimensions, width, count) = self.walked(true);
        if count == 0 {
            return true;
        }
        let first = edge(true, dimensions);
        let end = edge(false, dimensions) + width as isize;
        first >= 0 && end.unsigned_abs() <= bytes_len
    }
}

//! Where the items of dimensions begin: each by its number, and those that lie furthest out.
ghost use Rattle.std.specs.Prelude.{◌≡◌, ◌+◌, ◌*◌, ◌^◌, ◌<◌, ◌≤◌, ◌↔◌, IsTrue, pos, ◌+ℤ◌, unsigned_abs};
ghost use Rattle.py_buffer.specs.Descriptor.{Each, IsSound, items_in, reach_of};
ghost use Rattle.py_buffer.specs.Segments.{place_of};
ghost use Rattle.py_buffer.specs.Edges.{edge_index, edge_of};

use crate::step::stepped;

/// Where the item of a number in row order begins, of so many items.
pub(crate) fn place(dimensions: &[(usize, isize, isize)], items: usize, number: usize) -> isize
    requires sound { Each IsSound dimensions.now }
    requires fits { reach_of dimensions.now < 2 ^ 63 }
    requires whole { items ≡ items_in dimensions.now }
    requires within { number < items }
    ensures value { result ≡ place_of dimensions.now number }
    ensures size { unsigned_abs result ≤ reach_of dimensions.now }
{
    let mut position = 0;
    let mut items = items;
    let mut number = number;
    let mut dimensions = dimensions;
    while let Some((dimension, rest)) = dimensions.split_first() {
        items /= dimension.0;
        position = stepped(position, number / items, dimension);
        number %= items;
        dimensions = rest;
    }
    position
}

/// The index that leads furthest in a dimension, to the front or to the back.
fn edge_index(front: bool, dimension: &(usize, isize, isize)) -> usize
    ensures { result ≡ edge_index front dimension.now.0 dimension.now.1 }
{
    if (dimension.1 < 0) == front {
        dimension.0.saturating_sub(1)
    } else {
        0
    }
}

/// Where the item that lies furthest to the front begins, or the one furthest to the back.
pub(crate) fn edge(front: bool, dimensions: &[(usize, isize, isize)]) -> isize
    requires sound { Each IsSound dimensions.now }
    requires fits { reach_of dimensions.now < 2 ^ 63 }
    ensures value { result ≡ edge_of front dimensions.now }
    ensures size { unsigned_abs result ≤ reach_of dimensions.now }
{
    let mut position = 0;
    let mut dimensions = dimensions;
    while let Some((dimension, rest)) = dimensions.split_first() {
        position = stepped(position, edge_index(front, dimension), dimension);
        dimensions = rest;
    }
    position
}

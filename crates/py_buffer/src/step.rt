//! One index in one dimension.
ghost use Rattle.std.specs.Prelude.{◌≡◌, ◌+◌, ◌*◌, ◌^◌, ◌<◌, ◌≤◌, pos, ◌+ℤ◌, ◌*ℤ◌, ◌≤ℤ◌, unsigned_abs};
ghost use Rattle.py_buffer.specs.Position.{step_of};

/// An index times a stride.
fn along(index: usize, stride: isize) -> isize
    requires { index * unsigned_abs stride < 2 ^ 63 }
    ensures value { result ≡ pos index *ℤ stride }
    ensures size { unsigned_abs result ≡ index * unsigned_abs stride }
{
    let distance = (index * stride.unsigned_abs()) as isize;
    if stride < 0 { -distance } else { distance }
}

/// A position moved by an index within a dimension.
pub(crate) fn stepped(position: isize, index: usize, dimension: &(usize, isize, isize)) -> isize
    requires fits { unsigned_abs position + (index * unsigned_abs dimension.now.1 + unsigned_abs dimension.now.2) < 2 ^ 63 }
    requires forward { pos 0 ≤ℤ dimension.now.2 }
    ensures value { result ≡ position +ℤ step_of index dimension.now }
    ensures size { unsigned_abs result ≤ unsigned_abs position + (index * unsigned_abs dimension.now.1 + unsigned_abs dimension.now.2) }
{
    let (_, stride, suboffset) = *dimension;
    position + along(index, stride) + suboffset
}

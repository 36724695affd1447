//! Buffers and streams in memory: the examples of docs/MEMORY.md.
ghost use Rattle.std.specs.Prelude.{◌≡◌, ◌*◌, length, IfOk};

use py_buffer::{BufferDescriptor, PyBuffer, contiguous_bytes_are_the_first};
use py_callers::{buffer_of_stream, mark_first};
use py_flat::IoFault;
use py_memio::BytesIO;
use std::alloc::Global;

/// The first `width` bytes of each row of a matrix, one row after the other. BadArgument says that a row leaves the matrix.
fn front_columns(
    alloc: Global,
    matrix: &[u8],
    rows: usize,
    columns: isize,
    width: usize,
) -> Result<Vec<u8>, IoFault>
    ensures { IfOk result (λ front. length front.items ≡ rows * width) }
{
    let Some(len) = rows.checked_mul(width) else {
        return Err(IoFault::TooFar);
    };
    let mut dim_desc = Vec::new(alloc);
    if dim_desc.push((rows, columns, 0)).is_err() || dim_desc.push((width, 1, 0)).is_err() {
        return Err(IoFault::NoMemory);
    }
    let desc = BufferDescriptor {
        len,
        readonly: true,
        itemsize: 1,
        format: "B",
        dim_desc,
    };
    let Some(buffer) = PyBuffer::new(matrix, desc) else {
        return Err(IoFault::BadArgument);
    };
    contiguous_bytes_are_the_first();
    let mut front = Vec::new(alloc);
    buffer.append_to(&mut front)?;
    Ok(front)
}

#[test]
fn front_columns_of_a_matrix_are_joined(rt: HostRuntime) {
    let alloc = rt.alloc();
    let front = front_columns(alloc, b"abcdef", 2, 3, 2).expect(&rt, "columns");
    assert!(rt; front.as_slice() == &b"abde"[..]);
    let outside = front_columns(alloc, b"abcde", 3, 3, 2); // the third row would begin after the last byte
    assert!(rt; outside.err() == Some(IoFault::BadArgument));
}

#[test]
fn the_first_byte_of_a_stream_is_edited_in_place(rt: HostRuntime) {
    let alloc = rt.alloc();
    let mut stream = BytesIO::new(alloc, b"abc".to_vec(alloc).expect(&rt, "room"));
    assert!(rt; mark_first(&mut stream, b'x') == Ok(()));
    let bytes = stream.getvalue(alloc).expect(&rt, "the bytes");
    assert!(rt; bytes.as_slice() == &b"xbc"[..]);
    assert!(rt; stream.write(b"yz") == Ok(2)); // the bytes are lent no more
}

#[test]
fn lent_bytes_of_a_stream_are_a_buffer(rt: HostRuntime) {
    let alloc = rt.alloc();
    let mut stream = BytesIO::new(alloc, b"abc".to_vec(alloc).expect(&rt, "room"));
    let export = stream.getbuffer().expect(&rt, "an export");
    let mut bytes = Vec::new(alloc);
    buffer_of_stream(alloc, &stream, export)
        .expect(&rt, "a buffer")
        .append_to(&mut bytes)
        .expect(&rt, "room");
    assert!(rt; bytes.as_slice() == &b"abc"[..]);
    assert!(rt; stream.release(export) == Ok(()));
    let refused = buffer_of_stream(alloc, &stream, export); // that number isn't out any more
    assert!(rt; refused.err() == Some(IoFault::BadArgument));
}

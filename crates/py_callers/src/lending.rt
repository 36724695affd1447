//! A caller of a stream in memory and of buffers: the bytes of a stream as a buffer.
ghost use Rattle.py_memio.specs.BytesIO.{use_refusal};
ghost use Rattle.py_callers.specs.Lending.{BufferOutcome};

use py_buffer::{BufferDescriptor, PyBuffer};
use py_memio::{BytesIO, Export, IoFault};
use std::alloc::Global;

/// The bytes that an export of a stream lends, as a buffer of bytes one by one that is only read.
///
/// `Closed` and `BadArgument` are those of `export_bytes`. `NoMemory`: there is none for the descriptor.
pub fn buffer_of_stream(
    alloc: Global,
    stream: &BytesIO,
    export: Export,
) -> Result<PyBuffer<'_>, IoFault>
    ensures { BufferOutcome (use_refusal stream.now export.0) stream.now.file.bytes result }
{
    let bytes = stream.export_bytes(export)?;
    let desc = BufferDescriptor::simple(alloc, bytes.len(), true)?;
    Ok(PyBuffer::new(bytes, desc).unwrap())
}

//! A caller of streams in memory: the first byte of a stream is written over in place.
ghost use Rattle.py_memio.specs.BytesIO.{export_refusal};
ghost use Rattle.py_callers.specs.Marking.{MarkOutcome};

use py_memio::{BytesIO, IoFault};

/// Writes a mark over the first byte of a stream; of one without bytes none is written. Its bytes are lent out for as long, so that
/// nothing may change how many there are.
///
/// `Closed`, `TooFar` and `NoMemory` are those of `getbuffer`, and leave all as it was.
pub fn mark_first(stream: &mut BytesIO, mark: u8) -> Result<(), IoFault>
    ensures { MarkOutcome (export_refusal stream.old) mark stream.old result stream.new }
{
    let export = stream.getbuffer()?;
    if let Some(first) = stream.export_bytes_mut(export)?.as_mut_slice().first_mut() {
        *first = mark;
    }
    stream.release(export)
}

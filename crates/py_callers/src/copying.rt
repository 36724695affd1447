//! A caller of streams: what a reader has left is copied to a writer.
ghost use Rattle.std.specs.Prelude.{◌≡◌, ◌⊎◌, true, false};
ghost use Rattle.py_flat.specs.Causes.{Rose};
ghost use Rattle.py_callers.specs.Copying.{Copied, CopyOutcome};

use py_buffered::{BufferedReader, BufferedWriter};
use py_raw::{IoFault, RawStream};
use std::alloc::Global;

/// Copies all bytes that a reader has left to a writer, by way of memory, and passes them on to the writer's raw.
///
/// `true`: all of them. `false`: the reader's raw would have blocked, and the bytes that came before were copied; the call may
/// be made again. An `Err` is that of the call that refused, after which docs/CALLS.md says what stands; bytes that were read and
/// that the writer didn't take are let go, so it is for files of the disk, which never block.
pub fn copy_all<R: RawStream, W: RawStream>(
    alloc: Global,
    reader: &mut BufferedReader<R>,
    writer: &mut BufferedWriter<W>,
) -> Result<bool, IoFault>
    ensures copied { result ≡ Ok true → Copied reader.old writer.old.stream writer.new.stream }
    ensures waited { result ≡ Ok false → Rose reader.old.raw.waits reader.new.raw.waits }
    ensures fault { result ≡ Err IoFault.RawFault → Rose reader.old.raw.faults reader.new.raw.faults ⊎ Rose writer.old.stream.raw.faults writer.new.stream.raw.faults }
    ensures outcome { CopyOutcome reader.old writer.old.stream result reader.new writer.new.stream }
{
    let _ = writer.buffer_size(); // by its clause there is a buffer, so that a write takes all that it is given
    let Some(bytes) = reader.read(alloc, None)? else {
        return Ok(false);
    };
    writer.write(&bytes)?;
    writer.flush()?;
    Ok(!reader.short())
}

//! Copies standard input to standard output through a buffered reader and a buffered writer.
//!
//! Over `ReadRaw` and `WriteRaw` the buffered streams serve any reader and writer; here it is tried how fast.
#![tactic(auto)]

use py_buffered::{BufferedReader, BufferedWriter};
use py_raw::{IoFault, RawStream, lengthen};
use py_raw_files::{ReadRaw, WriteRaw};
use std::process::ExitCode;

/// How many bytes are read before they are written.
const PIECE: usize = 1 << 16;

/// Copies what a reader has left to a writer, a piece at a time, and passes all on. `WouldBlock` where the reader's raw would
/// block: where a read was interrupted, or standard input was told not to block.
fn copy<R: RawStream, W: RawStream>(
    reader: &mut BufferedReader<R>,
    writer: &mut BufferedWriter<W>,
    piece: &mut [u8],
) -> Result<(), IoFault> {
    for _ in 0..u64::MAX {
        match reader.readinto1(piece)? {
            Some(0) => break,
            Some(count) => {
                writer.write(&piece[..count])?;
            }
            None => return Err(IoFault::WouldBlock { taken: 0 }),
        }
    }
    writer.flush()
}

/// Opens both streams and copies.
fn copy_standard(rt: &HostRuntime) -> Result<(), IoFault> {
    let alloc = rt.alloc();
    let mut piece = Vec::new(alloc);
    lengthen(&mut piece, PIECE)?;
    let mut reader = BufferedReader::new(alloc, ReadRaw::new(rt.stdin()), PIECE)?;
    let mut writer = BufferedWriter::new(alloc, WriteRaw::new(rt.stdout()), 8192)?;
    copy(&mut reader, &mut writer, &mut piece)
}

fn main(rt: HostRuntime) -> ExitCode {
    match copy_standard(&rt) {
        Ok(()) => ExitCode::SUCCESS,
        Err(fault) => {
            let _ = eprintln!(rt; "py_copy: {fault}");
            ExitCode::FAILURE
        }
    }
}

ghost use Rattle.py_adapters.specs.Lines.{ReadsLine};

use crate::{LineSource, LineValue};
use py_flat::IoFault;
use py_plain::Newlines;
use std::alloc::Global;

/// Reads a line by one `readline` of a source, at most `limit` bytes or characters of it, and answers it without its one LF at the
/// end, whatever its lines end with, as the lines of a file are given to a program.
///
/// `EndOfFile` where that line is empty: where nothing is left, or the limit is 0. Every other refusal, and `None` where the raw would
/// have blocked, is that of the `readline`, and what stands then it says.
pub fn file_readline<S: LineSource>(
    alloc: Global,
    source: &mut S,
    limit: Option<usize>,
) -> Result<Option<LineValue>, IoFault>
    ensures { ReadsLine S.answers source.old limit result source.new }
{
    match source.readline(alloc, limit) {
        Ok(Some(line)) => {
            if line.is_empty() {
                return Err(IoFault::EndOfFile);
            }
            Ok(Some(line.without_end(Newlines::Lf)))
        }
        Ok(None) => Ok(None),
        Err(fault) => Err(fault),
    }
}

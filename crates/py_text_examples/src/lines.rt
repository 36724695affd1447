//! Lines of whatever is read line by line.
use crate::making::{STRICT, text_of};
use anyhow::{Result, anyhow};
use py_adapters::{IoFault, LineSource, LineValue, file_readline};
use py_buffered::BufferedReader;
use py_raw::RawFlags;
use py_raw_memory::MemRaw;
use std::alloc::Global;

/// Appends a line of a source, without its LF.
fn push_line<S: LineSource>(alloc: Global, source: &mut S, out: &mut String) -> Result<()> {
    let line = match file_readline(alloc, source, None) {
        Ok(Some(LineValue::Text(line))) => format!(in alloc; " {}", line.as_str())?,
        Ok(Some(LineValue::Bytes(line))) => format!(in alloc; " {} bytes", line.len())?,
        Ok(None) => String::from_str(alloc, " not ready")?,
        Err(IoFault::EndOfFile) => String::from_str(alloc, " end")?,
        Err(fault) => return Err(anyhow!("{fault}")),
    };
    Ok(out.push_str(line.as_str())?)
}

/// Appends the lines of a text: of an LF after a CR, of a last line without an end, and of nothing.
fn push_lines_of_text(alloc: Global, out: &mut String) -> Result<()> {
    let mut text = text_of(alloc, b"ann\r\nc", &[], STRICT)?;
    push_three(alloc, &mut text, out)
}

/// Appends three lines of a source that is lent: a `?` drops nothing of it.
fn push_three<S: LineSource>(alloc: Global, source: &mut S, out: &mut String) -> Result<()> {
    push_line(alloc, source, out)?; // "ann"
    push_line(alloc, source, out)?; // "c": the last line may lack its end
    push_line(alloc, source, out) // nothing is left
}

/// Appends the line of a stream of bytes.
fn push_line_of_bytes(alloc: Global, out: &mut String) -> Result<()> {
    let flags = RawFlags::able(true, false, true);
    let bytes = b"ann\r\n".to_vec(alloc)?;
    let raw = MemRaw::new(bytes, flags, Vec::new(alloc), Vec::new(alloc));
    let mut reader = BufferedReader::new(alloc, raw, 8192)?;
    push_line(alloc, &mut reader, out) // four bytes: the CR is none of its end
}

/// Lines of a text and of a stream of bytes, by one function.
pub(crate) fn of_both(alloc: Global) -> Result<String> {
    let mut out = String::from_str(alloc, "lines:")?;
    push_lines_of_text(alloc, &mut out)?;
    push_line_of_bytes(alloc, &mut out)?;
    Ok(out)
}

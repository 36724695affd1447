ghost use Rattle.std.specs.Prelude.{◌≡◌, map, IfOk};
ghost use Rattle.std.specs.Option.{option_map};
ghost use Rattle.py_script.specs.Script.{line_call, is_skipped, lines_calls, script_calls};

use crate::line_call::words_call;
use crate::pieces::pieces;
use py_calls::Call;
use std::alloc::{AllocError, Global};

/// The calls of a script, in order, or `None` where a line is malformed; `Err` when out of memory.
///
/// Lines end at LF, and the last may lack it. An empty line and one that begins with `#` are skipped, whatever follows
/// the `#`. The script language is this project's own: docs/PROGRAM.md.
pub fn parse_script(alloc: Global, script: &[u8]) -> Result<Option<Vec<Call>>, AllocError>
    ensures { IfOk result (λ calls. option_map (λ some. some.items) calls ≡ script_calls script.now) }
{
    let lines = pieces(alloc, script, b'\n')?;
    parse_lines(alloc, &lines)
}

/// The calls of lines, without their LF, or `None` where one is malformed; `Err` when out of memory.
fn parse_lines(alloc: Global, lines: &[&[u8]]) -> Result<Option<Vec<Call>>, AllocError>
    ensures { IfOk result (λ calls. option_map (λ some. some.items) calls ≡ lines_calls (map (λ line. line.now) lines.now)) }
{
    let mut calls = Vec::new(alloc);
    for line in lines {
        if is_skipped(line) {
            continue;
        }
        match parse_line(alloc, line)? {
            Some(call) => calls.push(call)?,
            None => return Ok(None),
        }
    }
    Ok(Some(calls))
}

/// The call of a script's line, without its LF, or `None` where the line is malformed; `Err` when out of memory.
///
/// A line is one of these, with one space between its words:
/// - `read`, `read1`, `readline`, `readlines`, `truncate` or `chunksize`, alone or with a size, `readinto` or `readinto1` with one;
/// - `write` with bytes, `writelines` with the bytes of each line, of none too, `writetext` with the UTF-8 of a text;
/// - `seek` with an offset, or with an offset and a whence, which is 0 where there is none; `seektext` so with a cookie's bytes;
/// - `reconfigure` with settings, of none too, each at most once and in this order: `encoding=` and `errors=` with a name that is
///   built in, `newline=` with `none` or the UTF-8 of a newline argument, which of the empty one may be nothing at all, `line=` and
///   `through=` with 0 or 1;
/// - `peek`, `tell`, `flush`, `close`, `detach`, `readable`, `writable`, `seekable`, `closed`, `encoding` or `errors`, alone.
///
/// A size is one or more decimal digits, up to 18446744073709551615. An offset is the same after at most one `-`, from
/// -9223372036854775808 to 9223372036854775807, and so is a whence, from -2147483648 to 2147483647: which of them mean
/// something is left to the call. Leading zeros are allowed, `+` is not. Bytes are hex of either case, two digits to a
/// byte, or `-` for none. Every other line is malformed (docs/PROGRAM.md).
pub fn parse_line(alloc: Global, line: &[u8]) -> Result<Option<Call>, AllocError>
    ensures { IfOk result (λ call. call ≡ line_call line.now) }
{
    let words = pieces(alloc, line, b' ')?;
    words_call(alloc, &words)
}

/// Whether a line is skipped: it is empty, or begins with `#`.
fn is_skipped(line: &[u8]) -> bool
    ensures { result ≡ is_skipped line.now }
{
    match line {
        [] => true,
        [byte, ..] => *byte == b'#',
    }
}

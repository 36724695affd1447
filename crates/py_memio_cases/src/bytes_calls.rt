//! The calls of a `BytesIO`.
use crate::answers;
use crate::words::{bytes_of, hex_of, place_of, size_of, split};
use anyhow::{Result, anyhow};
use py_callers::mark_first;
use py_memio::{BytesIO, Data, Export, IoFault, Lines};
use py_stream::BufferedStream;
use std::alloc::Global;

/// A stream of bytes.
pub(crate) fn stream_of(alloc: Global, word: &str) -> Result<BytesIO> {
    Ok(BytesIO::new(alloc, bytes_of(alloc, word)?))
}

/// Bytes that were read.
pub(crate) fn bytes(alloc: Global, came: Result<Vec<u8>, IoFault>) -> Result<String> {
    match came {
        Ok(bytes) => hex_of(alloc, &bytes),
        Err(fault) => answers::refused(alloc, fault),
    }
}

/// Lines that were read.
fn lines(alloc: Global, came: Result<Lines, IoFault>) -> Result<String> {
    let lines = match came {
        Ok(lines) => lines,
        Err(fault) => return answers::refused(alloc, fault),
    };
    if lines.len() == 0 {
        return Ok(String::from_str(alloc, "none")?);
    }
    let mut all = String::new(alloc);
    for line in lines.as_slice() {
        if !all.is_empty() {
            all.push(' ')?;
        }
        all.push_str(&hex_of(alloc, line.as_slice())?)?;
    }
    Ok(all)
}

/// Reads into a buffer of a size, by one transfer or not, and answers what came into it.
fn read_into(alloc: Global, stream: &mut BytesIO, size: usize, one: bool) -> Result<String> {
    let mut buffer = vec![in alloc; 0; size]?;
    let came = if one {
        stream.readinto1(buffer.as_mut_slice())
    } else {
        stream.readinto(buffer.as_mut_slice())
    };
    match came {
        Ok(count) => {
            buffer.truncate(count);
            hex_of(alloc, &buffer)
        }
        Err(fault) => answers::refused(alloc, fault),
    }
}

/// Lines by the hex digits of each.
fn lines_of(alloc: Global, words: &str) -> Result<Lines> {
    let mut lines = Lines::new(alloc);
    for word in words.split_whitespace() {
        lines.push(Data::from_vec(bytes_of(alloc, word)?))?;
    }
    Ok(lines)
}

/// Writes the letter z over all bytes that an export lends.
fn fill(stream: &mut BytesIO, export: Export) -> Result<(), IoFault> {
    stream.export_bytes_mut(export)?.as_mut_slice().fill(b'z');
    Ok(())
}

/// Writes by what may change how many bytes there are.
fn resize(alloc: Global, stream: &mut BytesIO, word: &str) -> Result<String> {
    let bytes = bytes_of(alloc, word)?;
    match stream.try_resizable() {
        Ok(mut resizable) => answers::count(alloc, resizable.write(&bytes)),
        Err(fault) => answers::refused(alloc, fault),
    }
}

/// Truncates by what may change how many bytes there are.
fn cut(alloc: Global, stream: &mut BytesIO, words: &str) -> Result<String> {
    match stream.try_resizable_opt() {
        Some(mut resizable) => answers::number(alloc, resizable.truncate(place_of(words)?)),
        None => Ok(String::from_str(alloc, "none")?),
    }
}

/// A call of an export.
fn use_export(alloc: Global, stream: &mut BytesIO, name: &str, export: Export) -> Result<String> {
    match name {
        "release" => answers::done(alloc, stream.release(export)),
        "fill" => answers::done(alloc, fill(stream, export)),
        _ => match stream.export_bytes(export) {
            Ok(lent) => hex_of(alloc, lent),
            Err(fault) => answers::refused(alloc, fault),
        },
    }
}

/// Makes a call, and answers what came as words.
pub(crate) fn answer(alloc: Global, stream: &mut BytesIO, call: &str) -> Result<String> {
    let (name, words) = split(call);
    match name {
        "read" => bytes(alloc, stream.read(alloc, size_of(words)?)),
        "read1" => bytes(alloc, stream.read1(alloc, size_of(words)?)),
        "readline" => bytes(alloc, stream.readline(alloc, size_of(words)?)),
        "readlines" => lines(alloc, stream.readlines(alloc, size_of(words)?)),
        "readinto" => read_into(alloc, stream, words.parse::<usize>()?, false),
        "readinto1" => read_into(alloc, stream, words.parse::<usize>()?, true),
        "write" => answers::count(alloc, stream.write(&bytes_of(alloc, words)?)),
        "resize" => resize(alloc, stream, words),
        "resizable" => answers::flag(alloc, stream.try_resizable_opt().is_some()),
        "writelines" => {
            let lines = lines_of(alloc, words)?;
            answers::done(alloc, stream.writelines(alloc, &lines))
        }
        "seek" => {
            let (offset, whence) = split(words);
            answers::number(
                alloc,
                stream.seek(offset.parse::<i64>()?, whence.parse::<i32>()?),
            )
        }
        "tell" => answers::number(alloc, stream.tell()),
        "end" => answers::number(alloc, stream.end()),
        "taken" => answers::number(alloc, Ok(stream.taken())),
        "exported" => answers::flag(alloc, stream.exported()),
        "cut" => cut(alloc, stream, words),
        "truncate" => answers::number(alloc, stream.truncate(place_of(words)?)),
        "getvalue" => bytes(alloc, stream.getvalue(alloc)),
        "getbuffer" => answers::number(alloc, stream.getbuffer().map(|export| export.0)),
        "release" | "fill" | "export" => {
            use_export(alloc, stream, name, Export(words.parse::<u64>()?))
        }
        "mark" => answers::done(alloc, mark_first(stream, words.parse::<u8>()?)),
        "flush" => answers::done(alloc, stream.flush()),
        "close" => answers::done(alloc, stream.close()),
        "closed" => answers::flag(alloc, stream.closed()),
        "readable" => answers::flag(alloc, stream.readable()),
        "writable" => answers::flag(alloc, stream.writable()),
        "seekable" => answers::flag(alloc, stream.seekable()),
        name => Err(anyhow!("no call {name}")),
    }
}

//! Whatever text is written to.
use crate::making::STRICT;
use crate::writing::bytes_of;
use anyhow::Result;
use py_adapters::{IoWriter, IoWriterRef, PyWriter, Write};
use py_buffered::BufferedWriter;
use py_flat::IoFault;
use py_memio::BytesIO;
use py_raw::{Failed, MemSink, RawFlags};
use py_raw_memory::MemRaw;
use py_text::TextSettings;
use py_textio::TextIOWrapper;
use std::alloc::Global;

/// Writes a greeting to whatever takes text.
fn greet<W: Write>(alloc: Global, to: &mut W, name: &str) -> Result<(), W::Error> {
    to.write_text(alloc, "hello ")?;
    to.write_text(alloc, name)
}

/// A greeting is written to a string.
pub(crate) fn to_a_string(alloc: Global) -> Result<String> {
    let mut string = String::new(alloc);
    greet(alloc, &mut string, "a")?;
    Ok(string)
}

/// A greeting is written to a sink that has room for one.
pub(crate) fn to_a_sink(alloc: Global) -> Result<String> {
    let mut sink = IoWriter(MemSink::with_room(alloc, 8, Vec::new(alloc))?);
    let is_taken = greet(alloc, &mut sink, "b").is_ok(); // all of its 7 bytes, in UTF-8
    let fails = greet(alloc, &mut sink, "c") == Err(Failed); // one more byte has room
    Ok(format!(in alloc; "to a sink: {is_taken} {fails}")?)
}

/// A greeting is written to a sink that is lent, and then one byte by the sink's owner, for which there is no room.
pub(crate) fn to_a_lent_sink(alloc: Global) -> Result<String> {
    let mut sink = MemSink::with_room(alloc, 7, Vec::new(alloc))?;
    let is_taken = greet(alloc, &mut IoWriterRef(&mut sink), "b").is_ok(); // all of its 7 bytes
    let fails = IoWriter(sink).write_text(alloc, "!") == Err(Failed);
    Ok(format!(in alloc; "to a lent sink: {is_taken} {fails}")?)
}

/// A greeting is written to a text by its own `write`.
fn greet_in(alloc: Global, text: &mut TextIOWrapper<BytesIO>) -> Result<(), IoFault> {
    greet(alloc, &mut PyWriter(text), "é")
}

/// A greeting is written to a text over a stream.
pub(crate) fn to_a_text(alloc: Global) -> Result<String> {
    let buffer = BytesIO::new(alloc, Vec::new(alloc));
    let mut text = TextIOWrapper::new(alloc, buffer, STRICT, TextSettings::default())?;
    let greeted = greet_in(alloc, &mut text);
    let bytes = bytes_of(alloc, &mut text);
    greeted?;
    shown(alloc, bytes?)
}

/// The bytes of a text that was greeted.
fn shown(alloc: Global, bytes: Vec<u8>) -> Result<String> {
    Ok(format!(in alloc; "to a text: {:?}", bytes.as_slice())?)
}

/// An x is written to a text over a raw, by a writer that is lent the text, which is flushed then.
pub(crate) fn to_a_raw(alloc: Global) -> Result<String> {
    let flags = RawFlags::able(false, true, true);
    let raw = MemRaw::new(Vec::new(alloc), flags, Vec::new(alloc), Vec::new(alloc));
    let buffer = BufferedWriter::new(alloc, raw, 8192)?;
    let mut text = TextIOWrapper::new(alloc, buffer, STRICT, TextSettings::default())?;
    let is_flushed = write_x(alloc, &mut text).is_ok();
    let has = match text.buffer() {
        Some(buffer) => match buffer.raw() {
            Some(raw) => raw.bytes_of() == b"x".as_slice(),
            None => false,
        },
        None => false,
    };
    Ok(format!(in alloc; "to a raw: {is_flushed} {has}")?)
}

/// Writes an x to a text that is lent, and flushes it.
fn write_x(alloc: Global, text: &mut TextIOWrapper<BufferedWriter<MemRaw>>) -> Result<(), IoFault> {
    PyWriter(text).write_text(alloc, "x")?;
    text.flush()
}

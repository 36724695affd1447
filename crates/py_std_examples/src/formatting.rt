//! Text that is written by std's `fmt`.
use anyhow::Result;
use py_adapters::FmtWriter;
use py_buffered::BufferedWriter;
use py_codec::{Encoding, Handler};
use py_flat::IoFault;
use py_memio::BytesIO;
use py_raw::RawFlags;
use py_raw_memory::{Cut, MemRaw};
use py_text::{Coder, TextSettings};
use py_textio::TextIOWrapper;
use std::alloc::Global;
use std::fmt::Write;

/// ISO 8859-1, in which nothing is replaced.
const LATIN: Coder = Coder {
    encoding: Encoding::Latin1,
    errors: Handler::Strict,
};

/// Values are written to a text, in its encoding.
pub(crate) fn formatted(alloc: Global) -> Result<String> {
    let bytes = BytesIO::new(alloc, Vec::new(alloc));
    let mut text = TextIOWrapper::new(alloc, bytes, LATIN, TextSettings::default())?;
    let written = lent_formatted(alloc, &mut text);
    shown(alloc, written)
}

/// The calls of `formatted`, of a text that is lent: a `?` drops nothing of it.
fn lent_formatted(alloc: Global, text: &mut TextIOWrapper<BytesIO>) -> Result<Vec<u8>, IoFault> {
    let mut writer = FmtWriter::new(alloc, text);
    let number = 12;
    if write!(writer, "caf\u{E9}: {number}\n").is_err() {
        return Err(match writer.fault() {
            None | Some(IoFault::WouldBlock { taken: _ }) => IoFault::BadArgument, // the text took each piece: a value's own `fmt` failed
            Some(refusal) => refusal,
        });
    }
    text.flush()?;
    match text.buffer() {
        Some(bytes) => bytes.getvalue(alloc),
        None => Err(IoFault::Detached),
    }
}

/// The bytes that were written.
fn shown(alloc: Global, written: Result<Vec<u8>, IoFault>) -> Result<String> {
    let written = written?;
    Ok(format!(in alloc; "formatted: {:?}", written.as_slice())?)
}

/// What a writer tells of a wait, which stops nothing, and of a character that the encoding lacks.
pub(crate) fn told(alloc: Global) -> Result<String> {
    let flags = RawFlags::able(false, true, false); // it can be written
    let plan = [Cut::Wait].to_vec(alloc)?;
    let raw = MemRaw::new(Vec::new(alloc), flags, plan, Vec::new(alloc));
    let buffer = BufferedWriter::new(alloc, raw, 8)?;
    let mut settings = TextSettings::default();
    settings.line_buffering = true;
    let mut text = TextIOWrapper::new(alloc, buffer, LATIN, settings)?;
    let (waits, refusals) = lent_told(alloc, &mut text);
    shown_told(alloc, waits, refusals)
}

/// Whether something was written, and what the writer tells of it.
type Answer = (bool, Option<IoFault>);

/// The calls of `told`, of a text that is lent.
fn lent_told(alloc: Global, text: &mut TextIOWrapper<BufferedWriter<MemRaw>>) -> (Answer, Answer) {
    let mut writer = FmtWriter::new(alloc, text);
    let line = write!(writer, "caf\u{E9}\n").is_ok(); // the raw would have blocked: the text keeps the line
    let wait = writer.fault();
    let euro = write!(writer, "\u{20AC}").is_ok();
    ((line, wait), (euro, writer.fault()))
}

/// Both answers.
fn shown_told(alloc: Global, waits: Answer, refusals: Answer) -> Result<String> {
    Ok(format!(in alloc; "told: {waits:?} {refusals:?}")?)
}

//! Texts over buffered streams.
use crate::shown::characters;
use anyhow::Result;
use py_buffered::BufferedReader;
use py_codec::{Encoding, Handler, NoHandler};
use py_flat::IoFault;
use py_memio::BytesIO;
use py_raw::RawFlags;
use py_raw_memory::{Cut, MemRaw};
use py_registry::{CodecsRegistry, NoSearch};
use py_text::{Coder, TextSettings, find_coder};
use py_textio::TextIOWrapper;
use std::alloc::Global;

/// UTF-8, in which no bad byte is passed.
pub(crate) const STRICT: Coder = Coder {
    encoding: Encoding::Utf8,
    errors: Handler::Strict,
};

/// A text over a buffered reader of bytes in memory.
pub(crate) type OverBytes = TextIOWrapper<BufferedReader<MemRaw>>;

/// A text over a buffered reader of some bytes, which come as a plan says.
pub(crate) fn text_of(
    alloc: Global,
    bytes: &[u8],
    plan: &[Cut],
    coder: Coder,
) -> Result<OverBytes> {
    let flags = RawFlags::able(true, false, true); // it can be read and moved
    let bytes = bytes.to_vec(alloc)?;
    let raw = MemRaw::new(bytes, flags, plan.to_vec(alloc)?, Vec::new(alloc));
    let buffer = BufferedReader::new(alloc, raw, 8192)?;
    Ok(TextIOWrapper::new(alloc, buffer, coder, TextSettings::default())?)
}

/// A text over a buffered reader, by a coder that is written down.
pub(crate) fn read_by_hand(alloc: Global) -> Result<String> {
    let flags = RawFlags::able(true, false, true); // it can be read and moved
    let bytes = b"caf\xE9\r\nbar".to_vec(alloc)?;
    let raw = MemRaw::new(bytes, flags, Vec::new(alloc), Vec::new(alloc)); // or any other RawStream
    let buffer = BufferedReader::new(alloc, raw, 8192)?;
    let coder = Coder {
        encoding: Encoding::Latin1,
        errors: Handler::Strict,
    };
    let mut text = TextIOWrapper::new(alloc, buffer, coder, TextSettings::default())?;
    Ok(lent_read_by_hand(alloc, &mut text)?)
}

/// The readings of `read_by_hand`, of a text that is lent: a `?` drops nothing of it.
fn lent_read_by_hand(alloc: Global, text: &mut OverBytes) -> Result<String, IoFault> {
    let line = text.readline(alloc, None)?; // Some("café\n"): CR LF is read as LF
    let rest = text.read(alloc, None)?; // Some("bar")
    Ok(format!(in alloc; "by hand: {:?} {:?}", characters(&line), characters(&rest))?)
}

/// A text over a stream in memory, by a coder that is found by names.
pub(crate) fn read_by_names(alloc: Global) -> Result<String> {
    let coder = coder_by_names(alloc)?;
    let buffer = BytesIO::new(alloc, b"h\0i\0\x00\xD8".to_vec(alloc)?);
    let mut text = TextIOWrapper::new(alloc, buffer, coder, TextSettings::default())?;
    Ok(lent_read_by_names(alloc, &mut text)?)
}

/// A coder that is found by names.
fn coder_by_names(alloc: Global) -> Result<Coder> {
    let mut registry = CodecsRegistry::<NoSearch, NoHandler>::new(alloc)?;
    let coder = find_coder(&mut registry, alloc, "UTF-16LE", "replace", true, true)?;
    Ok(coder)
}

/// The reading of `read_by_names`, of a text that is lent.
fn lent_read_by_names(alloc: Global, text: &mut TextIOWrapper<BytesIO>) -> Result<String, IoFault> {
    let all = text.read(alloc, None)?; // Some("hi\u{FFFD}"): an unpaired surrogate is replaced
    Ok(format!(in alloc; "by names: {:?}", characters(&all))?)
}

/// A text in memory by the coder of utf-8 and strict, which is read to its end and detached.
pub(crate) fn read_and_detached(alloc: Global) -> Result<String> {
    let mut registry = CodecsRegistry::<NoSearch, NoHandler>::new(alloc)?;
    let coder = find_coder(&mut registry, alloc, "utf-8", "strict", true, true)?;
    let buffer = BytesIO::new(alloc, b"abc".to_vec(alloc)?);
    let mut text = TextIOWrapper::new(alloc, buffer, coder, TextSettings::default())?;
    Ok(lent_read_and_detached(alloc, &mut text)?)
}

/// The reading and detaching of `read_and_detached`, of a text that is lent.
fn lent_read_and_detached(
    alloc: Global,
    text: &mut TextIOWrapper<BytesIO>,
) -> Result<String, IoFault> {
    let all = text.read(alloc, None)?; // Some("abc")
    let buffer = text.detach()?.buffer; // the `BytesIO`
    let bytes = buffer.getvalue(alloc)?;
    Ok(format!(in alloc;
        "read and detached: {:?} {:?}",
        characters(&all),
        bytes.as_slice()
    )?)
}

/// A text that isn't made hands its buffer back.
pub(crate) fn refused(alloc: Global) -> Result<String> {
    let buffer = BytesIO::new(alloc, b"a".to_vec(alloc)?);
    let mut settings = TextSettings::default();
    settings.chunk_size = 0;
    match TextIOWrapper::new(alloc, buffer, STRICT, settings) {
        Ok(_) => Ok(String::from_str(alloc, "refused: no")?),
        Err(refused) => {
            let is_argument = refused.fault == IoFault::BadArgument;
            let buffer = refused.raw; // as it was
            let length = buffer.getvalue(alloc)?.len();
            Ok(format!(in alloc; "refused: {is_argument}, {length} byte")?)
        }
    }
}

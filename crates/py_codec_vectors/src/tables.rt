use crate::codec::{Codec, Expected};
use crate::cuts;
use crate::padding::{pad, padding};
use crate::pieces_of_texts::try_pieces;
use crate::records::Records;
use crate::tally::Tally;
use crate::texts::try_text;
use crate::words::Unread;
use py_codec::{Encoding, Handler};
use std::alloc::{AllocError, Global};

/// What a table of another program's answers is about.
#[derive(Clone, Copy)]
pub(crate) enum Table {
    Decodings,
    Surrogates,
    Encodings,
    Texts,
    PiecesOfTexts,
}

/// Whether an input after n characters of ASCII gives these and what is replaced: so runs of every length that
/// are taken at once end at it.
fn padded_decodes(
    alloc: Global,
    codec: Codec,
    input: &[u8],
    replaced: &[u8],
    count: usize,
) -> Result<bool, AllocError> {
    let mut padded = pad(alloc, codec.encoding, count)?;
    padded.extend_from_slice(input)?;
    let mut expected = pad(alloc, Encoding::Utf8, count)?;
    expected.extend_from_slice(replaced)?;
    let expected = Expected::All(&expected, padded.len());
    Ok(codec.decodes(alloc, &padded, 0, true, expected))
}

/// Whether a text after n characters of ASCII is written as these and what is escaped.
fn padded_encodes(
    alloc: Global,
    codec: Codec,
    text: &str,
    escaped: &[u8],
    count: usize,
) -> Result<bool, AllocError> {
    let mut padded: String = (0..count).map(|_| 'x').collect(alloc)?;
    padded.push_str(text)?;
    let mut expected = pad(alloc, codec.encoding, count)?;
    expected.extend_from_slice(escaped)?;
    let expected = Expected::All(&expected, padded.chars().count());
    Ok(codec.encodes(alloc, &padded, expected))
}

/// Decodes the next input by each of four handlers, at once and in the plain slow program, and by replace byte by byte and
/// after n characters of ASCII.
fn try_decoding(
    alloc: Global,
    records: &mut Records<'_>,
    padding: usize,
    tally: &mut Tally,
) -> Result<(), Unread> {
    let encoding = records.encoding()?;
    let input = records.counted()?;
    let refusal = records.refusal()?;
    let ignored = Expected::All(records.counted()?, input.len());
    let replaced = records.counted()?;
    let escaped = records.counted()?;
    // What strict accepts is what ignore reads.
    let strict = match refusal {
        Some(refusal) => Expected::Refused(refusal, None),
        None => ignored,
    };
    tally.input();
    for (handler, expected) in [
        (Handler::Strict, strict),
        (Handler::Ignore, ignored),
        (Handler::Replace, Expected::All(replaced, input.len())),
        (
            Handler::BackslashReplace,
            Expected::All(escaped, input.len()),
        ),
    ] {
        let codec = Codec { encoding, handler };
        tally.answer(codec.decodes(alloc, input, 0, true, expected));
        tally.answer(codec.plainly_decodes(alloc, input, 0, expected)?);
    }
    let codec = Codec {
        encoding,
        handler: Handler::Replace,
    };
    tally.answer(cuts::bytewise_gives(alloc, codec, input, replaced));
    tally.answer(padded_decodes(alloc, codec, input, replaced, padding)?);
    Ok(())
}

/// Decodes the next input by surrogateescape and surrogatepass.
fn try_surrogates(
    alloc: Global,
    records: &mut Records<'_>,
    tally: &mut Tally,
) -> Result<(), Unread> {
    let encoding = records.encoding()?;
    let input = records.counted()?;
    tally.input();
    for handler in [Handler::SurrogateEscape, Handler::SurrogatePass] {
        let expected = records.answer(input.len())?;
        let codec = Codec { encoding, handler };
        tally.answer(codec.decodes(alloc, input, 0, true, expected));
    }
    Ok(())
}

/// Encodes the next text by each of five handlers, at once and in the plain slow program, and by backslashreplace after n
/// characters of ASCII.
fn try_encoding(
    alloc: Global,
    records: &mut Records<'_>,
    padding: usize,
    tally: &mut Tally,
) -> Result<(), Unread> {
    let encoding = records.encoding()?;
    let Ok(text) = str::from_utf8(records.counted()?) else {
        return Err(Unread::Malformed);
    };
    let count = text.chars().count();
    let strict = records.answer(count)?;
    let ignored = records.counted()?;
    let replaced = records.counted()?;
    let escaped = records.counted()?;
    let referred = records.counted()?;
    tally.input();
    for (handler, expected) in [
        (Handler::Strict, strict),
        (Handler::Ignore, Expected::All(ignored, count)),
        (Handler::Replace, Expected::All(replaced, count)),
        (Handler::BackslashReplace, Expected::All(escaped, count)),
        (Handler::XmlCharRefReplace, Expected::All(referred, count)),
    ] {
        let codec = Codec { encoding, handler };
        tally.answer(codec.encodes(alloc, text, expected));
        tally.answer(codec.plainly_encodes(alloc, text, expected)?);
    }
    let codec = Codec {
        encoding,
        handler: Handler::BackslashReplace,
    };
    tally.answer(padded_encodes(alloc, codec, text, escaped, padding)?);
    Ok(())
}

/// Tries each record of a table. One that is cut or malformed ends it, which the counts tell.
pub(crate) fn compare(alloc: Global, table: Table, bytes: &[u8]) -> Result<Tally, AllocError> {
    let mut records = Records::new(bytes);
    let mut tally = Tally::new();
    for index in 0..bytes.len() {
        let tried = match table {
            Table::Decodings => try_decoding(alloc, &mut records, padding(index), &mut tally),
            Table::Surrogates => try_surrogates(alloc, &mut records, &mut tally),
            Table::Encodings => try_encoding(alloc, &mut records, padding(index), &mut tally),
            Table::Texts => try_text(alloc, &mut records, &mut tally),
            Table::PiecesOfTexts => try_pieces(alloc, &mut records, &mut tally),
        };
        match tried {
            Ok(()) => tally.place_record(alloc, index)?,
            Err(Unread::Malformed) => return Ok(tally),
            Err(Unread::NoMemory) => return Err(AllocError),
        }
    }
    Ok(tally)
}

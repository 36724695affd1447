use crate::codec::{Codec, ENCODINGS, Refusal};
use crate::tally::Tally;
use py_codec::Handler;
use py_flat::IoFault;
use py_incremental::IncrementalDecoder;
use std::alloc::{AllocError, Global};

/// The handlers that texts are read with.
const HANDLERS: [Handler; 5] = [
    Handler::Strict,
    Handler::Ignore,
    Handler::Replace,
    Handler::BackslashReplace,
    Handler::SurrogateEscape,
];

/// Longer lists of bytes aren't cut.
const LONGEST: usize = 16;

/// A decoder that takes pieces, and what came of it.
#[derive(Drop)]
struct Feeding {
    decoder: IncrementalDecoder,
    text: String,
    /// The bytes of all pieces that were taken.
    taken: usize,
    /// What was refused, counted from the first byte of all; then no more pieces are taken.
    refusal: Option<Refusal>,
}

/// Feeds a piece. A refusal counts from the first byte that is held.
fn feed(alloc: Global, feeding: &mut Feeding, piece: &[u8], last: bool) -> Result<(), IoFault> {
    if feeding.refusal.is_some() {
        return Ok(());
    }
    let held = feeding.decoder.getstate(alloc)?.held.len();
    match feeding.decoder.decode(alloc, piece, last) {
        Ok(text) => {
            feeding.taken = feeding.taken.saturating_add(piece.len());
            match feeding.text.push_str(&text) {
                Ok(()) => Ok(()),
                Err(_) => Err(IoFault::NoMemory),
            }
        }
        Err(fault) => match Refusal::from_fault(fault) {
            Some(refusal) => {
                let front = feeding.taken.saturating_sub(held);
                feeding.refusal = Some(refusal.behind(front));
                Ok(())
            }
            None => Err(fault),
        },
    }
}

/// What the pieces of some bytes have to come to: a text, or what stands in front of a refused range.
#[derive(Drop)]
struct Whole<'a> {
    codec: Codec,
    bytes: &'a [u8],
    text: &'a [u8],
    refusal: Option<Refusal>,
}

/// A decoder that holds nothing; there is none with a handler that no texts are read with.
fn fresh(alloc: Global, codec: Codec) -> Option<Feeding> {
    if !codec.handler.reads_texts() {
        return None;
    }
    Some(Feeding {
        decoder: IncrementalDecoder::new(codec.encoding, codec.handler),
        text: String::new(alloc),
        taken: 0,
        refusal: None,
    })
}

/// Whether pieces came to the whole: all its text, or the same refusal after a front of it.
fn came_to(feeding: &Feeding, whole: &Whole<'_>) -> bool {
    let text = feeding.text.as_bytes();
    feeding.refusal == whole.refusal
        && whole.text.starts_with(text)
        && (whole.refusal.is_some() || text.len() == whole.text.len())
}

/// Whether three pieces come to the whole; each may be empty.
fn pieces_agree(
    alloc: Global,
    whole: &Whole<'_>,
    front: &[u8],
    middle: &[u8],
    rest: &[u8],
) -> bool {
    let Some(mut feeding) = fresh(alloc, whole.codec) else {
        return false;
    };
    feed(alloc, &mut feeding, front, false).is_ok()
        && feed(alloc, &mut feeding, middle, false).is_ok()
        && feed(alloc, &mut feeding, rest, true).is_ok()
        && came_to(&feeding, whole)
}

/// Whether pieces of one byte, and an empty one after them, come to the whole.
fn bytes_agree(alloc: Global, whole: &Whole<'_>) -> bool {
    let Some(mut feeding) = fresh(alloc, whole.codec) else {
        return false;
    };
    for byte in whole.bytes {
        if feed(alloc, &mut feeding, &[*byte], false).is_err() {
            return false;
        }
    }
    feed(alloc, &mut feeding, &[], true).is_ok() && came_to(&feeding, whole)
}

/// Whether bytes that come one at a time are read as a text, and nothing is refused.
pub(crate) fn bytewise_gives(alloc: Global, codec: Codec, bytes: &[u8], text: &[u8]) -> bool {
    let whole = Whole {
        codec,
        bytes,
        text,
        refusal: None,
    };
    bytes_agree(alloc, &whole)
}

/// Cuts a piece off the front at one place, and the rest in two at each place.
fn cut_behind(
    alloc: Global,
    whole: &Whole<'_>,
    place: &str,
    (front, behind): (&[u8], &[u8]),
    tally: &mut Tally,
) -> Result<(), AllocError> {
    for cut in 0..=behind.len() {
        let (middle, rest) = behind.split_at(cut);
        tally.answer(pieces_agree(alloc, whole, front, middle, rest));
        if tally.wants_first() {
            let Codec { encoding, handler } = whole.codec;
            let (encoding, handler) = (encoding.name(), handler.name());
            tally.first = Some(format!(in alloc;
                "as {encoding} {handler}, in pieces of {} and {} bytes and the rest: {place}",
                front.len(),
                middle.len()
            )?);
        }
    }
    Ok(())
}

/// Decodes some bytes of a row in pieces by each encoding and each handler that texts are read with, and compares what
/// comes with what the plain slow program makes of the whole. The row's own encoding and handler don't matter.
pub(crate) fn compare(
    alloc: Global,
    bytes: &[u8],
    place: &str,
    tally: &mut Tally,
) -> Result<(), AllocError> {
    if bytes.len() > LONGEST {
        return Ok(());
    }
    tally.input();
    for encoding in ENCODINGS {
        for handler in HANDLERS {
            compare_codec(alloc, Codec { encoding, handler }, bytes, place, tally)?;
        }
    }
    Ok(())
}

/// Decodes some bytes in three pieces, cut at each two places, and byte by byte.
fn compare_codec(
    alloc: Global,
    codec: Codec,
    bytes: &[u8],
    place: &str,
    tally: &mut Tally,
) -> Result<(), AllocError> {
    let (text, refusal) = codec.plainly_decoded(alloc, bytes, 0)?;
    let whole = Whole {
        codec,
        bytes,
        text: text.as_bytes(),
        refusal,
    };
    for cut in 0..=bytes.len() {
        cut_behind(alloc, &whole, place, bytes.split_at(cut), tally)?;
    }
    tally.answer(bytes_agree(alloc, &whole));
    if tally.wants_first() {
        let (encoding, handler) = (codec.encoding.name(), codec.handler.name());
        tally.first = Some(format!(in alloc; "as {encoding} {handler}, byte by byte: {place}")?);
    }
    Ok(())
}

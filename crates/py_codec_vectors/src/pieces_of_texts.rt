use crate::codec::Refusal;
use crate::records::Records;
use crate::tally::Tally;
use crate::words::Unread;
use py_plain_text::{PlainPlace, PlainSettings, left};
use std::alloc::{AllocError, Global};

/// What the plain slow text has of some bytes from a place on, and the range that it refuses; `last` says that nothing stands after
/// them.
fn standing(
    alloc: Global,
    settings: PlainSettings,
    bytes: &[u8],
    from: usize,
    last: bool,
) -> Result<(String, Option<Refusal>), AllocError> {
    let place = PlainPlace::clean_at(from);
    let rest = left(alloc, settings, bytes, &place, last)?;
    let text: String = rest.characters.iter().collect(alloc)?;
    Ok((text, rest.refusal.map(Refusal::from_places)))
}

/// Whether as many of the bytes as the next answer of a record is about come to it.
fn next_agrees(
    alloc: Global,
    records: &mut Records<'_>,
    settings: PlainSettings,
    bytes: &[u8],
) -> Result<bool, Unread> {
    let from = usize::from(records.byte()?);
    let length = usize::from(records.byte()?);
    let last = records.byte()? == 1;
    let expected = records.answer(length)?;
    let Some((front, _)) = bytes.split_at_checked(length) else {
        return Err(Unread::Malformed);
    };
    let (text, refused) = standing(alloc, settings, front, from, last)?;
    Ok(expected.is_plain(text.as_bytes(), refused))
}

/// Compares what surely stands of the bytes of a record after each of its pieces, and of all at their end, with what the plain slow
/// text has of them.
pub(crate) fn try_pieces(
    alloc: Global,
    records: &mut Records<'_>,
    tally: &mut Tally,
) -> Result<(), Unread> {
    let settings = records.settings()?;
    let bytes = records.counted()?;
    tally.input();
    for _ in 0..records.byte()? {
        tally.answer(next_agrees(alloc, records, settings, bytes)?);
    }
    Ok(())
}

use crate::records::Records;
use crate::tally::Tally;
use crate::words::Unread;
use py_flat::{Chars, IoFault};
use py_plain_text::PlainText;
use std::alloc::{AllocError, Global};

/// Whether a call came out as it had to.
fn agrees(answer: Result<Chars, IoFault>, expected: &[u8]) -> Result<bool, Unread> {
    match answer {
        Ok(text) => Ok(text.as_str().as_bytes() == expected),
        Err(IoFault::NoMemory) => Err(Unread::NoMemory),
        Err(_) => Ok(false),
    }
}

/// Makes the calls of a record on the plain slow text over its bytes.
pub(crate) fn try_text(
    alloc: Global,
    records: &mut Records<'_>,
    tally: &mut Tally,
) -> Result<(), Unread> {
    let settings = records.settings()?;
    let bytes = Vec::from_slice(alloc, records.counted()?)?;
    let mut text = PlainText::new(bytes, settings);
    tally.input();
    for _ in 0..records.byte()? {
        let is_line = records.byte()? == 1;
        let size = records.size()?;
        let expected = records.counted()?;
        let answer = if is_line {
            text.readline(alloc, size)
        } else {
            text.read(alloc, size)
        };
        tally.answer(agrees(answer, expected)?);
    }
    Ok(())
}

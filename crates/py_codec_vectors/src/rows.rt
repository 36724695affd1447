use crate::codec::{Codec, Expected, Refusal};
use crate::tally::Tally;
use crate::words::{Unread, bytes, encoding, handler, number, refusal};
use crate::{cuts, fronts, pieces};
use py_incremental::IncrementalEncoder;
use std::alloc::{AllocError, Global};

/// What the rows came to, each kind by itself, and the cuts of the bytes that are decoded.
#[derive(Drop)]
pub(crate) struct Tallies {
    pub decodings: Tally,
    pub encodings: Tally,
    pub pieces: Tally,
    pub fronts: Tally,
    pub cuts: Tally,
}

/// What stands after the arrow of a row.
#[derive(Drop)]
struct Answer {
    output: Vec<u8>,
    used: usize,
    refusal: Option<Refusal>,
}

impl Answer {
    /// `OUTPUT USED`, or `refused START END BEFORE`.
    fn read(alloc: Global, words: &[&str]) -> Result<Self, Unread> {
        match words {
            [output, used] => Ok(Answer {
                output: bytes(alloc, output)?,
                used: number(used)? as usize,
                refusal: None,
            }),
            ["refused", start, end, before] => Ok(Answer {
                output: bytes(alloc, before)?,
                used: usize::MAX,
                refusal: Some(refusal(start, end)?),
            }),
            _ => Err(Unread::Malformed),
        }
    }

    fn expected(&self) -> Expected<'_> {
        match self.refusal {
            Some(refusal) => Expected::Refused(refusal, Some(&self.output)),
            None => Expected::All(&self.output, self.used),
        }
    }
}

/// `final BYTES -> ANSWER`, `more BYTES -> ANSWER` or `from COUNT BYTES -> ANSWER`. The plain slow program decodes to
/// the end: where more bytes may come, it is given those that are used.
fn try_decoding(
    alloc: Global,
    codec: Codec,
    words: &[&str],
    tally: &mut Tally,
) -> Result<Vec<u8>, Unread> {
    let (last, from, words) = match words {
        ["final", words @ ..] => (true, 0, words),
        ["more", words @ ..] => (false, 0, words),
        ["from", from, words @ ..] => (true, number(from)? as usize, words),
        _ => return Err(Unread::Malformed),
    };
    let [input, "->", answer @ ..] = words else {
        return Err(Unread::Malformed);
    };
    let input = bytes(alloc, input)?;
    let answer = Answer::read(alloc, answer)?;
    let used = if last {
        &input
    } else {
        input.get(..answer.used).unwrap_or(&input)
    };
    let expected = answer.expected();
    tally.input();
    tally.answer(codec.decodes(alloc, &input, from, last, expected));
    tally.answer(codec.plainly_decodes(alloc, used, from, expected)?);
    Ok(input)
}

/// Whether an encoder that takes texts in pieces writes one and the same text twice as expected, and keeps nothing.
fn encoder_agrees(alloc: Global, codec: Codec, text: &str, expected: Expected<'_>) -> bool {
    let mut encoder = IncrementalEncoder::new(codec.encoding, codec.handler);
    let count = text.chars().count();
    let mut agrees = true;
    for _ in 0..2 {
        agrees &= match encoder.encode(alloc, text) {
            Ok(bytes) => expected.is_answered(Ok((&bytes, count)), 0),
            Err(fault) => expected.is_answered(Err(fault), 0),
        };
        agrees &= encoder.getstate() == 0;
    }
    agrees
}

/// `TEXT -> ANSWER`.
fn try_encoding(
    alloc: Global,
    codec: Codec,
    words: &[&str],
    tally: &mut Tally,
) -> Result<(), Unread> {
    let [text, "->", answer @ ..] = words else {
        return Err(Unread::Malformed);
    };
    let Ok(text) = String::from_utf8(bytes(alloc, text)?) else {
        return Err(Unread::Malformed);
    };
    let answer = Answer::read(alloc, answer)?;
    let expected = answer.expected();
    tally.input();
    tally.answer(codec.encodes(alloc, &text, expected));
    tally.answer(codec.plainly_encodes(alloc, &text, expected)?);
    tally.answer(encoder_agrees(alloc, codec, &text, expected));
    Ok(())
}

/// Tries a row, and counts its answers where they belong.
fn try_row(alloc: Global, line: &str, place: &str, tallies: &mut Tallies) -> Result<(), Unread> {
    let parts: Vec<&str> = line.split('|').collect(alloc)?;
    let [head, steps @ ..] = parts.as_slice() else {
        return Err(Unread::Malformed);
    };
    let words: Vec<&str> = head.split_whitespace().collect(alloc)?;
    let [kind, encoding_name, handler_name, words @ ..] = words.as_slice() else {
        return Err(Unread::Malformed);
    };
    let codec = Codec {
        encoding: encoding(encoding_name)?,
        handler: handler(handler_name)?,
    };
    match (*kind, words, steps) {
        ("decode", words, []) => {
            let input = try_decoding(alloc, codec, words, &mut tallies.decodings)?;
            tallies.decodings.place(alloc, place)?;
            Ok(cuts::compare(alloc, &input, place, &mut tallies.cuts)?)
        }
        ("encode", words, []) => {
            try_encoding(alloc, codec, words, &mut tallies.encodings)?;
            Ok(tallies.encodings.place(alloc, place)?)
        }
        ("pieces", [], [_, ..]) => {
            pieces::try_steps(alloc, codec, steps, &mut tallies.pieces)?;
            Ok(tallies.pieces.place(alloc, place)?)
        }
        ("front", words, []) => {
            fronts::try_front(alloc, codec, words, &mut tallies.fronts)?;
            Ok(tallies.fronts.place(alloc, place)?)
        }
        _ => Err(Unread::Malformed),
    }
}

/// Tries each row of the table. A line that is empty or begins with `#` is none; one that is malformed ends the table
/// at once: `Some` is its number, and the line.
pub(crate) fn compare(alloc: Global, table: &str) -> Result<(Tallies, Option<String>), AllocError> {
    let mut tallies = Tallies {
        decodings: Tally::new(),
        encodings: Tally::new(),
        pieces: Tally::new(),
        fronts: Tally::new(),
        cuts: Tally::new(),
    };
    let mut number: u64 = 0;
    for line in table.lines() {
        number = number.saturating_add(1);
        if line.is_empty() || line.starts_with('#') {
            continue;
        }
        let place = format!(in alloc; "line {number}: {line}")?;
        match try_row(alloc, line, &place, &mut tallies) {
            Ok(()) => {}
            Err(Unread::Malformed) => return Ok((tallies, Some(place))),
            Err(Unread::NoMemory) => return Err(AllocError),
        }
    }
    Ok((tallies, None))
}

use crate::codec::{Codec, ENCODINGS, Expected};
use crate::tally::Tally;
use py_codec::{Encoding, Handler};
use std::alloc::{AllocError, Global};

/// What stands between two runs of ASCII: nothing, or a character at an edge, or one with a byte of its unit in ASCII.
const MIDDLES: [&str; 8] = [
    "",
    "\u{7F}",
    "\u{80}",
    "\u{E9}",
    "\u{100}",
    "\u{20AC}",
    "\u{6100}",
    "\u{1F600}",
];

/// How many characters of ASCII stand after it: around the lengths of blocks, of 16 bytes or units.
const BEHIND: [usize; 6] = [0, 1, 15, 16, 17, 33];

/// How often a letter and a middle stand in a long text: around the lengths of windows and pieces.
const LONG: [usize; 3] = [8_191, 16_384, 33_000];

/// The letters of a run, each another than the one before.
fn letter(index: usize) -> char {
    match index % 5 {
        0 => 'a',
        1 => 'Q',
        2 => '~',
        3 => '\0',
        _ => '7',
    }
}

/// A run of ASCII, a middle, and another run.
fn short_text(
    alloc: Global,
    front: usize,
    middle: &str,
    behind: usize,
) -> Result<String, AllocError> {
    let mut text: String = (0..front).map(letter).collect(alloc)?;
    text.push_str(middle)?;
    let rest: String = (0..behind).map(letter).collect(alloc)?;
    text.push_str(&rest)?;
    Ok(text)
}

/// A letter and a middle, `times` times.
fn long_text(alloc: Global, times: usize, middle: &str) -> Result<String, AllocError> {
    let mut text = String::new(alloc);
    for index in 0..times {
        text.push(letter(index))?;
        text.push_str(middle)?;
    }
    Ok(text)
}

/// Encodes a text strictly, and compares the bytes and the count of its characters, or the refused run, with what the
/// plain slow program makes of it; and where nothing is refused, decodes the bytes and compares with the text.
fn compare_text(
    alloc: Global,
    encoding: Encoding,
    text: &str,
    tally: &mut Tally,
) -> Result<(), AllocError> {
    tally.input();
    let codec = Codec {
        encoding,
        handler: Handler::Strict,
    };
    let (plain, run) = codec.plainly_encoded(alloc, text)?;
    let expected = match run {
        Some(run) => Expected::Refused(run, None),
        None => Expected::All(&plain, text.chars().count()),
    };
    tally.answer(codec.encodes(alloc, text, expected));
    if run.is_none() {
        let back = Expected::All(text.as_bytes(), plain.len());
        tally.answer(codec.decodes(alloc, &plain, 0, true, back));
    }
    Ok(())
}

/// Compares a text in each encoding; what was tried first where an answer differs is told by two lengths and the middle.
fn compare_encodings(
    alloc: Global,
    text: &str,
    lengths: (usize, usize),
    middle: &str,
    tally: &mut Tally,
) -> Result<(), AllocError> {
    for encoding in ENCODINGS {
        compare_text(alloc, encoding, text, tally)?;
        if tally.wants_first() {
            let (front, behind) = lengths;
            let name = encoding.name();
            tally.first = Some(format!(in alloc;
                "in {name}, {front} letters, '{middle}', {behind} letters"
            )?);
        }
    }
    Ok(())
}

/// Compares texts of a run of ASCII of one length, each middle and a run of each length after it.
fn compare_front(alloc: Global, front: usize, tally: &mut Tally) -> Result<(), AllocError> {
    for middle in MIDDLES {
        for behind in BEHIND {
            let text = short_text(alloc, front, middle, behind)?;
            compare_encodings(alloc, &text, (front, behind), middle, tally)?;
        }
    }
    Ok(())
}

/// Compares texts of runs of ASCII of 0 to 40 characters, alone and with one other character between two.
pub(crate) fn compare(alloc: Global) -> Result<Tally, AllocError> {
    let mut tally = Tally::new();
    for front in 0..=40 {
        compare_front(alloc, front, &mut tally)?;
    }
    Ok(tally)
}

/// Compares long texts, each of letters with one other character after each.
pub(crate) fn compare_long(alloc: Global) -> Result<Tally, AllocError> {
    let mut tally = Tally::new();
    for times in LONG {
        for middle in MIDDLES {
            let text = long_text(alloc, times, middle)?;
            compare_encodings(alloc, &text, (times, 0), middle, &mut tally)?;
        }
    }
    Ok(tally)
}

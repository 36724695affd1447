ghost use Rattle.std.specs.Prelude.{◌≡◌, ◌<◌, true};
ghost use Rattle.py_plain.specs.Handlers.{reads_texts};

use crate::codec::Codec;
use crate::tally::Tally;
use crate::words::{Unread, bytes, number};
use py_codec::{FrontDecoded, FrontStop, Steps, decode_front};
use py_flat::IoFault;
use std::alloc::Global;
use std::marker::Brand;
use std::sync::ledger::{Blank, Ledger};

/// What stands before the arrow of a row.
#[derive(Drop)]
struct Front {
    last: bool,
    want: usize,
    input: Vec<u8>,
}

/// `final WANT BYTES` or `more WANT BYTES`.
fn read_front(alloc: Global, words: &[&str]) -> Result<Front, Unread> {
    let (last, want, input) = match words {
        ["final", want, input] => (true, want, input),
        ["more", want, input] => (false, want, input),
        _ => return Err(Unread::Malformed),
    };
    Ok(Front {
        last,
        want: number(want)? as usize,
        input: bytes(alloc, input)?,
    })
}

/// `wanted`, `drained` or `refused START END`.
fn read_stop(words: &[&str]) -> Result<FrontStop, Unread> {
    match words {
        ["wanted"] => Ok(FrontStop::Wanted),
        ["drained"] => Ok(FrontStop::Drained),
        ["refused", start, end] => Ok(FrontStop::Refused {
            start: number(start)? as usize,
            end: number(end)? as usize,
        }),
        _ => Err(Unread::Malformed),
    }
}

/// `TEXT CHARS USED STOP`: a text, and what else the front came to.
fn read_answer(alloc: Global, words: &[&str]) -> Result<(Vec<u8>, FrontDecoded), Unread> {
    let [text, chars, used, stop @ ..] = words else {
        return Err(Unread::Malformed);
    };
    let front = FrontDecoded {
        used: number(used)? as usize,
        chars: number(chars)? as usize,
        stop: read_stop(stop)?,
    };
    Ok((bytes(alloc, text)?, front))
}

/// Decodes a front after a text that stands already, with a count of steps of any ledger.
fn decoded<L: Ledger>(
    blank: Blank,
    alloc: Global,
    codec: Codec,
    front: &Front,
    text: &mut String,
) -> Result<FrontDecoded, IoFault>
    requires name { blank.name ≡ L.name }
    requires parts { blank.parts ≡ L.parts }
    requires some { 0 < L.parts }
    requires reads { reads_texts codec.handler ≡ true }
{
    let mut steps = Steps::<L>::new(blank);
    decode_front(
        alloc,
        codec.encoding,
        codec.handler,
        &front.input,
        front.want,
        front.last,
        text,
        &mut steps,
    )
}

/// Whether a front is decoded as expected, after a text that stands already.
fn agrees(
    alloc: Global,
    codec: Codec,
    front: &Front,
    expected: &(Vec<u8>, FrontDecoded),
) -> Result<bool, Unread>
    requires reads { reads_texts codec.handler ≡ true }
{
    let mut text = String::from_str(alloc, "before ")?;
    let Ok(answer) = decoded::<Brand>(Blank::new(1), alloc, codec, front, &mut text) else {
        return Ok(false);
    };
    let given = text.as_bytes().strip_prefix(b"before ");
    Ok(answer == expected.1 && given == Some(expected.0.as_slice()))
}

/// `final WANT BYTES -> ANSWER` or `more WANT BYTES -> ANSWER`. A handler that no texts are read with decodes no front:
/// its row is malformed.
pub(crate) fn try_front(
    alloc: Global,
    codec: Codec,
    words: &[&str],
    tally: &mut Tally,
) -> Result<(), Unread> {
    let [kind, want, input, "->", answer @ ..] = words else {
        return Err(Unread::Malformed);
    };
    if !codec.handler.reads_texts() {
        return Err(Unread::Malformed);
    }
    let front = read_front(alloc, &[*kind, *want, *input])?;
    let expected = read_answer(alloc, answer)?;
    tally.input();
    tally.answer(agrees(alloc, codec, &front, &expected)?);
    Ok(())
}

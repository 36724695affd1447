use crate::codec::{Codec, Refusal};
use crate::tally::Tally;
use crate::words::{Unread, bytes, refusal};
use py_flat::IoFault;
use py_incremental::{DecoderState, IncrementalDecoder};
use std::alloc::Global;

/// A call of a decoder that is fed in pieces.
#[derive(Drop)]
enum Call {
    Decode(Vec<u8>, bool),
    GetState,
    SetState,
    Reset,
}

/// `more BYTES`, `final BYTES`, `getstate`, `setstate` or `reset`.
fn read_call(alloc: Global, words: &[&str]) -> Result<Call, Unread> {
    match words {
        ["more", piece] => Ok(Call::Decode(bytes(alloc, piece)?, false)),
        ["final", piece] => Ok(Call::Decode(bytes(alloc, piece)?, true)),
        ["getstate"] => Ok(Call::GetState),
        ["setstate"] => Ok(Call::SetState),
        ["reset"] => Ok(Call::Reset),
        _ => Err(Unread::Malformed),
    }
}

/// What a call answers: a text, or `refused START END`; of the calls of a state the bytes that are held after it.
fn read_answer(alloc: Global, words: &[&str]) -> Result<Result<Vec<u8>, Refusal>, Unread> {
    match words {
        [output] => Ok(Ok(bytes(alloc, output)?)),
        ["refused", start, end] => Ok(Err(refusal(start, end)?)),
        _ => Err(Unread::Malformed),
    }
}

/// Makes a call: its text, or the bytes that are held after it. `GetState` keeps the state for `SetState`. A state with
/// flags or more than three bytes is none of the five encodings': it is a fault, which no row expects.
fn given(
    alloc: Global,
    decoder: &mut IncrementalDecoder,
    kept: &mut DecoderState,
    call: &Call,
) -> Result<Vec<u8>, IoFault> {
    match call {
        Call::Decode(piece, last) => {
            return Ok(decoder.decode(alloc, piece, *last)?.into_bytes());
        }
        Call::GetState => *kept = decoder.getstate(alloc)?,
        Call::SetState => {
            if kept.held.len() > 3 || kept.flags != 0 {
                return Err(IoFault::BadArgument);
            }
            decoder.setstate(kept);
        }
        Call::Reset => decoder.reset(),
    }
    let state = decoder.getstate(alloc)?;
    if state.flags == 0 {
        Ok(state.held.into_vec())
    } else {
        Err(IoFault::BadArgument)
    }
}

/// `CALL -> ANSWER`: whether a call answers just this.
fn step_agrees(
    alloc: Global,
    decoder: &mut IncrementalDecoder,
    kept: &mut DecoderState,
    step: &str,
) -> Result<bool, Unread> {
    let Some((front, behind)) = step.split_once("->") else {
        return Err(Unread::Malformed);
    };
    let front: Vec<&str> = front.split_whitespace().collect(alloc)?;
    let behind: Vec<&str> = behind.split_whitespace().collect(alloc)?;
    let call = read_call(alloc, &front)?;
    let expected = read_answer(alloc, &behind)?;
    match (given(alloc, decoder, kept, &call), expected) {
        (Ok(given), Ok(expected)) => Ok(given.as_slice() == expected.as_slice()),
        (Err(fault), Err(refusal)) => Ok(Refusal::from_fault(fault) == Some(refusal)),
        _ => Ok(false),
    }
}

/// Makes the steps of one decoder. A handler that no texts are read with has no decoder: its row is malformed.
pub(crate) fn try_steps(
    alloc: Global,
    codec: Codec,
    steps: &[&str],
    tally: &mut Tally,
) -> Result<(), Unread> {
    if !codec.handler.reads_texts() {
        return Err(Unread::Malformed);
    }
    let mut decoder = IncrementalDecoder::new(codec.encoding, codec.handler);
    let Ok(mut kept) = decoder.getstate(alloc) else {
        return Err(Unread::NoMemory);
    };
    tally.input();
    for step in steps {
        tally.answer(step_agrees(alloc, &mut decoder, &mut kept, step)?);
    }
    Ok(())
}

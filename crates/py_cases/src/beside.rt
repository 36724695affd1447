//! A run of a session beside plain code: a flat file, or the plain slow text.

use crate::flat_file::Flat;
use crate::plain;
use anyhow::Result;
use py_case_sessions::{Opened, SessionCase, open};
use py_flat::{IoFault, Life};
use py_open::{Call, Detached, Reply};
use py_plain::Newlines;
use py_plain_text::PlainText;
use py_raw::RawStream;
use py_raw_memory::{Cut, MemRaw};
use py_stream::NewRefused;
use std::alloc::Global;

/// What a session is compared with.
#[derive(Drop)]
enum Plain {
    Bytes(Flat),
    Text(PlainText),
}

/// The transfers, waits and faults of a run's raw, and what of the run isn't as the plain code has it.
#[derive(Drop)]
pub(crate) struct Outcome {
    pub(crate) transfers: u64,
    pub(crate) waits: u64,
    pub(crate) faults: u64,
    pub(crate) differs: Option<String>,
}

/// Runs a case beside the plain code: each answer, what a fault leaves, and what is handed back in the end.
pub(crate) fn run_beside(alloc: Global, case: &SessionCase<'_>) -> Result<Outcome> {
    let mut plain = plain_of(alloc, case)?;
    match open(alloc, case)? {
        Ok(opened) => follow(alloc, case, opened, &mut plain),
        Err(refused) => refused_outcome(alloc, case, &refused),
    }
}

/// What a refused opening comes to: only a fault of the raw refuses it, which spares the bytes.
fn refused_outcome(
    alloc: Global,
    case: &SessionCase<'_>,
    refused: &NewRefused<MemRaw>,
) -> Result<Outcome> {
    let is_told = refused.fault == IoFault::RawFault && refused.raw.fault_count() == 1;
    let spares = refused.raw.bytes_of() == case.bytes.as_slice();
    let differs = match is_told && spares {
        true => None,
        false => Some(format!(in alloc; "the opening is refused: {}", refused.fault)?),
    };
    Ok(outcome_of(&refused.raw, differs))
}

fn outcome_of(raw: &MemRaw, differs: Option<String>) -> Outcome {
    Outcome {
        transfers: raw.transfer_count(),
        waits: raw.wait_count(),
        faults: raw.fault_count(),
        differs,
    }
}

/// How the calls of a run ended.
#[derive(Clone, Copy)]
struct End<'a> {
    /// The call that a fault answered.
    failed: Option<&'a Call>,
    /// Whether the session is closed, by a close that was done.
    closes: bool,
    /// Whether the last call passed on all that was owed.
    passes: bool,
    /// How many answers a wait cut short.
    shorts: u64,
}

/// Makes the calls up to one that a fault answers, and ends the run. Nothing of a session is in hand where a `?` stands: the proof of each
/// would have that all of it may be dropped.
fn follow(
    alloc: Global,
    case: &SessionCase<'_>,
    opened: Opened,
    plain: &mut Plain,
) -> Result<Outcome> {
    let mut opened = opened;
    let mut end = End {
        failed: None,
        closes: false,
        passes: false,
        shorts: 0,
    };
    let made = make_calls(alloc, case, &mut opened, plain, &mut end);
    let is_left = end
        .failed
        .is_none_or(|call| is_left_by_a_fault(alloc, &mut opened, call));
    end.closes = end.failed.is_none() && opened.life() == Life::Closed;
    let handed = hand_over(alloc, opened, case.detaches && end.failed.is_some());
    match made {
        Ok(differs) => settle(alloc, case, &handed, plain, end, is_left, differs),
        Err(error) => Err(error),
    }
}

/// Makes the calls up to one that a fault answers, or whose answer isn't as the plain code has it: what of that differs.
fn make_calls<'a>(
    alloc: Global,
    case: &'a SessionCase<'_>,
    opened: &mut Opened,
    plain: &mut Plain,
    end: &mut End<'a>,
) -> Result<Option<String>> {
    for call in &case.calls {
        let reply = opened.call(alloc, call);
        if reply.says_fault() {
            end.failed = Some(call);
            return Ok(None);
        }
        let differs = difference(alloc, plain, end, call, &reply, opened.short());
        if !matches!(differs, Ok(None)) {
            return differs;
        }
    }
    Ok(None)
}

/// What of an answer isn't as the plain code has it, which goes on by it.
fn difference(
    alloc: Global,
    plain: &mut Plain,
    end: &mut End<'_>,
    call: &Call,
    reply: &Reply,
    short: bool,
) -> Result<Option<String>> {
    end.shorts = end.shorts.saturating_add(u64::from(short));
    end.passes = passes_all(plain, call, reply);
    let is_right = match plain {
        Plain::Bytes(flat) => flat.answers(alloc, call, reply, short)?,
        Plain::Text(text) => answers_text(alloc, text, call, reply, short),
    };
    if is_right {
        return Ok(None);
    }
    Ok(Some(format!(in alloc; "{reply:?} to {call:?}, short: {short}")?))
}

/// Compares what is handed back in the end, where nothing differs so far.
fn settle(
    alloc: Global,
    case: &SessionCase<'_>,
    handed: &Detached<MemRaw>,
    plain: &mut Plain,
    end: End<'_>,
    is_left: bool,
    differs: Option<String>,
) -> Result<Outcome> {
    if differs.is_some() {
        return Ok(outcome_of(&handed.raw, differs));
    }
    let differs = match is_left && ends(alloc, case, handed, plain, end)? {
        true => None,
        false => Some(String::from_str(alloc, "what is left in the end")?),
    };
    Ok(outcome_of(&handed.raw, differs))
}

/// Whether a call was answered as one that passes on all that is owed. A stream that is read and written through a buffer may owe
/// it still after a seek.
fn passes_all(plain: &Plain, call: &Call, reply: &Reply) -> bool {
    match call {
        Call::Flush | Call::Close => *reply == Reply::Done,
        Call::Seek(_, _) if holds_both(plain) => false,
        Call::Seek(_, _) | Call::Truncate(_) => matches!(reply, Reply::Place(_)),
        _ => false,
    }
}

/// Whether a session is a stream that is read and written through a buffer.
fn holds_both(plain: &Plain) -> bool {
    matches!(plain, Plain::Bytes(flat) if flat.holds_both())
}

/// The plain code of a case, at its beginning.
fn plain_of(alloc: Global, case: &SessionCase<'_>) -> Result<Plain> {
    let bytes = Vec::from_slice(alloc, case.bytes.as_slice())?;
    if !case.mode.contains('b') {
        return Ok(Plain::Text(plain::utf8_text(bytes, Newlines::Lf)));
    }
    let appends = case.mode.contains('a');
    Ok(Plain::Bytes(Flat {
        place: if appends { bytes.len() } else { case.at },
        bytes,
        reads: case.mode.contains('r') || case.mode.contains('+'),
        writes: !case.mode.contains('r') || case.mode.contains('+'),
        appends,
        buffered: !case.options.contains(&"buffering=0"),
    }))
}

/// Whether a text may answer a call so; goes on by the answer. A reading that a wait cut short gives the first of the characters
/// that it is asked for, at least one.
fn answers_text(
    alloc: Global,
    text: &mut PlainText,
    call: &Call,
    reply: &Reply,
    short: bool,
) -> bool {
    let came = match reply {
        Reply::NotReady => return short && matches!(call, Call::Read(_) | Call::ReadLine(_)),
        Reply::Text(characters) if short => characters.as_str().chars().count(),
        _ => return plain::answer(alloc, text, call) == *reply && !short,
    };
    let cut = match call {
        Call::Read(size) if size.is_none_or(|size| came < size) => Call::Read(Some(came)),
        Call::ReadLine(size) if size.is_none_or(|size| came < size) => Call::ReadLine(Some(came)),
        _ => return false,
    };
    came > 0 && plain::answer(alloc, text, &cut) == *reply
}

/// Whether a session that a fault left, closed where a `Close` failed and else failed, refuses every call.
fn is_left_by_a_fault(alloc: Global, opened: &mut Opened, failed: &Call) -> bool {
    let (life, fault) = match failed {
        Call::Close => (Life::Closed, IoFault::Closed),
        _ => (Life::Failed, IoFault::Failed),
    };
    let mut refuses = opened.life() == life;
    for call in &[Call::Flush, Call::Tell, Call::Read(None)] {
        refuses = opened.call(alloc, call) == Reply::Refused(fault) && refuses && !opened.short();
    }
    refuses
}

/// What a session hands back at the end, or by a detach; no place where the detach answers otherwise, or leaves more after.
fn hand_over(alloc: Global, opened: Opened, detaches: bool) -> Detached<MemRaw> {
    if !detaches {
        return opened.finish();
    }
    let mut opened = opened;
    let reply = opened.call(alloc, &Call::Detach);
    let mut handed = opened.finish();
    match reply {
        Reply::Unwritten { bytes, place } => take_over(&mut handed, bytes.into_vec(), place),
        _other => handed.place = None,
    }
    handed
}

/// Has what a detach answered as what is handed back, where nothing else is.
fn take_over(handed: &mut Detached<MemRaw>, bytes: Vec<u8>, place: Option<u64>) {
    if handed.place.is_some() || !handed.unwritten.is_empty() {
        handed.place = None;
        return;
    }
    handed.unwritten = bytes;
    handed.place = place;
}

/// Whether the end is as the plain code has it: each fault and each wait was told, the raw is closed where a close closed it, and no
/// byte is lost.
fn ends(
    alloc: Global,
    case: &SessionCase<'_>,
    handed: &Detached<MemRaw>,
    plain: &mut Plain,
    end: End<'_>,
) -> Result<bool> {
    let raw = &handed.raw;
    let is_told = raw.fault_count() == u64::from(end.failed.is_some());
    let spares = raw.bytes_of() == case.bytes.as_slice() && handed.unwritten.is_empty();
    let waits = raw.wait_count();
    Ok(
        is_told
            && is_as_said(case, raw)
            && shuts(handed, plain, end)
            && match plain {
                Plain::Text(_) => spares && end.shorts == waits,
                Plain::Bytes(flat)
                    if !flat.writes || !flat.holds_both() && end.failed.is_some_and(gives) => {
                    raw.bytes_of() == flat.bytes.as_slice()
                        && handed.unwritten.is_empty()
                        && end.shorts == waits
                        && reaches(handed, flat, end.failed)
                }
                Plain::Bytes(flat) => {
                    end.shorts <= waits
                        && (!end.passes || handed.unwritten.is_empty())
                        && holds_all_taken(alloc, handed, flat, end.failed, unanswered(case))?
                        && (!end.closes || raw.bytes_of() == flat.bytes.as_slice())
                }
            },
    )
}

/// Whether a raw holds what the case says of the end, where it does.
fn is_as_said(case: &SessionCase<'_>, raw: &MemRaw) -> bool {
    match &case.ends {
        Some(bytes) => raw.bytes_of() == bytes.as_slice(),
        None => true,
    }
}

/// Whether a call gives bytes to its caller.
fn gives(call: &Call) -> bool {
    matches!(
        call,
        Call::Read(_) | Call::ReadLine(_) | Call::ReadLines(_) | Call::ReadInto(_)
    )
}

/// Whether the raw is closed just where it should be: by a close that was done, and by one that failed once nothing was owed; but
/// of a stream that is read and written through a buffer it may have failed to be moved to the place before.
fn shuts(handed: &Detached<MemRaw>, plain: &Plain, end: End<'_>) -> bool {
    let closes = match end.failed {
        Some(Call::Close) if holds_both(plain) && !handed.raw.closed() => return true,
        Some(Call::Close) => handed.unwritten.is_empty(),
        Some(_) => false,
        None => end.closes,
    };
    handed.raw.closed() == closes
}

/// How many bytes a piece that broke off may have left in the raw without an answer.
fn unanswered(case: &SessionCase<'_>) -> u32 {
    case.cuts.iter().fold(0, |most, cut| match cut {
        Cut::Break(bytes) => most.max(*bytes),
        _ => most,
    })
}

/// Whether a stream that is read stands where it came to. A call that failed moved it by no more than it was asked for, and not at
/// all where it is a single transfer, or reads nothing. Where the raw can't be moved no place is handed back.
fn reaches(handed: &Detached<MemRaw>, flat: &Flat, failed: Option<&Call>) -> bool {
    let most = match failed {
        Some(call) if !flat.is_single(call) => flat.wanted(call).map_or(0, |bytes| bytes.len()),
        _ => 0,
    };
    let begun = flat.place as u64;
    match handed.place {
        Some(place) => begun <= place && place <= begun.saturating_add(most as u64),
        None => !handed.raw.seekable(),
    }
}

/// How many bytes of its own a call that failed had taken, by what is handed back, and how many more it may have: those that the
/// raw laid on without an answer. A write that failed owes none of its own. Nothing where the place can't be.
///
/// What a stream owes that is read and written through a buffer may be of earlier calls alone, wherever it stands; only of lines some
/// may be their own.
fn taken_of(
    handed: &Detached<MemRaw>,
    flat: &Flat,
    failed: Option<&Call>,
    unanswered: usize,
) -> Option<(usize, usize)> {
    let owes = !handed.unwritten.is_empty();
    let is_lines = matches!(failed, Some(Call::WriteLines(_)));
    if flat.holds_both() && owes {
        return Some((0, if is_lines { usize::MAX } else { 0 }));
    }
    if flat.holds_both() && failed.is_some_and(gives) {
        return reaches(handed, flat, failed).then_some((0, 0));
    }
    let end = (handed.place? as usize).saturating_add(handed.unwritten.len());
    let count = end.checked_sub(flat.place)?;
    let owes_own = matches!(failed, Some(Call::Write(_))) && count > 0 && owes;
    (!owes_own).then_some((count, if owes { 0 } else { unanswered }))
}

/// Whether the bytes of the raw with those that are handed back laid at their place are all that was taken from the caller before
/// a call that failed, and a front of what that call gave. They end where the place says; at most `unanswered` bytes more may lie
/// after, which the raw laid on without an answer. A truncation that failed may have come about.
fn holds_all_taken(
    alloc: Global,
    handed: &Detached<MemRaw>,
    flat: &mut Flat,
    failed: Option<&Call>,
    unanswered: u32,
) -> Result<bool> {
    let Some(place) = handed.place else {
        return Ok(false);
    };
    let mut found = Flat {
        bytes: Vec::from_slice(alloc, handed.raw.bytes_of())?,
        place: place as usize,
        reads: false,
        writes: true,
        appends: false,
        buffered: true,
    };
    found.lay(handed.unwritten.as_slice())?;
    let payload = match failed {
        Some(call) => Flat::payload(alloc, call)?,
        None => Vec::new(alloc),
    };
    let Some((count, more)) = taken_of(handed, flat, failed, unanswered as usize) else {
        return Ok(false);
    };
    if payload.len() < count {
        return Ok(false);
    }
    for (index, byte) in payload.iter().take(count.saturating_add(more)).enumerate() {
        if index >= count && found.bytes == flat.bytes {
            break;
        }
        flat.lay(&[*byte])?;
    }
    if let Some(Call::Truncate(size)) = failed {
        if found.bytes != flat.bytes {
            flat.resize(*size)?;
        }
    }
    Ok(found.bytes == flat.bytes)
}

ghost use Rattle.std.specs.Prelude.{◌≡◌, ◌+◌, ◌-◌, ◌≤◌, ◌<◌, ℕ, true, [], length, drop, IfOk, IfErr, OnErr};
ghost use Rattle.std.specs.Fmt.{is_char_start};
ghost use Rattle.std.specs.List.{count_by};
ghost use Rattle.std.specs.String.{string_bytes};
ghost use Rattle.py_plain.specs.Units.{Unknown};
ghost use Rattle.py_plain.specs.Handlers.{treatment, reads_texts};
ghost use Rattle.py_codec.specs.Answers.{text_of};
ghost use Rattle.py_blocks.specs.Runs.{IsRun};
ghost use Rattle.py_codec.specs.Decoding.{walk_here, walk_past};
ghost use Rattle.py_codec.specs.Front.{items_for, GivesFront, FrontOutcome};
ghost use Rattle.py_codec.specs.Passing.{PassOutcome};

use crate::decoding::push_item;
use crate::steps::Steps;
use crate::{HandlerRef, NoHandler};
use py_blocks::{LEAST, count_starts, next_most, push_run, window};
use py_flat::IoFault;
use py_plain::{Encoding, Handler};
use std::alloc::{AllocError, Global};
use std::sync::ledger::Ledger;

/// Why the front of some bytes has no more characters.
#[derive(Clone, Copy, Debug, PartialEq, Eq)]
pub enum FrontStop {
    /// It has as many as are wanted.
    Wanted,
    /// The range from `start` to before `end` comes next, which the handler refuses.
    Refused { start: usize, end: usize },
    /// No bytes are left; or those left may still become a character, where more may come.
    Drained,
}

/// What a front of some bytes came to.
#[derive(Clone, Copy, Debug, PartialEq, Eq)]
pub struct FrontDecoded {
    /// How many bytes it has.
    pub used: usize,
    /// How many characters were appended for it.
    pub chars: usize,
    /// Why it has no more.
    pub stop: FrontStop,
}

/// What was passed of some bytes.
#[derive(Clone, Copy)]
enum Passed {
    /// Some bytes, and the characters that were appended for them.
    Items { used: usize, chars: usize },
    /// Nothing.
    Stopped { stop: FrontStop },
}

/// How many characters a text has past its first bytes, `from` of them, where one ends.
fn count_past(text: &String, from: usize) -> usize
    requires { from ≤ length (string_bytes text.now) }
    ensures { result ≡ count_by is_char_start (drop from (string_bytes text.now)) }
{
    count_starts(&text.as_bytes()[from..])
}

/// Appends whole characters that some bytes begin with, as many as are found at once in the first `most` bytes, and no
/// more than are wanted; answers how many bytes they are. As each has a byte, no more bytes than that are looked at.
fn push_few(
    encoding: Encoding,
    bytes: &[u8],
    want: usize,
    most: usize,
    text: &mut String,
) -> Result<usize, AllocError>
    ensures run { IfOk result (IsRun encoding bytes.now (text_of text.old) (text_of text.new)) }
    ensures few { IfOk result (λ used. used ≤ want) }
{
    push_run(encoding, window(bytes, want), most, text)
}

/// Passes the item that stands at a place: its characters are appended.
fn pass_item(
    alloc: Global,
    encoding: Encoding,
    handler: Handler,
    bytes: &[u8],
    place: usize,
    last: bool,
    text: &mut String,
) -> Result<Passed, AllocError>
    requires { place ≤ length bytes.now }
    ensures { IfOk result (λ passed. (want : ℕ) → 1 ≤ want
        → PassOutcome want (length bytes.now - place)
        (walk_here encoding (treatment handler encoding) last bytes.now place)
        (λ used. walk_here encoding (treatment handler encoding) last bytes.now (place + used))
        (text_of text.old) (text_of text.new) 1 passed) }
{
    let from = text.len();
    let errors = HandlerRef::<NoHandler>::Builtin(handler);
    match push_item(alloc, encoding, errors, bytes, place, last, text) {
        Ok(Some(used)) => Ok(Passed::Items {
            used,
            chars: count_past(text, from),
        }),
        Ok(None) => Ok(Passed::Stopped {
            stop: FrontStop::Drained,
        }),
        Err(IoFault::UnicodeDecodeError { start, end }) => Ok(Passed::Stopped {
            stop: FrontStop::Refused {
                start: start as usize,
                end: end as usize,
            },
        }),
        Err(_) => Err(AllocError),
    }
}

/// Passes some of the items that stand at a place, no more than have as many characters as are wanted: whole characters
/// at once, as many as are found, or else one item.
fn pass<L: Ledger>(
    alloc: Global,
    encoding: Encoding,
    handler: Handler,
    bytes: &[u8],
    place: usize,
    want: usize,
    most: usize,
    last: bool,
    text: &mut String,
    steps: &mut Steps<L>,
) -> Result<Passed, AllocError>
    requires inside { place ≤ length bytes.now }
    requires some { 1 ≤ want }
    ensures passed { IfOk result (PassOutcome want (length bytes.now - place)
        (walk_here encoding (treatment handler encoding) last bytes.now place)
        (λ used. walk_here encoding (treatment handler encoding) last bytes.now (place + used))
        (text_of text.old) (text_of text.new) (steps.new - steps.old)) }
    ensures steps { steps.old ≤ steps.new }
    ensures memory { OnErr result (steps.new ≤ steps.old + 1) }
{
    if place == bytes.len() {
        return Ok(Passed::Stopped {
            stop: FrontStop::Drained,
        });
    }
    let from = text.len();
    let run = push_few(encoding, &bytes[place..], want, most, text)?;
    if run > 0 {
        let chars = count_past(text, from);
        steps.take(chars);
        return Ok(Passed::Items { used: run, chars });
    }
    steps.take(1);
    pass_item(alloc, encoding, handler, bytes, place, last, text)
}

/// Appends the characters of the front that has as many as are wanted.
fn push_wanted<L: Ledger>(
    alloc: Global,
    encoding: Encoding,
    handler: Handler,
    bytes: &[u8],
    want: usize,
    last: bool,
    text: &mut String,
    steps: &mut Steps<L>,
) -> Result<FrontDecoded, AllocError>
    ensures front { IfOk result (λ front.
        let ahead = walk_past encoding (treatment handler encoding) last bytes.now in
        let walk = ahead Unknown 0 in
        GivesFront want (items_for want walk.items) walk ahead
        (text_of text.old) (text_of text.new) steps.old steps.new front) }
    ensures memory { OnErr result (
        let walk = walk_here encoding (treatment handler encoding) last bytes.now 0 in
        steps.new ≤ steps.old + length (items_for want walk.items) + 1) }
    ensures within { IfOk result (λ front. front.used ≤ length bytes.now) }
{
    let mut used = 0;
    let mut chars = 0;
    let mut most = LEAST;
    while chars < want {
        match pass(
            alloc,
            encoding,
            handler,
            bytes,
            used,
            want - chars,
            most,
            last,
            text,
            steps,
        )? {
            Passed::Items {
                used: more,
                chars: given,
            } => {
                used += more;
                chars += given;
                most = next_most(most, more);
            }
            Passed::Stopped { stop } => return Ok(FrontDecoded { used, chars, stop }),
        }
    }
    Ok(FrontDecoded {
        used,
        chars,
        stop: FrontStop::Wanted,
    })
}

/// The text of the items that some bytes begin with, as `decode_front` appends it, in a string of its own: what that call
/// answers of them, with a copy of the text less. `NoMemory` alone is a fault.
pub fn front_text<L: Ledger>(
    alloc: Global,
    encoding: Encoding,
    handler: Handler,
    bytes: &[u8],
    want: usize,
    last: bool,
    steps: &mut Steps<L>,
) -> Result<(String, FrontDecoded), IoFault>
    requires reads { reads_texts handler ≡ true }
    ensures front { IfOk result (λ t.
        let ahead = walk_past encoding (treatment handler encoding) last bytes.now in
        let walk = ahead Unknown 0 in
        GivesFront want (items_for want walk.items) walk ahead [] (text_of t.0) steps.old steps.new t.1) }
    ensures within { IfOk result (λ t. t.1.used ≤ length bytes.now) }
    ensures memory { IfErr result (λ why. why ≡ IoFault.NoMemory) }
    ensures steps { OnErr result (
        let walk = walk_here encoding (treatment handler encoding) last bytes.now 0 in
        steps.new ≤ steps.old + length (items_for want walk.items) + 1) }
{
    let mut text = String::new(alloc);
    match push_wanted(
        alloc, encoding, handler, bytes, want, last, &mut text, steps,
    ) {
        Ok(front) => Ok((text, front)),
        Err(_) => Err(IoFault::NoMemory),
    }
}

/// Appends the characters of the items that some bytes begin with, up to the first place between two of them where at
/// least as many as are wanted were given.
///
/// `Wanted` says that they were given, before anything more was read; for none wanted that is at once. Else all items
/// are in it, and the answer says why there are no more: `Refused` is the range that comes next, which the handler
/// refuses, in bytes from the first; `Drained` says that no bytes are left, or, where more may come (`last` is false),
/// that those left may still become a character. The handler is one of those that texts are read with. `NoMemory` alone
/// is a fault, and leaves the text as it was.
///
/// A step is taken for each unit that is read: as many as the items, or one more. Time is taken for what is given, and
/// not for the bytes after it.
pub fn decode_front<L: Ledger>(
    alloc: Global,
    encoding: Encoding,
    handler: Handler,
    bytes: &[u8],
    want: usize,
    last: bool,
    out: &mut String,
    steps: &mut Steps<L>,
) -> Result<FrontDecoded, IoFault>
    requires reads { reads_texts handler ≡ true }
    ensures front { let ahead = walk_past encoding (treatment handler encoding) last bytes.now in
        FrontOutcome want (ahead Unknown 0) ahead
        (text_of out.old) (text_of out.new) steps.old steps.new result }
    ensures within { IfOk result (λ front. front.used ≤ length bytes.now) }
{
    let (text, front) = front_text(alloc, encoding, handler, bytes, want, last, steps)?;
    match out.push_str(&text) {
        Ok(()) => Ok(front),
        Err(_) => Err(IoFault::NoMemory),
    }
}

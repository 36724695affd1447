ghost use Rattle.std.specs.Prelude.{◌≡◌, ◌≤◌, ◌++◌, None, take, length, chars, vec_capacity, IfErr, OnOk, OnErr};
ghost use Rattle.py_flat.specs.declared.fault.IoFault.TheVariants.{NoMemory};
ghost use Rattle.py_plain_text.specs.TextWriting.{written_end, written_bytes, written_refusal};
ghost use Rattle.py_text.specs.Written.{settings_of};
ghost use Rattle.py_text.specs.EachWritten.{IsWhole, each_encoded, each_written};

use crate::Coder;
use crate::line_ends::cut_at_lf;
use crate::own_bytes::stays;
use py_codec::{HandlerRef, NoHandler, encode};
use py_flat::IoFault;
use py_plain::Newlines;
use std::alloc::{AllocError, Global};

/// Appends a text as it stands, by way of a list of its bytes.
#[inline(never)]
fn push_encoded(
    alloc: Global,
    coder: Coder,
    text: &str,
    out: &mut Vec<u8>,
) -> Result<(), AllocError>
    requires whole { IsWhole coder.errors coder.encoding (chars text.now) }
    ensures ok { OnOk result (out.new.items ≡ out.old.items ++ each_encoded coder (chars text.now)) }
    ensures same { OnErr result (out.new.items ≡ out.old.items) }
    ensures capacity { vec_capacity out.old ≤ vec_capacity out.new }
{
    let errors: HandlerRef<NoHandler> = HandlerRef::Builtin(coder.errors);
    match encode(alloc, coder.encoding, text, errors) {
        Ok((bytes, _)) => out.extend_from_slice(&bytes),
        // Nothing of the text is refused.
        Err(_) => Err(AllocError),
    }
}

/// Appends a text as it stands.
#[inline(always)]
fn push_as_is(alloc: Global, coder: Coder, text: &str, out: &mut Vec<u8>) -> Result<(), AllocError>
    requires whole { IsWhole coder.errors coder.encoding (chars text.now) }
    ensures ok { OnOk result (out.new.items ≡ out.old.items ++ each_encoded coder (chars text.now)) }
    ensures same { OnErr result (out.new.items ≡ out.old.items) }
    ensures capacity { vec_capacity out.old ≤ vec_capacity out.new }
{
    if stays(coder, text) {
        return out.extend_from_slice(text.as_bytes());
    }
    push_encoded(alloc, coder, text, out)
}

/// Appends what an LF is written as.
#[inline(always)]
fn push_line_end(
    alloc: Global,
    coder: Coder,
    newline: Newlines,
    out: &mut Vec<u8>,
) -> Result<(), AllocError>
    ensures ok { OnOk result (out.new.items ≡ out.old.items ++ each_encoded coder (written_end newline)) }
    ensures same { OnErr result (out.new.items ≡ out.old.items) }
    ensures capacity { vec_capacity out.old ≤ vec_capacity out.new }
{
    // Each is a text of a length that the compiler knows.
    match newline {
        Newlines::Universal | Newlines::Passthrough | Newlines::Lf => {
            push_as_is(alloc, coder, "\n", out)
        }
        Newlines::Cr => push_as_is(alloc, coder, "\r", out),
        Newlines::Crlf => push_as_is(alloc, coder, "\r\n", out),
    }
}

/// Appends a text, cut at its LFs, each of which becomes the line end of the rule. What was appended before an `Err` stays.
fn push_lines(
    alloc: Global,
    coder: Coder,
    newline: Newlines,
    text: &str,
    out: &mut Vec<u8>,
) -> Result<(), AllocError>
    requires whole { IsWhole coder.errors coder.encoding (chars text.now) }
    ensures ok { OnOk result (out.new.items ≡ out.old.items ++ each_written coder newline (chars text.now)) }
    ensures kept { OnErr result (take (length out.old.items) out.new.items ≡ out.old.items) }
    ensures capacity { vec_capacity out.old ≤ vec_capacity out.new }
{
    let mut left = text;
    while !left.is_empty() {
        let cut = cut_at_lf(left);
        push_as_is(alloc, coder, cut.run, out)?;
        if !cut.ended {
            return Ok(());
        }
        push_line_end(alloc, coder, newline, out)?;
        left = cut.left;
    }
    Ok(())
}

/// Appends a text by the writing rule. What was appended before an `Err` stays.
#[inline(always)]
fn push_text(
    alloc: Global,
    coder: Coder,
    newline: Newlines,
    text: &str,
    out: &mut Vec<u8>,
) -> Result<(), AllocError>
    requires whole { IsWhole coder.errors coder.encoding (chars text.now) }
    ensures ok { OnOk result (out.new.items ≡ out.old.items ++ each_written coder newline (chars text.now)) }
    ensures kept { OnErr result (take (length out.old.items) out.new.items ≡ out.old.items) }
    ensures capacity { vec_capacity out.old ≤ vec_capacity out.new }
{
    match newline {
        Newlines::Cr | Newlines::Crlf => push_lines(alloc, coder, newline, text, out),
        Newlines::Universal | Newlines::Passthrough | Newlines::Lf => {
            push_as_is(alloc, coder, text, out)
        }
    }
}

/// Appends the bytes that a text is written as by a newline rule and a coder; nothing of the text may be refused, as
/// `written_size` says.
///
/// `NoMemory`: out of memory, and `out` is as it was. In UTF-8, and where a text of ASCII is written in ISO 8859-1 or ASCII,
/// only `out` takes memory.
#[inline(always)]
pub fn push_written_text(
    alloc: Global,
    coder: Coder,
    newline: Newlines,
    text: &str,
    out: &mut Vec<u8>,
) -> Result<(), IoFault>
    requires whole { written_refusal (settings_of coder newline) (chars text.now) ≡ None }
    ensures ok { OnOk result (out.new.items ≡ out.old.items ++ written_bytes (settings_of coder newline) (chars text.now)) }
    ensures err { IfErr result (λ why. why ≡ NoMemory) }
    ensures same { OnErr result (out.new.items ≡ out.old.items) }
    ensures capacity { vec_capacity out.old ≤ vec_capacity out.new }
{
    let before = out.len();
    match push_text(alloc, coder, newline, text, out) {
        Ok(()) => Ok(()),
        Err(_) => {
            out.truncate(before);
            Err(IoFault::NoMemory)
        }
    }
}

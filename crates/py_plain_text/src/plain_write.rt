ghost use Rattle.std.specs.Prelude.{◌≡◌, ◌++◌, IfOk, OnOk};
ghost use Rattle.py_flat.specs.Bytes.{lay};
ghost use Rattle.py_plain_text.specs.TextWriting.{written_as, written};

use py_plain::Newlines;
use std::alloc::{AllocError, Global};

/// Appends what a character is written as.
fn push_written(out: &mut Vec<char>, rule: Newlines, character: char) -> Result<(), AllocError>
    ensures { OnOk result (out.new.items ≡ out.old.items ++ written_as rule character) }
{
    if character != '\n' {
        out.push(character)?;
        return Ok(());
    }
    match rule {
        Newlines::Cr => out.push('\r')?,
        Newlines::Crlf => {
            out.push('\r')?;
            out.push('\n')?;
        }
        Newlines::Universal | Newlines::Passthrough | Newlines::Lf => out.push('\n')?,
    }
    Ok(())
}

/// The writing rule: the characters of a text as they are written, by the `newline` argument of Python's `open`. The
/// `Err` means out of memory.
pub fn written(alloc: Global, rule: Newlines, text: &[char]) -> Result<Vec<char>, AllocError>
    ensures { IfOk result (λ v. v.items ≡ written rule text.now) }
{
    let mut out = Vec::new(alloc);
    for character in text {
        push_written(&mut out, rule, *character)?;
    }
    Ok(out)
}

/// Some bytes with others laid at a place: zeros up to it, then what is laid over what stands there. The `Err` means out
/// of memory.
pub fn laid(alloc: Global, bytes: &[u8], place: usize, more: &[u8]) -> Result<Vec<u8>, AllocError>
    ensures { IfOk result (λ v. v.items ≡ lay bytes.now place more.now) }
{
    if more.is_empty() {
        return Vec::from_slice(alloc, bytes);
    }
    let mut out = Vec::from_slice(alloc, &bytes[..place.min(bytes.len())])?;
    out.resize(place, 0)?;
    out.extend_from_slice(more)?;
    let end = out.len().min(bytes.len());
    out.extend_from_slice(&bytes[end..])?;
    Ok(out)
}

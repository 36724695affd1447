ghost use Rattle.std.specs.Prelude.{◌≡◌, chars, IfOk};
ghost use Rattle.py_plain.specs.NewlineRule.{universal, ends_held, read_so_far, holds_after};
ghost use Rattle.py_codec.specs.Answers.{text_of};

use crate::cutting::{cut_at_cr, release};
use py_plain::Newlines;
use std::alloc::{AllocError, Global};

/// What the universal rule gives of a text while more may come, and whether a CR is held then; `held` says that one is
/// held before it. What stands between two CRs is copied at once.
fn read_universal(alloc: Global, held: bool, text: &str) -> Result<(String, bool), AllocError>
    ensures gives { IfOk result (λ read. text_of read.0 ≡ universal held (chars text.now)) }
    ensures holds { IfOk result (λ read. read.1 ≡ ends_held held (chars text.now)) }
{
    let mut out = String::with_capacity(alloc, text.len())?;
    let mut held = held;
    let mut left = text;
    while !left.is_empty() {
        let cut = cut_at_cr(release(&mut out, held, left)?);
        out.push_str(cut.run)?;
        held = cut.held;
        left = cut.left;
    }
    Ok((out, held))
}

/// What a rule gives of a text while more may come, and whether a CR is held then; `held` says that one is held before
/// the text. The `Err` means out of memory.
pub fn read_so_far(
    alloc: Global,
    newline: Newlines,
    held: bool,
    text: &str,
) -> Result<(String, bool), AllocError>
    ensures gives { IfOk result (λ read. text_of read.0 ≡ read_so_far newline held (chars text.now)) }
    ensures holds { IfOk result (λ read. read.1 ≡ holds_after newline held (chars text.now)) }
{
    match newline {
        Newlines::Universal => read_universal(alloc, held, text),
        Newlines::Passthrough | Newlines::Lf | Newlines::Cr | Newlines::Crlf => {
            Ok((String::from_str(alloc, text)?, false))
        }
    }
}

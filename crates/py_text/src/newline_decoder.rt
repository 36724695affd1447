ghost use Rattle.std.specs.Prelude.{◌≡◌, ◌++◌, ◌&&◌, not, chars, IfOk, OnOk};
ghost use Rattle.py_plain.specs.NewlineRule.{released};
ghost use Rattle.py_codec.specs.Answers.{text_of};
ghost use Rattle.py_text.specs.NewlinePieces.{fresh, NewlineStep};

use crate::reading::read_so_far;
use py_codec::IoFault;
use py_plain::Newlines;
use std::alloc::{AllocError, Global};
use std::marker::Model;

/// After a last piece gives an LF for a CR that is held; whether one is held then.
fn finish(text: &mut String, last: bool, held: bool) -> Result<bool, AllocError>
    ensures gives { OnOk result (text_of text.new ≡ text_of text.old ++ released (last && held)) }
    ensures holds { IfOk result (λ holds. holds ≡ (not last && held)) }
{
    if !last {
        return Ok(held);
    }
    if held {
        text.push('\n')?;
    }
    Ok(false)
}

/// Reads a text that comes in pieces by the newline rule: the texts of the pieces, joined, are what the rule gives of the
/// pieces joined, wherever they are cut.
///
/// Under the universal rule a CR that ends a piece is held, since the next piece may begin with its LF; nothing else is
/// ever held. Contracts see the rule and whether a CR is held.
#[derive(Debug, Drop)]
pub struct IncrementalNewlineDecoder {
    newline: Newlines,
    held: bool,
}

impl Model for IncrementalNewlineDecoder {
    ghost use Rattle.py_text.specs.NewlinePieces.{NewlineView};

    ghost Value = { NewlineView };

    ghost view = { λ d. record { newline = d.newline; held = d.held } };
}

impl IncrementalNewlineDecoder {
    /// A decoder that has read nothing.
    pub fn new(newline: Newlines) -> Self
        ensures { result ≡ fresh newline }
    {
        IncrementalNewlineDecoder {
            newline,
            held: false,
        }
    }

    /// What the rule gives of a piece, after the held CR where there is one; `last` says that nothing follows, and nothing
    /// is held then.
    ///
    /// `NoMemory` when out of memory, and all is as before.
    pub fn decode(&mut self, alloc: Global, piece: &str, last: bool) -> Result<String, IoFault>
        ensures { NewlineStep self.old last (chars piece.now) result self.new }
    {
        let (text, held) = read_so_far(alloc, self.newline, self.held, piece)?;
        let mut text = text;
        self.held = finish(&mut text, last, held)?;
        Ok(text)
    }
}

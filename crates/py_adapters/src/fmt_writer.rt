//! A text over a stream as a writer of std's `fmt`.
ghost use Rattle.std.specs.Prelude.{◌≡◌, None, Ok, IsOk, chars};
ghost use Rattle.py_adapters.specs.Writing.{WritesThrough};
ghost use Rattle.py_adapters.specs.Formatting.{AnswersPiece};

use py_flat::IoFault;
use py_stream::BufferedStream;
use py_textio::TextIOWrapper;
use std::alloc::Global;
use std::fmt;

/// A text over a stream that was lent, to be written to by `write!` and by whatever formats itself.
///
/// An error of `fmt` says nothing: what refused a piece, `fault` tells. A wait stops nothing, since the text took the piece; `fault`
/// tells that too, and the text passes it on later.
#[derive(Debug, Drop)]
pub struct FmtWriter<'a, B: BufferedStream> {
    text: &'a mut TextIOWrapper<B>,
    alloc: Global,
    fault: Option<IoFault>,
}

impl<'a, B: BufferedStream> FmtWriter<'a, B> {
    /// A writer to a text, from where that stands.
    pub fn new(alloc: Global, text: &'a mut TextIOWrapper<B>) -> Self
        ensures same_reference { result.text.ghost_name ≡ text.entry.ghost_name }
        ensures text { result.text.now ≡ text.old }
        ensures fault { result.fault ≡ None }
    {
        FmtWriter {
            text,
            alloc,
            fault: None,
        }
    }

    /// What the text last answered to a piece that wasn't a count: `WouldBlock`, after which it had taken the piece, or what refused the
    /// piece. None before.
    pub fn fault(&self) -> Option<IoFault>
        ensures { result ≡ self.now.fault }
    {
        self.fault
    }
}

/// Each piece is one `write` of the text, which takes all of its characters, also where it answers `WouldBlock`; or it refuses the piece,
/// and says what stands then.
impl<'a, B: BufferedStream> fmt::Write for FmtWriter<'a, B> {
    ghost write_str_gives = { λ before piece after. WritesThrough before.text after.text (AnswersPiece before.text.now (chars piece) (Ok tt) after.text.now before.fault after.fault) };

    fn write_str(&mut self, s: &str) -> fmt::Result
        ensures ok { IsOk result → WritesThrough self.old.text self.new.text (AnswersPiece self.old.text.now (chars s.now) (Ok tt) self.new.text.now self.old.fault self.new.fault) }
        ensures answers { WritesThrough self.old.text self.new.text (AnswersPiece self.old.text.now (chars s.now) result self.new.text.now self.old.fault self.new.fault) }
    {
        let Err(fault) = self.text.write(self.alloc, s) else {
            return Ok(());
        };
        self.fault = Some(fault);
        match fault {
            IoFault::WouldBlock { taken: _ } => Ok(()), // the piece was taken
            _ => Err(fmt::Error),
        }
    }
}

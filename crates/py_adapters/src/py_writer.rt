//! Texts over a stream as writers of text.
ghost use Rattle.std.specs.Prelude.{chars};
ghost use Rattle.py_adapters.specs.Writing.{WritesToText, WritesThrough};

use crate::Write;
use py_flat::IoFault;
use py_stream::BufferedStream;
use py_textio::TextIOWrapper;
use std::alloc::Global;

/// A text over a stream that was lent, to be written to.
#[derive(Debug, Drop)]
pub struct PyWriter<'a, B: BufferedStream>(pub &'a mut TextIOWrapper<B>);

/// A text takes the characters by its `write`, whose refusals these are, and which says what stands then; how many were written isn't
/// answered. The text that was lent ends as it was left.
impl<'a, B: BufferedStream> Write for PyWriter<'a, B> {
    type Error = IoFault;

    ghost answers = { λ before text result after. WritesThrough before.0 after.0 (WritesToText before.0.now (chars text) result after.0.now) };

    fn write_text(&mut self, alloc: Global, text: &str) -> Result<(), IoFault> {
        match self.0.write(alloc, text) {
            Ok(_) => Ok(()),
            Err(fault) => Err(fault),
        }
    }
}

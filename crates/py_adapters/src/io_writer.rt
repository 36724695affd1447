//! Sinks of bytes as writers of text.
ghost use Rattle.py_adapters.specs.Writing.{WritesToSink, WritesThrough};

use crate::Write;
use py_raw::{Failed, Sink};
use std::alloc::Global;

/// Writes the UTF-8 of a text to a sink.
fn write_to<K: Sink>(sink: &mut K, text: &str) -> Result<(), Failed>
    ensures { WritesToSink (K.shows sink.old) text.now result (K.shows sink.new) }
{
    sink.write(text.as_bytes())
}

/// A sink that text is written to, in UTF-8.
#[derive(Debug, Drop)]
pub struct IoWriter<K: Sink>(pub K);

/// A sink that was lent, that text is written to, in UTF-8.
#[derive(Debug, Drop)]
pub struct IoWriterRef<'a, K: Sink>(pub &'a mut K);

/// A sink takes the text's UTF-8. `Failed`: the sink failed, and a front of these bytes may be written.
impl<K: Sink> Write for IoWriter<K> {
    type Error = Failed;

    ghost answers = { λ before text result after. WritesToSink (K.shows before.0) text result (K.shows after.0) };

    fn write_text(&mut self, _: Global, text: &str) -> Result<(), Failed> {
        write_to(&mut self.0, text)
    }
}

/// As of an `IoWriter`; the sink that was lent ends as it was left.
impl<'a, K: Sink> Write for IoWriterRef<'a, K> {
    type Error = Failed;

    ghost answers = { λ before text result after. WritesThrough before.0 after.0 (WritesToSink (K.shows before.0.now) text result (K.shows after.0.now)) };

    fn write_text(&mut self, _: Global, text: &str) -> Result<(), Failed> {
        write_to(self.0, text)
    }
}

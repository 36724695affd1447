ghost use Rattle.std.specs.Prelude.{◌≡◌, ℕ, Option};
ghost use Rattle.py_flat.specs.Calls.{FileReply, ReadLine};
ghost use Rattle.py_plain.specs.declared.newlines.Newlines.{Newlines};
ghost use Rattle.py_plain.specs.declared.newlines.Newlines.TheVariants as newlines;
ghost use Rattle.py_stream.specs.Answers.{Answers};
ghost use Rattle.py_stream.specs.Replies.{bytes_reply};
ghost use Rattle.py_plain_text.specs.TextCalls as text;
ghost use Rattle.py_read_text.specs.Answers as of_text;
ghost use Rattle.py_adapters.specs.Lines.{line_reply};

use crate::LineValue;
use py_buffered::{BufferedRandom, BufferedReader};
use py_flat::{Chars, Data, IoFault};
use py_plain::Newlines;
use py_raw::RawStream;
use py_stream::BufferedStream;
use py_textio::TextIOWrapper;
use std::alloc::Global;

/// Something that is read line by line.
pub trait LineSource {
    /// What a `readline` with a limit may answer and leave: the clause of the source's own `readline`.
    ghost answers: { Self → Option ℕ → FileReply → Self → Type 0 };

    /// The rule of its line ends.
    ghost rule: { Self → Newlines };

    /// The next line with its end, at most `limit` bytes or characters of it; the last may lack its end. An empty
    /// one means the end, unless the limit was 0. `None`: the raw would have blocked before any of it could be given. It is refused as the
    /// source's own `readline` is.
    fn readline(
        &mut self,
        alloc: Global,
        limit: Option<usize>,
    ) -> Result<Option<LineValue>, IoFault>
        ensures { answers self.old limit (line_reply result) self.new };

    /// The rule that its lines end by: of bytes they end at LF, and of a text by its own rule.
    fn newline(&self) -> Newlines
        ensures { result ≡ rule self.now };
}

/// An answer in bytes as one of lines.
fn line_of_bytes(answer: Result<Option<Vec<u8>>, IoFault>) -> Result<Option<LineValue>, IoFault>
    ensures { line_reply result ≡ bytes_reply answer }
{
    match answer {
        Ok(Some(bytes)) => Ok(Some(LineValue::Bytes(Data::from_vec(bytes)))),
        Ok(None) => Ok(None),
        Err(fault) => Err(fault),
    }
}

/// An answer in text as one of lines.
fn line_of_text(answer: Result<Option<String>, IoFault>) -> Result<Option<LineValue>, IoFault>
    ensures { line_reply result ≡ of_text.text_reply answer }
{
    match answer {
        Ok(Some(text)) => Ok(Some(LineValue::Text(Chars::from_string(text)))),
        Ok(None) => Ok(None),
        Err(fault) => Err(fault),
    }
}

impl<R: RawStream> LineSource for BufferedReader<R> {
    ghost answers = { λ before limit reply after. Answers before (ReadLine limit) reply after };

    ghost rule = { λ source. newlines.Lf };

    fn readline(
        &mut self,
        alloc: Global,
        limit: Option<usize>,
    ) -> Result<Option<LineValue>, IoFault> {
        line_of_bytes(BufferedReader::readline(self, alloc, limit))
    }

    fn newline(&self) -> Newlines {
        Newlines::Lf
    }
}

impl<R: RawStream> LineSource for BufferedRandom<R> {
    ghost answers = { λ before limit reply after. Answers before.stream (ReadLine limit) reply after.stream × (after.taken ≡ before.taken) };

    ghost rule = { λ source. newlines.Lf };

    fn readline(
        &mut self,
        alloc: Global,
        limit: Option<usize>,
    ) -> Result<Option<LineValue>, IoFault> {
        line_of_bytes(BufferedRandom::readline(self, alloc, limit))
    }

    fn newline(&self) -> Newlines {
        Newlines::Lf
    }
}

impl<B: BufferedStream> LineSource for TextIOWrapper<B> {
    ghost answers = { λ before limit reply after. of_text.Answers before (text.ReadLine limit) reply after };

    ghost rule = { λ source. source.text.settings.newline };

    fn readline(
        &mut self,
        alloc: Global,
        limit: Option<usize>,
    ) -> Result<Option<LineValue>, IoFault> {
        line_of_text(TextIOWrapper::readline(self, alloc, limit))
    }

    fn newline(&self) -> Newlines {
        TextIOWrapper::newline(self)
    }
}

ghost use Rattle.std.specs.Prelude.{ℕ, List, Result, string_bytes};
ghost use Rattle.py_adapters.specs.Writing.{AppendsText};

use py_flat::IoFault;
use std::alloc::Global;

/// Something that text is written to, a piece at a time, each behind what was written before.
pub trait Write {
    /// What refuses a text.
    type Error;

    /// What writing a text may answer and leave, by the bytes of its UTF-8.
    ghost answers: { Self → List ℕ → Result (Unit {0}) Self.Error → Self → Type 0 };

    /// Writes all characters of a text. Refused, it says what stands then.
    fn write_text(&mut self, alloc: Global, text: &str) -> Result<(), Self::Error>
        ensures { answers self.old text.now result self.new };
}

/// A string takes the text at its end. `NoMemory`: there is no room for it, and the string is as it was.
impl Write for String {
    type Error = IoFault;

    ghost answers = { λ before text result after. AppendsText (string_bytes before) text result (string_bytes after) };

    fn write_text(&mut self, _: Global, text: &str) -> Result<(), IoFault> {
        match self.push_str(text) {
            Ok(()) => Ok(()),
            Err(_) => Err(IoFault::NoMemory),
        }
    }
}

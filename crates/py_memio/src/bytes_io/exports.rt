//! Bytes that are lent out, under numbers.
ghost use Rattle.std.specs.Borrow.{sem};
ghost use Rattle.std.specs.Prelude.{◌≡◌, false, position, nat_eq, IfOk};
ghost use Rattle.py_memio.specs.BytesIO.{is_out, export_refusal, use_refusal, GivesExport, LendsBytes, Releases, PlaceOutcome};
ghost use Rattle.py_memio.specs.Lending.{WritesThrough};

use super::BytesIO;
use crate::Export;
use py_flat::IoFault;

impl BytesIO {
    /// Lends the bytes out, under a number: 0 for the first export, and one more for each next, so that none is given twice. Until the
    /// number is released the bytes keep their length: `write`, `writelines`, `truncate` and `close` are refused.
    ///
    /// `TooFar`: all numbers are given. `NoMemory` leaves all as it was.
    pub fn getbuffer(&mut self) -> Result<Export, IoFault>
        ensures answer { GivesExport (export_refusal self.old) self.old result self.new }
        ensures fresh { IfOk result (λ export. is_out self.old.exports export.0 ≡ false) }
    {
        self.check_open()?;
        let Some(number) = self.next else {
            return Err(IoFault::TooFar);
        };
        self.out.push(number)?;
        self.next = number.checked_add(1);
        Ok(Export(number))
    }

    /// The bytes that an export lends. `BadArgument`: that number isn't out. It takes no memory.
    pub fn export_bytes(&self, export: Export) -> Result<&[u8], IoFault>
        ensures { LendsBytes (use_refusal self.now export.0) self.now.file.bytes result }
    {
        self.place_of(export)?;
        Ok(self.lent_bytes())
    }

    /// Takes an export back: its number is out no more. `BadArgument`: it isn't out. It takes no memory.
    pub fn release(&mut self, export: Export) -> Result<(), IoFault>
        ensures answer { Releases (use_refusal self.old export.0) self.old export.0 result self.new }
        ensures gone { IfOk result (λ done. is_out self.new.exports export.0 ≡ false) }
    {
        let place = self.place_of(export)?;
        self.out.remove(place);
        Ok(())
    }

    /// All bytes, to be written; they keep their number.
    pub(super) fn bytes_mut(&mut self) -> &mut [u8]
        ensures* writes_back { sem 𝓛 (WritesThrough self.entry result) }
        ensures value { result.now ≡ self.old.file.bytes }
    {
        self.bytes.as_mut_slice()
    }

    /// All bytes, lent.
    pub(super) fn lent_bytes(&self) -> &[u8]
        ensures { result.now ≡ self.now.file.bytes }
    {
        self.bytes.as_slice()
    }

    /// Where the number of an export stands among those that are out; a closed stream has none out.
    pub(super) fn place_of(&self, export: Export) -> Result<usize, IoFault>
        ensures { PlaceOutcome (use_refusal self.now export.0) self.now.exports.out export.0 result }
    {
        self.check_open()?;
        match place_in(&self.out, export.0) {
            Some(place) => Ok(place),
            None => Err(IoFault::BadArgument),
        }
    }
}

/// The place of a number among others.
fn place_in(numbers: &[u64], number: u64) -> Option<usize>
    ensures { result ≡ position (λ own. nat_eq own number) numbers.now }
{
    numbers.iter().position(|own| *own == number)
}

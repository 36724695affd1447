//! Streams that lend the bytes that they hold, and move their place within them.
ghost use Rattle.std.specs.Prelude.{◌≡◌, ℕ, Bool, true, Some, Result, IfOk, IfSome, length};
ghost use Rattle.std.specs.Io.{StartsWith};
ghost use Rattle.std.specs.Io.KnownBytes.{Keeps, IsAtEnd};
ghost use Rattle.std.specs.Io.BufRead.{DropsConsumable};
ghost use Rattle.py_flat.specs.declared.fault.IoFault.{IoFault};
ghost use Rattle.py_flat.specs.ExactStep.{rest};
ghost use Rattle.py_buffered.specs.Ahead.{while_live, lent_by, LooksAhead, PassesOver};
ghost use Rattle.py_adapters.specs.Known.{LooksInMemory, PassesInMemory};

use crate::ReadOnce;
use py_buffered::{BufferedRandom, BufferedReader};
use py_flat::IoFault;
use py_memio::BytesIO;
use py_raw::RawStream;

/// A stream that lends the bytes that it holds, and moves its place within them.
pub trait LendHeld: ReadOnce {
    /// What `fill` may answer and leave: the clause of the stream's own call.
    ghost looks: { Self → Result Bool IoFault → Self → Type 0 };

    /// What `consume` of so many bytes may answer and leave: the clause of the stream's own call.
    ghost passes: { Self → ℕ → Result ℕ IoFault → Self → Type 0 };

    /// How many bytes it lends, within which `consume` moves: none where it doesn't live.
    ghost lends: { Self → ℕ };

    /// Sees to it that some of the next bytes are held. True where some are, and where nothing is left; false where the raw would have
    /// blocked. It is refused as the stream's own `peek` is. What is left stays.
    fn fill(&mut self) -> Result<bool, IoFault>
        ensures looks { looks self.old result self.new }
        ensures keeps { Keeps (Self.left self.old) (Self.left self.new) }
        ensures end { IfOk result (λ shown. shown ≡ true → lends self.new ≡ 0 → IsAtEnd (Self.left self.new)) };

    /// The bytes that it holds from the place on, lent: the next of those that are left.
    fn held(&self) -> &[u8]
        ensures many { length result.now ≡ lends self.now }
        ensures next { IfSome (Self.left self.now) (λ xs. StartsWith xs result.now) };

    /// Moves the place past the next `amount` of the bytes that it lends, or past all of them where they are fewer, and answers how many.
    /// Only the life refuses it. It calls no raw, and takes no memory.
    fn consume(&mut self, amount: usize) -> Result<usize, IoFault>
        ensures passes { passes self.old amount result self.new }
        ensures drops { DropsConsumable (Self.left self.old) (Self.left self.new) (Some (lends self.old)) amount };
}

impl<R: RawStream> LendHeld for BufferedReader<R> {
    ghost looks = { LooksAhead };

    ghost passes = { PassesOver };

    ghost lends = { lent_by };

    fn fill(&mut self) -> Result<bool, IoFault> {
        BufferedReader::fill(self)
    }

    fn held(&self) -> &[u8] {
        BufferedReader::held(self)
    }

    fn consume(&mut self, amount: usize) -> Result<usize, IoFault> {
        BufferedReader::consume(self, amount)
    }
}

impl<R: RawStream> LendHeld for BufferedRandom<R> {
    ghost looks = { λ before result after. LooksAhead before.stream result after.stream × (after.taken ≡ before.taken) };

    ghost passes = { λ before amount result after. PassesOver before.stream amount result after.stream × (after.taken ≡ before.taken) };

    ghost lends = { λ view. lent_by view.stream };

    fn fill(&mut self) -> Result<bool, IoFault> {
        BufferedRandom::fill(self)
    }

    fn held(&self) -> &[u8] {
        BufferedRandom::held(self)
    }

    fn consume(&mut self, amount: usize) -> Result<usize, IoFault> {
        BufferedRandom::consume(self, amount)
    }
}

/// It lends all that is left.
impl LendHeld for BytesIO {
    ghost looks = { LooksInMemory };

    ghost passes = { PassesInMemory };

    ghost lends = { λ view. while_live view.file.life (length (rest view.file)) };

    fn fill(&mut self) -> Result<bool, IoFault> {
        match BytesIO::peek(self) {
            Ok(_left) => Ok(true),
            Err(fault) => Err(fault),
        }
    }

    fn held(&self) -> &[u8] {
        match BytesIO::peek(self) {
            Ok(left) => left,
            Err(_closed) => &[],
        }
    }

    fn consume(&mut self, amount: usize) -> Result<usize, IoFault> {
        BytesIO::consume(self, amount)
    }
}

ghost use Rattle.std.specs.Prelude.{◌≡◌, ℕ, List};
ghost use Rattle.py_lines.specs.Collecting.{CollectOutcome, StaysOpenAt};

use std::alloc::AllocError;

/// What a piece came to.
#[derive(Clone, Copy, Debug, PartialEq, Eq)]
pub enum Collected {
    /// With the first n bytes of the piece there is enough; its bytes after those weren't taken.
    Enough(usize),
    /// All of the piece was taken, and more is wanted.
    All,
}

/// Something that takes the bytes of a stream, piece by piece, until it has enough.
///
/// What it wants of a stream is a front of it, which doesn't depend on where the pieces are cut.
pub trait Collector {
    /// The bytes that it took.
    ghost collected: { Self → List ℕ };

    /// What the collector wants of all that is left of a stream: a front of it.
    ghost wanted: { Self → List ℕ → List ℕ };

    /// The collector hasn't enough yet.
    ghost is_open: { Self → Type 0 };

    /// Takes what it wants of a piece, the bytes of the stream after those that it took.
    ///
    /// `Enough(used)`: with the first `used` bytes of the piece it has all that it wants, whatever comes after them.
    /// `All`: it took the whole piece, and has a front of what it wants; hand it the next piece, or take what it has where
    /// the stream ends. When out of memory (`Err`) it wants what it wanted, but what it has isn't told: begin anew.
    fn collect(&mut self, bytes: &[u8]) -> Result<Collected, AllocError>
        requires open { is_open self.old }
        ensures same { (rest : List ℕ) → wanted self.new rest ≡ wanted self.old rest }
        ensures outcome { CollectOutcome (wanted self.old) (collected self.old) bytes.now result (collected self.new) }
        ensures open { StaysOpenAt (is_open self.new) result };
}

ghost use Rattle.std.specs.Prelude.{◌≡◌};
ghost use Rattle.py_raw.specs.Reads.{after_read};

/// What the reads of a raw stream brought; those that would have blocked or failed are none of them. Each count stops at
/// 18446744073709551615.
#[derive(Clone, Copy, Debug, Default, PartialEq, Eq)]
pub struct Reads {
    /// How many bytes they brought in all.
    pub brought: u64,
    /// How many of them brought none.
    pub empty: u64,
    /// How many bytes the last of them brought.
    pub last: u64,
}

impl Reads {
    /// Counts one read more, which brought n bytes.
    pub fn count(&mut self, brought: usize)
        ensures { self.new ≡ after_read self.old brought }
    {
        self.brought = self.brought.saturating_add(brought as u64);
        if brought == 0 {
            self.empty = self.empty.saturating_add(1);
        }
        self.last = brought as u64;
    }
}

ghost use Rattle.std.specs.Prelude.{◌≡◌};
ghost use Rattle.py_raw_memory.specs.MemOpener.{shown_opener};

use super::MemOpener;

impl MemOpener {
    /// How many openings were refused by `Fault`; the count stops at 18446744073709551615.
    pub fn fault_count(&self) -> u64
        ensures { result ≡ (shown_opener self.now).faults }
    {
        self.faults
    }

    /// How many streams were opened; the count stops at 18446744073709551615.
    pub fn opened_count(&self) -> u64
        ensures { result ≡ (shown_opener self.now).opened }
    {
        self.opened
    }

    /// How many streams `done` took back; the count stops at 18446744073709551615.
    pub fn taken_back_count(&self) -> u64
        ensures { result ≡ (shown_opener self.now).taken_back }
    {
        self.taken_back
    }

    /// How many faults the streams had that `done` took back; the count stops at 18446744073709551615.
    pub fn raw_fault_count(&self) -> u64
        ensures { result ≡ (shown_opener self.now).raw_faults }
    {
        self.raw_faults
    }

    /// How many times the streams would have blocked that `done` took back; the count stops at 18446744073709551615.
    pub fn raw_wait_count(&self) -> u64
        ensures { result ≡ (shown_opener self.now).raw_waits }
    {
        self.raw_waits
    }
}

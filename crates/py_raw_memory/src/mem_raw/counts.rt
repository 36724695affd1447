ghost use Rattle.std.specs.Prelude.{◌≡◌};
ghost use Rattle.py_raw_memory.specs.MemRaw.{shown};

use super::MemRaw;

impl MemRaw {
    /// How many faults there were; the count stops at 18446744073709551615.
    pub fn fault_count(&self) -> u64
        ensures { result ≡ (shown self.now).faults }
    {
        self.faults
    }

    /// How many times it would have blocked; the count stops at 18446744073709551615.
    pub fn wait_count(&self) -> u64
        ensures { result ≡ (shown self.now).waits }
    {
        self.waits
    }

    /// How many transfers it was asked for, waits and faults among them; the count stops at 18446744073709551615.
    pub fn transfer_count(&self) -> u64
        ensures { result ≡ (shown self.now).transfers }
    {
        self.transfers
    }

    /// Where it stands, in bytes from the start. Unlike `tell` this is no call of a stream: it is not counted, and never fails.
    pub fn place_of(&self) -> u64
        ensures { result ≡ (shown self.now).place }
    {
        self.place
    }
}

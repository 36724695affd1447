use py_raw::Reads;

/// What a raw stream of the system counted. Each count stops at 18446744073709551615.
#[derive(Clone, Copy, Debug, Default, PartialEq, Eq)]
pub struct Counts {
    /// How many transfers it was asked for, waits and faults among them.
    pub transfers: u64,
    /// How many bytes its writes answered for.
    pub written: u64,
    /// What its reads brought.
    pub reads: Reads,
    /// How many faults there were.
    pub faults: u64,
    /// How many times it would have blocked.
    pub waits: u64,
}

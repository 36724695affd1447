/// The checksum Adler-32 of all bytes that were read.
#[derive(Clone, Copy, Debug, PartialEq, Eq)]
pub(crate) struct Sum {
    low: u32,
    high: u32,
}

/// The number that both halves are counted by.
const PRIME: u32 = 65521;

impl Sum {
    /// The checksum of no bytes.
    pub(crate) fn new() -> Self {
        Sum { low: 1, high: 0 }
    }

    /// Takes further bytes in.
    pub(crate) fn add(&mut self, bytes: &[u8]) {
        for byte in bytes {
            self.low = (self.low % PRIME + u32::from(*byte)) % PRIME;
            self.high = (self.high % PRIME + self.low % PRIME) % PRIME;
        }
    }

    /// The checksum as one number.
    pub(crate) fn value(self) -> u32 {
        self.high % PRIME * 65536 + self.low % PRIME
    }
}

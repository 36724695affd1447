//! Numbers in no order, the same at each run.

/// A linear congruential generator.
#[derive(Clone, Copy, Debug)]
pub(crate) struct Numbers {
    state: u64,
}

impl Numbers {
    pub(crate) fn from_seed(seed: u64) -> Numbers {
        Numbers { state: seed }
    }

    /// The next number, without its low bits, which come in a short circle.
    pub(crate) fn next(&mut self) -> usize {
        self.state = self
            .state
            .wrapping_mul(6_364_136_223_846_793_005)
            .wrapping_add(1_442_695_040_888_963_407);
        (self.state >> 33) as usize
    }
}

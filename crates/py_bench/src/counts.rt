/// How many calls answered with something, and its bytes or characters together.
#[derive(Clone, Copy, Debug, PartialEq, Eq)]
pub struct Counts {
    pub answers: u64,
    pub units: u64,
}

impl Counts {
    /// Nothing counted.
    pub fn new() -> Self {
        Counts {
            answers: 0,
            units: 0,
        }
    }

    /// Counts one more answer, of so many bytes or characters.
    pub fn add(&mut self, units: usize) {
        self.answers = self.answers.saturating_add(1);
        self.units = self.units.saturating_add(units as u64);
    }
}

use std::alloc::{AllocError, Global};

/// How many inputs were tried, and how many answers were what they had to be. A count stands still at its type's end.
#[derive(Drop)]
pub(crate) struct Tally {
    pub inputs: u64,
    pub agree: u64,
    pub differ: u64,
    /// What was tried where an answer was another for the first time.
    pub first: Option<String>,
}

impl Tally {
    /// Nothing was tried.
    pub(crate) fn new() -> Self {
        Tally {
            inputs: 0,
            agree: 0,
            differ: 0,
            first: None,
        }
    }

    /// Counts an input.
    pub(crate) fn input(&mut self) {
        self.inputs = self.inputs.saturating_add(1);
    }

    /// Counts an answer.
    pub(crate) fn answer(&mut self, agrees: bool) {
        if agrees {
            self.agree = self.agree.saturating_add(1);
        } else {
            self.differ = self.differ.saturating_add(1);
        }
    }

    /// Whether an answer differs, and what was tried isn't kept yet.
    pub(crate) fn wants_first(&self) -> bool {
        self.differ > 0 && self.first.is_none()
    }

    /// Keeps the number of the record, the first being 0, where an answer differs for the first time.
    pub(crate) fn place_record(&mut self, alloc: Global, index: usize) -> Result<(), AllocError> {
        if self.wants_first() {
            self.first = Some(format!(in alloc; "record {index}")?);
        }
        Ok(())
    }
    /// Keeps a place where an answer differs for the first time.
    pub(crate) fn place(&mut self, alloc: Global, place: &str) -> Result<(), AllocError> {
        if self.wants_first() {
            let mut first = String::new(alloc);
            first.push_str(place)?;
            self.first = Some(first);
        }
        Ok(())
    }
}

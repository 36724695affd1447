//! Where a reading stops, and what its steps come to.

/// Where a reading stopped.
#[derive(Clone, Copy)]
pub enum Stop {
    /// The reading has all that was asked for.
    Enough,
    /// Nothing comes any more.
    End,
    /// The raw would have blocked.
    Waits,
}

/// How far a reading into a buffer came, and why it stopped there.
#[derive(Clone, Copy)]
pub struct Progress {
    /// How many bytes came.
    pub count: usize,
    /// Why no more are read.
    pub stop: Stop,
}

/// What a step of a reading into a buffer came to.
#[derive(Clone, Copy)]
pub enum Step {
    /// As many bytes as counted came, and more are wanted.
    On(usize),
    /// As many bytes as counted came, and no more are read.
    Stopped {
        /// How many bytes came.
        count: usize,
        /// Why no more are read.
        stop: Stop,
    },
}

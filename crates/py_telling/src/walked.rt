/// How far some bytes were walked to tell where a text stands: a boundary between items. By default nothing was walked.
#[derive(Clone, Copy, Debug, Default, PartialEq, Eq)]
pub struct Walked {
    /// How many bytes were walked.
    pub passed: usize,
    /// How many characters they gave, a CR that is held among them.
    pub count: u128,
    /// Whether a CR is held behind them.
    pub held: bool,
}

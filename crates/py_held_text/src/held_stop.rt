/// Why the bytes in hand give no more characters.
#[derive(Clone, Copy, Debug, PartialEq, Eq)]
pub enum HeldStop {
    /// None are left; or those left may still become a character, where more may come.
    Drained,
    /// The range from `start` to before `end` comes next, in byte places of the stream, which the handler refuses.
    Refused { start: u64, end: u64 },
}

/// What a call asks for.
#[derive(Clone, Copy, Debug, PartialEq, Eq)]
pub enum Wanted {
    /// The next n characters, or all that are left.
    Characters(Option<usize>),
    /// A line, at most n characters of it.
    Line(Option<usize>),
}

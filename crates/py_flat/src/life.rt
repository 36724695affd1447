/// What became of a stream, which decides first what a call answers.
///
/// A stream begins `Live`, and leaves each other life only for `Detached`: only a `Failed` one does.
#[derive(Clone, Copy, Debug, PartialEq, Eq)]
pub enum Life {
    /// Calls do their work.
    Live,
    /// An earlier call failed the stream: only `detach` and the getters work.
    Failed,
    /// An earlier `close` closed it: only a further `close` and the getters work.
    Closed,
    /// An earlier `detach` handed the lower stream back: only the getters work.
    Detached,
}

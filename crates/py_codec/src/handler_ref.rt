ghost use Rattle.std.specs.Prelude.{◌≡◌};
ghost use Rattle.py_codec.specs.declared.handler_ref.HandlerRef.TheVariants as given;

use py_plain::Handler;

/// A handler: one of the built-in ones, or one of a user's own.
#[derive(Clone, Copy, Debug, PartialEq, Eq)]
pub enum HandlerRef<H> {
    /// A built-in handler, one of the seven.
    Builtin(Handler),
    /// A handler of a user's own.
    Custom(H),
}

/// A built-in handler as a handler of any kind.
impl<H> From<Handler> for HandlerRef<H> {
    ghost from_gives = { λ handler errors. errors ≡ given.Builtin handler };

    fn from(handler: Handler) -> HandlerRef<H> {
        HandlerRef::Builtin(handler)
    }
}

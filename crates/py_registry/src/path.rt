ghost use Rattle.std.specs.Prelude.{◌≡◌};

use crate::PyCodec;
use std::marker::Model;

/// The search functions of a registry in the order in which they were registered, as a probe answers them: what they
/// find is settled afterwards. Contracts see it as their list.
#[derive(Debug, Drop)]
pub struct Path<S> {
    functions: Vec<S>,
}

impl<S> Model for Path<S> {
    ghost use Rattle.std.specs.Prelude.{List};

    ghost Value = { List S };

    ghost view = { λ p. p.functions.items };
}

impl<S: Copy> Path<S> {
    /// A path of the functions of a vector, in their order. It takes no memory.
    pub(crate) fn from_vec(functions: Vec<S>) -> Self
        ensures { result ≡ functions.items }
    {
        Path { functions }
    }

    /// The functions in order, lent.
    pub fn as_slice(&self) -> &[S]
        ensures { result.now ≡ self.now }
    {
        self.functions.as_slice()
    }
}

/// What a probe answers.
#[derive(Debug, Drop)]
pub enum Probe<S> {
    /// The codec that the name has in the cache, or that is built in under it.
    Hit(PyCodec<S>),
    /// The functions that have to be asked for the name.
    Search(Path<S>),
}

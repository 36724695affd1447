ghost use Rattle.std.specs.Prelude.{◌≡◌, chars, IfOk};
ghost use Rattle.py_codec.specs.Answers.{bytes_of};
ghost use Rattle.py_codec.specs.Refusing.{RefusedFirst};
ghost use Rattle.py_codec.specs.declared.handler_ref.HandlerRef.TheVariants.{Builtin};
ghost use Rattle.py_incremental.specs.Incremental.{EncoderView, EncoderAnswer, encoding_with};

use py_codec::{HandlerRef, NoHandler, encode};
use py_flat::IoFault;
use py_plain::{Encoding, Handler};
use std::alloc::Global;
use std::marker::Model;

/// Encodes texts that come in pieces. In the five encodings it keeps nothing between them.
#[derive(Debug, Drop)]
pub struct IncrementalEncoder {
    encoding: Encoding,
    handler: Handler,
}

impl Model for IncrementalEncoder {
    ghost use Rattle.py_incremental.specs.Incremental.{EncoderView};

    ghost Value = { EncoderView };

    ghost view = { λ e. record { encoding = e.encoding; handler = e.handler } };
}

impl IncrementalEncoder {
    /// An encoder.
    pub fn new(encoding: Encoding, handler: Handler) -> Self
        ensures { result ≡ record { encoding = encoding; handler = handler } }
    {
        IncrementalEncoder { encoding, handler }
    }

    /// The encoding that it writes.
    pub fn encoding(&self) -> Encoding
        ensures { result ≡ self.now.encoding }
    {
        self.encoding
    }

    /// The handler that it writes by.
    pub fn handler(&self) -> Handler
        ensures { result ≡ self.now.handler }
    {
        self.handler
    }

    /// The bytes of a piece.
    ///
    /// `UnicodeEncodeError` is the first run that the handler refuses, in characters from the start of the piece. A
    /// refusal and `NoMemory` leave all as it was, as every call does. A piece that strict or a handler of surrogates
    /// refuses is answered with its refusal, never with `NoMemory`.
    pub fn encode(&mut self, alloc: Global, text: &str) -> Result<Vec<u8>, IoFault>
        ensures answer { EncoderAnswer self.old (chars text.now) result }
        ensures first { RefusedFirst {H = ⊥} (Builtin self.old.handler) (encoding_with self.old (chars text.now)) result }
        ensures same { self.new ≡ self.old }
    {
        let errors = HandlerRef::<NoHandler>::Builtin(self.handler);
        let (bytes, _) = encode(alloc, self.encoding, text, errors)?;
        Ok(bytes)
    }

    /// What is kept between pieces: 0, nothing.
    pub fn getstate(&self) -> u64
        ensures { result ≡ 0 }
    {
        0
    }

    /// Takes a state: 0.
    pub fn setstate(&mut self, state: u64)
        requires { state ≡ 0 }
        ensures { self.new ≡ self.old }
    {
        let _ = state;
    }

    /// Keeps nothing, as ever.
    pub fn reset(&mut self)
        ensures { self.new ≡ self.old }
    {}
}

ghost use Rattle.std.specs.Prelude.{◌≡◌, ◌≤◌, ◌++◌, ℕ, true, List, [], length, IfOk, IfErr};
ghost use Rattle.py_plain.specs.Handlers.{reads_texts};
ghost use Rattle.py_plain.specs.Units.{Unknown};
ghost use Rattle.py_incremental.specs.Incremental.{fresh, DecoderView, DecoderStep};

use crate::DecoderState;
use crate::held::Held;
use py_codec::{HandlerRef, NoHandler, decode};
use py_flat::{Data, IoFault};
use py_plain::{Encoding, Handler};
use std::alloc::{AllocError, Global};
use std::marker::Model;

/// Decodes bytes that come in pieces: the texts of the pieces, joined, are the text of the joined pieces.
///
/// A sequence that the end of a piece cuts is held, at most three bytes, and decoded with the next. The handler is always
/// one of the five that `Handler::reads_texts` is true of (`reads`), as `a_decoder_reads_the_pieces_joined` asks.
#[derive(Debug, Drop)]
pub struct IncrementalDecoder {
    encoding: Encoding,
    handler: Handler,
    held: Held,
}

impl Model for IncrementalDecoder {
    ghost use Rattle.py_incremental.specs.Incremental.{DecoderView};

    ghost Value = { DecoderView };

    ghost use Rattle.py_plain.specs.Units.{Unknown};

    ghost view = { λ d. record { encoding = d.encoding; handler = d.handler; order = Unknown; held = d.held } };

    ghost use Rattle.std.specs.Prelude.{◌≡◌, ◌≤◌, true, length};
    ghost use Rattle.py_plain.specs.Handlers.{reads_texts};

    ghost invariant = { λ d. (reads_texts d.handler ≡ true) × (length d.held ≤ 3) };
}

impl IncrementalDecoder {
    /// A decoder that holds nothing, with a handler that texts are read with.
    pub fn new(encoding: Encoding, handler: Handler) -> Self
        requires reads { reads_texts handler ≡ true }
        ensures { result ≡ fresh encoding handler }
    {
        IncrementalDecoder {
            encoding,
            handler,
            held: Held::new(),
        }
    }

    /// The encoding that it reads.
    pub fn encoding(&self) -> Encoding
        ensures { result ≡ self.now.encoding }
    {
        self.encoding
    }

    /// The handler that it reads by, one of those that texts are read with.
    pub fn handler(&self) -> Handler
        ensures handler { result ≡ self.now.handler }
        ensures reads { reads_texts result ≡ true }
    {
        self.handler
    }

    /// The text of the held bytes and a piece after them; `last` says that no bytes follow, and nothing is held then.
    ///
    /// `UnicodeDecodeError` is the first range that the handler refuses, in bytes from the first held one. After it, and
    /// after `NoMemory`, all is as before.
    pub fn decode(&mut self, alloc: Global, bytes: &[u8], last: bool) -> Result<String, IoFault>
        ensures step { DecoderStep self.old last bytes.now result self.new }
        ensures short { length self.new.held ≤ 3 }
        ensures reads { reads_texts self.new.handler ≡ true }
    {
        if self.held.as_slice().is_empty() {
            return self.decode_joined(alloc, bytes, last);
        }
        match self.joined(alloc, bytes) {
            Ok(joined) => self.decode_joined(alloc, &joined, last),
            Err(_) => Err(IoFault::NoMemory),
        }
    }

    /// The held bytes and a piece after them.
    fn joined(&self, alloc: Global, bytes: &[u8]) -> Result<Vec<u8>, AllocError>
        ensures { IfOk result (λ joined. joined.items ≡ self.now.held ++ bytes.now) }
    {
        let mut joined = Vec::from_slice(alloc, self.held.as_slice())?;
        joined.extend_from_slice(bytes)?;
        Ok(joined)
    }

    /// Decodes a piece of which the held bytes stand in front already.
    fn decode_joined(&mut self, alloc: Global, joined: &[u8], last: bool) -> Result<String, IoFault>
        ensures step { (bytes : List ℕ) → joined.now ≡ self.old.held ++ bytes
            → DecoderStep self.old last bytes result self.new }
        ensures short { length self.new.held ≤ 3 }
        ensures reads { reads_texts self.new.handler ≡ true }
    {
        let errors = HandlerRef::<NoHandler>::Builtin(self.handler);
        match decode(alloc, self.encoding, joined, errors, last) {
            Ok((text, used)) => {
                self.held = Held::from_slice(&joined[used..]);
                Ok(text)
            }
            Err(fault) => Err(fault),
        }
    }

    /// What is held, at most three bytes, with the flags 0; `NoMemory` only when out of memory.
    pub fn getstate(&self, alloc: Global) -> Result<DecoderState, IoFault>
        ensures held { IfOk result (λ state. state.held ≡ self.now.held) }
        ensures flags { IfOk result (λ state. state.flags ≡ 0) }
        ensures short { IfOk result (λ state. length state.held ≤ 3) }
        ensures memory { IfErr result (λ why. why ≡ IoFault.NoMemory) }
        ensures reads { reads_texts self.now.handler ≡ true }
    {
        match Data::from_slice(alloc, self.held.as_slice()) {
            Ok(held) => Ok(DecoderState { held, flags: 0 }),
            Err(_) => Err(IoFault::NoMemory),
        }
    }

    /// Holds the bytes of a state instead. They are at most three, and the flags 0.
    pub fn setstate(&mut self, state: &DecoderState)
        requires short { length state.now.held ≤ 3 }
        requires flags { state.now.flags ≡ 0 }
        ensures held { self.new ≡ record self.old { order = Unknown; held = state.now.held } }
        ensures reads { reads_texts self.new.handler ≡ true }
    {
        self.held = Held::from_slice(state.held.as_slice());
    }

    /// Holds nothing.
    pub fn reset(&mut self)
        ensures held { self.new ≡ fresh self.old.encoding self.old.handler }
        ensures reads { reads_texts self.new.handler ≡ true }
    {
        self.held = Held::new();
    }
}

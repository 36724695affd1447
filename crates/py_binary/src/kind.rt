//! The streams that a binary session may call.
ghost use Rattle.std.specs.Prelude.{◌≡◌, false};
ghost use Rattle.py_binary.specs.Kinds.{shown, IsServed};

use crate::buffered::Buffered;
use py_raw::{Life, RawStream};
use py_unbuffered::UnbufferedStream;

/// The stream of a session, with a buffer or without.
#[derive(Debug, Drop)]
pub(crate) enum Kind<R: RawStream> {
    /// A buffered stream.
    Buffered(Buffered<R>),
    /// A stream without a buffer.
    Unbuffered(UnbufferedStream<R>),
}

impl<R: RawStream> Kind<R> {
    /// Whether it reads.
    pub fn readable(&self) -> bool
        ensures { result ≡ (shown self.now).can.readable }
    {
        match self {
            Kind::Buffered(stream) => stream.readable(),
            Kind::Unbuffered(stream) => stream.readable(),
        }
    }

    /// Whether it writes.
    pub fn writable(&self) -> bool
        ensures { result ≡ (shown self.now).can.writable }
    {
        match self {
            Kind::Buffered(stream) => stream.writable(),
            Kind::Unbuffered(stream) => stream.writable(),
        }
    }

    /// Whether its raw can be moved.
    pub fn seekable(&self) -> bool
        ensures { result ≡ (shown self.now).can.seekable }
    {
        match self {
            Kind::Buffered(stream) => stream.seekable(),
            Kind::Unbuffered(stream) => stream.seekable(),
        }
    }

    /// What became of the stream.
    pub fn life(&self) -> Life
        ensures { result ≡ (shown self.now).life }
    {
        match self {
            Kind::Buffered(stream) => stream.life(),
            Kind::Unbuffered(stream) => stream.life(),
        }
    }

    /// Whether a wait of the raw cut the last call short.
    pub fn short(&self) -> bool
        ensures { result ≡ (shown self.now).short }
    {
        match self {
            Kind::Buffered(stream) => stream.short(),
            Kind::Unbuffered(stream) => stream.short(),
        }
    }

    /// Forgets that a wait cut the last call short.
    pub fn forget_wait(&mut self)
        ensures whole { shown self.new ≡ record (shown self.old) { short = false } }
        ensures served { IsServed self.old → IsServed self.new }
    {
        match self {
            Kind::Buffered(stream) => stream.forget_wait(),
            Kind::Unbuffered(stream) => stream.forget_wait(),
        }
    }
}

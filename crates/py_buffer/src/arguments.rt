//! Arguments that ask for bytes.
ghost use Rattle.std.specs.Prelude.{◌≡◌, ◌≤◌, ◌^◌, ◌<◌, ◌↔◌, true, false, length, take, IsTrue, MatchResult, IfOk, OnErr};
ghost use Rattle.std.specs.Fn.{FnOnceReturnsAt};
ghost use Rattle.std.specs.Str.{IsAscii};
ghost use Rattle.py_buffer.specs.declared.arguments.ArgFault.TheVariants as arg_fault;
ghost use Rattle.py_buffer.specs.Descriptor.{IsContiguous};
ghost use Rattle.py_buffer.specs.Buffers.{IsOver, items_of};
ghost use Rattle.py_buffer.specs.Arguments.{argument_bytes, ascii_bytes, ascii_len, AsciiOutcome};

use crate::{BufferDescriptor, PyBuffer, PyBufferMut};
use std::marker::Model;
use thiserror::Error;

/// Why an argument was refused.
#[derive(Clone, Copy, Debug, PartialEq, Eq, Error)]
pub enum ArgFault {
    /// The buffer isn't contiguous.
    #[error("the buffer isn't contiguous")]
    NotContiguous,
    /// The buffer may only be read.
    #[error("the buffer may only be read")]
    ReadOnly,
    /// The text has a character past ASCII.
    #[error("the text has a character past ASCII")]
    NotAscii,
}

/// A contiguous buffer that is read. Contracts see the buffer.
#[derive(Debug, Drop)]
pub struct ArgBytesLike<'a> {
    buffer: PyBuffer<'a>,
}

impl<'a> Model for ArgBytesLike<'a> {
    ghost use Rattle.py_buffer.specs.Descriptor.{IsContiguous};
    ghost use Rattle.py_buffer.specs.Buffers.{BufferView};

    ghost Value = { BufferView };

    ghost view = { λ a. a.buffer };

    ghost invariant = { λ a. IsContiguous a.buffer.desc };
}

impl<'a> ArgBytesLike<'a> {
    /// The buffer, or NotContiguous where it isn't contiguous.
    pub fn new(buffer: PyBuffer<'a>) -> Result<Self, ArgFault>
        ensures { MatchResult result (λ a. (a ≡ buffer.entry) × IsContiguous buffer.entry.desc) (λ refused. (refused ≡ arg_fault.NotContiguous) × (IsContiguous buffer.entry.desc → ⊥)) }
    {
        if buffer.desc().is_contiguous() {
            Ok(ArgBytesLike { buffer })
        } else {
            Err(ArgFault::NotContiguous)
        }
    }

    /// The bytes of all items.
    pub fn borrow_buf(&self) -> &[u8]
        ensures value { result.now ≡ items_of self.now }
        ensures first { result.now ≡ take self.now.desc.len self.now.bytes }
    {
        match self.buffer.as_contiguous() {
            Some(bytes) => bytes,
            None => &[],
        }
    }

    /// What `f` answers of the bytes.
    pub fn with_ref<R, F: FnOnce(&[u8]) -> R>(&self, f: F) -> R
        requires { F.IsAlwaysCallable f }
        ensures { FnOnceReturnsAt F.FnOnce f (items_of self.now) result }
    {
        f(self.borrow_buf())
    }

    /// How many bytes the argument has.
    pub fn len(&self) -> usize
        ensures { result ≡ self.now.desc.len }
    {
        self.buffer.desc().len
    }

    /// Whether the argument has no bytes.
    pub fn is_empty(&self) -> bool
        ensures { IsTrue result ↔ (self.now.desc.len ≡ 0) }
    {
        self.len() == 0
    }
}

impl<'a> From<ArgBytesLike<'a>> for PyBuffer<'a> {
    ghost from_gives = { λ argument buffer. buffer ≡ argument };

    fn from(argument: ArgBytesLike<'a>) -> PyBuffer<'a> {
        let ArgBytesLike { buffer } = argument;
        buffer
    }
}

/// A contiguous buffer or a text.
#[derive(Debug, Drop)]
pub enum ArgStrOrBytesLike<'a> {
    /// A buffer.
    Buf(ArgBytesLike<'a>),
    /// A text.
    Str(&'a str),
}

impl ArgStrOrBytesLike<'_> {
    /// The bytes of the buffer's items, or of the text.
    pub fn borrow_bytes(&self) -> &[u8]
        ensures { result.now ≡ argument_bytes self.now }
    {
        match self {
            ArgStrOrBytesLike::Buf(buffer) => buffer.borrow_buf(),
            ArgStrOrBytesLike::Str(text) => text.as_bytes(),
        }
    }
}

/// A contiguous buffer, or a text of ASCII alone.
#[derive(Debug, Drop)]
pub enum ArgAsciiBuffer<'a> {
    /// A text.
    String(&'a str),
    /// A buffer.
    Buffer(ArgBytesLike<'a>),
}

impl<'a> ArgAsciiBuffer<'a> {
    /// The argument, or NotAscii where it is a text with a character past ASCII.
    pub fn new(argument: ArgStrOrBytesLike<'a>) -> Result<Self, ArgFault>
        ensures { AsciiOutcome argument.entry result }
    {
        match argument {
            ArgStrOrBytesLike::Buf(buffer) => Ok(ArgAsciiBuffer::Buffer(buffer)),
            ArgStrOrBytesLike::Str(text) => {
                if text.is_ascii() {
                    Ok(ArgAsciiBuffer::String(text))
                } else {
                    Err(ArgFault::NotAscii)
                }
            }
        }
    }

    /// The bytes of the buffer's items, or of the text.
    fn bytes(&self) -> &[u8]
        ensures { result.now ≡ ascii_bytes self.now }
    {
        match self {
            ArgAsciiBuffer::Buffer(buffer) => buffer.borrow_buf(),
            ArgAsciiBuffer::String(text) => text.as_bytes(),
        }
    }

    /// What `f` answers of the bytes.
    pub fn with_ref<R, F: FnOnce(&[u8]) -> R>(&self, f: F) -> R
        requires { F.IsAlwaysCallable f }
        ensures { FnOnceReturnsAt F.FnOnce f (ascii_bytes self.now) result }
    {
        f(self.bytes())
    }

    /// How many bytes the argument has.
    pub fn len(&self) -> usize
        ensures { result ≡ ascii_len self.now }
    {
        match self {
            ArgAsciiBuffer::Buffer(buffer) => buffer.len(),
            ArgAsciiBuffer::String(text) => text.len(),
        }
    }

    /// Whether the argument has no byte.
    pub fn is_empty(&self) -> bool
        ensures { IsTrue result ↔ (ascii_len self.now ≡ 0) }
    {
        self.len() == 0
    }
}

/// What `f` answers of the bytes of a buffer, or NotContiguous.
pub fn try_bytes_like<R, F: FnOnce(&[u8]) -> R>(buffer: &PyBuffer<'_>, f: F) -> Result<R, ArgFault>
    requires { F.IsAlwaysCallable f }
    ensures { MatchResult result (λ r. FnOnceReturnsAt F.FnOnce f (items_of buffer.now) r × IsContiguous buffer.now.desc)
        (λ refused. (refused ≡ arg_fault.NotContiguous) × (IsContiguous buffer.now.desc → ⊥)) }
{
    match buffer.as_contiguous() {
        Some(bytes) => Ok(f(bytes)),
        None => Err(ArgFault::NotContiguous),
    }
}

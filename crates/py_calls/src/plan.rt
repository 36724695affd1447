//! What a mode and arguments set up, decided before any raw stream is asked.
ghost use Rattle.std.specs.Prelude.{◌≡◌};
ghost use Rattle.py_plain.specs.NewlineArgument.{rule_of};
ghost use Rattle.py_calls.specs.Plan.{buffer_size_of, gives_text_argument, has_bad_argument, refused_early, bytes_kind, buffer_of, coder_in, settings_in, PlanOutcome};
ghost use Rattle.py_calls.specs.Planned.{TextOutcome};

use crate::open_args::{encoding_name, handler_name};
use crate::{EncodeMode, Mode, OpenArgs};
use py_flat::{Chars, IoFault};
use py_plain::Newlines;
use py_text::{CodecsRegistry, Coder, SearchFunction, TextSettings, find_coder};
use std::alloc::Global;

/// The size of a buffer where none is given, and how many bytes a text asks its buffer for at once: Python 3.11's
/// `io.DEFAULT_BUFFER_SIZE` and the chunk size of its texts.
pub const DEFAULT_BUFFER_SIZE: usize = 8192;

/// What a text is opened with.
#[derive(Clone, Copy, Debug, PartialEq, Eq)]
pub struct TextPlan {
    /// The size of its buffer in bytes.
    pub buffer_size: usize,
    /// What it decodes and encodes by.
    pub coder: Coder,
    /// Its other settings.
    pub settings: TextSettings,
}

/// What is opened over a raw stream.
#[derive(Clone, Copy, Debug, PartialEq, Eq)]
pub enum PlanKind {
    /// A text through a buffer.
    Text(TextPlan),
    /// A stream of bytes through a buffer of this size in bytes.
    Buffered(usize),
    /// The bare raw: a stream of bytes without a buffer.
    Bare,
}

impl PlanKind {
    /// The size of the buffer in bytes; `None` of a bare raw.
    pub fn buffer_size(&self) -> Option<usize>
        ensures { result ≡ buffer_of self.now }
    {
        match self {
            PlanKind::Text(text) => Some(text.buffer_size),
            PlanKind::Buffered(size) => Some(*size),
            PlanKind::Bare => None,
        }
    }
}

/// What an opening by a mode and arguments sets up.
#[derive(Clone, Copy, Debug, PartialEq, Eq)]
pub struct OpenPlan {
    /// The mode.
    pub mode: Mode,
    /// What is opened: a text, a stream of bytes through a buffer, or the bare raw.
    pub kind: PlanKind,
}

impl OpenPlan {
    /// The size of the buffer in bytes; `None` of a bare raw.
    pub fn buffer_size(&self) -> Option<usize>
        ensures { result ≡ buffer_of self.now.kind }
    {
        self.kind.buffer_size()
    }

    /// What a text decodes and encodes by; `None` of a stream of bytes.
    pub fn coder(&self) -> Option<Coder>
        ensures { result ≡ coder_in self.now.kind }
    {
        match self.kind {
            PlanKind::Text(text) => Some(text.coder),
            PlanKind::Buffered(_) | PlanKind::Bare => None,
        }
    }

    /// The settings of a text besides; `None` of a stream of bytes.
    pub fn settings(&self) -> Option<TextSettings>
        ensures { result ≡ settings_in self.now.kind }
    {
        match self.kind {
            PlanKind::Text(text) => Some(text.settings),
            PlanKind::Buffered(_) | PlanKind::Bare => None,
        }
    }
}

/// The buffer's size that a `buffering` asks for; `None` is unbuffered.
fn buffer_size_of(buffering: i64) -> Option<usize>
    ensures { result ≡ buffer_size_of buffering }
{
    match usize::try_from(buffering) {
        Ok(0) => None,
        Ok(1) | Err(_) => Some(DEFAULT_BUFFER_SIZE),
        Ok(size) => Some(size),
    }
}

/// Whether an argument is given that only a text has, be it an empty text.
fn gives_text_argument(args: &OpenArgs) -> bool
    ensures { result ≡ gives_text_argument args.now }
{
    args.encoding.is_some() || args.errors.is_some() || args.newline.is_some()
}

/// Whether an argument can't be had, with this mode or at all.
fn has_bad_argument(mode: Mode, args: &OpenArgs) -> bool
    ensures { result ≡ has_bad_argument mode args.now }
{
    let misfits = match mode.encode {
        EncodeMode::Text => buffer_size_of(args.buffering).is_none(),
        EncodeMode::Bytes => gives_text_argument(args),
    };
    args.chunk_size == 0 || misfits
}

/// Why a mode with arguments is refused before any name is looked for, and a newline argument; `None` where it isn't.
fn refused_early(mode: Mode, args: &OpenArgs) -> Option<IoFault>
    ensures { result ≡ refused_early mode args.now }
{
    if has_bad_argument(mode, args) {
        return Some(IoFault::BadArgument);
    }
    if mode.plus && mode.file.is_append() {
        return Some(IoFault::Unsupported);
    }
    None
}

/// The rule of the line ends that a newline argument stands for; `None` where it is no newline text.
fn newline_rule(newline: &Option<Chars>) -> Option<Newlines>
    ensures { result ≡ rule_of newline.now }
{
    match newline {
        Some(characters) => Newlines::from_text(Some(characters.as_str())),
        None => Newlines::from_text(None),
    }
}

/// What a stream of bytes is opened with.
fn bytes_kind(buffer_size: Option<usize>) -> PlanKind
    ensures { result ≡ bytes_kind buffer_size }
{
    match buffer_size {
        Some(size) => PlanKind::Buffered(size),
        None => PlanKind::Bare,
    }
}

/// What a text is opened with, whose arguments can be had but for its newline text and its names.
fn text_kind<S: SearchFunction, H: Copy>(
    registry: &mut CodecsRegistry<S, H>,
    alloc: Global,
    mode: Mode,
    args: &OpenArgs,
) -> Result<PlanKind, IoFault>
    ensures { TextOutcome S.finds registry.old mode args.now result registry.new }
{
    let Some(buffer_size) = buffer_size_of(args.buffering) else {
        return Err(IoFault::BadArgument);
    };
    let Some(newline) = newline_rule(&args.newline) else {
        return Err(IoFault::BadArgument);
    };
    let encoding = encoding_name(&args.encoding);
    let errors = handler_name(&args.errors);
    let coder = find_coder(
        registry,
        alloc,
        encoding,
        errors,
        mode.reads(),
        mode.writes(),
    )?;
    Ok(PlanKind::Text(TextPlan {
        buffer_size,
        coder,
        settings: TextSettings {
            newline,
            line_buffering: args.buffering == 1,
            write_through: false,
            chunk_size: args.chunk_size,
        },
    }))
}

/// What an opening by a mode and arguments sets up, before any raw is asked (Python's documentation of `open`): the mode, and a text, a
/// stream of bytes through a buffer of the size that `buffering` asks for, or the bare raw; of a text also what it decodes and encodes
/// by, which the registry finds by the names of the arguments, and its settings. The arguments stay with the caller.
///
/// 0 asks for no buffer, 1 and any negative number for 8192 bytes, any greater number for as many bytes. With 1 a text is also flushed
/// after each write that has a line end. Without an encoding, or with `locale`, letter for letter, the name that is looked for is `utf-8`; without errors it is
/// `strict`.
///
/// It is refused, by the first of these that applies:
/// - as `ParseMode` with the reason, where the mode is malformed (`Mode`'s `from_str`), whatever the arguments are;
/// - as `BadArgument`, also with a mode that isn't opened: where an encoding, errors or a newline argument is given
///   with a binary mode, whatever it says, also an empty text (Python's `open` takes no such argument in binary mode); where a text is
///   to be unbuffered; and where the chunk size is 0, in any mode, since a text that asks for no bytes comes to no end (this project's
///   choice);
/// - as `Unsupported`, where an `a` stands with a plus, which isn't opened, though Python's `open` takes it;
/// - as `BadArgument`, where the newline argument of a text is another text than the empty one, LF, CR and CR LF;
/// - as `UnknownEncoding`, where no codec has the encoding's name in the registry, or not a built-in one;
/// - as `UnknownHandler`, where no handler has the errors' name in the registry, or not a built-in one, or not one of each direction:
///   what is read takes strict, ignore, replace, backslashreplace and surrogateescape, and what is written those and xmlcharrefreplace.
///
/// `NoMemory` means out of memory; it comes only where search functions are asked for the encoding's name: some are registered, and
/// the registry doesn't know the name without them. A codec that one of them
/// found for an accepted text is kept, as a lookup keeps it. A refusal leaves the registry as it was, and so does a binary mode, which
/// asks for no name.
///
/// These are opened:
/// - the binary modes `rb`, `wb`, `xb` and `ab`, and with a plus `rb+`, `wb+` and `xb+`, with any `buffering`;
/// - the text modes `r`, `w`, `x` and `a`, and with a plus `r+`, `w+` and `x+`, each also spelled with `t`, with any `buffering` but 0,
///   any of the five newline arguments, and each encoding and handler that the registry finds.
pub fn plan_open<S: SearchFunction, H: Copy>(
    registry: &mut CodecsRegistry<S, H>,
    alloc: Global,
    mode: &str,
    args: &OpenArgs,
) -> Result<OpenPlan, IoFault>
    ensures { PlanOutcome S.finds registry.old mode.now args.now result registry.new }
{
    let mode: Mode = mode.parse().map_err(IoFault::ParseMode)?;
    if let Some(fault) = refused_early(mode, args) {
        return Err(fault);
    }
    let kind = match mode.encode {
        EncodeMode::Text => text_kind(registry, alloc, mode, args)?,
        EncodeMode::Bytes => bytes_kind(buffer_size_of(args.buffering)),
    };
    Ok(OpenPlan { mode, kind })
}

//! Opening a case's session, and making calls on it.
ghost use Rattle.std.specs.Prelude.{IsTrue};
ghost use Rattle.py_raw_memory.specs.MemRaw.{shown};
ghost use Rattle.py_stream.specs.Opening.{StandsAtStart};

use crate::session_case::SessionCase;
use anyhow::Result;
use py_binary::{Access, BinarySession};
use py_flat::{IoFault, Life};
use py_open::{
    Call, Detached, OpenArgs, OpenRefused, Reply, Run, Session, TextSession, run_session,
};
use py_raw::{GREATEST_PLACE, RawFlags, RawStream};
use py_raw_memory::MemRaw;
use py_registry::{CodecsRegistry, NoHandler, NoSearch};
use py_script::{Command, parse_words};
use py_stream::NewRefused;
use py_text::{Coder, Encoding, Handler, Newlines, TextSettings};
use std::alloc::Global;

/// A session: as a plan opens it, or with a buffer of any size.
#[derive(Drop)]
pub enum Opened {
    /// As a plan opens it.
    Planned(Session<MemRaw>),
    /// A stream of bytes with a buffer of a size of its own.
    Bytes(BinarySession<MemRaw>),
    /// A text with a buffer and chunks of sizes of its own.
    Text(TextSession<MemRaw>),
}

/// What an opening comes to.
pub type Opening = Result<Opened, NewRefused<MemRaw>>;

impl Opened {
    /// Makes one call.
    pub fn call(&mut self, alloc: Global, call: &Call) -> Reply {
        match self {
            Opened::Planned(session) => session.call(alloc, call),
            Opened::Bytes(session) => session.call(alloc, call),
            Opened::Text(text) => answer_text(alloc, text, call),
        }
    }

    /// Whether the last answer was cut short by a wait.
    pub fn short(&self) -> bool {
        match self {
            Opened::Planned(session) => session.short(),
            Opened::Bytes(session) => session.short(),
            Opened::Text(text) => text.short(),
        }
    }

    /// What became of the session.
    pub fn life(&self) -> Life {
        match self {
            Opened::Planned(session) => session.life(),
            Opened::Bytes(session) => session.life(),
            Opened::Text(text) => text.life(),
        }
    }

    /// Hands the raw back, with what it doesn't have.
    pub fn finish(self) -> Detached<MemRaw> {
        match self {
            Opened::Planned(session) => session.finish(),
            Opened::Bytes(session) => session.into_parts(),
            Opened::Text(text) => text.into_parts(),
        }
    }
}

/// The calls of a text whose buffer has a size of its own; a planned session has the others too.
fn answer_text(alloc: Global, text: &mut TextSession<MemRaw>, call: &Call) -> Reply {
    let answer = match call {
        Call::Read(size) => text.read(alloc, *size),
        Call::ReadLine(limit) => text.readline(alloc, *limit),
        Call::SeekText(cookie, whence) => {
            return text
                .seek(alloc, cookie.as_slice(), *whence)
                .map_or_else(Reply::Refused, Reply::Cookie);
        }
        Call::Tell => return text.tell().map_or_else(Reply::Refused, Reply::Cookie),
        Call::Close => return text.close().map_or_else(Reply::Refused, |()| Reply::Done),
        _ => return Reply::Refused(text.refuse()),
    };
    match answer {
        Ok(Some(characters)) => Reply::Text(characters),
        Ok(None) => Reply::NotReady,
        Err(fault) => Reply::Refused(fault),
    }
}

/// Whether a raw may be opened where it stands: one that can't be moved stands at its start.
fn stands_at_start(raw: &MemRaw) -> bool
    ensures { IsTrue result → StandsAtStart (shown raw.now) }
{
    raw.seekable() || raw.place_of() == 0
}

/// Moves a raw and closes it, as a case has it. Whether it is so then.
fn set_up(raw: &mut MemRaw, place: u64, closes: bool) -> bool {
    let is_moved = place == 0
        || raw.seekable() && !raw.closed() && place <= GREATEST_PLACE && raw.seek(place).is_ok();
    is_moved && (!closes || !raw.closed() && raw.close().is_ok())
}

/// How a session is opened.
#[derive(Drop)]
enum Way {
    /// As a plan opens it, by these arguments.
    Planned(OpenArgs),
    /// As a text with a buffer, and chunks, of such sizes.
    Text { size: usize, chunk: usize },
    /// As a stream of bytes with a buffer of a size.
    Bytes { size: usize, access: Access },
}

/// Opens the session of a case. How it is opened is known before there is a raw, so that no `?` stands where one is in hand: the proof of
/// each would have that it may be dropped.
pub fn open(alloc: Global, case: &SessionCase<'_>) -> Result<Opening> {
    let way = way_of(alloc, case)?;
    let mut raw = raw_of(alloc, case)?;
    if !set_up(&mut raw, case.at as u64, case.closed) || !stands_at_start(&raw) {
        return case.open.malformed();
    }
    Ok(open_so(alloc, case.mode, way, raw))
}

/// The raw of a case.
fn raw_of(alloc: Global, case: &SessionCase<'_>) -> Result<MemRaw> {
    let able = |letter: char| case.able.contains(letter);
    Ok(MemRaw::new(
        Vec::from_slice(alloc, case.bytes.as_slice())?,
        RawFlags::able(able('r'), able('w'), able('s')),
        Vec::from_slice(alloc, case.cuts.as_slice())?,
        Vec::from_slice(alloc, case.faults.as_slice())?,
    ))
}

/// How a case is opened.
fn way_of(alloc: Global, case: &SessionCase<'_>) -> Result<Way> {
    match case.buffer {
        None => planned_way(alloc, case),
        Some(size) if case.mode == "r" => text_way(case, size),
        Some(size) => bytes_way(case, size),
    }
}

/// As a plan opens it, by the words of a command line.
fn planned_way(alloc: Global, case: &SessionCase<'_>) -> Result<Way> {
    let words = words_of(alloc, case)?;
    match args_of(alloc, &words)? {
        Some(args) => Ok(Way::Planned(args)),
        None => case.open.malformed(),
    }
}

/// As a text with a buffer of n bytes, and chunks of a size that is its only option.
fn text_way(case: &SessionCase<'_>, size: usize) -> Result<Way> {
    let chunk = match case.options.as_slice() {
        [option] => case
            .open
            .number(option.strip_prefix("chunk=").unwrap_or(""))?,
        _ => return case.open.malformed(),
    };
    if size == 0 || chunk == 0 {
        return case.open.malformed();
    }
    Ok(Way::Text { size, chunk })
}

/// As a stream of bytes with a buffer of n bytes.
fn bytes_way(case: &SessionCase<'_>, size: usize) -> Result<Way> {
    let access = match case.mode {
        "rb" => Access::Read,
        "wb" | "xb" => Access::Write,
        "ab" => Access::Append,
        "rb+" | "wb+" | "xb+" => Access::Update,
        _ => return case.open.malformed(),
    };
    Ok(Way::Bytes { size, access })
}

/// Opens a session over a raw.
fn open_so(alloc: Global, mode: &str, way: Way, raw: MemRaw) -> Opening
    requires { StandsAtStart (shown raw) }
{
    match way {
        Way::Planned(args) => open_by(alloc, mode, args, raw),
        Way::Text { size, chunk } => open_text(alloc, raw, size, chunk),
        Way::Bytes { size, access } => {
            BinarySession::new(alloc, raw, access, Some(size)).map(Opened::Bytes)
        }
    }
}

/// Opens a text with a buffer and chunks of such sizes.
fn open_text(alloc: Global, raw: MemRaw, size: usize, chunk: usize) -> Opening
    requires { StandsAtStart (shown raw) }
{
    if size == 0 || chunk == 0 {
        let fault = IoFault::BadArgument;
        return Err(NewRefused { raw, fault });
    }
    let coder = Coder {
        encoding: Encoding::Utf8,
        errors: Handler::Strict,
    };
    let settings = TextSettings {
        newline: Newlines::Lf,
        line_buffering: false,
        write_through: false,
        chunk_size: chunk,
    };
    TextSession::new(alloc, raw, Access::Read, size, coder, settings).map(Opened::Text)
}

/// Opens a session by a mode and arguments.
fn open_by(alloc: Global, mode: &str, args: OpenArgs, raw: MemRaw) -> Opening
    requires { StandsAtStart (shown raw) }
{
    let mut registry = match CodecsRegistry::<NoSearch, NoHandler>::new(alloc) {
        Ok(registry) => registry,
        Err(fault) => return Err(NewRefused { raw, fault }),
    };
    match run_session(alloc, raw, &mut registry, mode, args, &[]) {
        Ok(
            Run {
                session,
                replies: _replies,
            },
        ) => Ok(Opened::Planned(session)),
        Err(OpenRefused { raw, fault }) => Err(NewRefused { raw, fault }),
    }
}

/// The words of a command line that opens a session so.
fn words_of(alloc: Global, case: &SessionCase<'_>) -> Result<Vec<String>> {
    let mut words = Vec::new(alloc);
    for word in ["run", "f", case.mode] {
        words.push(String::from_str(alloc, word)?)?;
    }
    for option in &case.options {
        words.push(String::from_str(alloc, option)?)?;
    }
    Ok(words)
}

/// The arguments of an opening that words ask for; nothing of malformed words.
fn args_of(alloc: Global, words: &[String]) -> Result<Option<OpenArgs>> {
    match parse_words(alloc, words)? {
        Some(
            Command::Run {
                path: _path,
                mode: _mode,
                args,
            },
        ) => Ok(Some(args)),
        _ => Ok(None),
    }
}

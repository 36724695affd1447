//! A session as a case has it: how it is opened, over which raw, and the calls that are made.

use crate::block::Line;
use anyhow::Result;
use py_open::Call;
use py_raw_memory::Cut;
use py_script::parse_line;
use std::alloc::Global;

/// A session to be opened, and the calls on it.
#[derive(Drop)]
pub struct SessionCase<'a> {
    /// The line of the opening: the mode, and options as on the command line.
    pub open: Line<'a>,
    /// The mode.
    pub mode: &'a str,
    /// The options of the opening.
    pub options: Vec<&'a str>,
    /// How many bytes the buffer has, whatever the mode is. No option says this: a buffer of one byte is opened so.
    pub buffer: Option<usize>,
    /// What the raw holds.
    pub bytes: Vec<u8>,
    /// What the raw can do: be read (`r`), written (`w`) and moved (`s`).
    pub able: &'a str,
    /// Where the raw is moved before it is opened, which is its first call.
    pub at: usize,
    /// Whether the raw is closed before it is opened.
    pub closed: bool,
    /// How the raw's transfers are cut.
    pub cuts: Vec<Cut>,
    /// The numbers of the raw's calls that fail.
    pub faults: Vec<u64>,
    /// The calls that are made.
    pub calls: Vec<Call>,
    /// Whether a session that failed is detached, and not finished.
    pub detaches: bool,
    /// What the raw holds in the end, where the case says so.
    pub ends: Option<Vec<u8>>,
}

impl<'a> SessionCase<'a> {
    /// The session of some lines after a head.
    pub fn parse(alloc: Global, head: Line<'a>, lines: &[Line<'a>]) -> Result<Self> {
        let mut case = SessionCase {
            open: head,
            mode: "",
            options: Vec::new(alloc),
            buffer: None,
            bytes: Vec::new(alloc),
            able: "rws",
            at: 0,
            closed: false,
            cuts: Vec::new(alloc),
            faults: Vec::new(alloc),
            calls: Vec::new(alloc),
            detaches: false,
            ends: None,
        };
        for line in lines {
            case.take(alloc, *line)?;
        }
        Ok(case)
    }

    fn take(&mut self, alloc: Global, line: Line<'a>) -> Result<()> {
        match line.word {
            ">" => match parse_line(alloc, line.rest.as_bytes())? {
                Some(call) => self.calls.push(call)?,
                None => return line.malformed(),
            },
            "open" => self.take_opening(line)?,
            "raw" => {
                let (bytes, able) = line.rest.split_once(' ').unwrap_or((line.rest, "rws"));
                self.bytes = line.bytes(alloc, bytes)?;
                self.able = able;
            }
            "at" => self.at = line.number(line.rest)?,
            "closed" => self.closed = true,
            "cuts" => self.cuts = cuts_of(alloc, &line, line.rest)?,
            "faults" => self.faults = line.numbers(alloc, line.rest)?,
            "front" => self.calls.truncate(line.number(line.rest)?),
            "detaches" => self.detaches = true,
            "ends" => self.ends = Some(line.bytes(alloc, line.rest)?),
            _ => return line.malformed(),
        }
        Ok(())
    }

    fn take_opening(&mut self, line: Line<'a>) -> Result<()> {
        self.open = line;
        let (mode, options) = line.rest.split_once(' ').unwrap_or((line.rest, ""));
        self.mode = mode;
        for option in options.split_whitespace() {
            match option.strip_prefix("buffer=") {
                Some(size) => self.buffer = Some(line.number(size)?),
                None => self.options.push(option)?,
            }
        }
        Ok(())
    }
}

/// The cuts of some words: `t` and a number of bytes takes at most n, `w` waits, `b` and a number breaks off after n;
/// `*` and a number after one of them is how often it stands.
pub fn cuts_of(alloc: Global, line: &Line<'_>, words: &str) -> Result<Vec<Cut>> {
    let mut cuts = Vec::new(alloc);
    for word in words.split_whitespace() {
        let (cut, times) = word.split_once('*').unwrap_or((word, "1"));
        let Some(cut) = cut_of(cut) else {
            return line.malformed();
        };
        for _ in 0..line.number(times)? {
            cuts.push(cut)?;
        }
    }
    Ok(cuts)
}

fn cut_of(word: &str) -> Option<Cut> {
    match word.strip_prefix('t') {
        Some(bytes) => Some(Cut::Take(bytes.parse().ok()?)),
        None if word == "w" => Some(Cut::Wait),
        None => Some(Cut::Break(word.strip_prefix('b')?.parse().ok()?)),
    }
}

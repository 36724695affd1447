//! A file of cases, cut into blocks of lines.

use anyhow::{Result, bail};
use hex::decode;
use std::alloc::Global;

/// A line of a case: its number in the file, from 1 on, its first word, and what follows the space after it.
#[derive(Clone, Copy)]
pub struct Line<'a> {
    pub number: usize,
    pub word: &'a str,
    pub rest: &'a str,
}

/// A case: its head, the kind and the name, and the lines up to the next head.
#[derive(Drop)]
pub struct Block<'a> {
    pub head: Line<'a>,
    pub lines: Vec<Line<'a>>,
}

impl<'a> Line<'a> {
    /// The line of a number in its file.
    pub fn new(number: usize, text: &'a str) -> Self {
        let (word, rest) = text.split_once(' ').unwrap_or((text, ""));
        Line { number, word, rest }
    }

    /// The refusal of this line.
    pub fn malformed<T>(&self) -> Result<T> {
        bail!("line {} is malformed", self.number)
    }

    /// The numbers that the words of a part of this line are.
    pub fn numbers(&self, alloc: Global, part: &str) -> Result<Vec<u64>> {
        let mut numbers = Vec::new(alloc);
        for word in part.split_whitespace() {
            numbers.push(self.number(word)? as u64)?;
        }
        Ok(numbers)
    }

    /// The one number that a part of this line is.
    pub fn number(&self, part: &str) -> Result<usize> {
        match part.parse() {
            Ok(number) => Ok(number),
            Err(_) => self.malformed(),
        }
    }

    /// The bytes of a word in hex, or none for `-`.
    pub fn bytes(&self, alloc: Global, word: &str) -> Result<Vec<u8>> {
        if word == "-" {
            return Ok(Vec::new(alloc));
        }
        match decode(alloc, word.as_bytes()) {
            Ok(bytes) => Ok(bytes),
            Err(_) => self.malformed(),
        }
    }
}

/// The blocks of a file. Empty lines and those that begin with `#` part nothing and say nothing.
pub fn blocks(alloc: Global, text: &str) -> Result<Vec<Block<'_>>> {
    let mut blocks: Vec<Block<'_>> = Vec::new(alloc);
    for (index, text) in text.split('\n').enumerate() {
        if text.is_empty() || text.starts_with('#') {
            continue;
        }
        let line = Line::new(index.saturating_add(1), text);
        if matches!(
            line.word,
            "session" | "program" | "sweep" | "plain" | "units"
        ) {
            let lines = Vec::new(alloc);
            blocks.push(Block { head: line, lines })?;
        } else {
            match blocks.last_mut() {
                Some(block) => block.lines.push(line)?,
                None => return line.malformed(),
            }
        }
    }
    Ok(blocks)
}

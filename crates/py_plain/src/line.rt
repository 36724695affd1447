ghost use Rattle.std.specs.Prelude.{◌≡◌, ◌||◌, ◌≤◌, false, length, take};
ghost use Rattle.py_flat.specs.Lines.{cr, ends_line, ends_pair, line_after, has_end_after, first_line, is_ended, begins_with_lf};
ghost use Rattle.py_plain.specs.NewlineRule.{line_end};

use crate::Newlines;

/// The first line of some characters.
#[derive(Clone, Copy, Debug, PartialEq, Eq)]
pub struct Line {
    /// How many characters it has, its end among them.
    pub length: usize,
    /// Whether a line end or the limit ended it, and not the end of the characters.
    pub ended: bool,
}

/// Whether some characters begin with an LF.
fn begins_with_lf(characters: &[char]) -> bool
    ensures { result ≡ begins_with_lf characters.now }
{
    match characters {
        [first, ..] => *first == '\n',
        [] => false,
    }
}

/// Whether a line ends with a character; `next` are those after it, and `after_cr` says that a CR
/// stands before.
fn ends_here(rule: Newlines, after_cr: bool, character: char, next: &[char]) -> bool
    ensures { result ≡ (ends_line (line_end rule) character next.now || ends_pair (line_end rule) after_cr character) }
{
    match rule {
        Newlines::Universal | Newlines::Lf => character == '\n',
        Newlines::Cr => character == '\r',
        Newlines::Crlf => after_cr && character == '\n',
        Newlines::Passthrough => {
            character == '\n' || (character == '\r' && !begins_with_lf(next))
        }
    }
}

/// The first line where nothing limits it.
fn whole_line(rule: Newlines, characters: &[char]) -> Line
    ensures line { take result.length characters.now ≡ line_after (line_end rule) false characters.now }
    ensures ended { result.ended ≡ has_end_after (line_end rule) false characters.now }
    ensures within { result.length ≤ length characters.now }
{
    let mut after_cr = false;
    for (at, character) in characters.iter().enumerate() {
        if ends_here(rule, after_cr, *character, &characters[at + 1..]) {
            return Line {
                length: at + 1,
                ended: true,
            };
        }
        after_cr = *character == '\r';
    }
    Line {
        length: characters.len(),
        ended: false,
    }
}

/// The first line that a rule and a limit, in characters, make of some characters.
///
/// A limit of none is no limit. Where neither a line end nor the limit comes, the line is all of them.
pub fn first_line(rule: Newlines, limit: Option<usize>, characters: &[char]) -> Line
    ensures line { take result.length characters.now ≡ first_line (line_end rule) limit characters.now }
    ensures ended { result.ended ≡ is_ended (line_end rule) limit characters.now }
    ensures within { result.length ≤ length characters.now }
{
    let line = whole_line(rule, characters);
    match limit {
        None => line,
        Some(limit) => Line {
            length: line.length.min(limit),
            ended: line.ended || limit <= characters.len(),
        },
    }
}

//! The first line of a text, of which a front was searched already.
ghost use Rattle.std.specs.Prelude.{◌≡◌, ◌≤◌, ℕ, List, false, None, Some, length, take, chars, option_map, IfSome};
ghost use Rattle.py_flat.specs.Lines.{line_after, has_end_after, first_line, reaches};
ghost use Rattle.py_plain.specs.NewlineRule.{line_end};
ghost use Rattle.py_held_text.specs.Finding.{IsFrontOf, line_in_hand, enough_before};
ghost use Rattle.py_held_text.specs.LineSearch.{IsBegin, IsSearched, LineFound, may_go_on};

use crate::Wanted;
use py_blocks::{TextFront, front_of};
use py_plain::{Newlines, ends_with_cr};

/// Whether an LF behind a text would be one line end with its last character: by the rule that knows CR LF, CR and LF, a
/// CR.
pub(crate) fn may_go_on(newline: Newlines, text: &str) -> bool
    ensures { result ≡ may_go_on newline (chars text.now) }
{
    match newline {
        Newlines::Passthrough => ends_with_cr(text.as_bytes()),
        Newlines::Universal | Newlines::Lf | Newlines::Cr | Newlines::Crlf => false,
    }
}

/// The place behind the first line, where that is one whatever comes behind the text, in bytes. Else it notes how far the
/// text was searched, to go on from there the next time.
fn line_in(newline: Newlines, text: &str, searched: &mut usize) -> Option<usize>
    requires { IsSearched (line_end newline) (chars text.now) searched.old }
    ensures line { LineFound (line_end newline) (chars text.now) result }
    ensures searched { IsSearched (line_end newline) (chars text.now) searched.new }
{
    let from = *searched;
    match newline.find_newline(&text[from..]) {
        Ok(size) => {
            let end = from + size;
            if end == text.len() && may_go_on(newline, text) {
                None
            } else {
                Some(end)
            }
        }
        Err(further) => {
            *searched = from + further;
            None
        }
    }
}

/// The place behind the first line, where nothing comes behind the text, in bytes: behind all of it where no line ends.
fn last_line_in(newline: Newlines, text: &str, searched: usize) -> usize
    requires { IsSearched (line_end newline) (chars text.now) searched }
    ensures { IsBegin (chars text.now) (line_after (line_end newline) false (chars text.now)) result }
{
    match newline.find_newline(&text[searched..]) {
        Ok(size) => searched + size,
        Err(_) => text.len(),
    }
}

/// The first line of a text that has `count` characters, where it is one whatever comes behind the text. Else it notes how
/// far the text was searched.
pub(crate) fn line_front(
    newline: Newlines,
    text: &str,
    count: usize,
    searched: &mut usize,
) -> Option<TextFront>
    requires searched { IsSearched (line_end newline) (chars text.now) searched.old }
    requires count { count ≡ length (chars text.now) }
    ensures count { option_map (λ front. front.chars) result ≡ line_in_hand (line_end newline) None (chars text.now) }
    ensures front { IfSome result (IsFrontOf (chars text.now)) }
    ensures searched { IsSearched (line_end newline) (chars text.now) searched.new }
{
    let end = line_in(newline, text, searched)?;
    if end == text.len() {
        return Some(TextFront {
            chars: count,
            bytes: end,
        });
    }
    Some(front_of(&text[..end], end))
}

/// The first line of a text that has n characters, at most n of it.
pub(crate) fn limited_line(newline: Newlines, text: &str, limit: usize) -> TextFront
    requires { limit ≤ length (chars text.now) }
    ensures count { Some result.chars ≡ line_in_hand (line_end newline) (Some limit) (chars text.now) }
    ensures front { IsFrontOf (chars text.now) result }
{
    let front = front_of(text, limit);
    match newline.find_newline(&text[..front.bytes]) {
        Ok(end) => front_of(&text[..end], end),
        Err(_) => front,
    }
}

/// The first line, at most n characters of it, where nothing comes behind the text.
pub(crate) fn last_line(
    newline: Newlines,
    text: &str,
    searched: usize,
    limit: Option<usize>,
) -> TextFront
    requires { IsSearched (line_end newline) (chars text.now) searched }
    ensures line { take result.chars (chars text.now) ≡ first_line (line_end newline) limit (chars text.now) }
    ensures front { IsFrontOf (chars text.now) result }
{
    let end = last_line_in(newline, text, searched);
    let line = &text[..end];
    match limit {
        Some(limit) => front_of(line, limit),
        None => front_of(line, end),
    }
}

/// Whether a line ends in a text.
fn has_line_end(newline: Newlines, text: &str, searched: usize) -> bool
    requires { IsSearched (line_end newline) (chars text.now) searched }
    ensures { result ≡ has_end_after (line_end newline) false (chars text.now) }
{
    match newline.find_newline(&text[searched..]) {
        Ok(_) => true,
        Err(_) => false,
    }
}

/// Whether there are as many characters as a limit asks for.
fn reaches(limit: Option<usize>, count: usize) -> bool
    ensures { (cs : List ℕ) → count ≡ length cs → result ≡ reaches limit cs }
{
    match limit {
        Some(limit) => limit <= count,
        None => false,
    }
}

/// The first line, at most n characters of it, where a line end or the limit ends it; `count` is how many characters the
/// text has.
pub(crate) fn ended_line(
    newline: Newlines,
    text: &str,
    searched: usize,
    count: usize,
    limit: Option<usize>,
) -> Option<TextFront>
    requires searched { IsSearched (line_end newline) (chars text.now) searched }
    requires count { count ≡ length (chars text.now) }
    ensures count { option_map (λ front. front.chars) result ≡ enough_before (Wanted.Line limit) newline (chars text.now) }
    ensures front { IfSome result (IsFrontOf (chars text.now)) }
{
    if has_line_end(newline, text, searched) || reaches(limit, count) {
        return Some(last_line(newline, text, searched, limit));
    }
    None
}

//! Fronts of a text that answer a call.
ghost use Rattle.std.specs.Prelude.{◌≡◌, ◌≤◌, length, take, chars, option_map, IfSome};
ghost use Rattle.py_plain.specs.NewlineRule.{line_end};
ghost use Rattle.py_held_text.specs.Finding.{IsFrontOf, answer_of, enough, enough_before};
ghost use Rattle.py_held_text.specs.LineSearch.{IsSearched};

use crate::Wanted;
use crate::line_search::{ended_line, last_line, limited_line, line_front};
use py_blocks::{TextFront, front_of};
use py_plain::Newlines;

/// How many characters a call may want besides those that are known, one at least; `open` says that the next character tells whether a CR
/// that comes last is a line end by itself, and then a line wants one.
pub(crate) fn lacks(wanted: Wanted, count: usize, open: bool) -> usize
    ensures { 1 ≤ result }
{
    if open && matches!(wanted, Wanted::Line(_)) {
        return 1;
    }
    match wanted {
        Wanted::Characters(Some(size)) | Wanted::Line(Some(size)) => {
            size.saturating_sub(count).max(1)
        }
        Wanted::Characters(None) | Wanted::Line(None) => usize::MAX,
    }
}

/// The front of a text that is the whole answer, whatever comes behind it; the text has `count` characters, and in the first bytes of it no
/// line ends. A line that isn't whole yet is searched from there, and it is noted how far that came.
pub(crate) fn answer_in(
    newline: Newlines,
    text: &str,
    count: usize,
    searched: &mut usize,
    wanted: Wanted,
) -> Option<TextFront>
    requires searched { IsSearched (line_end newline) (chars text.now) searched.old }
    requires count { count ≡ length (chars text.now) }
    ensures count { option_map (λ front. front.chars) result ≡ enough wanted newline (chars text.now) }
    ensures front { IfSome result (IsFrontOf (chars text.now)) }
    ensures searched { IsSearched (line_end newline) (chars text.now) searched.new }
{
    match wanted {
        Wanted::Characters(Some(size)) if size <= count => Some(front_of(text, size)),
        Wanted::Characters(_) => None,
        Wanted::Line(Some(limit)) if limit <= count => Some(limited_line(newline, text, limit)),
        Wanted::Line(_) => line_front(newline, text, count, searched),
    }
}

/// The front of a text that is the whole answer where a refused range comes behind.
pub(crate) fn answer_before(
    newline: Newlines,
    text: &str,
    count: usize,
    searched: usize,
    wanted: Wanted,
) -> Option<TextFront>
    requires searched { IsSearched (line_end newline) (chars text.now) searched }
    requires count { count ≡ length (chars text.now) }
    ensures count { option_map (λ front. front.chars) result ≡ enough_before wanted newline (chars text.now) }
    ensures front { IfSome result (IsFrontOf (chars text.now)) }
{
    match wanted {
        Wanted::Characters(Some(size)) if size <= count => Some(front_of(text, size)),
        Wanted::Characters(_) => None,
        Wanted::Line(limit) => ended_line(newline, text, searched, count, limit),
    }
}

/// The front of a text that is the answer where nothing comes behind.
pub(crate) fn last_answer(
    newline: Newlines,
    text: &str,
    count: usize,
    searched: usize,
    wanted: Wanted,
) -> TextFront
    requires searched { IsSearched (line_end newline) (chars text.now) searched }
    requires count { count ≡ length (chars text.now) }
    ensures answer { take result.chars (chars text.now) ≡ answer_of wanted newline (chars text.now) }
    ensures front { IsFrontOf (chars text.now) result }
{
    match wanted {
        Wanted::Characters(None) => TextFront {
            chars: count,
            bytes: text.len(),
        },
        Wanted::Characters(Some(size)) => front_of(text, size),
        Wanted::Line(limit) => last_line(newline, text, searched, limit),
    }
}

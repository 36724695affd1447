ghost use Rattle.std.specs.Prelude.{◌≡◌, ◌||◌, nat_eq, chars};
ghost use Rattle.std.specs.List.{list_any};
ghost use Rattle.std.specs.Str.{IsUtf8};
ghost use Rattle.py_flat.specs.Lines.{lf, cr};
ghost use Rattle.py_plain_text.specs.TextWriting.{written_end};
ghost use Rattle.py_text.specs.WrittenCuts.{IsCutAtLf};

use memchr::{memchr, memchr2};
use py_plain::Newlines;

/// Whether a text has a line end, an LF or a CR.
pub fn has_line_end(text: &str) -> bool
    ensures { result ≡ list_any (λ c. nat_eq c lf || nat_eq c cr) (chars text.now) }
{
    memchr2(b'\n', b'\r', text.as_bytes()).is_some()
}

/// A text that is cut at its first LF.
#[derive(Clone, Copy, Debug)]
pub(crate) struct Cut<'t> {
    /// What stands before the first LF; all where there is none.
    pub run: &'t str,
    /// Whether an LF stands behind it.
    pub ended: bool,
    /// What stands behind that LF.
    pub left: &'t str,
}

/// Cuts a text at its first LF.
#[inline(always)]
pub(crate) fn cut_at_lf<'t>(text: &'t str) -> Cut<'t>
    ensures cut { IsCutAtLf (chars text.now) (chars result.run.now) result.ended (chars result.left.now) }
    ensures run { IsUtf8 result.run.now }
    ensures left { IsUtf8 result.left.now }
{
    match memchr(b'\n', text.as_bytes()) {
        Some(at) => {
            let (run, rest) = text.split_at(at);
            let (_, left) = rest.split_at(1);
            Cut {
                run,
                ended: true,
                left,
            }
        }
        None => Cut {
            run: text,
            ended: false,
            left: "",
        },
    }
}

/// What an LF is written as.
pub(crate) fn line_end(newline: Newlines) -> &'static str
    ensures { chars result.now ≡ written_end newline }
{
    match newline {
        Newlines::Universal | Newlines::Passthrough | Newlines::Lf => "\n",
        Newlines::Cr => "\r",
        Newlines::Crlf => "\r\n",
    }
}

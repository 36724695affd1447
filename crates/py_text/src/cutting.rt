ghost use Rattle.std.specs.Prelude.{◌≡◌, ◌++◌, ◌≢◌, ◌≤◌, ◌∷◌, [], true, false, length, chars, IfOk};
ghost use Rattle.py_flat.specs.Lines.{lf};
ghost use Rattle.py_plain.specs.NewlineRule.{universal, ends_held};
ghost use Rattle.py_codec.specs.Answers.{text_of};
ghost use Rattle.py_text.specs.NewlinePieces.{IsCopied, IsLess};

use memchr::memchr;
use std::alloc::AllocError;

/// A front of a text.
#[derive(Clone, Copy, Debug)]
pub(crate) struct Cut<'t> {
    /// What stands before the first CR; all where there is none.
    pub run: &'t str,
    /// Whether a CR stands behind it.
    pub held: bool,
    /// What stands behind that CR.
    pub left: &'t str,
}

/// Cuts a text at its first CR.
pub(crate) fn cut_at_cr<'t>(text: &'t str) -> Cut<'t>
    ensures copied { IsCopied (chars text.now) (chars result.run.now) result.held (chars result.left.now) }
    ensures less { IsLess text.now result.left.now }
{
    match memchr(b'\r', text.as_bytes()) {
        Some(at) => {
            let (run, rest) = text.split_at(at);
            let (_, left) = rest.split_at(1);
            Cut {
                run,
                held: true,
                left,
            }
        }
        None => Cut {
            run: text,
            held: false,
            left: "",
        },
    }
}

/// What of a text after a CR is left: an LF is one with that CR.
fn behind_lf<'t>(text: &'t str) -> &'t str
    requires { text.now ≢ [] }
    ensures gives { lf ∷ universal false (chars result.now) ≡ universal true (chars text.now) }
    ensures holds { ends_held false (chars result.now) ≡ ends_held true (chars text.now) }
    ensures fits { length result.now ≤ length text.now }
{
    if text.as_bytes()[0] == b'\n' {
        let (_, left) = text.split_at(1);
        return left;
    }
    text
}

/// Gives an LF for a CR that was held before a text, and answers what of the text is left: an LF is one with that CR.
pub(crate) fn release<'t>(
    out: &mut String,
    held: bool,
    text: &'t str,
) -> Result<&'t str, AllocError>
    requires { text.now ≢ [] }
    ensures gives { IfOk result (λ left. text_of out.new ++ universal false (chars left.now)
        ≡ text_of out.old ++ universal held (chars text.now)) }
    ensures holds { IfOk result (λ left. ends_held false (chars left.now) ≡ ends_held held (chars text.now)) }
    ensures fits { IfOk result (λ left. length left.now ≤ length text.now) }
{
    if !held {
        return Ok(text);
    }
    out.push('\n')?;
    Ok(behind_lf(text))
}

ghost use Rattle.std.specs.Prelude.{◌≡◌, ◌++◌, ◌==◌, ◌&&◌, option_map, IfOk, OnOk};
ghost use Rattle.py_flat.specs.Lines.{cr};
ghost use Rattle.py_plain.specs.NewlineRule.{released, passes, translated_to};
ghost use Rattle.py_plain.specs.NewlineArgument.{rule_of};

use std::alloc::{AllocError, Global};

/// The rule of a text's line ends, by the `newline` argument of Python's `open`.
#[derive(Clone, Copy, Debug, Default, PartialEq, Eq)]
pub enum Newlines {
    /// No argument: CR LF, CR and LF are read as LF, and lines end at LF.
    #[default]
    Universal,
    /// The empty text: nothing is changed, and lines end at CR LF, CR or LF.
    Passthrough,
    /// LF: nothing is changed, and lines end at LF.
    Lf,
    /// CR: nothing is changed, and lines end at CR.
    Cr,
    /// CR LF: nothing is changed, and lines end at CR LF.
    Crlf,
}

impl Newlines {
    /// The rule that the `newline` argument of Python's `open` stands for: universal where there is none. `None` where it is a text
    /// other than the empty one, LF, CR and CR LF.
    pub fn from_text(argument: Option<&str>) -> Option<Newlines>
        ensures rule { result ≡ rule_of (option_map (λ text. text.now) argument.entry) }
    {
        let Some(text) = argument else {
            return Some(Newlines::Universal);
        };
        match text {
            "" => Some(Newlines::Passthrough),
            "\n" => Some(Newlines::Lf),
            "\r" => Some(Newlines::Cr),
            "\r\n" => Some(Newlines::Crlf),
            _ => None,
        }
    }
}

/// Gives an LF for a CR that was held.
fn release(out: &mut Vec<char>, held: bool) -> Result<(), AllocError>
    ensures { OnOk result (out.new.items ≡ out.old.items ++ released held) }
{
    if held {
        out.push('\n')?;
    }
    Ok(())
}

/// Gives what a character after a CR, or after none, passes: a CR is held, and an LF is one with the CR before it.
fn pass(out: &mut Vec<char>, held: bool, character: char) -> Result<(), AllocError>
    ensures { OnOk result (out.new.items ≡ out.old.items ++ passes held character) }
{
    let is_held = character == '\r' || (held && character == '\n');
    if !is_held {
        out.push(character)?;
    }
    Ok(())
}

/// Whether a character is a CR, which is held until the next one or the end.
fn is_cr(character: char) -> bool
    ensures { result ≡ (character == cr) }
{
    character == '\r'
}

/// Whether an LF is given at the end of some characters for a CR that is held there.
fn releases(last: bool, held: bool) -> bool
    ensures { result ≡ (last && held) }
{
    last && held
}

/// CR LF and CR as LF; a CR at the end gives none yet where more characters may come.
fn universal(alloc: Global, characters: &[char], last: bool) -> Result<Vec<char>, AllocError>
    ensures { IfOk result (λ v. v.items ≡ translated_to last Newlines.Universal characters.now) }
{
    let mut out = Vec::new(alloc);
    let mut held = false;
    for character in characters {
        release(&mut out, held)?;
        pass(&mut out, held, *character)?;
        held = is_cr(*character);
    }
    release(&mut out, releases(last, held))?;
    Ok(out)
}

/// The newline rule: what is read of a list of characters, by the `newline` argument of Python's `open`; `last` says that none come
/// after them. The `Err` means out of memory.
pub fn translate(
    alloc: Global,
    rule: Newlines,
    characters: &[char],
    last: bool,
) -> Result<Vec<char>, AllocError>
    ensures { IfOk result (λ v. v.items ≡ translated_to last rule characters.now) }
{
    match rule {
        Newlines::Universal => universal(alloc, characters, last),
        Newlines::Passthrough | Newlines::Lf | Newlines::Cr | Newlines::Crlf => {
            Vec::from_slice(alloc, characters)
        }
    }
}

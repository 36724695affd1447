//! Lists of characters, and texts that are made of them.
ghost use Rattle.std.specs.Prelude.{◌≡◌, ◌+◌, ◌≤◌, ◌++◌, nat_eq, position, is_ok, length, take, drop, chars, IfOk, if◌then◌else◌};
ghost use Rattle.py_flat.specs.Bytes.{lay};
ghost use Rattle.py_flat.specs.Limits.{greatest_place};
ghost use Rattle.py_flat.specs.Lines.{Lf, lf, first_line};
ghost use Rattle.py_memio.specs.StringIO.{characters_of};

use crate::standing::front;
use std::alloc::{AllocError, Global};

/// How many bytes some characters take as a text; the greatest number where there are more.
fn space_of(characters: &[char]) -> usize {
    let mut space = 0usize;
    for character in characters {
        space = space.saturating_add(character.len_utf8());
    }
    space
}

/// A text of some characters, whose space is reserved once.
pub(crate) fn text_of(alloc: Global, characters: &[char]) -> Result<String, AllocError>
    ensures { IfOk result (λ text. characters_of text ≡ characters.now) }
{
    let mut text = String::with_capacity(alloc, space_of(characters))?;
    for character in characters {
        text.push(*character)?;
    }
    Ok(text)
}

/// The characters of a text.
pub(crate) fn characters_of(alloc: Global, text: &str) -> Result<Vec<char>, AllocError>
    ensures { IfOk result (λ characters. characters.items ≡ chars text.now) }
{
    text.chars().collect(alloc)
}

/// How many characters a text has.
pub(crate) fn count_of(text: &str) -> usize
    ensures { result ≡ length (chars text.now) }
{
    text.chars().count()
}

/// The place of the first LF.
fn line_feed(characters: &[char]) -> Option<usize>
    ensures { result ≡ position (λ c. nat_eq c lf) characters.now }
{
    characters.iter().position(|c| *c == '\n')
}

/// The first line with its LF, at most a limit of it; all where neither comes.
pub(crate) fn first_line(characters: &[char], limit: Option<usize>) -> &[char]
    ensures { result.now ≡ first_line Lf limit characters.now }
{
    let within = front(characters, limit);
    match line_feed(within) {
        Some(at) => &within[..at + 1],
        None => within,
    }
}

/// Writes a text over characters, of which there are as many.
fn spell(characters: &mut [char], text: &str)
    requires { length characters.old ≡ length (chars text.now) }
    ensures { characters.new ≡ chars text.now }
{
    let mut at = 0;
    for character in text.chars() {
        characters[at] = character;
        at += 1;
    }
}

/// Writes a text of so many characters over what stands at a place.
fn overwrite(characters: &mut [char], place: usize, text: &str, count: usize)
    requires counted { count ≡ length (chars text.now) }
    requires within { place + count ≤ length characters.old }
    ensures { characters.new ≡ take place characters.old ++ chars text.now ++ drop (place + count) characters.old }
{
    spell(&mut characters[place..place + count], text);
}

/// Lays a text of so many characters on at a place, U+0000 up to it where it lies past the end. After an error all is unchanged.
pub(crate) fn lay_text(
    characters: &mut Vec<char>,
    place: usize,
    text: &str,
    count: usize,
) -> Result<(), AllocError>
    requires counted { count ≡ length (chars text.now) }
    requires within { place + count ≤ greatest_place }
    ensures { characters.new.items ≡ (if is_ok result then lay characters.old.items place (chars text.now) else characters.old.items) }
{
    if count == 0 {
        return Ok(());
    }
    let end = place + count;
    characters.resize(characters.len().max(end), '\0')?;
    overwrite(characters.as_mut_slice(), place, text, count);
    Ok(())
}

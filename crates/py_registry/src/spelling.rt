//! How names of encodings are spelled where they are looked for.
ghost use Rattle.std.specs.Prelude.{◌≡◌, chars, IfOk};
ghost use Rattle.py_codec.specs.Answers.{text_of};
ghost use Rattle.py_registry.specs.Names.{normal_character, normal_name, same_name};

use py_codec::first_character;
use std::alloc::{AllocError, Global};

/// A character of a name of an encoding, as it is looked for.
fn normal_character(character: char) -> char
    ensures { result ≡ normal_character character }
{
    if character == ' ' {
        '-'
    } else {
        character.to_ascii_lowercase()
    }
}

/// Whether two names are the same: what a search function of a user's own asks of a name.
pub fn same_name(one: &str, other: &str) -> bool
    ensures { result ≡ same_name (chars one.now) (chars other.now) }
{
    one == other
}

/// Whether a kept name is a given one, once that is spelled as it is looked for. The test takes no memory.
pub(crate) fn is_spelled(kept: &str, name: &str) -> bool
    ensures { result ≡ same_name (chars kept.now) (normal_name (chars name.now)) }
{
    let mut left = kept;
    let mut given = name;
    while let Some((one, behind)) = first_character(left) {
        let Some((other, rest)) = first_character(given) else {
            return false;
        };
        if one != normal_character(other) {
            return false;
        }
        left = behind;
        given = rest;
    }
    match first_character(given) {
        Some(_) => false,
        None => true,
    }
}

/// A name of an encoding, spelled as it is looked for.
pub(crate) fn spelled(alloc: Global, name: &str) -> Result<String, AllocError>
    ensures { IfOk result (λ made. text_of made ≡ normal_name (chars name.now)) }
{
    let mut made = String::with_capacity(alloc, name.len())?;
    let mut left = name;
    while let Some((character, behind)) = first_character(left) {
        made.push(normal_character(character))?;
        left = behind;
    }
    Ok(made)
}

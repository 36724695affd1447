use std::alloc::{AllocError, Global};

/// The characters of an answer; of none it says that the text waits.
pub(crate) fn characters(answer: &Option<String>) -> &str {
    match answer {
        Some(text) => text.as_str(),
        None => "not ready",
    }
}

/// Some answers in quotes, behind a word.
pub(crate) fn shown_all(
    alloc: Global,
    word: &str,
    answers: &[&Option<String>],
) -> Result<String, AllocError> {
    let mut out = String::from_str(alloc, word)?;
    for answer in answers {
        push_shown(alloc, &mut out, characters(answer))?;
    }
    Ok(out)
}

/// Appends characters in quotes, behind a space.
fn push_shown(alloc: Global, out: &mut String, characters: &str) -> Result<(), AllocError> {
    let shown = format!(in alloc; " {characters:?}")?;
    out.push_str(shown.as_str())
}

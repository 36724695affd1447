//! What stops a reading, and what stands then.
use crate::making::{OverBytes, STRICT, text_of};
use crate::shown::characters;
use anyhow::Result;
use py_flat::IoFault;
use py_raw_memory::Cut;
use py_text::{Encoding, Handler, Reconfigure};
use std::alloc::Global;

/// A range that the handler refuses refuses no more than what would pass it.
pub(crate) fn bad_bytes(alloc: Global) -> Result<String> {
    let mut text = text_of(alloc, b"ab\xFFc", &[], STRICT)?;
    Ok(lent_bad_bytes(alloc, &mut text)?)
}

/// The readings of `bad_bytes`, of a text that is lent: a `?` drops nothing of it.
fn lent_bad_bytes(alloc: Global, text: &mut OverBytes) -> Result<String, IoFault> {
    let bad = IoFault::UnicodeDecodeError { start: 2, end: 3 };
    let is_refused = text.read(alloc, None) == Err(bad); // place and life stay
    let before = text.read(alloc, Some(2))?; // Some("ab"): a shorter read
    let is_next = text.read(alloc, Some(1)) == Err(bad); // and the range is next
    Ok(format!(in alloc;
        "bad bytes: {is_refused} {:?} {is_next}",
        characters(&before)
    )?)
}

/// A text of which nothing was taken is read anew by other settings.
pub(crate) fn other_settings(alloc: Global) -> Result<String> {
    let mut text = text_of(alloc, b"ab\xFF", &[], STRICT)?;
    Ok(lent_other_settings(alloc, &mut text)?)
}

/// The calls of `other_settings`, of a text that is lent.
fn lent_other_settings(alloc: Global, text: &mut OverBytes) -> Result<String, IoFault> {
    let is_refused = text.read(alloc, None).is_err(); // it knows "ab" now
    let mut changes = Reconfigure::default();
    changes.encoding = Some(Encoding::Latin1);
    text.reconfigure(changes)?;
    let all = text.read(alloc, None)?; // Some("abÿ")
    let mut changes = Reconfigure::default();
    changes.errors = Some(Handler::XmlCharRefReplace); // for texts that are only written
    let is_other = text.reconfigure(changes) == Err(IoFault::UnknownHandler);
    Ok(format!(in alloc;
        "other settings: {is_refused} {:?} {is_other}",
        characters(&all)
    )?)
}

/// A wait hides nothing, and what came is given.
pub(crate) fn waits(alloc: Global) -> Result<String> {
    let plan = [Cut::Take(2), Cut::Wait, Cut::Wait];
    let mut text = text_of(alloc, b"abc\n", &plan, STRICT)?;
    Ok(lent_waits(alloc, &mut text)?)
}

/// The readings of `waits`, of a text that is lent.
fn lent_waits(alloc: Global, text: &mut OverBytes) -> Result<String, IoFault> {
    let some = text.readline(alloc, None)?; // Some("ab"), and `short` says that the line goes on
    let is_short = text.short();
    let none = text.readline(alloc, None)?; // None: nothing came, which isn't the end
    let rest = text.readline(alloc, None)?; // Some("c\n")
    Ok(format!(in alloc;
        "waits: {:?} {is_short} {:?} {:?}",
        characters(&some),
        characters(&none),
        characters(&rest)
    )?)
}

/// A raw that fails fails the text, which hands its buffer back.
pub(crate) fn fails(alloc: Global) -> Result<String> {
    let plan = [Cut::Take(2), Cut::Break(0)];
    let mut text = text_of(alloc, b"abc\n", &plan, STRICT)?;
    let shown = lent_fails(alloc, &mut text);
    let at = place_of(&mut text)?;
    let shown = shown?;
    Ok(format!(in alloc; "fails: {} {at}", shown.as_str())?)
}

/// The byte of the place of a text, which is detached; 0 where it has none.
fn place_of(text: &mut OverBytes) -> Result<u64, IoFault> {
    let parts = text.detach()?; // at once: the buffer, and the byte of the text place
    Ok(parts.place.unwrap_or(0))
}

/// The readings of `fails`, of a text that is lent.
fn lent_fails(alloc: Global, text: &mut OverBytes) -> Result<String, IoFault> {
    let first = text.read(alloc, Some(1))?; // Some("a")
    let is_fault = text.readline(alloc, None) == Err(IoFault::RawFault);
    let is_failed = text.readline(alloc, None) == Err(IoFault::Failed); // from then on
    Ok(format!(in alloc; "{:?} {is_fault} {is_failed}", characters(&first))?)
}

/// A text is closed, and a closed one may be closed again.
pub(crate) fn closed(alloc: Global) -> Result<String> {
    let mut text = text_of(alloc, b"abc\n", &[], STRICT)?;
    Ok(lent_closed(alloc, &mut text)?)
}

/// The calls of `closed`, of a text that is lent.
fn lent_closed(alloc: Global, text: &mut OverBytes) -> Result<String, IoFault> {
    text.close()?;
    text.close()?; // calls no raw
    let is_refused = text.read(alloc, None) == Err(IoFault::Closed);
    Ok(format!(in alloc; "closed: {} {is_refused}", text.closed())?)
}

//! A text and the plain one, written piece by piece.
use crate::handed_over::{HandsOver, changed, with_raw};
use crate::runs::{End, Run};
use py_flat::IoFault;
use py_text_trials::{Apart, Asking, Came, Flat, Piece, Tried};
use std::alloc::{AllocError, Global};

/// What came of texts.
#[derive(Clone, Copy, Debug, PartialEq, Eq)]
pub(crate) struct Counts {
    pub texts: u64,
    /// Calls that were answered as those of the plain text, refused ones too.
    pub answers: u64,
    /// Of these, those that were refused.
    pub refused: u64,
    /// Calls in which the raw would have blocked.
    pub waits: u64,
    /// Calls in which the raw failed.
    pub faults: u64,
}

impl Counts {
    pub fn none() -> Counts {
        Counts {
            texts: 0,
            answers: 0,
            refused: 0,
            waits: 0,
            faults: 0,
        }
    }

    /// Counts a call.
    fn count(&mut self, came: Came, is_refused: bool) {
        match came {
            Came::Same => {
                self.answers = self.answers.saturating_add(1);
                if is_refused {
                    self.refused = self.refused.saturating_add(1);
                }
            }
            Came::Short => self.waits = self.waits.saturating_add(1),
            Came::Faulted => self.faults = self.faults.saturating_add(1),
            Came::Differs => {}
        }
    }
}

/// Writes a piece to both.
fn write<T: Tried>(
    alloc: Global,
    text: &mut T,
    flat: &mut Flat,
    piece: &Piece,
    counts: &mut Counts,
) -> Came {
    let answer = text.write(alloc, piece.text.as_str());
    let is_refused = answer.is_err();
    let came = flat.came_of_write(alloc, piece, answer);
    counts.count(came, is_refused);
    came
}

/// Reads from both.
fn read<T: Tried>(
    alloc: Global,
    text: &mut T,
    flat: &mut Flat,
    asking: Asking,
    counts: &mut Counts,
) -> Came {
    let answer = text.ask(alloc, asking);
    let is_refused = answer.is_err();
    let came = flat.came_of_reading(alloc, asking, answer, text.is_short());
    counts.count(came, is_refused);
    came
}

/// Gives a text the chunks and the settings that it has behind the piece of a number, which call no raw.
fn change<T: HandsOver>(text: &mut T, number: usize) -> bool {
    let (chunk_size, changes) = changed(number);
    text.change(chunk_size, changes) == Ok(())
}

/// Writes the pieces to both, and reads and changes settings between them: `Same` where each call was answered, in full or short.
pub(crate) fn write_all<T: HandsOver>(
    alloc: Global,
    text: &mut T,
    flat: &mut Flat,
    pieces: &[Piece],
    run: Run,
    counts: &mut Counts,
) -> Came {
    let mut number = 0usize;
    for piece in pieces {
        let mut came = write(alloc, text, flat, piece, counts);
        if came == Came::Faulted || came == Came::Differs {
            return came;
        }
        if let Some(asking) = run.reading(number) {
            came = read(alloc, text, flat, asking, counts);
        }
        if came == Came::Faulted || came == Came::Differs {
            return came;
        }
        if run.changes && !change(text, number) {
            return Came::Differs;
        }
        number = number.saturating_add(1);
    }
    Came::Same
}

/// Ends a text: `Same` where the raw has all, `Short` where it was taken apart with nothing done before.
pub(crate) fn finish<T: Tried>(text: &mut T, end: End, counts: &mut Counts) -> Came {
    // A raw that would block once is asked again.
    for _ in 0..3 {
        let answer = match end {
            End::Apart => return Came::Short,
            End::Detached => return Came::Same, // `hand_over` ends it
            End::Flushed => text.flush(),
            End::Closed => text.close(),
        };
        let came = match answer {
            Ok(()) => Came::Same,
            Err(IoFault::WouldBlock { taken: 0 }) => Came::Short,
            Err(IoFault::RawFault) => Came::Faulted,
            Err(_) => Came::Differs,
        };
        counts.count(came, false);
        if came != Came::Short {
            return came;
        }
    }
    Came::Differs
}

/// Whether a text that the raw failed answers so: it is failed, or was closed.
pub(crate) fn is_ended<T: Tried>(alloc: Global, text: &mut T) -> bool {
    if text.is_closed() {
        return text.write(alloc, "a") == Err(IoFault::Closed) && text.close() == Ok(());
    }
    text.write(alloc, "a") == Err(IoFault::Failed)
        && text.flush() == Err(IoFault::Failed)
        && text.close() == Err(IoFault::Failed)
}

/// Detaches a text, and answers what came, of its calls before and of this, and what was handed over. A raw that would block once is asked
/// again, and a text that the raw failed is detached then.
fn detach<T: HandsOver>(
    alloc: Global,
    text: &mut T,
    came: Came,
    counts: &mut Counts,
) -> (Came, Option<Apart>) {
    let mut came = came;
    for _ in 0..3 {
        match text.hand_over(alloc) {
            Ok(apart) => {
                counts.count(Came::Same, false);
                return (came, Some(apart));
            }
            Err(IoFault::WouldBlock { taken: 0 }) => counts.count(Came::Short, false),
            Err(IoFault::RawFault) => {
                counts.count(Came::Faulted, false);
                let is_first = came == Came::Same && is_ended(alloc, text);
                came = if is_first {
                    Came::Faulted
                } else {
                    Came::Differs
                };
            }
            Err(_) => return (Came::Differs, None),
        }
    }
    (Came::Differs, None)
}

/// Ends a text by a detach: what came, of its calls before and of this, and what was handed over.
pub(crate) fn hand_over<T: HandsOver>(
    alloc: Global,
    text: T,
    came: Came,
    counts: &mut Counts,
) -> Result<(Came, Apart), AllocError> {
    let mut text = text;
    let (came, handed) = detach(alloc, &mut text, came, counts);
    let is_detached = text.flush() == Err(IoFault::Detached);
    let rest = text.take_apart(alloc)?;
    Ok(match handed {
        Some(handed) if is_detached && rest.owes_nothing() => (came, with_raw(handed, rest)),
        _ => (Came::Differs, rest),
    })
}

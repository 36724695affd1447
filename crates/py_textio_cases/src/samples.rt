//! What is read, and by which calls.
use py_text_trials::Asking;

/// The calls.
pub(crate) const CALLS: [Asking; 6] = [
    Asking::Characters(1),
    Asking::Characters(3),
    Asking::Characters(0),
    Asking::Whole,
    Asking::Line,
    Asking::LineOf(2),
];

/// What stands before a sample each time, where it is read over and over.
pub(crate) const FILLER: [u8; 250] = [b'x'; 250];

/// What stands before a sample that is told behind ASCII: more than the bytes that are looked at at once.
pub(crate) const BLOCK: [u8; 70] = [b'x'; 70];

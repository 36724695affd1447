//! What is left of a text once its buffer was handed back.

use py_held_text::Coder;
use py_text::TextSettings;

/// What a text could do, and its settings.
#[derive(Debug, Clone, Copy, Drop)]
pub(crate) struct TextLeft {
    pub coder: Coder,
    pub settings: TextSettings,
    pub readable: bool,
    pub writable: bool,
    pub seekable: bool,
}

use thiserror::Error;

/// Why a call of a raw stream gave no answer.
#[derive(Clone, Copy, Debug, PartialEq, Eq, Error)]
pub enum RawError {
    /// The stream failed; its count of faults rose.
    #[error("the raw stream failed")]
    Fault,
    /// There was no memory left; nothing changed.
    #[error("out of memory")]
    Memory,
}

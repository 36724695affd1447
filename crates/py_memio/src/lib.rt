//! Streams in memory: `BytesIO` over bytes, with exports of them, and `StringIO` over characters.
//!
//! Each call is the exact step of the flat file: nothing waits, and nothing fails but by running out of memory, which leaves all as it was.
//! Where bytes are lent out their number stays, and what would change it is refused.
#![tactic(auto)]

mod bytes_io;
mod characters;
mod export;
mod laws;
mod standing;
mod string_io;

pub use bytes_io::{BytesIO, LentBytes, Resizable};
pub use export::Export;
pub use laws::lent_bytes_keep_their_number;
pub use py_flat::{Data, IoFault, Life, Lines};
pub use string_io::StringIO;

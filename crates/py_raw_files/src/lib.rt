//! Raw streams of the system: files by their paths, and any reader or writer of `std`.
//!
//! They tell no content, which is the system's; they count their transfers, faults and waits, and say what they can do.
#![tactic(auto)]

mod counts;
mod file_opener;
mod file_raw;
mod handle;
mod read_raw;
mod write_raw;

pub use counts::Counts;
pub use file_opener::FileOpener;
pub use file_raw::FileRaw;
pub use read_raw::ReadRaw;
pub use write_raw::WriteRaw;

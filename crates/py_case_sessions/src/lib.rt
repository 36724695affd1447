//! Cases that stand as text: a file's blocks of lines, the session that such lines describe, and how it is opened, over a raw stream in
//! memory.
//!
//! Nothing here is clever: it is code to be read and trusted, and only its safety is proved.
#![tactic(auto)]

mod block;
mod opened;
mod session_case;

pub use block::{Block, Line, blocks};
pub use opened::{Opened, Opening, open};
pub use session_case::{SessionCase, cuts_of};

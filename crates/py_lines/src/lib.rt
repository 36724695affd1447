//! Collecting lines of bytes from pieces: one line, or lines up to a hint, wherever the pieces are cut.
//!
//! A collector is handed a stream piece by piece, and says when it has enough, and with how many bytes of the last piece.
//! What it has then is what it wants of the whole stream (`specs/Collecting.antt`), by the flat file's rule for lines: each
//! ends with its LF, and only the last of the stream may lack it.
#![tactic(auto)]

mod collector;
mod line_collector;
mod line_ending;
mod lines_collector;

pub use collector::{Collected, Collector};
pub use line_collector::LineCollector;
pub use line_ending::line_end;
pub use lines_collector::LinesCollector;

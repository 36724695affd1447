//! What programs share that try texts: the words of cases, raw streams that move by a plan, what a reading answers beside the
//! plain text, and texts and sessions that are taken apart. Nothing here is clever: it is code to be read and trusted, and only its safety is proved.
#![tactic(auto)]

mod apart;
mod asking;
mod beside;
mod flat;
mod parts_shown;
mod pieces;
mod raws;
mod samples;
mod shown;
mod tried;
mod words;

pub use apart::{Apart, Held, Under, take_parts_apart, take_text_apart};
pub use asking::Asking;
pub use beside::{Came, came_of};
pub use flat::Flat;
pub use parts_shown::push_apart;
pub use pieces::{Piece, WRITTEN_SAMPLES, pieces_of};
pub use raws::{failing, raw_of, steps};
pub use samples::{ENCODINGS, HANDLERS, RULES, SAMPLES, TELLING, telling};
pub use shown::{push_answer, push_cookie, push_fault, push_sought};
pub use tried::Tried;
pub use words::{coder, faults_of, plan_of, rule, split};

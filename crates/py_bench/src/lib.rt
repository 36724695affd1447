//! What the programs share that the scripts of `bench/` run: counting what came, and taking the best time of some rounds.
#![tactic(auto)]

mod counts;
mod rounds;
mod words;

pub use counts::Counts;
pub use rounds::best_of;
pub use words::FileTask;

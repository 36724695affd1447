//! An error handler and a search function of one's own, and a registry that has both. docs/CODECS.md goes through them.
#![tactic(auto)]

mod own_handler;
mod own_registry;
mod own_search;

pub use own_handler::Marks;
pub use own_registry::marked_registry;
pub use own_search::Marked;

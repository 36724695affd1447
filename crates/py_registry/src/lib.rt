//! The registry of codecs and error handlers: names, built-in codecs, search functions and what they found.
//!
//! A registry is a machine: the next number, the numbered search functions in order, the codecs that names have in the
//! cache, and the handlers that names stand for (`specs/Machine.antt`). Each call is one step of that machine. A lookup
//! may also be taken in three parts, `probe`, `search_path` and `settle`, so that a lock need not be held while user's
//! functions search.
#![tactic(auto)]

mod built_in;
mod codec;
mod coding;
mod handlers;
mod laws;
mod lookup;
mod names;
mod no_search;
mod path;
mod registry;
mod search_function;
mod spelling;

pub use codec::PyCodec;
pub use laws::{
    a_number_is_given_once, a_settled_name_keeps_its_codec, registering_a_handler_changes_one_name,
};
pub use no_search::NoSearch;
pub use path::{Path, Probe};
pub use py_codec::{
    EncodeReplace, Encoding, ErrorHandler, Handler, HandlerRef, HandlerRefusal, IoFault, NoHandler,
};
pub use py_incremental::{Data, DecoderState, IncrementalDecoder, IncrementalEncoder};
pub use registry::{CodecsRegistry, DEFAULT_ENCODING};
pub use search_function::{SearchFunction, SlotRefusal};
pub use spelling::same_name;

//! Opening by a mode, and sessions: calls made one by one, each answered as the model says.
//!
//! `io_open` opens a path by a mode, over the raw stream that an opener opens. `run_session` opens a session over a raw stream, a text or a
//! stream of bytes, and makes a list of calls; its replies are a run of the model from the opening's flat file to the session's own.
//!
//! `TextSession` is the session of a text: a text that is read and written over a raw stream. It is seen as a text over what its buffer is
//! seen as, and each of its calls has the one clause `Answers` of texts (`py_read_text`). The session of bytes is `py_binary`'s.
#![tactic(auto)]

mod laws;
mod open_failed;
mod open_refused;
mod paths;
mod run;
mod session;
mod text_calls;
mod text_laws;
mod text_lines;
mod text_session;
mod unwritten;

pub use laws::{
    a_calm_history_settles, a_closed_session_stays_closed, a_detached_file_stays_as_it_is,
    a_done_close_closes_its_raw, a_history_gains_an_entry, a_raw_is_closed_with_its_session,
    a_reached_text_stands_where_it_tells, a_run_answers_each_call, a_run_is_a_history,
    a_run_keeps_the_settings, a_run_reaches_its_sessions, a_run_splits_anywhere,
    a_session_reads_back_what_it_wrote, a_session_that_reads_spares_the_bytes,
    a_settled_text_is_exact, a_smooth_run_is_complete, a_smooth_run_settles,
    a_smooth_run_that_closes_leaves_its_file_in_the_raw, a_text_goes_back_to_where_it_told,
    an_ended_session_calls_no_raw, an_opened_raw_suits_its_plan,
    an_opened_session_is_the_file_of_its_path, another_session_reads_what_one_wrote,
    cookies_bring_back, counts_never_fall, no_reply_hangs_on_the_sizes, two_runs_are_a_run,
    what_is_passed_on_is_in_the_raw,
};
pub use open_failed::OpenFailed;
pub use open_refused::OpenRefused;
pub use paths::{io_open, open_code};
pub use py_calls::{
    Call, DEFAULT_BUFFER_SIZE, EncodeMode, FileMode, Mode, OpenArgs, OpenPlan, PlanKind,
    Reconfigure, Reply, TextIOCookie, TextPlan, plan_open, text_encoding,
};
pub use py_flat::ParseModeError;
pub use py_registry::{CodecsRegistry, SearchFunction};
pub use py_stream::{Access, Detached, NewRefused, Whence};
pub use run::{Run, run_planned, run_session};
pub use session::Session;
pub use text_laws::{a_wait_loses_nothing, settled_only_blames_itself};
pub use text_lines::TextLines;
pub use text_session::TextSession;
pub use unwritten::TextUnwritten;

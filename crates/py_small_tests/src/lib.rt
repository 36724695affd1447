//! Tests of what no list of cases reaches and no system answers: handlers of a user's own; the readings that a raw stream has of its
//! own; flags, and the texts of errors. The codecs have their cases in `py_codec_vectors`, the handlers of a registry theirs in
//! `py_registry_cases`.
#![tactic(auto)]

#[cfg(test)]
mod handlers;
#[cfg(test)]
mod raw_modes;
#[cfg(test)]
mod readings;
#[cfg(test)]
mod texts;

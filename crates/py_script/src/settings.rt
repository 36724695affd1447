//! The settings of a line `reconfigure`.
ghost use Rattle.std.specs.Prelude.{◌≡◌, chars, map, IfOk};
ghost use Rattle.py_registry.specs.Machine.{fresh};
ghost use Rattle.py_script.specs.Words.{word_text};
ghost use Rattle.py_script.specs.Settings.{encoding_named, probed_encoding, text_rule, handler_named, encoding_value, handler_value, newline_value, switch_value, setting_of, setting_by, setting_named, place_of, with_setting, given_with, changes_of_words};

use crate::hex_words::{text_of, word_text};
use crate::pieces::pieces;
use py_plain::{Encoding, Handler, Newlines};
use py_registry::{CodecsRegistry, HandlerRef, NoHandler, NoSearch, Probe, PyCodec};
use py_text::Reconfigure;
use std::alloc::{AllocError, Global};

/// A setting of a line.
#[derive(Clone, Copy, Debug)]
enum Setting {
    /// The encoding.
    Encoding(Encoding),
    /// The handler.
    Errors(Handler),
    /// The newline rule.
    Newline(Newlines),
    /// Whether a text that has a line end is flushed.
    LineBuffering(bool),
    /// Whether nothing of what is written is kept.
    WriteThrough(bool),
}

/// The settings of a line that were given so far, and the place of the last of them; 0 before the first.
#[derive(Clone, Copy, Debug, Default)]
struct Settings {
    changes: Reconfigure,
    last: usize,
}

/// The settings of the words after `reconfigure`, or `None` where one is malformed, or doesn't stand in its order; `Err` when out of
/// memory.
pub(crate) fn parse_settings(
    alloc: Global,
    words: &[&[u8]],
) -> Result<Option<Reconfigure>, AllocError>
    ensures { IfOk result (λ changes. changes ≡ changes_of_words (map (λ word. word.now) words.now)) }
{
    let mut given = Settings::default();
    for word in words {
        let Some(setting) = parse_setting(alloc, word)? else {
            return Ok(None);
        };
        let Some(more) = given_with(given, setting) else {
            return Ok(None);
        };
        given = more;
    }
    Ok(Some(given.changes))
}

/// The settings with one more, or `None` where it, or one that stands behind it, was given before.
fn given_with(given: Settings, setting: Setting) -> Option<Settings>
    ensures { result ≡ given_with given setting }
{
    let place = place_of(setting);
    if given.last < place {
        Some(Settings {
            changes: with_setting(given.changes, setting),
            last: place,
        })
    } else {
        None
    }
}

/// Where a setting stands in its line, counted from 1.
fn place_of(setting: Setting) -> usize
    ensures { result ≡ place_of setting }
{
    match setting {
        Setting::Encoding(_) => 1,
        Setting::Errors(_) => 2,
        Setting::Newline(_) => 3,
        Setting::LineBuffering(_) => 4,
        Setting::WriteThrough(_) => 5,
    }
}

/// The settings with one.
fn with_setting(changes: Reconfigure, setting: Setting) -> Reconfigure
    ensures { result ≡ with_setting changes setting }
{
    let mut with = changes;
    match setting {
        Setting::Encoding(encoding) => with.encoding = Some(encoding),
        Setting::Errors(handler) => with.errors = Some(handler),
        Setting::Newline(rule) => with.newline = Some(rule),
        Setting::LineBuffering(value) => with.line_buffering = Some(value),
        Setting::WriteThrough(value) => with.write_through = Some(value),
    }
    with
}

/// The setting of a word, a name, `=` and a value, or `None` where it is none; `Err` when out of memory.
fn parse_setting(alloc: Global, word: &[u8]) -> Result<Option<Setting>, AllocError>
    ensures { IfOk result (λ setting. setting ≡ setting_of word.now) }
{
    let pieces = pieces(alloc, word, b'=')?;
    setting_by(alloc, &pieces)
}

/// The setting of the pieces of a word, or `None` where they aren't a name and a value; `Err` when out of memory.
fn setting_by(alloc: Global, pieces: &[&[u8]]) -> Result<Option<Setting>, AllocError>
    ensures { IfOk result (λ setting. setting ≡ setting_by (map (λ piece. piece.now) pieces.now)) }
{
    match pieces {
        [name, value] => setting_named(alloc, name, value),
        _ => Ok(None),
    }
}

/// The setting of a name and its value, or `None` where there is none; `Err` when out of memory.
fn setting_named(alloc: Global, name: &[u8], value: &[u8]) -> Result<Option<Setting>, AllocError>
    ensures { IfOk result (λ setting. setting ≡ setting_named name.now value.now) }
{
    if name == "encoding".as_bytes() {
        Ok(encoding_value(alloc, value)?.map(Setting::Encoding))
    } else if name == "errors".as_bytes() {
        Ok(handler_value(alloc, value)?.map(Setting::Errors))
    } else if name == "newline".as_bytes() {
        Ok(newline_value(alloc, value)?.map(Setting::Newline))
    } else if name == "line".as_bytes() {
        Ok(switch_value(value).map(Setting::LineBuffering))
    } else if name == "through".as_bytes() {
        Ok(switch_value(value).map(Setting::WriteThrough))
    } else {
        Ok(None)
    }
}

/// A registry in which only what is built in has a name; `Err` when out of memory.
fn built_in_names(alloc: Global) -> Result<CodecsRegistry<NoSearch, NoHandler>, AllocError>
    ensures { IfOk result (λ registry. registry ≡ fresh) }
{
    match CodecsRegistry::new(alloc) {
        Ok(registry) => Ok(registry),
        Err(_) => Err(AllocError),
    }
}

/// The encoding that is built in under a name, or `None` where none is; `Err` when out of memory.
fn encoding_named(alloc: Global, name: &str) -> Result<Option<Encoding>, AllocError>
    ensures { IfOk result (λ encoding. encoding ≡ encoding_named (chars name.now)) }
{
    let registry = built_in_names(alloc)?;
    match registry.probe(alloc, name) {
        Ok(probe) => Ok(probed_encoding(&probe)),
        Err(_) => Err(AllocError),
    }
}

/// The encoding that a probe gives, or `None` where it gives none that is built in.
fn probed_encoding(probe: &Probe<NoSearch>) -> Option<Encoding>
    ensures { result ≡ probed_encoding probe.now }
{
    match probe {
        Probe::Hit(PyCodec::Builtin(encoding)) => Some(*encoding),
        _ => None,
    }
}

/// The handler that is built in under a name, or `None` where none is; `Err` when out of memory.
fn handler_named(alloc: Global, name: &str) -> Result<Option<Handler>, AllocError>
    ensures { IfOk result (λ handler. handler ≡ handler_named (chars name.now)) }
{
    let registry = built_in_names(alloc)?;
    match registry.lookup_error_opt(name) {
        Some(HandlerRef::Builtin(handler)) => Ok(Some(handler)),
        _ => Ok(None),
    }
}

/// The encoding of a value, or `None` where it names none; `Err` when out of memory.
fn encoding_value(alloc: Global, value: &[u8]) -> Result<Option<Encoding>, AllocError>
    ensures { IfOk result (λ encoding. encoding ≡ encoding_value value.now) }
{
    match text_of(Vec::from_slice(alloc, value)?) {
        Some(name) => encoding_named(alloc, name.as_str()),
        None => Ok(None),
    }
}

/// The handler of a value, or `None` where it names none; `Err` when out of memory.
fn handler_value(alloc: Global, value: &[u8]) -> Result<Option<Handler>, AllocError>
    ensures { IfOk result (λ handler. handler ≡ handler_value value.now) }
{
    match text_of(Vec::from_slice(alloc, value)?) {
        Some(name) => handler_named(alloc, name.as_str()),
        None => Ok(None),
    }
}

/// The newline rule of a value: `none` stands for no argument, and nothing, as `-`, for the empty text; `None` where it is no
/// newline argument in hex, and `Err` when out of memory.
fn newline_value(alloc: Global, value: &[u8]) -> Result<Option<Newlines>, AllocError>
    ensures { IfOk result (λ rule. rule ≡ newline_value value.now) }
{
    if value.is_empty() {
        Ok(Some(Newlines::Passthrough))
    } else if value == "none".as_bytes() {
        Ok(Some(Newlines::Universal))
    } else {
        hex_rule(alloc, value)
    }
}

/// The newline rule of an argument in hex, or `None` where it is none; `Err` when out of memory.
fn hex_rule(alloc: Global, value: &[u8]) -> Result<Option<Newlines>, AllocError>
    ensures { IfOk result (λ rule. rule ≡ text_rule (word_text value.now)) }
{
    match word_text(alloc, value)? {
        Some(text) => Ok(Newlines::from_text(Some(text.as_str()))),
        None => Ok(None),
    }
}

/// Whether a value says yes (1) or no (0); `None` where it says neither.
fn switch_value(value: &[u8]) -> Option<bool>
    ensures { result ≡ switch_value value.now }
{
    match value {
        [b'0'] => Some(false),
        [b'1'] => Some(true),
        _ => None,
    }
}

//! Lines without their ends, in the room that they had.
ghost use Rattle.std.specs.Prelude.{◌≡◌, ◌+◌, ◌≤◌, length, chars, encode_utf8, string_bytes, string_len, string_capacity, vec_len, vec_capacity, if◌then◌else◌};
ghost use Rattle.py_plain.specs.NewlineRule.{line_end};
ghost use Rattle.py_adapters.specs.Lines.{without_end};
ghost use Rattle.py_adapters.specs.LineSteps.{ends_in, without_last};

use py_flat::{Chars, Data};
use py_plain::Newlines;

/// Takes a byte off some bytes that end with it; answers whether they did.
fn pop_byte(bytes: &mut Vec<u8>, end: u8) -> bool
    ensures popped { result ≡ ends_in end bytes.old.items }
    ensures left { bytes.new.items ≡ without_last end bytes.old.items }
    ensures len { vec_len bytes.new + (if result then 1 else 0) ≡ vec_len bytes.old }
    ensures room { vec_capacity bytes.old ≤ vec_capacity bytes.new }
{
    match bytes.pop() {
        Some(last) if last != end => {
            bytes.push(last).unwrap(); // into the room that it had
            false
        }
        Some(_) => true,
        None => false,
    }
}

/// Bytes without the CR LF that they end with.
fn chop_pair_of_bytes(bytes: &mut Vec<u8>)
    ensures { bytes.new.items ≡ without_end (line_end Newlines.Crlf) bytes.old.items }
{
    if !pop_byte(bytes, b'\n') {
        return;
    }
    if !pop_byte(bytes, b'\r') {
        bytes.push(b'\n').unwrap(); // into the room that it had
    }
}

/// Bytes without the line end that they end with, where they do.
pub(crate) fn chop_bytes(bytes: Data, rule: Newlines) -> Data
    ensures { result ≡ without_end (line_end rule) bytes }
{
    let mut bytes = bytes.into_vec();
    match rule {
        Newlines::Universal | Newlines::Lf => {
            pop_byte(&mut bytes, b'\n');
        }
        Newlines::Cr => {
            pop_byte(&mut bytes, b'\r');
        }
        Newlines::Crlf => chop_pair_of_bytes(&mut bytes),
        Newlines::Passthrough => {
            pop_byte(&mut bytes, b'\n');
            pop_byte(&mut bytes, b'\r');
        }
    }
    Data::from_vec(bytes)
}

/// Takes a character off a text that ends with it; answers whether it did.
fn pop_char(text: &mut String, end: char) -> bool
    ensures popped { result ≡ ends_in end (chars (string_bytes text.old)) }
    ensures left { chars (string_bytes text.new) ≡ without_last end (chars (string_bytes text.old)) }
    ensures len { string_len text.new + (if result then length (encode_utf8 end) else 0) ≡ string_len text.old }
    ensures room { string_capacity text.old ≤ string_capacity text.new }
{
    if text.is_empty() {
        return false;
    }
    let last = text.pop().unwrap();
    if last != end {
        text.push(last).unwrap(); // into the room that it had
        return false;
    }
    true
}

/// A text without the CR LF that it ends with.
fn chop_pair_of_text(text: &mut String)
    ensures { chars (string_bytes text.new) ≡ without_end (line_end Newlines.Crlf) (chars (string_bytes text.old)) }
{
    if !pop_char(text, '\n') {
        return;
    }
    if !pop_char(text, '\r') {
        text.push('\n').unwrap(); // into the room that it had
    }
}

/// A text without the line end that it ends with, where it does.
pub(crate) fn chop_text(text: Chars, rule: Newlines) -> Chars
    ensures { result ≡ without_end (line_end rule) text }
{
    let mut text = text.into_string();
    match rule {
        Newlines::Universal | Newlines::Lf => {
            pop_char(&mut text, '\n');
        }
        Newlines::Cr => {
            pop_char(&mut text, '\r');
        }
        Newlines::Crlf => chop_pair_of_text(&mut text),
        Newlines::Passthrough => {
            pop_char(&mut text, '\n');
            pop_char(&mut text, '\r');
        }
    }
    Chars::from_string(text)
}

ghost use Rattle.std.specs.Prelude.{◌≡◌, ◌++◌, ◌∷◌, [], length, map, decimal, encode_utf8_all, OnOk, OnErr, IfOk};
ghost use Rattle.py_plain_text.specs.Cookie.{cookie_bytes};
ghost use Rattle.py_plain_text.specs.CookieView.{cookie_shown};
ghost use Rattle.py_script.specs.Words.{spaced};
ghost use Rattle.py_script.specs.Faults.{fault_name, fault_numbers};
ghost use Rattle.py_calls.specs.declared.reply.Reply.{Reply};
ghost use Rattle.py_script.specs.ReplyRange.{IsInRange};
ghost use Rattle.py_script.specs.ReplyLine.{hex_of, place_of, reply_word, reply_fields, reply_line};

use crate::fault_name;
use crate::reply_law::read_reply;
use hex::encode;
use py_calls::{Reply, TextIOCookie};
use py_flat::{Chars, Data, IoFault};
use std::alloc::{AllocError, Global};

/// Adds the line of a reply, with its LF, at the end of some bytes. At `Err`, when out of memory, the bytes are unchanged.
///
/// The line begins with a word for the reply's kind, and each further word stands after one space: bytes, a text's UTF-8, lines and a
/// cookie as hex in lower case (`-` for none), numbers as decimals (docs/PROGRAM.md). It tells the reply: no other has this line.
pub fn push_reply_line(alloc: Global, out: &mut Vec<u8>, reply: &Reply) -> Result<(), AllocError>
    ensures ok { OnOk result (out.new.items ≡ out.old.items ++ reply_line reply.now) }
    ensures err { OnErr result (out.new.items ≡ out.old.items) }
    ensures tells { (other : Reply) → IsInRange other → reply_line other ≡ reply_line reply.now → other ≡ reply.now }
{
    read_reply(reply);
    push_line(alloc, out, reply)
}

fn push_line(alloc: Global, out: &mut Vec<u8>, reply: &Reply) -> Result<(), AllocError>
    ensures ok { OnOk result (out.new.items ≡ out.old.items ++ reply_line reply.now) }
    ensures err { OnErr result (out.new.items ≡ out.old.items) }
{
    let mut line = Vec::from_slice(alloc, reply_word(reply).as_bytes())?;
    push_fields(alloc, &mut line, reply)?;
    line.push(b'\n')?;
    out.extend_from_slice(&line)
}

/// The word that a reply's line begins with.
fn reply_word(reply: &Reply) -> &'static str
    ensures { result.now ≡ reply_word reply.now }
{
    match reply {
        Reply::Bytes(_) => "bytes",
        Reply::Text(_) => "text",
        Reply::Lines(_) => "lines",
        Reply::Count(_) => "count",
        Reply::Place(_) => "place",
        Reply::Cookie(_) => "cookie",
        Reply::Done => "ok",
        Reply::NotReady => "notready",
        Reply::Flag(true) => "true",
        Reply::Flag(false) => "false",
        Reply::Name(_) => "name",
        Reply::Unwritten { .. } => "detached",
        Reply::Refused(_) => "err",
    }
}

/// Adds the words that follow the first, each after a space.
fn push_fields(alloc: Global, line: &mut Vec<u8>, reply: &Reply) -> Result<(), AllocError>
    ensures { OnOk result (line.new.items ≡ line.old.items ++ spaced (reply_fields reply.now)) }
{
    match reply {
        Reply::Bytes(bytes) => push_hex(alloc, line, bytes.as_slice()),
        Reply::Text(text) => push_hex(alloc, line, utf8(text)),
        Reply::Lines(lines) => push_lines(alloc, line, lines.as_slice()),
        Reply::Count(count) => push_number(alloc, line, *count),
        Reply::Place(place) => push_number(alloc, line, *place),
        Reply::Cookie(cookie) => push_cookie(alloc, line, *cookie),
        Reply::Done | Reply::NotReady | Reply::Flag(_) => Ok(()),
        Reply::Name(name) => push_word(line, utf8(name)),
        Reply::Unwritten { bytes, place } => push_unwritten(alloc, line, bytes.as_slice(), *place),
        Reply::Refused(fault) => push_fault(alloc, line, *fault),
    }
}

/// The UTF-8 of a text, lent.
pub(crate) fn utf8(text: &Chars) -> &[u8]
    ensures { result.now ≡ encode_utf8_all text.now }
{
    text.as_str().as_bytes()
}

/// Adds a word, after a space.
fn push_word(line: &mut Vec<u8>, word: &[u8]) -> Result<(), AllocError>
    ensures { OnOk result (line.new.items ≡ line.old.items ++ spaced (word.now ∷ [])) }
{
    line.push(b' ')?;
    line.extend_from_slice(word)
}

/// Adds a number as a decimal, after a space.
fn push_number(alloc: Global, line: &mut Vec<u8>, number: u64) -> Result<(), AllocError>
    ensures { OnOk result (line.new.items ≡ line.old.items ++ spaced (decimal number ∷ [])) }
{
    let digits = format!(in alloc; "{number}")?;
    push_word(line, digits.as_bytes())
}

/// Adds bytes as hex, after a space.
fn push_hex(alloc: Global, line: &mut Vec<u8>, bytes: &[u8]) -> Result<(), AllocError>
    ensures { OnOk result (line.new.items ≡ line.old.items ++ spaced (hex_of bytes.now ∷ [])) }
{
    if bytes.is_empty() {
        push_word(line, "-".as_bytes())
    } else {
        let digits = encode(alloc, bytes)?;
        push_word(line, digits.as_bytes())
    }
}

/// Adds the 25 bytes of a cookie as hex, after a space.
fn push_cookie(alloc: Global, line: &mut Vec<u8>, cookie: TextIOCookie) -> Result<(), AllocError>
    ensures { OnOk result (line.new.items ≡ line.old.items ++ spaced (hex_of (cookie_bytes (cookie_shown cookie)) ∷ [])) }
{
    let mut bytes = Vec::from_slice(alloc, &cookie.start_pos.to_le_bytes())?;
    bytes.extend_from_slice(&cookie.dec_flags.to_le_bytes())?;
    bytes.extend_from_slice(&cookie.bytes_to_feed.to_le_bytes())?;
    bytes.extend_from_slice(&cookie.chars_to_skip.to_le_bytes())?;
    bytes.push(u8::from(cookie.need_eof))?;
    bytes.extend_from_slice(&cookie.bytes_to_skip.to_le_bytes())?;
    push_hex(alloc, line, &bytes)
}

/// Adds how many lines there are, and each as hex, all after a space.
fn push_lines(alloc: Global, line: &mut Vec<u8>, lines: &[Data]) -> Result<(), AllocError>
    ensures { OnOk result (line.new.items ≡ line.old.items ++ spaced (decimal (length lines.now) ∷ map hex_of lines.now)) }
{
    push_number(alloc, line, lines.len() as u64)?;
    for bytes in lines {
        push_hex(alloc, line, bytes.as_slice())?;
    }
    Ok(())
}

/// Adds bytes that are not known to be written, and where the first of them belongs, each after a space.
fn push_unwritten(
    alloc: Global,
    line: &mut Vec<u8>,
    bytes: &[u8],
    place: Option<u64>,
) -> Result<(), AllocError>
    ensures { OnOk result (line.new.items ≡ line.old.items ++ spaced (hex_of bytes.now ∷ place_of place ∷ [])) }
{
    push_hex(alloc, line, bytes)?;
    match place {
        Some(place) => push_number(alloc, line, place),
        None => push_word(line, "-".as_bytes()),
    }
}

/// Adds a fault's name and its numbers, each after a space.
fn push_fault(alloc: Global, line: &mut Vec<u8>, fault: IoFault) -> Result<(), AllocError>
    ensures { OnOk result (line.new.items ≡ line.old.items ++ spaced (fault_name fault ∷ map decimal (fault_numbers fault))) }
{
    push_word(line, fault_name(fault).as_bytes())?;
    match fault {
        IoFault::WouldBlock { taken } => push_number(alloc, line, taken),
        IoFault::UnicodeDecodeError { start, end } => push_pair(alloc, line, start, end),
        IoFault::UnicodeEncodeError { start, end } => push_pair(alloc, line, start, end),
        IoFault::IndexError { dimension } => push_number(alloc, line, dimension as u64),
        _ => Ok(()),
    }
}

/// Adds two numbers as decimals, each after a space.
fn push_pair(alloc: Global, line: &mut Vec<u8>, first: u64, second: u64) -> Result<(), AllocError>
    ensures { OnOk result (line.new.items ≡ line.old.items ++ spaced (decimal first ∷ decimal second ∷ [])) }
{
    push_number(alloc, line, first)?;
    push_number(alloc, line, second)
}

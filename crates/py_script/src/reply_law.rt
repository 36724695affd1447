ghost use Rattle.std.specs.Prelude.{◌≡◌, ◌^◌, ◌<◌, length, IfSome};
ghost use Rattle.std.specs.List.{All};
ghost use Rattle.hex.specs.Hex.{IsBytes};
ghost use Rattle.py_script.specs.Faults.{fault_numbers};
ghost use Rattle.py_script.specs.ReplyLine.{reply_line};
ghost use Rattle.py_script.specs.ReplyRange.{AreSmall, FitFields, IsInRange};

use crate::reply_line::utf8;
use py_calls::{Reply, TextIOCookie};
use py_flat::{Data, IoFault};

/// A reply's line tells the reply: no two replies are printed alike.
pub fn reply_lines_tell(first: &Reply, second: &Reply)
    ensures { reply_line first.now ≡ reply_line second.now → first.now ≡ second.now }
{
    read_reply(first);
    read_reply(second);
}

/// Reads the parts of a reply, which shows that each lies in its type's range.
pub(crate) fn read_reply(reply: &Reply)
    ensures { IsInRange reply.now }
{
    match reply {
        Reply::Bytes(bytes) => read_bytes(bytes.as_slice()),
        Reply::Text(text) => read_bytes(utf8(text)),
        Reply::Lines(lines) => read_lines(lines.as_slice()),
        Reply::Count(count) => read_number(*count),
        Reply::Place(place) => read_number(*place),
        Reply::Cookie(cookie) => read_cookie(*cookie),
        Reply::Done | Reply::NotReady | Reply::Flag(_) | Reply::Name(_) => {}
        Reply::Unwritten { bytes, place } => read_unwritten(bytes, *place),
        Reply::Refused(fault) => read_fault(*fault),
    }
}

/// Bytes are below 256.
pub(crate) fn read_bytes(bytes: &[u8])
    ensures { IsBytes bytes.now }
{}

/// The bytes of lines are, and how many lines there are is below 2 ^ 64.
pub(crate) fn read_lines(lines: &[Data])
    ensures bytes { All IsBytes lines.now }
    ensures count { length lines.now < 2 ^ 64 }
{
    for line in lines {
        read_bytes(line.as_slice());
    }
}

/// A number is below 2 ^ 64.
fn read_number(number: u64)
    ensures { number < 2 ^ 64 }
{}

/// The fields of a cookie are in range.
fn read_cookie(cookie: TextIOCookie)
    ensures { FitFields cookie }
{}

/// Bytes and a place are in range.
fn read_unwritten(bytes: &Data, place: Option<u64>)
    ensures bytes { IsBytes bytes.now }
    ensures place { IfSome place (λ some. some < 2 ^ 64) }
{
    read_bytes(bytes.as_slice());
}

/// The numbers of a fault are in range.
fn read_fault(fault: IoFault)
    ensures { AreSmall (fault_numbers fault) }
{}

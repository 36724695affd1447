//! Printing replies and refusals, a line each.
ghost use Rattle.std.specs.Prelude.{◌≡◌, ◌≢◌, Err};
ghost use Rattle.py_raw.specs.Sink.{SinkKeeps, NoSinkFault};
ghost use Rattle.py_script.specs.ReplyLine.{reply_line, reply_lines};
ghost use Rattle.py_script.specs.Faults.{refused_line};
ghost use Rattle.py_program.specs.Outside.{PrintOutcome};

use crate::status::Status;
use py_flat::IoFault;
use py_open::Reply;
use py_raw::Sink;
use py_script::{push_refused_line, push_reply_line};
use std::alloc::Global;

/// Prints replies in order: `SinkFailed` where the sink fails, `NoMemory` where there is none for a line. A front of their
/// lines is printed then.
pub fn print_replies<K: Sink>(alloc: Global, out: &mut K, replies: &[Reply]) -> Result<(), Status>
    ensures keeps { SinkKeeps (K.shows out.old) (K.shows out.new) }
    ensures outcome { PrintOutcome (K.shows out.old) (reply_lines replies.now) result (K.shows out.new) }
    ensures exact { result ≢ Err Status.SinkFailed → NoSinkFault (K.shows out.old) (K.shows out.new) }
{
    for reply in replies {
        print_reply(alloc, out, reply)?;
    }
    Ok(())
}

fn print_reply<K: Sink>(alloc: Global, out: &mut K, reply: &Reply) -> Result<(), Status>
    ensures keeps { SinkKeeps (K.shows out.old) (K.shows out.new) }
    ensures outcome { PrintOutcome (K.shows out.old) (reply_line reply.now) result (K.shows out.new) }
    ensures exact { result ≢ Err Status.SinkFailed → NoSinkFault (K.shows out.old) (K.shows out.new) }
{
    let mut line = Vec::new(alloc);
    match push_reply_line(alloc, &mut line, reply) {
        Ok(()) => print_line(out, &line),
        Err(_) => Err(Status::NoMemory),
    }
}

/// Prints that an opening was refused.
pub fn print_refused<K: Sink>(alloc: Global, out: &mut K, fault: IoFault) -> Result<(), Status>
    ensures keeps { SinkKeeps (K.shows out.old) (K.shows out.new) }
    ensures outcome { PrintOutcome (K.shows out.old) (refused_line fault) result (K.shows out.new) }
    ensures exact { result ≢ Err Status.SinkFailed → NoSinkFault (K.shows out.old) (K.shows out.new) }
{
    let mut line = Vec::new(alloc);
    match push_refused_line(alloc, &mut line, fault) {
        Ok(()) => print_line(out, &line),
        Err(_) => Err(Status::NoMemory),
    }
}

/// Prints a text of the program's own, or `SinkFailed` with a front of it printed.
pub fn print_text<K: Sink>(out: &mut K, text: &str) -> Result<(), Status>
    ensures keeps { SinkKeeps (K.shows out.old) (K.shows out.new) }
    ensures outcome { PrintOutcome (K.shows out.old) text.now result (K.shows out.new) }
    ensures exact { result ≢ Err Status.SinkFailed → NoSinkFault (K.shows out.old) (K.shows out.new) }
    ensures memory { result ≢ Err Status.NoMemory }
{
    print_line(out, text.as_bytes())
}

fn print_line<K: Sink>(out: &mut K, line: &[u8]) -> Result<(), Status>
    ensures keeps { SinkKeeps (K.shows out.old) (K.shows out.new) }
    ensures outcome { PrintOutcome (K.shows out.old) line.now result (K.shows out.new) }
    ensures exact { result ≢ Err Status.SinkFailed → NoSinkFault (K.shows out.old) (K.shows out.new) }
    ensures memory { result ≢ Err Status.NoMemory }
{
    match out.write(line) {
        Ok(()) => Ok(()),
        Err(_) => Err(Status::SinkFailed),
    }
}

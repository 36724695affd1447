//! Calls on a text.
ghost use Rattle.std.specs.Prelude.{◌≡◌, chars, true, false};
ghost use Rattle.py_flat.specs.Calls.{Name};
ghost use Rattle.py_plain_text.specs.TextCalls.{is_getter};
ghost use Rattle.py_calls.specs.Calls.{text_call, said};
ghost use Rattle.py_stream.specs.Replies.{count_reply, done_reply};
ghost use Rattle.py_read_text.specs.Answers.{cookie_reply};
ghost use Rattle.py_open.specs.TextAnswers as seen;
ghost use Rattle.py_open.specs.TextHanding.{unwritten_reply};
ghost use Rattle.py_open.specs.Session.{SaysOrStarves, AnswersTextBy, AnswersText};

use crate::{TextSession, TextUnwritten};
use py_calls::{Call, Reply, TextIOCookie};
use py_flat::{Chars, IoFault};
use py_raw::{Data, RawStream};
use std::alloc::Global;

/// Makes a call on a text; what a text doesn't have, it refuses.
pub(crate) fn answer_text<R: RawStream>(
    alloc: Global,
    text: &mut TextSession<R>,
    call: &Call,
) -> Reply
    ensures { AnswersText text.old call.now result text.new }
{
    let reply = made(alloc, text, call);
    let _life = text.life();
    text.stays_in_reach();
    reply
}

/// Makes a call on a text.
fn made<R: RawStream>(alloc: Global, text: &mut TextSession<R>, call: &Call) -> Reply
    ensures { AnswersTextBy (is_getter (text_call call.now)) text.old (text_call call.now) (said result) text.new }
{
    match call {
        Call::Read(size) => text_reply(text.read(alloc, *size)),
        Call::ReadLine(limit) => text_reply(text.readline(alloc, *limit)),
        Call::WriteText(written) => count_reply(text.write(alloc, written.as_str())),
        Call::SeekText(cookie, whence) => {
            cookie_reply(text.seek(alloc, cookie.as_slice(), *whence))
        }
        Call::Tell => cookie_reply(text.tell()),
        Call::SetChunkSize(size) => done_reply(text.set_chunksize(*size)),
        Call::Reconfigure(changes) => done_reply(text.reconfigure(*changes)),
        Call::Flush => done_reply(text.flush()),
        Call::Close => done_reply(text.close()),
        Call::Detach => unwritten_reply(text.detach()),
        Call::ChunkSize => {
            let size = text.chunksize();
            told(text, Reply::Count(size as u64))
        }
        Call::Readable => {
            let value = text.readable();
            told(text, Reply::Flag(value))
        }
        Call::Writable => {
            let value = text.writable();
            told(text, Reply::Flag(value))
        }
        Call::Seekable => {
            let value = text.seekable();
            told(text, Reply::Flag(value))
        }
        Call::Closed => {
            let value = text.closed();
            told(text, Reply::Flag(value))
        }
        Call::Encoding => {
            let encoding = text.encoding();
            told(text, name_reply(alloc, encoding.name()))
        }
        Call::Errors => {
            let errors = text.errors();
            told(text, name_reply(alloc, errors.name()))
        }
        _ => Reply::Refused(text.refuse()),
    }
}

/// Answers a question.
fn told<R: RawStream>(text: &mut TextSession<R>, reply: Reply) -> Reply
    ensures reply { result ≡ reply }
    ensures whole { text.new ≡ record text.old { short = false } }
{
    text.forget_wait();
    reply
}

/// The reply to a question for a name, or that there was no memory for it.
fn name_reply(alloc: Global, name: &str) -> Reply
    ensures { SaysOrStarves true (Name (chars name.now)) (said result) }
{
    match Chars::from_text(alloc, name) {
        Ok(name) => Reply::Name(name),
        Err(_) => Reply::Refused(IoFault::NoMemory),
    }
}

/// The reply of a reading that gives characters, or isn't ready.
fn text_reply(answer: Result<Option<Chars>, IoFault>) -> Reply
    ensures { said result ≡ seen.text_reply answer }
{
    match answer {
        Ok(Some(text)) => Reply::Text(text),
        Ok(None) => Reply::NotReady,
        Err(fault) => Reply::Refused(fault),
    }
}

/// The reply of a write, which counts characters.
fn count_reply(answer: Result<usize, IoFault>) -> Reply
    ensures { said result ≡ count_reply answer }
{
    match answer {
        Ok(count) => Reply::Count(count as u64),
        Err(fault) => Reply::Refused(fault),
    }
}

/// The reply of a tell or a seek.
fn cookie_reply(answer: Result<TextIOCookie, IoFault>) -> Reply
    ensures { said result ≡ cookie_reply answer }
{
    match answer {
        Ok(cookie) => Reply::Cookie(cookie),
        Err(fault) => Reply::Refused(fault),
    }
}

/// The reply of a detaching.
fn unwritten_reply(answer: Result<TextUnwritten, IoFault>) -> Reply
    ensures { said result ≡ unwritten_reply answer }
{
    match answer {
        Ok(unwritten) => {
            let TextUnwritten { bytes, place } = unwritten;
            Reply::Unwritten {
                bytes: Data::from_vec(bytes),
                place,
            }
        }
        Err(fault) => Reply::Refused(fault),
    }
}

/// The reply of a call that has nothing to say.
fn done_reply(answer: Result<(), IoFault>) -> Reply
    ensures { said result ≡ done_reply answer }
{
    match answer {
        Ok(()) => Reply::Done,
        Err(fault) => Reply::Refused(fault),
    }
}

//! Calls on a buffered stream.
ghost use Rattle.std.specs.Prelude.{◌≡◌, ◌≢◌, false};
ghost use Rattle.py_flat.specs.Calls.{Detach, ReadInto, ReadInto1};
ghost use Rattle.py_flat.specs.Refusals.{is_getter, is_other_getter};
ghost use Rattle.py_stream.specs.Answers.{AnswersWith};
ghost use Rattle.py_calls.specs.Calls.{file_call, said};
ghost use Rattle.py_binary.specs.Binary.{has_reply_room};
ghost use Rattle.py_binary.specs.Kinds.{IsBuffered, buffered_as};

use crate::buffered::Buffered;
use crate::replies::{bytes_reply, count_reply, done_reply, into_reply, lines_reply, place_reply};
use crate::space::{Space, space_for};
use py_calls::{Call, Reply};
use py_raw::{IoFault, RawStream};
use std::alloc::Global;

/// Makes a call that is no question, of bytes or of texts, and no `Detach`.
pub(crate) fn answer_buffered<R: RawStream>(
    alloc: Global,
    stream: &mut Buffered<R>,
    call: &Call,
) -> Reply
    requires served { IsBuffered (buffered_as stream.old) }
    requires asks { is_getter (file_call call.now) ≡ false }
    requires known { is_other_getter (file_call call.now) ≡ false }
    requires stays { file_call call.now ≢ Detach }
    ensures { AnswersWith has_reply_room (buffered_as stream.old) (file_call call.now) (said result) (buffered_as stream.new) }
{
    match call {
        Call::Read(size) => bytes_reply(stream.read(alloc, *size)),
        Call::Read1(size) => bytes_reply(stream.read1(alloc, *size)),
        Call::ReadLine(limit) => bytes_reply(stream.readline(alloc, *limit)),
        Call::ReadLines(hint) => lines_reply(stream.readlines(alloc, *hint)),
        Call::Peek => stream.peek(alloc),
        Call::ReadInto(size) => readinto(alloc, stream, *size),
        Call::ReadInto1(size) => readinto1(alloc, stream, *size),
        Call::Write(bytes) => count_reply(stream.write(bytes.as_slice())),
        Call::WriteLines(lines) => done_reply(stream.writelines(lines)),
        Call::Seek(offset, whence) => place_reply(stream.seek(*offset, *whence)),
        Call::Tell => place_reply(stream.tell()),
        Call::Truncate(size) => place_reply(stream.truncate(*size)),
        Call::Flush => done_reply(stream.flush()),
        Call::Close => done_reply(stream.close()),
        _ => Reply::Refused(stream.refuse()),
    }
}

/// Reads into a buffer of this size.
fn readinto<R: RawStream>(alloc: Global, stream: &mut Buffered<R>, size: usize) -> Reply
    requires { IsBuffered (buffered_as stream.old) }
    ensures { AnswersWith has_reply_room (buffered_as stream.old) (ReadInto size) (said result) (buffered_as stream.new) }
{
    match space_for(alloc, stream.readable(), stream.life(), size) {
        Space::Taken(mut buffer) => {
            let answer = stream.readinto(&mut buffer);
            into_reply(answer, buffer)
        }
        Space::Lacking => {
            stream.forget_wait();
            Reply::Refused(IoFault::NoMemory)
        }
        Space::Unasked => Reply::Refused(stream.refuse()),
    }
}

/// Reads into a buffer of this size, by one transfer.
fn readinto1<R: RawStream>(alloc: Global, stream: &mut Buffered<R>, size: usize) -> Reply
    requires { IsBuffered (buffered_as stream.old) }
    ensures { AnswersWith has_reply_room (buffered_as stream.old) (ReadInto1 size) (said result) (buffered_as stream.new) }
{
    match space_for(alloc, stream.readable(), stream.life(), size) {
        Space::Taken(mut buffer) => {
            let answer = stream.readinto1(&mut buffer);
            into_reply(answer, buffer)
        }
        Space::Lacking => {
            stream.forget_wait();
            Reply::Refused(IoFault::NoMemory)
        }
        Space::Unasked => Reply::Refused(stream.refuse()),
    }
}

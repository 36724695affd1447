//! Calls on a stream without a buffer.
ghost use Rattle.std.specs.Prelude.{◌≡◌, ◌≢◌, false};
ghost use Rattle.py_flat.specs.Calls.{Detach, ReadInto};
ghost use Rattle.py_flat.specs.Refusals.{is_getter, is_other_getter};
ghost use Rattle.py_stream.specs.Answers.{AnswersWith};
ghost use Rattle.py_calls.specs.Calls.{file_call, said};
ghost use Rattle.py_binary.specs.Binary.{has_reply_room};
ghost use Rattle.py_binary.specs.Kinds.{IsUnbuffered};

use crate::replies::{bytes_reply, done_reply, into_reply, lines_reply, place_reply, taken_reply};
use crate::space::{Space, space_for};
use py_calls::{Call, Reply};
use py_raw::{IoFault, RawStream};
use py_unbuffered::UnbufferedStream;
use std::alloc::Global;

/// Makes a call that is no question, of bytes or of texts, and no `Detach`.
pub(crate) fn answer_unbuffered<R: RawStream>(
    alloc: Global,
    stream: &mut UnbufferedStream<R>,
    call: &Call,
) -> Reply
    requires served { IsUnbuffered stream.old }
    requires asks { is_getter (file_call call.now) ≡ false }
    requires known { is_other_getter (file_call call.now) ≡ false }
    requires stays { file_call call.now ≢ Detach }
    ensures { AnswersWith has_reply_room stream.old (file_call call.now) (said result) stream.new }
{
    match call {
        Call::Read(size) => bytes_reply(stream.read(alloc, *size)),
        Call::ReadLine(limit) => bytes_reply(stream.readline(alloc, *limit)),
        Call::ReadLines(hint) => lines_reply(stream.readlines(alloc, *hint)),
        Call::ReadInto(size) => readinto(alloc, stream, *size),
        Call::Write(bytes) => taken_reply(stream.write(bytes.as_slice())),
        Call::WriteLines(lines) => done_reply(stream.writelines(lines)),
        Call::Seek(offset, whence) => place_reply(stream.seek(*offset, *whence)),
        Call::Tell => place_reply(stream.tell()),
        Call::Truncate(size) => place_reply(stream.truncate(*size)),
        Call::Flush => done_reply(stream.flush()),
        Call::Close => done_reply(stream.close()),
        _ => Reply::Refused(stream.refuse()),
    }
}

/// Reads into a buffer of this size, by one transfer.
fn readinto<R: RawStream>(alloc: Global, stream: &mut UnbufferedStream<R>, size: usize) -> Reply
    requires { IsUnbuffered stream.old }
    ensures { AnswersWith has_reply_room stream.old (ReadInto size) (said result) stream.new }
{
    match space_for(alloc, stream.readable(), stream.life(), size) {
        Space::Taken(mut buffer) => {
            let answer = stream.readinto(&mut buffer);
            into_reply(answer, buffer)
        }
        Space::Lacking => {
            stream.forget_wait();
            Reply::Refused(IoFault::NoMemory)
        }
        Space::Unasked => Reply::Refused(stream.refuse()),
    }
}

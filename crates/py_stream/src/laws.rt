//! Laws of the definitions that the contracts cite: what two calls of any stream, one after the other, have to be; and, for each call
//! that reads or writes, what it answers where nothing stands in its way, which is all that a caller needs of the clause of all calls
//! then.
//!
//! No function here does anything; what each ensures is the law.
ghost use Rattle.std.specs.Prelude.{◌≡◌, ◌+◌, ◌≤◌, ℕ, pos, Bool, true, false, IsTrue, List, length, Option, Some, None, IsSome};
ghost use Rattle.py_flat.specs.Limits.{greatest_place};
ghost use Rattle.py_flat.specs.Bytes.{first_of};
ghost use Rattle.py_flat.specs.Lines.{Lf, first_line, lines_within, joined};
ghost use Rattle.py_flat.specs.Calls.{FileCall, Read, Read1, ReadLine, ReadLines, Peek, ReadInto, ReadInto1, Write, WriteLines, Seek, Tell, FileReply, Count, Done, Place};
ghost use Rattle.py_flat.specs.ExactStep.{rest, one_transfer, buffer_full};
ghost use Rattle.py_flat.specs.BinaryStep.{Transfers};
ghost use Rattle.py_stream.specs.Stream.{Stream, file_of, nothing_owed};
ghost use Rattle.py_stream.specs.Answers.{Answers, AnswersWith, CameByReads};
ghost use Rattle.py_stream.specs.Buffer.{buffer_of, taken_by, OwesAsItCan, is_made, AnswersAsBuffer};
ghost use Rattle.py_stream.specs.Laws.{ComesBack, GoesSmoothly, GivesJust, GivesJustLines, TakesJust, AnswersEach, none_seeks};

/// A stream that told its place, and was then moved there from its start, stands where it stood. Over a raw that tells, its
/// flat file is what it was, and so is what is left to read of it.
///
/// This says nothing where the stream refused a call, or answered otherwise: the raw may fail to move. It holds of a session's stream too,
/// whichever calls have their room.
pub fn a_seek_to_the_told_place_keeps_all()
    ensures { (room : FileCall → Bool) (before mid : Stream) (told back : ℕ) (after : Stream) → AnswersWith room before Tell (Place told) mid → AnswersWith room mid (Seek (pos told) (pos 0)) (Place back) after → ComesBack before told back after }
{}

/// `read` and `readinto` of a stream with a buffer give the next bytes, as many as were asked for or all that are left, and the place
/// moves past them. A `read` of all gives all that are left, with a buffer or without one.
///
/// Of a call that goes smoothly: the stream lives and reads, its raw tells its bytes and its place, no count of the raw rose, and memory
/// didn't run out.
pub fn a_smooth_read_gives_what_comes_next()
    ensures read { (before : Stream) (size : Option ℕ) (reply : FileReply) (after : Stream) → Answers before (Read size) reply after → before.can.readable ≡ true → IsSome before.buffer → GoesSmoothly before reply after → GivesJust before (first_of size (rest (file_of before))) reply after }
    ensures readinto { (before : Stream) (size : ℕ) (reply : FileReply) (after : Stream) → Answers before (ReadInto size) reply after → before.can.readable ≡ true → IsSome before.buffer → GoesSmoothly before reply after → GivesJust before (first_of (Some size) (rest (file_of before))) reply after }
    ensures all { (before : Stream) (reply : FileReply) (after : Stream) → Answers before (Read None) reply after → before.can.readable ≡ true → GoesSmoothly before reply after → GivesJust before (rest (file_of before)) reply after }
{}

/// `readline` gives the first line of what is left, within its limit, and `readlines` the lines up to its hint.
///
/// Of a call that goes smoothly: the stream lives and reads, its raw tells its bytes and its place, no count of the raw rose, and memory
/// didn't run out.
pub fn a_smooth_line_is_the_first_that_is_left()
    ensures readline { (before : Stream) (limit : Option ℕ) (reply : FileReply) (after : Stream) → Answers before (ReadLine limit) reply after → before.can.readable ≡ true → GoesSmoothly before reply after → GivesJust before (first_line Lf limit (rest (file_of before))) reply after }
    ensures readlines { (before : Stream) (hint : Option ℕ) (reply : FileReply) (after : Stream) → Answers before (ReadLines hint) reply after → before.can.readable ≡ true → GoesSmoothly before reply after → GivesJustLines before (lines_within hint (rest (file_of before))) reply after }
{}

/// `read1`, `readinto1` and `peek` of a stream with a buffer give some front of what they ask for, by at most one transfer, and nothing
/// only where nothing is asked for or left. So do a `read` of a size and a `readinto` of one without a buffer.
///
/// Of a call that goes smoothly: the stream lives and reads, its raw tells its bytes and its place, no count of the raw rose, and memory
/// didn't run out.
pub fn a_smooth_single_transfer_gives_a_front()
    ensures read1 { (before : Stream) (size : Option ℕ) (reply : FileReply) (after : Stream) → Answers before (Read1 size) reply after → before.can.readable ≡ true → IsSome before.buffer → GoesSmoothly before reply after → Transfers (file_of before) (Read1 size) (one_transfer (file_of before).buffering size (rest (file_of before))) reply (file_of after) }
    ensures readinto1 { (before : Stream) (size : ℕ) (reply : FileReply) (after : Stream) → Answers before (ReadInto1 size) reply after → before.can.readable ≡ true → IsSome before.buffer → GoesSmoothly before reply after → Transfers (file_of before) (ReadInto1 size) (first_of (Some size) (rest (file_of before))) reply (file_of after) }
    ensures peek { (before : Stream) (reply : FileReply) (after : Stream) → Answers before Peek reply after → before.can.readable ≡ true → IsSome before.buffer → GoesSmoothly before reply after → Transfers (file_of before) Peek (buffer_full (file_of before).buffering (rest (file_of before))) reply (file_of after) }
    ensures read { (before : Stream) (size : ℕ) (reply : FileReply) (after : Stream) → Answers before (Read (Some size)) reply after → before.can.readable ≡ true → before.buffer ≡ None → GoesSmoothly before reply after → Transfers (file_of before) (Read (Some size)) (first_of (Some size) (rest (file_of before))) reply (file_of after) }
    ensures readinto { (before : Stream) (size : ℕ) (reply : FileReply) (after : Stream) → Answers before (ReadInto size) reply after → before.can.readable ≡ true → before.buffer ≡ None → GoesSmoothly before reply after → Transfers (file_of before) (ReadInto size) (first_of (Some size) (rest (file_of before))) reply (file_of after) }
{}

/// `write` of a stream with a buffer and every `writelines` take all bytes, and lay them at the place, which moves past them. They have
/// to end at a place that a stream can have, at most 9223372036854775807. A `write` of a stream without a buffer so takes some front of
/// them, and none only of none.
///
/// Of a call that goes smoothly: the stream lives and writes, its raw tells its bytes and its place, no count of the raw rose, and memory
/// didn't run out.
pub fn a_smooth_write_takes_all()
    ensures write { (before : Stream) (bytes : List ℕ) (reply : FileReply) (after : Stream) → Answers before (Write bytes) reply after → before.can.writable ≡ true → IsSome before.buffer → before.place + length bytes ≤ greatest_place → GoesSmoothly before reply after → TakesJust before (Count (length bytes)) bytes reply after }
    ensures writelines { (before : Stream) (lines : List (List ℕ)) (reply : FileReply) (after : Stream) → Answers before (WriteLines lines) reply after → before.can.writable ≡ true → before.place + length (joined lines) ≤ greatest_place → GoesSmoothly before reply after → TakesJust before Done (joined lines) reply after }
    ensures front { (before : Stream) (bytes : List ℕ) (reply : FileReply) (after : Stream) → Answers before (Write bytes) reply after → before.can.writable ≡ true → before.buffer ≡ None → before.place + length bytes ≤ greatest_place → GoesSmoothly before reply after → Transfers (file_of before) (Write bytes) bytes reply (file_of after) }
{}

/// What a stream with a buffer answers to a `read1`, `write`, `seek`, `flush` or `close` is what the layer above asks of every buffered
/// stream, over a raw stream or in memory. The stream owes nothing where it doesn't write, as every one of the library does, and counts
/// how many bytes of its last write were taken.
pub fn a_stream_answers_as_a_buffered_one()
    ensures { (before : Stream) (was : ℕ) (call : FileCall) (reply : FileReply) (after : Stream) (taken : ℕ) → Answers before call reply after → taken ≡ taken_by call before.place after.place was → IsTrue (is_made call) → IsSome before.buffer → OwesAsItCan (buffer_of before was) → AnswersAsBuffer (buffer_of before was) call reply (buffer_of after taken) }
{}

/// Over a list of calls without a seek, a stream that doesn't write moves its raw, as the stream counts, by exactly as many bytes as
/// the raw's reads brought; at most one read in each call brought none. It is said of every raw that tells its transfers, as files do,
/// whatever faults and waits there were.
pub fn a_reader_stands_where_its_reads_brought_it()
    ensures { (before : Stream) (calls : List FileCall) (replies : List FileReply) (after : Stream) → before.can.writable ≡ false → before.owed ≡ nothing_owed before.place → none_seeks calls ≡ true → AnswersEach before calls replies after → CameByReads (length calls) before after }
{}

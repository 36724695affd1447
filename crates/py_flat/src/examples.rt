ghost use Rattle.std.specs.Prelude.{◌≡◌, ◌∷◌, ◌++◌, [], Bool, true, false, None, Some, codes, replicate, pos, negsuc};
ghost use Rattle.py_flat.specs.declared.fault.IoFault.TheVariants as fault;
ghost use Rattle.py_flat.specs.declared.life.Life.TheVariants as life;
ghost use Rattle.py_flat.specs.Bytes.{lay};
ghost use Rattle.py_flat.specs.Calls.{Read, Read1, ReadLine, ReadLines, Peek, ReadInto, ReadInto1, Write, WriteLines, Seek, Tell, Truncate, Flush, Close, Detach, Readable, Writable, Seekable, Closed, OtherKind, OtherGetter, Bytes, Lines, Count, Place, Done, Flag, Unwritten, Refused};
ghost use Rattle.py_flat.specs.Examples.{random, memory, unbuffered, reader, writer, appender, pipe, standing, replies_of, file_after};
ghost use Rattle.py_flat.specs.ExactStep.{in_life};
ghost use Rattle.py_flat.specs.Lines.{Lf, Cr, CrLf, AnyEnd, first_line, is_ended};

/// Reads and writes of a random stream go from one place on, which a seek moves.
pub fn reads_and_writes_share_a_place()
    ensures read_then_write { replies_of (random 4 (codes "hello world")) (Read (Some 2) ∷ Write (codes "XY") ∷ Seek (pos 0) (pos 0) ∷ Read None ∷ []) ≡ Bytes (codes "he") ∷ Count 2 ∷ Place 0 ∷ Bytes (codes "heXYo world") ∷ [] }
    ensures read_twice { replies_of (memory (1 ∷ 2 ∷ 3 ∷ 4 ∷ [])) (Read None ∷ Seek (pos 2) (pos 0) ∷ Read (Some 2) ∷ []) ≡ Bytes (1 ∷ 2 ∷ 3 ∷ 4 ∷ []) ∷ Place 2 ∷ Bytes (3 ∷ 4 ∷ []) ∷ [] }
    ensures past_the_end { replies_of (memory (codes "ab")) (Seek (pos 4) (pos 0) ∷ Write (codes "c") ∷ []) ≡ Place 4 ∷ Count 1 ∷ [] }
    ensures gap { (file_after (memory (codes "ab")) (Seek (pos 4) (pos 0) ∷ Write (codes "c") ∷ [])).bytes ≡ 0x61 ∷ 0x62 ∷ 0 ∷ 0 ∷ 0x63 ∷ [] }
{}

/// A seek is refused by its whence first, then by its target; the greatest place is taken, and no write goes past it.
pub fn seeks_are_tried_by_whence_then_by_target()
    ensures below_the_start { replies_of (random 4 (codes "abc")) (Seek (negsuc 0) (pos 0) ∷ Seek (negsuc 3) (pos 2) ∷ Tell ∷ []) ≡ Refused fault.NegativeSeek ∷ Refused fault.NegativeSeek ∷ Place 0 ∷ [] }
    ensures greatest_place { replies_of (random 4 (codes "abc")) (Seek (pos 9223372036854775807) (pos 0) ∷ Write (codes "x") ∷ Seek (negsuc 99) (pos 2) ∷ Tell ∷ []) ≡ Place 9223372036854775807 ∷ Refused fault.TooFar ∷ Refused fault.NegativeSeek ∷ Place 9223372036854775807 ∷ [] }
    ensures one_further { replies_of (random 4 (codes "abc")) (Seek (pos 9223372036854775808) (pos 0) ∷ Seek (pos 9223372036854775805) (pos 2) ∷ Tell ∷ []) ≡ Refused fault.TooFar ∷ Refused fault.TooFar ∷ Place 0 ∷ [] }
    ensures each_whence { replies_of (random 4 (codes "abc")) (Seek (pos 1) (pos 0) ∷ Seek (pos 1) (pos 1) ∷ Seek (negsuc 0) (pos 1) ∷ Seek (negsuc 0) (pos 2) ∷ Seek (pos 5) (pos 2) ∷ []) ≡ Place 1 ∷ Place 2 ∷ Place 1 ∷ Place 2 ∷ Place 8 ∷ [] }
    ensures no_whence { replies_of (random 4 (codes "abc")) (Seek (pos 0) (pos 3) ∷ Seek (pos 0) (negsuc 0) ∷ []) ≡ Refused fault.BadWhence ∷ Refused fault.BadWhence ∷ [] }
    ensures whence_before_target { replies_of (random 4 (codes "abc")) (Seek (negsuc 0) (pos 3) ∷ Seek (pos 9223372036854775808) (pos 3) ∷ []) ≡ Refused fault.BadWhence ∷ Refused fault.BadWhence ∷ [] }
{}

/// Each reading call gives what comes next of the bytes, and a `peek` takes none.
pub fn a_reader_gives_what_comes_next()
    ensures each_call { replies_of (reader 4 (codes "abcdefgh\nij")) (Read1 (Some 0) ∷ Read (Some 2) ∷ ReadInto 3 ∷ ReadLine (Some 2) ∷ ReadLine None ∷ ReadLines None ∷ Read (Some 5) ∷ []) ≡ Bytes [] ∷ Bytes (codes "ab") ∷ Bytes (codes "cde") ∷ Bytes (codes "fg") ∷ Bytes (codes "h\n") ∷ Lines (codes "ij" ∷ []) ∷ Bytes [] ∷ [] }
    ensures peek { replies_of (reader 4 (codes "abcdefgh\nij")) (Peek ∷ Tell ∷ Read1 None ∷ []) ≡ Bytes (codes "abcd") ∷ Place 0 ∷ Bytes (codes "abcd") ∷ [] }
    ensures newline { codes "h\n" ≡ 0x68 ∷ 0x0a ∷ [] }
{}

/// A line ends with its LF or at its limit; a hint of `readlines` ends the list with the line that goes above it.
pub fn lines_end_at_line_feeds_and_limits()
    ensures hint { replies_of (reader 4 (codes "a\nbb\nccc\n")) (ReadLines (Some 3) ∷ []) ≡ Lines (codes "a\n" ∷ codes "bb\n" ∷ []) ∷ [] }
    ensures no_hint { replies_of (reader 4 (codes "a\nbb\nccc\n")) (ReadLines (Some 0) ∷ []) ≡ Lines (codes "a\n" ∷ codes "bb\n" ∷ codes "ccc\n" ∷ []) ∷ [] }
    ensures limit { replies_of (reader 4 (codes "abc\n")) (ReadLine (Some 2) ∷ ReadLine None ∷ ReadLine None ∷ []) ≡ Bytes (codes "ab") ∷ Bytes (codes "c\n") ∷ Bytes [] ∷ [] }
    ensures last_line { replies_of (reader 4 (codes "a\nb")) (ReadLines None ∷ []) ≡ Lines (codes "a\n" ∷ codes "b" ∷ []) ∷ [] }
    ensures written { replies_of (writer 4 []) (WriteLines (codes "a\n" ∷ [] ∷ codes "b" ∷ []) ∷ []) ≡ Done ∷ [] }
    ensures written_bytes { (file_after (writer 4 []) (WriteLines (codes "a\n" ∷ [] ∷ codes "b" ∷ []) ∷ [])).bytes ≡ codes "a\nb" }
{}

/// A truncation goes to the place where no size is given, leaves the place, and lengthens by zeros; in memory it only
/// cuts.
pub fn truncations_cut_and_lengthen()
    ensures in_memory { replies_of (memory (codes "abc")) (Truncate (Some 9) ∷ Truncate (Some 1) ∷ Read None ∷ []) ≡ Place 9 ∷ Place 1 ∷ Bytes (codes "a") ∷ [] }
    ensures at_the_place { replies_of (standing (random 4 (codes "abcdef")) 2) (Truncate None ∷ []) ≡ Place 2 ∷ [] }
    ensures cut { file_after (standing (random 4 (codes "abcdef")) 2) (Truncate None ∷ []) ≡ standing (random 4 (codes "ab")) 2 }
    ensures place_kept { file_after (standing (random 4 (codes "abcdef")) 5) (Truncate (Some 2) ∷ []) ≡ standing (random 4 (codes "ab")) 5 }
    ensures lengthened { replies_of (random 4 (codes "ab")) (Truncate (Some 4) ∷ Read None ∷ []) ≡ Place 4 ∷ Bytes (0x61 ∷ 0x62 ∷ 0 ∷ 0 ∷ []) ∷ [] }
    ensures too_far { replies_of (random 4 (codes "ab")) (Truncate (Some 9223372036854775808) ∷ []) ≡ Refused fault.TooFar ∷ [] }
{}

/// A stream that isn't live refuses by its life, but for the getters and for what that life lets through.
pub fn lives_refuse_first()
    ensures closed { replies_of (in_life (random 4 (codes "ab")) life.Closed) (Close ∷ Detach ∷ Read None ∷ Closed ∷ []) ≡ Done ∷ Refused fault.Closed ∷ Refused fault.Closed ∷ Flag true ∷ [] }
    ensures failed { replies_of (in_life (random 4 (codes "ab")) life.Failed) (Close ∷ Read None ∷ Readable ∷ Closed ∷ []) ≡ Refused fault.Failed ∷ Refused fault.Failed ∷ Flag true ∷ Flag false ∷ [] }
    ensures detached { replies_of (in_life (random 4 (codes "ab")) life.Detached) (Read None ∷ Read1 None ∷ ReadLine None ∷ ReadLines None ∷ Peek ∷ ReadInto 1 ∷ ReadInto1 1 ∷ Write [] ∷ WriteLines [] ∷ []) ≡ replicate 9 (Refused fault.Detached) }
    ensures detached_moves { replies_of (in_life (random 4 (codes "ab")) life.Detached) (Seek (pos 0) (pos 3) ∷ Tell ∷ Truncate None ∷ Flush ∷ Close ∷ Detach ∷ OtherKind ∷ []) ≡ replicate 7 (Refused fault.Detached) }
    ensures detached_getters { replies_of (in_life (random 4 (codes "ab")) life.Detached) (Readable ∷ Writable ∷ Seekable ∷ Closed ∷ []) ≡ Flag true ∷ Flag true ∷ Flag true ∷ Flag false ∷ [] }
    ensures life_before_ability { replies_of (in_life (reader 4 (codes "ab")) life.Closed) (Write (codes "x") ∷ OtherKind ∷ []) ≡ Refused fault.Closed ∷ Refused fault.Closed ∷ [] }
    ensures other_getters { replies_of (in_life (random 4 (codes "ab")) life.Detached) (OtherGetter ∷ []) ≡ Refused fault.Unsupported ∷ [] }
    ensures after_close { replies_of (random 4 (codes "ab")) (Closed ∷ Close ∷ Closed ∷ Close ∷ Tell ∷ []) ≡ Flag false ∷ Done ∷ Flag true ∷ Done ∷ Refused fault.Closed ∷ [] }
{}

/// A live stream refuses what it can't do.
pub fn abilities_refuse_next()
    ensures reader { replies_of (reader 4 (codes "ab")) (Write (codes "x") ∷ WriteLines [] ∷ Truncate None ∷ Writable ∷ []) ≡ replicate 3 (Refused fault.Unsupported) ++ Flag false ∷ [] }
    ensures writer { replies_of (writer 4 (codes "ab")) (Read None ∷ Read1 None ∷ ReadLine None ∷ ReadLines None ∷ Peek ∷ ReadInto 1 ∷ ReadInto1 1 ∷ Readable ∷ []) ≡ replicate 7 (Refused fault.Unsupported) ++ Flag false ∷ [] }
    ensures appender { replies_of (appender 4 (codes "ab")) (Seek (pos 0) (pos 0) ∷ Truncate (Some 0) ∷ Tell ∷ Write (codes "c") ∷ Tell ∷ []) ≡ Refused fault.Unsupported ∷ Refused fault.Unsupported ∷ Place 2 ∷ Count 1 ∷ Place 3 ∷ [] }
    ensures unbuffered { replies_of (unbuffered (codes "ab")) (Read1 None ∷ Peek ∷ ReadInto1 1 ∷ Detach ∷ OtherKind ∷ []) ≡ replicate 5 (Refused fault.Unsupported) }
    ensures pipe { replies_of (pipe 4 (codes "ab")) (Seek (pos 0) (pos 0) ∷ Tell ∷ Truncate None ∷ Seekable ∷ []) ≡ replicate 3 (Refused fault.Unsupported) ++ Flag false ∷ [] }
{}

/// A `detach` of a live stream owes nothing, and tells the place where the stream can seek.
pub fn detaching_tells_the_place()
    ensures seekable { replies_of (random 4 (codes "abcdef")) (Read (Some 3) ∷ Detach ∷ Detach ∷ []) ≡ Bytes (codes "abc") ∷ Unwritten [] (Some 3) ∷ Refused fault.Detached ∷ [] }
    ensures pipe { replies_of (pipe 4 (codes "abcdef")) (Read (Some 3) ∷ Detach ∷ []) ≡ Bytes (codes "abc") ∷ Unwritten [] None ∷ [] }
{}

/// What each line end makes of a CR LF, whole or cut by a limit.
pub fn line_ends_differ_at_cr_lf()
    ensures lf { first_line Lf None (codes "a\r\nb") ≡ codes "a\r\n" }
    ensures cr { first_line Cr None (codes "a\r\nb") ≡ codes "a\r" }
    ensures cr_lf { first_line CrLf None (codes "a\r\nb") ≡ codes "a\r\n" }
    ensures any { first_line AnyEnd None (codes "a\r\nb") ≡ codes "a\r\n" }
    ensures lf_limited { first_line Lf (Some 2) (codes "a\r\nb") ≡ codes "a\r" }
    ensures cr_limited { first_line Cr (Some 1) (codes "a\r\nb") ≡ codes "a" }
    ensures cr_lf_limited { first_line CrLf (Some 2) (codes "a\r\nb") ≡ codes "a\r" }
    ensures any_limited { first_line AnyEnd (Some 2) (codes "a\r\nb") ≡ codes "a\r" }
    ensures carriage_return { codes "a\r" ≡ 0x61 ∷ 0x0d ∷ [] }
    ensures any_at_cr { first_line AnyEnd None (codes "a\rb") ≡ codes "a\r" }
    ensures cr_lf_alone { first_line CrLf None (codes "a\rb\nc") ≡ codes "a\rb\nc" }
    ensures lone_cr_lf { first_line CrLf None (codes "\r\r\nb") ≡ codes "\r\r\n" }
{}

/// A line is ended by its end or by its limit, and not by the end of the list.
pub fn lines_are_ended_by_an_end_or_a_limit()
    ensures lf { is_ended Lf None (codes "a\r\nb") ≡ true }
    ensures cr { is_ended Cr None (codes "a\r\nb") ≡ true }
    ensures cr_lf { is_ended CrLf None (codes "a\r\nb") ≡ true }
    ensures any { is_ended AnyEnd None (codes "a\r\nb") ≡ true }
    ensures no_lf { is_ended Lf None (codes "a\rb") ≡ false }
    ensures no_cr { is_ended Cr None (codes "a\nb") ≡ false }
    ensures no_cr_lf { is_ended CrLf None (codes "a\rb\nc") ≡ false }
    ensures none { is_ended AnyEnd None (codes "ab") ≡ false }
    ensures at_the_limit { is_ended AnyEnd (Some 2) (codes "ab") ≡ true }
    ensures short_of_the_limit { is_ended AnyEnd (Some 3) (codes "ab") ≡ false }
    ensures empty { is_ended Lf None [] ≡ false }
    ensures empty_limit { is_ended Lf (Some 0) [] ≡ true }
{}

/// How bytes are laid on a list: nothing changes nothing, a gap is filled with zeros, and the tail stays.
pub fn bytes_are_laid_on()
    ensures nothing { lay (codes "ab") 5 [] ≡ codes "ab" }
    ensures gap { lay (codes "ab") 4 (codes "c") ≡ 0x61 ∷ 0x62 ∷ 0 ∷ 0 ∷ 0x63 ∷ [] }
    ensures middle { lay (codes "abcdef") 2 (codes "XY") ≡ codes "abXYef" }
    ensures over_the_end { lay (codes "abc") 2 (codes "XY") ≡ codes "abXY" }
    ensures behind { lay (codes "abc") 3 (codes "XY") ≡ codes "abcXY" }
{}

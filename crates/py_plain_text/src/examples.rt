ghost use Rattle.std.specs.Prelude.{◌≡◌, ◌∷◌, ◌++◌, [], false, true, None, Some, codes, replicate, pos, negsuc};
ghost use Rattle.py_flat.specs.declared.fault.IoFault.TheVariants as fault;
ghost use Rattle.py_flat.specs.declared.life.Life.TheVariants as life;
ghost use Rattle.py_flat.specs.Calls.{Text, Count, Cookie, Done, Flag, Name, Unwritten, Refused};
ghost use Rattle.py_plain.specs.declared.encoding.Encoding.TheVariants.{Utf8, Latin1, Ascii, Utf16Le, Utf16Be};
ghost use Rattle.py_plain.specs.declared.handler.Handler.TheVariants.{Strict, Ignore, Replace, XmlCharRefReplace, BackslashReplace, SurrogateEscape};
ghost use Rattle.py_plain.specs.declared.newlines.Newlines.TheVariants as newline;
ghost use Rattle.py_plain_text.specs.TextCalls.{Read, ReadLine, WriteText, SeekText, Tell, Reconfigure, SetChunkSize, Flush, Close, Detach, ChunkSize, Readable, Writable, Seekable, Closed, Encoding, Errors, OtherKind};
ghost use Rattle.py_plain.specs.Units.{Unknown};
ghost use Rattle.py_plain_text.specs.TextFile.{clean_at};
ghost use Rattle.py_plain_text.specs.Rest.{rest_to};
ghost use Rattle.py_plain_text.specs.Cookie.{boundary_cookie, built};
ghost use Rattle.py_plain_text.specs.Telling.{placed};
ghost use Rattle.py_plain_text.specs.TextRefusals.{refusal};
ghost use Rattle.py_plain_text.specs.TextExact.{in_life};
ghost use Rattle.py_plain_text.specs.TextExamples.{text_reader, text_writer, text_random, cookie_at, cookie_inside, no_changes, replies_of, text_after};

/// By the universal rule CR LF, CR and LF are read as LF, and lines end there; an empty text is at its end.
#[tactic(auto, unfolding(py_plain::specs::Utf8::lead, py_plain::specs::Utf8::is_within))]
pub fn texts_are_read_by_their_lines()
    ensures all { replies_of (text_reader Utf8 Strict newline.Universal (codes "a\r\nb\rc")) (Read None ∷ []) ≡ Text (codes "a\nb\nc") ∷ [] }
    ensures lines { replies_of (text_reader Utf8 Strict newline.Universal (codes "a\r\nb\rc")) (ReadLine None ∷ ReadLine None ∷ ReadLine None ∷ ReadLine None ∷ []) ≡ Text (codes "a\n") ∷ Text (codes "b\n") ∷ Text (codes "c") ∷ Text [] ∷ [] }
    ensures empty { replies_of (text_reader Utf8 Strict newline.Universal []) (Read None ∷ ReadLine None ∷ Tell ∷ []) ≡ Text [] ∷ Text [] ∷ Cookie (cookie_at 0) ∷ [] }
    ensures between_a_pair { replies_of (text_reader Utf8 Strict newline.Passthrough (codes "a\r\n")) (Read (Some 2) ∷ ReadLine None ∷ []) ≡ Text (codes "a\r") ∷ Text (codes "\n") ∷ [] }
    ensures by_cr { replies_of (text_reader Utf8 Strict newline.Cr (codes "a\rb")) (ReadLine None ∷ []) ≡ Text (codes "a\r") ∷ [] }
{}

/// A cookie is the least boundary between items that gives the rest; inside what stands for a refused range it says that range, and the
/// characters that are skipped.
#[tactic(auto, unfolding(py_plain::specs::Utf8::lead, py_plain::specs::Utf8::is_within))]
pub fn cookies_tell_where_a_text_stands()
    ensures past_an_ignored_range { replies_of (text_reader Utf8 Ignore newline.Universal (0x61 ∷ 0x0D ∷ 0xFF ∷ 0x0A ∷ 0x62 ∷ [])) (Read (Some 2) ∷ Tell ∷ Read None ∷ []) ≡ Text (codes "a\n") ∷ Cookie (cookie_at 4) ∷ Text (codes "b") ∷ [] }
    ensures inside_a_range { replies_of (text_reader Utf8 BackslashReplace newline.Universal (0x41 ∷ 0xFF ∷ 0x42 ∷ [])) (Read (Some 3) ∷ Tell ∷ SeekText (cookie_inside 1 1 2 1 2) (pos 0) ∷ Read None ∷ []) ≡ Text (codes "A\\x") ∷ Cookie (cookie_inside 1 1 2 1 2) ∷ Cookie (cookie_inside 1 1 2 1 2) ∷ Text (codes "ffB") ∷ [] }
    ensures past_a_cut_sequence { replies_of (text_reader Utf8 Replace newline.Universal (0x61 ∷ 0xE2 ∷ 0x82 ∷ [])) (Read (Some 2) ∷ Tell ∷ Read None ∷ []) ≡ Text (0x61 ∷ 0xFFFD ∷ []) ∷ Cookie (cookie_at 3) ∷ Text [] ∷ [] }
    ensures past_a_pair { replies_of (text_reader Utf8 Strict newline.Universal (codes "a\r\nb")) (Read (Some 2) ∷ Tell ∷ []) ≡ Text (codes "a\n") ∷ Cookie (cookie_at 3) ∷ [] }
    ensures between_a_pair { replies_of (text_reader Utf8 Strict newline.Passthrough (codes "a\r\nb")) (Read (Some 2) ∷ Tell ∷ SeekText (cookie_at 2) (pos 0) ∷ Read None ∷ []) ≡ Text (codes "a\r") ∷ Cookie (cookie_at 2) ∷ Cookie (cookie_at 2) ∷ Text (codes "\nb") ∷ [] }
{}

/// Where more bytes may come, a sequence that the end cuts and a CR there give nothing yet; a range that no more bytes make a
/// character of is refused already.
#[tactic(auto, unfolding(py_plain::specs::Utf8::lead, py_plain::specs::Utf8::is_within))]
pub fn what_more_bytes_may_change_is_not_left_yet()
    ensures held { (rest_to false (text_reader Utf8 Strict newline.Universal (0x61 ∷ 0x0D ∷ []))).characters ≡ codes "a" }
    ensures released { (rest_to true (text_reader Utf8 Strict newline.Universal (0x61 ∷ 0x0D ∷ []))).characters ≡ codes "a\n" }
    ensures passed { (rest_to false (text_reader Utf8 Strict newline.Cr (0x61 ∷ 0x0D ∷ []))).characters ≡ codes "a\r" }
    ensures cut { rest_to false (text_reader Utf8 Strict newline.Universal (0xE2 ∷ 0x82 ∷ [])) ≡ record { characters = []; refusal = None } }
    ensures cut_for_good { rest_to true (text_reader Utf8 Strict newline.Universal (0xE2 ∷ 0x82 ∷ [])) ≡ record { characters = []; refusal = Some (0, 2) } }
    ensures refused { rest_to false (text_reader Utf8 Strict newline.Universal (0xFF ∷ 0x41 ∷ [])) ≡ record { characters = []; refusal = Some (0, 1) } }
    ensures refused_for_good { rest_to true (text_reader Utf8 Strict newline.Universal (0xFF ∷ 0x41 ∷ [])) ≡ record { characters = []; refusal = Some (0, 1) } }
{}

/// A refused range refuses the answer that would have to pass it, and takes nothing from the text.
#[tactic(auto, unfolding(py_plain::specs::Utf8::lead, py_plain::specs::Utf8::is_within))]
pub fn refused_ranges_take_nothing()
    ensures before_it { replies_of (text_reader Utf8 Strict newline.Universal (0x61 ∷ 0x62 ∷ 0xFF ∷ 0x63 ∷ [])) (Read (Some 2) ∷ Read (Some 1) ∷ Read (Some 1) ∷ []) ≡ Text (codes "ab") ∷ Refused (fault.UnicodeDecodeError 2 3) ∷ Refused (fault.UnicodeDecodeError 2 3) ∷ [] }
    ensures past_it { replies_of (text_reader Utf8 Strict newline.Universal (0x61 ∷ 0x62 ∷ 0xFF ∷ 0x63 ∷ [])) (Read (Some 3) ∷ Read (Some 2) ∷ []) ≡ Refused (fault.UnicodeDecodeError 2 3) ∷ Text (codes "ab") ∷ [] }
    ensures whole_character { replies_of (text_reader Utf8 Strict newline.Universal (0xE2 ∷ 0x82 ∷ 0xAC ∷ [])) (Read (Some 1) ∷ []) ≡ Text (0x20AC ∷ []) ∷ [] }
{}

/// What a handler gives for the front of a range stands before the rest of it, which is refused.
#[tactic(auto, unfolding(py_plain::specs::Utf8::is_within, py_plain::specs::Utf16::is_high, py_plain::specs::Utf16::is_low, py_plain::specs::OneByte::is_ascii))]
pub fn a_range_is_refused_from_its_first_ascii_byte()
    ensures escaped { replies_of (text_reader Utf16Be SurrogateEscape newline.Universal (0xD8 ∷ 0x00 ∷ 0x00 ∷ 0x41 ∷ [])) (Read (Some 7) ∷ Read (Some 1) ∷ []) ≡ Text (codes "#56536" ++ 0 ∷ []) ∷ Refused (fault.UnicodeDecodeError 3 4) ∷ [] }
{}

/// A cookie is built as 25 bytes, each number with its least byte first: the start in eight, its order, the bytes to feed and the characters to
/// skip in four each, a flag, and the bytes to skip in four. One with a negative field isn't built.
pub fn cookies_are_built_as_their_bytes()
    ensures at_a_byte { built (boundary_cookie 4 0) ≡ Some (cookie_at 4) }
    ensures inside { built (record { start_pos = pos 1; dec_flags = pos 0; bytes_to_feed = pos 1; chars_to_skip = pos 2; need_eof = true; bytes_to_skip = pos 3 }) ≡ Some (cookie_inside 1 1 2 1 3) }
    ensures far { built (boundary_cookie 0x0102030405060708 0) ≡ Some (8 ∷ 7 ∷ 6 ∷ 5 ∷ 4 ∷ 3 ∷ 2 ∷ 1 ∷ replicate 17 0) }
    ensures negative_start { built (record (boundary_cookie 0 0) { start_pos = negsuc 0 }) ≡ None }
    ensures negative_skip { built (record (boundary_cookie 0 0) { bytes_to_skip = negsuc 0 }) ≡ None }
{}

/// A cookie that nobody told is taken where the bytes are one item, by themselves, that has the characters that it skips.
#[tactic(auto, unfolding(py_plain::specs::Utf8::lead, py_plain::specs::Utf8::is_within))]
pub fn forged_cookies_are_tried_against_the_bytes()
    ensures accepted { replies_of (text_reader Utf8 BackslashReplace newline.Universal (0xE2 ∷ 0x82 ∷ 0xAC ∷ [])) (SeekText (cookie_inside 0 1 2 1 2) (pos 0) ∷ Tell ∷ Read None ∷ []) ≡ Cookie (cookie_inside 0 1 2 1 2) ∷ Cookie (cookie_inside 0 1 2 1 2) ∷ Text (codes "e2\\x82\\xac") ∷ [] }
    ensures no_item_of_so_many { replies_of (text_reader Utf8 Replace newline.Universal (0xE2 ∷ 0x82 ∷ 0xAC ∷ [])) (SeekText (cookie_inside 0 1 2 1 2) (pos 0) ∷ Read None ∷ []) ≡ Refused fault.CannotRestore ∷ Text (0x20AC ∷ []) ∷ [] }
{}

/// A cookie that is too long, or has a negative field or an order, is no cookie, and leaves the text as it was; one that skips and doesn't fit the
/// bytes leaves it at the cookie's start.
#[tactic(auto, unfolding(py_plain::specs::Utf8::lead, py_plain::specs::Utf8::is_within))]
pub fn hostile_cookies_are_refused()
    ensures too_long { replies_of (text_reader Utf8 BackslashReplace newline.Universal (0xFF ∷ 0x41 ∷ [])) (Read (Some 1) ∷ SeekText (replicate 26 0) (pos 0) ∷ Read None ∷ []) ≡ Text (codes "\\") ∷ Refused fault.InvalidCookie ∷ Text (codes "xffA") ∷ [] }
    ensures below_the_start { replies_of (text_reader Utf8 BackslashReplace newline.Universal (0xFF ∷ 0x41 ∷ [])) (SeekText (replicate 8 0xFF ++ replicate 17 0) (pos 0) ∷ Read None ∷ []) ≡ Refused fault.InvalidCookie ∷ Text (codes "\\xffA") ∷ [] }
    ensures an_order { replies_of (text_reader Utf8 BackslashReplace newline.Universal (0xFF ∷ 0x41 ∷ [])) (SeekText (replicate 8 0 ++ 1 ∷ []) (pos 0) ∷ Read None ∷ []) ≡ Refused fault.InvalidCookie ∷ Text (codes "\\xffA") ∷ [] }
    ensures five_fed { replies_of (text_reader Utf8 BackslashReplace newline.Universal (0xFF ∷ 0x41 ∷ [])) (SeekText (cookie_inside 0 5 1 0 0) (pos 0) ∷ Read None ∷ []) ≡ Refused fault.CannotRestore ∷ Text (codes "\\xffA") ∷ [] }
    ensures none_fed { replies_of (text_reader Utf8 BackslashReplace newline.Universal (0xFF ∷ 0x41 ∷ [])) (SeekText (cookie_inside 0 0 1 0 0) (pos 0) ∷ Read None ∷ []) ≡ Refused fault.CannotRestore ∷ Text (codes "\\xffA") ∷ [] }
    ensures other_bytes_skipped { replies_of (text_reader Utf8 BackslashReplace newline.Universal (0xFF ∷ 0x41 ∷ [])) (SeekText (cookie_inside 0 1 2 0 3) (pos 0) ∷ Read None ∷ []) ≡ Refused fault.CannotRestore ∷ Text (codes "\\xffA") ∷ [] }
    ensures all_skipped { replies_of (text_reader Utf8 BackslashReplace newline.Universal (0xFF ∷ 0x41 ∷ [])) (SeekText (cookie_inside 0 1 4 0 4) (pos 0) ∷ Read None ∷ []) ≡ Refused fault.CannotRestore ∷ Text (codes "\\xffA") ∷ [] }
    ensures not_at_the_end { replies_of (text_reader Utf8 BackslashReplace newline.Universal (0xFF ∷ 0x41 ∷ [])) (SeekText (cookie_inside 0 1 2 0 2) (pos 0) ∷ Tell ∷ Read None ∷ []) ≡ Cookie (cookie_inside 0 1 2 0 2) ∷ Cookie (cookie_inside 0 1 2 1 2) ∷ Text (codes "ffA") ∷ [] }
    ensures past_the_end { replies_of (text_reader Utf8 BackslashReplace newline.Universal (0xFF ∷ 0x41 ∷ [])) (SeekText (cookie_at 9) (pos 0) ∷ Read None ∷ []) ≡ Cookie (cookie_at 9) ∷ Text [] ∷ [] }
    ensures of_what_is_written { replies_of (text_writer Utf8 BackslashReplace newline.Universal (0xFF ∷ 0x41 ∷ [])) (SeekText (cookie_inside 0 1 2 1 2) (pos 0) ∷ Tell ∷ []) ≡ Refused fault.CannotRestore ∷ Cookie (cookie_at 0) ∷ [] }
{}

/// A text is written by its newline rule, at its byte; characters that were read have to be sought back first.
#[tactic(auto, unfolding(py_plain::specs::Utf8::lead, py_plain::specs::Utf8::is_within))]
pub fn texts_are_written_where_they_stand()
    ensures by_crlf { replies_of (text_writer Utf8 Strict newline.Crlf []) (WriteText (codes "a\nb") ∷ Flush ∷ []) ≡ Count 3 ∷ Done ∷ [] }
    ensures by_crlf_bytes { (text_after (text_writer Utf8 Strict newline.Crlf []) (WriteText (codes "a\nb") ∷ [])).bytes ≡ (0x61 ∷ 0x0D ∷ 0x0A ∷ 0x62 ∷ []) }
    ensures by_lines { (text_after (text_writer Utf8 Strict newline.Universal []) (WriteText (codes "a") ∷ WriteText (codes "b\n") ∷ [])).bytes ≡ codes "ab\n" }
    ensures seek_first { replies_of (text_random Utf8 Strict newline.Universal (codes "abc")) (Read (Some 1) ∷ WriteText (codes "X") ∷ SeekText [] (pos 1) ∷ WriteText (codes "X") ∷ Close ∷ []) ≡ Text (codes "a") ∷ Refused fault.SeekFirst ∷ Cookie (cookie_at 1) ∷ Count 1 ∷ Done ∷ [] }
    ensures seek_first_bytes { (text_after (text_random Utf8 Strict newline.Universal (codes "abc")) (Read (Some 1) ∷ SeekText [] (pos 1) ∷ WriteText (codes "X") ∷ [])).bytes ≡ codes "aXc" }
    ensures at_the_end { replies_of (text_random Utf8 Strict newline.Universal (codes "abc")) (Read (Some 9) ∷ WriteText (codes "d") ∷ SeekText [] (pos 2) ∷ WriteText (codes "d") ∷ Tell ∷ []) ≡ Text (codes "abc") ∷ Refused fault.SeekFirst ∷ Cookie (cookie_at 3) ∷ Count 1 ∷ Cookie (cookie_at 4) ∷ [] }
    ensures gap { (text_after (text_writer Utf8 Strict newline.Universal (codes "a")) (SeekText (cookie_at 3) (pos 0) ∷ WriteText (codes "b") ∷ [])).bytes ≡ (0x61 ∷ 0 ∷ 0 ∷ 0x62 ∷ []) }
    ensures greatest_place { replies_of (text_writer Utf8 Strict newline.Universal []) (SeekText (replicate 7 0xFF ++ 0x7F ∷ []) (pos 0) ∷ WriteText [] ∷ []) ≡ Cookie (replicate 7 0xFF ++ 0x7F ∷ replicate 17 0) ∷ Count 0 ∷ [] }
    ensures too_far { refusal (placed (text_writer Utf8 Strict newline.Universal []) (clean_at 9223372036854775807 Unknown)) (WriteText (codes "b")) ≡ Some fault.TooFar }
{}

/// A run of characters without bytes is refused by its places in the text that was given, whatever the newline rule makes of it.
pub fn runs_are_refused_by_their_places_in_the_text()
    ensures strict { replies_of (text_writer Latin1 Strict newline.Crlf []) (WriteText (0x0A ∷ 0xE9 ∷ 0x20AC ∷ []) ∷ []) ≡ Refused (fault.UnicodeEncodeError 2 3) ∷ [] }
    ensures replaced { (text_after (text_writer Latin1 Replace newline.Crlf []) (WriteText (0x0A ∷ 0xE9 ∷ 0x20AC ∷ []) ∷ [])).bytes ≡ (0x0D ∷ 0x0A ∷ 0xE9 ∷ 0x3F ∷ []) }
    ensures referred { (text_after (text_writer Ascii XmlCharRefReplace newline.Universal []) (WriteText (0xE9 ∷ []) ∷ [])).bytes ≡ codes "&#233;" }
{}

/// A seek is refused for want of an ability first, then by its whence, then by its cookie.
#[tactic(auto, unfolding(py_plain::specs::Utf8::lead, py_plain::specs::Utf8::is_within))]
pub fn text_seeks_are_tried_in_order()
    ensures cookie_of_the_place { replies_of (text_reader Utf8 Strict newline.Universal (codes "abc")) (SeekText (cookie_at 1) (pos 1) ∷ SeekText (cookie_at 1) (pos 2) ∷ SeekText (cookie_at 1) (pos 3) ∷ SeekText [] (negsuc 0) ∷ SeekText (replicate 26 0) (pos 1) ∷ SeekText (replicate 26 0) (pos 3) ∷ []) ≡ Refused fault.Unsupported ∷ Refused fault.Unsupported ∷ Refused fault.BadWhence ∷ Refused fault.BadWhence ∷ Refused fault.InvalidCookie ∷ Refused fault.BadWhence ∷ [] }
    ensures short_cookie { replies_of (text_reader Utf8 Strict newline.Universal (codes "abc")) (SeekText (2 ∷ []) (pos 0) ∷ Read None ∷ SeekText [] (pos 0) ∷ Tell ∷ []) ≡ Cookie (cookie_at 2) ∷ Text (codes "c") ∷ Cookie (cookie_at 0) ∷ Cookie (cookie_at 0) ∷ [] }
    ensures end { replies_of (text_reader Utf8 Strict newline.Universal (codes "abc")) (SeekText (cookie_at 9) (pos 0) ∷ SeekText [] (pos 1) ∷ SeekText [] (pos 2) ∷ []) ≡ Cookie (cookie_at 9) ∷ Cookie (cookie_at 9) ∷ Cookie (cookie_at 3) ∷ [] }
{}

/// New settings that say how a text is read have to wait until it stands clean; a handler has to be one of the text's directions.
#[tactic(auto, unfolding(py_plain::specs::Utf8::lead, py_plain::specs::Utf8::is_within))]
pub fn settings_are_changed_where_a_text_is_clean()
    ensures dirty { replies_of (text_reader Utf8 Strict newline.Universal (0x61 ∷ 0xFF ∷ [])) (Read (Some 1) ∷ Reconfigure (record no_changes { handler = Some Ignore }) ∷ Reconfigure (record no_changes { write_through = Some true }) ∷ Reconfigure (record no_changes { handler = Some XmlCharRefReplace }) ∷ []) ≡ Text (codes "a") ∷ Refused fault.SeekFirst ∷ Done ∷ Refused fault.SeekFirst ∷ [] }
    ensures clean { replies_of (text_reader Utf8 Strict newline.Universal (0x61 ∷ 0xFF ∷ [])) (Reconfigure (record no_changes { handler = Some XmlCharRefReplace }) ∷ Reconfigure (record no_changes { handler = Some Ignore }) ∷ Errors ∷ Read None ∷ Reconfigure (record no_changes { handler = Some Ignore }) ∷ Encoding ∷ []) ≡ Refused fault.UnknownHandler ∷ Done ∷ Name (codes "ignore") ∷ Text (codes "a") ∷ Done ∷ Name (codes "utf-8") ∷ [] }
    ensures written { replies_of (text_writer Utf8 Strict newline.Universal []) (Reconfigure (record no_changes { handler = Some XmlCharRefReplace }) ∷ Errors ∷ []) ≡ Done ∷ Name (codes "xmlcharrefreplace") ∷ [] }
    ensures chunks { replies_of (text_reader Utf8 Strict newline.Universal []) (ChunkSize ∷ SetChunkSize 0 ∷ SetChunkSize 3 ∷ ChunkSize ∷ []) ≡ Count 8192 ∷ Refused fault.BadArgument ∷ Done ∷ Count 3 ∷ [] }
{}

/// A text that isn't live refuses by its life, but for the getters and for what that life lets through; a text of one direction hasn't the calls of the other.
#[tactic(auto, unfolding(py_plain::specs::Utf8::lead, py_plain::specs::Utf8::is_within))]
pub fn texts_refuse_by_life_and_ability()
    ensures closed { replies_of (in_life (text_reader Utf8 Strict newline.Universal (codes "ab")) life.Closed) (Close ∷ Detach ∷ Read None ∷ OtherKind ∷ Closed ∷ Readable ∷ []) ≡ Done ∷ Refused fault.Closed ∷ Refused fault.Closed ∷ Refused fault.Closed ∷ Flag true ∷ Flag true ∷ [] }
    ensures failed { replies_of (in_life (text_reader Utf8 Strict newline.Universal (codes "ab")) life.Failed) (Close ∷ Tell ∷ SetChunkSize 1 ∷ Writable ∷ Closed ∷ []) ≡ Refused fault.Failed ∷ Refused fault.Failed ∷ Refused fault.Failed ∷ Flag false ∷ Flag false ∷ [] }
    ensures detached { replies_of (text_reader Utf8 Strict newline.Universal (codes "ab")) (Read None ∷ Detach ∷ Detach ∷ Close ∷ ReadLine None ∷ Seekable ∷ []) ≡ Text (codes "ab") ∷ Unwritten [] (Some 2) ∷ Refused fault.Detached ∷ Refused fault.Detached ∷ Refused fault.Detached ∷ Flag true ∷ [] }
    ensures direction { replies_of (text_reader Utf8 Strict newline.Universal (codes "ab")) (WriteText [] ∷ OtherKind ∷ Flush ∷ []) ≡ Refused fault.Unsupported ∷ Refused fault.Unsupported ∷ Done ∷ [] }
{}

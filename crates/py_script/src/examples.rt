ghost use Rattle.std.specs.Prelude.{◌≡◌, ◌++◌, ◌∷◌, [], codes, true, false, pos, negsuc, option_map};
ghost use Rattle.py_script.specs.Words.{words_of};
ghost use Rattle.py_script.specs.Script.{script_calls};
ghost use Rattle.py_script.specs.Faults.{refused_line};
ghost use Rattle.py_script.specs.ReplyLine.{reply_line, reply_lines};
ghost use Rattle.py_script.specs.Options.{arguments_of};
ghost use Rattle.py_script.specs.CommandWords.{Run, Help, Version, command_of};
ghost use Rattle.py_text.specs.Settings.{no_changes};

use py_calls::{Call, Reply};
use py_flat::{IoFault, ModeError, ParseModeError};
use py_plain::{Encoding, Handler, Newlines};

/// Worked examples of well-formed scripts, computed from the definition.
#[tactic(auto, unfolding(crate::specs::Words::is_digit))]
pub fn examples_of_scripts()
    ensures two_calls { script_calls (codes "readline\nread\n") ≡ Some (Call.ReadLine None ∷ Call.Read None ∷ []) }
    ensures last_line_without_end { script_calls (codes "read") ≡ Some (Call.Read None ∷ []) }
    ensures skipped_lines { script_calls (codes "#x\n\nclose") ≡ Some (Call.Close ∷ []) }
    ensures nothing { script_calls [] ≡ Some [] }
    ensures leading_zeros { script_calls (codes "read 007") ≡ Some (Call.Read (Some 7) ∷ []) }
    ensures limit_of_zero { script_calls (codes "readline 0\n") ≡ Some (Call.ReadLine (Some 0) ∷ []) }
    ensures greatest_size { script_calls (codes "read 18446744073709551615")
        ≡ Some (Call.Read (Some 18446744073709551615) ∷ []) }
{}

/// Worked examples of lines of one word, computed from the definition.
pub fn examples_of_plain_lines()
    ensures reads { script_calls (codes "read1\nreadlines\npeek") ≡ Some (Call.Read1 None ∷ Call.ReadLines None ∷ Call.Peek ∷ []) }
    ensures place_and_end { script_calls (codes "tell\nflush\nclose\ndetach") ≡ Some (Call.Tell ∷ Call.Flush ∷ Call.Close ∷ Call.Detach ∷ []) }
    ensures questions { script_calls (codes "readable\nwritable\nseekable\nclosed")
        ≡ Some (Call.Readable ∷ Call.Writable ∷ Call.Seekable ∷ Call.Closed ∷ []) }
    ensures settings { script_calls (codes "chunksize\nencoding\nerrors") ≡ Some (Call.ChunkSize ∷ Call.Encoding ∷ Call.Errors ∷ []) }
{}

/// Worked examples of lines with a size, computed from the definition.
#[tactic(auto, unfolding(crate::specs::Words::is_digit))]
pub fn examples_of_sized_lines()
    ensures reads { script_calls (codes "read1 2\nreadlines 010") ≡ Some (Call.Read1 (Some 2) ∷ Call.ReadLines (Some 10) ∷ []) }
    ensures chunks { script_calls (codes "chunksize 016") ≡ Some (Call.SetChunkSize 16 ∷ []) }
    ensures into { script_calls (codes "readinto 0\nreadinto1 3") ≡ Some (Call.ReadInto 0 ∷ Call.ReadInto1 3 ∷ []) }
    ensures no_size_to_read_into { script_calls (codes "readinto") ≡ None }
    ensures no_size_to_read_into_once { script_calls (codes "readinto1") ≡ None }
    ensures size_of_peek { script_calls (codes "peek 1") ≡ None }
    ensures size_of_tell { script_calls (codes "tell 1") ≡ None }
    ensures two_sizes { script_calls (codes "read1 1 2") ≡ None }
    ensures below_zero { script_calls (codes "readlines -1") ≡ None }
{}

/// Worked examples of moves, computed from the definition.
#[tactic(auto, unfolding(crate::specs::Words::is_digit, hex::specs::Hex::decode_pairs))]
pub fn examples_of_moves()
    ensures from_the_start { script_calls (codes "seek 0") ≡ Some (Call.Seek (pos 0) (pos 0) ∷ []) }
    ensures from_the_place { script_calls (codes "seek 3 1") ≡ Some (Call.Seek (pos 3) (pos 1) ∷ []) }
    ensures from_the_end { script_calls (codes "seek -1 2") ≡ Some (Call.Seek (negsuc 0) (pos 2) ∷ []) }
    ensures least { script_calls (codes "seek -9223372036854775808 -2147483648")
        ≡ Some (Call.Seek (negsuc 9223372036854775807) (negsuc 2147483647) ∷ []) }
    ensures greatest { script_calls (codes "seek 9223372036854775807 2147483647")
        ≡ Some (Call.Seek (pos 9223372036854775807) (pos 2147483647) ∷ []) }
    ensures no_offset { script_calls (codes "seek") ≡ None }
    ensures three_numbers { script_calls (codes "seek 1 2 3") ≡ None }
    ensures two_minuses { script_calls (codes "seek --1") ≡ None }
    ensures offset_too_large { script_calls (codes "seek 9223372036854775808") ≡ None }
    ensures whence_too_large { script_calls (codes "seek 1 2147483648") ≡ None }
    ensures whence_too_small { script_calls (codes "seek 1 -2147483649") ≡ None }
    ensures whence_of_no_digits { script_calls (codes "seek 1 ") ≡ None }
    ensures by_a_cookie { script_calls (codes "seektext 0A00") ≡ Some (Call.SeekText (10 ∷ 0 ∷ []) (pos 0) ∷ []) }
    ensures by_none { script_calls (codes "seektext - 2") ≡ Some (Call.SeekText [] (pos 2) ∷ []) }
    ensures no_cookie { script_calls (codes "seektext") ≡ None }
    ensures odd_cookie { script_calls (codes "seektext 0") ≡ None }
    ensures no_whence { script_calls (codes "seektext 00 -") ≡ None }
    ensures three_words { script_calls (codes "seektext 00 0 0") ≡ None }
{}

/// Worked examples of writes, computed from the definition.
pub fn examples_of_writes()
    ensures either_case { script_calls (codes "write 6A6a") ≡ Some (Call.Write (106 ∷ 106 ∷ []) ∷ []) }
    ensures no_bytes { script_calls (codes "write -") ≡ Some (Call.Write [] ∷ []) }
    ensures no_lines { script_calls (codes "writelines") ≡ Some (Call.WriteLines [] ∷ []) }
    ensures lines { script_calls (codes "writelines 610a - 62") ≡ Some (Call.WriteLines ((97 ∷ 10 ∷ []) ∷ [] ∷ (98 ∷ []) ∷ []) ∷ []) }
    ensures nothing_to_write { script_calls (codes "write") ≡ None }
    ensures empty_word { script_calls (codes "write ") ≡ None }
    ensures odd_hex { script_calls (codes "write 6") ≡ None }
    ensures no_hex { script_calls (codes "write 6g") ≡ None }
    ensures two_words { script_calls (codes "write 61 62") ≡ None }
    ensures minus_behind_hex { script_calls (codes "write 61-") ≡ None }
    ensures empty_line { script_calls (codes "writelines 61 ") ≡ None }
    ensures odd_line { script_calls (codes "writelines 61 6") ≡ None }
{}

/// Worked examples of texts that are written, computed from the definition.
pub fn examples_of_texts()
    ensures utf8 { script_calls (codes "writetext c3a90A") ≡ Some (Call.WriteText (233 ∷ 10 ∷ []) ∷ []) }
    ensures no_characters { script_calls (codes "writetext -") ≡ Some (Call.WriteText [] ∷ []) }
    ensures nothing_to_write { script_calls (codes "writetext") ≡ None }
    ensures two_words { script_calls (codes "writetext 61 62") ≡ None }
    ensures no_utf8 { script_calls (codes "writetext ff") ≡ None }
    ensures cut_utf8 { script_calls (codes "writetext c3") ≡ None }
    ensures no_hex { script_calls (codes "writetext a") ≡ None }
{}

/// Worked examples of settings of texts, computed from the definition.
pub fn examples_of_settings()
    ensures nothing { script_calls (codes "reconfigure") ≡ Some (Call.Reconfigure no_changes ∷ []) }
    ensures all { script_calls (codes "reconfigure encoding=UTF-16LE errors=xmlcharrefreplace newline=0D0a line=1 through=0")
        ≡ Some (Call.Reconfigure (record { encoding = Some Encoding.Utf16Le; errors = Some Handler.XmlCharRefReplace; newline = Some Newlines.Crlf; line_buffering = Some true; write_through = Some false }) ∷ []) }
    ensures some { script_calls (codes "reconfigure encoding=latin1 through=1")
        ≡ Some (Call.Reconfigure (record no_changes { encoding = Some Encoding.Latin1; write_through = Some true }) ∷ []) }
    ensures no_argument { script_calls (codes "reconfigure newline=none") ≡ Some (Call.Reconfigure (record no_changes { newline = Some Newlines.Universal }) ∷ []) }
    ensures empty_argument { script_calls (codes "reconfigure newline=") ≡ Some (Call.Reconfigure (record no_changes { newline = Some Newlines.Passthrough }) ∷ []) }
    ensures empty_hex { script_calls (codes "reconfigure newline=-") ≡ Some (Call.Reconfigure (record no_changes { newline = Some Newlines.Passthrough }) ∷ []) }
    ensures line_feed { script_calls (codes "reconfigure newline=0a") ≡ Some (Call.Reconfigure (record no_changes { newline = Some Newlines.Lf }) ∷ []) }
    ensures handler_of_no_stream { script_calls (codes "reconfigure errors=surrogatepass") ≡ Some (Call.Reconfigure (record no_changes { errors = Some Handler.SurrogatePass }) ∷ []) }
{}

/// Worked examples of malformed settings, computed from the definition.
pub fn examples_of_no_settings()
    ensures other_order { script_calls (codes "reconfigure errors=strict encoding=utf-8") ≡ None }
    ensures twice { script_calls (codes "reconfigure line=1 line=1") ≡ None }
    ensures unknown_encoding { script_calls (codes "reconfigure encoding=locale") ≡ None }
    ensures no_encoding { script_calls (codes "reconfigure encoding=") ≡ None }
    ensures unknown_handler { script_calls (codes "reconfigure errors=Strict") ≡ None }
    ensures other_newline { script_calls (codes "reconfigure newline=0a0d") ≡ None }
    ensures odd_hex { script_calls (codes "reconfigure newline=0") ≡ None }
    ensures no_switch { script_calls (codes "reconfigure line=01") ≡ None }
    ensures unknown_setting { script_calls (codes "reconfigure chunk=1") ≡ None }
    ensures no_value { script_calls (codes "reconfigure line") ≡ None }
    ensures two_values { script_calls (codes "reconfigure through=1=1") ≡ None }
    ensures two_spaces { script_calls (codes "reconfigure  line=1") ≡ None }
    ensures not_utf8 { script_calls (codes "reconfigure errors=" ++ 255 ∷ []) ≡ None }
{}

/// Worked examples of malformed scripts, computed from the definition.
#[tactic(auto, unfolding(crate::specs::Words::is_digit))]
pub fn examples_of_malformed_lines()
    ensures misspelled { script_calls (codes "red") ≡ None }
    ensures misspelled_later { script_calls (codes "read\nclose1\n") ≡ None }
    ensures upper_case { script_calls (codes "READ") ≡ None }
    ensures two_spaces { script_calls (codes "read  1") ≡ None }
    ensures leading_space { script_calls (codes " read") ≡ None }
    ensures trailing_space { script_calls (codes "read ") ≡ None }
    ensures carriage_return { script_calls (codes "read\r\n") ≡ None }
    ensures plus { script_calls (codes "read +1") ≡ None }
    ensures minus { script_calls (codes "read -1") ≡ None }
    ensures too_large { script_calls (codes "read 18446744073709551616") ≡ None }
    ensures size_of_close { script_calls (codes "close 1") ≡ None }
    ensures not_utf8 { script_calls (codes "read " ++ 255 ∷ []) ≡ None }
    ensures name_to_set { script_calls (codes "encoding utf-8") ≡ None }
    ensures chunk_below_zero { script_calls (codes "chunksize -1") ≡ None }
{}

/// Worked examples of the lines of replies, computed from the definition.
pub fn examples_of_replies()
    ensures bytes { reply_line (Reply.Bytes (0 ∷ 255 ∷ [])) ≡ codes "bytes 00ff\n" }
    ensures text { reply_line (Reply.Text (233 ∷ 10 ∷ [])) ≡ codes "text c3a90a\n" }
    ensures empty_text { reply_line (Reply.Text []) ≡ codes "text -\n" }
    ensures lines { reply_line (Reply.Lines ((97 ∷ 10 ∷ []) ∷ [] ∷ (98 ∷ []) ∷ [])) ≡ codes "lines 3 610a - 62\n" }
    ensures count { reply_line (Reply.Count 0) ≡ codes "count 0\n" }
    ensures place { reply_line (Reply.Place 18446744073709551615) ≡ codes "place 18446744073709551615\n" }
    ensures cookie { reply_line (Reply.Cookie (record { start_pos = pos 4; dec_flags = pos 0; bytes_to_feed = pos 0; chars_to_skip = pos 0; need_eof = false; bytes_to_skip = pos 0 }))
        ≡ codes "cookie 04000000000000000000000000000000000000000000000000\n" }
    ensures done { reply_lines (Reply.Done ∷ Reply.NotReady ∷ []) ≡ codes "ok\nnotready\n" }
    ensures flag { reply_lines (Reply.Flag true ∷ Reply.Flag false ∷ []) ≡ codes "true\nfalse\n" }
    ensures name { reply_line (Reply.Name (codes "utf-8")) ≡ codes "name utf-8\n" }
    ensures unwritten { reply_line (Reply.Unwritten (104 ∷ 105 ∷ []) (Some 3)) ≡ codes "detached 6869 3\n" }
    ensures unwritten_without_place { reply_line (Reply.Unwritten [] None) ≡ codes "detached - -\n" }
{}

/// Worked examples of the lines of refusals, computed from the definition.
pub fn examples_of_refusals()
    ensures plain { reply_line (Reply.Refused IoFault.Closed) ≡ codes "err Closed\n" }
    ensures one_number { reply_line (Reply.Refused (IoFault.WouldBlock 7)) ≡ codes "err WouldBlock 7\n" }
    ensures two_numbers { reply_line (Reply.Refused (IoFault.UnicodeDecodeError 2 3)) ≡ codes "err UnicodeDecodeError 2 3\n" }
    ensures dimension { reply_line (Reply.Refused (IoFault.IndexError 1)) ≡ codes "err IndexError 1\n" }
    ensures mode { reply_line (Reply.Refused (IoFault.ParseMode ParseModeError.InvalidMode)) ≡ codes "err InvalidMode\n" }
    ensures raw_mode { refused_line (IoFault.ModeText ModeError.BadRwa) ≡ codes "refused BadRwa\n" }
    ensures opening { refused_line IoFault.RawFault ≡ codes "refused RawFault\n" }
{}

/// Worked examples of what the words of a command line ask for, computed from the definition.
pub fn examples_of_commands()
    ensures no_options { command_of (words_of (codes "run f r")) ≡ Some (Run (codes "f") (codes "r")
        (record { buffering = negsuc 0; encoding = None; errors = None; newline = None; chunk_size = 8192 })) }
    ensures line_feed { command_of (words_of (codes "run f rr newline=0a")) ≡ Some (Run (codes "f") (codes "rr")
        (record { buffering = negsuc 0; encoding = None; errors = None; newline = Some (10 ∷ []); chunk_size = 8192 })) }
    ensures any_order { command_of (words_of (codes "run f r chunk=1 buffering=-1")) ≡ command_of (words_of (codes "run f r buffering=-1 chunk=1")) }
    ensures help { command_of (codes "--help" ∷ []) ≡ Some Help }
    ensures version { command_of (codes "--version" ∷ []) ≡ Some Version }
    ensures no_words { command_of [] ≡ None }
    ensures no_path { command_of (words_of (codes "run")) ≡ None }
    ensures no_mode { command_of (words_of (codes "run f")) ≡ None }
    ensures more_than_help { command_of (words_of (codes "--help x")) ≡ None }
    ensures other_word { command_of (words_of (codes "open f r")) ≡ None }
{}

/// Worked examples of well-formed options, computed from the definition.
pub fn examples_of_options()
    ensures empty_newline { option_map (λ args. args.newline) (arguments_of (words_of (codes "newline="))) ≡ Some (Some []) }
    ensures lower_case { option_map (λ args. args.newline) (arguments_of (words_of (codes "newline=c3a9"))) ≡ Some (Some (233 ∷ [])) }
    ensures upper_case { option_map (λ args. args.newline) (arguments_of (words_of (codes "newline=C3A9"))) ≡ Some (Some (233 ∷ [])) }
    ensures empty_name { option_map (λ args. args.encoding) (arguments_of (words_of (codes "encoding="))) ≡ Some (Some []) }
    ensures equals_in_name { option_map (λ args. args.errors) (arguments_of (words_of (codes "errors=a=b"))) ≡ Some (Some (codes "a=b")) }
    ensures zero { option_map (λ args. args.buffering) (arguments_of (words_of (codes "buffering=-0"))) ≡ Some (pos 0) }
    ensures least { option_map (λ args. args.buffering) (arguments_of (words_of (codes "buffering=-9223372036854775808"))) ≡ Some (negsuc 9223372036854775807) }
    ensures greatest { option_map (λ args. args.buffering) (arguments_of (words_of (codes "buffering=9223372036854775807"))) ≡ Some (pos 9223372036854775807) }
    ensures greatest_chunk { option_map (λ args. args.chunk_size) (arguments_of (words_of (codes "chunk=18446744073709551615"))) ≡ Some 18446744073709551615 }
    ensures two_options { option_map (λ args. args.chunk_size) (arguments_of (words_of (codes "buffering=-1 chunk=01"))) ≡ Some 1 }
{}

/// Worked examples of words that are no options, computed from the definition.
pub fn examples_of_no_options()
    ensures twice { arguments_of (words_of (codes "buffering=2 buffering=2")) ≡ None }
    ensures unknown { arguments_of (words_of (codes "colour=1")) ≡ None }
    ensures no_equals { arguments_of (words_of (codes "encoding")) ≡ None }
    ensures odd_hex { arguments_of (words_of (codes "newline=0")) ≡ None }
    ensures no_hex { arguments_of (words_of (codes "newline=0g")) ≡ None }
    ensures no_utf8 { arguments_of (words_of (codes "newline=ff")) ≡ None }
    ensures cut_utf8 { arguments_of (words_of (codes "newline=c3")) ≡ None }
    ensures too_large { arguments_of (words_of (codes "buffering=9223372036854775808")) ≡ None }
    ensures too_small { arguments_of (words_of (codes "buffering=-9223372036854775809")) ≡ None }
    ensures minus_alone { arguments_of (words_of (codes "buffering=-")) ≡ None }
    ensures two_minuses { arguments_of (words_of (codes "buffering=--1")) ≡ None }
    ensures plus { arguments_of (words_of (codes "buffering=+1")) ≡ None }
    ensures no_digits { arguments_of (words_of (codes "buffering=")) ≡ None }
    ensures negative_chunk { arguments_of (words_of (codes "chunk=-1")) ≡ None }
    ensures large_chunk { arguments_of (words_of (codes "chunk=18446744073709551616")) ≡ None }
{}

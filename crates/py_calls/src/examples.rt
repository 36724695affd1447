//! Worked examples of modes and plans.
//!
//! No function here does anything; what each ensures are examples of the definitions that the contracts cite.
ghost use Rattle.std.specs.Prelude.{◌≡◌, ◌+◌, ℕ, suc, pos, negsuc, Option, List, ◌∷◌, [], true, false, Some, None, Ok, Err, codes};
ghost use Rattle.py_flat.specs.declared.mode_error.ParseModeError.TheVariants.{InvalidMode, MultipleFile, MultipleEncode, NoFile};
ghost use Rattle.py_flat.specs.declared.fault.IoFault.TheVariants as fault;
ghost use Rattle.py_plain.specs.declared.newlines.Newlines.TheVariants as newlines;
ghost use Rattle.py_plain.specs.declared.encoding.Encoding.TheVariants as encoding;
ghost use Rattle.py_plain.specs.declared.handler.Handler.TheVariants as handler;
ghost use Rattle.py_raw.specs.RawMode.{raw_mode_text};
ghost use Rattle.py_calls.specs.declared.mode.FileMode.TheVariants as file;
ghost use Rattle.py_calls.specs.declared.mode.EncodeMode.TheVariants as encode;
ghost use Rattle.py_calls.specs.declared.open_args.OpenArgs.{OpenArgs};
ghost use Rattle.py_calls.specs.Mode.{mode_of, letter_of};
ghost use Rattle.py_calls.specs.OpenArgs.{default_args};
ghost use Rattle.py_calls.specs.declared.plan.PlanKind.TheVariants as kind;
ghost use Rattle.py_calls.specs.Names.{text_encoding};
ghost use Rattle.py_calls.specs.Plan.{settings_by, built_in_plan};

/// A mode has one of `r`, `w`, `x` and `a`, and its letters may stand in any order.
pub fn modes_are_taken_apart()
    ensures bytes_and_plus { mode_of (codes "rb+") ≡ Ok (record { file = file.Read; encode = encode.Bytes; plus = true }) }
    ensures any_order { mode_of (codes "+br") ≡ Ok (record { file = file.Read; encode = encode.Bytes; plus = true }) }
    ensures neither_t_nor_b { mode_of (codes "r+") ≡ Ok (record { file = file.Read; encode = encode.Text; plus = true }) }
    ensures text { mode_of (codes "at") ≡ Ok (record { file = file.Append; encode = encode.Text; plus = false }) }
    ensures raw_mode { raw_mode_text (letter_of file.Read) true ≡ codes "rb+" }
    ensures raw_mode_of_a_text { raw_mode_text (letter_of file.Append) false ≡ codes "ab" }
{}

/// The first letter that offends decides, and only where none does, the want of a file letter.
pub fn the_first_letter_that_offends_decides()
    ensures same_letter_twice { mode_of (codes "rr") ≡ Err InvalidMode }
    ensures second_file_letter { mode_of (codes "rw") ≡ Err MultipleFile }
    ensures unknown_letter_too_late { mode_of (codes "rwq") ≡ Err MultipleFile }
    ensures another_file_letter { mode_of (codes "ax") ≡ Err MultipleFile }
    ensures text_then_bytes { mode_of (codes "tb") ≡ Err MultipleEncode }
    ensures bytes_then_text { mode_of (codes "bt") ≡ Err MultipleEncode }
    ensures second_plus { mode_of (codes "r+b+") ≡ Err InvalidMode }
    ensures unknown_letter { mode_of (codes "q") ≡ Err InvalidMode }
    ensures unknown_letter_behind { mode_of (codes "rq") ≡ Err InvalidMode }
    ensures beyond_ascii { mode_of (0xc3 ∷ 0xa9 ∷ []) ≡ Err InvalidMode }
    ensures plus_alone { mode_of (codes "+") ≡ Err NoFile }
    ensures nothing { mode_of [] ≡ Err NoFile }
{}

/// A binary mode is opened with any buffer or none.
pub fn binary_modes_are_opened()
    ensures read { built_in_plan (codes "rb") default_args ≡ Ok (record { mode = record { file = file.Read; encode = encode.Bytes; plus = false }; kind = kind.Buffered 8192 }) }
    ensures unbuffered { built_in_plan (codes "wb") (record default_args { buffering = pos 0 }) ≡ Ok (record { mode = record { file = file.Write; encode = encode.Bytes; plus = false }; kind = kind.Bare }) }
    ensures one_is_the_default { built_in_plan (codes "xb") (record default_args { buffering = pos 1 }) ≡ Ok (record { mode = record { file = file.Exclusive; encode = encode.Bytes; plus = false }; kind = kind.Buffered 8192 }) }
    ensures any_size { (size : ℕ) → built_in_plan (codes "ab") (record default_args { buffering = pos (2 + size) }) ≡ Ok (record { mode = record { file = file.Append; encode = encode.Bytes; plus = false }; kind = kind.Buffered (2 + size) }) }
    ensures any_order { (args : OpenArgs) → built_in_plan (codes "br") args ≡ built_in_plan (codes "rb") args }
{}

/// A binary mode with a plus is opened with any buffer or none, but for one that appends.
pub fn bytes_are_read_and_written()
    ensures read_first { built_in_plan (codes "rb+") (record default_args { buffering = pos 0 }) ≡ Ok (record { mode = record { file = file.Read; encode = encode.Bytes; plus = true }; kind = kind.Bare }) }
    ensures made_empty { built_in_plan (codes "w+b") (record default_args { buffering = pos 0 }) ≡ Ok (record { mode = record { file = file.Write; encode = encode.Bytes; plus = true }; kind = kind.Bare }) }
    ensures made_new { built_in_plan (codes "+xb") (record default_args { buffering = pos 0 }) ≡ Ok (record { mode = record { file = file.Exclusive; encode = encode.Bytes; plus = true }; kind = kind.Bare }) }
    ensures with_the_default { built_in_plan (codes "rb+") default_args ≡ Ok (record { mode = record { file = file.Read; encode = encode.Bytes; plus = true }; kind = kind.Buffered 8192 }) }
    ensures with_any_size { (size : ℕ) → built_in_plan (codes "w+b") (record default_args { buffering = pos (2 + size) }) ≡ Ok (record { mode = record { file = file.Write; encode = encode.Bytes; plus = true }; kind = kind.Buffered (2 + size) }) }
    ensures any_order { (args : OpenArgs) → built_in_plan (codes "+bx") args ≡ built_in_plan (codes "xb+") args }
    ensures at_the_end { (args : OpenArgs) (more : ℕ) → built_in_plan (codes "ab+") (record default_args { buffering = args.buffering; chunk_size = suc more }) ≡ Err fault.Unsupported }
{}

/// A text is read through a buffer, with any of the newline arguments, and a `t` says no more than none.
pub fn a_text_is_read_through_a_buffer()
    ensures read { built_in_plan (codes "r") default_args ≡ Ok (record { mode = record { file = file.Read; encode = encode.Text; plus = false }; kind = kind.Text (record { buffer_size = 8192; coder = record { encoding = encoding.Utf8; errors = handler.Strict }; settings = settings_by default_args newlines.Universal }) }) }
    ensures same_with_t { (args : OpenArgs) → built_in_plan (codes "rt") args ≡ built_in_plan (codes "r") args }
    ensures unbuffered { built_in_plan (codes "r") (record default_args { newline = Some (10 ∷ []); buffering = pos 0 }) ≡ Err fault.BadArgument }
    ensures line_feed { built_in_plan (codes "r") (record default_args { newline = Some (10 ∷ []) }) ≡ Ok (record { mode = record { file = file.Read; encode = encode.Text; plus = false }; kind = kind.Text (record { buffer_size = 8192; coder = record { encoding = encoding.Utf8; errors = handler.Strict }; settings = settings_by default_args newlines.Lf }) }) }
    ensures empty { built_in_plan (codes "r") (record default_args { newline = Some [] }) ≡ Ok (record { mode = record { file = file.Read; encode = encode.Text; plus = false }; kind = kind.Text (record { buffer_size = 8192; coder = record { encoding = encoding.Utf8; errors = handler.Strict }; settings = settings_by default_args newlines.Passthrough }) }) }
    ensures another { built_in_plan (codes "r") (record default_args { newline = Some (10 ∷ 13 ∷ []) }) ≡ Err fault.BadArgument }
    ensures another_before_a_name { built_in_plan (codes "r") (record default_args { newline = Some (10 ∷ 13 ∷ []); encoding = Some (codes "latin-1") }) ≡ Err fault.BadArgument }
{}

/// A text is written through a buffer in each mode, and read too in those with a plus but for one that appends; with `buffering` 1 it is
/// flushed after each line.
pub fn a_text_is_written_through_a_buffer()
    ensures made_empty { built_in_plan (codes "w") default_args ≡ Ok (record { mode = record { file = file.Write; encode = encode.Text; plus = false }; kind = kind.Text (record { buffer_size = 8192; coder = record { encoding = encoding.Utf8; errors = handler.Strict }; settings = settings_by default_args newlines.Universal }) }) }
    ensures line_by_line { built_in_plan (codes "at") (record default_args { buffering = pos 1; newline = Some (13 ∷ 10 ∷ []) }) ≡ Ok (record { mode = record { file = file.Append; encode = encode.Text; plus = false }; kind = kind.Text (record { buffer_size = 8192; coder = record { encoding = encoding.Utf8; errors = handler.Strict }; settings = record { newline = newlines.Crlf; line_buffering = true; write_through = false; chunk_size = 8192 } }) }) }
    ensures read_too { built_in_plan (codes "r+") (record default_args { newline = Some (13 ∷ []) }) ≡ Ok (record { mode = record { file = file.Read; encode = encode.Text; plus = true }; kind = kind.Text (record { buffer_size = 8192; coder = record { encoding = encoding.Utf8; errors = handler.Strict }; settings = settings_by default_args newlines.Cr }) }) }
    ensures made_new { built_in_plan (codes "+tx") default_args ≡ Ok (record { mode = record { file = file.Exclusive; encode = encode.Text; plus = true }; kind = kind.Text (record { buffer_size = 8192; coder = record { encoding = encoding.Utf8; errors = handler.Strict }; settings = settings_by default_args newlines.Universal }) }) }
    ensures unbuffered { built_in_plan (codes "w") (record default_args { buffering = pos 0 }) ≡ Err fault.BadArgument }
{}

/// Whatever the arguments are, a malformed mode is refused as such.
pub fn a_mode_is_refused_before_any_argument()
    ensures same_letter_twice { (args : OpenArgs) → built_in_plan (codes "rr") args ≡ Err (fault.ParseMode InvalidMode) }
    ensures text_and_bytes { (args : OpenArgs) → built_in_plan (codes "rtb") args ≡ Err (fault.ParseMode MultipleEncode) }
    ensures nothing { (args : OpenArgs) → built_in_plan [] args ≡ Err (fault.ParseMode NoFile) }
{}

/// An argument that can't be had is refused as such, also with a mode that isn't opened.
pub fn an_argument_is_refused_before_what_is_not_opened()
    ensures newline { built_in_plan (codes "rb") (record default_args { newline = Some (10 ∷ []) }) ≡ Err fault.BadArgument }
    ensures newline_and_plus { built_in_plan (codes "rb+") (record default_args { newline = Some (10 ∷ []) }) ≡ Err fault.BadArgument }
    ensures empty_newline { built_in_plan (codes "rb") (record default_args { newline = Some [] }) ≡ Err fault.BadArgument }
    ensures encoding { (name : List ℕ) → built_in_plan (codes "wb") (record default_args { encoding = Some name }) ≡ Err fault.BadArgument }
    ensures errors { (name : List ℕ) → built_in_plan (codes "ab") (record default_args { errors = Some name }) ≡ Err fault.BadArgument }
    ensures no_chunk { built_in_plan (codes "r") (record default_args { newline = Some (10 ∷ []); chunk_size = 0 }) ≡ Err fault.BadArgument }
    ensures no_chunk_and_plus { (args : OpenArgs) → built_in_plan (codes "r+") (record args { chunk_size = 0 }) ≡ Err fault.BadArgument }
    ensures no_chunk_of_bytes { (args : OpenArgs) → built_in_plan (codes "rb") (record args { chunk_size = 0 }) ≡ Err fault.BadArgument }
{}

/// A text that appends with a plus isn't opened, whatever its newline text and its names are.
pub fn a_text_that_appends_is_not_read()
    ensures text_at_the_end { (encoding errors newline : Option (List ℕ)) (more : ℕ) → built_in_plan (codes "a+") (record { buffering = negsuc 0; encoding = encoding; errors = errors; newline = newline; chunk_size = suc more }) ≡ Err fault.Unsupported }
    ensures unbuffered { built_in_plan (codes "a+") (record default_args { buffering = pos 0 }) ≡ Err fault.BadArgument }
{}

/// A text has the codec and the handler that its names have, by a new registry; the encoding is missed before the handler, and both
/// after the newline text.
pub fn a_text_has_the_codec_and_the_handler_of_its_names()
    ensures another_encoding { built_in_plan (codes "w") (record default_args { encoding = Some (codes "latin-1") }) ≡ Ok (record { mode = record { file = file.Write; encode = encode.Text; plus = false }; kind = kind.Text (record { buffer_size = 8192; coder = record { encoding = encoding.Latin1; errors = handler.Strict }; settings = settings_by default_args newlines.Universal }) }) }
    ensures another_handler { built_in_plan (codes "r") (record default_args { encoding = Some (codes "UTF 16 LE"); errors = Some (codes "ignore") }) ≡ Ok (record { mode = record { file = file.Read; encode = encode.Text; plus = false }; kind = kind.Text (record { buffer_size = 8192; coder = record { encoding = encoding.Utf16Le; errors = handler.Ignore }; settings = settings_by default_args newlines.Universal }) }) }
    ensures locale { built_in_plan (codes "r") (record default_args { encoding = Some (codes "locale") }) ≡ built_in_plan (codes "r") default_args }
    ensures locale_to_the_letter { built_in_plan (codes "r") (record default_args { encoding = Some (codes "Locale") }) ≡ Err fault.UnknownEncoding }
    ensures written_alone { built_in_plan (codes "x") (record default_args { encoding = Some (codes "ascii"); errors = Some (codes "xmlcharrefreplace") }) ≡ Ok (record { mode = record { file = file.Exclusive; encode = encode.Text; plus = false }; kind = kind.Text (record { buffer_size = 8192; coder = record { encoding = encoding.Ascii; errors = handler.XmlCharRefReplace }; settings = settings_by default_args newlines.Universal }) }) }
    ensures read_too { built_in_plan (codes "x+") (record default_args { encoding = Some (codes "ascii"); errors = Some (codes "xmlcharrefreplace") }) ≡ Err fault.UnknownHandler }
    ensures no_encoding { built_in_plan (codes "r") (record default_args { encoding = Some (codes "koi8-r"); errors = Some (codes "Strict") }) ≡ Err fault.UnknownEncoding }
    ensures no_handler { built_in_plan (codes "r") (record default_args { errors = Some (codes "Strict") }) ≡ Err fault.UnknownHandler }
    ensures newline_first { (encoding errors : Option (List ℕ)) → built_in_plan (codes "r") (record default_args { encoding = encoding; errors = errors; newline = Some (codes "a") }) ≡ Err fault.BadArgument }
    ensures default_name { text_encoding None ≡ codes "utf-8" }
    ensures own_name { text_encoding (Some (codes "locale")) ≡ codes "locale" }
{}

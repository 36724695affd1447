ghost use Rattle.std.specs.Prelude.{◌≡◌, ◌∷◌, ◌++◌, [], Some, codes, replicate, pos};
ghost use Rattle.py_flat.specs.Calls.{Text, Count, Cookie};
ghost use Rattle.py_plain.specs.declared.encoding.Encoding.TheVariants.{Utf8, Latin1, Ascii, Utf16Le, Utf16Be};
ghost use Rattle.py_plain.specs.declared.handler.Handler.TheVariants.{Strict, Ignore, Replace, BackslashReplace};
ghost use Rattle.py_plain.specs.declared.newlines.Newlines.TheVariants as newline;
ghost use Rattle.py_plain_text.specs.TextCalls.{Read, WriteText, SeekText, Tell};
ghost use Rattle.py_plain_text.specs.TextExamples.{text_random, cookie_at, replies_of};

/// A text that was written is read back in each encoding, whatever stands behind it: a byte that begins no character, the second
/// half of a pair, an LF behind its CR.
#[tactic(auto, unfolding(py_plain::specs::Utf8::lead, py_plain::specs::Utf8::is_within, py_plain::specs::Utf16::is_high, py_plain::specs::Utf16::is_low, py_plain::specs::OneByte::is_ascii))]
pub fn written_texts_are_read_back()
    ensures utf_8 { replies_of (text_random Utf8 Strict newline.Lf (replicate 7 0 ++ 0xFF ∷ [])) (Tell ∷ WriteText (0xE9 ∷ 0x0A ∷ 0x1F600 ∷ []) ∷ SeekText (cookie_at 0) (pos 0) ∷ Read (Some 3) ∷ []) ≡ Cookie (cookie_at 0) ∷ Count 3 ∷ Cookie (cookie_at 0) ∷ Text (0xE9 ∷ 0x0A ∷ 0x1F600 ∷ []) ∷ [] }
    ensures latin_1 { replies_of (text_random Latin1 Replace newline.Passthrough (codes "..\n")) (Tell ∷ WriteText (0xE9 ∷ 0x0D ∷ []) ∷ SeekText (cookie_at 0) (pos 0) ∷ Read (Some 2) ∷ []) ≡ Cookie (cookie_at 0) ∷ Count 2 ∷ Cookie (cookie_at 0) ∷ Text (0xE9 ∷ 0x0D ∷ []) ∷ [] }
    ensures ascii { replies_of (text_random Ascii BackslashReplace newline.Lf (0x2E ∷ 0x2E ∷ 0xFF ∷ [])) (Tell ∷ WriteText (codes "a\n") ∷ SeekText (cookie_at 0) (pos 0) ∷ Read (Some 2) ∷ []) ≡ Cookie (cookie_at 0) ∷ Count 2 ∷ Cookie (cookie_at 0) ∷ Text (codes "a\n") ∷ [] }
    ensures utf_16_le { replies_of (text_random Utf16Le Strict newline.Lf (replicate 6 0 ++ 0x00 ∷ 0xDC ∷ [])) (Tell ∷ WriteText (0x61 ∷ 0x1F600 ∷ []) ∷ SeekText (cookie_at 0) (pos 0) ∷ Read (Some 2) ∷ []) ≡ Cookie (cookie_at 0) ∷ Count 2 ∷ Cookie (cookie_at 0) ∷ Text (0x61 ∷ 0x1F600 ∷ []) ∷ [] }
    ensures utf_16_be { replies_of (text_random Utf16Be Ignore newline.Passthrough (replicate 6 0 ++ 0xDC ∷ 0x00 ∷ [])) (Tell ∷ WriteText (0x61 ∷ 0x1F600 ∷ []) ∷ SeekText (cookie_at 0) (pos 0) ∷ Read (Some 2) ∷ []) ≡ Cookie (cookie_at 0) ∷ Count 2 ∷ Cookie (cookie_at 0) ∷ Text (0x61 ∷ 0x1F600 ∷ []) ∷ [] }
{}

/// What the laws leave out is read as it was written, and not as it was given: a character that was replaced, an LF that the rule
/// writes as CR LF, and a CR that the universal rule reads as LF, alone or before an LF.
#[tactic(auto, unfolding(py_plain::specs::Utf8::lead, py_plain::specs::Utf8::is_within, py_plain::specs::OneByte::is_ascii))]
pub fn other_texts_are_read_as_they_were_written()
    ensures replaced { replies_of (text_random Ascii Replace newline.Lf []) (WriteText (0xE9 ∷ []) ∷ SeekText (cookie_at 0) (pos 0) ∷ Read (Some 1) ∷ []) ≡ Count 1 ∷ Cookie (cookie_at 0) ∷ Text (codes "?") ∷ [] }
    ensures lf { replies_of (text_random Utf8 Strict newline.Crlf []) (WriteText (codes "a\n") ∷ SeekText (cookie_at 0) (pos 0) ∷ Read (Some 2) ∷ []) ≡ Count 2 ∷ Cookie (cookie_at 0) ∷ Text (codes "a\r") ∷ [] }
    ensures cr { replies_of (text_random Utf8 Strict newline.Universal []) (WriteText (codes "a\r") ∷ SeekText (cookie_at 0) (pos 0) ∷ Read (Some 2) ∷ []) ≡ Count 2 ∷ Cookie (cookie_at 0) ∷ Text (codes "a\n") ∷ [] }
    ensures cr_lf { replies_of (text_random Utf8 Strict newline.Universal []) (WriteText (codes "\r\na") ∷ SeekText (cookie_at 0) (pos 0) ∷ Read (Some 3) ∷ []) ≡ Count 3 ∷ Cookie (cookie_at 0) ∷ Text (codes "\na") ∷ [] }
{}

ghost use Rattle.std.specs.Prelude.{◌≡◌, ℕ, true, false, pos, List, [], ◌∷◌, length, Some, None};
ghost use Rattle.std.specs.List.{All};
ghost use Rattle.std.specs.Char.{IsScalar};
ghost use Rattle.py_flat.specs.declared.life.Life.TheVariants as life;
ghost use Rattle.py_flat.specs.Calls.{Text, Count, Cookie};
ghost use Rattle.py_plain.specs.declared.encoding.Encoding.{Encoding};
ghost use Rattle.py_plain.specs.Units.{Order, Unknown};
ghost use Rattle.py_plain.specs.Encode.{text_bytes};
ghost use Rattle.py_plain_text.specs.TextFile.{TextFile, clean_at};
ghost use Rattle.py_plain_text.specs.Rest.{text_rest};
ghost use Rattle.py_plain_text.specs.Cookie.{cookie_bytes};
ghost use Rattle.py_plain_text.specs.Telling.{placed, told};
ghost use Rattle.py_plain_text.specs.TextWriting.{written_bytes, written_refusal};
ghost use Rattle.py_plain_text.specs.TextCalls.{TextFileCall, Read, WriteText, SeekText, Tell};
ghost use Rattle.py_plain_text.specs.TextRefusals.{refusal};
ghost use Rattle.py_plain_text.specs.TextExact.{exact};
ghost use Rattle.py_plain_text.specs.TextExamples.{replies_of, text_after};
ghost use Rattle.py_plain_text.specs.CookieLaws.{StandsInText, LiesInReach};
ghost use Rattle.py_codec.specs.Laws.{writes_runs};
ghost use Rattle.py_text_laws.specs.Back.{only_move};
ghost use Rattle.py_text_laws.specs.Written.{NeedsNoHandler, has_all, is_kept, rest_behind};

/// A text that a file takes, written with no character that a handler had to replace, is what a reading of as many characters
/// from where it was written gives (`read`): in each encoding, whatever the handler is, what stood there and what stands behind
/// it. From there on the text is left, and then all that is left behind it (`rest`). By the newline arguments "\n" and "" that
/// holds of each text, by the others of one that they give back as it is (`is_kept`).
///
/// It does nothing: what it ensures is a law of the definitions.
pub fn a_written_text_is_read_back()
    ensures rest { (file : TextFile) (text : List ℕ) → NeedsNoHandler file.settings.encoding text → is_kept file.settings.newline text ≡ true → refusal file (WriteText text) ≡ None
        → (order : Order) → let after = (exact file (WriteText text)).1 in
        text_rest (placed after (clean_at file.place.at order)) ≡ rest_behind text (text_rest (placed after (clean_at after.place.at order))) }
    ensures read { (file : TextFile) (text : List ℕ) → NeedsNoHandler file.settings.encoding text → is_kept file.settings.newline text ≡ true → refusal file (WriteText text) ≡ None
        → file.can.readable ≡ true → (order : Order)
        → (exact (placed (exact file (WriteText text)).1 (clean_at file.place.at order)) (Read (Some (length text)))).0 ≡ Text text }
{}

/// The same by calls alone: a text that tells its place, is written, sought to what it told, and read by as many characters as
/// were written answers the cookie, the count of characters, the cookie again and the text that was written.
///
/// It does nothing: what it ensures is a law of the definitions.
pub fn a_written_text_is_sought_and_read()
    ensures { (file : TextFile) (text : List ℕ) → StandsInText file → LiesInReach file → file.place.order ≡ Unknown
        → file.can.readable ≡ true → file.can.seekable ≡ true → file.can.appending ≡ false
        → NeedsNoHandler file.settings.encoding text → is_kept file.settings.newline text ≡ true → refusal file (WriteText text) ≡ None
        → let cookie = cookie_bytes (told file) in
        replies_of file (Tell ∷ WriteText text ∷ SeekText cookie (pos 0) ∷ Read (Some (length text)) ∷ []) ≡ Cookie cookie ∷ Count (length text) ∷ Cookie cookie ∷ Text text ∷ [] }
{}

/// Which texts need no handler: each in an encoding that has all characters (`unicode`), and each that a handler which refuses
/// every run let through (`strict`). Such a text is refused for none of its characters (`accepted`), and is written as their own
/// bytes (`bytes`).
///
/// It does nothing: what it ensures is a law of the definitions.
pub fn texts_that_need_no_handler()
    ensures unicode { (encoding : Encoding) (text : List ℕ) → has_all encoding ≡ true → All IsScalar text → NeedsNoHandler encoding text }
    ensures strict { (file : TextFile) (text : List ℕ) → writes_runs file.settings.handler ≡ false → All IsScalar text → refusal file (WriteText text) ≡ None
        → NeedsNoHandler file.settings.encoding text }
    ensures accepted { (file : TextFile) (text : List ℕ) → NeedsNoHandler file.settings.encoding text → written_refusal file.settings text ≡ None }
    ensures bytes { (file : TextFile) (text : List ℕ) → NeedsNoHandler file.settings.encoding text → is_kept file.settings.newline text ≡ true
        → text_bytes file.settings.encoding text ≡ Some (written_bytes file.settings text) }
{}

/// A cookie that a text told brings back what was left then, whatever was read, sought, flushed or asked in between, as long as its bytes, its
/// settings and its life stay: the answer is that cookie (`reply`), and the same is left (`rest`). It holds of every place that calls leave a
/// text in, behind cookies that nobody told too.
///
/// It does nothing: what it ensures is a law of the definitions.
pub fn a_cookie_brings_back_the_rest()
    ensures reply { (file : TextFile) (between : List TextFileCall) → StandsInText file → LiesInReach file → file.life ≡ life.Live
        → file.can.seekable ≡ true → file.can.appending ≡ false → file.place.order ≡ Unknown → only_move between ≡ true
        → (exact (text_after file between) (SeekText (cookie_bytes (told file)) (pos 0))).0 ≡ Cookie (cookie_bytes (told file)) }
    ensures rest { (file : TextFile) (between : List TextFileCall) → StandsInText file → LiesInReach file → file.life ≡ life.Live
        → file.can.seekable ≡ true → file.can.appending ≡ false → file.place.order ≡ Unknown → only_move between ≡ true
        → text_rest (exact (text_after file between) (SeekText (cookie_bytes (told file)) (pos 0))).1 ≡ text_rest file }
{}

ghost use Rattle.std.specs.Prelude.{◌≡◌, ◌≤◌, ℕ, Bool, true, false, pos, List, find, Some};
ghost use Rattle.std.specs.List.{Contains};
ghost use Rattle.py_flat.specs.declared.life.Life.TheVariants as life;
ghost use Rattle.py_flat.specs.Calls.{FileReply, Cookie};
ghost use Rattle.py_flat.specs.BinaryStep.{is_live, IsFrontOf};
ghost use Rattle.py_plain.specs.Units.{Order, Unknown};
ghost use Rattle.py_plain.specs.Handlers.{reads_texts};
ghost use Rattle.py_plain_text.specs.TextFile.{TextFile, clean_at};
ghost use Rattle.py_plain_text.specs.Rest.{rest_to, text_rest, LiesInBytes, with_more};
ghost use Rattle.py_plain_text.specs.TextCalls.{TextFileCall, SeekText};
ghost use Rattle.py_plain_text.specs.TextExact.{exact};
ghost use Rattle.py_plain_text.specs.TextAllowed.{TextFileStep};
ghost use Rattle.py_plain_text.specs.PlainSteps.{PlainStep};
ghost use Rattle.py_plain_text.specs.Cookie.{built, cookie_bytes, parsed};
ghost use Rattle.py_plain_text.specs.CookieView.{cookie_shown};
ghost use Rattle.py_plain_text.specs.Landing.{start_of, fed_by, skips, is_restorable, lands};
ghost use Rattle.py_plain_text.specs.Telling.{placed, gives_rest, boundaries, told};
ghost use Rattle.py_plain_text.specs.TextExamples.{text_after};
ghost use Rattle.py_plain_text.specs.CookieLaws.{GivesBack, StandsInText, LiesInReach};

use crate::TextIOCookie;

/// What a call of the plain text does is what a call of any text may do where its raw neither waits nor fails.
///
/// It does nothing: what it ensures is a law of the definitions.
pub fn plain_steps()
    ensures { (before : TextFile) (call : TextFileCall) (reply : FileReply) (after : TextFile) → PlainStep before call reply after
        → TextFileStep before call reply false false after }
{}

/// The bytes that a cookie is built as are parsed as that cookie, whatever its fields are.
///
/// It does nothing: what it ensures is a law of the definitions.
pub fn built_cookies_are_parsed(cookie: TextIOCookie)
    ensures { (bytes : List ℕ) → built (cookie_shown cookie) ≡ Some bytes
        → parsed bytes ≡ Some (cookie_shown cookie) }
{}

/// Where a boundary between items gives the rest of a text, the cookie that tells its place puts it back so that it has the
/// same left.
///
/// It does nothing: what it ensures is a law of the definitions.
pub fn told_boundaries_give_the_rest()
    ensures { (file : TextFile) (boundary : ℕ) → find (gives_rest file) (boundaries file) ≡ Some boundary
        → GivesBack file (lands file (told file)) }
{}

/// The cookie that tells the place of a text puts it back so that it has the same left. It feeds four bytes at most, and skips only
/// inside the one item that these bytes are; of a text that is read it stands no further than any boundary between items that gives what is
/// left, and skips nothing where there is one. Where the text lies no further than a stream can stand, it is built as its bytes, which are
/// parsed as it.
///
/// It does nothing: what it ensures is a law of the definitions.
pub fn told_places_give_the_rest()
    ensures back { (file : TextFile) → StandsInText file → GivesBack file (lands file (told file)) }
    ensures few { (file : TextFile) → StandsInText file → fed_by (told file) ≤ 4 }
    ensures inside { (file : TextFile) → StandsInText file → skips (told file) ≡ true → is_restorable file (told file) ≡ true }
    ensures least { (file : TextFile) → StandsInText file → file.can.readable ≡ true → (boundary : ℕ) → Contains (boundaries file) boundary → gives_rest file boundary ≡ true
        → (start_of (told file) ≤ boundary) × (skips (told file) ≡ false) }
    ensures built { (file : TextFile) → StandsInText file → LiesInReach file → built (told file) ≡ Some (cookie_bytes (told file)) }
    ensures parsed { (file : TextFile) → StandsInText file → LiesInReach file → parsed (cookie_bytes (told file)) ≡ Some (told file) }
{}

/// A live text that can be moved, in an encoding without a mark, is sought to the cookie that it tells: the answer is that cookie again, and
/// the same is left.
///
/// It does nothing: what it ensures is a law of the definitions.
pub fn a_text_is_sought_back_to_where_it_told()
    ensures reply { (file : TextFile) → StandsInText file → LiesInReach file → file.life ≡ life.Live → file.can.seekable ≡ true → file.can.appending ≡ false → file.place.order ≡ Unknown
        → (exact file (SeekText (cookie_bytes (told file)) (pos 0))).0 ≡ Cookie (cookie_bytes (told file)) }
    ensures rest { (file : TextFile) → StandsInText file → LiesInReach file → file.life ≡ life.Live → file.can.seekable ≡ true → file.can.appending ≡ false → file.place.order ≡ Unknown
        → text_rest (exact file (SeekText (cookie_bytes (told file)) (pos 0))).1 ≡ text_rest file }
{}

/// A text at a byte stands in a place that its cookie gives back, where it is read by one of the handlers of texts that are read; and each
/// call leaves a text in such a place, a seek to a cookie that nobody told among them: over any raw, as long as it is live. No encoding has
/// a mark so far, so that no call says an order of its bytes.
///
/// It does nothing: what it ensures is a law of the definitions.
pub fn calls_leave_texts_where_cookies_tell()
    ensures opened { (file : TextFile) → (file.can.readable ≡ true → reads_texts file.settings.handler ≡ true)
        → (place : ℕ) (order : Order) → StandsInText (placed file (clean_at place order)) }
    ensures exact { (file : TextFile) (call : TextFileCall) → StandsInText file → StandsInText (exact file call).1 }
    ensures order { (file : TextFile) (call : TextFileCall) → file.place.order ≡ Unknown → (exact file call).1.place.order ≡ Unknown }
    ensures step { (before : TextFile) (call : TextFileCall) (reply : FileReply) (waited faulted : Bool) (after : TextFile) → StandsInText before
        → TextFileStep before call reply waited faulted after → is_live after.life ≡ true → StandsInText after }
    ensures runs { (file : TextFile) (calls : List TextFileCall) → StandsInText file → StandsInText (text_after file calls) }
{}

/// What is surely left of a text that stands within its bytes is left whatever bytes come behind them, by each of the five handlers of
/// texts that are read: its characters are a front of those that are left then, and the range that it refuses is refused then.
///
/// It does nothing: what it ensures is a law of the definitions.
pub fn what_is_surely_left_stays()
    ensures characters { (file : TextFile) (more : List ℕ) (last : Bool) → reads_texts file.settings.handler ≡ true → LiesInBytes file
        → IsFrontOf (rest_to false file).characters (rest_to last (with_more file more)).characters }
    ensures refusal { (file : TextFile) (more : List ℕ) (last : Bool) → reads_texts file.settings.handler ≡ true → LiesInBytes file
        → (range : ℕ × ℕ) → (rest_to false file).refusal ≡ Some range → (rest_to last (with_more file more)).refusal ≡ Some range }
{}

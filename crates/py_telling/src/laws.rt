ghost use Rattle.std.specs.Prelude.{◌≡◌, ◌≤◌, ◌<◌, ℕ, Bool, true, List, length, find, Some, None};
ghost use Rattle.py_plain.specs.Units.{Unknown};
ghost use Rattle.py_plain.specs.Handlers.{reads_texts};
ghost use Rattle.py_plain.specs.Items.{Item};
ghost use Rattle.py_plain_text.specs.TextFile.{Front, TextFile};
ghost use Rattle.py_plain_text.specs.CookieLaws.{IsFront};
ghost use Rattle.py_plain_text.specs.Telling.{effective_order, placed, gives_rest, boundaries, front_left, inside_front, inside_cookie, told};
ghost use Rattle.py_telling.specs.Spots.{spot_cookie};
ghost use Rattle.py_telling.specs.Bases.{given_since, GoesOnFrom, behind_front, front_spot};

/// What is told from a base is what is told from the text's own place: a text that counts the characters that were given since a later
/// byte, a boundary between its items, tells what it would tell by all that were given since it was put where it was put last.
///
/// It does nothing: what it ensures is a law of the definitions.
pub fn told_from_a_base()
    ensures { (file : TextFile) (base given : ℕ) (items : List Item) (dirty : Bool) → GoesOnFrom base given items file
        → told file ≡ told (placed file (given_since base given dirty)) }
{}

/// A text that was put inside an item, of which the front is what is left: where all of the front was taken, the text tells what it tells
/// without it, by the characters that were taken behind it; and where less was taken, no boundary gives what is left, and it tells that
/// item, with the characters that were skipped and those that were taken.
///
/// It does nothing: what it ensures is a law of the definitions.
pub fn told_behind_a_front()
    ensures behind { (file : TextFile) (front : Front) → file.place.front ≡ Some front → length (front_left file front) ≤ file.place.taken
        → told file ≡ told (placed file (behind_front file front)) }
    ensures none { (file : TextFile) (front : Front) → reads_texts file.settings.handler ≡ true → file.place.front ≡ Some front
        → file.place.taken < length (front_left file front) → find (gives_rest file) (boundaries file) ≡ None }
    ensures inside { (file : TextFile) (front : Front) → reads_texts file.settings.handler ≡ true → file.place.front ≡ Some front
        → file.place.taken < length (front_left file front) → told file ≡ inside_cookie (effective_order file) (inside_front file front) }
    ensures spot { (file : TextFile) (front : Front) → reads_texts file.settings.handler ≡ true → file.place.order ≡ Unknown → IsFront file front
        → file.place.front ≡ Some front → file.place.taken < length (front_left file front) → told file ≡ spot_cookie (front_spot file front) }
{}

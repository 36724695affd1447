ghost use Rattle.std.specs.Prelude.{◌≡◌, ◌≤◌, ◌++◌, ℕ, Bool, true, List, length, take, Some};
ghost use Rattle.std.specs.List.{All};
ghost use Rattle.std.specs.Char.{IsScalar, encode_utf8};
ghost use Rattle.py_plain.specs.declared.encoding.Encoding.{Encoding};
ghost use Rattle.py_plain.specs.declared.handler.Handler.{Handler};
ghost use Rattle.py_plain.specs.declared.unit.Unit.{Unit as Read};
ghost use Rattle.py_plain.specs.declared.unit.Unit.TheVariants.{Character, Malformed, Cut};
ghost use Rattle.py_plain.specs.Utf8.{utf8_unit};
ghost use Rattle.py_plain.specs.Units.{Order, first_unit};
ghost use Rattle.py_plain.specs.Handlers.{treatment, reads_texts};
ghost use Rattle.py_plain.specs.Items.{walk_from};
ghost use Rattle.py_plain.specs.Alone.{DecodesAlone};
ghost use Rattle.py_plain.specs.Encode.{own_bytes};
ghost use Rattle.py_plain.specs.UnitLaws.{IsUtf8Long, AreBytes};

/// A unit of UTF-8 is a character exactly where the bytes begin with that character's own bytes, and a range that is
/// no character has one to three bytes, no more than are left.
///
/// It does nothing: what it ensures is a law of the definitions.
pub fn utf8_units()
    ensures characters { (bytes : List ℕ) (c n : ℕ) → utf8_unit bytes ≡ Some (Character c n)
        → IsScalar c × (take n bytes ≡ encode_utf8 c) }
    ensures encoded { (c : ℕ) (rest : List ℕ) → IsScalar c
        → utf8_unit (encode_utf8 c ++ rest) ≡ Some (Character c (length (encode_utf8 c))) }
    ensures within { (bytes : List ℕ) (unit : Read) → utf8_unit bytes ≡ Some unit
        → IsUtf8Long unit (length bytes) }
{}

/// In every encoding the bytes that a character is written as are read as that character, whatever stands after them,
/// and bytes that are read as a character are those that it is written as.
///
/// It does nothing: what it ensures is a law of the definitions.
pub fn characters_and_their_bytes()
    ensures written { (encoding : Encoding) (order : Order) (at_start : Bool) (c : ℕ) (bytes rest : List ℕ) → IsScalar c → own_bytes encoding c ≡ Some bytes
        → first_unit encoding order at_start (bytes ++ rest) ≡ Some (Character c (length bytes)) }
    ensures read { (encoding : Encoding) (order : Order) (at_start : Bool) (bytes : List ℕ) (c n : ℕ) → AreBytes bytes → first_unit encoding order at_start bytes ≡ Some (Character c n)
        → IsScalar c × (own_bytes encoding c ≡ Some (take n bytes)) }
{}

/// Each item of a decoding is all that its own bytes decode to alone, in the order that it was read in, with nothing
/// after them: wherever in a stream they stand, and under each of the five handlers of texts that are read.
///
/// It does nothing: what it ensures is a law of the definitions.
pub fn items_decode_alone()
    ensures { (handler : Handler) (encoding : Encoding) → reads_texts handler ≡ true → (last : Bool) (order : Order) (place : ℕ) (bytes : List ℕ)
        → All (DecodesAlone encoding (treatment handler encoding) place bytes) (walk_from encoding (treatment handler encoding) last order place 0 bytes).items }
{}

ghost use Rattle.std.specs.Prelude.{◌≡◌, ℕ, Bool, true, List, length, take, Some, Ok};
ghost use Rattle.std.specs.List.{All};
ghost use Rattle.std.specs.Char.{IsScalar};
ghost use Rattle.py_plain.specs.declared.encoding.Encoding.{Encoding};
ghost use Rattle.py_plain.specs.declared.handler.Handler.{Handler};
ghost use Rattle.py_plain.specs.declared.handler.Handler.TheVariants.{Strict};
ghost use Rattle.py_plain.specs.UnitLaws.{AreBytes};
ghost use Rattle.py_plain.specs.Encode.{Written, encode_treatment, text_bytes};
ghost use Rattle.py_codec.specs.declared.handler_ref.HandlerRef.{HandlerRef};
ghost use Rattle.py_codec.specs.declared.handler_ref.HandlerRef.TheVariants.{Builtin};
ghost use Rattle.py_codec.specs.Decoding.{walk_by, decoding_by};
ghost use Rattle.py_codec.specs.Encoding.{encoding_by};
ghost use Rattle.py_codec.specs.Laws.{came_past, bytes_of_items, writes_runs};

use crate::ErrorHandler;

/// A text whose characters an encoding all has is encoded as their bytes, whatever the handler (`written`), and those
/// bytes decode to the text (`read`). What is encoded strictly are the bytes of the text (`strict`), and the bytes that
/// are decoded strictly are those of their text (`back`).
///
/// It does nothing: what it ensures is a law of the definitions.
pub fn a_text_encodes_and_decodes_back<H: ErrorHandler>()
    ensures written { (errors : HandlerRef H) (encoding : Encoding) (text bytes : List ℕ)
        → text_bytes encoding text ≡ Some bytes
        → encoding_by H.encodes errors encoding text ≡ Ok (bytes, length text) }
    ensures read { (errors : HandlerRef H) (encoding : Encoding) (text bytes : List ℕ)
        → All IsScalar text → text_bytes encoding text ≡ Some bytes
        → (last : Bool) → decoding_by H.decodes errors encoding last bytes ≡ Ok (text, length bytes) }
    ensures strict { (encoding : Encoding) (text bytes : List ℕ) (count : ℕ)
        → encoding_by H.encodes (Builtin Strict) encoding text ≡ Ok (bytes, count)
        → text_bytes encoding text ≡ Some bytes }
    ensures back { (encoding : Encoding) (last : Bool) (bytes text : List ℕ) (used : ℕ) → AreBytes bytes
        → decoding_by H.decodes (Builtin Strict) encoding last bytes ≡ Ok (text, used)
        → text_bytes encoding text ≡ Some (take used bytes) }
{}

/// No byte is lost: the bytes of a decoding's items, joined, are all bytes up to where it came, under every handler.
///
/// It does nothing: what it ensures is a law of the definitions.
pub fn no_byte_is_lost<H: ErrorHandler>()
    ensures { (errors : HandlerRef H) (encoding : Encoding) (last : Bool) (bytes : List ℕ)
        → let walk = walk_by H.decodes errors encoding last bytes in
        bytes_of_items 0 bytes walk.items ≡ take (came_past bytes walk.ending) bytes }
{}

/// What the handlers ignore, replace, xmlcharrefreplace and backslashreplace give for a run can always be written, in
/// every encoding (`given`), so that an encoding by them refuses no text (`encoded`).
///
/// It does nothing: what it ensures is a law of the definitions.
pub fn four_handlers_write_every_text<H: ErrorHandler>()
    ensures given { (handler : Handler) → writes_runs handler ≡ true
        → (encoding : Encoding) (place : ℕ) (rest : List ℕ) (size : ℕ)
        → (bytes : List ℕ) × (encode_treatment handler encoding place rest size ≡ Written bytes size) }
    ensures encoded { (handler : Handler) → writes_runs handler ≡ true → (encoding : Encoding) (text : List ℕ)
        → (bytes : List ℕ) × (encoding_by H.encodes (Builtin handler) encoding text ≡ Ok (bytes, length text)) }
{}

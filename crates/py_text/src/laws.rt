ghost use Rattle.std.specs.Prelude.{◌≡◌, ◌++◌, ℕ, Bool, false, true, List};
ghost use Rattle.py_flat.specs.Lines.{joined};
ghost use Rattle.py_plain.specs.declared.newlines.Newlines.{Newlines as Rule};
ghost use Rattle.py_plain.specs.NewlineRule.{read_so_far, holds_after, translated};
ghost use Rattle.py_text.specs.NewlinePieces.{fresh, text_with, after_piece, texts_of, after_pieces};

/// What a decoder answers to pieces one after another is what the newline rule gives of the pieces joined, wherever they
/// are cut.
///
/// `so_far`: the texts of some pieces, while more may come, are what the rule gives so far of them joined. `held`: a CR is
/// held after them exactly where the rule holds one after them joined. `whole`: with a last piece's text they are the
/// newline rule's text of all pieces joined. `fresh`: after a last piece the decoder is as one that has read nothing.
///
/// It does nothing: what it ensures is a law of the definitions.
pub fn newline_pieces_read_as_one()
    ensures so_far { (newline : Rule) (pieces : List (List ℕ))
        → texts_of (fresh newline) pieces ≡ read_so_far newline false (joined pieces) }
    ensures held { (newline : Rule) (pieces : List (List ℕ))
        → (after_pieces (fresh newline) pieces).held ≡ holds_after newline false (joined pieces) }
    ensures whole { (newline : Rule) (pieces : List (List ℕ)) (final : List ℕ)
        → texts_of (fresh newline) pieces ++ text_with (after_pieces (fresh newline) pieces) true final
        ≡ translated newline (joined pieces ++ final) }
    ensures fresh { (newline : Rule) (pieces : List (List ℕ)) (final : List ℕ)
        → after_piece (after_pieces (fresh newline) pieces) true final ≡ fresh newline }
{}

ghost use Rattle.std.specs.Prelude.{◌≡◌, ℕ, true, Bool, List, ◌++◌};
ghost use Rattle.std.specs.List.{concat};
ghost use Rattle.py_plain.specs.declared.encoding.Encoding.{Encoding};
ghost use Rattle.py_plain.specs.declared.handler.Handler.{Handler};
ghost use Rattle.py_plain.specs.Units.{Order};
ghost use Rattle.py_plain.specs.Handlers.{Treatment, treatment, reads_texts};
ghost use Rattle.py_plain.specs.Pieces.{LooksAtRange, walk_at, in_two, in_pieces};

/// Decoding pieces one after another and then the last one is decoding them joined, wherever they are cut: the same
/// items, and the same refused range. After each piece the bytes of a sequence that its end cuts are kept for the next.
///
/// It holds in every encoding of each treatment that looks at nothing but the refused range, as those of the five
/// handlers of texts that are read do. It does nothing: what it ensures is a law of the definitions.
pub fn pieces_decode_as_one()
    ensures two { (encoding : Encoding) (treat : Treatment) → LooksAtRange treat → (last : Bool) (order : Order) (place : ℕ) (front rest : List ℕ)
        → in_two encoding treat last order place front rest ≡ walk_at encoding treat last order place (front ++ rest) }
    ensures many { (encoding : Encoding) (treat : Treatment) → LooksAtRange treat → (order : Order) (place : ℕ) (kept : List ℕ) (pieces : List (List ℕ)) (final : List ℕ)
        → in_pieces encoding treat order place kept pieces final ≡ walk_at encoding treat true order place (kept ++ (concat pieces ++ final)) }
    ensures reading { (handler : Handler) (encoding : Encoding) → reads_texts handler ≡ true → LooksAtRange (treatment handler encoding) }
{}

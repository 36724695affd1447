ghost use Rattle.std.specs.Prelude.{◌≡◌, ◌+◌, ◌≤◌, ◌++◌, ℕ, Bool, false, true, List, [], ◌∷◌, length, drop, Ok, Err};
ghost use Rattle.py_flat.specs.declared.fault.IoFault.TheVariants.{UnicodeDecodeError};
ghost use Rattle.py_plain.specs.Handlers.{reads_texts};
ghost use Rattle.py_incremental.specs.Incremental.{DecoderView, decoding_with, holding};
ghost use Rattle.py_incremental.specs.Pieces.{Fed, pieces_of, texts_of, FedRun, bytes_behind, used_up};

/// What a decoder answers to pieces one after another is what it answers to the pieces joined, wherever they are cut.
///
/// While no piece was refused: `so_far` says it of the texts of the pieces and of what is held after them, `whole` of a
/// last piece too. `refused`: a refusal after the pieces is that of one call with all bytes, at the first range that
/// the handler refuses, in bytes from the first that the decoder had. `refused_for_good`: one that comes while more bytes
/// may come is so whatever bytes would have come after. `held`: what is held is the end of the bytes that the decoder
/// has had. `short`: it is at most three bytes, where it was before. `none`: it is nothing after a last piece.
/// `order`: as none of these encodings has a mark, the order stays as it was.
///
/// It does nothing: what it ensures is a law of the definitions.
pub fn a_decoder_reads_the_pieces_joined()
    ensures so_far { (before after : DecoderView) (first : Fed) (run : List Fed)
        → reads_texts before.handler ≡ true → FedRun before (first ∷ run) after
        → let pieces = pieces_of (first ∷ run) in
        let used = used_up before (first ∷ run) after in
        (decoding_with before false pieces ≡ Ok (texts_of (first ∷ run), used)) × (after ≡ holding before false pieces used) }
    ensures whole { (before after : DecoderView) (run : List Fed) (final text : List ℕ) (used : ℕ)
        → reads_texts before.handler ≡ true → FedRun before run after
        → decoding_with after true final ≡ Ok (text, used)
        → let total = length (bytes_behind before run ++ final) in
        decoding_with before true (pieces_of run ++ final) ≡ Ok (texts_of run ++ text, total) }
    ensures refused { (before after : DecoderView) (run : List Fed) (last : Bool) (piece : List ℕ) (start end : ℕ)
        → reads_texts before.handler ≡ true → FedRun before run after
        → decoding_with after last piece ≡ Err (UnicodeDecodeError start end)
        → let gone = used_up before run after in
        decoding_with before last (pieces_of run ++ piece) ≡ Err (UnicodeDecodeError (gone + start) (gone + end)) }
    ensures refused_for_good { (before after : DecoderView) (run : List Fed) (piece : List ℕ) (start end : ℕ)
        → reads_texts before.handler ≡ true → FedRun before run after
        → decoding_with after false piece ≡ Err (UnicodeDecodeError start end)
        → (last : Bool) (more : List ℕ)
        → let gone = used_up before run after in
        let all = pieces_of run ++ (piece ++ more) in
        decoding_with before last all ≡ Err (UnicodeDecodeError (gone + start) (gone + end)) }
    ensures held { (before after : DecoderView) (run : List Fed) → FedRun before run after
        → after.held ≡ drop (used_up before run after) (bytes_behind before run) }
    ensures short { (before after : DecoderView) (run : List Fed) → length before.held ≤ 3 → FedRun before run after
        → length after.held ≤ 3 }
    ensures order { (before : DecoderView) (last : Bool) (piece : List ℕ) (used : ℕ)
        → (holding before last piece used).order ≡ before.order }
    ensures none { (before : DecoderView) (final text : List ℕ) (used : ℕ)
        → decoding_with before true final ≡ Ok (text, used) → (holding before true final used).held ≡ [] }
{}

//! What follows for texts over any buffered stream.
ghost use Rattle.std.specs.Prelude.{◌≡◌, ◌≢◌, ℕ, List, Option};
ghost use Rattle.py_flat.specs.declared.life.Life.TheVariants as life;
ghost use Rattle.py_flat.specs.Calls.{FileReply};
ghost use Rattle.py_plain_text.specs.TextFile.{TextFile};
ghost use Rattle.py_plain_text.specs.TextCalls.{TextFileCall, Read, ReadLine};
ghost use Rattle.py_plain_text.specs.TextExact.{exact, with_chunk_size};
ghost use Rattle.py_read_text.specs.TextState.{TextState};
ghost use Rattle.py_textio.specs.Sizes.{AreAlike, AnswersAll};

/// No answer of a text hangs on the size of its chunks or of its buffer: two texts over any buffers, which stand for the same file but for
/// the chunk size, answer every list of calls alike, and leave files that are alike so, where the raws tell, none of their counts rose, no
/// call ran out of memory, and the texts hadn't failed; whatever their buffers hold and their raws move.
///
/// In the model what a text answers to a reading, and what that leaves of it, hangs on no chunk size.
pub fn no_answer_hangs_on_the_sizes()
    ensures texts { (one other : TextState) (calls : List TextFileCall) (replies others : List FileReply) (left right : TextState) → AreAlike one other → one.text.life ≢ life.Failed → AnswersAll one calls replies left → AnswersAll other calls others right → (others ≡ replies) × AreAlike left right }
    ensures read { (file : TextFile) (chunk : ℕ) (size : Option ℕ) → (exact (with_chunk_size file chunk) (Read size)).0 ≡ (exact file (Read size)).0 }
    ensures line { (file : TextFile) (chunk : ℕ) (limit : Option ℕ) → (exact (with_chunk_size file chunk) (ReadLine limit)).0 ≡ (exact file (ReadLine limit)).0 }
    ensures read_leaves { (file : TextFile) (chunk : ℕ) (size : Option ℕ) → (exact (with_chunk_size file chunk) (Read size)).1 ≡ with_chunk_size (exact file (Read size)).1 chunk }
    ensures line_leaves { (file : TextFile) (chunk : ℕ) (limit : Option ℕ) → (exact (with_chunk_size file chunk) (ReadLine limit)).1 ≡ with_chunk_size (exact file (ReadLine limit)).1 chunk }
{}

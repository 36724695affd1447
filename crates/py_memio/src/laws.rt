//! What holds over all calls of streams in memory.
ghost use Rattle.std.specs.Prelude.{◌≡◌, ℕ, true, List, length};
ghost use Rattle.py_flat.specs.Calls.{FileCall, FileReply};
ghost use Rattle.py_flat.specs.FlatFile.{FlatFile};
ghost use Rattle.py_memio.specs.InMemory.{AnswersInMemory};
ghost use Rattle.py_memio.specs.BytesIO.{BytesView, with_bytes};

/// While bytes are lent out no call changes how many there are. What is written into the lent ones is what the stream has afterwards, as many
/// as before.
pub fn lent_bytes_keep_their_number()
    ensures calls { (before : FlatFile) (call : FileCall) (reply : FileReply) (after : FlatFile) → AnswersInMemory true before call reply after → length after.bytes ≡ length before.bytes }
    ensures writes { (view : BytesView) (bytes : List ℕ) → length bytes ≡ length view.file.bytes → (with_bytes view bytes).file.bytes ≡ bytes }
    ensures number { (view : BytesView) (bytes : List ℕ) → length (with_bytes view bytes).file.bytes ≡ length view.file.bytes }
{}

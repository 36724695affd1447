ghost use Rattle.std.specs.Prelude.{◌≡◌, ◌==◌, map, IfOk};
ghost use Rattle.std.specs.List.{slice_split};

use std::alloc::{AllocError, Global};

/// The pieces of some bytes that are cut at each byte of one kind; `Err` when out of memory.
pub(crate) fn pieces(alloc: Global, bytes: &[u8], at: u8) -> Result<Vec<&[u8]>, AllocError>
    ensures { IfOk result (λ pieces. map (λ piece. piece.now) pieces.items ≡ slice_split (λ byte. byte == at) bytes.now) }
{
    bytes.split(|byte| *byte == at).collect(alloc)
}

//! Space for a reading into a buffer.
ghost use Rattle.py_binary.specs.Space.{SpaceFor};

use py_raw::Life;
use std::alloc::Global;

/// Space for a reading into a buffer of some size.
#[derive(Debug, Drop)]
pub(crate) enum Space {
    /// So many bytes.
    Taken(Vec<u8>),
    /// There was no memory for them.
    Lacking,
    /// The stream refuses the reading, by its life or since it isn't read: there is none.
    Unasked,
}

/// Space of this size, for a stream that is read or not, and of this life.
pub(crate) fn space_for(alloc: Global, reads: bool, life: Life, size: usize) -> Space
    ensures { SpaceFor result reads life size }
{
    match life {
        Life::Live if reads => match vec![in alloc; 0u8; size] {
            Ok(buffer) => Space::Taken(buffer),
            Err(_) => Space::Lacking,
        },
        _ => Space::Unasked,
    }
}

//! Python's buffer protocol: what a list of bytes holds, as items in dimensions, and the arguments that ask for bytes.
//!
//! A descriptor says where the items lie, by a shape, a stride and a suboffset for each dimension. Its segments are the
//! ranges of bytes that hold them, in row order (`specs/Segments.antt`). Buffers are lent or owned bytes with a
//! descriptor that doesn't leave them, and the arguments lend the bytes of a buffer that is contiguous.
#![tactic(auto)]

mod arguments;
mod buffer;
mod buffer_mut;
mod descriptor;
mod laws;
mod lent;
mod measures;
mod memory_argument;
mod owned;
mod position;
mod segments;
mod step;
mod walk;
mod writing;

pub use arguments::{ArgAsciiBuffer, ArgBytesLike, ArgFault, ArgStrOrBytesLike, try_bytes_like};
pub use buffer::PyBuffer;
pub use buffer_mut::PyBufferMut;
pub use descriptor::BufferDescriptor;
pub use laws::{
    contiguous_bytes_are_the_first, joined_rows_have_the_bytes_of_their_items,
    written_bytes_keep_their_number,
};
pub use memory_argument::{ArgMemoryBuffer, ArgRefused, try_rw_bytes_like};
pub use owned::{OwnedBuffer, OwnedBytes, VecBuffer};
pub use segments::Segments;

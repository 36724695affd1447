ghost use Rattle.std.specs.Prelude.{◌≡◌, ◌+◌, ◌≤◌, ◌++◌, is_ok, length, take, drop, if◌then◌else◌};
ghost use Rattle.py_flat.specs.Bytes.{lay};
ghost use Rattle.py_flat.specs.Limits.{greatest_place};

use crate::lengthen;
use std::alloc::AllocError;

/// Writes a piece over what stands at a place.
fn overwrite(bytes: &mut [u8], place: usize, piece: &[u8])
    requires { place + length piece.now ≤ length bytes.old }
    ensures { bytes.new ≡ take place bytes.old ++ piece.now ++ drop (place + length piece.now) bytes.old }
{
    bytes[place..place + piece.len()].copy_from_slice(piece);
}

/// Lays a piece on at a place, zeros up to it where it lies past the end. After an error all is unchanged.
pub fn lay_on(bytes: &mut Vec<u8>, place: usize, piece: &[u8]) -> Result<(), AllocError>
    requires { place + length piece.now ≤ greatest_place }
    ensures { bytes.new.items ≡ (if is_ok result then lay bytes.old.items place piece.now else bytes.old.items) }
{
    if piece.is_empty() {
        return Ok(());
    }
    if place == bytes.len() {
        return bytes.extend_from_slice(piece);
    }
    let end = place + piece.len();
    lengthen(bytes, end)?;
    overwrite(bytes.as_mut_slice(), place, piece);
    Ok(())
}

/// Copies bytes into the front of a buffer.
pub fn fill_front(buf: &mut [u8], given: &[u8])
    requires { length given.now ≤ length buf.old }
    ensures { buf.new ≡ given.now ++ drop (length given.now) buf.old }
{
    buf[..given.len()].copy_from_slice(given);
}

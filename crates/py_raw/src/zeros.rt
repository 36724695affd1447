ghost use Rattle.std.specs.Prelude.{◌≡◌, ◌-◌, ◌++◌, is_ok, length, replicate, if◌then◌else◌};

use std::alloc::AllocError;

/// Lengthens bytes by zeros to a size; longer ones stay as they are. After an error all is unchanged.
pub fn lengthen(bytes: &mut Vec<u8>, size: usize) -> Result<(), AllocError>
    ensures { bytes.new.items ≡ (if is_ok result then bytes.old.items ++ replicate (size - length bytes.old.items) 0 else bytes.old.items) }
{
    if bytes.len() < size {
        bytes.resize(size, 0)?;
    }
    Ok(())
}

use py_codec::Encoding;
use std::alloc::{AllocError, Global};

/// How many characters of ASCII stand before an input, by its number: around the lengths that are taken at once.
pub(crate) fn padding(index: usize) -> usize {
    match index % 4096 {
        0 => 8190 + index / 4096 % 5,
        1 => 16382 + index / 4096 % 5,
        few => few % 140,
    }
}

/// As many characters of ASCII as `count` says, in an encoding.
pub(crate) fn pad(alloc: Global, encoding: Encoding, count: usize) -> Result<Vec<u8>, AllocError> {
    let mut bytes = Vec::new(alloc);
    for _ in 0..count {
        match encoding {
            Encoding::Utf8 | Encoding::Latin1 | Encoding::Ascii => bytes.push(b'x')?,
            Encoding::Utf16Le => bytes.extend_from_slice(b"x\0")?,
            Encoding::Utf16Be => bytes.extend_from_slice(b"\0x")?,
        }
    }
    Ok(bytes)
}

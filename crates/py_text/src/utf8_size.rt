ghost use Rattle.std.specs.Prelude.{◌≡◌, length, chars};
ghost use Rattle.py_text.specs.Sizes.{SumFits, DifferenceFits, IsSum, IsDifference};

use std::ops::{Add, AddAssign, Sub, SubAssign};

/// The size of a text: how many bytes of UTF-8 and how many characters it has.
///
/// Sizes are equal where both their fields are. They add and subtract field by field; no field may pass the ends of its
/// type, as a contract asks.
#[derive(Clone, Copy, Debug, Default, PartialEq, Eq)]
pub struct Utf8size {
    /// How many bytes.
    pub bytes: usize,
    /// How many characters.
    pub chars: usize,
}

impl Utf8size {
    /// The size of a text. It takes no memory.
    pub fn len_str(text: &str) -> Self
        ensures bytes { result.bytes ≡ length text.now }
        ensures characters { result.chars ≡ length (chars text.now) }
    {
        Utf8size {
            bytes: text.len(),
            chars: text.chars().count(),
        }
    }
}

impl Add for Utf8size {
    type Output = Utf8size;

    ghost can_add = { SumFits };

    ghost add_gives = { IsSum };

    fn add(self, other: Utf8size) -> Utf8size {
        Utf8size {
            bytes: self.bytes + other.bytes,
            chars: self.chars + other.chars,
        }
    }
}

impl AddAssign for Utf8size {
    ghost can_add_assign = { SumFits };

    ghost add_assign_gives = { IsSum };

    fn add_assign(&mut self, other: Utf8size) {
        *self = *self + other;
    }
}

impl Sub for Utf8size {
    type Output = Utf8size;

    ghost can_sub = { DifferenceFits };

    ghost sub_gives = { IsDifference };

    fn sub(self, other: Utf8size) -> Utf8size {
        Utf8size {
            bytes: self.bytes - other.bytes,
            chars: self.chars - other.chars,
        }
    }
}

impl SubAssign for Utf8size {
    ghost can_sub_assign = { DifferenceFits };

    ghost sub_assign_gives = { IsDifference };

    fn sub_assign(&mut self, other: Utf8size) {
        *self = *self - other;
    }
}

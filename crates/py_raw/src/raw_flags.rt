ghost use Rattle.std.specs.Prelude.{⊤, ◌≡◌, false, ◌∷◌, [], codes};
ghost use Rattle.py_raw.specs.Flags.{can_read, can_write, can_seek, was_created, appends};

use bitflags::{Flag, Flags, bitflag_items};

/// How a raw stream was opened and what it can do, as a set.
#[derive(Clone, Copy, Debug, PartialEq, Eq)]
pub struct RawFlags(u8);

bitflag_items! {
    impl RawFlags: u8 {
        /// The file was made by the opening.
        const CREATED = 1;
        /// The file can be read from.
        const READABLE = 2;
        /// The file can be written to.
        const WRITABLE = 4;
        /// Every write goes to the end.
        const APPENDING = 8;
        /// The place in the file can be moved.
        const SEEKABLE = 16;
    }
}

impl Flags for RawFlags {
    type Bits = u8;

    ghost exact = { ⊤ };

    ghost table = { (codes "CREATED", 1) ∷ (codes "READABLE", 2) ∷ (codes "WRITABLE", 4) ∷ (codes "APPENDING", 8) ∷ (codes "SEEKABLE", 16) ∷ [] };

    ghost set_of = { λ flags. flags.0 };

    fn flags<'a>() -> &'a [Flag<RawFlags>] {
        RawFlags::FLAGS
    }

    fn bits(&self) -> u8 {
        self.0
    }

    fn from_bits_retain(bits: u8) -> RawFlags {
        RawFlags(bits)
    }
}

impl RawFlags {
    /// The flags of a stream that can do just these of reading, writing and moving, and that was neither made by its opening nor is
    /// appended to.
    pub fn able(readable: bool, writable: bool, seekable: bool) -> Self
        ensures reads { can_read result ≡ readable }
        ensures writes { can_write result ≡ writable }
        ensures seeks { can_seek result ≡ seekable }
        ensures created { was_created result ≡ false }
        ensures appends { appends result ≡ false }
    {
        let reading: u8 = if readable { 2 } else { 0 };
        let writing: u8 = if writable { 4 } else { 0 };
        let seeking: u8 = if seekable { 16 } else { 0 };
        RawFlags(reading | writing | seeking)
    }

    /// Whether it can be read from.
    pub fn is_readable(&self) -> bool
        ensures { result ≡ can_read self.now }
    {
        self.contains(RawFlags::READABLE)
    }

    /// Whether it can be written to.
    pub fn is_writable(&self) -> bool
        ensures { result ≡ can_write self.now }
    {
        self.contains(RawFlags::WRITABLE)
    }

    /// Whether it can be moved.
    pub fn is_seekable(&self) -> bool
        ensures { result ≡ can_seek self.now }
    {
        self.contains(RawFlags::SEEKABLE)
    }
}

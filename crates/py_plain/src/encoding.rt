ghost use Rattle.std.specs.Prelude.{◌≡◌};
ghost use Rattle.py_plain.specs.Names.{encoding_name};

/// How bytes spell characters.
#[derive(Clone, Copy, Debug, PartialEq, Eq)]
pub enum Encoding {
    /// UTF-8, by the Unicode Standard's Table 3-7.
    Utf8,
    /// ISO 8859-1: byte n is the character n.
    Latin1,
    /// ASCII: the bytes below 128 are the characters of their numbers; no others are spelled.
    Ascii,
    /// UTF-16 with the lesser byte of each unit first, without a mark.
    Utf16Le,
    /// UTF-16 with the greater byte of each unit first, without a mark.
    Utf16Be,
}

impl Encoding {
    /// The name by which Python's documentation of `codecs` knows it: utf-8, latin-1, ascii, utf-16-le or utf-16-be.
    pub fn name(&self) -> &'static str
        ensures { result.now ≡ encoding_name self.now }
    {
        match self {
            Encoding::Utf8 => "utf-8",
            Encoding::Latin1 => "latin-1",
            Encoding::Ascii => "ascii",
            Encoding::Utf16Le => "utf-16-le",
            Encoding::Utf16Be => "utf-16-be",
        }
    }
}

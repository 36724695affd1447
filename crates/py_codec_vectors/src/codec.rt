use py_codec::{
    Encoding, Handler, HandlerRef, NoHandler, ascii_decode, ascii_encode, latin_1_decode,
    latin_1_encode, utf_8_decode, utf_8_encode, utf_16_be_decode, utf_16_be_encode,
    utf_16_le_decode, utf_16_le_encode,
};
use py_flat::IoFault;
use std::alloc::{AllocError, Global};

/// The five encodings.
pub(crate) const ENCODINGS: [Encoding; 5] = [
    Encoding::Utf8,
    Encoding::Latin1,
    Encoding::Ascii,
    Encoding::Utf16Le,
    Encoding::Utf16Be,
];

/// A refused range or run: its start and the place after it.
#[derive(Clone, Copy, PartialEq, Eq)]
pub(crate) struct Refusal {
    pub start: u64,
    pub end: u64,
}

impl Refusal {
    /// What the plain slow program refuses.
    pub(crate) fn from_places((start, end): (usize, usize)) -> Self {
        Refusal {
            start: start as u64,
            end: end as u64,
        }
    }

    /// What a call refuses; `None` for any other fault.
    pub(crate) fn from_fault(fault: IoFault) -> Option<Self> {
        match fault {
            IoFault::UnicodeDecodeError { start, end }
            | IoFault::UnicodeEncodeError { start, end } => Some(Refusal { start, end }),
            _ => None,
        }
    }

    /// The range, in places that count from n earlier.
    pub(crate) fn behind(self, front: usize) -> Self {
        Refusal {
            start: self.start.saturating_add(front as u64),
            end: self.end.saturating_add(front as u64),
        }
    }
}

/// What a call has to answer; a text is its UTF-8.
#[derive(Clone, Copy)]
pub(crate) enum Expected<'a> {
    /// What is read or written, and how many bytes or characters are used.
    All(&'a [u8], usize),
    /// A refused range or run, and what the plain slow program gives for what stands in front of it, where that is told.
    Refused(Refusal, Option<&'a [u8]>),
}

impl Expected<'_> {
    /// Whether this is what a codec gives and uses, or refuses; its places count after a front.
    pub(crate) fn is_answered(self, answer: Result<(&[u8], usize), IoFault>, front: usize) -> bool {
        match (answer, self) {
            (Ok((output, used)), Expected::All(expected, count)) => {
                output == expected && used == count
            }
            (Err(fault), Expected::Refused(refusal, _)) => match Refusal::from_fault(fault) {
                Some(refused) => refused.behind(front) == refusal,
                None => false,
            },
            _ => false,
        }
    }

    /// Whether this is what the plain slow program gives and refuses.
    pub(crate) fn is_plain(self, output: &[u8], refused: Option<Refusal>) -> bool {
        match self {
            Expected::All(expected, _) => output == expected && refused.is_none(),
            Expected::Refused(refusal, before) => {
                refused == Some(refusal)
                    && match before {
                        Some(before) => output == before,
                        None => true,
                    }
            }
        }
    }
}

/// An encoding with a handler.
#[derive(Clone, Copy)]
pub(crate) struct Codec {
    pub encoding: Encoding,
    pub handler: Handler,
}

impl Codec {
    /// The decoding of some bytes at once; `last` says that nothing stands after them.
    pub(crate) fn decoded(
        self,
        alloc: Global,
        bytes: &[u8],
        last: bool,
    ) -> Result<(String, usize), IoFault> {
        let errors = HandlerRef::<NoHandler>::Builtin(self.handler);
        match self.encoding {
            Encoding::Utf8 => utf_8_decode(alloc, bytes, errors, last),
            Encoding::Latin1 => latin_1_decode(alloc, bytes, errors),
            Encoding::Ascii => ascii_decode(alloc, bytes, errors),
            Encoding::Utf16Le => utf_16_le_decode(alloc, bytes, errors, last),
            Encoding::Utf16Be => utf_16_be_decode(alloc, bytes, errors, last),
        }
    }

    /// The encoding of a text at once.
    pub(crate) fn encoded(self, alloc: Global, text: &str) -> Result<(Vec<u8>, usize), IoFault> {
        let errors = HandlerRef::<NoHandler>::Builtin(self.handler);
        match self.encoding {
            Encoding::Utf8 => utf_8_encode(alloc, text, errors),
            Encoding::Latin1 => latin_1_encode(alloc, text, errors),
            Encoding::Ascii => ascii_encode(alloc, text, errors),
            Encoding::Utf16Le => utf_16_le_encode(alloc, text, errors),
            Encoding::Utf16Be => utf_16_be_encode(alloc, text, errors),
        }
    }

    /// What the plain slow program gives for the bytes from a place on, and the range that it refuses.
    pub(crate) fn plainly_decoded(
        self,
        alloc: Global,
        bytes: &[u8],
        from: usize,
    ) -> Result<(String, Option<Refusal>), AllocError> {
        let plain = py_plain::decode(alloc, self.encoding, self.handler, bytes, from, true)?;
        let text: String = plain.characters.iter().collect(alloc)?;
        Ok((text, plain.refusal.map(Refusal::from_places)))
    }

    /// What the plain slow program writes for a text, and the run that it refuses.
    pub(crate) fn plainly_encoded(
        self,
        alloc: Global,
        text: &str,
    ) -> Result<(Vec<u8>, Option<Refusal>), AllocError> {
        let characters: Vec<char> = text.chars().collect(alloc)?;
        let plain = py_plain::encode(alloc, self.encoding, self.handler, &characters)?;
        Ok((plain.bytes, plain.refusal.map(Refusal::from_places)))
    }

    /// Whether the codec decodes as expected what stands after a front, which the places count with.
    pub(crate) fn decodes(
        self,
        alloc: Global,
        bytes: &[u8],
        front: usize,
        last: bool,
        expected: Expected<'_>,
    ) -> bool {
        let behind = bytes.get(front..).unwrap_or(&[]);
        match self.decoded(alloc, behind, last) {
            Ok((text, used)) => expected.is_answered(Ok((text.as_bytes(), used)), front),
            Err(fault) => expected.is_answered(Err(fault), front),
        }
    }

    /// Whether the plain slow program decodes the bytes to that text.
    pub(crate) fn plainly_decodes(
        self,
        alloc: Global,
        bytes: &[u8],
        front: usize,
        expected: Expected<'_>,
    ) -> Result<bool, AllocError> {
        let (text, refused) = self.plainly_decoded(alloc, bytes, front)?;
        Ok(expected.is_plain(text.as_bytes(), refused))
    }

    /// Whether the codec encodes a text as expected.
    pub(crate) fn encodes(self, alloc: Global, text: &str, expected: Expected<'_>) -> bool {
        match self.encoded(alloc, text) {
            Ok((bytes, count)) => expected.is_answered(Ok((&bytes, count)), 0),
            Err(fault) => expected.is_answered(Err(fault), 0),
        }
    }

    /// Whether the plain slow program encodes the text to those bytes.
    pub(crate) fn plainly_encodes(
        self,
        alloc: Global,
        text: &str,
        expected: Expected<'_>,
    ) -> Result<bool, AllocError> {
        let (bytes, refused) = self.plainly_encoded(alloc, text)?;
        Ok(expected.is_plain(&bytes, refused))
    }
}

use py_codec::{
    Handler, HandlerRef, NoHandler, ascii_decode, latin_1_decode, latin_1_encode, utf_8_decode,
    utf_8_encode, utf_16_be_decode, utf_16_be_encode, utf_16_le_decode, utf_16_le_encode,
};
use py_flat::IoFault;
use std::alloc::Global;

/// How much a task used and made: bytes or characters, as the call counts them; nothing where it was refused.
#[derive(Clone, Copy, Debug, PartialEq, Eq)]
pub(crate) struct Made {
    pub used: usize,
    pub made: usize,
}

impl Made {
    pub(crate) fn none() -> Self {
        Made { used: 0, made: 0 }
    }

    fn text(answer: Result<(String, usize), IoFault>) -> Self {
        match answer {
            Ok((text, used)) => Made {
                used,
                made: text.len(),
            },
            Err(_) => Made::none(),
        }
    }

    fn bytes(answer: Result<(Vec<u8>, usize), IoFault>) -> Self {
        match answer {
            Ok((bytes, used)) => Made {
                used,
                made: bytes.len(),
            },
            Err(_) => Made::none(),
        }
    }
}

/// What is timed, over the bytes of a file.
#[derive(Clone, Copy, Debug, PartialEq, Eq)]
pub(crate) enum Task {
    Utf8Decode(Handler),
    Utf16LeDecode,
    Utf16BeDecode,
    Latin1Decode,
    AsciiDecode,
    Utf8Encode,
    Utf16LeEncode,
    Utf16BeEncode,
    Latin1Encode,
    /// Tests the bytes by simdutf8 and copies them once: what a decoding of UTF-8 can't do without.
    TestAndCopy,
}

impl Task {
    pub(crate) fn from_word(word: &str) -> Option<Self> {
        match word {
            "utf-8-decode" => Some(Task::Utf8Decode(Handler::Strict)),
            "utf-8-decode-replace" => Some(Task::Utf8Decode(Handler::Replace)),
            "utf-16-le-decode" => Some(Task::Utf16LeDecode),
            "utf-16-be-decode" => Some(Task::Utf16BeDecode),
            "latin-1-decode" => Some(Task::Latin1Decode),
            "ascii-decode" => Some(Task::AsciiDecode),
            "utf-8-encode" => Some(Task::Utf8Encode),
            "utf-16-le-encode" => Some(Task::Utf16LeEncode),
            "utf-16-be-encode" => Some(Task::Utf16BeEncode),
            "latin-1-encode" => Some(Task::Latin1Encode),
            "test-and-copy" => Some(Task::TestAndCopy),
            _ => None,
        }
    }

    fn encode(self, alloc: Global, text: &str) -> Made {
        let errors = HandlerRef::<NoHandler>::Builtin(Handler::Replace);
        match self {
            Task::Utf16LeEncode => Made::bytes(utf_16_le_encode(alloc, text, errors)),
            Task::Utf16BeEncode => Made::bytes(utf_16_be_encode(alloc, text, errors)),
            Task::Latin1Encode => Made::bytes(latin_1_encode(alloc, text, errors)),
            _ => Made::bytes(utf_8_encode(alloc, text, errors)),
        }
    }

    /// Does it once: decodes the bytes, or encodes the text that they are in UTF-8.
    pub(crate) fn run(self, alloc: Global, bytes: &[u8], text: &str) -> Made {
        let errors = HandlerRef::<NoHandler>::Builtin(Handler::Strict);
        match self {
            Task::Utf8Decode(handler) => Made::text(utf_8_decode(
                alloc,
                bytes,
                HandlerRef::<NoHandler>::Builtin(handler),
                true,
            )),
            Task::Utf16LeDecode => Made::text(utf_16_le_decode(alloc, bytes, errors, true)),
            Task::Utf16BeDecode => Made::text(utf_16_be_decode(alloc, bytes, errors, true)),
            Task::Latin1Decode => Made::text(latin_1_decode(alloc, bytes, errors)),
            Task::AsciiDecode => Made::text(ascii_decode(alloc, bytes, errors)),
            Task::TestAndCopy => tested_and_copied(alloc, bytes),
            Task::Utf8Encode | Task::Utf16LeEncode | Task::Utf16BeEncode | Task::Latin1Encode => {
                self.encode(alloc, text)
            }
        }
    }
}

fn tested_and_copied(alloc: Global, bytes: &[u8]) -> Made {
    match simdutf8::basic::from_utf8(bytes) {
        Ok(text) => match String::from_str(alloc, text) {
            Ok(copy) => Made {
                used: bytes.len(),
                made: copy.len(),
            },
            Err(_) => Made::none(),
        },
        Err(_) => Made::none(),
    }
}

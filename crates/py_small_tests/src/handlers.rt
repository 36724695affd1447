//! Handlers of a user's own.
use py_codec::{
    EncodeReplace, Encoding, ErrorHandler, HandlerRef, HandlerRefusal, ascii_decode, ascii_encode,
    latin_1_encode, utf_8_decode, utf_16_le_decode,
};
use py_flat::IoFault;
use std::alloc::Global;
use std::process::Abort;

/// Gives the same text for any range or run, and goes on at the same place.
#[derive(Clone, Copy)]
struct GivesText {
    text: &'static str,
    restart: usize,
}

impl ErrorHandler for GivesText {
    ghost use Rattle.std.specs.Prelude.{chars};
    ghost use Rattle.py_codec.specs.ErrorHandler.{ReplacedBy, TextFor};

    ghost decodes = { λ gives encoding bytes start end. ReplacedBy (chars gives.text.now) gives.restart };

    ghost encodes = { λ gives encoding text start end. TextFor (chars gives.text.now) gives.restart };

    fn on_decode(
        &self,
        alloc: Global,
        encoding: Encoding,
        bytes: &[u8],
        start: usize,
        end: usize,
    ) -> Result<(String, usize), HandlerRefusal> {
        match String::from_str(alloc, self.text) {
            Ok(text) => Ok((text, self.restart)),
            Err(_) => Err(HandlerRefusal::Memory),
        }
    }

    fn on_encode(
        &self,
        alloc: Global,
        encoding: Encoding,
        text: &str,
        start: usize,
        end: usize,
    ) -> Result<(EncodeReplace, usize), HandlerRefusal> {
        match String::from_str(alloc, self.text) {
            Ok(text) => Ok((EncodeReplace::Str(text), self.restart)),
            Err(_) => Err(HandlerRefusal::Memory),
        }
    }
}

/// Gives a byte for any run, and refuses ranges.
#[derive(Clone, Copy)]
struct GivesByte {
    byte: u8,
    restart: usize,
}

impl ErrorHandler for GivesByte {
    ghost use Rattle.std.specs.Prelude.{[], ◌∷◌};
    ghost use Rattle.py_codec.specs.ErrorHandler.{DecodeRefused, BytesFor};

    ghost decodes = { λ gives encoding bytes start end. DecodeRefused };

    ghost encodes = { λ gives encoding text start end. BytesFor (gives.byte ∷ []) gives.restart };

    fn on_decode(
        &self,
        alloc: Global,
        encoding: Encoding,
        bytes: &[u8],
        start: usize,
        end: usize,
    ) -> Result<(String, usize), HandlerRefusal> {
        Err(HandlerRefusal::Refuse)
    }

    fn on_encode(
        &self,
        alloc: Global,
        encoding: Encoding,
        text: &str,
        start: usize,
        end: usize,
    ) -> Result<(EncodeReplace, usize), HandlerRefusal> {
        match Vec::from_slice(alloc, &[self.byte]) {
            Ok(bytes) => Ok((EncodeReplace::Bytes(bytes), self.restart)),
            Err(_) => Err(HandlerRefusal::Memory),
        }
    }
}

/// Gives a text for the first byte of a range, or the first character of a run, alone.
#[derive(Clone, Copy)]
struct GivesForOne;

impl ErrorHandler for GivesForOne {
    ghost use Rattle.std.specs.Prelude.{codes, chars, ◌+◌};
    ghost use Rattle.py_codec.specs.ErrorHandler.{ReplacedBy, TextFor};

    ghost decodes = { λ gives encoding bytes start end. ReplacedBy (chars (codes "<>")) (start + 1) };

    ghost encodes = { λ gives encoding text start end. TextFor (chars (codes "<>")) (start + 1) };

    fn on_decode(
        &self,
        alloc: Global,
        encoding: Encoding,
        bytes: &[u8],
        start: usize,
        end: usize,
    ) -> Result<(String, usize), HandlerRefusal> {
        match String::from_str(alloc, "<>") {
            Ok(text) => Ok((text, start + 1)),
            Err(_) => Err(HandlerRefusal::Memory),
        }
    }

    fn on_encode(
        &self,
        alloc: Global,
        encoding: Encoding,
        text: &str,
        start: usize,
        end: usize,
    ) -> Result<(EncodeReplace, usize), HandlerRefusal> {
        match String::from_str(alloc, "<>") {
            Ok(text) => Ok((EncodeReplace::Str(text), start + 1)),
            Err(_) => Err(HandlerRefusal::Memory),
        }
    }
}

/// Refuses runs, and runs out of memory for ranges.
#[derive(Clone, Copy)]
struct GivesNothing;

impl ErrorHandler for GivesNothing {
    ghost use Rattle.py_codec.specs.ErrorHandler.{DecodeRefused, EncodeRefused};

    ghost decodes = { λ gives encoding bytes start end. DecodeRefused };

    ghost encodes = { λ gives encoding text start end. EncodeRefused };

    fn on_decode(
        &self,
        alloc: Global,
        encoding: Encoding,
        bytes: &[u8],
        start: usize,
        end: usize,
    ) -> Result<(String, usize), HandlerRefusal> {
        Err(HandlerRefusal::Memory)
    }

    fn on_encode(
        &self,
        alloc: Global,
        encoding: Encoding,
        text: &str,
        start: usize,
        end: usize,
    ) -> Result<(EncodeReplace, usize), HandlerRefusal> {
        Err(HandlerRefusal::Refuse)
    }
}

/// Decodes some bytes of UTF-8 by a handler of one's own.
fn decodes_to<H: ErrorHandler>(
    rt: &impl Abort,
    alloc: Global,
    handler: H,
    bytes: &[u8],
    expected: Result<(&str, usize), IoFault>,
) {
    match utf_8_decode(alloc, bytes, HandlerRef::Custom(handler), true) {
        Ok((text, used)) => assert!(rt; Ok((text.as_str(), used)) == expected, "of {bytes:?}"),
        Err(fault) => assert!(rt; Err(fault) == expected, "of {bytes:?}"),
    }
}

/// Encodes a text in ISO 8859-1 by a handler of one's own.
fn encodes_to<H: ErrorHandler>(
    rt: &impl Abort,
    alloc: Global,
    handler: H,
    text: &str,
    expected: Result<(&[u8], usize), IoFault>,
) {
    match latin_1_encode(alloc, text, HandlerRef::Custom(handler)) {
        Ok((bytes, count)) => assert!(rt; Ok((bytes.as_slice(), count)) == expected, "of {text}"),
        Err(fault) => assert!(rt; Err(fault) == expected, "of {text}"),
    }
}

fn gives(text: &'static str, restart: usize) -> GivesText {
    GivesText { text, restart }
}

#[test]
fn ranges_are_given_to_a_handler_of_ones_own(rt: HostRuntime) {
    let alloc = rt.alloc();
    // after the range of one byte and of two; past what follows it; and nothing for it
    decodes_to(&rt, alloc, gives("<>", 2), b"a\xFFb", Ok(("a<>b", 3)));
    decodes_to(&rt, alloc, gives("<>", 2), b"\xE2\x82b", Ok(("<>b", 3)));
    decodes_to(&rt, alloc, gives("<>", 3), b"\xFFab", Ok(("<>", 3)));
    decodes_to(&rt, alloc, gives("", 1), b"\xFFab", Ok(("ab", 3)));
    // within the range: the byte that is left is a range of its own
    decodes_to(&rt, alloc, GivesForOne, b"a\xE2\x82b", Ok(("a<><>b", 4)));
    // at its start, before it, and past the end of the argument
    decodes_to(
        &rt,
        alloc,
        gives("<>", 1),
        b"a\xFFb",
        Err(IoFault::BadRestart),
    );
    decodes_to(
        &rt,
        alloc,
        gives("<>", 0),
        b"a\xFFb",
        Err(IoFault::BadRestart),
    );
    decodes_to(
        &rt,
        alloc,
        gives("<>", 4),
        b"a\xFFb",
        Err(IoFault::BadRestart),
    );
    // the second range is asked for again, and its answer doesn't lie past it
    decodes_to(
        &rt,
        alloc,
        gives("<>", 1),
        b"\xE2\x82b",
        Err(IoFault::BadRestart),
    );
    let refused = IoFault::UnicodeDecodeError { start: 1, end: 3 };
    let byte = GivesByte {
        byte: 0x80,
        restart: 9,
    };
    decodes_to(&rt, alloc, byte, b"a\xE2\x82b", Err(refused));
    decodes_to(&rt, alloc, GivesNothing, b"a\xFF", Err(IoFault::NoMemory));
}

#[test]
fn runs_are_given_to_a_handler_of_ones_own(rt: HostRuntime) {
    let alloc = rt.alloc();
    let text = "a\u{20AC}\u{20AC}b";
    encodes_to(&rt, alloc, gives("<>", 3), text, Ok((b"a<>b", 4)));
    encodes_to(&rt, alloc, gives("", 3), text, Ok((b"ab", 4)));
    encodes_to(&rt, alloc, gives("\u{E9}", 4), text, Ok((b"a\xE9", 4)));
    let byte = GivesByte {
        byte: 0x80,
        restart: 3,
    };
    encodes_to(&rt, alloc, byte, text, Ok((b"a\x80b", 4)));
    // within the run: what is left of it is a run of its own
    encodes_to(&rt, alloc, GivesForOne, text, Ok((b"a<><>b", 4)));
    // for what is left of a run, an answer that doesn't lie past the start of that is refused
    encodes_to(&rt, alloc, gives("<>", 2), text, Err(IoFault::BadRestart));
    // at its start, and past the end of the argument, whatever is given
    encodes_to(&rt, alloc, gives("<>", 1), text, Err(IoFault::BadRestart));
    encodes_to(
        &rt,
        alloc,
        gives("\u{20AC}", 5),
        text,
        Err(IoFault::BadRestart),
    );
    let past = GivesByte {
        byte: 0x80,
        restart: usize::MAX,
    };
    encodes_to(&rt, alloc, past, text, Err(IoFault::BadRestart));
    // a text that has a character without bytes itself, and a refusal
    let refused = IoFault::UnicodeEncodeError { start: 1, end: 3 };
    encodes_to(&rt, alloc, gives("x\u{20AC}", 3), text, Err(refused));
    encodes_to(&rt, alloc, GivesNothing, text, Err(refused));
}

#[test]
fn a_handler_of_ones_own_serves_other_encodings(rt: HostRuntime) {
    let alloc = rt.alloc();
    let marks = HandlerRef::Custom(gives("<>", 2));
    let (text, used) = utf_16_le_decode(alloc, b"\x00\xDCa\x00\x3D", marks, false).expect(
        &rt,
        "an answer",
    );
    assert!(rt; (text.as_str(), used) == ("<>a", 4));
    let (text, used) = ascii_decode(alloc, b"a\x80b", marks).expect(&rt, "an answer");
    assert!(rt; (text.as_str(), used) == ("a<>b", 3));
    let (bytes, count) = ascii_encode(alloc, "a\u{E9}b", marks).expect(&rt, "an answer");
    assert!(rt; (bytes.as_slice(), count) == (&b"a<>b"[..], 3));
}

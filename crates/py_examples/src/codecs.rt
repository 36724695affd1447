//! Codecs: the examples of docs/CODECS.md.
use py_codec::{
    Encoding, Handler, HandlerRef, NoHandler, ascii_encode, utf_8_decode, utf_8_encode,
};
use py_flat::IoFault;
use py_incremental::IncrementalDecoder;
use std::test::Fail;

#[test]
fn a_text_of_bytes(rt: HostRuntime) -> Result<(), Fail> {
    let alloc = rt.alloc();
    let strict = HandlerRef::<NoHandler>::Builtin(Handler::Strict);
    let replace = HandlerRef::<NoHandler>::Builtin(Handler::Replace);
    let (text, used) = utf_8_decode(alloc, b"caf\xC3\xA9", strict, true)?;
    assert!(rt; (text.as_str(), used) == ("café", 5));
    // a byte that begins no character is refused, with its place
    let refused = utf_8_decode(alloc, b"caf\xFF", strict, true);
    assert!(rt; refused.err() == Some(IoFault::UnicodeDecodeError { start: 3, end: 4 }));
    // a handler may give something for a byte that begins no character
    let (text, used) = utf_8_decode(alloc, b"caf\xFF", replace, true)?;
    assert!(rt; (text.as_str(), used) == ("caf\u{FFFD}", 4));
    // where more may come, the front of a character is left for later
    let (text, used) = utf_8_decode(alloc, b"caf\xC3", strict, false)?;
    assert!(rt; (text.as_str(), used) == ("caf", 3));
    Ok(())
}

#[test]
fn bytes_of_a_text(rt: HostRuntime) -> Result<(), Fail> {
    let alloc = rt.alloc();
    let strict = HandlerRef::<NoHandler>::Builtin(Handler::Strict);
    let escape = HandlerRef::<NoHandler>::Builtin(Handler::BackslashReplace);
    let (bytes, count) = utf_8_encode(alloc, "café", strict)?;
    assert!(rt; (bytes.as_slice(), count) == (&b"caf\xC3\xA9"[..], 4));
    // ASCII has no é: the run is refused, in characters
    let refused = ascii_encode(alloc, "café", strict);
    assert!(rt; refused.err() == Some(IoFault::UnicodeEncodeError { start: 3, end: 4 }));
    let (bytes, count) = ascii_encode(alloc, "café", escape)?;
    assert!(rt; (bytes.as_slice(), count) == (&b"caf\\xe9"[..], 4));
    Ok(())
}

#[test]
fn bytes_in_pieces(rt: HostRuntime) -> Result<(), Fail> {
    let alloc = rt.alloc();
    let mut decoder = IncrementalDecoder::new(Encoding::Utf8, Handler::Strict);
    let mut text = String::new(alloc);
    for piece in [&b"caf\xC3"[..], &b"\xA9 \xE2\x82"[..], &b"\xAC"[..]] {
        text.push_str(decoder.decode(alloc, piece, false)?.as_str())?;
    }
    text.push_str(decoder.decode(alloc, b"", true)?.as_str())?;
    assert!(rt; text.as_str() == "café €");
    Ok(())
}

#[test]
fn a_character_is_held_until_its_last_byte_comes(rt: HostRuntime) -> Result<(), Fail> {
    let alloc = rt.alloc();
    let mut decoder = IncrementalDecoder::new(Encoding::Utf8, Handler::Replace);
    let text = decoder.decode(alloc, b"caf\xC3", false)?;
    assert!(rt; text.as_str() == "caf"); // the first byte of é is held
    let text = decoder.decode(alloc, b"\xA9 \xFF", true)?;
    assert!(rt; text.as_str() == "é \u{FFFD}");
    Ok(())
}

//! Known text that is the bytes that are kept, so that it stands nowhere twice.
ghost use Rattle.std.specs.Prelude.{◌≡◌, ◌≤◌, ◌<◌, ◌+◌, ◌^◌, ℕ, true, [], ◌++◌, length, take, drop, chars, vec_len, IfOk, IfErr, OnOk, OnErr};
ghost use Rattle.std.specs.Str.{IsUtf8};
ghost use Rattle.py_plain.specs.Handlers.{treatment, reads_texts};
ghost use Rattle.py_plain.specs.Items.{characters_of};
ghost use Rattle.py_codec.specs.Answers.{text_of};
ghost use Rattle.py_codec.specs.Decoding.{walk_here};
ghost use Rattle.py_codec.specs.Front.{items_for};
ghost use Rattle.py_held_text.specs.Finding.{IsFrontOf};
ghost use Rattle.py_held_text.specs.Known.{reading, may_cut, IsPart};
ghost use Rattle.py_held_text.specs.Plain.{plain_of, known_of, nothing_known, IsShared, IsPlainPart, IsPlainly};

use crate::Wanted;
use crate::decoding::{Decoded, gives_none, keeps_all};
use crate::held_text::drop_front;
use crate::known_text::KnownText;
use py_blocks::{TextFront, count_starts, utf8_front, window};
use py_codec::{FrontDecoded, FrontStop, IoFault};
use py_plain::{Encoding, Newlines};
use py_text::Coder;
use std::alloc::{AllocError, Global};
use std::mem;

/// How much of the bytes that are decoded, the last of them, is known text. By default it is none.
#[derive(Clone, Copy, Debug, Default, PartialEq, Eq)]
pub(crate) struct PlainText {
    /// How many bytes are.
    pub bytes: usize,
    /// How many characters they have.
    pub count: usize,
    /// How many of the bytes needn't be searched for a line end any more.
    pub searched: usize,
}

/// What stands behind the first n of some bytes.
pub(crate) fn behind(bytes: &[u8], count: usize) -> &[u8]
    requires { count ≤ length bytes.now }
    ensures { result.now ≡ drop count bytes.now }
{
    &bytes[count..]
}

/// The last n of the bytes that are decoded, as a text.
pub(crate) fn plain_text(bytes: &[u8], decoded: usize, size: usize) -> &str
    requires within { size ≤ decoded }
    requires decoded { decoded ≤ length bytes.now }
    requires utf8 { IsUtf8 (plain_of size decoded bytes.now) }
    ensures { result.now ≡ plain_of size decoded bytes.now }
{
    let from = decoded - size;
    unsafe { str::from_utf8_unchecked(&bytes[from..decoded]) }
}

/// How many of some bytes, the first of them, are known text as they are, and no more characters than are wanted; none where the encoding
/// isn't UTF-8, or where the rule changes their characters.
pub(crate) fn plain_front(encoding: Encoding, newline: Newlines, bytes: &[u8], want: usize) -> usize
    ensures within { result ≤ length bytes.now }
    ensures plain { 1 ≤ result → IsPlainPart encoding newline want (take result bytes.now) }
{
    if encoding != Encoding::Utf8 {
        return 0;
    }
    let near = window(bytes, want);
    if !keeps_all(newline, near) {
        return 0;
    }
    utf8_front(near)
}

/// Has bytes known as they are, which are plain: all of those that are decoded next.
fn take_plain(plain: &mut PlainText, part: &[u8], want: usize) -> Decoded
    requires utf8 { IsUtf8 part.now }
    requires few { length part.now ≤ want }
    requires fits { plain.old.count + length part.now ≤ 2 ^ 63 }
    requires more { plain.old.bytes + length part.now ≤ 2 ^ 63 }
    ensures bytes { plain.new.bytes ≡ plain.old.bytes + length part.now }
    ensures count { plain.new.count ≡ plain.old.count + length (chars part.now) }
    ensures searched { plain.new.searched ≡ plain.old.searched }
    ensures decoded { IsPlainly want part.now result }
{
    let chars = count_starts(part);
    plain.bytes += part.len();
    plain.count += chars;
    let stop = if chars == want {
        FrontStop::Wanted
    } else {
        FrontStop::Drained
    };
    Decoded {
        front: FrontDecoded {
            used: part.len(),
            chars,
            stop,
        },
        chars,
        cr: false,
        cut: false,
    }
}

/// Has the bytes that are known text known in a text of its own, if there are any.
fn copy_plain(
    alloc: Global,
    known: &mut KnownText,
    plain: &mut PlainText,
    bytes: &[u8],
    decoded: usize,
) -> Result<(), AllocError>
    requires shared { IsShared known.old plain.old decoded bytes.now }
    requires within { decoded ≤ length bytes.now }
    ensures copied { OnOk result (known.new ≡ known_of known.old plain.old.bytes decoded bytes.now) }
    ensures none { OnOk result (plain.new.bytes ≡ 0) }
    ensures shared { IsShared known.new plain.new decoded bytes.now }
    ensures same { OnErr result (known.new ≡ known.old) }
    ensures still { OnErr result (plain.new ≡ plain.old) }
{
    if plain.bytes == 0 {
        return Ok(());
    }
    let text = String::from_str(alloc, plain_text(bytes, decoded, plain.bytes))?;
    known.put(text, TextFront { chars: 0, bytes: 0 });
    *plain = PlainText::default();
    Ok(())
}

/// Has the characters known that the first of the bytes behind those that are decoded begin with, n of them, up to the first place between
/// two items where as many as are wanted were given. Where nothing else is known and `is_plain` says that all of these bytes are known text
/// as they are, that is all. Else, where they give anything, the bytes that are known text till now are copied first.
pub(crate) fn decode_known(
    alloc: Global,
    coder: Coder,
    known: &mut KnownText,
    plain: &mut PlainText,
    bytes: &[u8],
    decoded: usize,
    size: usize,
    want: usize,
    is_plain: bool,
    last: bool,
) -> Result<Decoded, IoFault>
    requires reads { reads_texts coder.errors ≡ true }
    requires shared { IsShared known.old plain.old decoded bytes.now }
    requires within { decoded + size ≤ length bytes.now }
    requires fits { length bytes.now < 2 ^ 63 }
    requires plain { is_plain ≡ true → IsPlainPart coder.encoding known.old.newline want (take size (drop decoded bytes.now)) }
    ensures part { IfOk result (λ now.
        let behind = walk_here coder.encoding (treatment coder.errors coder.encoding) last (take size (drop decoded bytes.now)) in
        IsPart want (behind 0) behind now.front) }
    ensures reading { IfOk result (λ now.
        let walk = walk_here coder.encoding (treatment coder.errors coder.encoding) last (take size (drop decoded bytes.now)) 0 in
        known_of known.new plain.new.bytes (decoded + now.front.used) bytes.now ≡ reading (known_of known.old plain.old.bytes decoded bytes.now) (characters_of (items_for want walk.items))) }
    ensures cut { IfOk result (λ now.
        let walk = walk_here coder.encoding (treatment coder.errors coder.encoding) last (take size (drop decoded bytes.now)) 0 in
        now.cut ≡ may_cut known.old.cr (characters_of (items_for want walk.items))) }
    ensures within { IfOk result (λ now. now.front.used ≤ size) }
    ensures shared { IfOk result (λ now. IsShared known.new plain.new (decoded + now.front.used) bytes.now) }
    ensures still { OnErr result (IsShared known.new plain.new decoded bytes.now) }
    ensures memory { IfErr result (λ why. why ≡ IoFault.NoMemory) }
    ensures same { OnErr result (known_of known.new plain.new.bytes decoded bytes.now ≡ known_of known.old plain.old.bytes decoded bytes.now) }
{
    let part = &behind(bytes, decoded)[..size];
    if is_plain && known.is_empty() {
        known.let_go();
        return Ok(take_plain(plain, part, want));
    }
    if plain.bytes > 0 {
        if let Some(front) = gives_none(alloc, coder, part, want, last)? {
            return Ok(Decoded {
                front,
                chars: 0,
                cr: false,
                cut: false,
            });
        }
    }
    copy_plain(alloc, known, plain, bytes, decoded)?;
    known.decode(alloc, coder, part, want, last)
}

/// Gives a front of what is known, which isn't known any more.
pub(crate) fn give_known(
    alloc: Global,
    known: &mut KnownText,
    plain: &mut PlainText,
    bytes: &[u8],
    decoded: usize,
    front: TextFront,
) -> Result<String, AllocError>
    requires shared { IsShared known.old plain.old decoded bytes.now }
    requires within { decoded ≤ length bytes.now }
    requires front { IsFrontOf (known_of known.old plain.old.bytes decoded bytes.now).characters front }
    ensures text { IfOk result (λ text. text_of text ≡ take front.chars (known_of known.old plain.old.bytes decoded bytes.now).characters) }
    ensures left { OnOk result (
        let old = known_of known.old plain.old.bytes decoded bytes.now in
        known_of known.new plain.new.bytes decoded bytes.now ≡ record old { characters = drop front.chars old.characters }) }
    ensures shared { IsShared known.new plain.new decoded bytes.now }
    ensures same { OnErr result (known_of known.new plain.new.bytes decoded bytes.now ≡ known_of known.old plain.old.bytes decoded bytes.now) }
{
    if plain.bytes == 0 {
        return known.give(alloc, front);
    }
    let text = plain_text(bytes, decoded, plain.bytes);
    let given = String::from_str(alloc, &text[..front.bytes])?;
    plain.bytes -= front.bytes;
    plain.count -= front.chars;
    plain.searched = 0;
    Ok(given)
}

/// Lets go of the room of bytes that have room for far more than there are.
fn fit(bytes: &mut Vec<u8>)
    ensures { bytes.new.items ≡ bytes.old.items }
{
    let size = bytes.len();
    if bytes.capacity() / 4 > size {
        bytes.shrink_to(size);
    }
}

/// Removes the front of some bytes, if they have one.
fn cut_front(bytes: &mut Vec<u8>, count: usize)
    requires { count ≤ vec_len bytes.old }
    ensures { bytes.new.items ≡ drop count bytes.old.items }
{
    if count > 0 {
        drop_front(bytes, count);
    }
}

/// Gives all that is known, where all bytes are decoded. Bytes that are known text are given as they are.
pub(crate) fn take_known(
    alloc: Global,
    known: &mut KnownText,
    bytes: &mut Vec<u8>,
    decoded: usize,
    size: usize,
) -> Result<String, AllocError>
    requires within { size ≤ decoded }
    requires decoded { decoded ≡ vec_len bytes.old }
    requires utf8 { IsUtf8 (plain_of size decoded bytes.old.items) }
    requires alone { 1 ≤ size → known.old ≡ nothing_known known.old.newline }
    ensures text { IfOk result (λ text. text_of text ≡ (known_of known.old size decoded bytes.old.items).characters) }
    ensures known { OnErr result (known.new ≡ known.old) }
    ensures bytes { OnErr result (bytes.new ≡ bytes.old) }
{
    if size == 0 {
        let all = known.find_last(Wanted::Characters(None));
        return known.give(alloc, all);
    }
    let mut text = mem::replace(bytes, Vec::new(alloc));
    cut_front(&mut text, decoded - size);
    fit(&mut text);
    Ok(unsafe { String::from_utf8_unchecked(text) })
}

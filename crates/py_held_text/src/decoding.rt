ghost use Rattle.std.specs.Prelude.{◌≡◌, ◌++◌, ◌*◌, ◌<◌, ◌≤◌, ℕ, true, chars, length, false, IfOk, IfErr, IfSome, OnOk, OnErr};
ghost use Rattle.py_plain.specs.Handlers.{treatment, reads_texts};
ghost use Rattle.py_plain.specs.Items.{walk_from, characters_of};
ghost use Rattle.py_plain.specs.Units.{Unknown};
ghost use Rattle.py_plain.specs.NewlineRule.{read_so_far, holds_after};
ghost use Rattle.py_codec.specs.Answers.{text_of};
ghost use Rattle.py_codec.specs.Decoding.{walk_here};
ghost use Rattle.py_codec.specs.Front.{items_for};
ghost use Rattle.py_held_text.specs.Known.{may_cut, IsPart, IsPlain};
ghost use Rattle.py_held_text.specs.Plain.{KeepsFronts};

use memchr::memchr;
use py_codec::{FrontDecoded, IoFault, Steps, front_text};
use py_plain::Newlines;
use py_text::{Coder, read_so_far};
use std::alloc::{AllocError, Global};
use std::marker::Brand;
use std::sync::ledger::{Blank, Ledger};

/// How many characters are asked for of bytes that stand alone: more than four bytes decode to, at six for each.
const MORE_THAN_ALONE: usize = 25;

/// The characters that some bytes begin with, up to the first place between two items where as many as are wanted were
/// given, with a count of steps of any ledger.
fn counted_front<L: Ledger>(
    blank: Blank,
    alloc: Global,
    coder: Coder,
    bytes: &[u8],
    want: usize,
    last: bool,
) -> Result<(String, FrontDecoded), IoFault>
    requires name { blank.name ≡ L.name }
    requires parts { blank.parts ≡ L.parts }
    requires some { 0 < L.parts }
    requires reads { reads_texts coder.errors ≡ true }
    ensures part { IfOk result (λ t.
        let behind = walk_here coder.encoding (treatment coder.errors coder.encoding) last bytes.now in
        IsPart want (behind 0) behind t.1) }
    ensures text { IfOk result (λ t.
        let walk = walk_here coder.encoding (treatment coder.errors coder.encoding) last bytes.now 0 in
        text_of t.0 ≡ characters_of (items_for want walk.items)) }
    ensures within { IfOk result (λ t. t.1.used ≤ length bytes.now) }
    ensures memory { IfErr result (λ why. why ≡ IoFault.NoMemory) }
{
    let mut steps = Steps::<L>::new(blank);
    front_text(
        alloc,
        coder.encoding,
        coder.errors,
        bytes,
        want,
        last,
        &mut steps,
    )
}

/// The characters that at most four bytes are by themselves, behind which none come: those up to a range that the handler refuses,
/// if one does. `NoMemory` when out of memory.
pub fn decoded_alone(alloc: Global, coder: Coder, bytes: &[u8]) -> Result<String, IoFault>
    requires reads { reads_texts coder.errors ≡ true }
    requires few { length bytes.now ≤ 4 }
    ensures characters { IfOk result (λ text. (place : ℕ) →
        text_of text ≡ characters_of (walk_from coder.encoding (treatment coder.errors coder.encoding) true Unknown place 0 bytes.now).items) }
    ensures few { IfOk result (λ text. length (text_of text) ≤ 6 * length bytes.now) }
    ensures memory { IfErr result (λ why. why ≡ IoFault.NoMemory) }
{
    let (text, _) = counted_front::<Brand>(
        Blank::new(1),
        alloc,
        coder,
        bytes,
        MORE_THAN_ALONE,
        true,
    )?;
    Ok(text)
}

/// How many bytes may be a cut character at most, and one more.
const MORE_THAN_CUT: usize = 4;

/// What is decoded of bytes that give nothing: of a character that is cut, or a range that is refused. `None` where they give anything, or
/// are more than such a character has.
pub(crate) fn gives_none(
    alloc: Global,
    coder: Coder,
    bytes: &[u8],
    want: usize,
    last: bool,
) -> Result<Option<FrontDecoded>, IoFault>
    requires reads { reads_texts coder.errors ≡ true }
    ensures part { IfOk result (λ found. IfSome found (λ front.
        let behind = walk_here coder.encoding (treatment coder.errors coder.encoding) last bytes.now in
        IsPart want (behind 0) behind front)) }
    ensures none { IfOk result (λ found. IfSome found (λ front. front.used ≡ 0)) }
    ensures memory { IfErr result (λ why. why ≡ IoFault.NoMemory) }
{
    if bytes.len() >= MORE_THAN_CUT {
        return Ok(None);
    }
    let (_, front) = counted_front::<Brand>(Blank::new(1), alloc, coder, bytes, want, last)?;
    if front.used == 0 {
        Ok(Some(front))
    } else {
        Ok(None)
    }
}

/// Whether the universal rule changes nothing in a text: no CR stands in it.
fn is_plain(text: &str) -> bool
    ensures { IsPlain (chars text.now) result }
{
    match memchr(b'\r', text.as_bytes()) {
        Some(_) => false,
        None => true,
    }
}

/// Whether a rule changes nothing in any text that some bytes begin with, and holds no CR behind it.
pub(crate) fn keeps_all(newline: Newlines, bytes: &[u8]) -> bool
    ensures { result ≡ true → KeepsFronts newline bytes.now }
{
    match newline {
        Newlines::Universal => match memchr(b'\r', bytes) {
            Some(_) => false,
            None => true,
        },
        Newlines::Passthrough | Newlines::Lf | Newlines::Cr | Newlines::Crlf => true,
    }
}

/// What a rule gives of a text while more may come, and whether a CR is held then; `cr` says that one is held before the
/// text. A text that the rule doesn't change isn't copied.
fn by_rule(
    alloc: Global,
    newline: Newlines,
    cr: bool,
    text: String,
) -> Result<(String, bool), AllocError>
    ensures gives { IfOk result (λ read. text_of read.0 ≡ read_so_far newline cr (text_of text)) }
    ensures holds { IfOk result (λ read. read.1 ≡ holds_after newline cr (text_of text)) }
{
    match newline {
        Newlines::Universal => {
            if !cr && is_plain(&text) {
                return Ok((text, false));
            }
            read_so_far(alloc, newline, cr, &text)
        }
        Newlines::Passthrough | Newlines::Lf | Newlines::Cr | Newlines::Crlf => Ok((text, false)),
    }
}

/// Puts a text behind another.
fn append(text: &mut String, more: String) -> Result<(), AllocError>
    ensures appended { OnOk result (text_of text.new ≡ text_of text.old ++ text_of more) }
    ensures same { OnErr result (text_of text.new ≡ text_of text.old) }
{
    if text.is_empty() {
        *text = more;
        return Ok(());
    }
    text.push_str(&more)?;
    Ok(())
}

/// Whether the place behind a CR that is held may be inside a CR LF, by the text that came behind it: none did, or an LF first.
fn may_cut(cr: bool, came: &str) -> bool
    ensures { result ≡ may_cut cr (chars came.now) }
{
    cr && (came.is_empty() || came.as_bytes()[0] == b'\n')
}

/// What a decoding came to.
#[derive(Clone, Copy)]
pub(crate) struct Decoded {
    /// What was decoded of the bytes.
    pub front: FrontDecoded,
    /// How many characters were appended for it, by the newline rule.
    pub chars: usize,
    /// Whether a CR is held behind them.
    pub cr: bool,
    /// Whether the place where it began may be inside a CR LF: a CR is held before it, and no other character than an LF came
    /// right behind that.
    pub cut: bool,
}

/// Appends what a rule gives of the characters that some bytes begin with, up to the first place between two items where
/// as many as are wanted were given; `cr` says that a CR is held before them.
pub(crate) fn decode_by(
    alloc: Global,
    coder: Coder,
    newline: Newlines,
    cr: bool,
    bytes: &[u8],
    want: usize,
    last: bool,
    text: &mut String,
) -> Result<Decoded, IoFault>
    requires reads { reads_texts coder.errors ≡ true }
    ensures part { IfOk result (λ decoded.
        let behind = walk_here coder.encoding (treatment coder.errors coder.encoding) last bytes.now in
        IsPart want (behind 0) behind decoded.front) }
    ensures appended { IfOk result (λ decoded.
        let cs = characters_of (items_for want (walk_here coder.encoding (treatment coder.errors coder.encoding) last bytes.now 0).items) in
        text_of text.new ≡ text_of text.old ++ read_so_far newline cr cs) }
    ensures chars { IfOk result (λ decoded.
        let cs = characters_of (items_for want (walk_here coder.encoding (treatment coder.errors coder.encoding) last bytes.now 0).items) in
        decoded.chars ≡ length (read_so_far newline cr cs)) }
    ensures holds { IfOk result (λ decoded.
        let cs = characters_of (items_for want (walk_here coder.encoding (treatment coder.errors coder.encoding) last bytes.now 0).items) in
        decoded.cr ≡ holds_after newline cr cs) }
    ensures cut { IfOk result (λ decoded.
        let cs = characters_of (items_for want (walk_here coder.encoding (treatment coder.errors coder.encoding) last bytes.now 0).items) in
        decoded.cut ≡ may_cut cr cs) }
    ensures within { IfOk result (λ decoded. decoded.front.used ≤ length bytes.now) }
    ensures memory { IfErr result (λ why. why ≡ IoFault.NoMemory) }
    ensures same { OnErr result (text_of text.new ≡ text_of text.old) }
{
    let (raw, front) = counted_front::<Brand>(Blank::new(1), alloc, coder, bytes, want, last)?;
    let size = raw.len();
    let cut = may_cut(cr, &raw);
    let (read, cr) = by_rule(alloc, newline, cr, raw)?;
    let chars = front.chars + read.len() - size;
    append(text, read)?;
    Ok(Decoded {
        front,
        chars,
        cr,
        cut,
    })
}

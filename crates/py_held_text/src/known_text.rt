ghost use Rattle.std.specs.Prelude.{◌≡◌, ◌++◌, ◌+◌, ◌≤◌, true, false, [], length, take, drop, string_bytes, option_map, IfOk, IfErr, IfSome, OnOk, OnErr, if◌then◌else◌};
ghost use Rattle.std.specs.String.{string_len};
ghost use Rattle.py_plain.specs.Handlers.{treatment, reads_texts};
ghost use Rattle.py_plain.specs.Items.{characters_of};
ghost use Rattle.py_plain.specs.NewlineRule.{holds_after};
ghost use Rattle.py_codec.specs.Answers.{text_of};
ghost use Rattle.py_codec.specs.Decoding.{walk_here};
ghost use Rattle.py_codec.specs.Front.{items_for};
ghost use Rattle.py_held_text.specs.Finding.{IsFrontOf, answer_of, enough, enough_before};
ghost use Rattle.py_held_text.specs.Known.{KnownView, reading, ended, may_cut, IsPart};
ghost use Rattle.py_held_text.specs.Plain.{nothing_known};

use crate::Wanted;
use crate::answer::{answer_before, answer_in, last_answer};
use crate::decoding::{Decoded, decode_by};
use crate::line_search::may_go_on;
use py_blocks::{TextFront, front_of};
use py_codec::IoFault;
use py_plain::Newlines;
use py_text::Coder;
use std::alloc::{AllocError, Global};
use std::marker::Model;
use std::mem;

/// Characters that are known in a text of their own, of which fronts are given, and whether a CR is held behind them.
#[derive(Debug, Drop)]
pub(crate) struct KnownText {
    newline: Newlines,
    text: String,
    given: usize,
    count: usize,
    searched: usize,
    cr: bool,
}

impl Model for KnownText {
    ghost use Rattle.std.specs.Prelude.{drop, chars, string_bytes};
    ghost use Rattle.py_held_text.specs.Known.{KnownView, IsKnown};

    ghost Value = { KnownView };

    ghost view = { λ t. record {
      newline = t.newline;
      characters = chars (drop t.given (string_bytes t.text));
      cr = t.cr;
    } };

    ghost invariant = { λ t. IsKnown t.newline (string_bytes t.text) t.given t.count t.searched t.cr };
}

/// How many bytes of room a text may always keep.
const KEPT: usize = 65536;

/// Lets go of the room of a text that has room for far more than it has and is to have.
fn trim(text: &mut String, more: usize)
    ensures bytes { string_bytes text.new ≡ string_bytes text.old }
    ensures len { string_len text.new ≡ string_len text.old }
{
    let room = text.capacity();
    if room > KEPT && room / 16 > text.len().saturating_add(more) {
        text.shrink_to(KEPT);
    }
}

/// Whether the first n bytes of a text are so much of it, and of its room, that the rest had better be copied than they.
fn is_most(text: &String, size: usize) -> bool
    requires { size ≤ string_len text.now }
{
    text.len() - size <= size / 4 && text.capacity() / 4 <= size
}

impl KnownText {
    /// Nothing is known. It takes no memory.
    pub fn new(alloc: Global, newline: Newlines) -> Self
        ensures { result ≡ record { newline = newline; characters = []; cr = false } }
    {
        KnownText {
            newline,
            text: String::new(alloc),
            given: 0,
            count: 0,
            searched: 0,
            cr: false,
        }
    }

    /// The rule that it is read by.
    pub fn newline(&self) -> Newlines
        ensures { result ≡ self.now.newline }
    {
        self.newline
    }

    /// How many characters are known.
    pub fn len(&self) -> usize
        ensures { result ≡ length self.now.characters }
    {
        self.count
    }

    /// How many they are with the LF that a held CR is by itself. A CR is held only where the rule holds one.
    pub fn len_with_cr(&self) -> usize
        ensures count { result ≡ length self.now.characters + (if self.now.cr then 1 else 0) }
        ensures holds { holds_after self.now.newline self.now.cr [] ≡ self.now.cr }
    {
        if self.cr { self.count + 1 } else { self.count }
    }

    /// Lets go of all, and reads by a rule from here on.
    pub fn clear(&mut self, newline: Newlines)
        ensures { self.new ≡ record { newline = newline; characters = []; cr = false } }
    {
        self.newline = newline;
        self.text.clear();
        self.given = 0;
        self.count = 0;
        self.searched = 0;
        self.cr = false;
    }

    /// Lets go of what was given of a text, and of most of its room, where nothing is known.
    pub fn let_go(&mut self)
        requires { self.old ≡ nothing_known self.old.newline }
        ensures { self.new ≡ self.old }
    {
        self.clear(self.newline);
        trim(&mut self.text, 0);
    }

    /// Has a text known, but for a front of it, in place of all that was known, and holds no CR.
    pub fn put(&mut self, text: String, skipped: TextFront)
        requires { IsFrontOf (text_of text) skipped }
        ensures { self.new ≡ record self.old { characters = drop skipped.chars (text_of text); cr = false } }
    {
        self.count = front_of(&text, usize::MAX).chars - skipped.chars;
        self.text = text;
        self.given = skipped.bytes;
        self.searched = 0;
        self.cr = false;
    }

    /// Lets go of the bytes that were given, and of most of the room of a text that was much longer; n bytes more are to be
    /// read.
    fn compact(&mut self, more: usize) -> Result<(), AllocError>
        ensures { self.new ≡ self.old }
    {
        if self.given > 0 {
            self.text.replace_range(..self.given, "")?;
            self.given = 0;
        }
        trim(&mut self.text, more);
        Ok(())
    }

    /// Whether nothing is known, and no CR is held.
    pub fn is_empty(&self) -> bool
        ensures { result ≡ true → self.now ≡ nothing_known self.now.newline }
    {
        self.count == 0 && !self.cr
    }

    /// Whether the next character tells whether a CR that comes last is a line end by itself.
    pub fn ends_open(&self) -> bool {
        self.cr || may_go_on(self.newline, &self.text[self.given..])
    }

    /// Reads the characters that some bytes begin with, up to the first place between two items where as many as are wanted were
    /// given. It tells, too, whether those bytes may begin inside a CR LF.
    pub fn decode(
        &mut self,
        alloc: Global,
        coder: Coder,
        bytes: &[u8],
        want: usize,
        last: bool,
    ) -> Result<Decoded, IoFault>
        requires reads { reads_texts coder.errors ≡ true }
        ensures part { IfOk result (λ decoded.
            let behind = walk_here coder.encoding (treatment coder.errors coder.encoding) last bytes.now in
            IsPart want (behind 0) behind decoded.front) }
        ensures reading { OnOk result (
            let walk = walk_here coder.encoding (treatment coder.errors coder.encoding) last bytes.now 0 in
            self.new ≡ reading self.old (characters_of (items_for want walk.items))) }
        ensures cut { IfOk result (λ decoded.
            let walk = walk_here coder.encoding (treatment coder.errors coder.encoding) last bytes.now 0 in
            decoded.cut ≡ may_cut self.old.cr (characters_of (items_for want walk.items))) }
        ensures within { IfOk result (λ decoded. decoded.front.used ≤ length bytes.now) }
        ensures memory { IfErr result (λ why. why ≡ IoFault.NoMemory) }
        ensures same { OnErr result (self.new ≡ self.old) }
    {
        self.compact(bytes.len())?;
        let decoded = decode_by(
            alloc,
            coder,
            self.newline,
            self.cr,
            bytes,
            want,
            last,
            &mut self.text,
        )?;
        self.count += decoded.chars;
        self.cr = decoded.cr;
        Ok(decoded)
    }

    /// Gives an LF for a held CR.
    pub fn release(&mut self) -> Result<(), AllocError>
        ensures released { OnOk result (self.new ≡ ended self.old) }
        ensures same { OnErr result (self.new ≡ self.old) }
    {
        if self.cr {
            self.text.push('\n')?;
            self.count += 1;
            self.cr = false;
        }
        Ok(())
    }

    /// The front that is the whole answer, whatever comes behind it.
    pub fn find(&mut self, wanted: Wanted) -> Option<TextFront>
        ensures count { option_map (λ front. front.chars) result ≡ enough wanted self.old.newline self.old.characters }
        ensures front { IfSome result (IsFrontOf self.old.characters) }
        ensures same { self.new ≡ self.old }
    {
        let text = &self.text[self.given..];
        answer_in(self.newline, text, self.count, &mut self.searched, wanted)
    }

    /// The front that is the whole answer where a refused range comes behind.
    pub fn find_before(&self, wanted: Wanted) -> Option<TextFront>
        ensures count { option_map (λ front. front.chars) result ≡ enough_before wanted self.now.newline self.now.characters }
        ensures front { IfSome result (IsFrontOf self.now.characters) }
    {
        let text = &self.text[self.given..];
        answer_before(self.newline, text, self.count, self.searched, wanted)
    }

    /// The front that is the answer where nothing comes behind.
    pub fn find_last(&self, wanted: Wanted) -> TextFront
        ensures answer { take result.chars self.now.characters ≡ answer_of wanted self.now.newline self.now.characters }
        ensures front { IsFrontOf self.now.characters result }
    {
        let text = &self.text[self.given..];
        last_answer(self.newline, text, self.count, self.searched, wanted)
    }

    /// Gives a front, which isn't known any more.
    pub fn give(&mut self, alloc: Global, front: TextFront) -> Result<String, AllocError>
        requires { IsFrontOf self.old.characters front }
        ensures text { IfOk result (λ text. text_of text ≡ take front.chars self.old.characters) }
        ensures left { OnOk result (self.new ≡ record self.old { characters = drop front.chars self.old.characters }) }
        ensures same { OnErr result (self.new ≡ self.old) }
    {
        let end = self.given + front.bytes;
        if self.given == 0 && is_most(&self.text, end) {
            let rest = self.text.split_off(end)?;
            self.count -= front.chars;
            self.searched = 0;
            return Ok(mem::replace(&mut self.text, rest));
        }
        let text = String::from_str(alloc, &self.text[self.given..end])?;
        self.given = end;
        self.count -= front.chars;
        self.searched = 0;
        Ok(text)
    }
}

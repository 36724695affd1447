ghost use Rattle.std.specs.Prelude.{◌≡◌, ◌++◌, ◌+◌, ◌-◌, ◌≤◌, ◌||◌, true, false, [], length, take, drop, vec_len, vec_capacity, option_map, IfOk, IfErr, IfSome, OnOk, OnErr};
ghost use Rattle.py_flat.specs.Limits.{greatest_place};
ghost use Rattle.py_plain.specs.Handlers.{reads_texts};
ghost use Rattle.py_plain.specs.NewlineRule.{read_all, holds_after};
ghost use Rattle.py_codec.specs.Answers.{text_of};
ghost use Rattle.py_telling.specs.InHand.{surely_given};
ghost use Rattle.py_telling.specs.ToldView.{IsTold, IsToldAmong};
ghost use Rattle.py_held_text.specs.Held.{nothing_held, cleared, base_of, whole_of, held_anew};
ghost use Rattle.py_held_text.specs.Decodes.{known_with_cr, DecodeOutcome, DecodeLastOutcome, IsStopped, PartOutcome};
ghost use Rattle.py_held_text.specs.Plain.{IsPlainPart};
ghost use Rattle.py_held_text.specs.Finding.{IsFrontOf, answer_of, enough, enough_before, GiveOutcome};

use crate::answer::{answer_before, answer_in, lacks, last_answer};
use crate::base::{base_behind, next_mark, walked_from};
use crate::known_text::KnownText;
use crate::line_search::may_go_on;
use crate::plain_text::{
    PlainText, behind, decode_known, give_known, plain_front, plain_text, take_known,
};
use crate::reach::reach;
use crate::{HeldStop, Mark, Wanted};
use py_blocks::TextFront;
use py_codec::{FrontStop, IoFault};
use py_plain::Newlines;
use py_telling::{Told, Walked, told_among};
use py_text::Coder;
use std::alloc::Global;
use std::fmt;
use std::marker::Model;

/// What a text stream has in hand: characters that it knows and hasn't given, and the bytes that it took behind them and
/// hasn't decoded. Of those that were decoded it has the last, from a base on, a boundary between items, and it counts the
/// characters that were given since; so where the text stands is told by what is in hand. While no character was given
/// since it was made or cleared, the base is where it began, and all can be read anew by other settings. The base moves
/// on with what is given, so that what is in hand doesn't grow with the stream, but over bytes that give no character, and
/// where every decoding begins inside a CR LF. Where the text was put inside an item, the base is behind that item, and the
/// first of the known characters, the front, stand before the base. Known characters that are UTF-8 in the bytes, and that the rule doesn't
/// change, are kept as these bytes alone, the last of those that were decoded.
///
/// Contracts see the settings, the known characters, whether a CR is held behind them (under the universal rule, until
/// the next character releases it), how many of them stand before the base, the bytes that were decoded since the base, the
/// characters that were given since, the next base, whether a decoding knew that no bytes come behind those in hand, the
/// bytes that aren't decoded with their place in the stream and the order that they are read in, and the room for more.
/// Whatever bytes come behind those in hand, the text that is left stays: decoding moves it from bytes to characters, and
/// only `give`, `clear`, `stand_behind` and `read_anew` change it. As long as no decoding knew that none come, the bytes
/// since the base surely give the characters that were given since.
#[derive(Drop)]
pub struct HeldText {
    coder: Coder,
    /// What is known in a text of its own: nothing where any of the bytes are known text.
    known: KnownText,
    /// How much of the bytes that are decoded, the last of them, is known text.
    plain: PlainText,
    /// How many of the known characters stand before the base.
    front: usize,
    bytes: Vec<u8>,
    /// How many of the bytes stand before the base: they are removed when room is taken.
    gone: usize,
    /// How many of the bytes are decoded.
    decoded: usize,
    /// How many characters were given since the base.
    given: u128,
    mark: Option<Mark>,
    /// Whether a decoding knew that no bytes come behind those in hand.
    ended: bool,
    place: u64,
    /// How far the bytes from the base on were walked to tell where the text stands.
    walked: Walked,
}

impl Model for HeldText {
    ghost use Rattle.std.specs.Prelude.{◌≡◌, ◌-◌, true, length, drop, vec_len, vec_capacity};
    ghost use Rattle.py_plain.specs.Handlers.{reads_texts};
    ghost use Rattle.py_telling.specs.Walks.{IsWalked};
    ghost use Rattle.py_held_text.specs.Held.{HeldView, view_of, IsHeld};
    ghost use Rattle.py_held_text.specs.Bases.{KeepsSure};
    ghost use Rattle.py_held_text.specs.Plain.{known_of, IsShared};

    ghost Value = { HeldView };

    ghost view = { λ h. view_of h.coder (known_of h.known h.plain.bytes h.decoded h.bytes.items) h.front h.gone h.decoded h.bytes.items h.given h.mark h.ended h.place (vec_capacity h.bytes - vec_len h.bytes) };

    ghost invariant = { λ h.
        let known = known_of h.known h.plain.bytes h.decoded h.bytes.items in
        (((reads_texts h.coder.errors ≡ true) × KeepsSure (view_of h.coder known h.front h.gone h.decoded h.bytes.items h.given h.mark h.ended h.place 0) × IsWalked h.coder.encoding h.coder.errors known.newline (drop h.gone h.bytes.items) h.given h.walked) × IsHeld (vec_len h.bytes) h.gone h.decoded h.place (length known.characters) h.front h.given known.cr h.mark) × IsShared h.known h.plain h.decoded h.bytes.items };
}

// Only how much is in hand, and not what: thousands of characters would hide all else.
impl fmt::Debug for HeldText {
    fn fmt<W: fmt::Write>(&self, f: &mut fmt::Formatter<W>) -> fmt::Result {
        f.debug_struct("HeldText")
            .field("coder", &self.coder)
            .field("known", &self.known())
            .field("bytes", &(self.bytes.len() - self.decoded))
            .field("place", &self.place)
            .finish_non_exhaustive()
    }
}

/// Removes the front of some bytes. The room that they had is left for others.
pub fn drop_front(bytes: &mut Vec<u8>, count: usize)
    requires { count ≤ vec_len bytes.old }
    ensures items { bytes.new.items ≡ drop count bytes.old.items }
    ensures len { vec_len bytes.new ≤ vec_len bytes.old }
    ensures capacity { vec_capacity bytes.new ≡ vec_capacity bytes.old }
{
    let rest = bytes.len() - count;
    bytes.copy_within(count.., 0);
    bytes.truncate(rest);
}

/// How many bytes of room may always be kept.
const KEPT: usize = 65536;

/// Lets go of the room of some bytes that have room for far more than there are.
fn trim(bytes: &mut Vec<u8>)
    ensures items { bytes.new.items ≡ bytes.old.items }
    ensures len { vec_len bytes.new ≡ vec_len bytes.old }
{
    let room = bytes.capacity();
    if room > KEPT && room / 16 > bytes.len() {
        bytes.shrink_to(KEPT);
    }
}

/// Whether a decoding knows that no bytes come behind those in hand, or one before it did.
fn is_ended(last: bool, before: bool) -> bool
    ensures { result ≡ (last || before) }
{
    last || before
}

impl HeldText {
    /// Nothing in hand, at a byte place of the stream. The handler of the coder is one of those that texts are read with.
    /// It takes no memory.
    pub fn new(alloc: Global, coder: Coder, newline: Newlines, place: u64) -> Self
        requires reads { reads_texts coder.errors ≡ true }
        requires near { place ≤ greatest_place }
        ensures { result ≡ nothing_held coder newline place 0 }
    {
        HeldText {
            coder,
            known: KnownText::new(alloc, newline),
            plain: PlainText::default(),
            front: 0,
            bytes: Vec::new(alloc),
            gone: 0,
            decoded: 0,
            given: 0,
            mark: None,
            ended: false,
            place,
            walked: Walked::default(),
        }
    }

    /// What the bytes are decoded by.
    pub fn coder(&self) -> Coder
        ensures encoding { result.encoding ≡ self.now.encoding }
        ensures handler { result.errors ≡ self.now.handler }
        ensures reads { reads_texts result.errors ≡ true }
    {
        self.coder
    }

    /// The rule of the line ends.
    pub fn newline(&self) -> Newlines
        ensures { result ≡ self.now.newline }
    {
        self.known.newline()
    }

    /// How many characters are known.
    pub fn known(&self) -> usize
        ensures { result ≡ length self.now.known }
    {
        if self.plain.bytes > 0 {
            return self.plain.count;
        }
        self.known.len()
    }

    /// How many they are with the LF that a held CR is by itself. A CR is held only where the rule holds one.
    fn known_with_cr(&self) -> usize
        ensures count { result ≡ known_with_cr self.now }
        ensures holds { holds_after self.now.newline self.now.cr [] ≡ self.now.cr }
    {
        if self.plain.bytes > 0 {
            return self.plain.count;
        }
        self.known.len_with_cr()
    }

    /// How many of the known characters stand before the base: those that are left of the item that the text was put inside.
    pub fn front(&self) -> usize
        ensures { result ≡ self.now.front }
    {
        self.front
    }

    /// How many bytes in hand aren't decoded.
    pub fn undecoded(&self) -> usize
        ensures { result ≡ length self.now.bytes }
    {
        self.bytes.len() - self.decoded
    }

    /// The byte place of the stream at which the bytes in hand begin that aren't decoded.
    pub fn place(&self) -> u64
        ensures place { result ≡ self.now.place }
        ensures near { result + length self.now.bytes ≤ greatest_place }
        ensures back { length self.now.back ≤ result }
    {
        self.place
    }

    /// Takes room for n bytes more behind those in hand. `NoMemory` when out of memory, and all is as before.
    pub fn reserve(&mut self, size: usize) -> Result<(), IoFault>
        ensures room { OnOk result (size ≤ self.new.room) }
        ensures rest { self.new ≡ record self.old { room = self.new.room } }
        ensures memory { IfErr result (λ why. why ≡ IoFault.NoMemory) }
        ensures same { OnErr result (self.new ≡ self.old) }
    {
        self.bytes.reserve(size)?;
        self.forget();
        Ok(())
    }

    /// Removes the bytes before the base, but for those that are known text.
    fn forget(&mut self)
        ensures rest { self.new ≡ record self.old { room = self.new.room } }
        ensures room { self.old.room ≤ self.new.room }
    {
        let gone = self.gone.min(self.decoded - self.plain.bytes);
        if gone > 0 {
            drop_front(&mut self.bytes, gone);
            self.decoded -= gone;
            self.gone -= gone;
        }
    }

    /// Lets go of the bytes before the base, and of most of the room, where they are many and most of all.
    fn shrink(&mut self)
        ensures { self.new ≡ record self.old { room = self.new.room } }
    {
        if self.gone > KEPT && self.gone > self.bytes.len() / 2 {
            self.forget();
            trim(&mut self.bytes);
        }
    }

    /// Puts bytes behind those in hand, for which there is room; for others there is as much less. It takes no memory.
    pub fn push(&mut self, part: &[u8])
        requires fits { length part.now ≤ self.old.room }
        requires near { self.old.place + length self.old.bytes + length part.now ≤ greatest_place }
        ensures pushed { self.new ≡ record self.old { bytes = self.old.bytes ++ part.now; room = self.new.room } }
        ensures room { self.old.room ≤ self.new.room + length part.now }
    {
        self.bytes.extend_from_slice(part).unwrap();
    }

    /// How many of the bytes in hand an answer may want that wants so many characters; all of them where `all` says so.
    fn size_wanted(&self, wanted: Wanted, want: usize, all: bool) -> usize
        ensures within { result ≤ length self.now.bytes }
        ensures all { all ≡ true → result ≡ length self.now.bytes }
    {
        if all {
            return self.undecoded();
        }
        let bytes = behind(&self.bytes, self.decoded);
        let newline = self.known.newline();
        reach(self.coder.encoding, newline, wanted, want, bytes)
    }

    /// Decodes the bytes in hand as far as an answer may want them, where more may come behind them; what they give is known then.
    /// `None` where others in hand may give more, else why they don't. A refused range stays in hand, and what was known before it
    /// stays known. Where `all` says so, no byte is held to be behind the answer, and a decoding that may go on used some.
    ///
    /// `NoMemory` when out of memory, and all is as before.
    pub fn decode(
        &mut self,
        alloc: Global,
        wanted: Wanted,
        all: bool,
    ) -> Result<Option<HeldStop>, IoFault>
        ensures { DecodeOutcome all self.old result self.new }
    {
        let want = self.lacks(wanted);
        let size = self.size_wanted(wanted, want, all);
        let front = self.plain_front(size, want);
        if front > 0 {
            return self.decode_part(alloc, front, want, true, false);
        }
        self.decode_part(alloc, size, want, false, false)
    }

    /// Decodes the bytes in hand, behind which none come, and says why they give no more. What they give is known then. A refused
    /// range stays in hand, and what was known before it stays known.
    ///
    /// `NoMemory` when out of memory, and all is as before.
    pub fn decode_last(&mut self, alloc: Global) -> Result<HeldStop, IoFault>
        ensures { DecodeLastOutcome self.old result self.new }
    {
        let size = self.undecoded();
        let front = self.plain_front(size, usize::MAX);
        let is_plain = front > 0 && front == size;
        match self.decode_part(alloc, size, usize::MAX, is_plain, true)? {
            Some(stop) => Ok(stop),
            // No memory holds as many characters as are wanted.
            None => Ok(HeldStop::Drained),
        }
    }

    /// How many characters a call may want besides those that are known, one at least.
    fn lacks(&self, wanted: Wanted) -> usize
        ensures { 1 ≤ result }
    {
        if self.plain.bytes > 0 {
            let text = plain_text(&self.bytes, self.decoded, self.plain.bytes);
            let goes_on = may_go_on(self.known.newline(), text);
            return lacks(wanted, self.plain.count, goes_on);
        }
        lacks(wanted, self.known.len(), self.known.ends_open())
    }

    /// How many of the first n of the bytes in hand can be known text as they are, and are no more than the characters that are wanted.
    fn plain_front(&self, size: usize, want: usize) -> usize
        requires { size ≤ length self.now.bytes }
        ensures within { result ≤ size }
        ensures plain { 1 ≤ result → IsPlainPart self.now.encoding self.now.newline want (take result self.now.bytes) }
    {
        if !self.known.is_empty() {
            return 0;
        }
        let bytes = &behind(&self.bytes, self.decoded)[..size];
        plain_front(self.coder.encoding, self.known.newline(), bytes, want)
    }

    /// Decodes the first n of the bytes in hand, as far as so many characters are wanted; `last` says that none come behind
    /// them, and `is_plain` that all of them can be known text as they are. `None` where there are as many, or where others stand behind
    /// those bytes; else why there are no more.
    fn decode_part(
        &mut self,
        alloc: Global,
        size: usize,
        want: usize,
        is_plain: bool,
        last: bool,
    ) -> Result<Option<HeldStop>, IoFault>
        requires within { size ≤ length self.old.bytes }
        requires all { last ≡ true → size ≡ length self.old.bytes }
        requires some { 1 ≤ want }
        requires plain { is_plain ≡ true → IsPlainPart self.old.encoding self.old.newline want (take size self.old.bytes) }
        ensures outcome { PartOutcome last size want self.old result self.new }
        ensures used { is_plain ≡ true → OnOk result (length self.new.bytes + size ≡ length self.old.bytes) }
    {
        let count = self.known_with_cr();
        let ended = is_ended(last, self.ended);
        let is_all = size == self.bytes.len() - self.decoded;
        let decoded = decode_known(
            alloc,
            self.coder,
            &mut self.known,
            &mut self.plain,
            &self.bytes,
            self.decoded,
            size,
            want,
            is_plain,
            last,
        )?;
        let front = decoded.front;
        let from = self.place;
        self.mark = next_mark(self.mark, decoded.cut, count, self.decoded - self.gone);
        self.ended = ended;
        self.decoded += front.used;
        self.place += front.used as u64;
        match front.stop {
            FrontStop::Refused { start, end } => Ok(Some(HeldStop::Refused {
                start: from + start as u64,
                end: from + end as u64,
            })),
            FrontStop::Drained => {
                if is_all {
                    Ok(Some(HeldStop::Drained))
                } else {
                    Ok(None)
                }
            }
            FrontStop::Wanted => Ok(None),
        }
    }

    /// Gives an LF for a held CR: nothing comes behind what is known, or a refused range does.
    ///
    /// `NoMemory` when out of memory, and all is as before.
    pub fn release(&mut self) -> Result<(), IoFault>
        requires stops { self.old.ended ≡ false → IsStopped self.old }
        ensures released { OnOk result (self.new ≡ record self.old { known = self.old.known ++ read_all self.old.newline self.old.cr []; cr = false }) }
        ensures memory { IfErr result (λ why. why ≡ IoFault.NoMemory) }
        ensures same { OnErr result (self.new ≡ self.old) }
    {
        if self.plain.bytes > 0 {
            return Ok(());
        }
        self.known.release()?;
        Ok(())
    }

    /// The front of what is known that is the whole answer, whatever comes behind; `None` where what is known may be only a
    /// front of the answer. A line that isn't whole yet is looked at from where the last search for its end came to.
    pub fn find(&mut self, wanted: Wanted) -> Option<TextFront>
        ensures count { option_map (λ front. front.chars) result ≡ enough wanted self.old.newline self.old.known }
        ensures front { IfSome result (IsFrontOf self.old.known) }
        ensures same { self.new ≡ self.old }
    {
        if self.plain.bytes > 0 {
            let text = plain_text(&self.bytes, self.decoded, self.plain.bytes);
            return answer_in(
                self.known.newline(),
                text,
                self.plain.count,
                &mut self.plain.searched,
                wanted,
            );
        }
        self.known.find(wanted)
    }

    /// The front of what is known that is the whole answer where a refused range comes behind; `None` where the answer would
    /// pass the range. A held CR is to be released before.
    pub fn find_before(&self, wanted: Wanted) -> Option<TextFront>
        ensures count { option_map (λ front. front.chars) result ≡ enough_before wanted self.now.newline self.now.known }
        ensures front { IfSome result (IsFrontOf self.now.known) }
    {
        if self.plain.bytes > 0 {
            let text = plain_text(&self.bytes, self.decoded, self.plain.bytes);
            return answer_before(
                self.known.newline(),
                text,
                self.plain.count,
                self.plain.searched,
                wanted,
            );
        }
        self.known.find_before(wanted)
    }

    /// The front of what is known that is the answer where nothing comes behind.
    pub fn find_last(&self, wanted: Wanted) -> TextFront
        ensures answer { take result.chars self.now.known ≡ answer_of wanted self.now.newline self.now.known }
        ensures front { IsFrontOf self.now.known result }
    {
        if self.plain.bytes > 0 {
            let text = plain_text(&self.bytes, self.decoded, self.plain.bytes);
            return last_answer(
                self.known.newline(),
                text,
                self.plain.count,
                self.plain.searched,
                wanted,
            );
        }
        self.known.find_last(wanted)
    }

    /// Gives a front of what is known, which isn't known any more. The base moves to the mark once the front has a character
    /// behind it, and the bytes before the base aren't in hand any more.
    ///
    /// `NoMemory` when out of memory, and all is as before.
    pub fn give(&mut self, alloc: Global, front: TextFront) -> Result<String, IoFault>
        requires front { IsFrontOf self.old.known front }
        ensures { GiveOutcome front self.old result self.new }
    {
        let text = give_known(
            alloc,
            &mut self.known,
            &mut self.plain,
            &self.bytes,
            self.decoded,
            front,
        )?;
        let base = base_behind(front.chars, self.front, self.given, self.mark);
        self.front = base.front;
        self.gone += base.passed;
        self.given = base.given;
        self.mark = base.mark;
        self.walked = walked_from(base.passed, self.walked);
        self.shrink();
        Ok(text)
    }

    /// Gives all that is known, where all of the bytes in hand are decoded and no CR is held, and lets go of all that is in hand; it stands at
    /// its place. Where the known text is all of the bytes that are kept, it is given as it is.
    ///
    /// `NoMemory` when out of memory, and all is as before.
    pub fn give_rest(&mut self, alloc: Global) -> Result<String, IoFault>
        requires decoded { self.old.bytes ≡ [] }
        requires whole { self.old.cr ≡ false }
        ensures text { IfOk result (λ text. text_of text ≡ self.old.known) }
        ensures cleared { OnOk result (self.new ≡ cleared self.old self.old.place self.new.room) }
        ensures memory { IfErr result (λ why. why ≡ IoFault.NoMemory) }
        ensures same { OnErr result (self.new ≡ self.old) }
    {
        let newline = self.known.newline();
        let text = take_known(
            alloc,
            &mut self.known,
            &mut self.bytes,
            self.decoded,
            self.plain.bytes,
        )?;
        *self = HeldText::new(alloc, self.coder, newline, self.place);
        Ok(text)
    }

    /// Where the text stands, by the bytes from the base on. Where a decoding knew that none come behind those in hand, it is what the text
    /// tells where none do; else it is that, whatever comes behind them, since these bytes surely give as many characters as were given since
    /// the base. Each of them is read once, or twice, and those that an earlier call read aren't read again, but for the last few once a
    /// decoding knew that none come: it goes on from where that one came to. As long as known characters stand before the base, none was
    /// given since, and the base is told, which isn't where the text stands: the layer above tells that. It takes no memory.
    pub fn tell(&mut self) -> Told
        ensures told { IsToldAmong self.old.encoding self.old.handler self.old.newline self.old.ended (base_of self.old) self.old.given (whole_of self.old) result }
        ensures sure { self.old.ended ≡ false → self.old.given ≤ length (surely_given self.old.encoding self.old.handler self.old.newline false (whole_of self.old)) }
        ensures forth { base_of self.old ≤ result.start }
        ensures fits { result.start + result.length ≤ self.old.place + length self.old.bytes }
        ensures within { IsTold result }
        ensures same { self.new ≡ self.old }
    {
        let bytes = behind(&self.bytes, self.gone);
        let base = self.place - (self.decoded - self.gone) as u64;
        let (told, walked) = told_among(
            self.coder.encoding,
            self.coder.errors,
            self.known.newline(),
            bytes,
            base,
            self.given,
            self.walked,
            self.ended,
        );
        self.walked = walked;
        told
    }

    /// Has all bytes from the base on in hand again, also those that were decoded, to read them by other settings: nothing is
    /// known then, and the base stays. It takes no memory.
    pub fn read_anew(&mut self, coder: Coder, newline: Newlines)
        requires reads { reads_texts coder.errors ≡ true }
        ensures anew { self.new ≡ held_anew coder newline self.old }
        ensures behind { length self.old.back ≤ self.old.place }
    {
        self.coder = coder;
        self.known.clear(newline);
        self.plain = PlainText::default();
        self.front = 0;
        self.place -= (self.decoded - self.gone) as u64;
        self.decoded = self.gone;
        self.given = 0;
        self.mark = None;
        self.ended = false;
        self.walked = Walked::default();
    }

    /// Lets go of all that is in hand, and stands at another byte place of the stream.
    pub fn clear(&mut self, place: u64)
        requires near { place ≤ greatest_place }
        ensures cleared { self.new ≡ cleared self.old place self.new.room }
        ensures room { self.old.room ≤ self.new.room }
    {
        self.known.clear(self.known.newline());
        self.plain = PlainText::default();
        self.front = 0;
        self.bytes.clear();
        self.gone = 0;
        self.decoded = 0;
        self.given = 0;
        self.mark = None;
        self.ended = false;
        self.walked = Walked::default();
        self.place = place;
    }

    /// Lets go of all that is in hand, and stands inside an item that ends at a byte place of the stream. The characters of a
    /// text are known then, but for its first few, which are skipped: they are those of the item, and stand before the base. It
    /// takes no memory.
    pub fn stand_behind(&mut self, place: u64, text: String, skipped: TextFront)
        requires near { place ≤ greatest_place }
        requires skipped { IsFrontOf (text_of text) skipped }
        ensures stands { self.new ≡ record (cleared self.old place self.new.room) { known = drop skipped.chars (text_of text); front = length (drop skipped.chars (text_of text)) } }
        ensures room { self.old.room ≤ self.new.room }
    {
        self.clear(place);
        self.known.put(text, skipped);
        self.front = self.known.len();
    }
}

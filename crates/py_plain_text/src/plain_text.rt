ghost use Rattle.std.specs.Prelude.{◌≡◌, ◌+◌, ◌^◌, ◌<◌, ◌≤◌, false, length, take, IfOk, IfErr, OnOk};
ghost use Rattle.py_plain_text.specs.PlainSteps.{plain_text, place_shown, changes_shown, IsTextAt, text_reply, done_reply, IsAccepted, IsUnread, IsAnswer, IsWritten, IsUnwritten, PlainStep, PlainAnswer, count_reply};
ghost use Rattle.py_plain_text.specs.PlainCookies.{cookie_reply, landed_by, IsLanding};
ghost use Rattle.py_plain_text.specs.CookieView.{cookie_shown};
ghost use Rattle.py_plain_text.specs.Landing.{lands};
ghost use Rattle.py_flat.specs.Bytes.{first_of};
ghost use Rattle.py_plain_text.specs.Rest.{text_rest};
ghost use Rattle.py_plain_text.specs.TextStep.{asks_past, asks_any, range_refusal, after_taking, at_the_end};
ghost use Rattle.py_plain_text.specs.TextCalls.{Read, ReadLine, WriteText, SeekText, Tell, Reconfigure, Close};
ghost use Rattle.py_plain_text.specs.TextRefusals.{changes_refusal};
ghost use Rattle.py_plain_text.specs.TextExact.{text_sought, exact};

use crate::plain_changes::fits_both;
use crate::plain_place::{GREATEST_PLACE, fits, left};
use crate::plain_seek::{lands, seek_fault, sought};
use crate::plain_tell::told;
use crate::plain_write::{laid, written};
use crate::{PlainChanges, PlainPlace, PlainSettings, TextIOCookie};
use py_flat::{Chars, IoFault, Life};
use py_plain::{Decoded, encode, first_line};
use std::alloc::{AllocError, Global};
use std::marker::Model;

/// A text over a list of bytes, read by decoding all of them again at each call.
///
/// It is slow, and plain on purpose: other texts are compared with it.
#[derive(Debug, Drop)]
pub struct PlainText {
    bytes: Vec<u8>,
    settings: PlainSettings,
    line_buffering: bool,
    write_through: bool,
    place: PlainPlace,
    closed: bool,
}

impl Model for PlainText {
    ghost use Rattle.py_plain_text.specs.TextFile.{TextFile};

    ghost Value = { TextFile };

    ghost use Rattle.py_plain_text.specs.PlainView.{shown, IsPlaced};

    ghost view = { shown };

    ghost invariant = { IsPlaced };
}

/// The characters as a text, or `Err` when out of memory.
fn spelled(alloc: Global, characters: &[char]) -> Result<Chars, AllocError>
    ensures { IfOk result (λ c. c ≡ characters.now) }
{
    let mut text = String::new(alloc);
    for character in characters {
        text.push(*character)?;
    }
    Ok(Chars::from_string(text))
}

/// Whether a size asks for more characters than there are.
fn asks_past(size: Option<usize>, characters: &[char]) -> bool
    ensures { result ≡ asks_past size characters.now }
{
    match size {
        None => true,
        Some(size) => characters.len() < size,
    }
}

/// Whether a size or limit asks for anything.
fn asks_any(size: Option<usize>) -> bool
    ensures { result ≡ asks_any size }
{
    match size {
        None => true,
        Some(size) => size != 0,
    }
}

/// How many of some characters a size asks for.
fn count_of(size: Option<usize>, characters: &[char]) -> usize
    ensures count { take result characters.now ≡ first_of size characters.now }
    ensures within { result ≤ length characters.now }
{
    match size {
        None => characters.len(),
        Some(size) => size.min(characters.len()),
    }
}

/// The fault of a refused range that an answer would have to pass.
fn range_fault(passes: bool, range: Option<(usize, usize)>) -> Option<IoFault>
    ensures { result ≡ range_refusal passes range }
{
    match range {
        Some((start, end)) if passes => Some(IoFault::UnicodeDecodeError {
            start: start as u64,
            end: end as u64,
        }),
        _ => None,
    }
}

/// The first characters that are left, or the fault of a refused range that they would have to pass. `NoMemory` where
/// there is none.
fn answer(
    alloc: Global,
    front: &[char],
    passes: bool,
    range: Option<(usize, usize)>,
) -> Result<Chars, IoFault>
    ensures { IsAnswer result (range_refusal passes range) front.now }
{
    if let Some(fault) = range_fault(passes, range) {
        return Err(fault);
    }
    match spelled(alloc, front) {
        Ok(characters) => Ok(characters),
        Err(_) => Err(IoFault::NoMemory),
    }
}

impl PlainText {
    /// A text of these bytes at its beginning, live, in an encoding, with a handler and a newline rule. It can be read,
    /// and it takes no memory.
    pub fn new(bytes: Vec<u8>, settings: PlainSettings) -> Self
        ensures { result ≡ plain_text bytes.items settings }
    {
        PlainText {
            bytes,
            settings,
            line_buffering: false,
            write_through: false,
            place: PlainPlace::clean_at(0),
            closed: false,
        }
    }

    /// A text of these bytes at a place, live, in an encoding, with a handler and a newline rule. It can be read and written.
    ///
    /// `None` exactly where the place doesn't fit the bytes: its front doesn't lie within them or has more than four bytes, which no item
    /// has; or its byte is past 9223372036854775807, where no stream stands; or more characters are taken than there are; or it isn't dirty
    /// and has a front or characters that were taken. The `Err` means out of memory. A place whose byte lies past the end of the bytes fits.
    pub fn placed(
        alloc: Global,
        bytes: Vec<u8>,
        settings: PlainSettings,
        place: PlainPlace,
    ) -> Result<Option<Self>, AllocError>
        ensures { IfOk result (IsTextAt bytes.items settings place) }
    {
        if !fits(alloc, settings, &bytes, &place)? {
            return Ok(None);
        }
        Ok(Some(PlainText {
            bytes,
            settings,
            line_buffering: false,
            write_through: false,
            place,
            closed: false,
        }))
    }

    /// Where the text stands.
    pub fn place(&self) -> PlainPlace
        ensures { place_shown result ≡ self.now.place }
    {
        self.place
    }

    /// What is left of the text: the characters up to the end or a refused range, and that range in bytes from the
    /// start of the text. `Closed` where the text is closed, else `NoMemory` where there is none.
    fn rest(&self, alloc: Global) -> Result<Decoded, IoFault>
        ensures accepted { OnOk result (IsAccepted self.now) }
        ensures characters { IfOk result (λ d. d.characters.items ≡ (text_rest self.now).characters) }
        ensures refusal { IfOk result (λ d. d.refusal ≡ (text_rest self.now).refusal) }
        ensures fits { IfOk result (λ d. self.now.place.taken + length d.characters.items < 2 ^ 64) }
        ensures err { IfErr result (λ fault. IsUnread self.now fault) }
    {
        if self.closed {
            return Err(IoFault::Closed);
        }
        match left(alloc, self.settings, &self.bytes, &self.place, true) {
            Ok(rest) => Ok(rest),
            Err(_) => Err(IoFault::NoMemory),
        }
    }

    /// Counts characters as taken; `asks` says whether any were asked for.
    fn take(&mut self, count: usize, asks: bool)
        requires there { count ≤ length (text_rest self.old).characters }
        requires fits { self.old.place.taken + count < 2 ^ 64 }
        requires asked { asks ≡ false → count ≡ 0 }
        ensures { self.new ≡ after_taking self.old count asks }
    {
        self.place.taken += count;
        self.place.dirty = self.place.dirty || asks;
    }

    /// Goes to the end of the bytes, as a read of all does.
    fn move_to_end(&mut self)
        ensures { self.new ≡ at_the_end self.old }
    {
        self.place = PlainPlace::clean_at(self.place.at.max(self.bytes.len()));
    }

    /// Reads n characters, or all that are left for none: fewer only at the end.
    ///
    /// `UnicodeDecodeError` where a refused range stands before the last of them, `Closed` where the text is closed,
    /// `NoMemory` where there is none: the text is then as it was. Otherwise those characters are taken from it.
    pub fn read(&mut self, alloc: Global, size: Option<usize>) -> Result<Chars, IoFault>
        ensures { PlainStep self.old (Read size) (text_reply result) self.new }
    {
        let rest = self.rest(alloc)?;
        let count = count_of(size, &rest.characters);
        let passes = asks_past(size, &rest.characters);
        let characters = answer(alloc, &rest.characters[..count], passes, rest.refusal)?;
        match size {
            None => self.move_to_end(),
            Some(size) => self.take(count, size != 0),
        }
        Ok(characters)
    }

    /// Reads the first line that is left, its end with it, at most `limit` characters; nothing at the end.
    ///
    /// `UnicodeDecodeError` where a refused range stands before the line's end, `Closed` where the text is closed,
    /// `NoMemory` where there is none: the text is then as it was. Otherwise the line is taken from it.
    pub fn readline(&mut self, alloc: Global, limit: Option<usize>) -> Result<Chars, IoFault>
        ensures { PlainStep self.old (ReadLine limit) (text_reply result) self.new }
    {
        let rest = self.rest(alloc)?;
        let line = first_line(self.settings.newline, limit, &rest.characters);
        let characters = answer(
            alloc,
            &rest.characters[..line.length],
            !line.ended,
            rest.refusal,
        )?;
        self.take(line.length, asks_any(limit));
        Ok(characters)
    }

    /// The bytes that a text is written as by the newline rule and the encoding, which have to end no further than
    /// 9223372036854775807.
    fn bytes_of(&self, alloc: Global, text: &[char]) -> Result<Vec<u8>, IoFault>
        ensures ok { IfOk result (λ v. IsWritten self.now text.now v.items) }
        ensures err { IfErr result (λ fault. IsUnwritten self.now text.now fault) }
    {
        if self.place.dirty {
            return Err(IoFault::SeekFirst);
        }
        let PlainSettings {
            encoding,
            handler,
            ..
        } = self.settings;
        if let Some((start, end)) = encode(alloc, encoding, handler, text)?.refusal {
            return Err(IoFault::UnicodeEncodeError {
                start: start as u64,
                end: end as u64,
            });
        }
        let characters = written(alloc, self.settings.newline, text)?;
        let bytes = encode(alloc, encoding, handler, &characters)?.bytes;
        match self.place.at.checked_add(bytes.len()) {
            Some(end) if end <= GREATEST_PLACE => Ok(bytes),
            _ => Err(IoFault::TooFar),
        }
    }

    /// Writes a text: its bytes lie at the place of the text then, which stands behind them. It answers how many characters
    /// the text has.
    ///
    /// `SeekFirst` where characters were read, `UnicodeEncodeError` where the handler refuses a run of characters, by its
    /// places in the text, `TooFar` where the bytes would end past 9223372036854775807, `Closed` where the text is closed,
    /// `NoMemory` where there is none: the text is then as it was.
    pub fn write(&mut self, alloc: Global, text: &[char]) -> Result<usize, IoFault>
        ensures { PlainAnswer self.old (WriteText text.now) (count_reply result) self.new }
    {
        if self.closed {
            return Err(IoFault::Closed);
        }
        let bytes = self.bytes_of(alloc, text)?;
        let laid = laid(alloc, &self.bytes, self.place.at, &bytes)?;
        self.bytes = laid;
        self.place.at += bytes.len();
        Ok(text.len())
    }

    /// Tells the place of the text as a cookie, by which `seek` puts it back; the text stays as it is.
    ///
    /// It is the cookie of the first boundary between items, from the byte on where the text was put last, from which the same is left, in
    /// bytes from the start of the text; where there is none, of the item inside which the text stands, with the characters that were taken of
    /// it. `Closed` where the text is closed, `NoMemory` where there is none.
    pub fn tell(&self, alloc: Global) -> Result<TextIOCookie, IoFault>
        ensures { PlainAnswer self.now Tell (cookie_reply result) self.now }
    {
        if self.closed {
            return Err(IoFault::Closed);
        }
        match told(alloc, self.settings, &self.bytes, &self.place) {
            Ok(cookie) => Ok(cookie),
            Err(_) => Err(IoFault::NoMemory),
        }
    }

    /// Puts the text where it landed, and answers the cookie that it was sought by.
    fn put(
        &mut self,
        sought: TextIOCookie,
        landing: (PlainPlace, bool),
    ) -> Result<TextIOCookie, IoFault>
        requires fits { IsLanding (length self.old.bytes) landing.0 }
        requires lands { lands self.old (cookie_shown sought) ≡ landed_by landing.1 (place_shown landing.0) }
        ensures { (cookie_reply result, self.new) ≡ text_sought self.old (cookie_shown sought) }
    {
        self.place = landing.0;
        if landing.1 {
            Ok(sought)
        } else {
            Err(IoFault::CannotRestore)
        }
    }

    /// Seeks to a cookie as its bytes, zeros after them: `whence` is 0. From 1, the text's own place, and from 2, the end of its bytes, the
    /// cookie has to be zeros. It answers the cookie of where the text was put, in bytes from the start of the text.
    ///
    /// A cookie that skips no characters puts the text clean at its start, which may lie past the end. One that skips puts it inside the one
    /// item that the bytes fed are by themselves, behind the characters skipped; the text has to be sought again before it is written.
    ///
    /// `Closed` where the text is closed; `Unsupported` from 1 and 2 where the cookie isn't zeros; `BadWhence` for another number;
    /// `InvalidCookie` for more than 25 bytes, a negative field, or an order; `NoMemory` where there is none: the text is then as it was.
    /// `CannotRestore` where the bytes fed aren't one item with more characters than are skipped, or those take other bytes of UTF-8 than the
    /// cookie says: the text then stands clean at the cookie's start.
    pub fn seek(
        &mut self,
        alloc: Global,
        cookie: &[u8],
        whence: i64,
    ) -> Result<TextIOCookie, IoFault>
        ensures { PlainStep self.old (SeekText cookie.now whence) (cookie_reply result) self.new }
    {
        if self.closed {
            return Err(IoFault::Closed);
        }
        if let Some(fault) = seek_fault(&self.bytes, cookie, whence) {
            return Err(fault);
        }
        let Ok(sought) = sought(
            alloc,
            self.settings,
            &self.bytes,
            &self.place,
            cookie,
            whence,
        ) else {
            return Err(IoFault::NoMemory);
        };
        let Ok(landing) = lands(alloc, self.settings, &self.bytes, &sought) else {
            return Err(IoFault::NoMemory);
        };
        self.put(sought, landing)
    }

    /// What refuses new settings: that the text was read from, where they say how it is read; then the handler.
    fn changes_fault(&self, changes: &PlainChanges) -> Option<IoFault>
        ensures { result ≡ changes_refusal self.now (changes_shown changes.now) }
    {
        if changes.changes_reading() && self.place.dirty {
            return Some(IoFault::SeekFirst);
        }
        match changes.handler {
            Some(handler) if !fits_both(handler) => Some(IoFault::UnknownHandler),
            _ => None,
        }
    }

    /// Gives the text other settings; those that aren't given stay. From its place on it is read and written by them.
    ///
    /// `Closed` where the text is closed; `SeekFirst` where it was read from and the encoding, the handler or the newline rule is given;
    /// `UnknownHandler` where the handler isn't one of texts that are read and written: the text is then as it was.
    pub fn reconfigure(&mut self, changes: PlainChanges) -> Result<(), IoFault>
        ensures { (done_reply result, self.new) ≡ exact self.old (Reconfigure (changes_shown changes)) }
    {
        if self.closed {
            return Err(IoFault::Closed);
        }
        if let Some(fault) = self.changes_fault(&changes) {
            return Err(fault);
        }
        self.settings = PlainSettings {
            encoding: changes.encoding.unwrap_or(self.settings.encoding),
            handler: changes.handler.unwrap_or(self.settings.handler),
            newline: changes.newline.unwrap_or(self.settings.newline),
        };
        self.line_buffering = changes.line_buffering.unwrap_or(self.line_buffering);
        self.write_through = changes.write_through.unwrap_or(self.write_through);
        Ok(())
    }

    /// What became of the text: it is live, or closed.
    pub fn life(&self) -> Life
        ensures { result ≡ self.now.life }
    {
        if self.closed {
            Life::Closed
        } else {
            Life::Live
        }
    }

    /// Closes the text. It is never refused, and closing again does nothing.
    pub fn close(&mut self) -> Result<(), IoFault>
        ensures { (done_reply result, self.new) ≡ exact self.old Close }
    {
        self.closed = true;
        Ok(())
    }
}

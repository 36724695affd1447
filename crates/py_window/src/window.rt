//! The bytes of a stream that its buffer holds, with a cursor among them, and those among them that its raw is owed.
ghost use Rattle.std.specs.Prelude.{◌≡◌, ◌<◌, ◌≤◌, ◌+◌, ◌-◌, true, false, [], length, vec_len};
ghost use Rattle.py_flat.specs.Limits.{greatest_place};
ghost use Rattle.py_window.specs.Window.{place_of, end_of, ahead_of, pending_of, is_settled as settled, kept_before, room_of, at_cursor, advanced, emptied_at, covers as covers_place, moved_to, pasted, covered, laid_at_cursor, without_front, pushed, all_pending, passed_on, cut_at, ended_at, IsWindow};

mod filling;

use std::fmt;
use std::marker::Model;

/// What one transfer brought.
#[derive(Clone, Copy)]
pub enum Filled {
    /// Bytes came, as many as counted, not none.
    More(usize),
    /// Nothing, at the end.
    End,
    /// Nothing yet.
    Waits,
}

/// A part of the stream's bytes, at the front of one buffer. `begin` is the place of its first byte, and `end` tells how many it
/// holds; the bytes from `from` up to `to` are pending. Where none are, both stand at the cursor. `sought` tells that it was put where
/// it is by a seek, and that nothing has come there since.
#[derive(Drop)]
pub struct Window {
    buffer: Vec<u8>,
    begin: u64,
    end: usize,
    cursor: usize,
    from: usize,
    to: usize,
    sought: bool,
}

impl Model for Window {
    ghost use Rattle.std.specs.Prelude.{◌≡◌, ◌+◌, ◌<◌, ◌≤◌, take, vec_len};
    ghost use Rattle.py_flat.specs.Limits.{greatest_place};
    ghost use Rattle.py_window.specs.Window.{WindowView};

    ghost Value = { WindowView };

    ghost view = { λ w. record {
      size = vec_len w.buffer;
      begin = w.begin;
      held = take w.end w.buffer.items;
      cursor = w.cursor;
      from = w.from;
      to = w.to;
    } };

    ghost invariant = { λ w. (0 < vec_len w.buffer) × (w.cursor ≤ w.end) × (w.end ≤ vec_len w.buffer) × (w.begin + w.end ≤ greatest_place) × (w.from ≤ w.to) × (w.to ≤ w.end) × (w.from ≡ w.to → w.from ≡ w.cursor) };
}

// A window is shown by how many bytes there are, and not by which: thousands of them would hide all else.
impl fmt::Debug for Window {
    fn fmt<W: fmt::Write>(&self, f: &mut fmt::Formatter<W>) -> fmt::Result {
        f.debug_struct("Window")
            .field("place", &self.place())
            .field("ahead", &self.ahead().len())
            .field("pending", &self.pending().len())
            .field("size", &self.size())
            .finish()
    }
}

/// Puts bytes over those of a buffer, from a place in it on.
fn paste(buffer: &mut [u8], at: usize, bytes: &[u8])
    requires { at + length bytes.now ≤ length buffer.old }
    ensures { buffer.new ≡ pasted buffer.old at bytes.now }
{
    buffer[at..at + bytes.len()].copy_from_slice(bytes);
}

impl Window {
    /// A window that holds nothing, at a place, with this buffer.
    pub fn new(buffer: Vec<u8>, place: u64) -> Self
        requires some { 0 < vec_len buffer }
        requires within { place ≤ greatest_place }
        ensures view { result ≡ record { size = vec_len buffer; begin = place; held = []; cursor = 0; from = 0; to = 0 } }
        ensures window { IsWindow result }
    {
        Window {
            buffer,
            begin: place,
            end: 0,
            cursor: 0,
            from: 0,
            to: 0,
            sought: false,
        }
    }

    /// How many bytes the window can hold.
    pub fn size(&self) -> usize
        ensures size { result ≡ self.now.size }
        ensures window { IsWindow self.now }
        ensures small { result ≤ greatest_place }
    {
        self.buffer.len()
    }

    /// The place of the cursor.
    pub fn place(&self) -> u64
        ensures place { result ≡ place_of self.now }
        ensures within { result ≤ greatest_place }
        ensures window { IsWindow self.now }
    {
        self.begin + self.cursor as u64
    }

    /// The place after the bytes held.
    pub fn end_place(&self) -> u64
        ensures place { result ≡ end_of self.now }
        ensures within { result ≤ greatest_place }
    {
        self.begin + self.end as u64
    }

    /// The bytes from the cursor on, lent.
    pub fn ahead(&self) -> &[u8]
        ensures { result.now ≡ ahead_of self.now }
    {
        &self.buffer[self.cursor..self.end]
    }

    /// Whether the cursor stands after all that is held.
    pub fn is_used_up(&self) -> bool
        ensures used { result ≡ true → ahead_of self.now ≡ [] }
        ensures left { result ≡ false → 0 < length (ahead_of self.now) }
    {
        self.cursor == self.end
    }

    /// Whether no bytes are pending.
    pub fn is_settled(&self) -> bool
        ensures settled { result ≡ settled self.now }
        ensures none { result ≡ true → pending_of self.now ≡ [] }
        ensures some { result ≡ false → 0 < length (pending_of self.now) }
        ensures window { IsWindow self.now }
    {
        self.from == self.to
    }

    /// The pending bytes, lent.
    pub fn pending(&self) -> &[u8]
        ensures { result.now ≡ pending_of self.now }
    {
        &self.buffer[self.from..self.to]
    }

    /// The place of the first pending byte; without any, the cursor's.
    pub fn pending_place(&self) -> u64
        ensures place { result ≡ self.now.begin + self.now.from }
        ensures within { result ≤ greatest_place }
        ensures window { IsWindow self.now }
    {
        self.begin + self.from as u64
    }

    /// The place after the last pending byte; without any, the cursor's.
    pub fn pending_end(&self) -> u64
        ensures place { result ≡ self.now.begin + self.now.to }
        ensures within { result ≤ greatest_place }
        ensures window { IsWindow self.now }
    {
        self.begin + self.to as u64
    }

    /// Puts the cursor after n of the bytes held; the range of none that are pending goes with it.
    fn stand_at(&mut self, cursor: usize)
        requires { cursor ≤ length self.old.held }
        ensures { self.new ≡ at_cursor cursor self.old }
    {
        if self.from == self.to {
            self.from = cursor;
            self.to = cursor;
        }
        self.cursor = cursor;
    }

    /// Moves the cursor on.
    pub fn advance(&mut self, count: usize)
        requires { count ≤ length (ahead_of self.old) }
        ensures { self.new ≡ advanced count self.old }
    {
        self.stand_at(self.cursor + count);
    }

    /// Whether a place lies among the bytes held, or right after them.
    pub fn covers(&self, place: u64) -> bool
        ensures { result ≡ covers_place self.now place }
    {
        self.begin <= place && place <= self.end_place()
    }

    /// Moves the cursor to a place that the window covers.
    pub fn move_to(&mut self, place: u64)
        requires { covers_place self.old place ≡ true }
        ensures { self.new ≡ moved_to place self.old }
    {
        self.stand_at((place - self.begin) as usize);
    }

    /// Lets go of what is held, and stands at a place.
    pub fn restart_at(&mut self, place: u64)
        requires { place ≤ greatest_place }
        ensures { self.new ≡ emptied_at place self.old }
    {
        self.begin = place;
        self.end = 0;
        self.cursor = 0;
        self.from = 0;
        self.to = 0;
    }

    /// Goes to a place by a seek: lets go of what is held, and stands there. The first transfer there asks for no more than a call wants.
    pub fn seek_to(&mut self, place: u64)
        requires { place ≤ greatest_place }
        ensures { self.new ≡ emptied_at place self.old }
    {
        self.restart_at(place);
        self.sought = true;
    }

    /// How many bytes have room at the cursor, once all is let go of that needn't stay.
    pub fn room(&self) -> usize
        ensures room { result ≡ room_of self.now }
        ensures window { IsWindow self.now }
    {
        self.buffer.len() - (self.cursor - self.from.min(self.cursor))
    }

    /// Puts bytes at the cursor, over those held there; they are pending from then on, with all between them and those that are pending
    /// already. Where the buffer has no room after the cursor, what needn't stay before it is let go of. No bytes leave all as it is.
    pub fn push(&mut self, bytes: &[u8])
        requires room { length bytes.now ≤ room_of self.old }
        requires within { place_of self.old + length bytes.now ≤ greatest_place }
        ensures { self.new ≡ pushed bytes.now self.old }
    {
        if bytes.is_empty() {
            return;
        }
        if bytes.len() > self.buffer.len() - self.cursor {
            self.let_go();
        }
        self.lay(bytes);
    }

    /// Lets go of all before the cursor that needn't stay.
    fn let_go(&mut self)
        ensures { self.new ≡ without_front (self.old.cursor - kept_before self.old) self.old }
    {
        let front = self.from.min(self.cursor);
        self.buffer.copy_within(front..self.end, 0);
        self.begin += front as u64;
        self.end -= front;
        self.cursor -= front;
        self.from -= front;
        self.to -= front;
    }

    /// Puts bytes at the cursor, where the buffer has room after it.
    fn lay(&mut self, bytes: &[u8])
        requires room { self.old.cursor + length bytes.now ≤ self.old.size }
        requires within { place_of self.old + length bytes.now ≤ greatest_place }
        ensures { self.new ≡ laid_at_cursor bytes.now self.old }
    {
        let after = self.cursor + bytes.len();
        self.end = self.end.max(after);
        paste(&mut self.buffer, self.cursor, bytes);
        self.cover(after);
    }

    /// Moves the cursor on, and makes pending what it moves over, with all that lies between.
    fn cover(&mut self, after: usize)
        requires forth { self.old.cursor ≤ after }
        requires within { after ≤ length self.old.held }
        ensures { self.new ≡ covered after self.old }
    {
        if self.from == self.to {
            self.from = self.cursor;
            self.to = after;
        } else {
            self.from = self.from.min(self.cursor);
            self.to = self.to.max(after);
        }
        self.cursor = after;
    }

    /// Makes all that is held pending.
    pub fn own_all(&mut self)
        requires some { 0 < length self.old.held }
        ensures { self.new ≡ all_pending self.old }
    {
        self.from = 0;
        self.to = self.end;
    }

    /// The first n pending bytes aren't pending any more.
    pub fn pass_on(&mut self, count: usize)
        requires { count ≤ length (pending_of self.old) }
        ensures { self.new ≡ passed_on count self.old }
    {
        self.from += count;
        if self.from == self.to {
            self.from = self.cursor;
            self.to = self.cursor;
        }
    }

    /// Lets go of all that is held from a place on, which lies among the pending bytes or right after them, and stands there; where none
    /// of these is left, of all that is held.
    pub fn cut_at(&mut self, place: u64)
        requires behind { self.old.begin + self.old.from ≤ place }
        requires within { place ≤ self.old.begin + self.old.to }
        ensures { self.new ≡ cut_at place self.old }
    {
        if place == self.pending_place() {
            self.restart_at(place);
            return;
        }
        let count = (place - self.begin) as usize;
        self.end = count;
        self.cursor = count;
        self.to = count;
    }

    /// Lets go of the bytes held from a place on, which doesn't lie before the cursor, where none are pending.
    pub fn end_at(&mut self, place: u64)
        requires settled { self.old.from ≡ self.old.to }
        requires behind { place_of self.old ≤ place }
        requires within { place ≤ end_of self.old }
        ensures { self.new ≡ ended_at place self.old }
    {
        self.end = (place - self.begin) as usize;
    }

    /// The pending bytes, in the buffer that held them.
    pub fn into_pending(self) -> Vec<u8>
        ensures { result.items ≡ pending_of self }
    {
        let Window {
            buffer,
            begin: _,
            end: _,
            cursor: _,
            from,
            to,
            sought: _,
        } = self;
        let mut buffer = buffer;
        buffer.copy_within(from..to, 0);
        buffer.truncate(to - from);
        buffer
    }
}

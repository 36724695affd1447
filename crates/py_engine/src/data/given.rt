//! The bytes that a call gives.
ghost use Rattle.std.specs.Prelude.{◌≡◌, ◌+◌, ◌≤◌, length, take};
ghost use Rattle.py_flat.specs.Limits.{greatest_place};
ghost use Rattle.py_flat.specs.BinaryStep.{payload};
ghost use Rattle.py_flat.specs.Lines.{joined};
ghost use Rattle.py_stream.specs.Moving.{EndsWithin};
ghost use Rattle.py_window.specs.Window.{IsWindow, place_of, room_of, pushed};
ghost use Rattle.py_engine.specs.RandomWriting.{call_of};

use py_raw::{GREATEST_PLACE, Lines};
use py_stream::end_of_lines;
use py_window::Window;

/// The bytes of a `write`, or the lines of a `writelines`.
#[derive(Clone, Copy)]
pub(crate) enum Given<'a> {
    Bytes(&'a [u8]),
    Lines(&'a Lines),
}

impl Given<'_> {
    /// The place after all of them, from a place on; `None` where it lies past 9223372036854775807.
    pub(super) fn end_from(self, place: u64) -> Option<u64>
        requires { place ≤ greatest_place }
        ensures { EndsWithin (place + length (payload (call_of self.entry))) result }
    {
        match self {
            Given::Bytes(bytes) => {
                let count = bytes.len() as u64;
                (count <= GREATEST_PLACE - place).then_some(place + count)
            }
            Given::Lines(lines) => end_of_lines(place, lines),
        }
    }

    /// Puts as many of them at the cursor as there is room for.
    pub(super) fn push(self, window: &mut Window, room: usize)
        requires window { IsWindow window.old }
        requires room { room ≤ room_of window.old }
        requires within { place_of window.old + length (payload (call_of self)) ≤ greatest_place }
        ensures { window.new ≡ pushed (take room (payload (call_of self.entry))) window.old }
    {
        match self {
            Given::Bytes(bytes) => window.push(&bytes[..bytes.len().min(room)]),
            Given::Lines(lines) => push_lines(window, lines, room),
        }
    }
}

/// Puts as many bytes of lines at the cursor as there is room for.
fn push_lines(window: &mut Window, lines: &Lines, room: usize)
    requires window { IsWindow window.old }
    requires room { room ≤ room_of window.old }
    requires within { place_of window.old + length (joined lines.now) ≤ greatest_place }
    ensures { window.new ≡ pushed (take room (joined lines.now)) window.old }
{
    let mut left = room;
    for line in lines.as_slice() {
        let piece = line.as_slice();
        let some = piece.len().min(left);
        window.push(&piece[..some]);
        left -= some;
    }
}

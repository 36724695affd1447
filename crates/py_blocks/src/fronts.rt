//! Fronts of a text, by how many characters they have: as many as their bytes that begin one.
ghost use Rattle.std.specs.Prelude.{◌≡◌, length, take, chars};
ghost use Rattle.py_blocks.specs.Fronts.{IsFrontOf, IsPassed, Ends};

use crate::counting::{BLOCK, Block, is_start, starts_in_block};

/// A front of a text.
#[derive(Clone, Copy, Debug, PartialEq, Eq)]
pub struct TextFront {
    /// How many characters it has.
    pub chars: usize,
    /// How many bytes of UTF-8 it has.
    pub bytes: usize,
}

/// Passes whole blocks, in which no more characters begin than are wanted.
fn pass_blocks(bytes: &[u8], most: usize) -> TextFront
    ensures { IsPassed bytes.now most result }
{
    let mut front = TextFront { chars: 0, bytes: 0 };
    while front.bytes + BLOCK <= bytes.len() {
        let more = starts_in_block(Block::from_slice(&bytes[front.bytes..]));
        if more > most - front.chars {
            return front;
        }
        front = TextFront {
            chars: front.chars + more,
            bytes: front.bytes + BLOCK,
        };
    }
    front
}

/// Passes bytes up to where a character too many would begin.
fn pass_bytes(bytes: &[u8], most: usize, from: TextFront) -> TextFront
    requires { IsPassed bytes.now most from }
    ensures passed { IsPassed bytes.now most result }
    ensures ends { Ends bytes.now most result }
{
    let mut front = from;
    while front.bytes < bytes.len() {
        let starts = is_start(bytes[front.bytes]);
        if starts && front.chars == most {
            return front;
        }
        front = TextFront {
            chars: front.chars + starts as usize,
            bytes: front.bytes + 1,
        };
    }
    front
}

/// The front of a text that has n characters, or all where there are fewer.
pub fn front_of(text: &str, most: usize) -> TextFront
    ensures count { result.chars ≡ length (take most (chars text.now)) }
    ensures front { IsFrontOf (chars text.now) result }
{
    let bytes = text.as_bytes();
    pass_bytes(bytes, most, pass_blocks(bytes, most))
}

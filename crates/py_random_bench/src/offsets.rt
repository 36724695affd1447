//! Where the steps of a task go: the same in each run, and in the other programs of `bench/random`.

use crate::task::{PIECE, Task};
use std::alloc::Global;

/// How many bytes a step forward goes back first.
const BACK: i64 = 32;

/// How many numbers `next_number` makes before one comes again.
const NUMBERS: u64 = 2147483648;

/// The number after another, of a linear congruential generator.
fn next_number(number: u64) -> u64 {
    (number % NUMBERS * 1103515245 + 12345) % NUMBERS
}

/// Places all over a file of `size` bytes, so far from its end that a piece can be read there; nothing where it has too few or too many bytes, or
/// memory runs out.
fn all_over(alloc: Global, steps: u32, size: u64) -> Option<Vec<i64>> {
    let span = u32::try_from(size).ok()?.checked_sub(PIECE as u32)?;
    let mut offsets = Vec::new(alloc);
    let mut number = 1;
    for _ in 0..steps {
        number = next_number(number);
        offsets
            .push(number.checked_rem(u64::from(span))? as i64)
            .ok()?;
    }
    Some(offsets)
}

/// Steps back from where the last one ended; the first goes nowhere.
fn backwards(alloc: Global, steps: u32) -> Option<Vec<i64>> {
    let mut offsets = Vec::new(alloc);
    for step in 0..steps {
        offsets.push(if step == 0 { 0 } else { -BACK }).ok()?;
    }
    Some(offsets)
}

/// The offsets of a task's seeks in a file of `size` bytes; nothing where it has too few or too many bytes, or memory runs out.
pub(crate) fn offsets_of(alloc: Global, task: Task, steps: u32, size: u64) -> Option<Vec<i64>> {
    match task {
        Task::Anywhere | Task::Update => all_over(alloc, steps, size),
        Task::Back | Task::BackInto => backwards(alloc, steps),
    }
}

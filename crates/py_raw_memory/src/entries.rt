ghost use Rattle.std.specs.Prelude.{◌≡◌, ◌<◌, ℕ, List, length, MatchOption, IsSome, IsOk, OnOk, OnErr};
ghost use Rattle.py_raw_memory.specs.Entries.{held_in, StandsAt, HoldsNow};

use std::alloc::{AllocError, Global};

/// A path with what it holds.
#[derive(Debug, Drop)]
pub struct Entry<T> {
    path: String,
    held: T,
}

/// The place of the first entry of a path.
fn place_of<T>(entries: &[Entry<T>], path: &str) -> Option<usize>
    ensures { MatchOption result (held_in entries.now path.now ≡ None) (λ place. StandsAt entries.now path.now place) }
{
    for (place, entry) in entries.iter().enumerate() {
        if entry.path.as_str() == path {
            return Some(place);
        }
    }
    None
}

/// What a path holds.
pub(crate) fn held_at<'a, T>(entries: &'a [Entry<T>], path: &str) -> Option<&'a T>
    ensures { MatchOption result (held_in entries.now path.now ≡ None) (λ held. held_in entries.now path.now ≡ Some held.now) }
{
    let place = place_of(entries, path)?;
    Some(&entries[place].held)
}

/// Lets the path of the entry at a place hold this.
fn replace_at<T: Drop>(entries: &mut [Entry<T>], place: usize, held: T)
    requires { place < length entries.old }
    ensures { (path : List ℕ) → StandsAt entries.old path place → HoldsNow (held_in entries.old) path held (held_in entries.new) }
{
    entries[place].held = held;
}

/// Adds an entry for a path that has none.
fn append<T: Drop>(
    entries: &mut Vec<Entry<T>>,
    alloc: Global,
    path: &str,
    held: T,
) -> Result<(), AllocError>
    requires { held_in entries.old.items path.now ≡ None }
    ensures ok { OnOk result (HoldsNow (held_in entries.old.items) path.now held (held_in entries.new.items)) }
    ensures err { OnErr result (entries.new.items ≡ entries.old.items) }
{
    let path = String::from_str(alloc, path)?;
    entries.push(Entry { path, held })?;
    Ok(())
}

/// Lets a path hold this, in its entry or in a new one. After an error every path holds what it held.
pub(crate) fn put_in<T: Drop>(
    entries: &mut Vec<Entry<T>>,
    alloc: Global,
    path: &str,
    held: T,
) -> Result<(), AllocError>
    ensures ok { OnOk result (HoldsNow (held_in entries.old.items) path.now held (held_in entries.new.items)) }
    ensures err { OnErr result (entries.new.items ≡ entries.old.items) }
    ensures complete { IsSome (held_in entries.old.items path.now) → IsOk result }
{
    match place_of(entries, path) {
        Some(place) => {
            replace_at(entries, place, held);
            Ok(())
        }
        None => append(entries, alloc, path, held),
    }
}

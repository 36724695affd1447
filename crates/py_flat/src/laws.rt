ghost use Rattle.std.specs.Prelude.{◌≡◌, ◌≢◌, ℕ, ◌+◌, ◌<◌, ◌≤◌, max, nat_eq, true, false, ◌↔◌, Option, Some, List, [], ◌++◌, length, take, drop};
ghost use Rattle.std.specs.Cmp.Lexicographic.{pointwise};
ghost use Rattle.py_flat.specs.declared.fault.IoFault.{IoFault};
ghost use Rattle.py_flat.specs.declared.fault.IoFault.TheVariants as fault;
ghost use Rattle.py_flat.specs.Bytes.{lay};
ghost use Rattle.py_flat.specs.Owed.{Owed, IsFlatOver};
ghost use Rattle.py_flat.specs.Limits.{greatest_count};
ghost use Rattle.py_flat.specs.Lines.{LineEnd, first_line, lines_of, joined};
ghost use Rattle.py_flat.specs.Causes.{Rose, RoseBy, rose};
ghost use Rattle.py_flat.specs.BinaryStep.{IsFrontOf, BinaryStep, Settled};
ghost use Rattle.py_flat.specs.Calls.{FileCall, FileReply, NotReady, Refused};
ghost use Rattle.py_flat.specs.FlatFile.{FlatFile};

/// A call in which the raw neither waited nor failed, and that had memory, is settled.
pub fn a_smooth_step_is_settled()
    ensures { (before : FlatFile) (call : FileCall) (reply : FileReply) (after : FlatFile) → BinaryStep before call reply false false after → reply ≢ Refused fault.NoMemory → Settled before call reply after }
{}

/// A settled reply blames neither the raw nor memory.
pub fn a_settled_reply_blames_nobody()
    ensures no_raw_fault { (before : FlatFile) (call : FileCall) (reply : FileReply) (after : FlatFile) → Settled before call reply after → reply ≢ Refused fault.RawFault }
    ensures no_want_of_memory { (before : FlatFile) (call : FileCall) (reply : FileReply) (after : FlatFile) → Settled before call reply after → reply ≢ Refused fault.NoMemory }
    ensures no_wait { (before : FlatFile) (call : FileCall) (reply : FileReply) (after : FlatFile) (taken : ℕ) → Settled before call reply after → reply ≢ Refused (fault.WouldBlock taken) }
    ensures ready { (before : FlatFile) (call : FileCall) (reply : FileReply) (after : FlatFile) → Settled before call reply after → reply ≢ NotReady }
{}

/// A settled refusal leaves the file as it was.
pub fn a_settled_refusal_leaves_all()
    ensures { (before : FlatFile) (call : FileCall) (fault : IoFault) (after : FlatFile) → Settled before call (Refused fault) after → after ≡ before }
{}

/// Bytes laid on, and then more right after them, are both laid on as one.
pub fn laying_behind_is_laying_both()
    ensures { (bytes : List ℕ) (place : ℕ) (first second : List ℕ) → lay (lay bytes place first) (place + length first) second ≡ lay bytes place (first ++ second) }
{}

/// The length of a list that at least one byte was laid on: the greater of the old end and the end of what was laid.
pub fn laying_lengthens_to_its_end()
    ensures { (bytes : List ℕ) (place : ℕ) (laid : List ℕ) → laid ≢ [] → length (lay bytes place laid) ≡ max (length bytes) (place + length laid) }
{}

/// Laying nothing changes nothing.
pub fn laying_nothing_changes_nothing()
    ensures { (bytes : List ℕ) (place : ℕ) → lay bytes place [] ≡ bytes }
{}

/// What was laid stands where it was laid.
pub fn what_was_laid_is_read_back()
    ensures { (bytes : List ℕ) (place : ℕ) (laid : List ℕ) → take (length laid) (drop place (lay bytes place laid)) ≡ laid }
{}

/// A piece that is laid over one that isn't longer hides it.
pub fn laying_over_hides_what_was_laid()
    ensures { (bytes : List ℕ) (place : ℕ) (old new : List ℕ) → length old ≤ length new → lay (lay bytes place old) place new ≡ lay bytes place new }
{}

/// A front that was laid, and then all from somewhere within it on, is the whole: a piece may be sent again from what
/// was acknowledged.
pub fn a_laying_resumes_from_within_its_front()
    ensures { (bytes : List ℕ) (place : ℕ) (laid : List ℕ) (kept done : ℕ) → kept ≤ done → done ≤ length laid → lay (lay bytes place (take done laid)) (place + kept) (drop kept laid) ≡ lay bytes place laid }
{}

/// With nothing owed the flat bytes are the raw's.
pub fn nothing_owed_is_the_raw()
    ensures { (raw flat : List ℕ) (owed : Owed) → owed.bytes ≡ [] → IsFlatOver raw owed flat → flat ≡ raw }
{}

/// The lines of some bytes, one after the other, are all of them.
pub fn lines_joined_are_the_whole()
    ensures { (bytes : List ℕ) → joined (lines_of bytes) ≡ bytes }
{}

/// A first line is the first of its list, and holds something where the list does and its limit isn't 0.
pub fn a_first_line_is_a_front()
    ensures front { (end : LineEnd) (limit : Option ℕ) (cs : List ℕ) → IsFrontOf (first_line end limit cs) cs }
    ensures some { (end : LineEnd) (limit : Option ℕ) (cs : List ℕ) → cs ≢ [] → limit ≢ Some 0 → first_line end limit cs ≢ [] }
{}

/// A count that didn't change has not risen, unless it stands at its end. More that it counts make it rise, and it never
/// falls. The test is the fact.
pub fn counts_rise_or_stand_at_their_end()
    ensures unchanged { (count : ℕ) → Rose count count → greatest_count ≤ count }
    ensures never_falls { (more old new : ℕ) → RoseBy more old new → old ≤ greatest_count → old ≤ new }
    ensures risen { (more old new : ℕ) → 0 < more → RoseBy more old new → Rose old new }
    ensures tested { (old new : ℕ) → (rose old new ≡ true) ↔ Rose old new }
{}

/// What `==` finds equal is the same: bytes, or characters, and lines.
pub fn equal_lists_are_the_same()
    ensures bytes { (a b : List ℕ) → (pointwise nat_eq a b ≡ true) ↔ (a ≡ b) }
    ensures lines { (a b : List (List ℕ)) → (pointwise (pointwise nat_eq) a b ≡ true) ↔ (a ≡ b) }
{}

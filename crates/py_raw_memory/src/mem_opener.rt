ghost use Rattle.std.specs.Prelude.{◌≡◌, ⊤, [], Some, MatchOption, IsSome, IsOk, IfOk, IfErr, OnOk, OnErr};
ghost use Rattle.py_raw.specs.RawMode.{IsRawMode};
ghost use Rattle.py_raw.specs.Opener.{opened_bytes};
ghost use Rattle.py_raw_memory.specs.Entries.{HoldsNow};
ghost use Rattle.py_raw_memory.specs.Plans.{plan_in};
ghost use Rattle.py_raw_memory.specs.MemRaw.{view_of};
ghost use Rattle.py_raw_memory.specs.MemOpener.{bytes_in, opened_view};

mod counts;
mod plan;

use crate::entries::{Entry, held_at, put_in};
use crate::{Cut, MemRaw};
use plan::{Plan, plan_of};
use py_raw::{OpenError, Opener, file_letter, misses, mode_flags};
use std::alloc::{AllocError, Global};
use std::fmt;

/// Paths with bytes in memory, which opens raw streams of them: what a test opens its files by.
///
/// A path may have a plan, which every stream that is opened at it follows.
#[derive(Drop)]
pub struct MemOpener {
    alloc: Global,
    entries: Vec<Entry<Vec<u8>>>,
    plans: Vec<Entry<Plan>>,
    faults: u64,
    raw_faults: u64,
    raw_waits: u64,
    opened: u64,
    taken_back: u64,
}

// Only how many paths hold something, and not what: their bytes would hide all else.
impl fmt::Debug for MemOpener {
    fn fmt<W: fmt::Write>(&self, f: &mut fmt::Formatter<W>) -> fmt::Result {
        f.debug_struct("MemOpener")
            .field("paths", &self.entries.len())
            .field("plans", &self.plans.len())
            .field("faults", &self.faults)
            .field("raw_faults", &self.raw_faults)
            .field("raw_waits", &self.raw_waits)
            .finish_non_exhaustive()
    }
}

/// The bytes that a path holds.
fn bytes_at<'a>(entries: &'a [Entry<Vec<u8>>], path: &str) -> Option<&'a [u8]>
    ensures { MatchOption result (bytes_in entries.now path.now ≡ None) (λ bytes. bytes_in entries.now path.now ≡ Some bytes.now) }
{
    Some(held_at(entries, path)?.as_slice())
}

/// Gives a path bytes, in its entry or in a new one. After an error every path holds what it held.
fn put_bytes(
    entries: &mut Vec<Entry<Vec<u8>>>,
    alloc: Global,
    path: &str,
    bytes: Vec<u8>,
) -> Result<(), AllocError>
    ensures ok { OnOk result (HoldsNow (bytes_in entries.old.items) path.now bytes.items (bytes_in entries.new.items)) }
    ensures err { OnErr result (entries.new.items ≡ entries.old.items) }
    ensures complete { IsSome (bytes_in entries.old.items path.now) → IsOk result }
{
    put_in(entries, alloc, path, bytes)
}

/// The bytes that an opening keeps: none where `w` empties the path, or where it holds nothing.
fn kept<'a>(entries: &'a [Entry<Vec<u8>>], path: &str, mode: &str) -> Option<&'a [u8]>
    requires { IsRawMode mode.now }
    ensures opened { MatchOption result (opened_bytes mode.now (bytes_in entries.now path.now) ≡ []) (λ bytes. opened_bytes mode.now (bytes_in entries.now path.now) ≡ bytes.now) }
    ensures held { MatchOption result ⊤ (λ bytes. bytes_in entries.now path.now ≡ Some bytes.now) }
{
    if file_letter(mode) == b'w' {
        return None;
    }
    bytes_at(entries, path)
}

/// Gives the path that a mode opens its bytes, and answers a copy of them. After an error every path holds what it held.
fn open_in(
    entries: &mut Vec<Entry<Vec<u8>>>,
    alloc: Global,
    path: &str,
    mode: &str,
) -> Result<Vec<u8>, AllocError>
    requires { IsRawMode mode.now }
    ensures bytes { IfOk result (λ bytes. bytes.items ≡ opened_bytes mode.now (bytes_in entries.old.items path.now)) }
    ensures held { OnOk result (HoldsNow (bytes_in entries.old.items) path.now (opened_bytes mode.now (bytes_in entries.old.items path.now)) (bytes_in entries.new.items)) }
    ensures err { OnErr result (entries.new.items ≡ entries.old.items) }
{
    match kept(entries, path, mode) {
        Some(bytes) => Vec::from_slice(alloc, bytes),
        None => {
            put_bytes(entries, alloc, path, Vec::new(alloc))?;
            Ok(Vec::new(alloc))
        }
    }
}

/// Opens a stream of a path that a mode can open, which follows a copy of the path's plan. After an error every path
/// holds what it held.
fn open_stream(
    entries: &mut Vec<Entry<Vec<u8>>>,
    plans: &[Entry<Plan>],
    alloc: Global,
    path: &str,
    mode: &str,
) -> Result<MemRaw, AllocError>
    requires { IsRawMode mode.now }
    ensures opened { IfOk result (λ raw. view_of raw ≡ opened_view mode.now (opened_bytes mode.now (bytes_in entries.old.items path.now)) (plan_in plans.now path.now)) }
    ensures held { OnOk result (HoldsNow (bytes_in entries.old.items) path.now (opened_bytes mode.now (bytes_in entries.old.items path.now)) (bytes_in entries.new.items)) }
    ensures err { OnErr result (entries.new.items ≡ entries.old.items) }
{
    // Copied first, so that an opening that has not the memory for it leaves the path.
    let Plan { cuts, refused } = plan_of(plans, alloc, path)?;
    let bytes = open_in(entries, alloc, path, mode)?;
    Ok(MemRaw::new(bytes, mode_flags(mode), cuts, refused))
}

impl MemOpener {
    ghost use Rattle.std.specs.Prelude.{ℕ, List, true};
    ghost use Rattle.py_raw.specs.RawStream.{Raw};
    ghost use Rattle.py_raw.specs.Opener.{HoldsTheSame, DoneKeeps, DoneOutcome};
    ghost use Rattle.py_raw_memory.specs.Plans.{no_plan};
    ghost use Rattle.py_raw_memory.specs.MemOpener.{shown_opener, plan_at, SetsPlan, KeepsPlans, Puts, LeavesAll};

    /// An opener none of whose paths holds anything or has a plan.
    pub fn new(alloc: Global) -> Self
        ensures plans { (path : List ℕ) → plan_at result path ≡ no_plan }
        ensures shows { shown_opener result ≡ record { tells = true; holds = λ path. None; faults = 0; raw_faults = 0; raw_waits = 0; opened = 0; taken_back = 0; counts_exactly = true } }
    {
        MemOpener {
            alloc,
            entries: Vec::new(alloc),
            plans: Vec::new(alloc),
            faults: 0,
            raw_faults: 0,
            raw_waits: 0,
            opened: 0,
            taken_back: 0,
        }
    }

    /// Gives a path a plan, in place of the one that it had: every stream that is opened at the path from now on follows a
    /// copy of it. `plan` is what its transfers come to, and `faults` are the numbers of its calls that fail, as
    /// `MemRaw::new` takes them. The streams of a path without a plan move all that a call asks.
    ///
    /// The path need not hold anything, and holds what it held. After an error every path has the plan that it had.
    pub fn with_plan(
        &mut self,
        alloc: Global,
        path: &str,
        plan: Vec<Cut>,
        faults: Vec<u64>,
    ) -> Result<(), AllocError>
        ensures ok { OnOk result (SetsPlan self.old path.now (record { plan = plan.items; refused = faults.items }) self.new) }
        ensures err { OnErr result (KeepsPlans self.old self.new) }
        ensures shows { shown_opener self.new ≡ shown_opener self.old }
    {
        let given = Plan {
            cuts: plan,
            refused: faults,
        };
        put_in(&mut self.plans, alloc, path, given)
    }

    /// Gives a path bytes, in place of those that it held. After an error every path holds what it held. Whatever it
    /// answers, the counts are as before.
    pub fn put(&mut self, alloc: Global, path: &str, bytes: Vec<u8>) -> Result<(), AllocError>
        ensures ok { OnOk result (Puts (shown_opener self.old) path.now bytes.items (shown_opener self.new)) }
        ensures err { OnErr result (LeavesAll (shown_opener self.old) (shown_opener self.new)) }
        ensures complete { IsSome ((shown_opener self.old).holds path.now) → IsOk result }
        ensures plans { KeepsPlans self.old self.new }
    {
        put_bytes(&mut self.entries, alloc, path, bytes)
    }

    /// The bytes that a path holds, where it holds some.
    pub fn bytes_at(&self, path: &str) -> Option<&[u8]>
        ensures { MatchOption result ((shown_opener self.now).holds path.now ≡ None) (λ bytes. (shown_opener self.now).holds path.now ≡ Some bytes.now) }
    {
        bytes_at(&self.entries, path)
    }

    /// Takes back the bytes of a stream of that path, and adds its counts.
    fn take_back(
        &mut self,
        path: &str,
        bytes: Vec<u8>,
        faults: u64,
        waits: u64,
    ) -> Result<(), OpenError>
        ensures keeps { (raw : Raw) → raw.faults ≡ faults → raw.waits ≡ waits → DoneKeeps raw (shown_opener self.old) (shown_opener self.new) }
        ensures outcome { (raw : Raw) → raw.bytes ≡ bytes.items → DoneOutcome raw (shown_opener self.old) path.now result (shown_opener self.new) }
        ensures same { OnErr result (HoldsTheSame (shown_opener self.old) (shown_opener self.new)) }
        ensures faults { (shown_opener self.new).faults ≡ (shown_opener self.old).faults }
        ensures complete { IsSome ((shown_opener self.old).holds path.now) → IsOk result }
        ensures plans { KeepsPlans self.old self.new }
    {
        self.raw_faults = self.raw_faults.saturating_add(faults);
        self.raw_waits = self.raw_waits.saturating_add(waits);
        self.taken_back = self.taken_back.saturating_add(1);
        match put_bytes(&mut self.entries, self.alloc, path, bytes) {
            Ok(()) => Ok(()),
            Err(_) => Err(OpenError::Memory),
        }
    }
}

impl Opener for MemOpener {
    ghost use Rattle.py_flat.specs.Causes.{counted};
    ghost use Rattle.py_raw.specs.Opener.{HoldsTheSame, OpenKeeps, OpenOutcome, DoneKeeps, DoneOutcome, NoOpenerFault};
    ghost use Rattle.py_raw_memory.specs.MemRaw.{shown};
    ghost use Rattle.py_raw_memory.specs.MemOpener.{shown_opener, plan_at, KeepsPlans};

    type Raw = MemRaw;

    ghost shows = { shown_opener };

    /// Opens a path by a mode. `Fault` comes exactly where `x` finds the path or `r` misses it, before anything wants
    /// memory, and is counted once. The stream holds a copy of the bytes, can seek, and follows a copy of the path's plan:
    /// where it has none it moves all that a call asks. Each path keeps its plan.
    fn open_raw(&mut self, alloc: Global, path: &str, mode: &str) -> Result<MemRaw, OpenError>
        requires { IsRawMode mode.now }
        ensures keeps { OpenKeeps (shown_opener self.old) (shown_opener self.new) }
        ensures outcome { OpenOutcome shown (shown_opener self.old) path.now mode.now result (shown_opener self.new) }
        ensures exact { OnOk result (NoOpenerFault (shown_opener self.old) (shown_opener self.new)) }
        ensures faults { OnOk result ((shown_opener self.new).faults ≡ (shown_opener self.old).faults) }
        ensures one_fault { IfErr result (λ error. error ≡ OpenError.Fault → (shown_opener self.new).faults ≡ counted (shown_opener self.old).faults 1) }
        ensures opened { IfOk result (λ raw. view_of raw ≡ opened_view mode.now (opened_bytes mode.now ((shown_opener self.old).holds path.now)) (plan_at self.old path.now)) }
        ensures plans { KeepsPlans self.old self.new }
    {
        // Asked before anything wants memory, so that a fault comes exactly here.
        if misses(mode, self.bytes_at(path).is_some()) {
            self.faults = self.faults.saturating_add(1);
            return Err(OpenError::Fault);
        }
        match open_stream(&mut self.entries, &self.plans, alloc, path, mode) {
            Ok(raw) => {
                self.opened = self.opened.saturating_add(1);
                Ok(raw)
            }
            Err(_) => Err(OpenError::Memory),
        }
    }

    /// Puts the bytes of a stream away at its path, and adds its counts, which stop at 18446744073709551615. Memory is
    /// wanted only where the path holds nothing; it then goes on holding nothing.
    fn done(&mut self, path: &str, raw: MemRaw) -> Result<(), OpenError>
        ensures keeps { DoneKeeps (shown raw) (shown_opener self.old) (shown_opener self.new) }
        ensures outcome { DoneOutcome (shown raw) (shown_opener self.old) path.now result (shown_opener self.new) }
        ensures exact { OnOk result (NoOpenerFault (shown_opener self.old) (shown_opener self.new)) }
        ensures same { OnErr result (HoldsTheSame (shown_opener self.old) (shown_opener self.new)) }
        ensures faults { (shown_opener self.new).faults ≡ (shown_opener self.old).faults }
        ensures complete { IsSome ((shown_opener self.old).holds path.now) → IsOk result }
        ensures plans { KeepsPlans self.old self.new }
    {
        let faults = raw.fault_count();
        let waits = raw.wait_count();
        self.take_back(path, raw.into_bytes(), faults, waits)
    }
}

//! Laws of the definitions that the contracts cite: what any step of a text has to be, whatever raw is below.
//!
//! No function here does anything; what each ensures is a law.
ghost use Rattle.std.specs.Prelude.{◌≡◌, ◌≢◌, ℕ, Bool, false, List};
ghost use Rattle.py_flat.specs.declared.fault.IoFault.{IoFault};
ghost use Rattle.py_flat.specs.declared.fault.IoFault.TheVariants as fault;
ghost use Rattle.py_flat.specs.Calls.{FileReply, Text, NotReady, Refused};
ghost use Rattle.py_plain_text.specs.TextFile.{TextFile};
ghost use Rattle.py_plain_text.specs.TextCalls.{TextFileCall};
ghost use Rattle.py_plain_text.specs.TextAllowed.{Settled, LeftStarved, TextFileStep};
ghost use Rattle.py_open.specs.TextLaws.{LosesNothing, moves_on};

/// A settled reply of a text blames neither the raw nor memory: it is not `NotReady`, `RawFault`, `NoMemory` or
/// `WouldBlock`.
pub fn settled_only_blames_itself()
    ensures ready { (before : TextFile) (call : TextFileCall) (reply : FileReply) (after : TextFile) → Settled before call reply after → reply ≢ NotReady }
    ensures no_raw_fault { (before : TextFile) (call : TextFileCall) (reply : FileReply) (after : TextFile) → Settled before call reply after → reply ≢ Refused fault.RawFault }
    ensures no_want_of_memory { (before : TextFile) (call : TextFileCall) (reply : FileReply) (after : TextFile) → Settled before call reply after → reply ≢ Refused fault.NoMemory }
    ensures no_wait { (before : TextFile) (call : TextFileCall) (reply : FileReply) (after : TextFile) (taken : ℕ) → Settled before call reply after → reply ≢ Refused (fault.WouldBlock taken) }
{}

/// No character is lost by any answer of a text, whole or short: what was left before is the answer and then what is left
/// after it, up to the same refused range. An answer that isn't ready leaves the text as it was; so does a refusal that is no
/// fault of the raw and no want of memory, of any call but a write or a seek. Of a refused write or seek that isn't said, since one
/// that had to wait, and a seek that couldn't be restored, may leave another text. Want of memory leaves a text as it was that can't
/// write, but for a seek by a cookie that skips, which may leave it where that cookie's text begins.
pub fn a_wait_loses_nothing()
    ensures answered { (before : TextFile) (call : TextFileCall) (answer : List ℕ) (waited faulted : Bool) (after : TextFile) → TextFileStep before call (Text answer) waited faulted after → LosesNothing before answer after }
    ensures not_ready { (before : TextFile) (call : TextFileCall) (waited faulted : Bool) (after : TextFile) → TextFileStep before call NotReady waited faulted after → after ≡ before }
    ensures refused { (before : TextFile) (call : TextFileCall) (why : IoFault) (waited faulted : Bool) (after : TextFile) → moves_on call ≡ false → why ≢ fault.RawFault → why ≢ fault.NoMemory → TextFileStep before call (Refused why) waited faulted after → after ≡ before }
    ensures lacking { (before : TextFile) (call : TextFileCall) (waited faulted : Bool) (after : TextFile) → before.can.writable ≡ false → TextFileStep before call (Refused fault.NoMemory) waited faulted after → LeftStarved before call after }
{}

//! Bytes that a closure may write.
ghost use Rattle.std.specs.Prelude.{◌≡◌, ◌++◌, ℕ, List, length, take, drop};
ghost use Rattle.std.specs.Fn.{FnOnceReturnsAtMut};

/// What `f` answers of some bytes.
fn called<R, F: FnOnce(&mut [u8]) -> R>(f: F, bytes: &mut [u8]) -> R
    requires { F.IsAlwaysCallable f }
    ensures { FnOnceReturnsAtMut F.FnOnce f bytes.old result bytes.new }
{
    f(bytes)
}

/// What `f` answers of the first `len` of some bytes, or of all where there are fewer; it leaves as many.
pub(crate) fn called_on_front<R, F: FnOnce(&mut [u8]) -> R>(f: F, bytes: &mut [u8], len: usize) -> R
    requires { F.IsAlwaysCallable f }
    ensures { (new : List ℕ) × FnOnceReturnsAtMut F.FnOnce f (take len bytes.old) result new × (length new ≡ length (take len bytes.old)) × (bytes.new ≡ new ++ drop (length new) bytes.old) }
{
    let count = len.min(bytes.len());
    called(f, &mut bytes[..count])
}

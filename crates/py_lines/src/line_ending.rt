ghost use Rattle.std.specs.Prelude.{◌≡◌, ◌<◌, ◌≤◌, [], Some};
ghost use Rattle.py_lines.specs.Collecting.{limit_left, EndsIn, WithinLimit};

use memchr::memchr;

/// With how many bytes of a piece the line ends that begins with them, by its LF or by being `limit` bytes long; `None` where it goes
/// on after all of them.
#[inline(always)]
pub fn line_end(bytes: &[u8], limit: Option<usize>) -> Option<usize>
    ensures { EndsIn (record { line = []; limit = limit }) bytes.now result }
{
    let allowed = allowed(bytes.len(), limit);
    if let Some(at) = memchr(b'\n', &bytes[..allowed]) {
        return Some(at + 1);
    }
    if limit == Some(allowed) {
        return Some(allowed);
    }
    None
}

/// How many of n bytes a limit allows.
fn allowed(count: usize, limit: Option<usize>) -> usize
    ensures within { result ≤ count }
    ensures fits { WithinLimit limit result }
    ensures short { result < count → limit_left limit result ≡ Some 0 }
{
    match limit {
        Some(most) if most < count => most,
        _ => count,
    }
}

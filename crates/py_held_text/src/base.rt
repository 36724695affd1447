ghost use Rattle.std.specs.Prelude.{◌≡◌, ◌+◌, ◌^◌, ◌<◌, ◌≤◌, false};
ghost use Rattle.py_held_text.specs.Held.{comes_next, mark_by, base_behind};

use py_telling::Walked;

/// A place behind the base, between two items, which is the base once a character behind it was given.
#[derive(Clone, Copy, Debug, PartialEq, Eq)]
pub struct Mark {
    /// How many of the known characters stand before it.
    pub count: usize,
    /// How many of the bytes that were decoded since the base stand before it.
    pub passed: usize,
}

/// Where the base stands once characters were given.
#[derive(Clone, Copy, Debug, PartialEq, Eq)]
pub struct BaseMove {
    /// How many bytes it moved on.
    pub passed: usize,
    /// How many of the known characters stand before it.
    pub front: usize,
    /// How many characters were given since it.
    pub given: u128,
    /// The mark that stands behind it.
    pub mark: Option<Mark>,
}

/// Whether the next character stands behind a mark.
fn comes_next(mark: Option<Mark>) -> bool
    ensures { result ≡ comes_next mark }
{
    match mark {
        Some(mark) => mark.count == 0,
        None => false,
    }
}

/// The mark once more is decoded, where so many characters are known and so many bytes stand between the base and here; `cut` says
/// that this may be inside a CR LF. None is set there.
pub(crate) fn next_mark(mark: Option<Mark>, cut: bool, count: usize, passed: usize) -> Option<Mark>
    ensures { result ≡ mark_by mark cut count passed }
{
    if cut || passed == 0 || comes_next(mark) {
        return mark;
    }
    Some(Mark { count, passed })
}

/// Where the base stands once so many characters more were given; so many of the known ones stood before it till then.
pub(crate) fn base_behind(count: usize, front: usize, given: u128, mark: Option<Mark>) -> BaseMove
    requires { given + count < 2 ^ 128 }
    ensures { result ≡ base_behind count front given mark }
{
    match mark {
        Some(mark) => {
            if mark.count < count {
                return BaseMove {
                    passed: mark.passed,
                    front: 0,
                    given: (count - mark.count) as u128,
                    mark: None,
                };
            }
            let rest = Mark {
                count: mark.count - count,
                ..mark
            };
            BaseMove {
                passed: 0,
                front: front.saturating_sub(count),
                given: given + count.saturating_sub(front) as u128,
                mark: Some(rest),
            }
        }
        None => BaseMove {
            passed: 0,
            front: front.saturating_sub(count),
            given: given + count.saturating_sub(front) as u128,
            mark: None,
        },
    }
}

/// How far the bytes from the base on were walked, once it moved on by so many bytes: where it stays, as far as before.
pub(crate) fn walked_from(passed: usize, walked: Walked) -> Walked
    ensures same { passed ≡ 0 → result ≡ walked }
    ensures none { 1 ≤ passed → result ≡ record { passed = 0; count = 0; held = false } }
{
    if passed == 0 {
        walked
    } else {
        Walked::default()
    }
}

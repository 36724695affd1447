ghost use Rattle.std.specs.Prelude.{◌≡◌, ◌∷◌, []};
ghost use Rattle.py_script.specs.Words.{value_onto, as_size, decimal_value, as_negative, integer_value, as_whence, whence_value};

/// The number of one or more decimal digits, leading zeros too, with no sign; `None` for other bytes and for a number
/// above 18446744073709551615.
pub fn parse_decimal(digits: &[u8]) -> Option<usize>
    ensures { result ≡ decimal_value digits.now }
{
    if digits.is_empty() {
        return None;
    }
    let mut value = 0;
    for digit in digits {
        value = value_with(value, *digit)?;
    }
    Some(value)
}

/// A value with one more digit after it; `None` where the byte is no digit, and for a number above 18446744073709551615.
#[tactic(auto, unfolding(crate::specs::Words::is_digit))]
fn value_with(value: usize, digit: u8) -> Option<usize>
    ensures { result ≡ as_size (value_onto value (digit ∷ [])) }
{
    if digit >= b'0' && digit <= b'9' {
        value
            .checked_mul(10)?
            .checked_add(usize::from(digit - b'0'))
    } else {
        None
    }
}

/// The number of one or more decimal digits, leading zeros too, after at most one `-`; `None` for other bytes and for a
/// number below -9223372036854775808 or above 9223372036854775807.
pub(crate) fn parse_integer(bytes: &[u8]) -> Option<i64>
    ensures { result ≡ integer_value bytes.now }
{
    match bytes {
        [b'-', digits @ ..] => negative(parse_decimal(digits)?),
        digits => i64::try_from(parse_decimal(digits)?).ok(),
    }
}

/// The negative of a number; `None` for one above 9223372036854775808.
fn negative(value: usize) -> Option<i64>
    ensures { result ≡ as_negative (Some value) }
{
    0i64.checked_sub_unsigned(value as u64)
}

/// The whence of a word: an integer, as for `parse_integer`, from -2147483648 to 2147483647; `None` for other bytes.
pub(crate) fn parse_whence(bytes: &[u8]) -> Option<i32>
    ensures { result ≡ whence_value bytes.now }
{
    as_whence(parse_integer(bytes)?)
}

/// An integer as a whence; `None` for one below -2147483648 or above 2147483647.
fn as_whence(integer: i64) -> Option<i32>
    ensures { result ≡ as_whence integer }
{
    i32::try_from(integer).ok()
}

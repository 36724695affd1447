ghost use Rattle.std.specs.Prelude.{◌≡◌, ◌++◌, ◌<◌, ℕ, decimal, OnOk};
ghost use Rattle.py_plain.specs.Escapes.{hex_digit, hex_digits, backslash_escape, character_reference, surrogate_escape, surrogate_pass};
ghost use Rattle.py_plain.specs.Escaping.{spelled_by};

use std::alloc::{AllocError, Global};

/// How a number is spelled in place of a byte that couldn't be read, or of a character that couldn't be written.
#[derive(Clone, Copy)]
pub(crate) enum Escape {
    /// `?`, whatever the number.
    QuestionMark,
    /// `&#`, the decimal number and `;`.
    Reference,
    /// `\x`, `\u` or `\U` and hexadecimal digits.
    Backslash,
    /// `#` and the decimal number of a surrogate.
    Surrogate,
}

/// Each byte as the character of its number.
fn push_bytes(out: &mut Vec<char>, bytes: &[u8]) -> Result<(), AllocError>
    ensures { OnOk result (out.new.items ≡ out.old.items ++ bytes.now) }
{
    for byte in bytes {
        out.push(char::from(*byte))?;
    }
    Ok(())
}

fn hex_digit(value: u32) -> char
    requires { value < 16 }
    ensures { result ≡ hex_digit value }
{
    if value < 10 {
        char::from_u32(0x30 + value).unwrap()
    } else {
        char::from_u32(0x57 + value).unwrap()
    }
}

fn push_hex(out: &mut Vec<char>, count: u8, value: u32) -> Result<(), AllocError>
    ensures { OnOk result (out.new.items ≡ out.old.items ++ hex_digits count value) }
{
    if count == 0 {
        return Ok(());
    }
    push_hex(out, count - 1, value / 16)?;
    out.push(hex_digit(value % 16))?;
    Ok(())
}

fn push_decimal(alloc: Global, out: &mut Vec<char>, value: u32) -> Result<(), AllocError>
    ensures { OnOk result (out.new.items ≡ out.old.items ++ decimal value) }
{
    let text = format!(in alloc; "{value}")?;
    push_bytes(out, text.as_bytes())
}

fn push_backslash(out: &mut Vec<char>, value: u32) -> Result<(), AllocError>
    ensures { OnOk result (out.new.items ≡ out.old.items ++ backslash_escape value) }
{
    if value < 0x100 {
        push_bytes(out, b"\\x")?;
        push_hex(out, 2, value)
    } else if value < 0x10000 {
        push_bytes(out, b"\\u")?;
        push_hex(out, 4, value)
    } else {
        push_bytes(out, b"\\U")?;
        push_hex(out, 8, value)
    }
}

fn push_reference(alloc: Global, out: &mut Vec<char>, value: u32) -> Result<(), AllocError>
    ensures { OnOk result (out.new.items ≡ out.old.items ++ character_reference value) }
{
    push_bytes(out, b"&#")?;
    push_decimal(alloc, out, value)?;
    push_bytes(out, b";")
}

fn push_surrogate(alloc: Global, out: &mut Vec<char>, value: u32) -> Result<(), AllocError>
    requires { value < 0x110000 }
    ensures { OnOk result (out.new.items ≡ out.old.items ++ surrogate_escape value) }
{
    push_bytes(out, b"#")?;
    push_decimal(alloc, out, 0xDC00 + value)
}

/// Appends `\x` and the four digits of a surrogate. The `Err`, here as below, means out of memory.
pub(crate) fn push_surrogate_pass(out: &mut Vec<char>, surrogate: u16) -> Result<(), AllocError>
    ensures { OnOk result (out.new.items ≡ out.old.items ++ surrogate_pass surrogate) }
{
    push_bytes(out, b"\\x")?;
    push_hex(out, 4, u32::from(surrogate))
}

/// Appends a number as an escape spells it.
pub(crate) fn push_escape(
    alloc: Global,
    out: &mut Vec<char>,
    escape: Escape,
    value: u32,
) -> Result<(), AllocError>
    requires { value < 0x110000 }
    ensures { OnOk result (out.new.items ≡ out.old.items ++ spelled_by escape value) }
{
    match escape {
        Escape::QuestionMark => push_bytes(out, b"?"),
        Escape::Reference => push_reference(alloc, out, value),
        Escape::Backslash => push_backslash(out, value),
        Escape::Surrogate => push_surrogate(alloc, out, value),
    }
}

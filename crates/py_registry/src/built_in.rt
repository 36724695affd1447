ghost use Rattle.std.specs.Prelude.{◌≡◌, true, chars};
ghost use Rattle.py_registry.specs.Names.{is_plain, normal_name, same_name};
ghost use Rattle.py_registry.specs.BuiltIn.{utf_8_names, latin_1_names, ascii_names, utf_16_le_names, utf_16_be_names, is_among, built_in};

use crate::spelling::is_spelled;
use py_codec::Encoding;

/// Whether a name is a kept one of ASCII, spelled as names of encodings are.
fn is(kept: &str, name: &str) -> bool
    requires { is_plain kept.now ≡ true }
    ensures { result ≡ same_name kept.now (normal_name (chars name.now)) }
{
    is_spelled(kept, name)
}

/// Whether a name is one of UTF-8.
fn is_utf_8(name: &str) -> bool
    ensures { result ≡ is_among utf_8_names (normal_name (chars name.now)) }
{
    if is("utf-8", name) {
        return true;
    }
    if is("utf8", name) {
        return true;
    }
    is("utf_8", name)
}

/// Whether a name is one of ISO 8859-1.
fn is_latin_1(name: &str) -> bool
    ensures { result ≡ is_among latin_1_names (normal_name (chars name.now)) }
{
    if is("latin-1", name) {
        return true;
    }
    if is("latin_1", name) {
        return true;
    }
    if is("latin1", name) {
        return true;
    }
    is("iso-8859-1", name)
}

/// Whether a name is one of ASCII.
fn is_ascii(name: &str) -> bool
    ensures { result ≡ is_among ascii_names (normal_name (chars name.now)) }
{
    if is("ascii", name) {
        return true;
    }
    is("us-ascii", name)
}

/// Whether a name is one of UTF-16 with the lesser byte first.
fn is_utf_16_le(name: &str) -> bool
    ensures { result ≡ is_among utf_16_le_names (normal_name (chars name.now)) }
{
    if is("utf-16-le", name) {
        return true;
    }
    if is("utf-16le", name) {
        return true;
    }
    is("utf_16_le", name)
}

/// Whether a name is one of UTF-16 with the greater byte first.
fn is_utf_16_be(name: &str) -> bool
    ensures { result ≡ is_among utf_16_be_names (normal_name (chars name.now)) }
{
    if is("utf-16-be", name) {
        return true;
    }
    if is("utf-16be", name) {
        return true;
    }
    is("utf_16_be", name)
}

/// The encoding that is built in under a name. It takes no memory.
pub(crate) fn built_in(name: &str) -> Option<Encoding>
    ensures { result ≡ built_in (normal_name (chars name.now)) }
{
    if is_utf_8(name) {
        Some(Encoding::Utf8)
    } else if is_latin_1(name) {
        Some(Encoding::Latin1)
    } else if is_ascii(name) {
        Some(Encoding::Ascii)
    } else if is_utf_16_le(name) {
        Some(Encoding::Utf16Le)
    } else if is_utf_16_be(name) {
        Some(Encoding::Utf16Be)
    } else {
        None
    }
}

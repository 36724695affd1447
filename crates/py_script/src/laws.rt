//! Laws of words and options. No function here does anything; what it ensures is a law.
ghost use Rattle.std.specs.Prelude.{◌≡◌, ◌++◌, ◌∷◌, [], ℕ, None, List, map, codes, pos, encode_utf8_all};
ghost use Rattle.hex.specs.Hex.{encode_lower};
ghost use Rattle.py_plain_text.specs.Cookie.{cookie_bytes};
ghost use Rattle.py_plain_text.specs.CookieView.{cookie_shown};
ghost use Rattle.py_script.specs.Words.{hex_text, spaced};
ghost use Rattle.py_script.specs.Options.{name_of, arguments_of};
ghost use Rattle.py_script.specs.Script.{line_call};
ghost use Rattle.py_script.specs.ReplyLine.{hex_of};

use crate::reply_law::{read_bytes, read_lines};
use py_calls::{Call, TextIOCookie};
use py_flat::{Chars, Data};

/// Bytes are written as they were answered: the word that a reply has for them stands after `write`.
pub fn answered_bytes_can_be_written(bytes: &[u8])
    ensures { line_call (codes "write" ++ spaced (hex_of bytes.now ∷ [])) ≡ Some (Call.Write bytes.now) }
{
    read_bytes(bytes);
}

/// Lines are written as they were answered: the words that a reply has for them stand after `writelines`.
pub fn answered_lines_can_be_written(lines: &[Data])
    ensures { line_call (codes "writelines" ++ spaced (map hex_of lines.now)) ≡ Some (Call.WriteLines lines.now) }
{
    read_lines(lines);
}

/// A text is written as it was answered: the word that a reply has for it stands after `writetext`.
pub fn answered_texts_can_be_written(text: &Chars)
    ensures { line_call (codes "writetext" ++ spaced (hex_of (encode_utf8_all text.now) ∷ [])) ≡ Some (Call.WriteText text.now) }
{
    read_bytes(text.as_str().as_bytes());
}

/// A cookie is sought as it was answered: the word that a reply has for it stands after `seektext`.
pub fn answered_cookies_can_be_sought(cookie: TextIOCookie)
    ensures { line_call (codes "seektext" ++ spaced (hex_of (cookie_bytes (cookie_shown cookie)) ∷ [])) ≡ Some (Call.SeekText (cookie_bytes (cookie_shown cookie)) (pos 0)) }
{}

/// Options stand in any order: where two neighbours change places, the arguments stay the same, or malformed.
pub fn options_stand_in_any_order()
    ensures { (front words : List (List ℕ)) (first second : List ℕ) → arguments_of (front ++ first ∷ second ∷ words) ≡ arguments_of (front ++ second ∷ first ∷ words) }
{}

/// An option stands once: two words of one name are malformed, wherever they stand and whatever their values are.
pub fn an_option_stands_once()
    ensures { (front between words : List (List ℕ)) (first second : List ℕ) → name_of first ≡ name_of second → arguments_of (front ++ (first ∷ between ++ second ∷ words)) ≡ None }
{}

/// Every text can be a newline argument: the hex of its UTF-8 is read as the text.
pub fn every_text_has_its_hex(text: &Chars)
    ensures { hex_text (encode_lower (encode_utf8_all text.now)) ≡ Some text.now }
{
    read_bytes(text.as_str().as_bytes());
}

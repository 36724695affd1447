ghost use Rattle.std.specs.Prelude.{◌≡◌, [], chars, string_bytes, nat_eq, IfOk};
ghost use Rattle.std.specs.Cmp.{partial_equiv_from_equiv};
ghost use Rattle.std.specs.Cmp.Lexicographic.{pointwise, nat_list_eq_equiv};

use std::alloc::{AllocError, Global};
use std::marker::Model;

/// A text that contracts see as the list of its characters, each as its number.
#[derive(Debug, Drop)]
pub struct Chars {
    text: String,
}

impl Model for Chars {
    ghost use Rattle.std.specs.Prelude.{List, ℕ, chars, string_bytes};

    ghost Value = { List ℕ };

    ghost view = { λ c. chars (string_bytes c.text) };
}

impl Chars {
    /// No characters. It takes no memory.
    pub fn new(alloc: Global) -> Self
        ensures { result ≡ [] }
    {
        Chars {
            text: String::new(alloc),
        }
    }

    /// The characters of a string. It takes no memory.
    pub fn from_string(text: String) -> Self
        ensures { result ≡ chars (string_bytes text) }
    {
        Chars { text }
    }

    /// A copy of a text, or `Err` when out of memory.
    pub fn from_text(alloc: Global, text: &str) -> Result<Self, AllocError>
        ensures { IfOk result (λ c. c ≡ chars text.now) }
    {
        Ok(Chars {
            text: String::from_str(alloc, text)?,
        })
    }

    /// The text as a string. It takes no memory.
    pub fn into_string(self) -> String
        ensures { chars (string_bytes result) ≡ self }
    {
        let Chars { text } = self;
        text
    }

    /// The text, lent.
    pub fn as_str(&self) -> &str
        ensures { chars result.now ≡ self.now }
    {
        self.text.as_str()
    }

    /// A copy of the same characters, or `Err` when out of memory.
    pub fn try_clone(&self, alloc: Global) -> Result<Self, AllocError>
        ensures { IfOk result (λ c. c ≡ self.now) }
    {
        Chars::from_text(alloc, &self.text)
    }
}

/// Two texts are equal that have the same characters.
impl PartialEq for Chars {
    ghost eq = { pointwise nat_eq };

    ghost laws = { partial_equiv_from_equiv nat_list_eq_equiv };

    fn eq(&self, other: &Self) -> bool {
        self.as_str() == other.as_str()
    }
}

impl Eq for Chars {
    ghost laws = { nat_list_eq_equiv };
}

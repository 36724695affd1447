ghost use Rattle.std.specs.Prelude.{◌≡◌, ◌++◌, ◌∷◌, [], length, nat_eq, IfOk, OnOk, OnErr};
ghost use Rattle.std.specs.Cmp.{partial_equiv_from_equiv};
ghost use Rattle.std.specs.Cmp.Lexicographic.{pointwise, nat_list_eq_equiv, lists_equiv};

use crate::Data;
use std::alloc::{AllocError, Global};
use std::marker::Model;

/// A list of lines that contracts see as a list of lists of bytes.
#[derive(Debug, Drop)]
pub struct Lines {
    lines: Vec<Data>,
}

impl Model for Lines {
    ghost use Rattle.std.specs.Prelude.{List, ℕ};

    ghost Value = { List (List ℕ) };

    ghost view = { λ l. l.lines.items };
}

impl Lines {
    /// No lines. It takes no memory.
    pub fn new(alloc: Global) -> Self
        ensures { result ≡ [] }
    {
        Lines {
            lines: Vec::new(alloc),
        }
    }

    /// The lines of a vector. It takes no memory.
    pub fn from_vec(lines: Vec<Data>) -> Self
        ensures { result ≡ lines.items }
    {
        Lines { lines }
    }

    /// The lines as a vector. It takes no memory.
    pub fn into_vec(self) -> Vec<Data>
        ensures { result.items ≡ self }
    {
        let Lines { lines } = self;
        lines
    }

    /// The lines, lent.
    pub fn as_slice(&self) -> &[Data]
        ensures { result.now ≡ self.now }
    {
        self.lines.as_slice()
    }

    /// How many lines there are.
    pub fn len(&self) -> usize
        ensures { result ≡ length self.now }
    {
        self.lines.len()
    }

    /// Adds a line at the end. At `Err`, when out of memory, the lines are unchanged.
    pub fn push(&mut self, line: Data) -> Result<(), AllocError>
        ensures ok { OnOk result (self.new ≡ self.old ++ line ∷ []) }
        ensures err { OnErr result (self.new ≡ self.old) }
    {
        self.lines.push(line)?;
        Ok(())
    }

    /// A copy of the same lines, or `Err` when out of memory.
    pub fn try_clone(&self, alloc: Global) -> Result<Self, AllocError>
        ensures { IfOk result (λ l. l ≡ self.now) }
    {
        let mut copy = Lines::new(alloc);
        for line in &self.lines {
            copy.push(line.try_clone(alloc)?)?;
        }
        Ok(copy)
    }
}

/// Two lists of lines are equal that have the same lines.
impl PartialEq for Lines {
    ghost eq = { pointwise (pointwise nat_eq) };

    ghost laws = { partial_equiv_from_equiv (lists_equiv nat_list_eq_equiv) };

    fn eq(&self, other: &Self) -> bool {
        self.as_slice() == other.as_slice()
    }
}

impl Eq for Lines {
    ghost laws = { lists_equiv nat_list_eq_equiv };
}

//! What is kept under names: the kit's map, whose entries stand in the order in which they came.
ghost use Rattle.std.specs.Prelude.{◌≡◌, [], chars, MatchOption, OnOk, OnErr};
ghost use Rattle.py_codec.specs.Answers.{text_of};
ghost use Rattle.py_registry.specs.Entries.{IsEntry, IsNoEntry};
ghost use Rattle.py_registry.specs.Names.{normal_name, same_name, value_of, with_value, without_name};

use crate::spelling::is_spelled;
use indexmap::IndexMap;
use std::alloc::{AllocError, Global};
use std::marker::Model;

/// Values under names, which contracts see as a list of pairs.
#[derive(Debug, Drop)]
pub(crate) struct Names<V> {
    entries: IndexMap<String, V>,
}

impl<V> Model for Names<V> {
    ghost use Rattle.py_registry.specs.Names.{Named, named};

    ghost Value = { Named V };

    ghost view = { λ n. named n.entries.entries };
}

impl<V: Copy> Names<V> {
    /// No names. It takes no memory.
    pub(crate) fn new(alloc: Global) -> Self
        ensures { result ≡ [] }
    {
        Names {
            entries: IndexMap::new(alloc),
        }
    }

    /// What a name stands for, as it is given. It takes no memory.
    pub(crate) fn get(&self, name: &str) -> Option<V>
        ensures { result ≡ value_of (chars name.now) self.now }
    {
        match self.entries.get(name) {
            Some(value) => Some(*value),
            None => None,
        }
    }

    /// The place and the value of the entry of a name of an encoding, once that is spelled as it is looked for. The map is
    /// looked up by whole texts alone, and a spelled one takes memory: so its entries are gone through, which takes none.
    fn spelled_entry(&self, name: &str) -> Option<(usize, V)>
        ensures { MatchOption result (IsNoEntry (λ kept. same_name kept (normal_name (chars name.now))) self.now)
            (λ entry. IsEntry (λ kept. same_name kept (normal_name (chars name.now))) self.now entry.0 entry.1) }
    {
        for place in 0..self.entries.len() {
            let Some((kept, value)) = self.entries.get_index(place) else {
                return None;
            };
            if is_spelled(kept.as_str(), name) {
                return Some((place, *value));
            }
        }
        None
    }

    /// What a name of an encoding stands for, once that is spelled as it is looked for. It takes no memory.
    pub(crate) fn get_spelled(&self, name: &str) -> Option<V>
        ensures { result ≡ value_of (normal_name (chars name.now)) self.now }
    {
        match self.spelled_entry(name) {
            Some((_, value)) => Some(value),
            None => None,
        }
    }

    /// A name stands for a value from now on, as it is given; `Err` when out of memory, and all is as before.
    pub(crate) fn put(&mut self, name: String, value: V) -> Result<(), AllocError>
        ensures ok { OnOk result (self.new ≡ with_value (text_of name) value self.old) }
        ensures err { OnErr result (self.new ≡ self.old) }
    {
        self.entries.insert(name, value)?;
        Ok(())
    }

    /// A name of an encoding stands for nothing from now on, once it is spelled as it is looked for; answers what it stood
    /// for. It takes no memory.
    pub(crate) fn remove_spelled(&mut self, name: &str) -> Option<V>
        ensures value { result ≡ value_of (normal_name (chars name.now)) self.old }
        ensures after { self.new ≡ without_name (normal_name (chars name.now)) self.old }
    {
        let (place, value) = self.spelled_entry(name)?;
        self.entries.shift_remove_index(place);
        Some(value)
    }

    /// No name stands for anything from now on. It takes no memory.
    pub(crate) fn clear(&mut self)
        ensures { self.new ≡ [] }
    {
        self.entries.clear();
    }
}

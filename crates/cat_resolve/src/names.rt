//! What the names of a source stand for.

ghost use Rattle.std.specs.Prelude.{◌≡◌, ℕ, List, None, OnOk};
ghost use Rattle.cat_resolve.specs.Names.{Gives};
ghost use Rattle.cat_resolve.specs.Meanings.{meanings};

use std::alloc::{AllocError, Global};
use std::collections::BTreeMap;

/// What a name stands for.
#[derive(Clone, Copy, Debug, PartialEq, Eq, Drop)]
pub enum Meaning {
    /// A variable of one word, by its word.
    Word(u16),
    /// An array, by its first word and how many it has.
    Array { base: u16, len: u16 },
    /// A task, by its number.
    Task(u8),
    /// An event, by its number.
    Event(u8),
}

/// What each name stands for, where it stands for something.
#[derive(Drop)]
pub struct Names {
    map: BTreeMap<String, Meaning>,
}

impl Names {
    pub fn new(alloc: Global) -> Names
        ensures { (name : List ℕ) → meanings result name ≡ None }
    {
        Names {
            map: BTreeMap::new(alloc),
        }
    }

    /// What a name stands for.
    pub fn get(&self, name: &str) -> Option<Meaning>
        ensures { result ≡ meanings self.now name.now }
    {
        self.map.get(name).copied()
    }

    /// Gives a name its meaning, unless it has one.
    pub fn give(&mut self, alloc: Global, name: &str, meaning: Meaning) -> Result<(), AllocError>
        ensures { OnOk result (Gives (meanings self.old) (meanings self.new) name.now meaning) }
    {
        if self.get(name).is_some() {
            return Ok(());
        }
        let key = String::from_str(alloc, name)?;
        self.map.insert(key, meaning)?;
        Ok(())
    }
}

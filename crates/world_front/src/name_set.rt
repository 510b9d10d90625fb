//! Sets of names.

ghost use Rattle.std.specs.Prelude.{◌≡◌, [], IfOk, OnOk};
ghost use Rattle.std.specs.BTreeSet.{insert_key};
ghost use Rattle.world_front.specs.Joining.{with_names};
ghost use Rattle.store_core.specs.Store.{bytes_cmp};

use common_types::{Items, Name, OutOfMemory};
use std::alloc::Global;
use std::collections::BTreeSet;
use std::marker::Model;

/// Names without repetition, which contracts see as the list of them in the order of their bytes.
#[derive(Drop)]
pub(crate) struct NameSet {
    texts: BTreeSet<String>,
}

impl Model for NameSet {
    ghost use Rattle.std.specs.Prelude.{List, ℕ, map, string_bytes};

    ghost Value = { List (List ℕ) };

    ghost view = { λ s. map string_bytes s.texts.keys };
}

impl NameSet {
    /// No names. It takes no memory.
    pub fn new(alloc: Global) -> NameSet
        ensures { result ≡ [] }
    {
        NameSet {
            texts: BTreeSet::new(alloc),
        }
    }

    /// Adds a name, if it is not there.
    fn add(&mut self, alloc: Global, name: &Name) -> Result<(), OutOfMemory>
        ensures { OnOk result (self.new ≡ insert_key bytes_cmp self.old name.now) }
    {
        let text = String::from_str(alloc, name.as_str())?;
        self.texts.insert(text)?;
        Ok(())
    }

    /// Adds the names that are not there.
    pub fn add_all(&mut self, alloc: Global, names: &[Name]) -> Result<(), OutOfMemory>
        ensures { OnOk result (self.new ≡ with_names self.old names.now) }
    {
        for name in names {
            self.add(alloc, name)?;
        }
        Ok(())
    }

    /// The names, in the order of their bytes.
    pub fn names(&self, alloc: Global) -> Result<Items<Name>, OutOfMemory>
        ensures { IfOk result (λ names. names ≡ self.now) }
    {
        let mut names = Items::new(alloc);
        for text in &self.texts {
            names.push(Name::new(alloc, text.as_str())?)?;
        }
        Ok(names)
    }
}

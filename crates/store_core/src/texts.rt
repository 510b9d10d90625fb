//! Sets of names.

ghost use Rattle.std.specs.Prelude.{◌≡◌, IfOk, OnOk};
ghost use Rattle.std.specs.FinMap.{empty, keys};
ghost use Rattle.store_core.specs.ListedTexts.{with_text};

use common_types::{Items, Name, OutOfMemory};
use std::alloc::Global;
use std::collections::BTreeSet;
use std::marker::Model;

/// Names without repetition, which contracts see as the set.
#[derive(Drop)]
pub(crate) struct Texts {
    texts: BTreeSet<String>,
}

impl Model for Texts {
    ghost use Rattle.store_core.specs.ListedTexts as stored;

    ghost Value = { stored.Texts };

    ghost coded = { stored.texts_code };

    ghost view = { λ t. stored.texts_of t.texts.keys };
}

impl Texts {
    /// No names. It takes no memory.
    pub(crate) fn new(alloc: Global) -> Texts
        ensures { result ≡ empty }
    {
        Texts {
            texts: BTreeSet::new(alloc),
        }
    }

    /// Adds a name, if it is not there.
    pub(crate) fn add(&mut self, alloc: Global, name: &Name) -> Result<(), OutOfMemory>
        ensures { OnOk result (self.new ≡ with_text self.old name.now) }
    {
        let text = String::from_str(alloc, name.as_str())?;
        self.texts.insert(text)?;
        Ok(())
    }

    /// The names in the order of their bytes.
    pub(crate) fn names(&self, alloc: Global) -> Result<Items<Name>, OutOfMemory>
        ensures { IfOk result (λ names. names ≡ keys self.now) }
    {
        let mut names = Items::new(alloc);
        for text in &self.texts {
            names.push(Name::new(alloc, text.as_str())?)?;
        }
        Ok(names)
    }
}

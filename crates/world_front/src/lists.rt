//! The lists of names that were asked for.

ghost use Rattle.std.specs.Prelude.{◌≡◌, ◌++◌, ◌-◌, ◌==◌, [], ◌∷◌, None, OnOk, OnErr, length, take};
ghost use Rattle.std.specs.List.{find};

use crate::session::ListRange;
use common_types::OutOfMemory;
use entry_core::{Id, IdHash};
use indexmap::IndexMap;
use std::alloc::Global;
use std::marker::Model;

/// Lists in order, each found by the id of its first piece.
#[derive(Drop)]
pub(crate) struct Lists {
    counts: IndexMap<Id, u32, IdHash>,
}

impl Model for Lists {
    ghost use Rattle.std.specs.Prelude.{List};
    ghost use Rattle.world_front.specs.ControlPlane as front;
    ghost use Rattle.world_front.specs.Lists.{lists_in};

    ghost Value = { List front.ListRange };

    ghost view = { λ a. lists_in a.counts.entries };
}

impl Lists {
    /// No lists. It takes no memory.
    pub fn new(alloc: Global) -> Lists
        ensures { result ≡ [] }
    {
        Lists {
            counts: IndexMap::with_hasher(alloc, IdHash::new()),
        }
    }

    /// The list that begins with a request, if one does.
    pub fn get(&self, first: Id) -> Option<ListRange>
        ensures { result ≡ find (λ p. p.first == first) self.now }
    {
        match self.counts.get(&first) {
            None => None,
            Some(count) => Some(ListRange {
                first,
                count: *count,
            }),
        }
    }

    /// Adds a list that begins with a request with which none does.
    pub fn push(&mut self, list: ListRange) -> Result<(), OutOfMemory>
        requires { find (λ p. p.first == list.first) self.old ≡ None }
        ensures ok { OnOk result (self.new ≡ self.old ++ list ∷ []) }
        ensures err { OnErr result (self.new ≡ self.old) }
    {
        self.counts.insert(list.first, list.count)?;
        Ok(())
    }

    /// Takes the last list away.
    pub fn pop(&mut self)
        ensures { self.new ≡ take (length self.old - 1) self.old }
    {
        let _ = self.counts.pop();
    }
}

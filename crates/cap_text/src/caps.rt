//! Lists of grants.

ghost use Rattle.std.specs.Prelude.{◌≡◌, ◌≤◌, [], true, length, IfOk, IsTrue, ◌↔◌};
ghost use Rattle.std.specs.List.{list_all};
ghost use Rattle.cap_grants.specs.Spellable.{is_spellable};

use cap_grants::{Grant, are_spellable};
use common_types::OutOfMemory;
use std::alloc::Global;
use std::marker::Model;

/// The grants of a capability text, at most 64 and each one that the grammar can spell, which contracts see as the list of them.
#[derive(Debug, Drop)]
pub struct CapList {
    grants: Vec<Grant>,
}

impl Model for CapList {
    ghost use Rattle.std.specs.Prelude.{List, true, length, ◌≡◌, ◌≤◌};
    ghost use Rattle.std.specs.List.{list_all};
    ghost use Rattle.cap_grants.specs.declared.grant.Grant.{Grant};
    ghost use Rattle.cap_grants.specs.Spellable.{is_spellable};

    ghost Value = { List Grant };

    ghost view = { λ c. c.grants.items };

    ghost invariant = { λ c. (length c.grants.items ≤ 64) × (list_all is_spellable c.grants.items ≡ true) };
}

impl CapList {
    /// No grants.
    pub fn empty(alloc: Global) -> CapList
        ensures { result ≡ [] }
    {
        CapList {
            grants: Vec::new(alloc),
        }
    }

    /// Whether grants make a list: at most 64, each of which the grammar can spell. It takes no memory.
    pub fn can_hold(grants: &[Grant]) -> bool
        ensures { IsTrue result ↔ ((length grants.now ≤ 64) × (list_all is_spellable grants.now ≡ true)) }
    {
        grants.len() <= 64 && are_spellable(grants)
    }

    /// The list of these grants, where [`CapList::can_hold`] says that they make one. It takes no memory.
    pub fn from_vec(grants: Vec<Grant>) -> CapList
        requires few { length grants.items ≤ 64 }
        requires spellable { list_all is_spellable grants.items ≡ true }
        ensures { result ≡ grants.items }
    {
        CapList { grants }
    }

    /// Its grants, in the text's order.
    pub fn grants(&self) -> &[Grant]
        ensures value { result.now ≡ self.now }
        ensures few { length result.now ≤ 64 }
        ensures spellable { list_all is_spellable result.now ≡ true }
    {
        self.grants.as_slice()
    }

    /// An equal list.
    pub fn copy(&self) -> Result<CapList, OutOfMemory>
        ensures { IfOk result (λ list. list ≡ self.now) }
    {
        let mut copies = Vec::new(*self.grants.allocator());
        for grant in self.grants() {
            copies.push(grant.copy()?)?;
        }
        Ok(CapList { grants: copies })
    }
}

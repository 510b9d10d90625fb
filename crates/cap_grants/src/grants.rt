//! Grants that are whole, one after the other.

ghost use Rattle.std.specs.Prelude.{◌≡◌, ◌∷◌, ◌++◌, [], length, IfOk, Ok};
ghost use Rattle.cap_grants.specs.Gives.{GivesIn};

use crate::fault_kind::FaultKind;
use crate::grant::Grant;
use common_types::OutOfMemory;
use std::alloc::Global;
use std::marker::Model;

/// Grants one after the other, which contracts see as the list of them.
#[derive(Drop)]
pub struct Grants {
    items: Vec<Grant>,
}

impl Model for Grants {
    ghost use Rattle.std.specs.Prelude.{List};
    ghost use Rattle.cap_grants.specs.declared.grant.Grant.{Grant};

    ghost Value = { List Grant };

    ghost view = { λ g. g.items.items };
}

impl Grants {
    /// No grants, with room for `count` of them. The error is out of memory.
    pub fn with_room(alloc: Global, count: usize) -> Result<Grants, OutOfMemory>
        ensures { IfOk result (λ grants. grants ≡ []) }
    {
        Ok(Grants {
            items: Vec::with_capacity(alloc, count)?,
        })
    }

    /// How many they are.
    pub fn len(&self) -> usize
        ensures { result ≡ length self.now }
    {
        self.items.len()
    }

    /// Puts a grant behind the others. The only error is a growth that was refused (C8).
    #[inline(always)]
    pub fn push(&mut self, grant: Grant) -> Result<(), FaultKind>
        ensures { GivesIn result self.new (Ok (self.old ++ grant ∷ [])) }
    {
        self.items.reserve(1)?;
        self.items.push_reserved(grant);
        Ok(())
    }

    /// The grants alone. It takes no memory.
    pub fn into_vec(self) -> Vec<Grant>
        ensures { result.items ≡ self }
    {
        let Grants { items } = self;
        items
    }
}

//! What a list of grants is expanded to.

ghost use Rattle.std.specs.Prelude.{◌≡◌, ◌≤◌, length};

use crate::path::Path;
use cap_text::AllowGrant;
use std::marker::Model;

/// What a list of grants expands to. Contracts see it as the list of at most 256 paths and grants.
///
/// It contains no use of a profile. The grants are stored one after another, so no call's stack grows with their
/// number.
#[derive(Debug, Drop)]
pub struct GrantTree {
    grants: Vec<(Path, AllowGrant)>,
}

impl Model for GrantTree {
    ghost use Rattle.std.specs.Prelude.{List, ℕ, length, ◌≤◌};
    ghost use Rattle.cap_grants.specs.declared.grant.AllowGrant.{AllowGrant};

    ghost Value = { List (List ℕ × AllowGrant) };

    ghost view = { λ t. t.grants.items };

    ghost invariant = { λ t. length t.grants.items ≤ 256 };
}

impl GrantTree {
    pub(crate) fn new(grants: Vec<(Path, AllowGrant)>) -> GrantTree
        requires { length grants.items ≤ 256 }
        ensures { result ≡ grants.items }
    {
        GrantTree { grants }
    }

    /// The grants with their paths, in the order of the list.
    pub fn grants(&self) -> &[(Path, AllowGrant)]
        ensures value { result.now ≡ self.now }
        ensures few { length result.now ≤ 256 }
    {
        self.grants.as_slice()
    }

    /// Returns the grants as a vector, moved and not copied.
    pub fn into_flat(self) -> Vec<(Path, AllowGrant)>
        ensures value { result.items ≡ self }
        ensures few { length result.items ≤ 256 }
    {
        self.grants
    }
}

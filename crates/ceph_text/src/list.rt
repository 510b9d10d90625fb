//! The grants of a text.

ghost use Rattle.std.specs.Prelude.{◌≡◌, ◌≤◌, length};

use crate::grant::CephGrant;
use std::marker::Model;

/// The grants of a capability text as Ceph reads it, at most 4,096, which contracts see as the list of them.
#[derive(Debug, Drop)]
pub struct CephList {
    grants: Vec<CephGrant>,
}

impl Model for CephList {
    ghost use Rattle.std.specs.Prelude.{List, length, ◌≤◌};
    ghost use Rattle.ceph_text.specs.declared.grant.CephGrant.{CephGrant};

    ghost Value = { List CephGrant };

    ghost view = { λ list. list.grants.items };

    ghost invariant = { λ list. length list.grants.items ≤ 4096 };
}

impl CephList {
    /// The list of these grants. It takes no memory.
    pub(crate) fn from_vec(grants: Vec<CephGrant>) -> CephList
        requires { length grants.items ≤ 4096 }
        ensures { result ≡ grants.items }
    {
        CephList { grants }
    }

    /// Its grants, in the text's order.
    pub fn grants(&self) -> &[CephGrant]
        ensures value { result.now ≡ self.now }
        ensures few { length result.now ≤ 4096 }
    {
        self.grants.as_slice()
    }
}

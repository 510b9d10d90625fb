//! The grants of rights, one after another.

ghost use Rattle.std.specs.Prelude.{◌≡◌, ◌∷◌, [], MatchOption};
ghost use Rattle.rights_core.specs.Rights as spec;

use crate::rights::first_network;
use cap_text::AllowGrant;
use grant_core::Path;
use network_core::Network;
use std::marker::Model;

/// A grant of rights: its path, and its network if it has one.
#[derive(Debug, Drop)]
pub struct Entry<'a> {
    pub path: &'a Path,
    pub network: Option<Network>,
    pub grant: &'a AllowGrant,
}

impl<'a> Model for Entry<'a> {
    ghost use Rattle.rights_core.specs.Rights.{NetworkGrant};

    ghost Value = { NetworkGrant };

    ghost view = { λ e. record { path = e.path.now; network = e.network; grant = e.grant.now } };
}

/// Grants of rights, in order.
#[derive(Debug, Drop)]
pub struct Entries<'a> {
    grants: &'a [(Path, AllowGrant)],
    /// The networks of the first grants. The others have none.
    networks: &'a [Option<Network>],
}

impl<'a> Model for Entries<'a> {
    ghost use Rattle.std.specs.Prelude.{List};
    ghost use Rattle.rights_core.specs.Rights as seen;

    ghost Value = { List seen.NetworkGrant };

    ghost view = { λ e. seen.with_networks e.grants.now e.networks.now };
}

impl<'a> Entries<'a> {
    /// Grants with the networks of the first of them.
    pub(crate) fn of(
        grants: &'a [(Path, AllowGrant)],
        networks: &'a [Option<Network>],
    ) -> Entries<'a>
        ensures { result ≡ spec.with_networks grants.now networks.now }
    {
        Entries { grants, networks }
    }

    /// The first grant, and those behind it.
    pub fn split_first(&self) -> Option<(Entry<'a>, Entries<'a>)>
        ensures { MatchOption result (self.now ≡ []) (λ split. self.now ≡ split.0 ∷ split.1) }
    {
        let (entry, grants) = self.grants.split_first()?;
        let (network, networks) = first_network(self.networks);
        let first = Entry {
            path: &entry.0,
            network,
            grant: &entry.1,
        };
        Some((first, Entries { grants, networks }))
    }
}

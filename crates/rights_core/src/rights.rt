//! The grants of an entity.

ghost use Rattle.cap_grants.specs.declared.grant.AllowGrant.{AllowGrant};
ghost use Rattle.std.specs.Prelude.{◌≡◌, ◌≤◌, ◌↔◌, ◌∷◌, List, ℕ, [], true, false, length, IsTrue, IfOk, OnOk, MatchOption};
ghost use Rattle.std.specs.List.{Contains, slice_get};
ghost use Rattle.std.specs.Option.{unwrap_or};
ghost use Rattle.network_core.specs.declared.address.Address.{Address};
ghost use Rattle.network_core.specs.declared.network.Network.{Network};
ghost use Rattle.rights_core.specs.Given.{HasNetwork, HasNetworks, reached};
ghost use Rattle.rights_core.specs.Reports.{report_from};
ghost use Rattle.rights_core.specs.Rights as spec;

use crate::entries::Entries;
use crate::reporting::{failure, is_reached, push_line};
use cap_text::AllowGrant;
use common_types::OutOfMemory;
use grant_core::{GrantTree, Path};
use network_core::{Address, Network};
use request_types::{Needs, Target};
use std::alloc::Global;
use std::marker::Model;
use verdict_core::{Report, Ticket};

/// The most grants that rights may have.
pub const MAX_GRANTS: usize = verdict_core::MAX_GRANTS;

/// The grants of an entity with their paths, each for the addresses of a network or for all addresses, and until when they hold.
#[derive(Debug, Drop)]
pub struct Rights {
    ticket: Ticket,
    /// The networks of the first grants. The others have none, so that it is empty where no grant has a network.
    networks: Vec<Option<Network>>,
}

impl Model for Rights {
    ghost use Rattle.rights_core.specs.Rights as seen;

    ghost Value = { seen.Rights };

    ghost view = { λ r. record { grants = seen.with_networks r.ticket.grants r.networks.items; until = r.ticket.until } };
}

/// The network of the first grant, and those of the others.
pub(crate) fn first_network(networks: &[Option<Network>]) -> (Option<Network>, &[Option<Network>])
    ensures { (g : List ℕ × AllowGrant) (gs : List (List ℕ × AllowGrant)) → spec.with_networks (g ∷ gs) networks.now ≡ record { path = g.0; network = result.0; grant = g.1 } ∷ spec.with_networks gs result.1.now }
{
    match networks.split_first() {
        Some((network, others)) => (*network, others),
        None => (None, networks),
    }
}

/// The network at an index, or none behind the end.
fn network_at(networks: &[Option<Network>], index: usize) -> Option<Network>
    ensures { result ≡ unwrap_or (slice_get networks.now index) None }
{
    match networks.get(index) {
        Some(network) => *network,
        None => None,
    }
}

/// Adds a network to a list, if there is one.
fn push_network(list: &mut Vec<Network>, network: &Option<Network>) -> Result<(), OutOfMemory>
    ensures has { OnOk result (HasNetwork list.new.items network.now) }
    ensures keeps { OnOk result ((n : Network) → Contains list.old.items n → Contains list.new.items n) }
{
    if let Some(network) = network {
        list.push(*network)?;
    }
    Ok(())
}

impl Rights {
    /// The rights of an expanded list, whose grants have no networks. It takes no memory.
    pub fn of(alloc: Global, tree: GrantTree, until: Option<u64>) -> Rights
        ensures { result ≡ record { grants = spec.with_networks tree []; until = until } }
    {
        Rights::from_ticket(alloc, Ticket::of(tree, until))
    }

    /// The rights whose ticket is the same at every address. It takes no memory.
    pub fn from_ticket(alloc: Global, ticket: Ticket) -> Rights
        ensures { result ≡ record { grants = spec.with_networks ticket.grants []; until = ticket.until } }
    {
        Rights {
            ticket,
            networks: Vec::new(alloc),
        }
    }

    /// The rights of these grants, with a network for each of the first grants and none for the others. It takes no memory.
    pub fn from_grants(
        grants: Vec<(Path, AllowGrant)>,
        networks: Vec<Option<Network>>,
        until: Option<u64>,
    ) -> Rights
        requires { length grants.items ≤ 16384 }
        ensures { result ≡ record { grants = spec.with_networks grants.items networks.items; until = until } }
    {
        Rights {
            ticket: Ticket::from_grants(grants, until),
            networks,
        }
    }

    /// Whether some grant has a network.
    #[tactic(auto, using(crate::proofs::Given::grant_steps))]
    pub fn has_networks(&self) -> bool
        ensures { result ≡ spec.has_networks self.now.grants }
    {
        let mut networks = self.networks.as_slice();
        let mut grants = self.ticket.grants();
        while let Some((_, others)) = grants.split_first() {
            let (network, other_networks) = first_network(networks);
            if network.is_some() {
                return true;
            }
            grants = others;
            networks = other_networks;
        }
        false
    }

    /// How many grants there are.
    #[tactic(auto, using(crate::proofs::Given::length_with))]
    pub fn len(&self) -> usize
        ensures value { result ≡ length self.now.grants }
        ensures few { result ≤ 16384 }
    {
        self.ticket.grants().len()
    }

    /// Whether there are no grants.
    #[tactic(auto, using(crate::proofs::Given::length_with))]
    pub fn is_empty(&self) -> bool
        ensures { IsTrue result ↔ (length self.now.grants ≡ 0) }
    {
        self.ticket.grants().is_empty()
    }

    /// The path, the network and the grant at an index, or `None` if the index is not below the number of grants.
    pub fn entry(&self, index: usize) -> Option<(&Path, Option<Network>, &AllowGrant)>
        ensures { MatchOption result (length self.now.grants ≤ index) (λ e. slice_get self.now.grants index ≡ Some (record { path = e.0.now; network = e.1; grant = e.2.now })) }
    {
        let network = network_at(self.networks.as_slice(), index);
        match self.ticket.grants().get(index) {
            Some(entry) => Some((&entry.0, network, &entry.1)),
            None => None,
        }
    }

    /// The ticket at an address: the grants without a network and those whose network matches, in order.
    /// The only error is out of memory.
    #[tactic(auto, using(crate::proofs::Given::reached_at))]
    pub fn at(&self, alloc: Global, address: &Address) -> Result<Ticket, OutOfMemory>
        ensures { IfOk result (λ ticket. ticket ≡ spec.ticket_at self.now address.now) }
    {
        self.ticket_from(alloc, &Some(*address))
    }

    /// The ticket of the grants that some address has: those without a network and those whose network is not `Never`, in order.
    /// The only error is out of memory.
    #[tactic(auto, using(crate::proofs::Given::reached_anywhere))]
    pub fn anywhere(&self, alloc: Global) -> Result<Ticket, OutOfMemory>
        ensures { IfOk result (λ ticket. ticket ≡ spec.live_ticket self.now) }
    {
        self.ticket_from(alloc, &None)
    }

    /// The ticket of the grants that an address has, or that some address has if none is given.
    fn ticket_from(&self, alloc: Global, from: &Option<Address>) -> Result<Ticket, OutOfMemory>
        ensures { IfOk result (λ ticket. ticket ≡ record { grants = reached self.now.grants from.now; until = self.now.until }) }
    {
        let mut given = Vec::new(alloc);
        let mut networks = self.networks.as_slice();
        let mut grants = self.ticket.grants();
        while let Some((entry, others)) = grants.split_first() {
            let (network, other_networks) = first_network(networks);
            if is_reached(&network, from) {
                given.push((entry.0.copy()?, entry.1.copy()?))?;
            }
            grants = others;
            networks = other_networks;
        }
        Ok(Ticket::from_grants(given, self.ticket.until()))
    }

    /// The ticket itself, where no grant has a network. It takes no memory.
    pub fn into_ticket(self) -> Ticket
        requires { spec.has_networks self.grants ≡ false }
        ensures { (a : Address) → result ≡ spec.ticket_at self a }
    {
        self.ticket
    }

    /// The ticket, where no grant has a network: it is that of every address.
    pub fn as_ticket(&self) -> Option<&Ticket>
        ensures { MatchOption result (spec.has_networks self.now.grants ≡ true) (λ ticket. (a : Address) → ticket.now ≡ spec.ticket_at self.now a) }
    {
        if self.has_networks() {
            None
        } else {
            Some(&self.ticket)
        }
    }

    /// Why a request is denied at a tick, from an address or, if none is given, from every one: for each grant, in order, its
    /// path and the first condition that the request fails. A grant's network is looked at before all else of the grant.
    /// Without an address only a network that matches none fails. The only error is out of memory.
    pub fn report(
        &self,
        alloc: Global,
        target: &Target<'_>,
        needs: &Needs,
        tick: u64,
        from: &Option<Address>,
    ) -> Result<Report, OutOfMemory>
        ensures { IfOk result (λ report. report ≡ report_from self.now target.now needs.now tick from.now) }
    {
        let expired = self.ticket.is_expired(tick);
        let mut lines = Vec::new(alloc);
        let mut networks = self.networks.as_slice();
        let mut grants = self.ticket.grants();
        while let Some((entry, other_grants)) = grants.split_first() {
            let (network, other_networks) = first_network(networks);
            let condition = failure(expired, &network, &entry.1, target, needs, from);
            push_line(&mut lines, &entry.0, condition)?;
            grants = other_grants;
            networks = other_networks;
        }
        Ok(Report::from_lines(lines))
    }

    /// Its grants, each with its path and its network.
    pub fn entries(&self) -> Entries<'_>
        ensures { result ≡ self.now.grants }
    {
        Entries::of(self.ticket.grants(), self.networks.as_slice())
    }

    /// Adds the networks of its grants to a list. Out of memory may leave some of them there.
    pub fn push_networks(&self, list: &mut Vec<Network>) -> Result<(), OutOfMemory>
        ensures has { OnOk result (HasNetworks list.new.items self.now.grants) }
        ensures keeps { OnOk result ((n : Network) → Contains list.old.items n → Contains list.new.items n) }
    {
        let networks = self.networks.as_slice();
        for network in networks {
            push_network(list, network)?;
        }
        Ok(())
    }
}

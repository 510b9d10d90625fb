//! Verdicts of rights that depend on the client's address, without an allocation.

ghost use Rattle.std.specs.Prelude.{◌≡◌, [], not, true, IfOk, MatchOption};
ghost use Rattle.network_core.specs.Address.{IsAddress};
ghost use Rattle.network_core.specs.declared.address.Address.{Address};
ghost use Rattle.rights_core.specs.Rights.{grants_at, has_networks};
ghost use Rattle.rights_core.specs.Rights as rights;
ghost use Rattle.rights_core.specs.Verdicts.{IsVerdict, allowed_at};
ghost use Rattle.verdict_core.specs.Verdict.{grants_allow};
ghost use Rattle.verdict_core.specs.Verdict as verdict;

use cap_text::AllowGrant;
use common_types::OutOfMemory;
use network_core::{Address, Network};
use request_types::{Needs, Target};
use rights_core::{Everywhere, Rights, addresses};
use std::alloc::Global;
use std::marker::Model;
use verdict_core::first_failure;

/// Rights of which some grant has a network.
#[derive(Debug, Drop)]
pub(crate) struct LimitedRights {
    rights: Rights,
    until: Option<u64>,
    /// Addresses that decide a question over all addresses.
    samples: Vec<Address>,
}

impl Model for LimitedRights {
    ghost use Rattle.std.specs.Prelude.{◌≡◌, ◌∷◌, [], true};
    ghost use Rattle.rights_core.specs.Rights.{has_networks};
    ghost use Rattle.rights_core.specs.Rights as seen;
    ghost use Rattle.rights_core.specs.Samples.{DecideFor};

    ghost Value = { seen.Rights };

    ghost view = { λ l. l.rights };

    ghost invariant = { λ l. (has_networks l.rights.grants ≡ true) × (l.until ≡ l.rights.until) × DecideFor (l.rights ∷ []) l.samples.items };
}

/// Whether a grant with this network, or with none, is for an address.
fn is_for(network: &Option<Network>, address: &Address) -> bool
    ensures { result ≡ rights.is_for network.now address.now }
{
    match network {
        None => true,
        Some(network) => network.matches(address),
    }
}

/// Whether a grant allows a request without calls.
fn is_usable(grant: &AllowGrant, target: &Target<'_>, needs: &Needs) -> bool
    requires { needs.now.calls ≡ [] }
    ensures { result ≡ verdict.is_usable grant.now target.now needs.now }
{
    first_failure(false, grant, target, needs).is_none()
}

/// Whether the grants of rights allow a request without calls from an address.
#[tactic(auto, using(crate::proofs::Usable::allow_step, crate::proofs::Usable::allow_none))]
fn allow_at(rights: &Rights, address: &Address, target: &Target<'_>, needs: &Needs) -> bool
    requires { needs.now.calls ≡ [] }
    ensures { result ≡ grants_allow (grants_at rights.now.grants address.now) target.now needs.now }
{
    let mut rest = rights.entries();
    while let Some((entry, others)) = rest.split_first() {
        if is_for(&entry.network, address) && is_usable(entry.grant, target, needs) {
            return true;
        }
        rest = others;
    }
    false
}

fn is_expired(until: Option<u64>, tick: u64) -> bool
    ensures { result ≡ verdict.is_expired until tick }
{
    match until {
        None => false,
        Some(until) => until <= tick,
    }
}

impl LimitedRights {
    /// The rights, with addresses that decide over all. The only error is out of memory.
    pub(crate) fn of(
        alloc: Global,
        rights: Rights,
        until: Option<u64>,
    ) -> Result<LimitedRights, OutOfMemory>
        requires networks { has_networks rights.grants ≡ true }
        requires until { rights.until ≡ until }
        ensures { IfOk result (λ limited. limited ≡ rights) }
    {
        let samples = addresses(alloc, &[&rights])?;
        Ok(LimitedRights {
            rights,
            until,
            samples,
        })
    }

    pub(crate) fn as_rights(&self) -> &Rights
        ensures is { result.now ≡ self.now }
        ensures networks { has_networks self.now.grants ≡ true }
    {
        &self.rights
    }

    /// Whether the rights allow a request without calls from an address.
    pub(crate) fn judge_at(
        &self,
        address: &Address,
        target: &Target<'_>,
        needs: &Needs,
        tick: u64,
    ) -> bool
        requires { needs.now.calls ≡ [] }
        ensures { result ≡ allowed_at self.now target.now needs.now tick address.now }
    {
        !is_expired(self.until, tick) && allow_at(&self.rights, address, target, needs)
    }

    /// The first sample at which the verdict is this one.
    fn first_at(
        &self,
        target: &Target<'_>,
        needs: &Needs,
        tick: u64,
        verdict: bool,
    ) -> Option<Address>
        requires { needs.now.calls ≡ [] }
        ensures { MatchOption result ((a : Address) → IsAddress a → allowed_at self.now target.now needs.now tick a ≡ not verdict) (λ a. IsAddress a × (allowed_at self.now target.now needs.now tick a ≡ verdict)) }
    {
        let samples = self.samples.as_slice();
        for sample in samples {
            if self.judge_at(sample, target, needs, tick) == verdict {
                return Some(*sample);
            }
        }
        None
    }

    /// The verdict on a request without calls from any address.
    pub(crate) fn judge_everywhere(
        &self,
        target: &Target<'_>,
        needs: &Needs,
        tick: u64,
    ) -> Everywhere
        requires { needs.now.calls ≡ [] }
        ensures { IsVerdict self.now target.now needs.now tick result }
    {
        let Some(denied) = self.first_at(target, needs, tick, false) else {
            return Everywhere::Allowed;
        };
        let Some(allowed) = self.first_at(target, needs, tick, true) else {
            return Everywhere::Denied;
        };
        Everywhere::Depends { allowed, denied }
    }
}

//! Verdicts at an address, and at all addresses.

ghost use Rattle.std.specs.Prelude.{◌≡◌, not, All, IfOk, MatchOption};
ghost use Rattle.std.specs.List.{Contains};
ghost use Rattle.rights_core.specs.Verdicts.{allowed_at};
ghost use Rattle.rights_core.specs.Verdicts as spec;

use crate::rights::Rights;
use crate::sampling::addresses;
use common_types::OutOfMemory;
use network_core::Address;
use request_types::{Needs, Target};
use std::alloc::Global;
use verdict_core::judge;

/// The verdict on a request whose address is not given.
#[derive(Clone, Copy, Debug, PartialEq, Eq)]
pub enum Everywhere {
    /// Every address is allowed.
    Allowed,
    /// No address is allowed.
    Denied,
    /// Some addresses are allowed, and others are denied: one of each.
    Depends { allowed: Address, denied: Address },
}

/// Whether the rights allow a request from an address at a tick: the decision rule on the grants that the address has.
pub fn judge_at(
    alloc: Global,
    rights: &Rights,
    address: &Address,
    target: &Target<'_>,
    needs: &Needs,
    tick: u64,
) -> Result<bool, OutOfMemory>
    ensures { IfOk result (λ allowed. allowed ≡ allowed_at rights.now target.now needs.now tick address.now) }
{
    match rights.as_ticket() {
        Some(ticket) => Ok(judge(ticket, target, needs, tick)),
        None => Ok(judge(&rights.at(alloc, address)?, target, needs, tick)),
    }
}

/// The first of some addresses at which the verdict is this one.
fn first_at(
    alloc: Global,
    rights: &Rights,
    samples: &[Address],
    target: &Target<'_>,
    needs: &Needs,
    tick: u64,
    verdict: bool,
) -> Result<Option<Address>, OutOfMemory>
    ensures { IfOk result (λ first. MatchOption first (All (λ a. allowed_at rights.now target.now needs.now tick a ≡ not verdict) samples.now) (λ a. Contains samples.now a × (allowed_at rights.now target.now needs.now tick a ≡ verdict))) }
{
    for sample in samples {
        if judge_at(alloc, rights, sample, target, needs, tick)? == verdict {
            return Ok(Some(*sample));
        }
    }
    Ok(None)
}

/// The verdict on a request from any address at a tick, exactly: what holds at the samples holds at all addresses.
pub fn judge_everywhere(
    alloc: Global,
    rights: &Rights,
    target: &Target<'_>,
    needs: &Needs,
    tick: u64,
) -> Result<Everywhere, OutOfMemory>
    ensures { IfOk result (spec.IsVerdict rights.now target.now needs.now tick) }
{
    if let Some(ticket) = rights.as_ticket() {
        if judge(ticket, target, needs, tick) {
            return Ok(Everywhere::Allowed);
        }
        return Ok(Everywhere::Denied);
    }
    let samples = addresses(alloc, &[rights])?;
    let samples = samples.as_slice();
    let Some(denied) = first_at(alloc, rights, samples, target, needs, tick, false)? else {
        return Ok(Everywhere::Allowed);
    };
    let Some(allowed) = first_at(alloc, rights, samples, target, needs, tick, true)? else {
        return Ok(Everywhere::Denied);
    };
    Ok(Everywhere::Depends { allowed, denied })
}
